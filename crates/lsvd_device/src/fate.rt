/// What a stop of the machine makes of a write that was not synced.
#[derive(Clone, Copy, Debug, PartialEq, Eq)]
pub enum Fate {
    /// Its bytes stand.
    Kept,
    /// The bytes from before it stand.
    Old,
    /// Zeros stand in its range.
    Zeros,
    /// The first half of its bytes stand, rounded down, and after them the bytes from before it.
    Torn,
}
