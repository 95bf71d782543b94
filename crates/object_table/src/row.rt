ghost use Rattle.std.specs.Prelude.{◌≡◌};
ghost use Rattle.object_table.specs.Table.{new_row, numbers, is_candidate};
ghost use Rattle.object_table.specs.Lists.{Climbs, IsPlaceOf, is_dead, is_free};

// A collection writes the live sectors of an object anew to free the others. From 70 live ones in a hundred
// on it would write more than twice what it frees, so such an object is left as it is.
const MOST_LIVE: u128 = 70;

// So many parts are a whole payload, of which MOST_LIVE counts some.
const WHOLE: u128 = 100;

/// What is known of an object that stands in the store.
#[derive(Clone, Copy, Debug, PartialEq, Eq)]
pub struct ObjectRow {
    /// Its number, from 1 on.
    pub number: u64,
    /// How many sectors of payload it has; 0 where nothing maps it, and nobody asked.
    pub payload: u64,
    /// How many sectors it has before the payload; 0 where it has none.
    pub front: u64,
    /// How many sectors of the settled map are in it.
    pub live: u64,
    /// How often it is pinned.
    pub pins: u64,
    /// Whether the plan of a copy takes sectors from it.
    pub is_copied: bool,
    /// Whether the newest acknowledged checkpoint has a greater number and does not map it.
    pub is_unmapped: bool,
    /// Whether a hold keeps it: the held checkpoint itself, and what that maps.
    pub is_held: bool,
}

// The row of an object without a live sector, that nothing holds, and that no acknowledged checkpoint has
// passed.
pub(crate) fn new_row(number: u64, payload: u64, front: u64) -> ObjectRow
    ensures { result ≡ new_row number payload front }
{
    ObjectRow {
        number,
        payload,
        front,
        live: 0,
        pins: 0,
        is_copied: false,
        is_unmapped: false,
        is_held: false,
    }
}

// Whether the object has no live sector, and no acknowledged checkpoint has passed it since it lost the last.
pub(crate) fn is_dead(row: &ObjectRow) -> bool
    ensures { result ≡ is_dead row.now }
{
    row.live == 0 && !row.is_unmapped
}

// Whether the newest acknowledged checkpoint does not map the object, and nothing holds it.
pub(crate) fn is_free(row: &ObjectRow) -> bool
    ensures { result ≡ is_free row.now }
{
    row.is_unmapped && row.pins == 0 && !row.is_copied && !row.is_held
}

// Whether a collection may take sectors from the object: it has live ones, and few for its payload, and no
// hold keeps it.
pub(crate) fn is_candidate(row: &ObjectRow) -> bool
    ensures { result ≡ is_candidate row.now }
{
    let is_poor = u128::from(row.live) * WHOLE < MOST_LIVE * u128::from(row.payload);
    row.live > 0 && is_poor && !row.is_held
}

// The place of the row of this number.
pub(crate) fn place_of(rows: &[ObjectRow], number: u64) -> Option<usize>
    requires { Climbs 0 (numbers rows.now) }
    ensures { IsPlaceOf number rows.now result }
{
    rows.binary_search_by_key(&number, |row| row.number).ok()
}
