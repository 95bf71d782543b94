ghost use Rattle.std.specs.Prelude.{◌≡◌};
ghost use Rattle.transcript.specs.Reason.{code_of};

/// Why a line of a script is bad: of the reasons that apply, `TooLong` if it does, and else the first in this
/// order.
#[derive(Clone, Copy, Debug, PartialEq, Eq)]
pub enum LineReason {
    /// It does not begin with the name of a command.
    UnknownCommand,
    /// It has another number of words than its command.
    WordCount,
    /// A word is not a number or a byte in its form, or the sizes of `new` are outside the limits of a
    /// volume.
    Form,
    /// Its command is not allowed where it stands: `new` comes first, and only there; a put is done or fails
    /// only where it was begun; a copy is sealed or given up only where its plan is out; and the device is
    /// told to stop only where it was not.
    NotAllowed,
    /// Its letters do not fit the writes that were not synced, or the objects under way.
    Letters,
    /// It is longer than a line may be, or the script passes its limit in it.
    TooLong,
}

impl LineReason {
    /// The number that is told for it.
    pub fn code(self) -> u8
        ensures { result ≡ code_of self }
    {
        match self {
            LineReason::UnknownCommand => 1,
            LineReason::WordCount => 2,
            LineReason::Form => 3,
            LineReason::NotAllowed => 4,
            LineReason::Letters => 5,
            LineReason::TooLong => 6,
        }
    }
}
