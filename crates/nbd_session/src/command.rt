ghost use Rattle.std.specs.Prelude.{◌≡◌};
ghost use Rattle.nbd_session.specs.Requests.{command_at};

/// A command that the server takes.
#[derive(Clone, Copy, Debug, PartialEq, Eq)]
pub enum Command {
    /// Give bytes of the export.
    Read,
    /// Write bytes, which come after the request.
    Write,
    /// End the session.
    Disconnect,
    /// Make durable what was answered.
    Flush,
    /// Say that bytes are not needed. They are zeros then.
    Trim,
    /// Put zeros.
    WriteZeroes,
}

impl Command {
    /// The command whose type this is, by the protocol's numbers. None is for a type that the server does not
    /// take.
    pub fn from_kind(kind: u16) -> Option<Command>
        ensures { result ≡ command_at kind }
    {
        match kind {
            0 => Some(Command::Read),
            1 => Some(Command::Write),
            2 => Some(Command::Disconnect),
            3 => Some(Command::Flush),
            4 => Some(Command::Trim),
            6 => Some(Command::WriteZeroes),
            _ => None,
        }
    }
}
