/// The head of an option, which a client sends in negotiation.
#[derive(Clone, Copy, Debug, PartialEq, Eq)]
pub struct OptionHead {
    /// The number of the option. It may be one that no document knows.
    pub option: u32,
    /// The bytes of data that come after the head.
    pub length: u32,
}

/// A request, which a client sends in transmission. The data of a write come after it.
#[derive(Clone, Copy, Debug, PartialEq, Eq)]
pub struct Request {
    /// The command flags. Any bits may be set.
    pub flags: u16,
    /// The type of the request: which command it is. It may be one that no document knows.
    pub kind: u16,
    /// What the client knows the request by; its reply has it too.
    pub cookie: u64,
    /// The first byte of the export that it is about.
    pub offset: u64,
    /// The bytes that it is about. Those of a write come after it.
    pub length: u32,
}
