ghost use Rattle.nbd_wire.specs.Messages.{IsClientFlags, IsOptionHead, IsRequest};
ghost use Rattle.nbd_wire.specs.Laws.{IsReadOneWay, HasFixedSize};

/// A law: what begins bytes as a message is one message alone, whatever comes after it. So what a client
/// wrote is read again as it was.
pub fn a_message_has_one_reading()
    ensures flags { IsReadOneWay IsClientFlags }
    ensures option { IsReadOneWay IsOptionHead }
    ensures request { IsReadOneWay IsRequest }
{}

/// A law: the flags of a client have 4 bytes, the head of an option 16, and a request 28. So none begins
/// another of its kind, and input that ends before that many has none.
pub fn messages_have_their_sizes()
    ensures flags { HasFixedSize 4 IsClientFlags }
    ensures option { HasFixedSize 16 IsOptionHead }
    ensures request { HasFixedSize 28 IsRequest }
{}
