ghost use Rattle.std.specs.Prelude.{◌≡◌, ◌≤◌, ◌↔◌, ℕ, IsTrue, IfSome, IfNone, length, take, codes};
ghost use Rattle.nbd_wire.specs.declared.message.OptionHead.{OptionHead};
ghost use Rattle.nbd_wire.specs.declared.message.Request.{Request};
ghost use Rattle.nbd_wire.specs.Messages.{IsClientFlags, IsOptionHead, IsRequest};

use crate::message::{OptionHead, Request};
use crate::{CLIENT_FLAGS, OPTION_MAGIC, REQUEST_MAGIC};
use lsvd_bytes::{read_u16, read_u32, read_u64};

// The flags of a client that four bytes are. None is for flags that are not known.
pub(crate) fn client_flags_of(bytes: &[u8]) -> Option<u32>
    requires { length bytes.now ≡ 4 }
    ensures found { IfSome result (IsClientFlags bytes.now) }
    ensures none { IfNone result ((flags : ℕ) → IsClientFlags bytes.now flags → ⊥) }
{
    let flags = read_u32(bytes, 0);
    if flags > CLIENT_FLAGS {
        return None;
    }
    Some(flags)
}

// The head of an option that sixteen bytes are. None is for another magic.
pub(crate) fn option_head_of(bytes: &[u8]) -> Option<OptionHead>
    requires { length bytes.now ≡ 16 }
    ensures found { IfSome result (IsOptionHead bytes.now) }
    ensures none { IfNone result ((head : OptionHead) → IsOptionHead bytes.now head → ⊥) }
{
    if !has_option_magic(bytes) {
        return None;
    }
    Some(OptionHead {
        option: read_u32(bytes, 8),
        length: read_u32(bytes, 12),
    })
}

// Whether the bytes begin with the magic of an option.
fn has_option_magic(bytes: &[u8]) -> bool
    requires { 8 ≤ length bytes.now }
    ensures { IsTrue result ↔ (take 8 bytes.now ≡ codes "IHAVEOPT") }
{
    &bytes[..8] == OPTION_MAGIC.as_slice()
}

// The request that 28 bytes are. None is for another magic.
pub(crate) fn request_of(bytes: &[u8]) -> Option<Request>
    requires { length bytes.now ≡ 28 }
    ensures found { IfSome result (IsRequest bytes.now) }
    ensures none { IfNone result ((request : Request) → IsRequest bytes.now request → ⊥) }
{
    if read_u32(bytes, 0) != REQUEST_MAGIC {
        return None;
    }
    Some(Request {
        flags: read_u16(bytes, 4),
        kind: read_u16(bytes, 6),
        cookie: read_u64(bytes, 8),
        offset: read_u64(bytes, 16),
        length: read_u32(bytes, 24),
    })
}
