ghost use Rattle.std.specs.Prelude.{◌≡◌, ◌++◌, replicate};
ghost use Rattle.std.specs.Int.{w16, w64, to_be_bytes};
ghost use Rattle.nbd_wire.specs.Messages.{option_reply_head, simple_reply_head};

use crate::{
    EXPORT_WITH_ZEROS_BYTES, OPTION_REPLY_HEAD_BYTES, OPTION_REPLY_MAGIC, SIMPLE_REPLY_HEAD_BYTES,
    SIMPLE_REPLY_MAGIC,
};
use lsvd_bytes::{write_u16, write_u32, write_u64};

// The head of a reply to an option, which has `size` bytes of data.
pub(crate) fn option_reply_head(option: u32, kind: u32, size: u32) -> [u8; OPTION_REPLY_HEAD_BYTES]
    ensures { result ≡ option_reply_head option kind size }
{
    let mut head = [0; OPTION_REPLY_HEAD_BYTES];
    write_u64(&mut head, 0, OPTION_REPLY_MAGIC);
    write_u32(&mut head, 8, option);
    write_u32(&mut head, 12, kind);
    write_u32(&mut head, 16, size);
    head
}

// The size and the flags of an export, with the zeros after them.
pub(crate) fn export_with_zeros(size: u64, flags: u16) -> [u8; EXPORT_WITH_ZEROS_BYTES]
    ensures { result ≡ to_be_bytes w64 size ++ to_be_bytes w16 flags ++ replicate 124 0 }
{
    let mut bytes = [0; EXPORT_WITH_ZEROS_BYTES];
    write_u64(&mut bytes, 0, size);
    write_u16(&mut bytes, 8, flags);
    bytes
}

// The head of a simple reply.
pub(crate) fn simple_reply_head(error: u32, cookie: u64) -> [u8; SIMPLE_REPLY_HEAD_BYTES]
    ensures { result ≡ simple_reply_head error cookie }
{
    let mut head = [0; SIMPLE_REPLY_HEAD_BYTES];
    write_u32(&mut head, 0, SIMPLE_REPLY_MAGIC);
    write_u32(&mut head, 4, error);
    write_u64(&mut head, 8, cookie);
    head
}
