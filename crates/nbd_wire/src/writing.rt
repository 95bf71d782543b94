ghost use Rattle.std.specs.Prelude.{◌≡◌, ◌<◌, ◌^◌, ◌++◌, length};
ghost use Rattle.lsvd_fault.specs.Faults.{Counts};
ghost use Rattle.nbd_wire.specs.Messages.{greeting_bytes, option_reply_bytes, export_bytes};
ghost use Rattle.nbd_wire.specs.Messages.{simple_reply_bytes};
ghost use Rattle.nbd_wire.specs.Reading.{is_link_fault};
ghost use Rattle.nbd_wire.specs.Writing.{WritesMessage};

use crate::EXPORT_BYTES;
use crate::encoding::{export_with_zeros, option_reply_head, simple_reply_head};
use crate::wire_end::WireEnd;
use lsvd_fault::{Sink, write_all};

// The greeting: both magics, and the flags for the fixed newstyle and for no zeros after an export.
const GREETING: [u8; 18] = *b"NBDMAGICIHAVEOPT\x00\x03";

/// Writes the greeting of a server, which offers the fixed newstyle and to leave out the zeros after an
/// export. The one error is `LinkFault`; a front of the bytes was written then.
pub fn write_greeting<K: Sink>(link: &mut K) -> Result<(), WireEnd>
    ensures bytes { WritesMessage greeting_bytes (K.contents link.old) (K.contents link.new) result }
    ensures other { K.unread link.new ≡ K.unread link.old }
    ensures count { Counts (is_link_fault result) (K.faults link.old) (K.faults link.new) }
{
    write_all(link, &GREETING)?;
    Ok(())
}

/// Writes a reply to an option: the option's number, the type of the reply, and its data, which are fewer
/// than 2^32 bytes (a condition). The one error is `LinkFault`; a front of the bytes was written then.
pub fn write_option_reply<K: Sink>(
    link: &mut K,
    option: u32,
    kind: u32,
    content: &[u8],
) -> Result<(), WireEnd>
    requires { length content.now < 2 ^ 32 }
    ensures bytes { WritesMessage (option_reply_bytes option kind content.now) (K.contents link.old)
        (K.contents link.new) result }
    ensures other { K.unread link.new ≡ K.unread link.old }
    ensures count { Counts (is_link_fault result) (K.faults link.old) (K.faults link.new) }
{
    let head = option_reply_head(option, kind, content.len() as u32);
    write_both(link, &head, content)
}

/// Writes the answer to the option that enters an export at once: the export's size in bytes, its
/// transmission flags, and 124 zeros, unless both sides said to leave them out. The one error is `LinkFault`;
/// a front of the bytes was written then.
pub fn write_export<K: Sink>(
    link: &mut K,
    size: u64,
    flags: u16,
    zeroes: bool,
) -> Result<(), WireEnd>
    ensures bytes { WritesMessage (export_bytes size flags zeroes) (K.contents link.old)
        (K.contents link.new) result }
    ensures other { K.unread link.new ≡ K.unread link.old }
    ensures count { Counts (is_link_fault result) (K.faults link.old) (K.faults link.new) }
{
    let bytes = export_with_zeros(size, flags);
    let end = if zeroes { bytes.len() } else { EXPORT_BYTES };
    write_all(link, &bytes[..end])?;
    Ok(())
}

/// Writes a simple reply: the error, which is 0 where there is none, the cookie of the request, and the data
/// of a read that was answered. The one error is `LinkFault`; a front of the bytes was written then.
pub fn write_simple<K: Sink>(
    link: &mut K,
    error: u32,
    cookie: u64,
    content: &[u8],
) -> Result<(), WireEnd>
    ensures bytes { WritesMessage (simple_reply_bytes error cookie content.now) (K.contents link.old)
        (K.contents link.new) result }
    ensures other { K.unread link.new ≡ K.unread link.old }
    ensures count { Counts (is_link_fault result) (K.faults link.old) (K.faults link.new) }
{
    write_both(link, &simple_reply_head(error, cookie), content)
}

// Writes the head of a message and its data, which are not copied for it.
fn write_both<K: Sink>(link: &mut K, head: &[u8], content: &[u8]) -> Result<(), WireEnd>
    ensures bytes { WritesMessage (head.now ++ content.now) (K.contents link.old)
        (K.contents link.new) result }
    ensures other { K.unread link.new ≡ K.unread link.old }
    ensures count { Counts (is_link_fault result) (K.faults link.old) (K.faults link.new) }
{
    write_all(link, head)?;
    write_all(link, content)?;
    Ok(())
}
