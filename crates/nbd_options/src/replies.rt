ghost use Rattle.std.specs.Prelude.{◌≡◌, ◌++◌, true};
ghost use Rattle.lsvd_fault.specs.Faults.{Counts};
ghost use Rattle.nbd_wire.specs.Messages.{option_reply_bytes};
ghost use Rattle.nbd_wire.specs.Reading.{is_link_fault};
ghost use Rattle.nbd_wire.specs.Writing.{WritesMessage};
ghost use Rattle.nbd_options.specs.Replies.{export_info, block_info, block_reply, acknowledgement};
ghost use Rattle.nbd_options.specs.Replies.{answer_bytes};

use crate::answer::{Answer, BLOCK_SIZE};
use crate::export::{Export, named_export};
use lsvd_bytes::{write_u16, write_u32, write_u64};
use lsvd_fault::Sink;
use nbd_wire::{WireEnd, write_export, write_option_reply};

// The types of replies to an option.
const ACK: u32 = 1;

const SERVER: u32 = 2;

const INFO: u32 = 3;

const ERR_UNSUP: u32 = 0x8000_0001;

const ERR_INVALID: u32 = 0x8000_0003;

const ERR_UNKNOWN: u32 = 0x8000_0006;

const ERR_TOO_BIG: u32 = 0x8000_0009;

// The flags of transmission: there are flags, and flushes, the flag to flush, trims and writes of zeros.
const TRANSMISSION_FLAGS: u16 = 0x6d;

// The least bytes of a request, and the best.
const LEAST_BLOCK: u32 = 512;

const BEST_BLOCK: u32 = 4_096;

/// Writes an answer to the option with this number: its replies, or the export where it is entered at once,
/// with zeros after it or none. The one error is `LinkFault`; a front of the bytes was written then.
pub fn write_answer<K: Sink>(
    link: &mut K,
    export: &Export,
    option: u32,
    zeroes: bool,
    answer: Answer,
) -> Result<(), WireEnd>
    ensures bytes { WritesMessage (answer_bytes export.now option zeroes answer) (K.contents link.old)
        (K.contents link.new) result }
    ensures other { K.unread link.new ≡ K.unread link.old }
    ensures count { Counts (is_link_fault result) (K.faults link.old) (K.faults link.new) }
{
    match answer {
        Answer::Exported => write_export(link, export.size, TRANSMISSION_FLAGS, zeroes),
        Answer::Closed => Ok(()),
        Answer::Aborted => write_option_reply(link, option, ACK, &[]),
        Answer::Listed => write_listed(link, export, option),
        Answer::Described { blocks, .. } => write_described(link, export, option, blocks),
        Answer::Unknown => write_option_reply(link, option, ERR_UNKNOWN, &[]),
        Answer::Invalid => write_option_reply(link, option, ERR_INVALID, &[]),
        Answer::Unsupported => write_option_reply(link, option, ERR_UNSUP, &[]),
        Answer::TooBig => write_option_reply(link, option, ERR_TOO_BIG, &[]),
    }
}

// Writes the name of the export, and the acknowledgement.
fn write_listed<K: Sink>(link: &mut K, export: &Export, option: u32) -> Result<(), WireEnd>
    ensures bytes { WritesMessage (answer_bytes export.now option true Answer.Listed) (K.contents link.old)
        (K.contents link.new) result }
    ensures other { K.unread link.new ≡ K.unread link.old }
    ensures count { Counts (is_link_fault result) (K.faults link.old) (K.faults link.new) }
{
    write_option_reply(link, option, SERVER, &named_export(export))?;
    write_option_reply(link, option, ACK, &[])
}

// Writes the information on the export, that on its blocks where it was asked for, and the acknowledgement.
fn write_described<K: Sink>(
    link: &mut K,
    export: &Export,
    option: u32,
    blocks: bool,
) -> Result<(), WireEnd>
    ensures bytes { WritesMessage (option_reply_bytes option 3 (export_info export.now) ++ block_reply
        export.now option blocks
        ++ acknowledgement option) (K.contents link.old) (K.contents link.new) result }
    ensures other { K.unread link.new ≡ K.unread link.old }
    ensures count { Counts (is_link_fault result) (K.faults link.old) (K.faults link.new) }
{
    write_option_reply(link, option, INFO, &export_info(export))?;
    write_blocks(link, export, option, blocks)?;
    write_option_reply(link, option, ACK, &[])
}

// Writes the information on blocks, where it was asked for.
fn write_blocks<K: Sink>(
    link: &mut K,
    export: &Export,
    option: u32,
    blocks: bool,
) -> Result<(), WireEnd>
    ensures bytes { WritesMessage (block_reply export.now option blocks) (K.contents link.old)
        (K.contents link.new) result }
    ensures other { K.unread link.new ≡ K.unread link.old }
    ensures count { Counts (is_link_fault result) (K.faults link.old) (K.faults link.new) }
{
    if blocks {
        return write_option_reply(link, option, INFO, &block_info(export));
    }
    Ok(())
}

// The information on the export.
fn export_info(export: &Export) -> [u8; 12]
    ensures { result ≡ export_info export.now }
{
    let mut bytes = [0; 12];
    write_u64(&mut bytes, 2, export.size);
    write_u16(&mut bytes, 10, TRANSMISSION_FLAGS);
    bytes
}

// The information on its blocks: the least bytes of a request, the best, and the most.
fn block_info(export: &Export) -> [u8; 14]
    ensures { result ≡ block_info export.now }
{
    let mut bytes = [0; 14];
    write_u16(&mut bytes, 0, BLOCK_SIZE);
    write_u32(&mut bytes, 2, LEAST_BLOCK);
    write_u32(&mut bytes, 6, BEST_BLOCK);
    write_u32(&mut bytes, 10, export.max_transfer);
    bytes
}
