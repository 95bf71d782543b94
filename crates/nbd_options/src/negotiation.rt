ghost use Rattle.std.specs.Prelude.{◌≡◌, length, vec_len, IfOk};
ghost use Rattle.lsvd_fault.specs.Faults.{Counts};
ghost use Rattle.nbd_wire.specs.Reading.{ReadsData, is_link_fault};
ghost use Rattle.nbd_options.specs.declared.export.Export.{Export};
ghost use Rattle.nbd_options.specs.Answers.{IsAnswerTo};
ghost use Rattle.nbd_options.specs.Negotiation.{Negotiates, end_from, end_of, is_fault};
ghost use Rattle.nbd_options.specs.Steps.{AnswersOption, Greets, end_in};

use crate::answer::{Answer, answer_of, answer_unread};
use crate::export::Export;
use crate::replies::write_answer;
use lsvd_fault::{Link, Source};
use nbd_wire::{
    OptionHead, WireEnd, drop_data, read_data, read_flags, read_option_head, write_greeting,
};
use std::alloc::{AllocError, Global};

/// The most options that one negotiation answers, refused ones included. The one after them closes the
/// connection.
pub const MAX_OPTIONS: u32 = 1_024;

/// The most bytes of data that an option is read with.
pub const MAX_OPTION_DATA: u32 = 65_536;

// The flag of a client that wants no zeros after an export.
const NO_ZEROES: u32 = 2;

/// How a negotiation ends.
#[derive(Clone, Copy, Debug, PartialEq, Eq)]
pub enum NegotiationEnd {
    /// The client has entered the export, and its requests come next. The flags of the client have no more
    /// meaning.
    Entered,
    /// The client has ended it, by the option to abort, or by the end of its input between two messages.
    Ended,
    /// The connection is to be closed: the input ends inside a message, or a magic is another, or the
    /// client's flags have another bit, or an option came after `MAX_OPTIONS`, or the option that enters an
    /// export at once named no export.
    Closed,
    /// A read or a write of the link failed, and was counted there.
    LinkFault,
    /// There was no memory for the data of options. Nothing was read, and nothing was sent.
    OutOfMemory,
}

impl From<WireEnd> for NegotiationEnd {
    ghost use Rattle.std.specs.Prelude.{◌≡◌};
    ghost use Rattle.nbd_options.specs.Negotiation.{end_from};

    ghost from_gives = { λ w e. e ≡ end_from w };

    fn from(end: WireEnd) -> NegotiationEnd {
        match end {
            WireEnd::Ended => NegotiationEnd::Ended,
            WireEnd::Closed => NegotiationEnd::Closed,
            WireEnd::LinkFault => NegotiationEnd::LinkFault,
        }
    }
}

/// Negotiates with a client, as the server of this export: the greeting is sent, the client's flags are read,
/// and then each option is read and answered, until one enters the export or ends the negotiation, or the
/// connection is to be closed.
///
/// Nothing past the last option is read where the client has entered. All memory is taken before the
/// greeting, for `MAX_OPTION_DATA` bytes: longer data of an option are read in pieces and dropped. After a
/// fault what was sent is a front of the negotiation's bytes.
pub fn negotiate<K: Link>(alloc: Global, link: &mut K, export: &Export) -> NegotiationEnd
    ensures bytes { Negotiates export.now result (K.remaining link.old) (K.remaining link.new)
        (K.contents link.old) (K.contents link.new) }
    ensures count { Counts (is_fault result) (K.Source.faults link.old) (K.Source.faults link.new) }
{
    let Ok(mut content) = room_for_data(alloc) else {
        return NegotiationEnd::OutOfMemory;
    };
    match answer_options(link, export, content.as_mut_slice()) {
        Ok(end) => end,
        Err(end) => NegotiationEnd::from(end),
    }
}

// Room for the data of an option.
fn room_for_data(alloc: Global) -> Result<Vec<u8>, AllocError>
    ensures { IfOk result (λ content. vec_len content ≡ MAX_OPTION_DATA) }
{
    vec![in alloc; 0u8; MAX_OPTION_DATA as usize]
}

// The negotiation, where a message that cannot be read or written ends it by `?`. The data of options are
// read into `content`.
fn answer_options<K: Link>(
    link: &mut K,
    export: &Export,
    content: &mut [u8],
) -> Result<NegotiationEnd, WireEnd>
    requires { length content.old ≡ MAX_OPTION_DATA }
    ensures bytes { Negotiates export.now (end_in result) (K.remaining link.old) (K.remaining link.new)
        (K.contents link.old) (K.contents link.new) }
    ensures count { Counts (is_fault (end_in result)) (K.Source.faults link.old) (K.Source.faults link.new) }
{
    let zeroes = greet(link)?;
    for _ in 0..MAX_OPTIONS {
        let answer = answer_option(link, export, zeroes, content)?;
        if let Some(end) = end_of(answer) {
            return Ok(end);
        }
    }
    read_option_head(link)?;
    Ok(NegotiationEnd::Closed)
}

// Sends the greeting and reads the client's flags: whether zeros are sent after an export.
fn greet<K: Link>(link: &mut K) -> Result<bool, WireEnd>
    ensures bytes { (export : Export) → Greets export (K.remaining link.old) (K.remaining link.new)
        (K.contents link.old) (K.contents link.new) result }
    ensures count { Counts (is_link_fault result) (K.Source.faults link.old) (K.Source.faults link.new) }
{
    write_greeting(link)?;
    let flags = read_flags(link)?;
    Ok(flags & NO_ZEROES == 0)
}

// Reads an option and answers it.
fn answer_option<K: Link>(
    link: &mut K,
    export: &Export,
    zeroes: bool,
    content: &mut [u8],
) -> Result<Answer, WireEnd>
    requires { length content.old ≡ MAX_OPTION_DATA }
    ensures bytes { AnswersOption export.now zeroes (K.remaining link.old) (K.remaining link.new)
        (K.contents link.old) (K.contents link.new) result }
    ensures count { Counts (is_link_fault result) (K.Source.faults link.old) (K.Source.faults link.new) }
{
    let head = read_option_head(link)?;
    let answer = read_to_answer(link, export, head, content)?;
    write_answer(link, export, head.option, zeroes, answer)?;
    Ok(answer)
}

// Reads the data of the option with this head, or drops them where they are too long: what is answered to it.
fn read_to_answer<K: Source>(
    link: &mut K,
    export: &Export,
    head: OptionHead,
    content: &mut [u8],
) -> Result<Answer, WireEnd>
    requires { length content.old ≡ MAX_OPTION_DATA }
    ensures bytes { ReadsData head.length (IsAnswerTo export.now head.option) (K.remaining link.old)
        (K.remaining link.new) result }
    ensures other { K.written link.new ≡ K.written link.old }
    ensures count { Counts (is_link_fault result) (K.faults link.old) (K.faults link.new) }
{
    if head.length > MAX_OPTION_DATA {
        drop_data(link, head.length)?;
        return Ok(answer_unread(head.option));
    }
    let read = &mut content[..head.length as usize];
    read_data(link, read)?;
    Ok(answer_of(export, head.option, read))
}

// The end that comes with an answer, if any.
fn end_of(answer: Answer) -> Option<NegotiationEnd>
    ensures { result ≡ end_of answer }
{
    match answer {
        Answer::Exported | Answer::Described { enters: true, .. } => Some(NegotiationEnd::Entered),
        Answer::Aborted => Some(NegotiationEnd::Ended),
        Answer::Closed => Some(NegotiationEnd::Closed),
        Answer::Listed
        | Answer::Described { enters: false, .. }
        | Answer::Unknown
        | Answer::Invalid
        | Answer::Unsupported
        | Answer::TooBig => None,
    }
}
