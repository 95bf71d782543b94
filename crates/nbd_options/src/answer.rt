ghost use Rattle.nbd_options.specs.Answers.{IsAnswer, IsAnswerUnread, info_option};

use crate::export::{Export, has_name};
use crate::info::{has_type, parts_of};

// The numbers of the options that are answered for themselves.
const EXPORT_NAME: u32 = 1;

const ABORT: u32 = 2;

const LIST: u32 = 3;

const INFO: u32 = 6;

const GO: u32 = 7;

// The type of the information on blocks.
pub(crate) const BLOCK_SIZE: u16 = 3;

/// What is answered to an option.
#[derive(Clone, Copy, Debug, PartialEq, Eq)]
pub enum Answer {
    /// Transmission begins at once. The export is sent, with no reply to the option.
    Exported,
    /// The connection is closed: there is no export of that name, and the option has no replies.
    Closed,
    /// The client ends the negotiation, which is acknowledged.
    Aborted,
    /// The export is named.
    Listed,
    /// The export is described.
    Described {
        /// Transmission begins after it.
        enters: bool,
        /// Its blocks are described too.
        blocks: bool,
    },
    /// There is no export of that name.
    Unknown,
    /// The data of the option are not as they should be.
    Invalid,
    /// The option is not known.
    Unsupported,
    /// The data of the option are too long to be read.
    TooBig,
}

/// What is answered to the option with this number and these data, for this export. Any number and any data
/// may come, but longer data than `MAX_OPTION_DATA` bytes are for `answer_unread`. The rules are
/// those of the NBD protocol document for the fixed newstyle; an option that it does not know, or that this
/// server does not take, as the one for TLS, is not supported.
pub fn answer_of(export: &Export, option: u32, content: &[u8]) -> Answer
    ensures { IsAnswer export.now option content.now result }
{
    match option {
        EXPORT_NAME if has_name(export, content) => Answer::Exported,
        EXPORT_NAME => Answer::Closed,
        ABORT => Answer::Aborted,
        LIST if content.is_empty() => Answer::Listed,
        LIST => Answer::Invalid,
        INFO => info_answer(export, false, content),
        GO => info_answer(export, true, content),
        _ => Answer::Unsupported,
    }
}

/// What is answered to the option with this number where its data have more than `MAX_OPTION_DATA`
/// bytes, whatever they are.
pub fn answer_unread(option: u32) -> Answer
    ensures { IsAnswerUnread option result }
{
    if option == EXPORT_NAME {
        Answer::Closed
    } else {
        Answer::TooBig
    }
}

// What is answered to an option that asks for information, and enters the export or not.
fn info_answer(export: &Export, enters: bool, content: &[u8]) -> Answer
    ensures { IsAnswer export.now (info_option enters) content.now result }
{
    let Some((name, types)) = parts_of(content) else {
        return Answer::Invalid;
    };
    if !has_name(export, name) {
        return Answer::Unknown;
    }
    let blocks = has_type(types, BLOCK_SIZE);
    Answer::Described { enters, blocks }
}
