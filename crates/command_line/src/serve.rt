ghost use Rattle.std.specs.Prelude.{◌≡◌, IfOk, IfSome, IfNone, false};
ghost use Rattle.clap.specs.Words.{found_of, rows_of, shape_of};
ghost use Rattle.clap.specs.declared.builder.command.Command.TheViews.{out-Command};
ghost use Rattle.command_line.specs.Met.{GivesCounts, LacksServeValue, value_among};
ghost use Rattle.command_line.specs.Program.{serve};
ghost use Rattle.command_line.specs.Serve.{AsksToServe, HasBadServeValue};

use crate::mount::{CACHE, LOG, LOST, MountRequest, STORE, VOLUME, mount_in};
use crate::options::{OptionText, with_options};
use crate::values::number_between;
use clap::{ArgMatches, Command};
use std::alloc::{AllocError, Global};

// The most workers.
pub(crate) const MAX_WORKERS: u64 = 8;

// The most lanes.
pub(crate) const MAX_LANES: u64 = 16;

// The most sessions.
pub(crate) const MAX_SESSIONS: u64 = 0xFFFF_FFFF;

/// What `serve` asks for: a volume that is mounted, and served to clients of NBD that connect to a socket.
#[derive(Clone, Copy, Debug, PartialEq, Eq)]
pub struct ServeRequest<'a> {
    /// The volume, with its cache device.
    pub mount: MountRequest<'a>,
    /// The path of the socket.
    pub socket: &'a str,
    /// The threads that put objects into the store beside the lanes: 0 to 8.
    pub workers: u64,
    /// The lanes, each of which serves one session after another: 1 to 16.
    pub lanes: u64,
    /// The sessions after which the server ends: 1 to 2^32 - 1.
    pub sessions: u64,
}

// The options of `serve`.
const OPTIONS: &[OptionText] = &[
    STORE,
    VOLUME,
    CACHE,
    OptionText::Required {
        name: "socket",
        value: "PATH",
        help: "Path of the socket that clients connect to",
    },
    LOST,
    LOG,
    OptionText::Defaulted {
        name: "workers",
        value: "THREADS",
        help: "Threads that put objects into the store: 0 to 8, of which none runs yet",
        default: "2",
    },
    OptionText::Defaulted {
        name: "lanes",
        value: "SESSIONS",
        help: "Sessions that are served at once: 1 to 16, of which one runs yet",
        default: "4",
    },
    OptionText::Defaulted {
        name: "sessions",
        value: "SESSIONS",
        help: "Sessions after which the server ends: 1 to 4294967295",
        default: "1048576",
    },
];

// `serve`, with its options.
pub(crate) fn serve_command<'a>(alloc: Global) -> Result<Command<'a>, AllocError>
    ensures shape { IfOk result (λ command. shape_of command ≡ serve) }
    ensures local { IfOk result (λ command. (out-Command command).has_globals ≡ false) }
{
    let command = Command::new(alloc, "serve").about(
        "Serve a volume to clients of NBD that connect to a socket",
    );
    with_options(alloc, command, OPTIONS)
}

// What the values of the options ask for. None is for a text that is no number in its limits, or no uuid.
pub(crate) fn serve_in<'a>(values: &ArgMatches<'a>) -> Option<ServeRequest<'a>>
    ensures found { IfSome result (AsksToServe (value_among (rows_of (found_of values.now)))) }
    ensures none { IfNone result (LacksServeValue (value_among (rows_of (found_of values.now)))) }
{
    let Some(mount) = mount_in(values) else {
        return None;
    };
    let Counts {
        workers,
        lanes,
        sessions,
    } = counts_in(values)?;
    Some(ServeRequest {
        mount,
        socket: values.get_str("socket")?,
        workers,
        lanes,
        sessions,
    })
}

// How much is done at once, and how long.
struct Counts {
    workers: u64,
    lanes: u64,
    sessions: u64,
}

// The counts that the values give. None is for a text that is no number in its limits.
fn counts_in(values: &ArgMatches<'_>) -> Option<Counts>
    ensures found { IfSome result (GivesCounts (value_among (rows_of (found_of values.now)))) }
    ensures none { IfNone result (HasBadServeValue (value_among (rows_of (found_of values.now)))) }
{
    Some(Counts {
        workers: number_between(values, "workers", 0, MAX_WORKERS)?,
        lanes: number_between(values, "lanes", 1, MAX_LANES)?,
        sessions: number_between(values, "sessions", 1, MAX_SESSIONS)?,
    })
}
