ghost use Rattle.std.specs.Prelude.{◌≡◌, IfOk, IfSome, IfNone, IsTrue, false};
ghost use Rattle.clap.specs.Words.{found_of, rows_of, shape_of};
ghost use Rattle.clap.specs.declared.builder.command.Command.TheViews.{out-Command};
ghost use Rattle.lsvd_base.specs.Limits.{is_within_limits};
ghost use Rattle.command_line.specs.Create.{AsksToCreate, GivesSizes, HasBadValue, sizes_of};
ghost use Rattle.command_line.specs.Met.{LacksValue, value_among};
ghost use Rattle.command_line.specs.Program.{create};

use crate::options::{OptionText, with_options};
use crate::values::{Files, files_in, number_in, uuid_in};
use clap::{ArgMatches, Command};
use lsvd_base::Geometry;
use std::alloc::{AllocError, Global};
use uuid::Uuid;

/// What `create` asks for: a volume in a store, with a cache device. Its sizes keep the limits of a volume.
#[derive(Clone, Copy, Debug, PartialEq, Eq)]
pub struct CreateRequest<'a> {
    /// The directory of the store.
    pub store: &'a str,
    /// The file of the cache device.
    pub cache: &'a str,
    /// The sectors of the volume: 8 to 2^31.
    pub sectors: u64,
    /// The sectors of the log on the cache device: at least two records of the longest write, at most 2^31.
    pub log: u64,
    /// The most sectors of one read or write: 8 to 65,536.
    pub max_write: u64,
    /// The sectors that make a batch of writes full: 1 to 65,536.
    pub batch: u64,
    /// The volume's uuid. None asks for a new one.
    pub uuid: Option<Uuid>,
}

impl CreateRequest<'_> {
    /// The sizes of the volume and of its log.
    pub fn geometry(&self) -> Geometry
        ensures { result ≡ sizes_of self.now }
    {
        Geometry {
            sectors: self.sectors,
            max_write: self.max_write,
            batch: self.batch,
            log: self.log,
        }
    }
}

// The options of `create`.
const OPTIONS: &[OptionText] = &[
    OptionText::Required {
        name: "store",
        value: "DIRECTORY",
        help: "Directory of the store, made where it is absent",
    },
    OptionText::Required {
        name: "cache",
        value: "FILE",
        help: "File of the cache device, made anew",
    },
    OptionText::Required {
        name: "sectors",
        value: "SECTORS",
        help: "Sectors of the volume, of 512 bytes each: 8 to 2147483648",
    },
    OptionText::Required {
        name: "log",
        value: "SECTORS",
        help: "Sectors of the log on the cache device: 2 * (max-write + 1) to 2147483648",
    },
    OptionText::Defaulted {
        name: "max-write",
        value: "SECTORS",
        help: "Most sectors of one read or write: 8 to 65536",
        default: "65536",
    },
    OptionText::Defaulted {
        name: "batch",
        value: "SECTORS",
        help: "Sectors that make a batch of writes full: 1 to 65536",
        default: "16384",
    },
    OptionText::Optional {
        name: "uuid",
        value: "UUID",
        help: "UUID of the volume [default: a random one]",
    },
];

// `create`, with its options.
pub(crate) fn create_command<'a>(alloc: Global) -> Result<Command<'a>, AllocError>
    ensures shape { IfOk result (λ command. shape_of command ≡ create) }
    ensures local { IfOk result (λ command. (out-Command command).has_globals ≡ false) }
{
    let command = Command::new(alloc, "create").about(
        "Create a volume in a store, and format its cache device",
    );
    with_options(alloc, command, OPTIONS)
}

// What the values of the options ask for. None is for a size that is no number, for sizes past their limits,
// and for a text that is no uuid.
pub(crate) fn create_in<'a>(values: &ArgMatches<'a>) -> Option<CreateRequest<'a>>
    ensures found { IfSome result (AsksToCreate (value_among (rows_of (found_of values.now)))) }
    ensures none { IfNone result (LacksValue (value_among (rows_of (found_of values.now)))) }
{
    let sizes = sizes_in(values)?;
    let Files { store, cache } = files_in(values)?;
    Some(CreateRequest {
        store,
        cache,
        sectors: sizes.sectors,
        log: sizes.log,
        max_write: sizes.max_write,
        batch: sizes.batch,
        uuid: uuid_in(values, "uuid")?,
    })
}

// The sizes that the values give. None is for one that is no number, and for sizes past their limits.
fn sizes_in(values: &ArgMatches<'_>) -> Option<Geometry>
    ensures found { IfSome result (λ sizes. GivesSizes (value_among (rows_of (found_of values.now))) sizes
        × IsTrue (is_within_limits sizes)) }
    ensures none { IfNone result (HasBadValue (value_among (rows_of (found_of values.now)))) }
{
    let sizes = Geometry {
        sectors: number_in(values, "sectors")?,
        max_write: number_in(values, "max-write")?,
        batch: number_in(values, "batch")?,
        log: number_in(values, "log")?,
    };
    sizes.is_within_limits().then_some(sizes)
}
