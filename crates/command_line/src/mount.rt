ghost use Rattle.std.specs.Prelude.{IfSome, IfNone};
ghost use Rattle.clap.specs.Words.{found_of, rows_of};
ghost use Rattle.command_line.specs.Met.{LacksMountValue, value_among};
ghost use Rattle.command_line.specs.Mount.{AsksToMount};

use crate::options::OptionText;
use crate::values::{Files, files_in, is_set, number_if_given, uuid_in};
use clap::ArgMatches;
use lsvd_base::Geometry;
use uuid::Uuid;

/// A volume of a store, with its cache device, as a command mounts it.
#[derive(Clone, Copy, Debug, PartialEq, Eq)]
pub struct MountRequest<'a> {
    /// The directory of the store.
    pub store: &'a str,
    /// The volume's uuid.
    pub volume: Uuid,
    /// The file of the cache device.
    pub cache: &'a str,
    /// Whether the cache device is lost: the volume is then what the store has.
    pub is_lost: bool,
    /// The sectors of the log of a cache device that is made anew: 0 to 2^31. None is for the file that there
    /// is. It has an effect only where the cache device is lost.
    pub log: Option<u64>,
}

// The options that name the volume and its cache device, which each command that mounts one has.
pub(crate) const STORE: OptionText = OptionText::Required {
    name: "store",
    value: "DIRECTORY",
    help: "Directory of the store",
};

pub(crate) const VOLUME: OptionText = OptionText::Required {
    name: "volume",
    value: "UUID",
    help: "UUID of the volume",
};

pub(crate) const CACHE: OptionText = OptionText::Required {
    name: "cache",
    value: "FILE",
    help: "File of the cache device",
};

pub(crate) const LOST: OptionText = OptionText::Flag {
    name: "lost",
    help: "The cache device is lost: the volume is what the store has",
};

pub(crate) const LOG: OptionText = OptionText::Optional {
    name: "log",
    value: "SECTORS",
    help: "With --lost, sectors of the log on a cache device made anew: 0 to 2147483648 \
           [default: as it is]",
};

// What the values of the options ask for. None is for a text that is no number in its limits, or no uuid.
pub(crate) fn mount_in<'a>(values: &ArgMatches<'a>) -> Option<MountRequest<'a>>
    ensures found { IfSome result (AsksToMount (value_among (rows_of (found_of values.now)))) }
    ensures none { IfNone result (LacksMountValue (value_among (rows_of (found_of values.now)))) }
{
    let Files { store, cache } = files_in(values)?;
    Some(MountRequest {
        store,
        volume: uuid_in(values, "volume")??,
        cache,
        is_lost: is_set(values, "lost"),
        log: number_if_given(values, "log", 0, Geometry::MAX_LOG)?,
    })
}
