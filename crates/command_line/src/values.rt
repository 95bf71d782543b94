ghost use Rattle.std.specs.Prelude.{◌≡◌, ◌≢◌, None, IfSome, IfNone, option_map};
ghost use Rattle.clap.specs.Words.{found_of, rows_of};
ghost use Rattle.uuid.specs.Text.{parsed};
ghost use Rattle.command_line.specs.Met.{LacksFile, NamesFiles, value_among};
ghost use Rattle.command_line.specs.Values.{IsBetween, IsNoUuid, IsNumber, LacksBetween, LacksNumber};
ghost use Rattle.command_line.specs.Values.{MayBeBetween, is_set};

use crate::number::number_of;
use clap::ArgMatches;
use uuid::Uuid;

// The directory of the store, and the file of the cache device.
pub(crate) struct Files<'a> {
    pub(crate) store: &'a str,
    pub(crate) cache: &'a str,
}

// The files that the values name.
pub(crate) fn files_in<'a>(values: &ArgMatches<'a>) -> Option<Files<'a>>
    ensures found { IfSome result (NamesFiles (value_among (rows_of (found_of values.now)))) }
    ensures none { IfNone result (LacksFile (value_among (rows_of (found_of values.now)))) }
{
    Some(Files {
        store: values.get_str("store")?,
        cache: values.get_str("cache")?,
    })
}

// The number that the value of an option spells.
pub(crate) fn number_in(values: &ArgMatches<'_>, name: &str) -> Option<u64>
    ensures found { IfSome result (IsNumber (value_among (rows_of (found_of values.now))) name.now) }
    ensures none { IfNone result (LacksNumber (value_among (rows_of (found_of values.now))) name.now) }
{
    number_of(values.get_str(name)?)
}

// The same, where it is one of the numbers from `least` to `most`.
pub(crate) fn number_between(
    values: &ArgMatches<'_>,
    name: &str,
    least: u64,
    most: u64,
) -> Option<u64>
    ensures found { IfSome result (IsBetween (value_among (rows_of (found_of values.now))) name.now
        least most) }
    ensures none { IfNone result (LacksBetween (value_among (rows_of (found_of values.now))) name.now
        least most) }
{
    let number = number_in(values, name)?;
    if number < least || most < number {
        return None;
    }
    Some(number)
}

// The same of an option that may have no value. The outer None is for a value that is no such number.
pub(crate) fn number_if_given(
    values: &ArgMatches<'_>,
    name: &str,
    least: u64,
    most: u64,
) -> Option<Option<u64>>
    ensures found { IfSome result (MayBeBetween (value_among (rows_of (found_of values.now))) name.now
        least most) }
    ensures none { IfNone result ((value_among (rows_of (found_of values.now)) name.now ≢ None)
        × LacksBetween (value_among (rows_of (found_of values.now))) name.now least most) }
{
    if values.get_str(name).is_none() {
        return Some(None);
    }
    Some(Some(number_between(values, name, least, most)?))
}

// The uuid that the value of an option spells, if it has one. The outer None is for a text that is no uuid.
pub(crate) fn uuid_in(values: &ArgMatches<'_>, name: &str) -> Option<Option<Uuid>>
    ensures found { IfSome result (λ uuid. option_map parsed
        (value_among (rows_of (found_of values.now)) name.now)
        ≡ option_map (λ u. Some u) uuid) }
    ensures none { IfNone result (IsNoUuid (value_among (rows_of (found_of values.now))) name.now) }
{
    let Some(text) = values.get_str(name) else {
        return Some(None);
    };
    Some(Some(Uuid::parse_str(text).ok()?))
}

// Whether a flag is given.
pub(crate) fn is_set(values: &ArgMatches<'_>, name: &str) -> bool
    ensures { result ≡ is_set (value_among (rows_of (found_of values.now))) name.now }
{
    match values.get_str(name) {
        Some(text) => text == "true",
        None => false,
    }
}
