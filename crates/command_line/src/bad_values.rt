ghost use Rattle.std.specs.Prelude.{IfSome};
ghost use Rattle.clap.specs.Words.{found_of, rows_of, subcommand_rows_of};
ghost use Rattle.command_line.specs.Met.{value_among};
ghost use Rattle.command_line.specs.Mistake.{IsTrueOfMet, IsTrueOfValues};

use crate::churn::MAX_STEPS;
use crate::mistake::Mistake;
use crate::serve::{MAX_LANES, MAX_SESSIONS, MAX_WORKERS};
use crate::values::{number_between, number_in, uuid_in};
use clap::ArgMatches;
use lsvd_base::Geometry;

// The mistake in the values of a command that makes no request of them.
pub(crate) fn bad_value_in<'a>(matches: &ArgMatches<'a>) -> Option<Mistake<'a>>
    ensures { IfSome result (IsTrueOfMet (subcommand_rows_of matches.now)) }
{
    let (command, values) = matches.subcommand()?;
    match command {
        "create" => bad_value_to_create(values),
        "serve" => bad_value_to_serve(values),
        "collect" => bad_value_to_mount(values),
        "check" => bad_uuid(values, "volume"),
        "churn" => bad_word_to_churn(values),
        _ => None,
    }
}

fn bad_value_to_create<'a>(values: &ArgMatches<'a>) -> Option<Mistake<'a>>
    ensures { IfSome result (IsTrueOfValues (value_among (rows_of (found_of values.now)))) }
{
    for (option, least, most) in [
        ("sectors", Geometry::MIN_SECTORS, Geometry::MAX_SECTORS),
        ("log", 0, Geometry::MAX_LOG),
        ("max-write", Geometry::MIN_TRANSFER, Geometry::MAX_TRANSFER),
        ("batch", 1, Geometry::MAX_BATCH),
    ] {
        if let Some(mistake) = bad_number(values, option, least, most) {
            return Some(mistake);
        }
    }
    if let Some(mistake) = bad_uuid(values, "uuid") {
        return Some(mistake);
    }
    short_log(values)
}

fn bad_value_to_serve<'a>(values: &ArgMatches<'a>) -> Option<Mistake<'a>>
    ensures { IfSome result (IsTrueOfValues (value_among (rows_of (found_of values.now)))) }
{
    if let Some(mistake) = bad_value_to_mount(values) {
        return Some(mistake);
    }
    for (option, least, most) in [
        ("workers", 0, MAX_WORKERS),
        ("lanes", 1, MAX_LANES),
        ("sessions", 1, MAX_SESSIONS),
    ] {
        if let Some(mistake) = bad_number(values, option, least, most) {
            return Some(mistake);
        }
    }
    None
}

fn bad_value_to_mount<'a>(values: &ArgMatches<'a>) -> Option<Mistake<'a>>
    ensures { IfSome result (IsTrueOfValues (value_among (rows_of (found_of values.now)))) }
{
    if let Some(mistake) = bad_uuid(values, "volume") {
        return Some(mistake);
    }
    bad_number(values, "log", 0, Geometry::MAX_LOG)
}

fn bad_word_to_churn<'a>(values: &ArgMatches<'a>) -> Option<Mistake<'a>>
    ensures { IfSome result (IsTrueOfValues (value_among (rows_of (found_of values.now)))) }
{
    for (name, most) in [("steps", MAX_STEPS), ("seed", u64::MAX)] {
        if let Some(mistake) = bad_word(values, name, most) {
            return Some(mistake);
        }
    }
    None
}

// What is wrong with a word that is to be a number of at most `most`.
fn bad_word<'a>(values: &ArgMatches<'a>, name: &'a str, most: u64) -> Option<Mistake<'a>>
    ensures { IfSome result (IsTrueOfValues (value_among (rows_of (found_of values.now)))) }
{
    let value = values.get_str(name)?;
    match number_between(values, name, 0, most) {
        Some(_) => None,
        None => Some(Mistake::BadNumber {
            name,
            value,
            least: 0,
            most,
        }),
    }
}

// What is wrong with the value of an option that wants a number from `least` to `most`.
fn bad_number<'a>(
    values: &ArgMatches<'a>,
    option: &'a str,
    least: u64,
    most: u64,
) -> Option<Mistake<'a>>
    ensures { IfSome result (IsTrueOfValues (value_among (rows_of (found_of values.now)))) }
{
    let value = values.get_str(option)?;
    match number_between(values, option, least, most) {
        Some(_) => None,
        None if value.is_empty() => Some(Mistake::EmptyValue { option }),
        None => Some(Mistake::NoNumber {
            option,
            value,
            least,
            most,
        }),
    }
}

// What is wrong with the value of an option that wants a uuid.
fn bad_uuid<'a>(values: &ArgMatches<'a>, option: &'a str) -> Option<Mistake<'a>>
    ensures { IfSome result (IsTrueOfValues (value_among (rows_of (found_of values.now)))) }
{
    let value = values.get_str(option)?;
    match uuid_in(values, option) {
        Some(_) => None,
        None if value.is_empty() => Some(Mistake::EmptyValue { option }),
        None => Some(Mistake::NoUuid { option, value }),
    }
}

// Whether the log has no room for two records of the longest write.
fn short_log<'a>(values: &ArgMatches<'a>) -> Option<Mistake<'a>>
    ensures { IfSome result (IsTrueOfValues (value_among (rows_of (found_of values.now)))) }
{
    let log = number_in(values, "log")?;
    let max_write = number_between(
        values,
        "max-write",
        Geometry::MIN_TRANSFER,
        Geometry::MAX_TRANSFER,
    )?;
    let least = 2 * (max_write + 1);
    if log < least {
        Some(Mistake::ShortLog { log, least })
    } else {
        None
    }
}
