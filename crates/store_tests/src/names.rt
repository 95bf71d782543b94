ghost use Rattle.std.specs.Prelude.{IfOk};
ghost use Rattle.lsvd_names.specs.Spelling.{IsName};

use lsvd_names::ObjName;
use test_output::TestError;

pub const SUPER: &str = "00000000-0000-4000-8000-000000000001.super";

pub const EPOCH: &str = "00000000-0000-4000-8000-000000000001.epoch.0000000000000001";

pub const OBJECT: &str = "00000000-0000-4000-8000-000000000001.obj.0000000000000002";

pub const LATER: &str = "00000000-0000-4000-8000-000000000001.obj.0000000000000100";

pub const LAST: &str = "00000000-0000-4000-8000-000000000001.obj.ffffffffffffffff";

pub const HOLD: &str = "00000000-0000-4000-8000-000000000001.hold.0000000000000001";

pub const OTHER_SUPER: &str = "00000000-0000-4000-8000-000000000000.super";

pub const OTHER_HOLD: &str = "00000000-0000-4000-8000-000000000000.hold.ffffffffffffffff";

pub const THIRD_SUPER: &str = "00000000-0000-4000-8000-000000000002.super";

/// The name that a text spells.
pub fn name(text: &str) -> Result<ObjName, TestError>
    ensures { IfOk result IsName }
{
    match ObjName::parse(text) {
        Some(name) => Ok(name),
        None => Err(TestError::Refused),
    }
}

/// The name of the volume's object of a number.
pub fn numbered(number: u64) -> Result<ObjName, TestError>
    ensures { IfOk result IsName }
{
    Ok(ObjName::object(name(OBJECT)?.uuid, number))
}
