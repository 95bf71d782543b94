ghost use Rattle.std.specs.Prelude.{◌≡◌};
ghost use Rattle.lsvd_names.specs.Spelling.{IsName};
ghost use Rattle.object_stream.specs.Replay.{object_name};

use lsvd_names::ObjName;
use object_format::Expected;
use uuid::Uuid;

/// The name of the object that is expected.
pub(crate) fn object_name(expected: &Expected) -> ObjName
    ensures is { result ≡ object_name expected.now expected.now.number }
    ensures named { IsName result }
{
    ObjName::object(Uuid::from_bytes(expected.uuid), expected.number)
}
