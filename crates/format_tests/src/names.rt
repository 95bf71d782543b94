use lsvd_names::ObjName;
use test_output::{TestError, head};

const NAMES: &[&str] = &[
    "00000000-0000-4000-8000-000000000001.super",
    "00000000-0000-4000-8000-000000000001.epoch.0000000000000000",
    "00000000-0000-4000-8000-000000000001.obj.0000000000000002",
    "67e55044-10b1-426f-9247-bb680e5fe0c8.obj.0123456789abcdef",
    "67e55044-10b1-426f-9247-bb680e5fe0c8.hold.ffffffffffffffff",
];

const OTHERS: &[&str] = &[
    "",
    "00000000-0000-4000-8000-000000000001",
    "00000000-0000-4000-8000-000000000001.",
    "00000000-0000-4000-8000-000000000001.super.0000000000000000",
    "00000000-0000-4000-8000-000000000001.super\n",
    "00000000-0000-4000-8000-000000000001super",
    "00000000-0000-4000-8000-000000000001.obj",
    "00000000-0000-4000-8000-000000000001.obj.",
    "00000000-0000-4000-8000-000000000001.obj.000000000000002",
    "00000000-0000-4000-8000-000000000001.obj.00000000000000002",
    "00000000-0000-4000-8000-000000000001.obj.+000000000000002",
    "00000000-0000-4000-8000-000000000001.obj.000000000000000A",
    "00000000-0000-4000-8000-000000000001.obj.000000000000000g",
    "00000000-0000-4000-8000-000000000001.object.0000000000000002",
    "67E55044-10B1-426F-9247-BB680E5FE0C8.super",
    "67e55044-10b1-426f-9247-bb680e5fe0c8 .super",
    "67e5504410b1426f9247bb680e5fe0c8.super",
    "{67e55044-10b1-426f-9247-bb680e5fe0c8}.super",
    "urn:uuid:67e55044-10b1-426f-9247-bb680e5fe0c8.super",
];

/// Writes what names of objects are, and which texts are none.
pub fn tell_all(rt: &HostRuntime) -> Result<(), TestError> {
    head(
        rt,
        "Names of objects: the volume's uuid in its bytes, the kind, the number, and the name printed again",
    )?;
    for text in NAMES {
        tell_name(rt, text)?;
    }
    head(rt, "Texts, and whether they are no names")?;
    for text in OTHERS {
        println!(rt; "  {text:?}: {}", ObjName::parse(text).is_none())?;
    }
    Ok(())
}

fn tell_name(rt: &HostRuntime, text: &str) -> Result<(), TestError> {
    let name = ObjName::parse(text).ok_or(TestError::Refused)?;
    let uuid = hex::encode(rt.alloc(), name.uuid.as_bytes().as_slice())?;
    let printed = name.print(rt.alloc())?;
    println!(rt;
        "  {} {:?} {} {}",
        uuid.as_str(),
        name.kind,
        name.number,
        printed.as_str()
    )?;
    Ok(())
}
