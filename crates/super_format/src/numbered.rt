ghost use Rattle.std.specs.Prelude.{◌≡◌, ◌↔◌, IsTrue, IfOk, length};
ghost use Rattle.super_format.specs.Numbered.{IsNumbered, HasFields};

use lsvd_base::ObjectBytes;
use lsvd_bytes::{read_16_bytes, read_u64, write_16_bytes, write_u64};
use std::alloc::{AllocError, Global};
use uuid::Uuid;

// How many bytes an object has that says its volume and the number of its name, and nothing else: an epoch or
// a hold.
pub(crate) const BYTES: usize = 32;

// Where the volume's uuid stands, in 16 bytes, behind the bytes that tell the kind.
const UUID_AT: usize = 8;

// Where the number stands, in 8 bytes.
const NUMBER_AT: usize = 24;

// The object's bytes, which begin with `magic`. The one error is that memory ran out.
pub(crate) fn write_numbered(
    alloc: Global,
    magic: &[u8; 8],
    uuid: Uuid,
    number: u64,
) -> Result<ObjectBytes, AllocError>
    ensures { IfOk result (λ object. IsNumbered object magic.now uuid number) }
{
    let mut bytes = vec![in alloc; 0; BYTES]?;
    write_into(bytes.as_mut_slice(), magic, uuid, number);
    ObjectBytes::from_bytes(bytes)
}

// Writes it into 32 bytes.
fn write_into(bytes: &mut [u8], magic: &[u8; 8], uuid: Uuid, number: u64)
    requires { length bytes.old ≡ 32 }
    ensures { IsNumbered bytes.new magic.now uuid number }
{
    bytes[..UUID_AT].copy_from_slice(magic);
    write_16_bytes(bytes, UUID_AT, &uuid.into_bytes());
    write_u64(bytes, NUMBER_AT, number);
}

// Whether these are the object's bytes.
pub(crate) fn is_numbered(bytes: &[u8], magic: &[u8; 8], uuid: Uuid, number: u64) -> bool
    ensures { IsTrue result ↔ IsNumbered bytes.now magic.now uuid number }
{
    has_fields(bytes, magic, uuid, number)
}

// Whether there are 32 bytes with the magic, this uuid and this number.
fn has_fields(bytes: &[u8], magic: &[u8; 8], uuid: Uuid, number: u64) -> bool
    ensures { IsTrue result ↔ HasFields bytes.now magic.now uuid number }
{
    bytes.len() == BYTES
        && &bytes[..UUID_AT] == magic.as_slice()
        && read_16_bytes(bytes, UUID_AT) == uuid.into_bytes()
        && read_u64(bytes, NUMBER_AT) == number
}
