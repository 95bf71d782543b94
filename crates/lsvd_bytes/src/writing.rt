ghost use Rattle.std.specs.Prelude.{◌≡◌, ◌+◌, ◌≤◌, ◌++◌, length, take, drop};
ghost use Rattle.std.specs.Int.{w16, w32, w64, to_be_bytes};

use byteorder::{BigEndian, ByteOrder};

/// Puts the number into the two bytes from `at` on, highest byte first.
pub fn write_u16(bytes: &mut [u8], at: usize, number: u16)
    requires { at + 2 ≤ length bytes.old }
    ensures { bytes.new ≡ take at bytes.old ++ to_be_bytes w16 number ++ drop (at + 2) bytes.old }
{
    BigEndian::write_u16(&mut bytes[at..at + 2], number);
}

/// Puts the number into the four bytes from `at` on, highest byte first.
pub fn write_u32(bytes: &mut [u8], at: usize, number: u32)
    requires { at + 4 ≤ length bytes.old }
    ensures { bytes.new ≡ take at bytes.old ++ to_be_bytes w32 number ++ drop (at + 4) bytes.old }
{
    BigEndian::write_u32(&mut bytes[at..at + 4], number);
}

/// Puts the number into the eight bytes from `at` on, highest byte first.
pub fn write_u64(bytes: &mut [u8], at: usize, number: u64)
    requires { at + 8 ≤ length bytes.old }
    ensures { bytes.new ≡ take at bytes.old ++ to_be_bytes w64 number ++ drop (at + 8) bytes.old }
{
    BigEndian::write_u64(&mut bytes[at..at + 8], number);
}

/// Puts the 16 bytes of `value` into those from `at` on.
pub fn write_16_bytes(bytes: &mut [u8], at: usize, value: &[u8; 16])
    requires { at + 16 ≤ length bytes.old }
    ensures { bytes.new ≡ take at bytes.old ++ value.now ++ drop (at + 16) bytes.old }
{
    bytes[at..at + 16].copy_from_slice(value);
}
