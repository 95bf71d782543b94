ghost use Rattle.std.specs.Prelude.{◌≡◌, ◌+◌, ◌≤◌, length, take, drop, replicate, IsTrue, ◌↔◌};
ghost use Rattle.std.specs.Int.{w16, w32, w64, from_be_bytes};

use byteorder::{BigEndian, ByteOrder};

/// The number in the two bytes from `at` on, highest byte first.
pub fn read_u16(bytes: &[u8], at: usize) -> u16
    requires { at + 2 ≤ length bytes.now }
    ensures { result ≡ from_be_bytes w16 (take 2 (drop at bytes.now)) }
{
    BigEndian::read_u16(&bytes[at..at + 2])
}

/// The number in the four bytes from `at` on, highest byte first.
pub fn read_u32(bytes: &[u8], at: usize) -> u32
    requires { at + 4 ≤ length bytes.now }
    ensures { result ≡ from_be_bytes w32 (take 4 (drop at bytes.now)) }
{
    BigEndian::read_u32(&bytes[at..at + 4])
}

/// The number in the eight bytes from `at` on, highest byte first.
pub fn read_u64(bytes: &[u8], at: usize) -> u64
    requires { at + 8 ≤ length bytes.now }
    ensures { result ≡ from_be_bytes w64 (take 8 (drop at bytes.now)) }
{
    BigEndian::read_u64(&bytes[at..at + 8])
}

/// The 16 bytes from `at` on.
pub fn read_16_bytes(bytes: &[u8], at: usize) -> [u8; 16]
    requires { at + 16 ≤ length bytes.now }
    ensures { result ≡ take 16 (drop at bytes.now) }
{
    let mut value = [0u8; 16];
    value.copy_from_slice(&bytes[at..at + 16]);
    value
}

/// Whether each of the bytes is 0.
pub fn is_zeros(bytes: &[u8]) -> bool
    ensures { IsTrue result ↔ (bytes.now ≡ replicate (length bytes.now) 0) }
{
    bytes.iter().all(|byte| *byte == 0)
}
