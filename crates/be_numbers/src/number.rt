//! Numbers at a place of a list of bytes, the highest byte first. Each `put` answers the place after the number, and
//! changes nothing else.

ghost use Rattle.std.specs.Prelude.{◌≡◌, ◌≤◌, ◌+◌, ◌++◌, length, take, drop};
ghost use Rattle.be_numbers.specs.Numbers.{coded, number, signed_coded, signed};

use byteorder::{BigEndian, ByteOrder};

/// Writes the number into two bytes from the place `at` on.
pub fn put_u16(bytes: &mut [u8], at: usize, n: u16) -> usize
    requires { at + 2 ≤ length bytes.old }
    ensures next { result ≡ at + 2 }
    ensures written { take (at + 2) bytes.new ≡ take at bytes.old ++ coded 2 n }
    ensures kept { drop (at + 2) bytes.new ≡ drop (at + 2) bytes.old }
{
    BigEndian::write_u16(&mut bytes[at..], n);
    at + 2
}

/// Writes the number into four bytes from the place `at` on.
pub fn put_u32(bytes: &mut [u8], at: usize, n: u32) -> usize
    requires { at + 4 ≤ length bytes.old }
    ensures next { result ≡ at + 4 }
    ensures written { take (at + 4) bytes.new ≡ take at bytes.old ++ coded 4 n }
    ensures kept { drop (at + 4) bytes.new ≡ drop (at + 4) bytes.old }
{
    BigEndian::write_u32(&mut bytes[at..], n);
    at + 4
}

/// Writes the number into eight bytes from the place `at` on.
pub fn put_u64(bytes: &mut [u8], at: usize, n: u64) -> usize
    requires { at + 8 ≤ length bytes.old }
    ensures next { result ≡ at + 8 }
    ensures written { take (at + 8) bytes.new ≡ take at bytes.old ++ coded 8 n }
    ensures kept { drop (at + 8) bytes.new ≡ drop (at + 8) bytes.old }
{
    BigEndian::write_u64(&mut bytes[at..], n);
    at + 8
}

/// Writes the number into 16 bytes, in two's complement from the place `at` on.
pub fn put_i128(bytes: &mut [u8], at: usize, n: i128) -> usize
    requires { at + 16 ≤ length bytes.old }
    ensures next { result ≡ at + 16 }
    ensures written { take (at + 16) bytes.new ≡ take at bytes.old ++ signed_coded n }
    ensures kept { drop (at + 16) bytes.new ≡ drop (at + 16) bytes.old }
{
    BigEndian::write_i128(&mut bytes[at..], n);
    at + 16
}

/// The number in two bytes from the place `at` on.
pub fn take_u16(bytes: &[u8], at: usize) -> u16
    requires { at + 2 ≤ length bytes.now }
    ensures { result ≡ number 2 (drop at bytes.now) }
{
    BigEndian::read_u16(&bytes[at..])
}

/// The number in four bytes from the place `at` on.
pub fn take_u32(bytes: &[u8], at: usize) -> u32
    requires { at + 4 ≤ length bytes.now }
    ensures { result ≡ number 4 (drop at bytes.now) }
{
    BigEndian::read_u32(&bytes[at..])
}

/// The number in eight bytes from the place `at` on.
pub fn take_u64(bytes: &[u8], at: usize) -> u64
    requires { at + 8 ≤ length bytes.now }
    ensures { result ≡ number 8 (drop at bytes.now) }
{
    BigEndian::read_u64(&bytes[at..])
}

/// The number in 16 bytes, in two's complement, from the place `at` on.
pub fn take_i128(bytes: &[u8], at: usize) -> i128
    requires { at + 16 ≤ length bytes.now }
    ensures { result ≡ signed (drop at bytes.now) }
{
    BigEndian::read_i128(&bytes[at..])
}
