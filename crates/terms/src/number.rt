//! Numbers as they stand on the wire: the higher bytes first (RFC 6143, section 7).

ghost use Rattle.std.specs.Prelude.{◌≡◌, ◌+◌, ◌≤◌, length};
ghost use Rattle.byteorder.specs.Endian.{big_bytes};
ghost use Rattle.terms.specs.Number.{u16_at, u32_at, u16_bytes, u32_bytes};

use byteorder::{ByteOrder, NetworkEndian};

/// The number in two bytes of a field, from this offset on.
pub fn read_u16(field: &[u8], at: usize) -> u16
    requires { at + 2 ≤ length field.now }
    ensures { result ≡ u16_at field.now at }
{
    NetworkEndian::read_u16(&field[at..])
}

/// The number in four bytes of a field, from this offset on.
pub fn read_u32(field: &[u8], at: usize) -> u32
    requires { at + 4 ≤ length field.now }
    ensures { result ≡ u32_at field.now at }
{
    NetworkEndian::read_u32(&field[at..])
}

/// The two bytes of a number.
pub fn two_bytes(number: u16) -> [u8; 2]
    ensures value { result ≡ u16_bytes number }
    ensures bytes { result ≡ big_bytes 2 number }
{
    let mut bytes = [0; 2];
    NetworkEndian::write_u16(&mut bytes, number);
    bytes
}

/// The four bytes of a number.
pub fn four_bytes(number: u32) -> [u8; 4]
    ensures value { result ≡ u32_bytes number }
    ensures bytes { result ≡ big_bytes 4 number }
{
    let mut bytes = [0; 4];
    NetworkEndian::write_u32(&mut bytes, number);
    bytes
}
