//! The two checksums of a PNG file.

ghost use Rattle.std.specs.Prelude.{◌≡◌, ℕ, ◌+◌, ◌*◌, ◌<◌, ◌++◌, List, [], slice_index, vec_len, fold};
ghost use Rattle.pictures.specs.Checksums.{crc_bits, first_sum, next_crc, second_sum};

use std::alloc::Global;
use terms::NoMemory;

/// What is computed once of CRC-32: what each byte makes of a register of zeros.
#[derive(Drop)]
pub struct CrcTable {
    entries: Vec<u32>,
    ghost all: { vec_len entries ≡ 256 },
    ghost right: { (n : ℕ) → n < 256 → slice_index entries.items n ≡ crc_bits 8 n },
}

// What a byte in the register becomes.
fn entry(byte: u8) -> u32
    ensures { result ≡ crc_bits 8 byte }
{
    let mut register = u32::from(byte);
    for _bit in 0..8_u8 {
        register = if register % 2 == 1 {
            0xedb8_8320 ^ (register / 2)
        } else {
            register / 2
        };
    }
    register
}

impl CrcTable {
    /// The table, in 1 KiB.
    pub fn new(alloc: Global) -> Result<CrcTable, NoMemory> {
        let mut entries = Vec::new(alloc);
        for byte in 0..=255 {
            entries.push(entry(byte))?;
        }
        Ok(CrcTable { entries })
    }

    /// A register after more bytes.
    pub fn following(&self, before: u32, bytes: &[u8]) -> u32
        ensures { result ≡ fold next_crc before bytes.now }
    {
        let mut register = before;
        for byte in bytes {
            let slot = (register ^ u32::from(*byte)) % 256;
            register = self.entries[slot as usize] ^ (register / 256);
        }
        register
    }
}

/// Adler-32 of the bytes so far.
#[derive(Clone, Copy)]
pub struct Adler {
    pub first: u32,
    pub second: u32,
    ghost first_reduced: { first < 65521 },
    ghost second_reduced: { second < 65521 },
}

impl Adler {
    /// That of no bytes.
    pub fn new() -> Adler
        ensures first { result.first ≡ first_sum [] }
        ensures second { result.second ≡ second_sum [] }
    {
        Adler {
            first: 1,
            second: 0,
        }
    }

    /// Goes on with more bytes.
    pub fn add(&mut self, bytes: &[u8])
        ensures { (xs : List ℕ) → self.old.first ≡ first_sum xs → self.old.second ≡ second_sum xs
            → (self.new.first ≡ first_sum (xs ++ bytes.now)) × (self.new.second ≡ second_sum (xs ++ bytes.now)) }
    {
        let Adler {
            mut first,
            mut second,
        } = *self;
        for byte in bytes {
            first = (first + u32::from(*byte)) % 65_521;
            second = (second + first) % 65_521;
        }
        *self = Adler { first, second };
    }

    /// Both sums in one number.
    pub fn value(self) -> u32
        ensures { result ≡ self.second * 65536 + self.first }
    {
        self.second * 65_536 + self.first
    }
}
