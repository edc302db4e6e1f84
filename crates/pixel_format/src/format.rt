//! A pixel format (RFC 6143, section 7.4): its bytes, its pixels and their colours.

ghost use Rattle.std.specs.Prelude.{◌≡◌, ℕ, ◌/◌, ◌%◌, ◌+◌, ◌*◌, ◌^◌, ◌<◌, ◌≤◌, ◌⊎◌, ◌||◌, ◌&&◌, nat_eq, nat_lt, bit_and, [], ◌∷◌, length, Ok, IsTrue, ◌↔◌, All, map, take};
ghost use Rattle.std.specs.Simd.Lanes.{Each1};
ghost use Rattle.pixel_format.specs.Format.{Format, pixel_bytes, host_format};
ghost use Rattle.pixel_format.specs.Written.{channel_at, format_of, format_at, format_bytes, is_ones};
ghost use Rattle.pixel_format.specs.Pixel.{pixel_number, channel_value, pixel_color, host_color, IsWithin, color_number, number_bytes, pixel_of, IsScreenColor, converted, converted_channel, AreSmall};

mod numbers;

use crate::Color;
use byteorder::{BigEndian, ByteOrder, LittleEndian};
use std::marker::Model;
use std::simd::prelude::*;
use terms::{PixelFormatFault, read_u16, two_bytes};

// How many colours are converted together.
const TOGETHER: usize = 8;

/// A true-color pixel format that is valid (RFC 6143, section 7.4): a pixel has 8, 16 or 32 bits,
/// and each channel takes bits of its own within them.
#[derive(Drop)]
pub struct PixelFormat {
    bits: u8,
    depth: u8,
    big_endian: bool,
    red: Channel,
    green: Channel,
    blue: Channel,
}

/// The shift of a channel in a pixel's number, and the greatest value that it takes.
#[derive(Clone, Copy)]
struct Channel {
    max: u16,
    shift: u8,
}

// The three channels of a format.
#[derive(Clone, Copy)]
struct Channels {
    red: Channel,
    green: Channel,
    blue: Channel,
}

impl Model for PixelFormat {
    ghost use Rattle.pixel_format.specs.Format.{Format, IsValid};

    ghost Value = { Format };

    ghost view = { λ f. record {
      bits = f.bits;
      depth = f.depth;
      big_endian = f.big_endian;
      red = record { max = f.red.max; shift = f.red.shift };
      green = record { max = f.green.max; shift = f.green.shift };
      blue = record { max = f.blue.max; shift = f.blue.shift };
    } };

    ghost invariant = { λ f. IsValid (record {
      bits = f.bits;
      depth = f.depth;
      big_endian = f.big_endian;
      red = record { max = f.red.max; shift = f.red.shift };
      green = record { max = f.green.max; shift = f.green.shift };
      blue = record { max = f.blue.max; shift = f.blue.shift };
    }) };
}

impl PixelFormat {
    /// The format that the recorder asks a host for: 32 bits, depth 24, little endian, maxima 255,
    /// red at bit 16, green at bit 8 and blue at bit 0.
    pub fn host() -> PixelFormat
        ensures { result ≡ host_format }
    {
        PixelFormat {
            bits: 32,
            depth: 24,
            big_endian: false,
            red: Channel {
                max: 255,
                shift: 16,
            },
            green: Channel { max: 255, shift: 8 },
            blue: Channel { max: 255, shift: 0 },
        }
    }

    /// The format that 16 bytes say (RFC 6143, section 7.4), or the first test that they fail. A
    /// flag is true when it is not 0; depth is kept and plays no part.
    pub fn read(bytes: &[u8; 16]) -> Result<PixelFormat, PixelFormatFault>
        ensures { result ≡ format_at bytes.now }
    {
        let bits = bytes[0];
        let channels = Channels::at(bytes);
        if !is_pixel_width(bits) {
            return Err(PixelFormatFault::BadBits);
        }
        if bytes[3] == 0 {
            return Err(PixelFormatFault::NoTrueColor);
        }
        if !channels.are_full() {
            return Err(PixelFormatFault::BadMax);
        }
        if !channels.are_inside(bits) {
            return Err(PixelFormatFault::FieldOutside);
        }
        if !channels.are_apart() {
            return Err(PixelFormatFault::FieldsOverlap);
        }
        Ok(PixelFormat {
            bits,
            depth: bytes[1],
            big_endian: bytes[2] != 0,
            red: channels.red,
            green: channels.green,
            blue: channels.blue,
        })
    }

    /// The format's 16 bytes (RFC 6143, section 7.4). A flag that is true is written as 1, padding
    /// as 0.
    pub fn write(&self) -> [u8; 16]
        ensures bytes { result ≡ format_bytes self.now }
        ensures read { format_at result ≡ Ok self.now }
    {
        let [red_high, red_low] = two_bytes(self.red.max);
        let [green_high, green_low] = two_bytes(self.green.max);
        let [blue_high, blue_low] = two_bytes(self.blue.max);
        [
            self.bits,
            self.depth,
            self.big_endian as u8,
            1,
            red_high,
            red_low,
            green_high,
            green_low,
            blue_high,
            blue_low,
            self.red.shift,
            self.green.shift,
            self.blue.shift,
            0,
            0,
            0,
        ]
    }

    /// Whether this is the format that the recorder asks a host for.
    pub fn is_host(&self) -> bool
        ensures { IsTrue result ↔ (self.now ≡ host_format) }
    {
        let red = self.red.max == 255 && self.red.shift == 16;
        let green = self.green.max == 255 && self.green.shift == 8;
        let blue = self.blue.max == 255 && self.blue.shift == 0;
        let size = self.bits == 32 && self.depth == 24 && !self.big_endian;
        size && red && green && blue
    }

    /// How many bytes a pixel takes: 1, 2 or 4.
    pub fn bytes(&self) -> usize
        ensures value { result ≡ pixel_bytes self.now }
        ensures sizes { (result ≡ 1) ⊎ ((result ≡ 2) ⊎ (result ≡ 4)) }
    {
        (self.bits / 8) as usize
    }

    /// The colour of a pixel, from its bytes as they stand on the wire.
    pub fn pixel(&self, bytes: &[u8]) -> Color
        requires { length bytes.now ≡ pixel_bytes self.now }
        ensures { result ≡ pixel_color self.now bytes.now }
    {
        let number = self.number(bytes);
        Color {
            r: value_of(self.red, number),
            g: value_of(self.green, number),
            b: value_of(self.blue, number),
        }
    }

    /// Writes the pixel of a colour, its bytes as they stand on the wire. Bits that belong to no
    /// channel are 0.
    #[inline(always)]
    pub fn put(&self, color: Color, bytes: &mut [u8])
        requires whole { length bytes.old ≡ pixel_bytes self.now }
        requires within { IsWithin self.now color }
        ensures bytes { bytes.new ≡ pixel_of self.now color }
        ensures number { pixel_number self.now bytes.new ≡ color_number self.now color }
        ensures color { pixel_color self.now bytes.new ≡ color }
    {
        let red = shifted(self.red, color.r);
        let green = shifted(self.green, color.g);
        let blue = shifted(self.blue, color.b);
        self.put_number(red + green + blue, bytes);
    }

    /// A colour of a screen, as this format has it: each channel in proportion, rounded to the
    /// nearest.
    pub fn convert(&self, color: Color) -> Color
        requires { IsScreenColor color }
        ensures value { result ≡ converted self.now color }
        ensures within { IsWithin self.now result }
    {
        Color {
            r: proportion(color.r, self.red.max),
            g: proportion(color.g, self.green.max),
            b: proportion(color.b, self.blue.max),
        }
    }

    /// The same in a format that has no channel of more than 255: so 16 bits hold what is divided, and
    /// a loop over colours is done in vectors.
    #[inline(always)]
    pub fn convert_small(&self, color: Color) -> Color
        requires small { AreSmall self.now }
        requires screen { IsScreenColor color }
        ensures value { result ≡ converted self.now color }
        ensures within { IsWithin self.now result }
    {
        Color {
            r: small_proportion(color.r, self.red.max),
            g: small_proportion(color.g, self.green.max),
            b: small_proportion(color.b, self.blue.max),
        }
    }

    /// Colours of a screen, as this format has them: each as [`convert`](PixelFormat::convert) gives
    /// it.
    pub fn convert_row(&self, colors: &[Color], row: &mut [Color])
        requires size { length row.old ≡ length colors.now }
        requires screen { All IsScreenColor colors.now }
        ensures value { row.new ≡ map (converted self.now) colors.now }
        ensures within { All (IsWithin self.now) row.new }
    {
        if !self.has_small_maxima() {
            self.convert_ones(0, colors, row);
            return;
        }
        let done = self.convert_eights(colors, row);
        self.convert_ones(done, colors, row);
    }

    /// Whether no channel takes more than 255.
    pub fn has_small_maxima(&self) -> bool
        ensures { IsTrue result ↔ AreSmall self.now }
    {
        self.red.max <= 255 && self.green.max <= 255 && self.blue.max <= 255
    }

    // Converts the colours from one on; those before it are converted.
    fn convert_ones(&self, start: usize, colors: &[Color], row: &mut [Color])
        requires start { start ≤ length colors.now }
        requires size { length row.old ≡ length colors.now }
        requires screen { All IsScreenColor colors.now }
        requires before { take start row.old ≡ map (converted self.now) (take start colors.now) }
        ensures { row.new ≡ map (converted self.now) colors.now }
    {
        for k in start..colors.len() {
            row[k] = self.convert(colors[k]);
        }
    }

    // Converts colours as long as there are eight, and answers how many it converted.
    fn convert_eights(&self, colors: &[Color], row: &mut [Color]) -> usize
        requires small { AreSmall self.now }
        requires size { length row.old ≡ length colors.now }
        requires screen { All IsScreenColor colors.now }
        ensures count { result ≤ length colors.now }
        ensures size { length row.new ≡ length colors.now }
        ensures done { take result row.new ≡ map (converted self.now) (take result colors.now) }
    {
        let mut i = 0;
        'eights: while colors.len() - i >= TOGETHER {
            let eight = self.convert_eight(&colors[i..i + TOGETHER]);
            row[i..i + TOGETHER].copy_from_slice(&eight);
            i += TOGETHER;
        }
        i
    }

    // Eight colours, a channel of all of them at once.
    #[inline(always)]
    fn convert_eight(&self, c: &[Color]) -> [Color; TOGETHER]
        requires small { AreSmall self.now }
        requires size { length c.now ≡ 8 }
        requires screen { All IsScreenColor c.now }
        ensures { result ≡ map (converted self.now) c.now }
    {
        let r = [
            c[0].r, c[1].r, c[2].r, c[3].r, c[4].r, c[5].r, c[6].r, c[7].r,
        ];
        let g = [
            c[0].g, c[1].g, c[2].g, c[3].g, c[4].g, c[5].g, c[6].g, c[7].g,
        ];
        let b = [
            c[0].b, c[1].b, c[2].b, c[3].b, c[4].b, c[5].b, c[6].b, c[7].b,
        ];
        let r = proportions(u16x8::from_array(r), self.red.max).to_array();
        let g = proportions(u16x8::from_array(g), self.green.max).to_array();
        let b = proportions(u16x8::from_array(b), self.blue.max).to_array();
        [
            color(r[0], g[0], b[0]),
            color(r[1], g[1], b[1]),
            color(r[2], g[2], b[2]),
            color(r[3], g[3], b[3]),
            color(r[4], g[4], b[4]),
            color(r[5], g[5], b[5]),
            color(r[6], g[6], b[6]),
            color(r[7], g[7], b[7]),
        ]
    }

    // Writes the pixel of a number. It looks at the length of the bytes, which a loop over pixels
    // knows.
    #[inline(always)]
    fn put_number(&self, number: u32, bytes: &mut [u8])
        requires whole { length bytes.old ≡ pixel_bytes self.now }
        requires fits { number < 2 ^ self.now.bits }
        ensures bytes { bytes.new ≡ number_bytes self.now number }
        ensures number { pixel_number self.now bytes.new ≡ number }
    {
        if bytes.len() == 1 {
            bytes.copy_from_slice(&[number as u8]);
        } else if bytes.len() == 2 && self.big_endian {
            bytes.copy_from_slice(&(number as u16).to_be_bytes());
        } else if bytes.len() == 2 {
            bytes.copy_from_slice(&(number as u16).to_le_bytes());
        } else if self.big_endian {
            bytes.copy_from_slice(&number.to_be_bytes());
        } else {
            bytes.copy_from_slice(&number.to_le_bytes());
        }
    }

    // The number of a pixel.
    fn number(&self, bytes: &[u8]) -> u32
        requires { length bytes.now ≡ pixel_bytes self.now }
        ensures { result ≡ pixel_number self.now bytes.now }
    {
        match (self.big_endian, bytes) {
            (true, [_, _, _, _]) => BigEndian::read_u32(bytes),
            (false, [_, _, _, _]) => LittleEndian::read_u32(bytes),
            (true, [_, _]) => BigEndian::read_u16(bytes) as u32,
            (false, [_, _]) => LittleEndian::read_u16(bytes) as u32,
            (_, [a]) => *a as u32,
            _ => unreachable!(),
        }
    }
}

// Whether a pixel may have so many bits.
fn is_pixel_width(bits: u8) -> bool
    ensures { result ≡ (nat_eq bits 8 || nat_eq bits 16 || nat_eq bits 32) }
{
    bits == 8 || bits == 16 || bits == 32
}

impl Channels {
    // What stands in a format's bytes.
    fn at(bytes: &[u8; 16]) -> Channels
        ensures red { (result.red.max ≡ (format_of bytes.now).red.max) × (result.red.shift ≡ (format_of bytes.now).red.shift) }
        ensures green { (result.green.max ≡ (format_of bytes.now).green.max) × (result.green.shift ≡ (format_of bytes.now).green.shift) }
        ensures blue { (result.blue.max ≡ (format_of bytes.now).blue.max) × (result.blue.shift ≡ (format_of bytes.now).blue.shift) }
    {
        Channels {
            red: Channel::at(bytes, 4, 10),
            green: Channel::at(bytes, 6, 11),
            blue: Channel::at(bytes, 8, 12),
        }
    }

    fn are_full(self) -> bool
        ensures { result ≡ (is_ones 16 self.red.max && is_ones 16 self.green.max && is_ones 16 self.blue.max) }
    {
        self.red.is_full() && self.green.is_full() && self.blue.is_full()
    }

    fn are_inside(self, bits: u8) -> bool
        requires { (bits ≡ 8) ⊎ ((bits ≡ 16) ⊎ (bits ≡ 32)) }
        ensures { result ≡ (nat_lt (self.red.max * 2 ^ self.red.shift) (2 ^ bits) && nat_lt (self.green.max * 2 ^ self.green.shift) (2 ^ bits)
            && nat_lt (self.blue.max * 2 ^ self.blue.shift) (2 ^ bits)) }
    {
        self.red.is_inside(bits) && self.green.is_inside(bits) && self.blue.is_inside(bits)
    }

    fn are_apart(self) -> bool
        requires red { self.red.max * 2 ^ self.red.shift < 2 ^ 32 }
        requires green { self.green.max * 2 ^ self.green.shift < 2 ^ 32 }
        requires blue { self.blue.max * 2 ^ self.blue.shift < 2 ^ 32 }
        ensures { result ≡ (nat_eq (bit_and (self.red.max * 2 ^ self.red.shift) (self.green.max * 2 ^ self.green.shift)) 0
            && nat_eq (bit_and (self.red.max * 2 ^ self.red.shift) (self.blue.max * 2 ^ self.blue.shift)) 0
            && nat_eq (bit_and (self.green.max * 2 ^ self.green.shift) (self.blue.max * 2 ^ self.blue.shift)) 0) }
    {
        self.red.is_apart(self.green)
            && self.red.is_apart(self.blue)
            && self.green.is_apart(self.blue)
    }
}

impl Channel {
    // The channel whose maximum and shift stand at these offsets.
    fn at(bytes: &[u8; 16], max: usize, shift: usize) -> Channel
        requires max { max < 15 }
        requires shift { shift < 16 }
        ensures max { result.max ≡ (channel_at bytes.now max shift).max }
        ensures shift { result.shift ≡ (channel_at bytes.now max shift).shift }
    {
        Channel {
            max: read_u16(bytes, max),
            shift: bytes[shift],
        }
    }

    // Whether the maximum is one less than a power of two.
    fn is_full(self) -> bool
        ensures { result ≡ is_ones 16 self.max }
    {
        self.max as u32 == 0xffff_u32 >> self.max.leading_zeros()
    }

    // Whether the channel's bits lie in a pixel of so many bits.
    fn is_inside(self, bits: u8) -> bool
        requires { (bits ≡ 8) ⊎ ((bits ≡ 16) ⊎ (bits ≡ 32)) }
        ensures { result ≡ nat_lt (self.max * 2 ^ self.shift) (2 ^ bits) }
    {
        self.max == 0 || (self.shift < bits && (self.max as u64) << self.shift < 1 << bits)
    }

    // Whether no bit is one of both channels, whose bits lie in 32 bits.
    fn is_apart(self, other: Channel) -> bool
        requires one { self.max * 2 ^ self.shift < 2 ^ 32 }
        requires other { other.max * 2 ^ other.shift < 2 ^ 32 }
        ensures { result ≡ nat_eq (bit_and (self.max * 2 ^ self.shift) (other.max * 2 ^ other.shift)) 0 }
    {
        shifted(self, self.max) & shifted(other, other.max) == 0
    }
}

// The value of a channel in a pixel's number. A channel of maximum 0 may have a shift beyond it.
fn value_of(channel: Channel, number: u32) -> u16
    ensures { result ≡ number / 2 ^ channel.shift % (channel.max + 1) }
{
    if channel.shift >= 32 {
        return 0;
    }
    ((number >> channel.shift) % (channel.max as u32 + 1)) as u16
}

// How far a channel's values are shifted in a pixel's number: 0 for a channel of maximum 0, whose
// shift may lie beyond the number. It is the same for all pixels, so a loop over them finds it once.
#[inline(always)]
fn shift_of(channel: Channel) -> u32
    ensures below { (bits : ℕ) → 0 < bits → channel.max * 2 ^ channel.shift < 2 ^ bits → result < bits }
    ensures some { 0 < channel.max → result ≡ channel.shift }
{
    if channel.max == 0 {
        return 0;
    }
    channel.shift as u32
}

// A value of a channel, at its shift in a pixel's number.
#[inline(always)]
fn shifted(channel: Channel, value: u16) -> u32
    requires within { value ≤ channel.max }
    requires fits { channel.max * 2 ^ channel.shift < 2 ^ 32 }
    ensures { result ≡ value * 2 ^ channel.shift }
{
    (value as u32) << shift_of(channel)
}

// A value of at most 255, in proportion to another maximum.
fn proportion(value: u16, max: u16) -> u16
    requires { value ≤ 255 }
    ensures value { result ≡ converted_channel max value }
    ensures within { result ≤ max }
{
    ((value as u32 * max as u32 + 127) / 255) as u16
}

// The colour of these channels.
#[inline(always)]
fn color(r: u16, g: u16, b: u16) -> Color
    ensures { result ≡ record { r = r; g = g; b = b } }
{
    Color { r, g, b }
}

// A value of at most 255, in proportion to another maximum that is no more.
#[inline(always)]
fn small_proportion(value: u16, max: u16) -> u16
    requires value { value ≤ 255 }
    requires max { max ≤ 255 }
    ensures value { result ≡ converted_channel max value }
    ensures within { result ≤ max }
{
    (value * max + 127) / 255
}

// Eight values of at most 255, in proportion to another maximum: 255 at most, so that 16 bits hold
// what is divided.
#[inline(always)]
fn proportions(values: u16x8, max: u16) -> u16x8
    requires size { length values ≡ 8 }
    requires screen { Each1 (λ v. v ≤ 255) values }
    requires max { max ≤ 255 }
    ensures { result ≡ map (converted_channel max) values }
{
    (values * u16x8::splat(max) + u16x8::splat(127)) / u16x8::splat(255)
}

/// A pixel of the host format: its bytes are blue, green, red, and one that plays no part. (A law:
/// it does nothing.)
pub fn host_pixel()
    ensures { (blue green red unused : ℕ) → blue < 256 → green < 256 → red < 256
        → host_color (blue ∷ green ∷ red ∷ unused ∷ []) ≡ record { r = red; g = green; b = blue } }
{}
