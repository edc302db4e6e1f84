//! Pixels as numbers: equal numbers are equal pixels.

ghost use Rattle.std.specs.Prelude.{◌≡◌, ◌+◌, ◌*◌, ◌^◌, ◌<◌, ◌≤◌, ◌++◌, All, IfOk, OnOk, length, map};
ghost use Rattle.std.specs.List.{flat_map};
ghost use Rattle.pixel_format.specs.Format.{pixel_bytes};
ghost use Rattle.pixel_format.specs.Pixel.{pixel_color, color_number, IsWithin, IsPixel, ArePixels, pixel_of};
ghost use Rattle.pixel_format.specs.Number.{number_color, IsNumber};
ghost use Rattle.terms.specs.Appending.{Appends, Grows};

use super::{Channel, PixelFormat, shift_of, shifted, value_of};
use crate::Color;
use std::alloc::Global;
use terms::NoMemory;

impl PixelFormat {
    /// The number of the pixel of a colour: each channel at its shift, and the other bits 0.
    #[inline(always)]
    pub fn number_of(&self, color: Color) -> u32
        requires { IsWithin self.now color }
        ensures value { result ≡ color_number self.now color }
        ensures color { number_color self.now result ≡ color }
        ensures number { IsNumber self.now result }
    {
        let red = shifted(self.red, color.r);
        let green = shifted(self.green, color.g);
        let blue = shifted(self.blue, color.b);
        red + green + blue
    }

    /// The same in a format of at most two bytes a pixel, in 16 bits: a loop over colours puts
    /// eight of them together in one vector, instead of four of 32 bits.
    #[inline(always)]
    pub fn short_number_of(&self, color: Color) -> u16
        requires within { IsWithin self.now color }
        requires short { pixel_bytes self.now ≤ 2 }
        ensures value { result ≡ color_number self.now color }
        ensures color { number_color self.now result ≡ color }
        ensures number { IsNumber self.now result }
    {
        let red = short_shifted(self.red, color.r);
        let green = short_shifted(self.green, color.g);
        let blue = short_shifted(self.blue, color.b);
        red + green + blue
    }

    /// The numbers of the pixels of colours, in their order.
    pub fn numbers_of(&self, alloc: Global, colors: &[Color]) -> Result<Vec<u32>, NoMemory>
        requires { All (IsWithin self.now) colors.now }
        ensures colors { IfOk result (λ numbers. map (number_color self.now) numbers.items ≡ colors.now) }
        ensures numbers { IfOk result (λ numbers. All (IsNumber self.now) numbers.items) }
    {
        let mut numbers = Vec::with_capacity(alloc, colors.len())?;
        for color in colors {
            numbers.push(self.number_of(*color))?;
        }
        Ok(numbers)
    }

    /// The colour whose pixel has the number. Bits that belong to no channel play no part.
    pub fn color_of(&self, number: u32) -> Color
        ensures { result ≡ number_color self.now number }
    {
        Color {
            r: value_of(self.red, number),
            g: value_of(self.green, number),
            b: value_of(self.blue, number),
        }
    }

    /// Writes the pixel of a number, its bytes as they stand on the wire.
    #[inline(always)]
    pub fn write_number(&self, number: u32, bytes: &mut [u8])
        requires whole { length bytes.old ≡ pixel_bytes self.now }
        requires number { IsNumber self.now number }
        ensures bytes { bytes.new ≡ pixel_of self.now (number_color self.now number) }
        ensures color { pixel_color self.now bytes.new ≡ number_color self.now number }
    {
        self.put_number(number, bytes);
    }

    // Appends the pixel of a number, in so many bytes, which the compiler knows at each call.
    #[inline(always)]
    fn append_sized_number(
        &self,
        size: usize,
        number: u32,
        bytes: &mut Vec<u8>,
    ) -> Result<(), NoMemory>
        requires bytes { size ≡ pixel_bytes self.now }
        requires small { size ≤ 4 }
        requires number { IsNumber self.now number }
        ensures ok { OnOk result (Appends (IsPixel self.now (number_color self.now number)) bytes.old.items bytes.new.items) }
        ensures written { OnOk result (bytes.new.items ≡ bytes.old.items ++ pixel_of self.now (number_color self.now number)) }
        ensures grows { Grows bytes.old.items bytes.new.items }
    {
        let mut pixel = [0; 4];
        self.write_number(number, &mut pixel[..size]);
        bytes.extend_from_slice(&pixel[..size])
    }

    /// Appends the pixels of numbers, one after the other. Running out of memory may leave a part
    /// of them.
    pub fn append_numbers(&self, numbers: &[u32], bytes: &mut Vec<u8>) -> Result<(), NoMemory>
        requires { All (IsNumber self.now) numbers.now }
        ensures ok { OnOk result (Appends (ArePixels self.now (map (number_color self.now) numbers.now)) bytes.old.items bytes.new.items) }
        ensures written { OnOk result (bytes.new.items ≡ bytes.old.items ++ flat_map (pixel_of self.now) (map (number_color self.now) numbers.now)) }
        ensures grows { Grows bytes.old.items bytes.new.items }
    {
        match self.bytes() {
            1 => self.append_sized_numbers(1, numbers, bytes),
            2 => self.append_sized_numbers(2, numbers, bytes),
            _ => self.append_sized_numbers(4, numbers, bytes),
        }
    }

    // The same for pixels of so many bytes: a loop for each size.
    #[inline(always)]
    fn append_sized_numbers(
        &self,
        size: usize,
        numbers: &[u32],
        bytes: &mut Vec<u8>,
    ) -> Result<(), NoMemory>
        requires bytes { size ≡ pixel_bytes self.now }
        requires small { size ≤ 4 }
        requires numbers { All (IsNumber self.now) numbers.now }
        ensures ok { OnOk result (Appends (ArePixels self.now (map (number_color self.now) numbers.now)) bytes.old.items bytes.new.items) }
        ensures written { OnOk result (bytes.new.items ≡ bytes.old.items ++ flat_map (pixel_of self.now) (map (number_color self.now) numbers.now)) }
        ensures grows { Grows bytes.old.items bytes.new.items }
    {
        for number in numbers {
            self.append_sized_number(size, *number, bytes)?;
        }
        Ok(())
    }
}

// A value of a channel, at its shift in a pixel's number of 16 bits.
#[inline(always)]
fn short_shifted(channel: Channel, value: u16) -> u16
    requires within { value ≤ channel.max }
    requires fits { channel.max * 2 ^ channel.shift < 2 ^ 16 }
    ensures { result ≡ value * 2 ^ channel.shift }
{
    value << shift_of(channel)
}
