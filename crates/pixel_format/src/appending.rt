//! Appending the pixel of a colour to bytes.

ghost use Rattle.std.specs.Prelude.{◌≡◌, ◌≤◌, ◌++◌, OnOk};
ghost use Rattle.pixel_format.specs.Format.{pixel_bytes};
ghost use Rattle.pixel_format.specs.Pixel.{IsWithin, IsPixel, pixel_of};
ghost use Rattle.terms.specs.Appending.{Appends, Grows};

use crate::Color;
use crate::format::PixelFormat;
use terms::NoMemory;

impl PixelFormat {
    /// Appends the pixel of a colour. Running out of memory may leave a part of it.
    pub fn append_pixel(&self, color: Color, bytes: &mut Vec<u8>) -> Result<(), NoMemory>
        requires { IsWithin self.now color }
        ensures ok { OnOk result (Appends (IsPixel self.now color) bytes.old.items bytes.new.items) }
        ensures written { OnOk result (bytes.new.items ≡ bytes.old.items ++ pixel_of self.now color) }
        ensures grows { Grows bytes.old.items bytes.new.items }
    {
        match self.bytes() {
            1 => self.append_sized(1, color, bytes),
            2 => self.append_sized(2, color, bytes),
            _ => self.append_sized(4, color, bytes),
        }
    }

    // The same for pixels of so many bytes, which the compiler knows at each call.
    #[inline(always)]
    fn append_sized(&self, size: usize, color: Color, bytes: &mut Vec<u8>) -> Result<(), NoMemory>
        requires bytes { size ≡ pixel_bytes self.now }
        requires small { size ≤ 4 }
        requires within { IsWithin self.now color }
        ensures ok { OnOk result (Appends (IsPixel self.now color) bytes.old.items bytes.new.items) }
        ensures written { OnOk result (bytes.new.items ≡ bytes.old.items ++ pixel_of self.now color) }
        ensures grows { Grows bytes.old.items bytes.new.items }
    {
        let mut pixel = [0; 4];
        self.put(color, &mut pixel[..size]);
        bytes.extend_from_slice(&pixel[..size])
    }
}
