//! Laws of pixel formats. Each is the contract of a function that does nothing.

ghost use Rattle.std.specs.Prelude.{◌≡◌, ◌↔◌, ℕ, List, [], ◌∷◌, ◌<◌, length, slice_index, Ok};
ghost use Rattle.pixel_format.specs.Format.{Format, IsValid};
ghost use Rattle.pixel_format.specs.Written.{format_of, format_at, format_bytes, is_flag, flag, has_maxima, has_fields_inside};

/// What is accepted: the bytes of a true-color format that is valid.
pub fn valid_formats()
    ensures { (bytes : List ℕ) → (f : Format)
        → (format_at bytes ≡ Ok f) ↔ ((f ≡ format_of bytes) × (0 < slice_index bytes 3) × IsValid f) }
{}

/// What is accepted is written as it was read, but for flags, which are written as 1, and padding,
/// as 0.
pub fn written_as_read()
    ensures { (bits depth order color red_high red_low green_high green_low blue_high blue_low r g b : ℕ) → (padding : List ℕ) → (f : Format)
        → red_low < 256 → green_low < 256 → blue_low < 256
        → format_at (bits ∷ depth ∷ order ∷ color ∷ red_high ∷ red_low ∷ green_high ∷ green_low ∷ blue_high ∷ blue_low ∷ r ∷ g ∷ b ∷ padding) ≡ Ok f
        → format_bytes f ≡ bits ∷ depth ∷ flag (is_flag order) ∷ 1 ∷ red_high ∷ red_low ∷ green_high ∷ green_low ∷ blue_high ∷ blue_low ∷ r ∷ g ∷ b ∷ 0 ∷ 0 ∷ 0 ∷ [] }
{}
