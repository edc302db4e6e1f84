//! Laws of updates: the contracts of functions that do nothing.

ghost use Rattle.std.specs.Prelude.{ℕ, ◌<◌, ◌^◌, All, List, length};
ghost use Rattle.pixel_format.specs.declared.Color.{Color};
ghost use Rattle.pixel_format.specs.Format.{Format};
ghost use Rattle.terms.specs.declared.area.Area.{Area};
ghost use Rattle.terms.specs.Area.{LiesWithin};
ghost use Rattle.rect_data.specs.declared.encoding.Encoding.{Encoding};
ghost use Rattle.rect_codec.specs.declared.parts.Part.{Part};
ghost use Rattle.rect_codec.specs.Parts.{IsUpdateFor, AreParts, PartLiesWithin, DrawsParts};
ghost use Rattle.rect_codec.specs.Update.{DrawsColors};

/// What `write_update` appends is read whole, in its format and on any screen that holds the area,
/// as one rectangle of that area. Painted over any picture, it gives the pixels of the area the
/// colours, and leaves the others as they were.
pub fn written_update_is_read()
    ensures { (format : Format) → (width height : ℕ) → (area : Area) → (colors : List Color)
        → (asked : Encoding) → (bytes : List ℕ) → IsUpdateFor format area colors asked bytes
        → LiesWithin width height area → DrawsColors format width height area colors bytes }
{}

/// What `write_parts` appends is read whole, in its format and on any screen that holds the areas
/// and what is copied, as a rectangle for each part, in their order. Painted over any picture, a
/// rectangle of colours gives the pixels of its area those colours, and a copy gives them what that
/// picture has at the pixels that are copied; both leave the other pixels as they were.
pub fn written_parts_are_read()
    ensures { (format : Format) → (width height : ℕ) → (parts : List Part) → (bytes : List ℕ)
        → AreParts format parts bytes → length parts < 2 ^ 16
        → All (PartLiesWithin width height) parts → DrawsParts format width height parts bytes }
{}
