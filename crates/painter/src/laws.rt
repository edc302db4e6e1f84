//! A law of updates: the contract of a function that does nothing.

ghost use Rattle.std.specs.Prelude.{ℕ, ◌≤◌, List, length};
ghost use Rattle.pixel_format.specs.Format.{host_format};
ghost use Rattle.terms.specs.declared.format.Format.{Format};
ghost use Rattle.terms.specs.Area.{LiesWithin};
ghost use Rattle.rect_codec.specs.Parts.{IsUpdateFor};
ghost use Rattle.rfb_wire.specs.Grammar.{message_limit};
ghost use Rattle.painter.specs.Update.{PaintsColors};
ghost use Rattle.pixel_format.specs.declared.Color.{Color};
ghost use Rattle.terms.specs.declared.area.Area.{Area};
ghost use Rattle.rect_data.specs.declared.encoding.Encoding.{Encoding};

/// What `rect_codec::write_update` appends in the host format, for an area within the screen, is
/// one message of one rectangle if it is no longer than a message may be. Painted over any picture,
/// it gives the pixels of the area the colours, and leaves the others as they were.
pub fn written_update_paints()
    ensures { (format : Format) → (width height : ℕ) → (area : Area) → (colors : List Color) → (asked : Encoding)
        → (bytes : List ℕ) → IsUpdateFor host_format area colors asked bytes
        → LiesWithin width height area → length bytes ≤ message_limit format
        → PaintsColors format width height area colors bytes }
{}
