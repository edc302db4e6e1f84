//! Laws of data. Each is the contract of a function that does nothing.

ghost use Rattle.std.specs.Prelude.{◌≡◌, ◌↔◌, ℕ, List, [], ◌++◌};
ghost use Rattle.pixel_format.specs.Format.{Format};
ghost use Rattle.terms.specs.Reading.{Got};
ghost use Rattle.terms.specs.declared.area.Area.{Area};
ghost use Rattle.rect_data.specs.declared.encoding.Encoding.{Encoding};
ghost use Rattle.rect_data.specs.Grammar.{data_at};
ghost use Rattle.rect_data.specs.Data.{AreData};

/// What the grammar reads of all the bytes are data, and data are what it reads.
pub fn grammar_reads_data()
    ensures { (format : Format) → (width height : ℕ) → (encoding : Encoding) → (area : Area) → (bytes : List ℕ)
        → (data_at format width height encoding area bytes ≡ Got tt []) ↔ AreData format width height encoding area bytes }
{}

/// No data begin other data.
pub fn no_data_begin_others()
    ensures { (format : Format) → (width height : ℕ) → (encoding : Encoding) → (area : Area) → (bytes more : List ℕ)
        → AreData format width height encoding area bytes → AreData format width height encoding area (bytes ++ more) → more ≡ [] }
{}
