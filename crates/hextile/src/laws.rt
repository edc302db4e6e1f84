//! Laws of data. Each is the contract of a function that does nothing.

ghost use Rattle.std.specs.Prelude.{◌≡◌, ◌↔◌, ℕ, List, [], ◌++◌};
ghost use Rattle.pixel_format.specs.Format.{Format};
ghost use Rattle.terms.specs.Reading.{Got};
ghost use Rattle.hextile.specs.Grammar.{Tile, data_at};
ghost use Rattle.hextile.specs.Data.{IsData};

/// What the grammar reads of all the bytes is what they say as data, and data are what it reads.
pub fn grammar_reads_data()
    ensures { (format : Format) → (w h : ℕ) → (bytes : List ℕ) → (tiles : List Tile)
        → (data_at format w h bytes ≡ Got tiles []) ↔ IsData format w h bytes tiles }
{}

/// Bytes have at most one reading as data.
pub fn one_reading_of_data()
    ensures { (format : Format) → (w h : ℕ) → (bytes : List ℕ) → (tiles others : List Tile)
        → IsData format w h bytes tiles → IsData format w h bytes others → tiles ≡ others }
{}

/// No data begin other data.
pub fn no_data_begin_others()
    ensures { (format : Format) → (w h : ℕ) → (bytes more : List ℕ) → (tiles others : List Tile)
        → IsData format w h bytes tiles → IsData format w h (bytes ++ more) others → more ≡ [] }
{}
