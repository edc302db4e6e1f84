//! Laws of data. Each is the contract of a function that does nothing.

ghost use Rattle.std.specs.Prelude.{◌≡◌, ◌↔◌, ℕ, List, [], ◌++◌};
ghost use Rattle.pixel_format.specs.Format.{Format};
ghost use Rattle.terms.specs.Reading.{Got, Bad};
ghost use Rattle.rre.specs.Grammar.{Content, Outside, data_at};
ghost use Rattle.rre.specs.Data.{IsData, IsRefused};

/// What the grammar reads of all the bytes is what they say as data, and data are what it reads.
pub fn grammar_reads_data()
    ensures { (format : Format) → (w h : ℕ) → (bytes : List ℕ) → (content : Content)
        → (data_at format w h bytes ≡ Got content []) ↔ IsData format w h bytes content }
{}

/// Bytes have at most one reading as data.
pub fn one_reading_of_data()
    ensures { (format : Format) → (w h : ℕ) → (bytes : List ℕ) → (content other : Content)
        → IsData format w h bytes content → IsData format w h bytes other → content ≡ other }
{}

/// No data begin other data.
pub fn no_data_begin_others()
    ensures { (format : Format) → (w h : ℕ) → (bytes more : List ℕ) → (content other : Content)
        → IsData format w h bytes content → IsData format w h (bytes ++ more) other → more ≡ [] }
{}
