//! Judging data field by field, as they come.

ghost use Rattle.std.specs.Prelude.{◌≡◌, ◌↔◌, ℕ, ◌<◌, ◌≤◌, ◌+◌, ◌++◌, List, ◌^◌, length, take, IfOk, IfErr, IfSome, Ok, Err, None};
ghost use Rattle.terms.specs.Reading.{Bad};
ghost use Rattle.pixel_format.specs.Format.{Format};
ghost use Rattle.rre.specs.Grammar.{Outside, subrectangle_bytes, subrectangles_at, data_at};

use crate::data::{is_part_inside, read_count};
use pixel_format::PixelFormat;
use terms::{NoLength, WholeFields};

/// Which field of a rectangle's data comes next: what stands for the part that is judged. Data that
/// come in pieces are judged by [`run`](Measuring::run), from `Head` on, and no byte twice: bytes
/// that don't make the field whole are kept until [`wants`](Measuring::wants) have come.
#[derive(Clone, Copy)]
pub enum Measuring {
    /// The number of subrectangles, and the background's pixel.
    Head,
    /// A subrectangle, which `more` others follow.
    Subrectangle { more: u32 },
}

ghost use Rattle.rre.specs.Data.{AreData, IsRefused};
ghost use Rattle.rre.specs.Measuring.{go_on, resume, wants_of};
ghost use Rattle.terms.specs.Measuring.{judged, measured};

// The field of the next of so many subrectangles.
fn next_of(count: u64) -> Option<Measuring>
    requires { count ≤ 2 ^ 32 }
    ensures goes { (format : Format) → (w h : ℕ) → (more : List ℕ)
        → go_on format w h result more ≡ judged (subrectangles_at format w h count more) }
    ensures waits { (format : Format) → IfSome result (λ next. wants_of format next ≡ subrectangle_bytes format) }
    ensures ends { count ≡ 0 → result ≡ None }
{
    if count == 0 {
        None
    } else {
        Some(Measuring::Subrectangle {
            more: (count - 1) as u32,
        })
    }
}

// Judges the whole subrectangles that the bytes begin with, so many at most.
fn judge_parts(
    format: &PixelFormat,
    w: u16,
    h: u16,
    count: u64,
    bytes: &[u8],
) -> Result<WholeFields<Measuring>, NoLength>
    requires { count ≤ 2 ^ 32 }
    ensures taken { IfOk result (λ fields. fields.taken ≤ length bytes.now) }
    ensures first { IfOk result (λ fields. 0 < count → subrectangle_bytes format.now ≤ length bytes.now → subrectangle_bytes format.now ≤ fields.taken) }
    ensures goes { IfOk result (λ fields. (more : List ℕ)
        → judged (subrectangles_at format.now w h count (take fields.taken bytes.now ++ more)) ≡ go_on format.now w h fields.next more) }
    ensures waits { IfOk result (λ fields. IfSome fields.next (λ next. length bytes.now < fields.taken + wants_of format.now next)) }
    ensures refused { IfErr result (λ _. (more : List ℕ)
        → judged (subrectangles_at format.now w h count (bytes.now ++ more)) ≡ Bad Outside) }
    ensures only { IfErr result (λ fault. fault ≡ NoLength.Bad) }
{
    let size = format.bytes() + 8;
    let mut left = count;
    let mut rest = bytes;
    while left > 0 && rest.len() >= size {
        let (part, following) = rest.split_at(size);
        if !is_part_inside(format, part, w, h) {
            return Err(NoLength::Bad);
        }
        left -= 1;
        rest = following;
    }
    Ok(WholeFields {
        taken: bytes.len() - rest.len(),
        next: next_of(left),
    })
}

impl Measuring {
    /// How many bytes the field has: at most 12.
    pub fn wants(self, format: &PixelFormat) -> usize
        ensures value { result ≡ wants_of format.now self }
        ensures some { 0 < result }
        ensures most { result ≤ 12 }
    {
        match self {
            Measuring::Head => 4 + format.bytes(),
            Measuring::Subrectangle { .. } => format.bytes() + 8,
        }
    }

    /// Judges the whole fields that the bytes begin with, in a rectangle of w by h, and answers
    /// them; or `NoLength::Bad` if one of them is a subrectangle that leaves the rectangle.
    pub fn run(
        self,
        format: &PixelFormat,
        w: u16,
        h: u16,
        bytes: &[u8],
    ) -> Result<WholeFields<Measuring>, NoLength>
        ensures taken { IfOk result (λ fields. fields.taken ≤ length bytes.now) }
        ensures first { IfOk result (λ fields. wants_of format.now self ≤ length bytes.now → wants_of format.now self ≤ fields.taken) }
        ensures goes { IfOk result (λ fields. (more : List ℕ)
            → resume format.now w h self (take fields.taken bytes.now ++ more) ≡ go_on format.now w h fields.next more) }
        ensures waits { IfOk result (λ fields. IfSome fields.next (λ next. length bytes.now < fields.taken + wants_of format.now next)) }
        ensures refused { IfErr result (λ _. (more : List ℕ)
            → resume format.now w h self (bytes.now ++ more) ≡ Bad Outside) }
        ensures only { IfErr result (λ fault. fault ≡ NoLength.Bad) }
    {
        match self {
            Measuring::Head => {
                let head = 4 + format.bytes();
                if bytes.len() < head {
                    return Ok(WholeFields {
                        taken: 0,
                        next: Some(self),
                    });
                }
                let (front, body) = bytes.split_at(head);
                let parts = judge_parts(format, w, h, read_count(front) as u64, body)?;
                Ok(WholeFields {
                    taken: head + parts.taken,
                    next: parts.next,
                })
            }
            Measuring::Subrectangle { more } => judge_parts(format, w, h, more as u64 + 1, bytes),
        }
    }
}

// The same as `measure`, in the words of the grammar.
fn measure_by_fields(format: &PixelFormat, w: u16, h: u16, bytes: &[u8]) -> Result<usize, NoLength>
    ensures { result ≡ measured (length bytes.now) (data_at format.now w h bytes.now) }
{
    let fields = Measuring::Head.run(format, w, h, bytes)?;
    fields.length()
}

/// The length of the data of a rectangle of w by h that begin the bytes (RFC 6143, section 7.7.3).
/// `NoLength::Bad` comes at the last byte of the first subrectangle that leaves the rectangle, and
/// `NoLength::NeedMore` for all other bytes that no data begin. It takes no memory.
pub fn measure(format: &PixelFormat, w: u16, h: u16, bytes: &[u8]) -> Result<usize, NoLength>
    ensures value { result ≡ measured (length bytes.now) (data_at format.now w h bytes.now) }
    ensures ok { IfOk result (λ n. (n ≤ length bytes.now) × AreData format.now w h (take n bytes.now)) }
    ensures whole { (front more : List ℕ) → bytes.now ≡ front ++ more → AreData format.now w h front
        → result ≡ Ok (length front) }
    ensures bad { (result ≡ Err NoLength.Bad) ↔ IsRefused format.now w h bytes.now }
{
    measure_by_fields(format, w, h, bytes)
}
