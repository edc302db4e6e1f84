//! Judging data field by field, as they come.

ghost use Rattle.std.specs.Prelude.{◌≡◌, ℕ, ◌<◌, ◌^◌, ◌≤◌, ◌+◌, ◌++◌, List, length, take, IfOk, IfErr, IfSome};
ghost use Rattle.terms.specs.Reading.{Bad};
ghost use Rattle.rect_data.specs.Grammar.{data_at};
ghost use Rattle.rect_data.specs.Judging.{wants_of, resume, go_on, HasBytes};

use crate::encoding::Encoding;
use crate::fields::{lies_inside, source_at};
use pixel_format::PixelFormat;
use terms::{Area, ScreenSize, WholeFields, WireFault};

/// Which field of a rectangle's data comes next: what stands for the part that is judged. Data that
/// come in pieces are judged by [`run`](Judging::run), from [`start`](Judging::start) on, and no
/// byte twice: bytes that don't make the field whole are kept until [`wants`](Judging::wants) have
/// come.
#[derive(Clone, Copy)]
pub enum Judging {
    /// The pixels of a Raw rectangle of this area.
    Pixels(Area),
    /// The upper left corner of what is copied to a rectangle of this area.
    Source(Area),
    /// A field of the data of an RRE rectangle of w by h.
    Rre {
        w: u16,
        h: u16,
        next: rre::Measuring,
    },
    /// A field of the data of a Hextile rectangle.
    Hextile(hextile::Measuring),
}

// The whole fields of an RRE rectangle's data that the bytes begin with.
fn rre_run(
    format: &PixelFormat,
    w: u16,
    h: u16,
    stage: rre::Measuring,
    bytes: &[u8],
) -> Result<WholeFields<Judging>, WireFault>
    ensures taken { IfOk result (λ fields. fields.taken ≤ length bytes.now) }
    ensures first { IfOk result (λ fields. let field = wants_of format.now (Judging.Rre w h stage) in field ≤ length bytes.now → field ≤ fields.taken) }
    ensures goes { IfOk result (λ fields. (width height : ℕ) → (more : List ℕ)
        → resume format.now width height (Judging.Rre w h stage) (take fields.taken bytes.now ++ more) ≡ go_on format.now width height fields.next more) }
    ensures waits { IfOk result (λ fields. IfSome fields.next (λ next. length bytes.now < fields.taken + wants_of format.now next)) }
    ensures refused { IfErr result (λ fault. (width height : ℕ) → (more : List ℕ)
        → resume format.now width height (Judging.Rre w h stage) (bytes.now ++ more) ≡ Bad fault) }
{
    let Ok(WholeFields { taken, next }) = stage.run(format, w, h, bytes) else {
        return Err(WireFault::BadRre);
    };
    let Some(next) = next else {
        return Ok(WholeFields { taken, next: None });
    };
    Ok(WholeFields {
        taken,
        next: Some(Judging::Rre { w, h, next }),
    })
}

// The whole fields of a Hextile rectangle's data that the bytes begin with.
fn hextile_run(
    format: &PixelFormat,
    stage: hextile::Measuring,
    bytes: &[u8],
) -> Result<WholeFields<Judging>, WireFault>
    ensures taken { IfOk result (λ fields. fields.taken ≤ length bytes.now) }
    ensures first { IfOk result (λ fields. let field = wants_of format.now (Judging.Hextile stage) in field ≤ length bytes.now → field ≤ fields.taken) }
    ensures goes { IfOk result (λ fields. (width height : ℕ) → (more : List ℕ)
        → resume format.now width height (Judging.Hextile stage) (take fields.taken bytes.now ++ more) ≡ go_on format.now width height fields.next more) }
    ensures waits { IfOk result (λ fields. IfSome fields.next (λ next. length bytes.now < fields.taken + wants_of format.now next)) }
    ensures refused { IfErr result (λ fault. (width height : ℕ) → (more : List ℕ)
        → resume format.now width height (Judging.Hextile stage) (bytes.now ++ more) ≡ Bad fault) }
{
    let Ok(WholeFields { taken, next }) = stage.run(format, bytes) else {
        return Err(WireFault::BadHextile);
    };
    let Some(next) = next else {
        return Ok(WholeFields { taken, next: None });
    };
    Ok(WholeFields {
        taken,
        next: Some(Judging::Hextile(next)),
    })
}

impl Judging {
    /// The field with which the data of a rectangle of this area begin, `None` if it has no data.
    pub fn start(format: &PixelFormat, encoding: Encoding, area: Area) -> Option<Judging>
        ensures goes { (width height : ℕ) → (more : List ℕ)
            → go_on format.now width height result more ≡ data_at format.now width height encoding area more }
        ensures some { HasBytes format.now result }
    {
        match encoding {
            Encoding::Raw if area.w == 0 || area.h == 0 => None,
            Encoding::Raw => Some(Judging::Pixels(area)),
            Encoding::CopyRect => Some(Judging::Source(area)),
            Encoding::Rre => Some(Judging::Rre {
                w: area.w,
                h: area.h,
                next: rre::Measuring::Head,
            }),
            Encoding::Hextile => {
                Some(Judging::Hextile(hextile::Measuring::start(area.w, area.h)?))
            }
        }
    }

    /// How many bytes the field has.
    pub fn wants(self, format: &PixelFormat) -> usize
        ensures value { result ≡ wants_of format.now self }
        ensures bound { result < 2 ^ 34 }
    {
        match self {
            Judging::Pixels(area) => format.bytes() * (area.w as usize * area.h as usize),
            Judging::Source(_) => 4,
            Judging::Rre { next, .. } => next.wants(format),
            Judging::Hextile(next) => next.wants(format),
        }
    }

    /// Judges the whole fields that the bytes begin with, on a screen of this size, and answers
    /// them; or the fault of the first field that is refused: `SourceOutside` at the source of a
    /// CopyRect rectangle, `BadRre` at a subrectangle that leaves an RRE rectangle, and
    /// `BadHextile` at a mask that may not stand in a Hextile rectangle and at a subrectangle that
    /// leaves its tile.
    pub fn run(
        self,
        format: &PixelFormat,
        size: ScreenSize,
        bytes: &[u8],
    ) -> Result<WholeFields<Judging>, WireFault>
        ensures taken { IfOk result (λ fields. fields.taken ≤ length bytes.now) }
        ensures first { IfOk result (λ fields. wants_of format.now self ≤ length bytes.now → wants_of format.now self ≤ fields.taken) }
        ensures goes { IfOk result (λ fields. (more : List ℕ)
            → resume format.now size.width size.height self (take fields.taken bytes.now ++ more) ≡ go_on format.now size.width size.height fields.next more) }
        ensures waits { IfOk result (λ fields. IfSome fields.next (λ next. length bytes.now < fields.taken + wants_of format.now next)) }
        ensures refused { IfErr result (λ fault. (more : List ℕ)
            → resume format.now size.width size.height self (bytes.now ++ more) ≡ Bad fault) }
    {
        match self {
            Judging::Pixels(_) => {
                let length = self.wants(format);
                if bytes.len() < length {
                    return Ok(WholeFields {
                        taken: 0,
                        next: Some(self),
                    });
                }
                Ok(WholeFields {
                    taken: length,
                    next: None,
                })
            }
            Judging::Source(area) => {
                if bytes.len() < 4 {
                    return Ok(WholeFields {
                        taken: 0,
                        next: Some(self),
                    });
                }
                let (source, _) = bytes.split_at(4);
                if !lies_inside(source_at(area, source), size) {
                    return Err(WireFault::SourceOutside);
                }
                Ok(WholeFields {
                    taken: 4,
                    next: None,
                })
            }
            Judging::Rre { w, h, next } => rre_run(format, w, h, next, bytes),
            Judging::Hextile(next) => hextile_run(format, next, bytes),
        }
    }
}
