//! Judging data field by field, as they come.

ghost use Rattle.std.specs.Prelude.{◌≡◌, ◌<◌, ◌≤◌, ◌||◌, true};

use crate::fields::{Mask, Named, is_part_inside, may_stand, pixel_size, read_count, read_mask};
use crate::position::{Position, TileHead, count_tiles};
use pixel_format::PixelFormat;
use terms::{NoLength, WholeFields};

/// Which field of a rectangle's data comes next: what stands for the part that is judged. Data that
/// come in pieces are judged by [`run`](Measuring::run), from [`start`](Measuring::start) on, and no
/// byte twice: bytes that don't make the field whole are kept until [`wants`](Measuring::wants) have
/// come.
#[derive(Clone, Copy)]
pub enum Measuring {
    /// A tile's mask.
    Mask(Position),
    /// The pixels of a raw tile.
    Pixels(Position),
    /// The colours that a tile names, and the number of its subrectangles.
    Head(TileHead),
    /// A subrectangle of a tile, which `others` follow.
    Subrectangle {
        tile: Position,
        colored: bool,
        others: u8,
    },
}

ghost use Rattle.std.specs.Prelude.{◌↔◌, ℕ, ◌+◌, ◌++◌, suc, List, length, take, IfOk, IfErr, IfSome, Ok, Err, None};
ghost use Rattle.terms.specs.Reading.{Bad};
ghost use Rattle.pixel_format.specs.Format.{Format};
ghost use Rattle.hextile.specs.Grammar.{Refused, mask_of, head_bytes, subrectangle_bytes, tiles_at, data_at};
ghost use Rattle.hextile.specs.Data.{AreData, IsRefused};
ghost use Rattle.hextile.specs.Measuring.{named_by, following, body_left, parts_left, go_on, resume, wants_of};
ghost use Rattle.terms.specs.Measuring.{judged, measured};

// The field after a tile: the next one's mask.
fn next_tile(tile: Position) -> Option<Measuring>
    ensures { (format : Format) → (more : List ℕ) → go_on format result more ≡ following format tile more }
{
    if tile.more == 0 {
        return None;
    }
    Some(Measuring::Mask(Position {
        w: tile.w,
        h: tile.h,
        more: tile.more - 1,
        named: tile.named,
    }))
}

// The field of the next of so many subrectangles of a tile.
fn next_part(tile: Position, colored: bool, count: u16) -> Option<Measuring>
    requires { count ≤ 256 }
    ensures { (format : Format) → (more : List ℕ) → go_on format result more ≡ parts_left format tile colored count more }
{
    if count == 0 {
        return next_tile(tile);
    }
    Some(Measuring::Subrectangle {
        tile,
        colored,
        others: (count - 1) as u8,
    })
}

// Judges the whole subrectangles of a tile that the bytes begin with, the first of which is there.
fn judge_parts(
    format: &PixelFormat,
    tile: Position,
    colored: bool,
    others: u8,
    bytes: &[u8],
) -> Result<WholeFields<Measuring>, NoLength>
    requires { subrectangle_bytes format.now colored ≤ length bytes.now }
    ensures taken { IfOk result (λ fields. (subrectangle_bytes format.now colored ≤ fields.taken) × (fields.taken ≤ length bytes.now)) }
    ensures goes { IfOk result (λ fields. (more : List ℕ)
        → parts_left format.now tile colored (suc others) (take fields.taken bytes.now ++ more) ≡ go_on format.now fields.next more) }
    ensures refused { IfErr result (λ _. (more : List ℕ)
        → parts_left format.now tile colored (suc others) (bytes.now ++ more) ≡ Bad Refused) }
    ensures only { IfErr result (λ fault. fault ≡ NoLength.Bad) }
{
    let size = pixel_size(format, colored) + 2;
    let area = tile.area();
    let mut left = others as u16 + 1;
    let mut rest = bytes;
    while left > 0 && rest.len() >= size {
        let (part, following) = rest.split_at(size);
        if !is_part_inside(format, colored, part, area.w, area.h) {
            return Err(NoLength::Bad);
        }
        left -= 1;
        rest = following;
    }
    Ok(WholeFields {
        taken: bytes.len() - rest.len(),
        next: next_part(tile, colored, left),
    })
}

// The tile, once it has named the colours of its mask.
fn naming(tile: Position, mask: Mask) -> Position
    ensures { result ≡ record tile { named = named_by tile.named mask } }
{
    Position {
        w: tile.w,
        h: tile.h,
        more: tile.more,
        named: Named {
            background: tile.named.background || mask.background,
            foreground: tile.named.foreground || mask.foreground,
        },
    }
}

// The field after a tile's mask, which may stand there.
fn next_field(tile: Position, mask: Mask) -> Option<Measuring>
    ensures { (format : Format) → (more : List ℕ) → go_on format result more ≡ body_left format tile mask more }
{
    if mask.raw {
        return Some(Measuring::Pixels(tile));
    }
    let tile = naming(tile, mask);
    if mask.background || mask.foreground || mask.subrectangles {
        return Some(Measuring::Head(TileHead { tile, mask }));
    }
    next_tile(tile)
}

impl Measuring {
    /// The field with which the data of a rectangle of w by h begin, `None` if it has no pixels and
    /// so no data.
    pub fn start(w: u16, h: u16) -> Option<Measuring>
        ensures { (format : Format) → (more : List ℕ) → go_on format result more ≡ judged (data_at format w h more) }
    {
        if w == 0 || h == 0 {
            return None;
        }
        Some(Measuring::Mask(Position {
            w,
            h,
            more: count_tiles(w, h) - 1,
            named: Named {
                background: false,
                foreground: false,
            },
        }))
    }

    /// How many bytes the field has: at most 1,024.
    pub fn wants(self, format: &PixelFormat) -> usize
        ensures value { result ≡ wants_of format.now self }
        ensures some { 0 < result }
        ensures most { result ≤ 1024 }
    {
        match self {
            Measuring::Mask(_) => 1,
            Measuring::Pixels(tile) => {
                let area = tile.area();
                area.w as usize * area.h as usize * format.bytes()
            }
            Measuring::Head(head) => {
                pixel_size(format, head.mask.background)
                    + pixel_size(format, head.mask.foreground)
                    + head.mask.subrectangles as usize
            }
            Measuring::Subrectangle { colored, .. } => pixel_size(format, colored) + 2,
        }
    }

    // Judges the field, or the subrectangles of its tile, if the bytes begin with it whole.
    fn front(
        self,
        format: &PixelFormat,
        bytes: &[u8],
    ) -> Result<Option<WholeFields<Measuring>>, NoLength>
        ensures taken { IfOk result (λ o. IfSome o (λ fields. (0 < fields.taken) × (wants_of format.now self ≤ fields.taken) × (fields.taken ≤ length bytes.now))) }
        ensures goes { IfOk result (λ o. IfSome o (λ fields. (more : List ℕ)
            → resume format.now self (take fields.taken bytes.now ++ more) ≡ go_on format.now fields.next more)) }
        ensures waits { result ≡ Ok None → length bytes.now < wants_of format.now self }
        ensures refused { IfErr result (λ _. (more : List ℕ)
            → resume format.now self (bytes.now ++ more) ≡ Bad Refused) }
        ensures only { IfErr result (λ fault. fault ≡ NoLength.Bad) }
    {
        let wants = self.wants(format);
        if bytes.len() < wants {
            return Ok(None);
        }
        let (field, _) = bytes.split_at(wants);
        match self {
            Measuring::Mask(tile) => {
                let mask = read_mask(field[0]);
                if !may_stand(tile.named, field[0], mask) {
                    return Err(NoLength::Bad);
                }
                Ok(Some(WholeFields {
                    taken: wants,
                    next: next_field(tile, mask),
                }))
            }
            Measuring::Pixels(tile) => Ok(Some(WholeFields {
                taken: wants,
                next: next_tile(tile),
            })),
            Measuring::Head(head) => {
                let count = read_count(format, head.mask, field);
                let next = next_part(head.tile, head.mask.colored, count as u16);
                Ok(Some(WholeFields { taken: wants, next }))
            }
            Measuring::Subrectangle {
                tile,
                colored,
                others,
            } => {
                let judged = judge_parts(format, tile, colored, others, bytes)?;
                Ok(Some(judged))
            }
        }
    }

    /// Judges the whole fields that the bytes begin with, and answers them; or `NoLength::Bad` if
    /// one of them is a mask that may not stand there, or a subrectangle that leaves its tile.
    pub fn run(self, format: &PixelFormat, bytes: &[u8]) -> Result<WholeFields<Measuring>, NoLength>
        ensures taken { IfOk result (λ fields. fields.taken ≤ length bytes.now) }
        ensures first { IfOk result (λ fields. wants_of format.now self ≤ length bytes.now → wants_of format.now self ≤ fields.taken) }
        ensures goes { IfOk result (λ fields. (more : List ℕ)
            → resume format.now self (take fields.taken bytes.now ++ more) ≡ go_on format.now fields.next more) }
        ensures waits { IfOk result (λ fields. IfSome fields.next (λ next. length bytes.now < fields.taken + wants_of format.now next)) }
        ensures refused { IfErr result (λ _. (more : List ℕ)
            → resume format.now self (bytes.now ++ more) ≡ Bad Refused) }
        ensures only { IfErr result (λ fault. fault ≡ NoLength.Bad) }
    {
        let mut rest = bytes;
        let mut next = Some(self);
        while let Some(stage) = next {
            let Some(fields) = stage.front(format, rest)? else {
                break;
            };
            rest = &rest[fields.taken..];
            next = fields.next;
        }
        Ok(WholeFields {
            taken: bytes.len() - rest.len(),
            next,
        })
    }
}

// The same as `measure`, in the words of the grammar.
fn measure_by_fields(format: &PixelFormat, w: u16, h: u16, bytes: &[u8]) -> Result<usize, NoLength>
    ensures { result ≡ measured (length bytes.now) (data_at format.now w h bytes.now) }
{
    let Some(first) = Measuring::start(w, h) else {
        return Ok(0);
    };
    let fields = first.run(format, bytes)?;
    fields.length()
}

/// The length of the data of a rectangle of w by h that begin the bytes (RFC 6143, section 7.7.4);
/// of a rectangle of no area it is 0. `NoLength::Bad` comes at the byte of the first mask that may
/// not stand there, or at the last byte of the first subrectangle that leaves its tile, whichever
/// comes first, and `NoLength::NeedMore` for all other bytes that no data begin. It takes no memory.
pub fn measure(format: &PixelFormat, w: u16, h: u16, bytes: &[u8]) -> Result<usize, NoLength>
    ensures value { result ≡ measured (length bytes.now) (data_at format.now w h bytes.now) }
    ensures ok { IfOk result (λ n. (n ≤ length bytes.now) × AreData format.now w h (take n bytes.now)) }
    ensures whole { (front more : List ℕ) → bytes.now ≡ front ++ more → AreData format.now w h front
        → result ≡ Ok (length front) }
    ensures bad { (result ≡ Err NoLength.Bad) ↔ IsRefused format.now w h bytes.now }
{
    measure_by_fields(format, w, h, bytes)
}
