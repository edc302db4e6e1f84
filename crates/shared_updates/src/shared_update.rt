//! An update that is kept with what it is one of.

ghost use Rattle.std.specs.Prelude.{◌≡◌, All, IsTrue, IfOk};
ghost use Rattle.terms.specs.Area.{LiesWithin};
ghost use Rattle.painter.specs.Framebuffer.{AgreeIn};
ghost use Rattle.shared_updates.specs.Updates.{IsUpdateOf};
ghost use Rattle.shared_updates.specs.Known.{IsKnown, IsFor, ShowsSame};

use crate::copy::KeptCopy;
use crate::wanted::{Wanted, same_areas, same_copies, same_format};
use painter::Snapshot;
use pixel_format::PixelFormat;
use rect_data::Encoding;
use std::alloc::Global;
use std::marker::Model;
use terms::{Area, NoMemory};

/// An update that was written for one viewer from a snapshot, and may serve others. Contracts see
/// what it is one of, and its bytes.
#[derive(Drop)]
pub struct SharedUpdate {
    format: PixelFormat,
    encoding: Encoding,
    copies: Vec<KeptCopy>,
    areas: Vec<Area>,
    snapshot: Snapshot,
    bytes: Vec<u8>,
}

impl Model for SharedUpdate {
    ghost use Rattle.shared_updates.specs.Known.{Known, IsKnown};

    ghost Value = { Known };

    ghost view = { λ u. record {
      format = u.format;
      encoding = u.encoding;
      copies = u.copies.items;
      areas = u.areas.items;
      screen = u.snapshot;
      bytes = u.bytes.items;
    } };

    ghost invariant = { λ u. IsKnown (record {
      format = u.format;
      encoding = u.encoding;
      copies = u.copies.items;
      areas = u.areas.items;
      screen = u.snapshot;
      bytes = u.bytes.items;
    }) };
}

// Whether two pictures have the same colours in each of these areas.
fn agree_in(areas: &[Area], one: &Snapshot, other: &Snapshot) -> bool
    requires one { All (LiesWithin one.now.width one.now.height) areas.now }
    requires other { All (LiesWithin other.now.width other.now.height) areas.now }
    ensures { IsTrue result → All (λ area. AgreeIn area one.now other.now) areas.now }
{
    for area in areas {
        if !one.same_in(other, *area) {
            return false;
        }
    }
    true
}

impl SharedUpdate {
    /// Keeps an update of what was wanted of a snapshot. Its bytes are copied, the picture is shared.
    pub fn new(
        alloc: Global,
        wanted: Wanted<'_>,
        snapshot: &Snapshot,
        bytes: &[u8],
    ) -> Result<SharedUpdate, NoMemory>
        requires within { All (LiesWithin snapshot.now.width snapshot.now.height) wanted.areas.now }
        requires is { IsUpdateOf wanted.format.now wanted.encoding snapshot.now wanted.copies.now wanted.areas.now bytes.now }
        ensures wanted { IfOk result (λ u. IsFor u wanted.entry) }
        ensures screen { IfOk result (λ u. u.screen ≡ snapshot.now) }
        ensures bytes { IfOk result (λ u. u.bytes ≡ bytes.now) }
    {
        let Ok(format) = PixelFormat::read(&wanted.format.write()) else {
            unreachable!()
        };
        Ok(SharedUpdate {
            format,
            encoding: wanted.encoding,
            copies: Vec::from_slice(alloc, wanted.copies)?,
            areas: Vec::from_slice(alloc, wanted.areas)?,
            snapshot: snapshot.share()?,
            bytes: Vec::from_slice(alloc, bytes)?,
        })
    }

    /// What holds of it. (It does nothing.)
    pub fn known(&self)
        ensures { IsKnown self.now }
    {
        let _ = &self.format;
    }

    /// Its bytes.
    pub fn bytes(&self) -> &[u8]
        ensures { result.now ≡ self.now.bytes }
    {
        &self.bytes
    }

    /// Whether it was written for one who wanted the same, perhaps of another picture.
    pub fn is_for(&self, wanted: Wanted<'_>) -> bool
        ensures { IsTrue result → IsFor self.now wanted.entry }
    {
        self.encoding == wanted.encoding
            && same_format(&self.format, wanted.format)
            && same_copies(&self.copies, wanted.copies)
            && same_areas(&self.areas, wanted.areas)
    }

    // Whether another snapshot has the same colours in its areas, and the same size.
    fn shows_same(&self, snapshot: &Snapshot) -> bool
        ensures { IsTrue result → ShowsSame self.now snapshot.now }
    {
        self.snapshot.size() == snapshot.size() && agree_in(&self.areas, &self.snapshot, snapshot)
    }

    /// Whether it is also an update of what is wanted of another snapshot: the same is wanted, and
    /// that has the same colours in the areas. Only their pixels are read.
    pub fn serves(&self, wanted: Wanted<'_>, snapshot: &Snapshot) -> bool
        ensures { IsTrue result → IsUpdateOf wanted.entry.format.now wanted.entry.encoding snapshot.now wanted.entry.copies.now wanted.entry.areas.now self.now.bytes }
    {
        self.known();
        self.is_for(wanted) && self.shows_same(snapshot)
    }
}
