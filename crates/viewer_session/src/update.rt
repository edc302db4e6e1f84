//! An update of copies and of some areas of a screen.

ghost use Rattle.std.specs.Prelude.{◌≡◌, ◌+◌, ◌<◌, ◌^◌, All, length, IfOk, OnOk, OnErr};
ghost use Rattle.terms.specs.Appending.{Appends};
ghost use Rattle.terms.specs.Area.{LiesWithin};
ghost use Rattle.shared_updates.specs.Updates.{IsUpdateOf};
ghost use Rattle.viewer_session.specs.Parts.{screen_parts};

use crate::shown::Shown;
use painter::ScreenPart;
use pixel_format::PixelFormat;
use rect_data::Encoding;
use shared_updates::KeptCopy;
use std::alloc::Global;
use terms::{Area, NoMemory};

// The parts of an update of these copies, and of these areas after them.
fn parts_of(
    alloc: Global,
    copies: &[KeptCopy],
    encoding: Encoding,
    areas: &[Area],
) -> Result<Vec<ScreenPart>, NoMemory>
    ensures { IfOk result (λ parts. parts.items ≡ screen_parts copies.now encoding areas.now) }
{
    let mut parts = Vec::new(alloc);
    for copy in copies {
        parts.push(ScreenPart::Copy {
            area: copy.area,
            source_x: copy.source_x,
            source_y: copy.source_y,
        })?;
    }
    for area in areas {
        parts.push(ScreenPart::Region {
            area: *area,
            encoding,
        })?;
    }
    Ok(parts)
}

/// Appends an update of these copies, and of these areas of a screen after them, in their order, for
/// one who takes this format and asked for this encoding. Running out of memory leaves
/// `out` as it was.
pub fn write_areas(
    alloc: Global,
    format: &PixelFormat,
    encoding: Encoding,
    screen: &Shown,
    copies: &[KeptCopy],
    areas: &[Area],
    out: &mut Vec<u8>,
) -> Result<(), NoMemory>
    requires few { length copies.now + length areas.now < 2 ^ 16 }
    requires within { All (LiesWithin screen.now.width screen.now.height) areas.now }
    ensures ok { OnOk result (Appends (IsUpdateOf format.now encoding screen.now copies.now areas.now)
        out.old.items out.new.items) }
    ensures err { OnErr result (out.new.items ≡ out.old.items) }
{
    screen.known_colors();
    let parts = parts_of(alloc, copies, encoding, areas)?;
    screen.append_update(alloc, format, &parts, out)
}
