//! Hextile data that are judged field by field.

use hextile::Measuring;
use pixel_format::PixelFormat;
use terms::NoLength;

/// How many bytes the fields of the data have that the bytes begin with, or why they have no length,
/// as [`hextile::measure`] should say it.
pub fn hextile_in_pieces(
    format: &PixelFormat,
    w: u16,
    h: u16,
    bytes: &[u8],
) -> Result<usize, NoLength> {
    let mut rest = bytes;
    let mut next = Measuring::start(w, h);
    for _ in 0..=bytes.len() {
        let Some(stage) = next else {
            return Ok(bytes.len() - rest.len().min(bytes.len()));
        };
        let wants = stage.wants(format);
        if rest.len() < wants {
            return Err(NoLength::NeedMore);
        }
        let fields = stage.run(format, &rest[..wants])?;
        rest = &rest[fields.taken..];
        next = fields.next;
    }
    Err(NoLength::NeedMore)
}
