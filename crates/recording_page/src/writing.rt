//! The writing of a page.

ghost use Rattle.std.specs.Prelude.{◌++◌, ◌≡◌, [], ℕ, List, Some, IfOk};
ghost use Rattle.std.specs.Io.KnownBytes.{Keeps};
ghost use Rattle.std.specs.Option.{option_map};
ghost use Rattle.base64.specs.Engines.{standard};
ghost use Rattle.base64.specs.GeneralPurpose.{SameEngine, encode_of};
ghost use Rattle.base64.specs.Write.{finished};
ghost use Rattle.recording_page.specs.Page.{IsPage, page_after, page_of};

use base64::engine::GeneralPurpose;
use base64::write::EncoderWriter;
use std::io;
use std::io::Write;
use std::snapshot::Snapshot;

/// A page that was begun: what is written to it, it has in it in base64 (RFC 4648, section 4).
#[derive(Drop)]
pub struct Page<'e, W: Write + Drop> {
    encoder: EncoderWriter<'e, W>,
    before: Snapshot<W>,
    ghost has: { ∥ IsPage (W.contents before.value) (finished encoder) ∥₁ },
}

impl<'e, W: Write + Drop> Page<'e, W> {
    /// Begins a page: with this front, before what is written to it.
    pub fn begin(out: W, engine: &'e GeneralPurpose, front: &[u8]) -> io::Result<Page<'e, W>>
        requires { SameEngine engine.now standard }
        ensures { IfOk result (λ page. Keeps
            (option_map (λ held. page_of (held ++ front.now) []) (W.contents out))
            (page_after (W.contents page.before.value) (finished page.encoder []))) }
    {
        let mut out = out;
        out.write_all(front)?;
        let before = Snapshot::of(&out);
        Ok(Page {
            encoder: EncoderWriter::new(out, engine),
            before,
        })
    }

    /// Ends a page: writes what is left of what it was given, and then what stands between that and
    /// the painter's script, this script, and the end.
    pub fn end(self, middle: &[u8], painter: &[u8], end: &[u8]) -> io::Result<W>
        ensures { IfOk result (λ out. (before bytes : List ℕ)
            → page_after (W.contents self.entry.before.value) (finished self.entry.encoder []) ≡ Some (page_of before bytes)
            → W.contents out ≡ Some (before ++ (encode_of standard bytes ++ (middle.now ++ (painter.now ++ end.now))))) }
    {
        let Page { encoder, before: _ } = self;
        let mut out = encoder.finish()?;
        out.write_all(middle)?;
        out.write_all(painter)?;
        out.write_all(end)?;
        Ok(out)
    }
}

impl<'e, W: Write + Drop> Write for Page<'e, W> {
    ghost contents = { λ page. page_after (W.contents page.before.value) (finished page.encoder []) };

    fn write(&mut self, bytes: &[u8]) -> io::Result<usize> {
        self.encoder.write(bytes)
    }

    fn flush(&mut self) -> io::Result<()> {
        self.encoder.flush()
    }
}
