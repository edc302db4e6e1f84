//! A recording in a file, opened to be read.

ghost use Rattle.std.specs.Prelude.{◌≡◌, IfOk};

use crate::refusing::Refused;
use crate::source_file::open_source;
use file_disk::{FileDisk, Progress};
use gated_journal::State;
use key_index::{IndexFault, Indexed};
use refusals::Refusal;
use std::alloc::Global;
use std::fs::File;
use std::rt::Files;

/// The recording at a path, opened for reading alone.
pub fn open_path<'a, R: Files<File = File> + AllocGlobal>(
    rt: &R,
    path: &'a str,
    progress: Progress,
) -> Result<Box<Indexed<FileDisk>>, Refused<'a>>
    ensures ready { IfOk result (λ i. i.value.numbers.state ≡ State.Ready) }
{
    let file = open_source(rt, path)?;
    Ok(open_recording(rt, file, progress)?)
}

// A value in a box, if there is memory for it.
fn boxed<T: Drop>(alloc: Global, value: T) -> Result<Box<T>, Refusal>
    ensures { IfOk result (λ boxed. boxed.value ≡ value) }
{
    Box::new(alloc, value).map_err(|_| Refusal::Recording(IndexFault::NoMemory))
}

/// The recording that a file holds, which is open for reading alone. It is boxed, since it is large,
/// and each way out of a function that owns it would take it apart.
pub fn open_recording<R: Files<File = File> + AllocGlobal>(
    rt: &R,
    file: File,
    progress: Progress,
) -> Result<Box<Indexed<FileDisk>>, Refusal>
    ensures ready { IfOk result (λ i. i.value.numbers.state ≡ State.Ready) }
{
    let alloc = rt.alloc();
    let opened = Indexed::open(alloc, FileDisk::to_read(rt, file).watched(progress));
    let mut progress = progress;
    progress.end();
    match opened {
        Ok(index) => boxed(alloc, index),
        Err(refused) => Err(Refusal::Recording(refused.fault)),
    }
}
