//! The command `list`.

use crate::command::Work;
use crate::recording::open_path;
use crate::refusing::Ended;
use file_disk::{FileDisk, Progress};
use key_index::Indexed;
use std::fs::File;
use std::io;
use std::io::{BufWriter, Write};
use std::rt::Files;

// A line a block: its number, its first message, how many it has, whether it has a key screen, and
// the time of its first message.
fn write_blocks<O: Write>(index: &Indexed<FileDisk>, out: &mut O) -> io::Result<()> {
    for block in 0..index.blocks() {
        let first = index.start(block);
        let count = index.count(block);
        let key = if index.has_key(block) { "yes" } else { "no" };
        let time = index.first_time(block);
        writeln!(
            out,
            "block {block} first {first} messages {count} key {key} time {time}"
        )?;
    }
    Ok(())
}

impl<R: Files<File = File> + AllocGlobal, O: Write> Work<'_, R, O> {
    /// Writes a line for each block that counts of the recording at a path.
    pub fn list<'a>(&mut self, path: &'a str) -> Result<(), Ended<'a>> {
        let index = open_path(self.rt, path, self.progress)?;
        let mut lines = BufWriter::new(self.rt.alloc(), &mut *self.out)?;
        write_blocks(&index, &mut lines)?;
        Ok(lines.flush()?)
    }
}
