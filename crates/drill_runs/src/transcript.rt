//! A drill and its answers, as they stand in a file.

use std::alloc::Global;
use std::io;

/// A script, and what it is to answer. If its disk has a recording at first, the first line is `<`
/// and the hexadecimal digits of that one's bytes. If the bytes that its disk then has are told
/// too, they are the last line of the answers, as `=` and their hexadecimal digits.
#[derive(Drop)]
pub struct Transcript {
    recording: Option<Vec<u8>>,
    script: Vec<u8>,
    answers: String,
    tells_bytes: bool,
}

impl Transcript {
    /// Reads the lines of one drill. `\r` in a line of the script is a carriage return; after `*` a
    /// line of it is told by its bytes, as hexadecimal digits.
    pub fn read(alloc: Global, text: &str) -> io::Result<Transcript> {
        let mut recording = None;
        let mut script = Vec::new(alloc);
        let mut answers = String::new(alloc);
        let mut tells_bytes = false;
        for line in text.lines() {
            if let Some(words) = line.strip_prefix(">") {
                let words = words.replace(alloc, "\\r", "\r")?;
                script.extend_from_slice(words.strip_prefix(" ").unwrap_or("").as_bytes())?;
                script.push(b'\n')?;
            } else if let Some(digits) = line.strip_prefix("*") {
                script.extend_from_slice(&bytes_of(alloc, digits)?)?;
                script.push(b'\n')?;
            } else if let Some(digits) = line.strip_prefix("<") {
                recording = Some(bytes_of(alloc, digits)?);
            } else if !line.starts_with("#") {
                tells_bytes = line.starts_with("=");
                let words = if tells_bytes {
                    line.replace(alloc, " ", "")?
                } else {
                    line.to_string(alloc)?
                };
                answers.push_str(words.as_str())?;
                answers.push_str("\n")?;
            }
        }
        Ok(Transcript {
            recording,
            script,
            answers,
            tells_bytes,
        })
    }

    /// What the drill answers, if that is something else.
    pub fn answered_otherwise(&self, alloc: Global) -> io::Result<Option<String>> {
        let mut out = Vec::new(alloc);
        let script = self.script.as_slice();
        let ran = match &self.recording {
            Some(bytes) => drill::run_over(alloc, bytes.to_vec(alloc)?, script, &mut out)?,
            None => drill::run_and_read(alloc, script, &mut out)?,
        };
        let mut answers = text_of(out)?;
        if self.tells_bytes {
            let digits = hex::encode(alloc, ran.recording.as_slice())?;
            answers.push_str(format!(in alloc; "={digits}\n")?.as_str())?;
        }
        Ok((answers.as_str() != self.answers.as_str()).then_some(answers))
    }
}

// The bytes that these hexadecimal digits spell, between which spaces may stand.
fn bytes_of(alloc: Global, digits: &str) -> io::Result<Vec<u8>> {
    let digits = digits.replace(alloc, " ", "")?;
    match hex::decode(alloc, digits.as_bytes()) {
        Ok(bytes) => Ok(bytes),
        Err(_) => Err(io::ErrorKind::InvalidData.into()),
    }
}

fn text_of(bytes: Vec<u8>) -> io::Result<String> {
    match String::from_utf8(bytes) {
        Ok(text) => Ok(text),
        Err(_) => Err(io::ErrorKind::InvalidData.into()),
    }
}
