//! Numbers that follow one another with one outcome.

use crate::outcome::Outcome;
use std::alloc::{AllocError, Global};
use std::io;

/// The outcome of all numbers from one to another.
#[derive(Drop)]
struct Run {
    first: usize,
    last: usize,
    outcome: Outcome,
}

/// The outcomes of numbers, told together if they are the same.
#[derive(Drop)]
pub struct Runs {
    runs: Vec<Run>,
}

impl Runs {
    /// Before the first number.
    pub fn new(alloc: Global) -> Runs {
        Runs {
            runs: Vec::new(alloc),
        }
    }

    /// Notes the outcome of the next number.
    pub fn note(&mut self, number: usize, outcome: Outcome) -> Result<(), AllocError> {
        if let Some(run) = self.runs.last_mut()
            && run.outcome == outcome
        {
            run.last = number;
            return Ok(());
        }
        self.runs.push(Run {
            first: number,
            last: number,
            outcome,
        })?;
        Ok(())
    }

    /// Prints them to the end of a line, and the first bytes of a digest.
    pub fn print(&self, rt: &HostRuntime, digest: [u8; 32]) -> io::Result<()> {
        for run in &self.runs {
            if run.first == run.last {
                print!(rt; " {} {};", run.first, run.outcome)?;
            } else {
                print!(rt; " {}-{} {};", run.first, run.last, run.outcome)?;
            }
        }
        let text = hex::encode(rt.alloc(), &digest[..4])?;
        println!(rt; " {text}")
    }
}
