//! What ends a server from outside: its input, or a time.

use crate::bell::{Bell, Woken};
use libc::STDIN_FILENO;
use reception::Stop;
use std::io;
use std::time::{Clock, Duration, Instant};

// Reads over what standard input has: whether it goes on.
fn input_goes_on() -> bool {
    let mut buffer = [0u8; 4096];
    libc::read(STDIN_FILENO, &mut buffer) > 0
}

/// Waits until standard input ends or the time is over, as asked for: whether one of these came,
/// and not the bell. An error is of the clock.
pub fn wait_for_stop<R: Clock>(rt: &R, stop: Stop, bell: &Bell) -> io::Result<bool> {
    let started = Instant::now(rt)?;
    let input = stop.at_end_of_input.then_some(STDIN_FILENO);
    for _ in 0..u64::MAX {
        let left = match stop.after {
            None => None,
            Some(seconds) => {
                let left = Duration::from_secs(seconds).saturating_sub(started.elapsed(rt)?);
                if left < Duration::from_millis(1) {
                    return Ok(true);
                }
                Some(left)
            }
        };
        match bell.wait(input, left) {
            Woken::Rung => return Ok(false),
            Woken::Ready if !input_goes_on() => return Ok(true),
            _ => {}
        }
    }
    Ok(false)
}
