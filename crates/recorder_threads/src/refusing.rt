//! How a refusal is told.

use refusals::{Refusal, write_refusal};
use std::io;
use std::io::Write;
use std::sync::Wait;
use std::time::Clock;
use telling::Telling;

/// Says why the recorder is refused, after what was told before, for which it waits a second at
/// most.
pub fn refuse<R: Clock + Wait, E: Write>(
    rt: &R,
    telling: &Telling,
    refusal: Refusal,
    err: &mut E,
) -> io::Result<()> {
    telling.settle(rt);
    write_refusal("serve", refusal, err)?;
    err.flush()
}
