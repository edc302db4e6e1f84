//! Sets of pixels of a screen, kept by tiles of 16 by 16.
#![tactic(auto)]

mod bits;
mod pixels;
mod tiles;

pub use pixels::{Pixels, TilePart};
