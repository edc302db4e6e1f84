//! A canvas to paint on: the plainest, for tests and for rectangles that hosts sent.

ghost use Rattle.std.specs.Prelude.{◌≡◌, ℕ, ◌/◌, ◌%◌, length, ◌<◌, slice_index_or, if◌then◌else◌};
ghost use Rattle.terms.specs.Area.{is_in, LiesWithin};
ghost use Rattle.wire_tests.specs.TestCanvases.{color_at};

use pixel_format::{Canvas, Color};
use std::marker::Model;
use terms::Area;

/// How many columns a sheet has.
pub const WIDTH: u16 = 320;

/// How many rows a sheet has.
pub const HEIGHT: u16 = 120;

/// A canvas of 320 by 120 pixels. It holds the colours of any pixel format.
#[derive(Drop)]
pub struct TestCanvas {
    // By rows, from the top and the left.
    colors: [Color; 38400],
}

impl Model for TestCanvas {
    ghost use Rattle.std.specs.Prelude.{List};
    ghost use Rattle.pixel_format.specs.declared.Color.{Color};

    ghost Value = { List Color };

    ghost view = { λ s. s.colors };
}

impl Canvas for TestCanvas {
    ghost width = { λ _. 320 };

    ghost height = { λ _. 120 };

    ghost holds = { λ _. Unit {0} };

    ghost picture = { color_at };

    fn fill(&mut self, area: Area, color: Color) {
        fill_area(&mut self.colors, area, color);
    }
}

// Gives the pixels of an area one colour: all pixels of its rows are looked at.
fn fill_area(colors: &mut [Color], area: Area, color: Color)
    requires size { length colors.old ≡ 38400 }
    requires within { LiesWithin 320 120 area }
    ensures { (i : ℕ) → i < 38400 → slice_index_or colors.new i (record { r = 0; g = 0; b = 0 })
        ≡ (if is_in area (i % 320) (i / 320) then color else slice_index_or colors.old i (record { r = 0; g = 0; b = 0 })) }
{
    for k in 320 * area.y..320 * (area.y + area.h) {
        let here = is_inside(area, k % 320, k / 320);
        colors[k as usize] = chosen(here, color, colors[k as usize]);
    }
}

fn is_inside(area: Area, x: u16, y: u16) -> bool
    requires { LiesWithin 320 120 area }
    ensures { result ≡ is_in area x y }
{
    area.x <= x && x < area.x + area.w && area.y <= y && y < area.y + area.h
}

fn chosen(here: bool, color: Color, before: Color) -> Color
    ensures { result ≡ (if here then color else before) }
{
    if here { color } else { before }
}

impl TestCanvas {
    /// A sheet that has this colour everywhere.
    pub fn new(color: Color) -> TestCanvas
        ensures { (x y : ℕ) → x < 320 → y < 120 → color_at result x y ≡ color }
    {
        TestCanvas {
            colors: [color; 38400],
        }
    }

    /// The colour of a pixel: column x of row y, counted from 0 at the left and the top.
    pub fn color(&self, x: u16, y: u16) -> Color
        requires column { x < 320 }
        requires row { y < 120 }
        ensures { result ≡ color_at self.now x y }
    {
        self.colors[320 * usize::from(y) + usize::from(x)]
    }
}
