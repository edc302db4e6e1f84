//! How many subrectangles the encoder lists, against libvncserver's RRE encoder as it is described:
//! the background is a colour that the most pixels have; by rows, from each pixel of another colour
//! that isn't covered, it takes the larger of two rectangles, the run to the right as far down as
//! it goes, and the run down as far to the right as it goes.

ghost use Rattle.std.specs.Prelude.{◌≡◌, ◌*◌, length, IfOk};

use super::{any_parts, any_picture, plain};
use crate::tests::samples::{BLACK, GREEN, RED, WHITE, any_color, below, converted};
use pixel_format::{Color, PixelFormat};
use rre::encode;
use std::alloc::Global;
use std::test::Fail;
use terms::NoMemory;

/// Pixels that are still to be covered, by rows.
#[derive(Drop)]
struct Pixels {
    w: usize,
    h: usize,
    open: Vec<Option<Color>>,
}

impl Pixels {
    fn has(&self, column: usize, row: usize, color: Color) -> bool {
        column < self.w
            && self.open.get(row.wrapping_mul(self.w).wrapping_add(column)) == Some(&Some(color))
    }

    // How many pixels of the colour stand side by side, from this one to the right.
    fn across(&self, column: usize, row: usize, color: Color) -> usize {
        (column..self.w)
            .take_while(|x| self.has(*x, row, color))
            .count()
    }

    // The larger of the two rectangles at a pixel: its width and height.
    fn larger(&self, column: usize, row: usize, color: Color) -> (usize, usize) {
        let width = self.across(column, row, color);
        let height = (row..self.h)
            .take_while(|y| self.across(column, *y, color) >= width)
            .count();
        let down = (row..self.h)
            .take_while(|y| self.has(column, *y, color))
            .count();
        let narrowest = (row..row.saturating_add(down))
            .map(|y| self.across(column, y, color))
            .min()
            .unwrap_or(0);
        if width.wrapping_mul(height) > narrowest.wrapping_mul(down) {
            (width, height)
        } else {
            (narrowest, down)
        }
    }

    fn cover(&mut self, column: usize, row: usize, width: usize, height: usize) {
        for y in row..row.saturating_add(height) {
            for x in column..column.saturating_add(width) {
                if let Some(one_pixel) = self.open.get_mut(y.wrapping_mul(self.w).wrapping_add(x)) {
                    *one_pixel = None;
                }
            }
        }
    }
}

// How many subrectangles libvncserver would list over this background.
fn expected(
    alloc: Global,
    w: u16,
    h: u16,
    background: Color,
    colors: &[Color],
) -> Result<u32, NoMemory> {
    let mut open = Vec::new(alloc);
    for color in colors {
        open.push((*color != background).then_some(*color))?;
    }
    let mut pixels = Pixels {
        w: w.into(),
        h: h.into(),
        open,
    };
    let mut count = 0u32;
    for (k, color) in colors.iter().enumerate() {
        let (column, row) = (k % w.max(1) as usize, k / w.max(1) as usize);
        if pixels.has(column, row, *color) {
            let (width, height) = pixels.larger(column, row, *color);
            pixels.cover(column, row, width, height);
            count = count.saturating_add(1);
        }
    }
    Ok(count)
}

fn times(color: Color, colors: &[Color]) -> usize {
    colors.iter().filter(|other| **other == color).count()
}

// Whether a picture is short in the host format: no colour is more frequent than the background, and
// libvncserver would list no fewer subrectangles over it.
fn is_short(alloc: Global, w: u16, h: u16, picture: &[Color]) -> Result<bool, NoMemory>
    requires { length picture.now ≡ h * w }
{
    let host = PixelFormat::host();
    let colors = converted(alloc, &host, picture)?;
    let mut bytes = Vec::new(alloc);
    encode(alloc, &host, w, h, &colors, &mut bytes)?;
    let Some((head, _)) = bytes.split_first_chunk::<8>() else {
        return Ok(false);
    };
    let count = u32::from_be_bytes([head[0], head[1], head[2], head[3]]);
    let background = host.pixel(&head[4..]);
    let most = times(background, &colors);
    let is_frequent = colors.iter().all(|color| times(*color, &colors) <= most);
    Ok(is_frequent && count <= expected(alloc, w, h, background, &colors)?)
}

#[derive(Clone, Copy)]
enum Pattern {
    Flat,
    Across,
    Down,
    Diagonal,
    Checked,
    Crossing,
    Text,
}

// The rows of a few letters of five columns.
const LETTERS: [[u8; 7]; 6] = [
    [
        0b01110, 0b10001, 0b10001, 0b11111, 0b10001, 0b10001, 0b10001,
    ],
    [
        0b11110, 0b10001, 0b10001, 0b11110, 0b10001, 0b10001, 0b11110,
    ],
    [
        0b11111, 0b10000, 0b10000, 0b11110, 0b10000, 0b10000, 0b11111,
    ],
    [
        0b11111, 0b00100, 0b00100, 0b00100, 0b00100, 0b00100, 0b00100,
    ],
    [
        0b10001, 0b11001, 0b10101, 0b10011, 0b10001, 0b10001, 0b10001,
    ],
    [
        0b10001, 0b01010, 0b00100, 0b00100, 0b00100, 0b01010, 0b10001,
    ],
];

fn is_inked(column: usize, row: usize) -> bool {
    let letter = LETTERS[(column / 6 ^ row / 9) % 6];
    let (x, y) = (column % 6, row % 9);
    x < 5 && y < 7 && letter[y] >> (4 - x) & 1 == 1
}

fn patterned(pattern: Pattern, column: usize, row: usize) -> Color {
    let palette = [RED, GREEN, WHITE];
    match pattern {
        Pattern::Flat => RED,
        Pattern::Across => palette[row / 3 % 3],
        Pattern::Down => palette[column / 5 % 3],
        Pattern::Diagonal => palette[(column / 4 ^ row / 3) % 3],
        Pattern::Checked => palette[(column / 4 ^ row / 4) % 2],
        Pattern::Crossing if column % 11 < 2 || row % 7 < 2 => BLACK,
        Pattern::Text if is_inked(column, row) => BLACK,
        Pattern::Crossing | Pattern::Text => WHITE,
    }
}

const PATTERNS: [(&str, Pattern); 7] = [
    ("flat", Pattern::Flat),
    ("across", Pattern::Across),
    ("down", Pattern::Down),
    ("diagonal", Pattern::Diagonal),
    ("checked", Pattern::Checked),
    ("crossing", Pattern::Crossing),
    ("text", Pattern::Text),
];

#[test]
fn patterns_take_no_more_subrectangles(rt: HostRuntime) -> Result<(), Fail> {
    let alloc = rt.alloc();
    for (name, pattern) in PATTERNS {
        let mut picture = vec![in alloc; RED; 27 * 32]?;
        for k in 0..864 {
            picture[k] = patterned(pattern, k % 32, k / 32);
        }
        assert!(rt; is_short(alloc, 32, 27, &picture)?, "{name}");
    }
    Ok(())
}

// Pixels of so many colours, at random.
fn noise(alloc: Global, seed: &mut u64, colors: u16) -> Result<Vec<Color>, NoMemory>
    ensures { IfOk result (λ v. length v.items ≡ 12 * 16) }
{
    let mut picture = vec![in alloc; BLACK; 12 * 16]?;
    for k in 0..192 {
        picture[k].r = below(seed, colors.max(1));
    }
    Ok(picture)
}

// Rectangles over one another, as windows are.
fn windows(alloc: Global, seed: &mut u64) -> Result<Vec<Color>, NoMemory>
    ensures { IfOk result (λ v. length v.items ≡ 12 * 16) }
{
    let background = any_color(seed);
    let parts = any_parts(alloc, seed, 12)?;
    let mut picture = vec![in alloc; BLACK; 12 * 16]?;
    for k in 0..192u16 {
        picture[k as usize] = plain(background, &parts, k % 16, k / 16);
    }
    Ok(picture)
}

/// How a picture is made at random.
#[derive(Clone, Copy)]
enum Random {
    Squares,
    Windows,
    /// Of so many colours.
    Noise(u16),
}

fn made_at_random(alloc: Global, seed: &mut u64, kind: Random) -> Result<Vec<Color>, NoMemory>
    ensures { IfOk result (λ v. length v.items ≡ 12 * 16) }
{
    match kind {
        Random::Squares => any_picture(alloc, seed),
        Random::Windows => windows(alloc, seed),
        Random::Noise(colors) => noise(alloc, seed, colors),
    }
}

#[test]
fn random_pictures_take_no_more_subrectangles(rt: HostRuntime) -> Result<(), Fail> {
    let mut seed = 1;
    for _ in 0..40 {
        for kind in [
            Random::Squares,
            Random::Windows,
            Random::Noise(2),
            Random::Noise(3),
            Random::Noise(8),
        ] {
            let picture = made_at_random(rt.alloc(), &mut seed, kind)?;
            assert!(rt; is_short(rt.alloc(), 16, 12, &picture)?);
        }
    }
    Ok(())
}
