//! Sets of pixels of a screen.

ghost use Rattle.std.specs.Prelude.{◌≡◌, ◌↔◌, ◌+◌, ◌*◌, ◌<◌, ◌||◌, ◌&&◌, not, ℕ, true, All, length, IfOk, IsTrue, MatchOption, if◌then◌else◌};
ghost use Rattle.terms.specs.Area.{is_in, IsSmallest, IsSmallestOf, LiesWithin};

use crate::bits::first;
use crate::tiles::{SIDE, fill_area, smallest_in, tile_area, tile_at, tiles_of};
use std::alloc::Global;
use std::marker::Model;
use terms::{Area, NoMemory, ScreenSize};

const MOST_AREAS: usize = 4096;

/// A tile of a screen, and the smallest area that holds some pixels of it.
#[derive(Clone, Copy)]
pub struct TilePart {
    /// Its number: tiles of 16 by 16 by rows from the top, each from the left.
    pub tile: usize,
    pub area: Area,
}

/// A set of pixels of a screen. It takes a bit a pixel, and one a tile of 16 by 16.
#[derive(Drop)]
pub struct Pixels {
    size: ScreenSize,
    // Four words a tile: its 16 rows of 16 bits. Tiles by rows from the top, each from the left.
    words: Vec<u64>,
    // A bit a tile: 1 if it may have a pixel of the set.
    summary: Vec<u64>,
}

impl Model for Pixels {
    ghost use Rattle.pixel_sets.specs.Pixels.{PixelSet, pixels_of, AreTiles};

    ghost Value = { PixelSet };

    ghost view = { λ s. pixels_of s.size.width s.size.height s.words.items };

    ghost invariant = { λ s. AreTiles s.size.width s.size.height s.words.items s.summary.items };
}

impl Pixels {
    ghost use Rattle.pixel_sets.specs.Pixels.{holds, AreJust, SameSize, tile_count, is_in_tile, is_in_some, IsFirstTile, HasNoTile, HasNone, IsAlone, AreSent};

    /// All pixels of a screen of this size.
    pub fn all(alloc: Global, size: ScreenSize) -> Result<Pixels, NoMemory>
        ensures width { IfOk result (λ set. set.width ≡ size.width) }
        ensures height { IfOk result (λ set. set.height ≡ size.height) }
        ensures all { IfOk result (λ set. AreJust set (λ x y. true)) }
    {
        let tiles = tiles_of(size.height) * tiles_of(size.width);
        let words = vec![in alloc; 0; 4 * tiles]?;
        let summary = vec![in alloc; 0; tiles.div_ceil(64)]?;
        let mut pixels = Pixels {
            size,
            words,
            summary,
        };
        pixels.insert_all();
        Ok(pixels)
    }

    // Puts the pixels of an area into the set, or takes them out of it.
    fn fill(&mut self, area: Area, value: bool)
        requires { LiesWithin self.old.width self.old.height area }
        ensures size { SameSize self.old self.new }
        ensures just { AreJust self.new
            (λ x y. if is_in area x y then value else holds self.old x y) }
    {
        let columns = tiles_of(self.size.width);
        fill_area(&mut self.words, &mut self.summary, columns, area, value);
    }

    /// Puts the pixels of an area into the set. It costs what the area costs.
    pub fn insert(&mut self, area: Area)
        requires { LiesWithin self.old.width self.old.height area }
        ensures size { SameSize self.old self.new }
        ensures just { AreJust self.new (λ x y. is_in area x y || holds self.old x y) }
    {
        self.fill(area, true);
    }

    /// Puts all pixels into the set.
    pub fn insert_all(&mut self)
        ensures size { SameSize self.old self.new }
        ensures just { AreJust self.new (λ x y. true) }
    {
        self.insert(Area::whole(self.size));
    }

    // Takes the pixels of an area out of the set. It costs what the area costs.
    fn take_out(&mut self, area: Area)
        requires { LiesWithin self.old.width self.old.height area }
        ensures size { SameSize self.old self.new }
        ensures just { AreJust self.new (λ x y. holds self.old x y && not (is_in area x y)) }
    {
        self.fill(area, false);
    }

    /// Takes the pixels of an area out of the set. It costs a look at the summary of the area's tiles,
    /// and what is in the set there.
    pub fn remove(&mut self, area: Area)
        requires { LiesWithin self.old.width self.old.height area }
        ensures size { SameSize self.old self.new }
        ensures just { AreJust self.new (λ x y. holds self.old x y && not (is_in area x y)) }
    {
        if let Some(part) = self.smallest(area) {
            self.take_out(part);
        }
    }

    /// The smallest area that holds the pixels of the set in one tile's part of an area.
    pub fn smallest_in_tile(&self, tile: usize, area: Area) -> Option<Area>
        requires area { LiesWithin self.now.width self.now.height area }
        requires tile { tile < tile_count self.now }
        ensures { IsSmallestOf (is_in_tile self.now tile area) result }
    {
        let columns = tiles_of(self.size.width);
        let Some(part) = area.common(tile_area(tile % columns, tile / columns)) else {
            return None;
        };
        smallest_in(&self.words, columns, part)
    }

    /// The first tile, from this number on, that has a pixel of the set in an area. It looks at the
    /// summary's words, and at tiles that may have one.
    pub fn next_tile(&self, from: usize, area: Area) -> Option<TilePart>
        requires { LiesWithin self.now.width self.now.height area }
        ensures { MatchOption result (HasNoTile self.now from area)
            (IsFirstTile self.now from area) }
    {
        if area.w == 0 || area.h == 0 {
            return None;
        }
        let columns = tiles_of(self.size.width);
        let end = tile_at(columns, area.x + area.w - 1, area.y + area.h - 1) + 1;
        let mut next = tile_at(columns, area.x, area.y).max(from);
        while next < end {
            let Some(tile) = first(&self.summary, next, end) else {
                return None;
            };
            if let Some(area) = self.smallest_in_tile(tile, area) {
                return Some(TilePart { tile, area });
            }
            next = tile + 1;
        }
        None
    }

    /// Whether no pixel of an area is in the set. It looks at the area's tiles alone.
    pub fn has_none(&self, area: Area) -> bool
        requires { LiesWithin self.now.width self.now.height area }
        ensures { IsTrue result ↔ HasNone self.now area }
    {
        let w = self.size.width;
        for row in usize::from(area.y / SIDE)..tiles_of(area.y + area.h) {
            let tiles = Area {
                w,
                ..tile_area(0, row)
            };
            if let Some(part) = area.common(tiles) {
                if self.next_tile(0, part).is_some() {
                    return false;
                }
            }
        }
        true
    }

    /// How many pixels its size has. (It does nothing.)
    pub fn known(&self)
        ensures { length self.now.pixels ≡ self.now.height * self.now.width }
    {
        let _ = &self.size;
    }

    // Whether a pixel of the set stands on each edge of an area. It looks no further than that.
    fn reaches_edges(&self, area: Area) -> bool
        requires { LiesWithin self.now.width self.now.height area }
        ensures { result ≡ true → IsSmallest (λ x y. is_in area x y && holds self.now x y) area }
    {
        if self.size.width == 0 || area.w == 0 || area.h == 0 {
            return false;
        }
        let row = Area { h: 1, ..area };
        let column = Area { w: 1, ..area };
        let last_row = Area {
            y: area.y + (area.h - 1),
            ..row
        };
        let last_column = Area {
            x: area.x + (area.w - 1),
            ..column
        };
        if self.next_tile(0, row).is_none() {
            return false;
        }
        if self.next_tile(0, last_row).is_none() {
            return false;
        }
        if self.next_tile(0, column).is_none() {
            return false;
        }
        self.next_tile(0, last_column).is_some()
    }

    /// The smallest area that holds the pixels of the set in an area.
    pub fn smallest(&self, area: Area) -> Option<Area>
        requires { LiesWithin self.now.width self.now.height area }
        ensures { IsSmallestOf (λ x y. is_in area x y && holds self.now x y) result }
    {
        if self.reaches_edges(area) {
            return Some(area);
        }
        let mut found: Option<Area> = None;
        let mut next = 0;
        'tiles: while let Some(part) = self.next_tile(next, area) {
            found = Some(match found {
                Some(found) => found.around(part.area),
                None => part.area,
            });
            next = part.tile + 1;
        }
        found
    }

    // That area alone.
    fn one_area(&self, alloc: Global, area: Area) -> Result<Vec<Area>, NoMemory>
        requires { LiesWithin self.now.width self.now.height area }
        ensures { IfOk result (λ areas. (x y : ℕ) → is_in area x y ≡ true
            → holds self.now x y ≡ true → IsAlone self.now area areas.items) }
    {
        let mut areas = Vec::new(alloc);
        if let Some(one) = self.smallest(area) {
            areas.push(one)?;
        }
        Ok(areas)
    }

    /// Of each tile the smallest area that holds the pixels of the set in its part of an area, by
    /// rows of tiles from the top, each from the left. If there are more than 4,096 tiles, the
    /// smallest area that holds the pixels of all, alone.
    pub fn areas(&self, alloc: Global, area: Area) -> Result<Vec<Area>, NoMemory>
        requires { LiesWithin self.now.width self.now.height area }
        ensures { IfOk result (λ areas. AreSent self.now area areas.items) }
    {
        let mut areas = Vec::new(alloc);
        let mut next = 0;
        'tiles: while let Some(part) = self.next_tile(next, area) {
            if areas.len() == MOST_AREAS {
                return self.one_area(alloc, area);
            }
            areas.push(part.area)?;
            next = part.tile + 1;
        }
        Ok(areas)
    }

    /// Takes the pixels of areas out of the set.
    pub fn remove_all(&mut self, areas: &[Area])
        requires { All (LiesWithin self.old.width self.old.height) areas.now }
        ensures size { SameSize self.old self.new }
        ensures just { AreJust self.new
            (λ x y. holds self.old x y && not (is_in_some areas.now x y)) }
    {
        for area in areas {
            self.take_out(*area);
        }
    }
}
