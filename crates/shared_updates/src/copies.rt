//! Copies that a viewer can be sent instead of colours.

ghost use Rattle.std.specs.Prelude.{◌≡◌, ◌↔◌, ◌*◌, ◌≤◌, ◌<◌, ◌||◌, ◌++◌, ◌∷◌, [], All, IfSome, IsTrue, length};
ghost use Rattle.terms.specs.Area.{LiesWithin};
ghost use Rattle.pixel_sets.specs.Pixels.{holds, AreJust, SameSize};
ghost use Rattle.shared_updates.specs.Copies.{is_copied, all_in, AreJoined, GivesUpLast, HasRoom, IsCopyWithin};

use crate::copy::KeptCopy;
use crate::joining::{as_one, is_cheap, lies_in, pixels_in};
use arrayvec::ArrayVec;
use pixel_sets::Pixels;
use std::marker::Model;
use terms::{Area, ScreenSize};

// How many are kept at most.
const MOST: usize = 64;

// And of how many screens' pixels together: a viewer carries each out.
const MOST_SCREENS: u64 = 16;

/// The copies with which an update begins, in the order in which they are carried out, 64 at most.
/// Contracts see their list.
#[derive(Drop)]
pub struct Copies {
    list: ArrayVec<KeptCopy, MOST>,
}

impl Model for Copies {
    ghost use Rattle.std.specs.Prelude.{List};
    ghost use Rattle.shared_updates.specs.declared.copy.KeptCopy.{KeptCopy};

    ghost Value = { List KeptCopy };

    ghost view = { λ c. c.list.items };
}

impl Copies {
    /// None.
    pub fn new() -> Copies
        ensures { result ≡ [] }
    {
        Copies {
            list: ArrayVec::new(),
        }
    }

    /// All of them.
    pub fn as_slice(&self) -> &[KeptCopy]
        ensures value { result.now ≡ self.now }
        ensures few { length result.now ≤ 64 }
    {
        self.list.as_slice()
    }

    /// Whether another can be kept, to this area of a screen of this size: there are no more than 64
    /// with it, and together they copy no more than 16 screens' pixels.
    pub fn have_room(&self, area: Area, size: ScreenSize) -> bool
        ensures { IsTrue result ↔ HasRoom size.width size.height self.now area }
    {
        if self.list.is_full() {
            return false;
        }
        let copies = self.list.as_slice();
        let mut left = MOST_SCREENS * (u64::from(size.width) * u64::from(size.height));
        for copy in copies {
            let pixels = pixels_in(copy.area);
            if left < pixels {
                return false;
            }
            left -= pixels;
        }
        pixels_in(area) <= left
    }

    // How many are left once those after the last that could become one with a copy are given up;
    // `None` if there is none, or they go to too many pixels.
    fn before_small(&self, copy: KeptCopy, size: ScreenSize) -> Option<usize>
        requires each { All (IsCopyWithin size.width size.height) self.now }
        requires copy { IsCopyWithin size.width size.height copy }
        ensures { IfSome result (λ kept. kept ≤ length self.now) }
    {
        let copies = self.list.as_slice();
        let mut left = pixels_in(copy.area) / 8;
        let mut count = copies.len();
        while count > 0 {
            let last = copies[count - 1];
            if as_one(last, copy, size).is_some() {
                return Some(count);
            }
            left = left.checked_sub(pixels_in(last.area))?;
            count -= 1;
        }
        None
    }

    /// Gives up the last ones, if they go to an eighth at most as many pixels as a copy that follows,
    /// and it could become one with the one before them. What they go to is put into the set of pixels
    /// to be sent.
    pub fn make_way(&mut self, copy: KeptCopy, size: ScreenSize, stale: &mut Pixels)
        requires width { stale.old.width ≡ size.width }
        requires height { stale.old.height ≡ size.height }
        requires each { All (IsCopyWithin size.width size.height) self.old }
        requires copy { IsCopyWithin size.width size.height copy }
        ensures size { SameSize stale.old stale.new }
        ensures gives_up { GivesUpLast self.old stale.old self.new stale.new }
    {
        let Some(kept) = self.before_small(copy, size) else {
            return;
        };
        for last in &self.list.as_slice()[kept..] {
            stale.insert(last.area);
        }
        self.list.truncate(kept);
    }

    /// Keeps another after the others, on a screen of this size; or makes one of the last and it, if it
    /// is cheap to send the rest of what they go to, which is then put into the set of pixels to be
    /// sent. An area is sent in any case.
    pub fn add(&mut self, copy: KeptCopy, size: ScreenSize, sent: Option<Area>, stale: &mut Pixels)
        requires few { length self.old < 64 }
        requires width { stale.old.width ≡ size.width }
        requires height { stale.old.height ≡ size.height }
        requires each { All (IsCopyWithin size.width size.height) self.old }
        requires copy { IsCopyWithin size.width size.height copy }
        ensures size { SameSize stale.old stale.new }
        ensures joined { AreJoined sent (self.old ++ copy ∷ []) stale.old self.new stale.new }
    {
        let Some(last) = self.list.pop() else {
            self.list.push(copy);
            return;
        };
        if let Some(joined) = as_one(last, copy, size) {
            if is_cheap(sent, joined.copy.area, joined.rest) {
                self.list.push(joined.copy);
                stale.insert(joined.rest);
                return;
            }
        }
        self.list.push(last);
        self.list.push(copy);
    }

    /// Whether all pixels that they go to lie in an area.
    pub fn are_in(&self, outer: Area) -> bool
        ensures { result ≡ all_in self.now outer }
    {
        for copy in self.list.as_slice() {
            if !lies_in(copy.area, outer) {
                return false;
            }
        }
        true
    }

    /// Keeps none of them any more, and puts the pixels that they go to into a set.
    pub fn give_up(&mut self, stale: &mut Pixels)
        requires { All (λ c. LiesWithin stale.old.width stale.old.height c.area) self.old }
        ensures none { self.new ≡ [] }
        ensures size { SameSize stale.old stale.new }
        ensures just { AreJust stale.new (λ x y. is_copied self.old x y || holds stale.old x y) }
    {
        for copy in self.list.as_slice() {
            stale.insert(copy.area);
        }
        self.list.clear();
    }
}
