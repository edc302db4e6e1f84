//! What a view has of messages, rectangle by rectangle, whoever paints them.

ghost use Rattle.std.specs.Prelude.{◌≡◌, ◌↔◌, ◌<◌, ◌&&◌, All, length, IsTrue, MatchOption, slice_index_or};
ghost use Rattle.pixel_format.specs.Format.{host_format};
ghost use Rattle.rect_data.specs.Data.{AreData};
ghost use Rattle.rfb_wire.specs.declared.message.Rectangle.{Rectangle};
ghost use Rattle.shared_updates.specs.declared.copy.KeptCopy.{KeptCopy as Kept};
ghost use Rattle.terms.specs.Area.{is_in, IsSmallest, LiesWithin};
ghost use Rattle.pixel_sets.specs.Pixels.{holds, SameSize};
ghost use Rattle.shared_updates.specs.Copies.{IsCopyWithin};
ghost use Rattle.viewer_session.specs.View.{IsSound, IsAskedFor, CanBeKept, Keeps, Moves};
ghost use Rattle.viewer_session.specs.Noting.{IsNoted, AreNoted, AreAllNoted};

use crate::view::View;
use rect_data::Encoding;
use replay::key_index::Stamped;
use rfb_wire::{HostMessage, Rectangle};
use shared_updates::{KeptCopy, lies_in};
use terms::Area;

impl View {
    // Whether all pixels of an area are asked for, if any are.
    fn is_asked_for(&self, area: Area) -> bool
        ensures { IsTrue result ↔ IsAskedFor self.now.pending area }
    {
        match self.pending {
            Some(pending) => lies_in(area, pending),
            None => true,
        }
    }

    // Whether the pixels of an area that are to be sent reach all its edges.
    fn are_lost(&self, area: Area) -> bool
        requires { LiesWithin self.now.stale.width self.now.stale.height area }
        ensures { IsTrue result ↔ IsSmallest (λ x y. is_in area x y && holds self.now.stale x y) area }
    {
        match self.stale.smallest(area) {
            Some(stale) => stale.w == area.w && stale.h == area.h,
            None => false,
        }
    }

    // The copy that a rectangle makes, if the viewer can be sent it.
    fn own_copy(&self, rectangle: Rectangle, bytes: &[u8]) -> Option<KeptCopy>
        requires sound { IsSound self.now }
        requires content { AreData host_format self.now.screen.width self.now.screen.height rectangle.encoding rectangle.area bytes.now }
        ensures { MatchOption result
            ((c : Kept) → CanBeKept self.now rectangle bytes.now c → ⊥) (CanBeKept self.now rectangle bytes.now) }
    {
        let area = rectangle.area;
        if !self.takes_copies || self.asked_whole || rectangle.encoding != Encoding::CopyRect {
            return None;
        }
        if area.w == 0 || area.h == 0 || !self.is_asked_for(area) {
            return None;
        }
        if !self.copies.have_room(area, self.screen.size()) {
            return None;
        }
        let copy = KeptCopy::named(area, bytes);
        if self.are_lost(copy.source()) {
            return None;
        }
        Some(copy)
    }

    // Has the pixels to be sent move with a copy, among those that it copies, and answers the area that
    // they are in then, if there are any.
    fn move_stale(&mut self, copy: KeptCopy) -> Option<Area>
        requires width { self.old.stale.width ≡ self.old.screen.width }
        requires height { self.old.stale.height ≡ self.old.screen.height }
        requires within { IsCopyWithin self.old.screen.width self.old.screen.height copy }
        ensures size { SameSize self.old.stale self.new.stale }
        ensures moved { Moves copy self.old.stale self.new.stale result }
        ensures kept { self.new ≡ record self.old { stale = self.new.stale } }
    {
        let _sides = self.screen.size(); // have 16 bits, and so do those of what moves
        let stale = self.stale.smallest(copy.source());
        self.stale.remove(copy.area);
        let Some(stale) = stale else {
            return None;
        };
        let moved = copy.moved(stale);
        self.stale.insert(moved);
        Some(moved)
    }

    // Keeps a copy after the others, or as one with the last of them.
    fn keep(&mut self, copy: KeptCopy)
        requires sound { IsSound self.old }
        requires within { IsCopyWithin self.old.screen.width self.old.screen.height copy }
        requires room { length self.old.copies < 64 }
        ensures size { SameSize self.old.stale self.new.stale }
        ensures keeps { Keeps copy self.old.copies self.old.stale self.new.copies self.new.stale }
        ensures kept { self.new ≡ record self.old { stale = self.new.stale; copies = self.new.copies } }
    {
        let size = self.screen.size();
        self.copies.make_way(copy, size, &mut self.stale);
        let sent = self.move_stale(copy);
        self.copies.add(copy, size, sent, &mut self.stale);
    }

    /// Makes the pixels of the rectangle of this number of a message stale. If it copies pixels of
    /// which the viewer has some, the viewer is to copy them, too.
    pub fn note_rectangle(&mut self, message: &HostMessage, number: usize)
        requires sound { IsSound self.old }
        requires width { message.now.width ≡ self.old.screen.width }
        requires height { message.now.height ≡ self.old.screen.height }
        requires number { number < length message.now.rectangles }
        ensures { (other : Rectangle) → IsNoted self.old self.new message.now.bytes (slice_index_or message.now.rectangles number other) }
    {
        let rectangle = message.rectangles()[number];
        let data = &message.bytes()[rectangle.start..rectangle.end];
        match self.own_copy(rectangle, data) {
            Some(copy) => self.keep(copy),
            None => self.stale.insert(rectangle.area),
        }
    }

    // Notes a message's rectangles.
    fn note(&mut self, message: &HostMessage)
        requires sound { IsSound self.old }
        requires width { message.now.width ≡ self.old.screen.width }
        requires height { message.now.height ≡ self.old.screen.height }
        ensures sound { IsSound self.new }
        ensures noted { AreNoted message.now.bytes self.old self.new message.now.rectangles }
        ensures screen { self.new.screen ≡ self.old.screen }
    {
        for number in 0..message.rectangles().len() {
            self.note_rectangle(message, number);
        }
    }

    /// Notes messages. It takes no memory, and paints nothing.
    pub fn note_all(&mut self, messages: &[Stamped])
        requires sound { IsSound self.old }
        requires widths { All (λ m. m.message.width ≡ self.old.screen.width) messages.now }
        requires heights { All (λ m. m.message.height ≡ self.old.screen.height) messages.now }
        ensures sound { IsSound self.new }
        ensures noted { AreAllNoted self.old self.new messages.now }
        ensures screen { self.new.screen ≡ self.old.screen }
    {
        for stamped in messages {
            self.note(&stamped.message);
        }
    }
}
