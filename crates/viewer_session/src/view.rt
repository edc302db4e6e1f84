//! What a viewer has of a recording's screen, and what it lacks.

ghost use Rattle.std.specs.Prelude.{◌≡◌, ◌+◌, ◌<◌, ◌||◌, true, false, List, [], length, None, IfOk, IfSome, MatchOption, OnOk, OnErr};
ghost use Rattle.pixel_format.specs.Canvas.{Picture};
ghost use Rattle.pixel_format.specs.Format.{host_format};
ghost use Rattle.terms.specs.Appending.{Appends};
ghost use Rattle.terms.specs.Area.{is_in, IsSmallest, LiesWithin};
ghost use Rattle.painter.specs.Framebuffer.{SameSize as SameScreenSize};
ghost use Rattle.gated_journal.specs.Recording.{Head};
ghost use Rattle.keyed_entries.specs.declared.entry.Stamped.{Stamped};
ghost use Rattle.replay.specs.Screens.{IsScreenAt};
ghost use Rattle.replay.specs.Slices.{Stands};
ghost use Rattle.viewer_session.specs.Noting.{BeginsUnpainted, NotesSlice};
ghost use Rattle.pixel_sets.specs.Pixels.{SameSize};
ghost use Rattle.shared_updates.specs.Copies.{IsPart, all_in};
ghost use Rattle.viewer_session.specs.Encoded.{IsEncodedFor};
ghost use Rattle.viewer_session.specs.Sent.{IsNothing, IsSent};
ghost use Rattle.viewer_session.specs.View.{IsRight, IsSound, IsNext, AreStale, stale_at, is_stale_after, is_there, is_pending, GoesOn, IsDue, IsAsked, IsTaken, AreTaken, Answers, HasAreasDue};

use crate::giving::give_update;
use crate::shown::Shown;
use client_wire::ClientMessage;
use painter::Snapshot;
use pixel_format::PixelFormat;
use pixel_sets::Pixels;
use rect_codec::{pick, written_parts_are_read};
use rect_data::Encoding;
use replay::Slice;
use shared_updates::{Copies, Updates, Wanted};
use std::alloc::Global;
use terms::{Area, NoMemory, ScreenSize};

// The number of the encoding by which a viewer says that it takes copies (RFC 6143, section 7.7.2).
const COPY_RECT: i32 = 1;

/// The screen at a position of a recording, what the viewer has of it, and what it asks for.
#[derive(Drop)]
pub struct View {
    /// The pixel format in which the viewer takes updates.
    pub format: PixelFormat,
    /// The encoding in which it wants them.
    pub encoding: Encoding,
    pub screen: Shown,
    /// How many messages of the recording the screen shows.
    pub position: u64,
    /// Whether a start has come.
    pub started: bool,
    /// The pixels that the viewer is to be sent: it may not show their colours, nor copy them.
    pub stale: Pixels,
    /// The area that it asks for, if any.
    pub pending: Option<Area>,
    /// Whether some of that is to be sent whatever the viewer has.
    pub asked_whole: bool,
    /// Whether the viewer takes rectangles that copy.
    pub takes_copies: bool,
    /// The copies by which it is to begin its next update.
    pub copies: Copies,
}

// What is pending once a part of the screen was asked for, beside what was.
fn widened(pending: Option<Area>, area: Area, size: ScreenSize) -> Area
    requires pending { IfSome pending (IsPart size.width size.height) }
    requires area { IsPart size.width size.height area }
    ensures part { IsPart size.width size.height result }
    ensures smallest { IsSmallest (λ x y. is_pending pending x y || is_in area x y) result }
{
    match pending {
        Some(pending) => pending.around(area),
        None => area,
    }
}

impl View {
    /// A black screen before the first message, in the host format and Raw, all of it stale.
    pub fn new(alloc: Global, size: ScreenSize) -> Result<View, NoMemory>
        ensures sound { IfOk result IsSound }
        ensures stale { IfOk result (λ v. AreStale v (λ x y. true)) }
        ensures format { IfOk result (λ v. v.format ≡ host_format) }
        ensures encoding { IfOk result (λ v. v.encoding ≡ Encoding.Raw) }
        ensures position { IfOk result (λ v. v.position ≡ 0) }
        ensures started { IfOk result (λ v. v.started ≡ false) }
        ensures pending { IfOk result (λ v. v.pending ≡ None) }
        ensures copies { IfOk result (λ v. (v.copies ≡ []) × (v.takes_copies ≡ false) × (v.asked_whole ≡ false)) }
        ensures size { IfOk result (λ v. (v.screen.width ≡ size.width) × (v.screen.height ≡ size.height)) }
        ensures right { IfOk result (λ v. (head : Head) → head.width ≡ size.width → head.height ≡ size.height
            → (seen : Picture) → (messages : List Stamped) → IsRight head v seen messages) }
    {
        Ok(View {
            format: PixelFormat::host(),
            encoding: Encoding::Raw,
            screen: Shown::black(alloc, size)?,
            position: 0,
            started: false,
            stale: Pixels::all(alloc, size)?,
            pending: None,
            asked_whole: false,
            takes_copies: false,
            copies: Copies::new(),
        })
    }

    // Begins on a slice, from its start or from the screen's position, whatever the screen is to be.
    // It is then to stand at the slice's end.
    fn begin(&mut self, slice: &Slice)
        requires sound { IsSound self.old }
        requires next { IsNext self.old slice.now }
        ensures sound { IsSound self.new }
        ensures begins { BeginsUnpainted self.old self.new slice.now.start
            (slice.now.first + length slice.now.messages.items) }
        ensures screen { self.new.screen ≡ self.old.screen }
    {
        if slice.start.is_some() {
            self.stale.insert_all(); // whatever the viewer shows is from another position
            self.started = true;
            self.copies = Copies::new(); // nor can it be copied from there
        }
        self.position = slice.end();
    }

    /// Goes on by a slice, from its start or from the screen's position. If the slice has messages,
    /// and the view shows a snapshot, it takes memory for a screen of its own. A refusal changes
    /// nothing.
    pub fn advance(&mut self, alloc: Global, slice: &Slice) -> Result<(), NoMemory>
        requires sound { IsSound self.old }
        requires next { IsNext self.old slice.now }
        ensures sound { IsSound self.new }
        ensures right { OnOk result ((head : Head) → (seen : Picture) → (messages : List Stamped)
            → IsRight head self.old seen messages → Stands head messages slice.now
            → IsRight head self.new seen messages) }
        ensures stale { OnOk result (AreStale self.new (λ x y. is_stale_after slice.now x y || stale_at self.old x y)) }
        ensures position { OnOk result (self.new.position ≡ slice.now.first + length slice.now.messages.items) }
        ensures started { OnOk result (self.new.started ≡ (is_there slice.now.start || self.old.started)) }
        ensures size { SameScreenSize self.old.screen self.new.screen }
        ensures asked { (self.new.format ≡ self.old.format) × (self.new.encoding ≡ self.old.encoding)
            × (self.new.pending ≡ self.old.pending) }
        ensures goes_on { OnOk result (GoesOn self.old self.new slice.now) }
        ensures err { OnErr result (self.new ≡ self.old) }
    {
        self.screen.paint(alloc, slice)?;
        self.begin(slice);
        self.note_all(&slice.messages);
        Ok(())
    }

    /// Goes on by a slice, from its start or from the screen's position, to a snapshot of the screen
    /// at its end, which somebody else has painted. It takes no memory, and paints nothing.
    pub fn advance_to(&mut self, slice: &Slice, snapshot: Snapshot)
        requires sound { IsSound self.old }
        requires next { IsNext self.old slice.now }
        requires size { SameScreenSize self.old.screen snapshot }
        ensures sound { IsSound self.new }
        ensures right { (head : Head) → (seen : Picture) → (messages : List Stamped)
            → IsRight head self.old seen messages → Stands head messages slice.now
            → IsScreenAt head messages (slice.now.first + length slice.now.messages.items) snapshot
            → IsRight head self.new seen messages }
        ensures stale { AreStale self.new (λ x y. is_stale_after slice.now x y || stale_at self.old x y) }
        ensures position { self.new.position ≡ slice.now.first + length slice.now.messages.items }
        ensures started { self.new.started ≡ (is_there slice.now.start || self.old.started) }
        ensures size { SameScreenSize self.old.screen self.new.screen }
        ensures screen { self.new.screen ≡ snapshot }
        ensures asked { (self.new.format ≡ self.old.format) × (self.new.encoding ≡ self.old.encoding)
            × (self.new.pending ≡ self.old.pending) }
        ensures notes { NotesSlice self.old self.new slice.now snapshot }
    {
        self.begin(slice);
        self.note_all(&slice.messages);
        self.screen.give(snapshot);
    }

    // Appends an update of the copies and of the stale pixels of an area, and answers by which areas;
    // nothing if there are neither.
    fn send<U: Updates>(
        &self,
        alloc: Global,
        updates: &U,
        pending: Area,
        out: &mut Vec<u8>,
    ) -> Result<Option<Vec<Area>>, NoMemory>
        requires width { self.now.stale.width ≡ self.now.screen.width }
        requires height { self.now.stale.height ≡ self.now.screen.height }
        requires pending { LiesWithin self.now.screen.width self.now.screen.height pending }
        ensures ok { IfOk result (λ sent. MatchOption sent
            (IsNothing self.now pending out.old.items out.new.items)
            (λ areas. IsSent self.now pending areas.items out.old.items out.new.items)) }
        ensures err { OnErr result (out.new.items ≡ out.old.items) }
    {
        let copies = self.copies.as_slice();
        let areas = self.stale.areas(alloc, pending)?;
        if copies.is_empty() && areas.is_empty() {
            return Ok(None);
        }
        let wanted = Wanted {
            format: &self.format,
            encoding: self.encoding,
            copies,
            areas: &areas,
        };
        give_update(alloc, updates, wanted, &self.screen, out)?;
        Ok(Some(areas))
    }

    /// Appends the update that is due, and takes its pixels as clean; nothing if none is due. It
    /// begins with the kept copies, in the order in which the host made them. It has a rectangle for
    /// each tile of 16 by 16 with pixels that are asked for and that those don't bring, the smallest
    /// that holds those; or one for all, if there would be more than 4,096. One that was written for
    /// others may serve. Running out of memory changes nothing.
    pub fn answer<U: Updates>(
        &mut self,
        alloc: Global,
        updates: &U,
        out: &mut Vec<u8>,
    ) -> Result<(), NoMemory>
        requires sound { IsSound self.old }
        ensures sound { IsSound self.new }
        ensures due { OnOk result (IsDue self.old → Appends (Answers self.old self.new) out.old.items out.new.items) }
        ensures areas { OnOk result (IsDue self.old → Appends (HasAreasDue self.old) out.old.items out.new.items) }
        ensures encoded { OnOk result (IsDue self.old → Appends (IsEncodedFor self.old) out.old.items out.new.items) }
        ensures none { OnOk result ((IsDue self.old → ⊥) → (out.new.items ≡ out.old.items) × (self.new ≡ self.old)) }
        ensures err { OnErr result ((out.new.items ≡ out.old.items) × (self.new ≡ self.old)) }
        ensures screen { self.new.screen ≡ self.old.screen }
        ensures position { self.new.position ≡ self.old.position }
    {
        let Some(pending) = self.pending else {
            return Ok(());
        };
        if !self.started {
            return Ok(());
        }
        let Some(areas) = self.send(alloc, updates, pending, out)? else {
            return Ok(());
        };
        written_parts_are_read();
        self.stale.remove_all(&areas);
        self.pending = None;
        self.asked_whole = false;
        self.copies = Copies::new(); // they are carried out
        Ok(())
    }

    // Keeps no copies any more: what they go to is to be sent.
    fn give_up_copies(&mut self)
        requires { IsSound self.old }
        ensures sound { IsSound self.new }
        ensures size { SameSize self.old.stale self.new.stale }
        ensures stale { AreStale self.new (stale_at self.old) }
        ensures kept { self.new ≡ record self.old { stale = self.new.stale; copies = [] } }
    {
        self.copies.give_up(&mut self.stale);
    }

    // Gives the copies up if the viewer may have lost what it shows, or doesn't ask for all of theirs.
    fn keep_asked(&mut self, incremental: bool, pending: Area)
        requires { IsSound self.old }
        ensures size { SameSize self.old.stale self.new.stale }
        ensures stale { AreStale self.new (stale_at self.old) }
        ensures kept { self.new ≡ record self.old { stale = self.new.stale; copies = self.new.copies } }
        ensures lost { incremental ≡ false → self.new.copies ≡ [] }
        ensures outside { all_in self.old.copies pending ≡ false → self.new.copies ≡ [] }
        ensures on { incremental ≡ true → all_in self.old.copies pending ≡ true → self.new ≡ self.old }
    {
        if !incremental || !self.copies.are_in(pending) {
            self.give_up_copies();
        }
    }

    // Makes the pixels of a part of the screen stale that is asked for whole.
    fn ask_whole(&mut self, area: Area)
        requires sound { IsSound self.old }
        requires part { IsPart self.old.screen.width self.old.screen.height area }
        requires copies { self.old.copies ≡ [] }
        ensures size { SameSize self.old.stale self.new.stale }
        ensures stale { AreStale self.new (λ x y. is_in area x y || stale_at self.old x y) }
        ensures kept { self.new ≡ record self.old { stale = self.new.stale; asked_whole = true } }
    {
        self.stale.insert(area);
        self.asked_whole = true;
    }

    // Takes a request for an area.
    fn ask(&mut self, incremental: bool, area: Area)
        requires sound { IsSound self.old }
        ensures sound { IsSound self.new }
        ensures asked { IsAsked self.old self.new incremental area }
    {
        let size = self.screen.size();
        let Some(area) = area.cut(size) else {
            return;
        };
        let pending = widened(self.pending, area, size);
        self.keep_asked(incremental, pending);
        self.pending = Some(pending);
        if !incremental {
            self.ask_whole(area);
        }
    }

    /// Takes a message of the viewer. A request is cut to the screen, and dropped if nothing of it
    /// is left. It takes no memory.
    pub fn take(&mut self, message: ClientMessage)
        requires sound { IsSound self.old }
        ensures sound { IsSound self.new }
        ensures taken { IsTaken self.old self.new message }
        ensures screen { self.new.screen ≡ self.old.screen }
        ensures position { self.new.position ≡ self.old.position }
        ensures right { (head : Head) → (seen : Picture) → (messages : List Stamped)
            → IsRight head self.old seen messages → IsRight head self.new seen messages }
    {
        match message {
            ClientMessage::SetPixelFormat(format) => {
                self.format = format;
                self.stale.insert_all();
                self.copies = Copies::new(); // what the viewer shows is in the old format
            }
            ClientMessage::SetEncodings(encodings) => {
                self.encoding = pick(encodings.as_slice());
                self.takes_copies = encodings.as_slice().contains(&COPY_RECT);
                self.give_up_copies();
            }
            ClientMessage::Request { incremental, area } => self.ask(incremental, area),
            ClientMessage::Input(_) => {}
        }
    }
}

/// Takes messages of the viewer, one after another. It takes no memory.
pub fn take_all(view: &mut View, messages: Vec<ClientMessage>)
    requires { IsSound view.old }
    ensures sound { IsSound view.new }
    ensures taken { AreTaken view.old view.new messages.items }
    ensures screen { view.new.screen ≡ view.old.screen }
    ensures position { view.new.position ≡ view.old.position }
    ensures right { (head : Head) → (seen : Picture) → (list : List Stamped)
        → IsRight head view.old seen list → IsRight head view.new seen list }
{
    for message in messages {
        view.take(message);
    }
}
