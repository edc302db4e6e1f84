//! The session with a viewer.

ghost use Rattle.std.specs.Prelude.{◌≡◌, ℕ, ◌<◌, ◌^◌, ◌+◌, ◌||◌, List, ◌++◌, [], length, true, false, IfOk, IfErr, OnOk, OnErr, None, Some, Ok, Err};
ghost use Rattle.pixel_format.specs.Canvas.{Picture};
ghost use Rattle.pixel_format.specs.Format.{host_format};
ghost use Rattle.terms.specs.Appending.{Appends};
ghost use Rattle.gated_journal.specs.Recording.{Head};
ghost use Rattle.keyed_entries.specs.declared.entry.Stamped.{Stamped};
ghost use Rattle.replay.specs.Screens.{IsScreenAt};
ghost use Rattle.replay.specs.Slices.{Stands};
ghost use Rattle.viewer_session.specs.Noting.{NotesSlice};
ghost use Rattle.client_wire.specs.declared.message.ClientMessage.{ClientMessage};
ghost use Rattle.viewer_session.specs.Encoded.{IsEncodedFor};
ghost use Rattle.viewer_session.specs.View.{IsRight, IsNext, AreStale, stale_at, is_stale_after, is_there, GoesOn, IsDue, Answers, HasAreasDue};
ghost use Rattle.viewer_session.specs.Session.{IsAfter, closed_by};
ghost use Rattle.viewer_session.specs.Feeding.{Takes, StopsIn, KeepsView};

use crate::fault::SessionFault;
use crate::greeting::Greeting;
use crate::listener::Listener;
use crate::view::{View, take_all};
use painter::Snapshot;
use rect_data::Encoding;
use replay::Slice;
use shared_updates::Updates;
use std::alloc::Global;
use std::marker::Model;
use terms::{NoMemory, ScreenSize};

// Messages are taken of so many bytes at a time, so that those of a long piece need no more memory.
const PART: usize = 1024;

/// The recorder's side of a connection to a viewer (RFC 6143, sections 7.1 to 7.6), without a
/// socket. It is fed the viewer's bytes in pieces of any length, is lent slices of a recording, and
/// gives the bytes that are due to the viewer.
#[derive(Drop)]
pub struct Session {
    alloc: Global,
    listener: Listener,
    view: View,
    fault: Option<SessionFault>,
}

impl Model for Session {
    ghost use Rattle.viewer_session.specs.Session.{Session, IsSoundSession};
    ghost use Rattle.viewer_session.specs.Listener.{due_by};

    ghost Value = { Session };

    ghost view = { λ s. record {
      width = s.listener.greeting.size.width;
      height = s.listener.greeting.size.height;
      name = s.listener.greeting.name.items;
      heard = s.listener.greeting.heard.items;
      due = due_by s.listener.greeting;
      reader = s.listener.reader;
      view = s.view;
      fault = s.fault;
    } };

    ghost invariant = { λ s. IsSoundSession s.listener s.view s.fault };
}

impl Session {
    /// A session at the start of a viewer's stream, for a screen of this size, in pixels, and a
    /// name: black, before the first message, in the host format and Raw, with all pixels stale. It
    /// has no screen of its own.
    pub fn new(alloc: Global, size: ScreenSize, name: &[u8]) -> Result<Session, NoMemory>
        requires { length name.now < 2 ^ 32 }
        ensures after { IfOk result (λ s. IsAfter s [] [] []) }
        ensures told { IfOk result (λ s. (s.width ≡ size.width) × (s.height ≡ size.height)
            × (s.name ≡ name.now)) }
        ensures going { IfOk result (λ s. s.fault ≡ None) }
        ensures size { IfOk result (λ s. (s.view.screen.width ≡ size.width)
            × (s.view.screen.height ≡ size.height)) }
        ensures stale { IfOk result (λ s. AreStale s.view (λ x y. true)) }
        ensures format { IfOk result (λ s. s.view.format ≡ host_format) }
        ensures encoding { IfOk result (λ s. s.view.encoding ≡ Encoding.Raw) }
        ensures position { IfOk result (λ s. s.view.position ≡ 0) }
        ensures started { IfOk result (λ s. s.view.started ≡ false) }
        ensures pending { IfOk result (λ s. s.view.pending ≡ None) }
        ensures copies { IfOk result (λ s. (s.view.copies ≡ []) × (s.view.takes_copies ≡ false)
            × (s.view.asked_whole ≡ false)) }
        ensures right { IfOk result (λ s. (head : Head) → head.width ≡ size.width
            → head.height ≡ size.height → (seen : Picture) → (messages : List Stamped)
            → IsRight head s.view seen messages) }
    {
        let view = View::new(alloc, size)?;
        let name = Vec::from_slice(alloc, name)?;
        Ok(Session {
            alloc,
            listener: Listener {
                greeting: Greeting::new(size, name),
                reader: None,
            },
            view,
            fault: None,
        })
    }

    // Takes a part of a piece.
    fn feed_part(&mut self, piece: &[u8]) -> Result<(), SessionFault>
        requires { self.old.fault ≡ None }
        ensures goes { OnOk result (Takes self.old self.new piece.now) }
        ensures faults { IfErr result (StopsIn self.old self.new piece.now) }
        ensures going { OnOk result (self.new.fault ≡ None) }
        ensures stopped { IfErr result (λ f. self.new.fault ≡ Some f) }
        ensures kept { KeepsView self.old self.new }
    {
        let mut messages = Vec::new(self.alloc);
        let heard = self.listener.feed(self.alloc, piece, &mut messages);
        take_all(&mut self.view, messages);
        if let Err(fault) = heard {
            self.fault = Some(fault);
            return Err(fault);
        }
        Ok(())
    }

    /// Takes the next piece of the viewer's stream, and what its messages ask for. A fault is
    /// answered at the last byte of the field that holds it, once the messages before it are taken;
    /// from then on each call answers the same fault and does nothing else, also if memory ran out.
    pub fn feed(&mut self, piece: &[u8]) -> Result<(), SessionFault>
        ensures goes { OnOk result (Takes self.old self.new piece.now) }
        ensures faults { IfErr result (λ f. self.old.fault ≡ None → StopsIn self.old self.new piece.now f) }
        ensures going { OnOk result (self.new.fault ≡ None) }
        ensures stopped { IfErr result (λ f. self.new.fault ≡ Some f) }
        ensures for_good { (f : SessionFault) → self.old.fault ≡ Some f
            → (result ≡ Err f) × (self.new ≡ self.old) }
        ensures kept { KeepsView self.old self.new }
    {
        if let Some(fault) = self.fault {
            return Err(fault);
        }
        let mut rest = piece;
        'parts: while !rest.is_empty() {
            let (part, following) = rest.split_at(rest.len().min(PART));
            self.feed_part(part)?;
            rest = following;
        }
        Ok(())
    }

    /// Whether the viewer's handshake is whole: its version, its choice and its shared-flag.
    pub fn is_greeted(&self) -> bool
        ensures { result ≡ is_there self.now.reader }
    {
        self.listener.reader.is_some()
    }

    /// How many messages of the recording the session's screen shows.
    pub fn position(&self) -> u64
        ensures { result ≡ self.now.view.position }
    {
        self.view.position
    }

    /// Goes on by a slice of the session's size, from its start or from the session's position, which
    /// it paints. If the slice has messages, and the session shows a snapshot, it takes memory for
    /// a screen of its own, and else none. A refusal changes nothing.
    pub fn advance(&mut self, slice: &Slice) -> Result<(), NoMemory>
        requires { IsNext self.old.view slice.now }
        ensures right { OnOk result ((head : Head) → (seen : Picture) → (messages : List Stamped)
            → IsRight head self.old.view seen messages → Stands head messages slice.now
            → IsRight head self.new.view seen messages) }
        ensures stale { OnOk result (AreStale self.new.view
            (λ x y. is_stale_after slice.now x y || stale_at self.old.view x y)) }
        ensures position { OnOk result (self.new.view.position
            ≡ slice.now.first + length slice.now.messages.items) }
        ensures started { OnOk result (self.new.view.started
            ≡ (is_there slice.now.start || self.old.view.started)) }
        ensures size { (self.new.view.screen.width ≡ self.old.view.screen.width)
            × (self.new.view.screen.height ≡ self.old.view.screen.height) }
        ensures asked { (self.new.view.format ≡ self.old.view.format)
            × (self.new.view.encoding ≡ self.old.view.encoding)
            × (self.new.view.pending ≡ self.old.view.pending) }
        ensures goes_on { OnOk result (GoesOn self.old.view self.new.view slice.now) }
        ensures kept { self.new ≡ record self.old { view = self.new.view } }
        ensures err { OnErr result (self.new ≡ self.old) }
    {
        self.view.advance(self.alloc, slice)
    }

    /// Goes on by a slice of the session's size, from its start or from the session's position, to a
    /// snapshot of the screen at its end, which somebody else has painted. It takes no memory, and
    /// paints nothing. If the session had a screen of its own, that is given up.
    pub fn advance_to(&mut self, slice: &Slice, snapshot: Snapshot)
        requires next { IsNext self.old.view slice.now }
        requires width { snapshot.width ≡ self.old.view.screen.width }
        requires height { snapshot.height ≡ self.old.view.screen.height }
        ensures right { (head : Head) → (seen : Picture) → (messages : List Stamped)
            → IsRight head self.old.view seen messages → Stands head messages slice.now
            → IsScreenAt head messages (slice.now.first + length slice.now.messages.items) snapshot
            → IsRight head self.new.view seen messages }
        ensures stale { AreStale self.new.view
            (λ x y. is_stale_after slice.now x y || stale_at self.old.view x y) }
        ensures position { self.new.view.position
            ≡ slice.now.first + length slice.now.messages.items }
        ensures started { self.new.view.started
            ≡ (is_there slice.now.start || self.old.view.started) }
        ensures size { (self.new.view.screen.width ≡ self.old.view.screen.width)
            × (self.new.view.screen.height ≡ self.old.view.screen.height) }
        ensures screen { self.new.view.screen ≡ snapshot }
        ensures asked { (self.new.view.format ≡ self.old.view.format)
            × (self.new.view.encoding ≡ self.old.view.encoding)
            × (self.new.view.pending ≡ self.old.view.pending) }
        ensures notes { NotesSlice self.old.view self.new.view slice.now snapshot }
        ensures kept { self.new ≡ record self.old { view = self.new.view } }
    {
        self.view.advance_to(slice, snapshot);
    }

    /// Whether the viewer asks for an area.
    pub fn wants(&self) -> bool
        ensures { result ≡ is_there self.now.view.pending }
    {
        self.view.pending.is_some()
    }

    /// Appends the handshake's answers that are due, each byte once, and then the update that is
    /// due, whose pixels are taken as clean: the rectangles that copy which the host sent meanwhile
    /// and the viewer can follow, 16 at most; and one for each tile of 16 by 16 with pixels that are
    /// asked for and that those don't bring, or one for all if there would be more than 4,096, each
    /// in the encoding that the viewer asked for or in Raw. One that was written for another viewer, and is found among
    /// these, is given if it is such an update. Running out of memory changes nothing. After a fault
    /// it still gives what was due.
    pub fn answer<U: Updates>(&mut self, updates: &U, out: &mut Vec<u8>) -> Result<(), NoMemory>
        ensures due { OnOk result (IsDue self.old.view
            → Appends (Answers self.old.view self.new.view)
            (out.old.items ++ self.old.due) out.new.items) }
        ensures areas { OnOk result (IsDue self.old.view
            → Appends (HasAreasDue self.old.view) (out.old.items ++ self.old.due) out.new.items) }
        ensures encoded { OnOk result (IsDue self.old.view
            → Appends (IsEncodedFor self.old.view) (out.old.items ++ self.old.due) out.new.items) }
        ensures none { OnOk result ((IsDue self.old.view → ⊥)
            → (out.new.items ≡ out.old.items ++ self.old.due)
            × (self.new.view ≡ self.old.view)) }
        ensures err { OnErr result ((out.new.items ≡ out.old.items) × (self.new ≡ self.old)) }
        ensures screen { self.new.view.screen ≡ self.old.view.screen }
        ensures position { self.new.view.position ≡ self.old.view.position }
        ensures kept { OnOk result (self.new ≡ record self.old { due = []; view = self.new.view }) }
        // What was due of the handshake's answers is told now.
        ensures after { OnOk result ((stream told : List ℕ) → (messages : List ClientMessage)
            → IsAfter self.old stream messages told
            → IsAfter self.new stream messages (told ++ self.old.due)) }
    {
        let start = out.len();
        let sent = self.listener.greeting.write_due(self.alloc, out)?;
        if let Err(refusal) = self.view.answer(self.alloc, updates, out) {
            out.truncate(start);
            return Err(refusal);
        }
        self.listener.greeting.settle(sent);
        Ok(())
    }

    /// Ends the session: from now on `feed` answers `Closed`, if it met no fault before.
    pub fn close(&mut self)
        ensures { self.new ≡ record self.old { fault = Some (closed_by self.old.fault) } }
    {
        if self.fault.is_none() {
            self.fault = Some(SessionFault::Closed);
        }
    }
}
