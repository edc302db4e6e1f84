//! A host's stream, as far as it has come.

ghost use Rattle.std.specs.Prelude.{◌≡◌, ◌≢◌, ◌++◌, ◌∷◌, ◌<◌, ◌↔◌, [], ℕ, List, OnOk, OnErr, None, Some, IsTrue, length};
ghost use Rattle.std.specs.Io.KnownBytes.{Consumes, IsAtEnd};
ghost use Rattle.rfb_wire.specs.Host.{Host};
ghost use Rattle.host_session.specs.declared.fault.HostFault.{HostFault as Fault};
ghost use Rattle.host_session.specs.Session.{name_of, reason_in, size_of, told_by, unfinished_in};
ghost use Rattle.host_stream.specs.Streams.{HasGiven, IsForSame, after_next, next_of};

use crate::end::HostEnd;
use host_session::HostSession;
use rfb_wire::HostMessage;
use std::alloc::Global;
use std::io;
use std::io::Read;
use std::marker::Model;
use terms::{Format, NoMemory, ScreenSize};

/// What is to be done next for a host's stream.
#[derive(Drop)]
pub enum Next {
    /// To record this message.
    Message(HostMessage),
    /// To read from the host.
    Read,
    /// To end: the stream has ended, or the recorder was asked to.
    Ended,
}

/// A session with a host, and the messages that came and weren't given yet. Contracts see both, the
/// messages in the order in which they came, and how the stream ended.
#[derive(Drop)]
pub struct HostStream {
    alloc: Global,
    session: HostSession,
    // The last one first.
    waiting: Vec<HostMessage>,
    end: Option<HostEnd>,
}

impl Model for HostStream {
    ghost use Rattle.std.specs.Prelude.{◌≡◌, None, reverse};
    ghost use Rattle.host_stream.specs.Streams.{Stream};

    ghost Value = { Stream };

    ghost view = { λ s. record { session = s.session; waiting = reverse s.waiting.items; end = s.end } };

    ghost invariant = { λ s. s.end ≡ None → s.session.fault ≡ None };
}

impl HostStream {
    /// A host's stream from its start on, for a recording of this format; a host of another size than
    /// the expected one, if one is, is refused.
    pub fn new(alloc: Global, format: Format, expected: Option<ScreenSize>) -> HostStream
        ensures nothing { HasGiven result [] [] }
        ensures none { result.waiting ≡ [] }
        ensures goes_on { result.end ≡ None }
        ensures format { result.session.format ≡ format }
        ensures expected { result.session.expected ≡ expected }
    {
        HostStream {
            alloc,
            session: HostSession::in_format(alloc, format, expected),
            waiting: Vec::new(alloc),
            end: None,
        }
    }

    /// What is to be done next. A message that has come is given, also if the recorder was asked to
    /// end.
    pub fn next(&mut self, is_stopped: bool) -> Next
        ensures next { result ≡ next_of self.old is_stopped }
        ensures after { self.new ≡ after_next self.old }
        ensures given { (m : Host) → result ≡ Next.Message m → (bytes : List ℕ) → (given : List Host)
            → HasGiven self.old bytes given → HasGiven self.new bytes (given ++ m ∷ []) }
    {
        if let Some(message) = self.waiting.pop() {
            return Next::Message(message);
        }
        if is_stopped || self.end.is_some() {
            return Next::Ended;
        }
        Next::Read
    }

    /// Takes the next piece of the stream, once no message waits: each message that it makes whole
    /// waits then, and a fault ends the stream after them.
    pub fn take(&mut self, piece: &[u8])
        requires none { self.old.waiting ≡ [] }
        requires goes_on { self.old.end ≡ None }
        ensures given { (bytes : List ℕ) → (given : List Host)
            → HasGiven self.old bytes given → HasGiven self.new (bytes ++ piece.now) given }
        ensures fault { (f : Fault) → self.new.session.fault ≡ Some f → self.new.end ≡ Some (HostEnd.Fault f) }
        ensures goes_on { self.new.session.fault ≡ None → self.new.end ≡ None }
        ensures same { IsForSame self.old.session self.new.session }
    {
        let mut came = Vec::new(self.alloc);
        let heard = self.session.feed(piece, &mut came);
        came.reverse();
        self.waiting = came;
        if let Err(fault) = heard {
            self.end = Some(HostEnd::Fault(fault));
        }
    }

    /// Reads what has come next, or waits for it, once no message waits: at most as much as the buffer
    /// holds is taken. The stream ends if nothing more comes, and at an error of the read, but for
    /// one that is only interrupted; that error is answered, and takes nothing.
    pub fn read_from<S: Read>(&mut self, source: &mut S, buffer: &mut [u8]) -> io::Result<()>
        requires none { self.old.waiting ≡ [] }
        requires goes_on { self.old.end ≡ None }
        requires room { 0 < length buffer.old }
        ensures given { (bytes : List ℕ) → (given : List Host) → HasGiven self.old bytes given
            → (piece : List ℕ) × HasGiven self.new (bytes ++ piece) given × Consumes (S.remaining source.old) (S.remaining source.new) piece }
        ensures closed { (unfinished : ℕ) → self.new.end ≡ Some (HostEnd.Closed unfinished) → IsAtEnd (S.remaining source.new) }
        ensures unfinished { (unfinished : ℕ) → self.new.end ≡ Some (HostEnd.Closed unfinished) → unfinished ≡ unfinished_in self.new.session.reader }
        ensures broken { OnErr result (self.new.end ≡ Some HostEnd.Socket) }
        ensures sound { OnOk result (self.new.end ≢ Some HostEnd.Socket) }
        ensures same { IsForSame self.old.session self.new.session }
    {
        let count = match source.read(buffer) {
            Ok(count) => count,
            Err(error) if error.kind() == io::ErrorKind::Interrupted => return Ok(()),
            Err(error) => {
                self.end = Some(HostEnd::Socket);
                return Err(error);
            }
        };
        if count == 0 {
            self.end = Some(HostEnd::Closed(self.session.unfinished()));
        } else {
            self.take(&buffer[..count]);
        }
        Ok(())
    }

    /// Appends the bytes that are due to the host, each once; `NoMemory` changes nothing.
    pub fn say(&mut self, out: &mut Vec<u8>) -> Result<(), NoMemory>
        ensures said { OnOk result (out.new.items ≡ out.old.items ++ self.old.session.due) }
        ensures given { (bytes : List ℕ) → (given : List Host) → HasGiven self.old bytes given → HasGiven self.new bytes given }
        ensures waiting { self.new.waiting ≡ self.old.waiting }
        ensures end { self.new.end ≡ self.old.end }
        ensures same { IsForSame self.old.session self.new.session }
        ensures refused { OnErr result ((out.new.items ≡ out.old.items) × (self.new ≡ self.old)) }
    {
        self.session.out(out)?;
        Ok(())
    }

    /// The size of the host's screen, once its handshake is whole.
    pub fn size(&self) -> Option<ScreenSize>
        ensures { result ≡ size_of (told_by self.now.session.reader self.now.session.kept) }
    {
        self.session.size()
    }

    /// The host's name, once its handshake is whole.
    pub fn name(&self) -> &[u8]
        ensures { result.now ≡ name_of (told_by self.now.session.reader self.now.session.kept) }
    {
        self.session.name()
    }

    /// The reason that the host gave for its refusal; empty if it gave none.
    pub fn reason(&self) -> &[u8]
        ensures { result.now ≡ reason_in self.now.session.fault self.now.session.kept }
    {
        self.session.reason()
    }

    /// Whether the host is read from next: no message waits, and the stream has not ended.
    pub fn is_read_next(&self) -> bool
        ensures { IsTrue result ↔ (self.now.waiting ≡ []) × (self.now.end ≡ None) }
    {
        self.waiting.is_empty() && self.end.is_none()
    }

    /// How the stream ended, once it has.
    pub fn end(&self) -> Option<HostEnd>
        ensures { result ≡ self.now.end }
    {
        self.end
    }
}
