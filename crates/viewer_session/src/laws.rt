//! Laws of sessions. Each is the contract of a function that does nothing.

ghost use Rattle.std.specs.Prelude.{◌≡◌, ℕ, List, [], ◌++◌, None, Some};
ghost use Rattle.pixel_format.specs.Canvas.{Picture};
ghost use Rattle.gated_journal.specs.Recording.{Head};
ghost use Rattle.keyed_entries.specs.declared.entry.Stamped.{Stamped};
ghost use Rattle.client_wire.specs.declared.message.ClientMessage.{ClientMessage};
ghost use Rattle.viewer_session.specs.declared.fault.SessionFault.{SessionFault};
ghost use Rattle.viewer_session.specs.declared.fault.SessionFault.TheVariants as faults;
ghost use Rattle.terms.specs.declared.wire_fault.WireFault.TheVariants as wire;
ghost use Rattle.viewer_session.specs.View.{IsRight};
ghost use Rattle.viewer_session.specs.Session.{Session, IsAfter, IsStopped, AreAlike, closed_by};
ghost use Rattle.viewer_session.specs.Feeding.{Takes, StopsIn, KeepsView};
ghost use Rattle.viewer_session.specs.Conversation.{Sent, IsServed, StaysServed, IsAnswered, IsServedOn};

/// However a viewer's stream is cut, two sessions of one size and name that got it have taken the
/// same messages, and put out or owe the same bytes of the handshake.
pub fn any_cut_gives_the_same()
    ensures { (s t : Session) → (stream told put : List ℕ) → (messages others : List ClientMessage)
        → AreAlike s t → IsAfter s stream messages told → IsAfter t stream others put
        → (messages ≡ others) × (told ++ s.due ≡ put ++ t.due) }
{}

/// No session goes on after a stream in which another one is stopped, unless memory ran out.
pub fn a_refused_stream_is_not_followed()
    ensures { (s t : Session) → (stream told put : List ℕ) → (messages others : List ClientMessage)
        → (f : SessionFault) → AreAlike s t → IsAfter s stream messages told
        → IsStopped t stream others put f → f ≡ faults.Wire wire.NoMemory }
{}

/// A stream is refused with one fault, also if more of it has come. Two sessions of one size and
/// name that were stopped in it, however it was cut, have taken the same messages before the fault,
/// and put out or owe the same bytes of the handshake; but for those of which memory ran out.
pub fn one_refusal()
    ensures one_end { (s t : Session) → (stream told put : List ℕ)
        → (messages others : List ClientMessage) → (f g : SessionFault) → AreAlike s t
        → IsStopped s stream messages told f → IsStopped t stream others put g
        → (f ≡ faults.Wire wire.NoMemory → ⊥) → (g ≡ faults.Wire wire.NoMemory → ⊥)
        → (f ≡ g) × (messages ≡ others) × (told ++ s.due ≡ put ++ t.due) }
    ensures longer { (s : Session) → (stream more told : List ℕ) → (messages : List ClientMessage)
        → (f : SessionFault) → IsStopped s stream messages told f
        → IsStopped s (stream ++ more) messages told f }
{}

/// Over a whole connection a viewer is put out the handshake's answers, and then updates, each of
/// which it reads in its format; and once it has painted them, whatever it showed before, its view
/// is right. So it is from the start, after each call that takes a piece, goes on by a slice,
/// answers or closes, and after a fault.
pub fn a_viewer_is_served()
    ensures starts { (head : Head) → (s : Session) → (shown : Picture) → (list : List Stamped)
        → IsAfter s [] [] [] → s.view.pending ≡ None → IsRight head s.view shown list
        → IsServed head s [] [] [] [] [] shown list }
    ensures feeds { (head : Head) → (s t : Session) → (stream piece told put : List ℕ)
        → (messages : List ClientMessage) → (updates : List Sent) → (shown : Picture)
        → (list : List Stamped) → IsServed head s stream messages told updates put shown list
        → s.fault ≡ None → Takes s t piece → KeepsView s t
        → StaysServed head s t (stream ++ piece) messages told updates put shown list }
    ensures stops { (head : Head) → (s t : Session) → (stream piece told put : List ℕ)
        → (messages : List ClientMessage) → (updates : List Sent) → (shown : Picture)
        → (list : List Stamped) → (f : SessionFault)
        → IsServed head s stream messages told updates put shown list
        → s.fault ≡ None → StopsIn s t piece f → t.fault ≡ Some f → KeepsView s t
        → StaysServed head s t (stream ++ piece) messages told updates put shown list }
    ensures advances { (head : Head) → (s t : Session) → (stream told put : List ℕ)
        → (messages : List ClientMessage) → (updates : List Sent) → (shown : Picture)
        → (list : List Stamped) → IsServed head s stream messages told updates put shown list
        → t ≡ record s { view = t.view } → t.view.screen.width ≡ s.view.screen.width
        → t.view.screen.height ≡ s.view.screen.height → t.view.pending ≡ s.view.pending
        → ((seen : Picture) → IsRight head s.view seen list → IsRight head t.view seen list)
        → IsServed head t stream messages told updates put shown list }
    ensures answers { (head : Head) → (s t : Session) → (stream told put before after : List ℕ)
        → (messages : List ClientMessage) → (updates : List Sent) → (shown : Picture)
        → (list : List Stamped) → IsServed head s stream messages told updates put shown list
        → IsAnswered s t before after
        → IsServedOn head s t stream messages told updates put shown list before after }
    ensures closes { (head : Head) → (s : Session) → (stream told put : List ℕ)
        → (messages : List ClientMessage) → (updates : List Sent) → (shown : Picture)
        → (list : List Stamped) → IsServed head s stream messages told updates put shown list
        → IsServed head (record s { fault = Some (closed_by s.fault) }) stream messages told
        updates put shown list }
{}
