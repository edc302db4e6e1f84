//! Laws of sessions. Each is the contract of a function that does nothing.

ghost use Rattle.std.specs.Prelude.{◌≡◌, ℕ, List, ◌++◌, Option, Some};
ghost use Rattle.host_session.specs.declared.expected.ExpectedScreen.{ExpectedScreen};
ghost use Rattle.rfb_wire.specs.Host.{Host};
ghost use Rattle.host_session.specs.declared.fault.HostFault.{HostFault};
ghost use Rattle.host_session.specs.Handshake.{Told};
ghost use Rattle.host_session.specs.Session.{Session, expected_of, IsAfter, EndsAfter, AreGiven, told_by, reason_in};
ghost use Rattle.host_session.specs.Conversation.{IsConversation, IsRefusal, AreOfStream};

/// What a session has given and said is what its stream says, and no more. The size and the name
/// are told as soon as the handshake is whole.
pub fn a_session_follows_its_stream()
    ensures { (s : Session) → (stream sent : List ℕ) → (messages : List Host)
        → IsAfter s stream messages sent
        → IsConversation (expected_of s) stream (told_by s.reader s.kept) messages (sent ++ s.due) }
{}

/// A session is stopped when its stream is refused, with that fault, and with the host's reason. If
/// memory ran out, the messages that it gave are of its stream all the same.
pub fn a_stopped_session_follows_its_stream()
    ensures refused { (s : Session) → (stream said : List ℕ)
        → (messages : List Host) → (f : HostFault)
        → EndsAfter (expected_of s) s.kept s.reader stream messages said f
        → IsRefusal (expected_of s) stream (told_by s.reader s.kept) messages said f
        (reason_in (Some f) s.kept) }
    ensures given { (s : Session) → (stream : List ℕ) → (messages : List Host)
        → AreGiven (expected_of s) s.kept s.reader stream messages
        → AreOfStream (expected_of s) stream (told_by s.reader s.kept) messages }
{}

/// A stream is one conversation at most, and none that is refused is one. A stream that is refused
/// is refused with one fault and one reason.
pub fn one_conversation()
    ensures one_end { (expected : ExpectedScreen) → (stream said answered : List ℕ)
        → (told known : Option Told) → (messages others : List Host)
        → IsConversation expected stream told messages said
        → IsConversation expected stream known others answered
        → (told ≡ known) × (messages ≡ others) × (said ≡ answered) }
    ensures not_refused { (expected : ExpectedScreen)
        → (stream said answered reason : List ℕ) → (told known : Option Told)
        → (messages others : List Host) → (f : HostFault)
        → IsConversation expected stream told messages said
        → IsRefusal expected stream known others answered f reason → ⊥ }
    ensures one_refusal { (expected : ExpectedScreen)
        → (stream said answered reason text : List ℕ) → (told known : Option Told)
        → (messages others : List Host) → (f g : HostFault)
        → IsRefusal expected stream told messages said f reason
        → IsRefusal expected stream known others answered g text
        → (told ≡ known) × (messages ≡ others) × (said ≡ answered) × (f ≡ g) × (reason ≡ text) }
{}

/// However a stream is cut, two sessions that got it, for one format and one expected size, have
/// given the same messages, said the same bytes, and been told the same.
pub fn any_cut_gives_the_same()
    ensures { (s t : Session) → (stream sent put : List ℕ)
        → (messages others : List Host) → s.format ≡ t.format → s.expected ≡ t.expected
        → IsAfter s stream messages sent → IsAfter t stream others put
        → (told_by s.reader s.kept ≡ told_by t.reader t.kept)
        × (messages ≡ others) × (sent ++ s.due ≡ put ++ t.due) }
{}
