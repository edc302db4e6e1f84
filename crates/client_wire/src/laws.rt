//! Laws of a viewer's messages. Each is the contract of a function that does nothing.

ghost use Rattle.std.specs.Prelude.{◌≡◌, ◌↔◌, ℕ, List, [], ◌++◌};
ghost use Rattle.terms.specs.Reading.{Got, More, Bad};
ghost use Rattle.client_wire.specs.declared.message.ClientMessage.{ClientMessage};
ghost use Rattle.terms.specs.declared.wire_fault.WireFault.{WireFault};
ghost use Rattle.client_wire.specs.Grammar.{message_at};
ghost use Rattle.client_wire.specs.Message.{IsMessage};
ghost use Rattle.client_wire.specs.Stream.{Part, Reads, BeginsNone};

/// What the grammar reads of all the bytes is a message, and each message is what it reads.
pub fn grammar_reads_messages()
    ensures { (bytes : List ℕ) → (m : ClientMessage)
        → (message_at bytes ≡ Got m []) ↔ IsMessage bytes m }
{}

/// Bytes have at most one reading as a message.
pub fn one_reading_of_bytes()
    ensures { (bytes : List ℕ) → (m other : ClientMessage)
        → IsMessage bytes m → IsMessage bytes other → m ≡ other }
{}

/// No message begins another.
pub fn no_message_begins_another()
    ensures { (bytes more : List ℕ) → (m other : ClientMessage)
        → IsMessage bytes m → IsMessage (bytes ++ more) other → more ≡ [] }
{}

/// No whole message begins a rest that waits, or that begins with a fault.
pub fn a_rest_begins_none()
    ensures waits { (rest : List ℕ) → message_at rest ≡ More → BeginsNone message_at rest }
    ensures fault { (rest : List ℕ) → (f : WireFault)
        → message_at rest ≡ Bad f → BeginsNone message_at rest }
{}

/// A stream has at most one reading: messages, and a rest that no whole message begins.
pub fn one_reading_of_a_stream()
    ensures { (stream : List ℕ) → (parts others : List (Part ClientMessage))
        → (rest other : List ℕ)
        → Reads message_at stream parts rest → BeginsNone message_at rest
        → Reads message_at stream others other → BeginsNone message_at other
        → (parts ≡ others) × (rest ≡ other) }
{}
