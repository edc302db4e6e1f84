//! Laws of messages. Each is the contract of a function that does nothing.

ghost use Rattle.std.specs.Prelude.{◌≡◌, ◌↔◌, ◌+◌, ◌*◌, ◌≤◌, IsTrue, ℕ, List, [], ◌∷◌, ◌++◌, length};
ghost use Rattle.terms.specs.Reading.{Got, More, Bad};
ghost use Rattle.rfb_wire.specs.declared.message.Rectangle.{Rectangle};
ghost use Rattle.terms.specs.declared.wire_fault.WireFault.{WireFault};
ghost use Rattle.rfb_wire.specs.Grammar.{message_at, Message, Recorded};
ghost use Rattle.rfb_wire.specs.Message.{IsMessage};
ghost use Rattle.rfb_wire.specs.Written.{raw_update_bytes, raw_rectangle};
ghost use Rattle.rect_data.specs.Grammar.{is_inside};
ghost use Rattle.terms.specs.declared.area.Area.{Area};
ghost use Rattle.client_wire.specs.Stream.{Part, Reads, BeginsNone};

/// What the grammar reads of all the bytes is a recorded message, and each recorded message is what
/// it reads.
pub fn grammar_reads_messages()
    ensures { (limit width height : ℕ) → (bytes : List ℕ) → (rectangles : List Rectangle)
        → (message_at limit width height bytes ≡ Got (Recorded rectangles) [])
        ↔ IsMessage limit width height bytes rectangles }
{}

/// Bytes have at most one reading as a recorded message.
pub fn one_reading_of_bytes()
    ensures { (limit width height : ℕ) → (bytes : List ℕ) → (rectangles others : List Rectangle)
        → IsMessage limit width height bytes rectangles → IsMessage limit width height bytes others
        → rectangles ≡ others }
{}

/// No recorded message begins another.
pub fn no_message_begins_another()
    ensures { (limit width height : ℕ) → (bytes more : List ℕ)
        → (rectangles others : List Rectangle)
        → IsMessage limit width height bytes rectangles
        → IsMessage limit width height (bytes ++ more) others → more ≡ [] }
{}

/// No whole message begins a rest that waits, or that begins with a fault.
pub fn a_rest_begins_none()
    ensures waits { (limit width height : ℕ) → (rest : List ℕ)
        → message_at limit width height rest ≡ More → BeginsNone (message_at limit width height) rest }
    ensures fault { (limit width height : ℕ) → (rest : List ℕ) → (f : WireFault)
        → message_at limit width height rest ≡ Bad f → BeginsNone (message_at limit width height) rest }
{}

/// A stream has at most one reading: messages, and a rest that no whole message begins.
pub fn one_reading_of_a_stream()
    ensures { (limit width height : ℕ) → (stream : List ℕ) → (messages others : List (Part Message))
        → (rest other : List ℕ)
        → Reads (message_at limit width height) stream messages rest → BeginsNone (message_at limit width height) rest
        → Reads (message_at limit width height) stream others other → BeginsNone (message_at limit width height) other
        → (messages ≡ others) × (rest ≡ other) }
{}

/// An update of one Raw rectangle that is written is read as a recorded message with that
/// rectangle, if the area lies within the screen and has four bytes for each pixel.
pub fn written_update_is_read()
    ensures { (limit width height : ℕ) → (area : Area) → (pixels : List ℕ)
        → IsTrue (is_inside width height area) → length pixels ≡ 4 * (area.w * area.h)
        → 16 + length pixels ≤ limit
        → message_at limit width height (raw_update_bytes area pixels)
        ≡ Got (Recorded (raw_rectangle area ∷ [])) [] }
{}
