//! The front of bytes.

ghost use Rattle.std.specs.Prelude.{◌≡◌, ◌+◌, length, IfSome, MatchOption};
ghost use Rattle.terms.specs.Reading.{Got, More};
ghost use Rattle.terms.specs.Reading as reading;
ghost use Rattle.terms.specs.declared.wire_fault.WireFault.{WireFault};

/// The first bytes, if there are so many, and the bytes after them.
pub fn field(count: usize, bytes: &[u8]) -> Option<(&[u8], &[u8])>
    ensures reads { MatchOption result (reading.field {E = WireFault} count bytes.now ≡ More)
        (λ x. reading.field {E = WireFault} count bytes.now ≡ Got x.0.now x.1.now) }
    ensures lengths { IfSome result (λ x. (length x.0.now ≡ count)
        × (count + length x.1.now ≡ length bytes.now)) }
{
    if bytes.len() < count {
        return None;
    }
    Some(bytes.split_at(count))
}
