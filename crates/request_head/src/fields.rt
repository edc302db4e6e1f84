//! The fields of a head, by their names.

ghost use Rattle.std.specs.Prelude.{◌≡◌, ◌∷◌, [], length, All, IfSome, MatchOption};
ghost use Rattle.httparse.specs.Spans.{IsHeaderWithin};
ghost use Rattle.request_head.specs.Fields.{covered, is_same, values_of};

use httparse::spans::HeaderSpan;

// Whether two names of fields, or of hosts, are the same.
pub(crate) fn is_same(name: &[u8], other: &[u8]) -> bool
    ensures { result ≡ is_same name.now other.now }
{
    name.eq_ignore_ascii_case(other)
}

/// The value of the first field of a name, without the white space around it, and the fields after
/// that one, in which the next is found. The spans are those of a head's fields.
pub fn first_value<'a, 'b>(
    head: &'a [u8],
    fields: &'b [HeaderSpan],
    name: &[u8],
) -> Option<(&'a [u8], &'b [HeaderSpan])>
    requires { All (IsHeaderWithin (length head.now)) fields.now }
    ensures values { MatchOption result (values_of name.now (covered head.now fields.now) ≡ [])
        (λ found. values_of name.now (covered head.now fields.now) ≡ found.0.now ∷ values_of name.now (covered head.now found.1.now)) }
    ensures within { IfSome result (λ found. All (IsHeaderWithin (length head.now)) found.1.now) }
{
    for (index, field) in fields.iter().enumerate() {
        if is_same(field.name.of(head), name) {
            return Some((field.value.of(head), &fields[index + 1..]));
        }
    }
    None
}
