//! Comparing pixels as numbers, many at once.

ghost use Rattle.std.specs.Prelude.{◌≡◌, ℕ, ◌<◌, ◌≤◌, length, IsTrue, slice_index};

// How many numbers are looked at together.
const AT_ONCE: usize = 8;

// Whether so many numbers are all this one. It looks at each, and stops at none.
#[inline(always)]
fn are_all(numbers: &[u32], number: u32) -> bool
    requires { length numbers.now ≡ 8 }
    ensures { IsTrue result → (k : ℕ) → k < length numbers.now → slice_index numbers.now k ≡ number }
{
    let mut all = true;
    for one in numbers {
        all &= *one == number;
    }
    all
}

/// The first index, from a start on, of another number, or how many numbers there are.
pub fn end_of_number(numbers: &[u32], start: usize, number: u32) -> usize
    requires { start ≤ length numbers.now }
    ensures reached { start ≤ result }
    ensures within { result ≤ length numbers.now }
    ensures one_number { (k : ℕ) → start ≤ k → k < result → slice_index numbers.now k ≡ number }
    ensures another { result < length numbers.now → slice_index numbers.now result ≡ number → ⊥ }
{
    let mut end = start;
    'many: while numbers.len() - end >= AT_ONCE && are_all(&numbers[end..end + AT_ONCE], number) {
        end += AT_ONCE;
    }
    'one: while end < numbers.len() && numbers[end] == number {
        end += 1;
    }
    end
}
