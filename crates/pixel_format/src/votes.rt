//! The number that has the majority in a list.

ghost use Rattle.std.specs.Prelude.{◌≡◌, ℕ, ◌<◌, ◌≤◌, length, slice_index};
ghost use Rattle.pixel_format.specs.Number.{HasMajority};

/// The index of the number that stands at more than half of the positions, if one does. Each
/// position of another number takes one vote of it away. The first positions, so many, have one
/// number, and aren't looked at.
pub fn most_voted(numbers: &[u32], run: usize) -> usize
    requires some { 0 < run }
    requires within { run ≤ length numbers.now }
    requires one_number { (k : ℕ) → k < run → slice_index numbers.now k ≡ slice_index numbers.now 0 }
    ensures within { result < length numbers.now }
    ensures majority { HasMajority numbers.now result }
{
    let mut index = 0;
    let mut votes = run;
    for k in run..numbers.len() {
        if votes == 0 {
            index = k;
            votes = 1;
        } else if numbers[k] == numbers[index] {
            votes += 1;
        } else {
            votes -= 1;
        }
    }
    index
}
