//! Sets of numbers, kept as bits of words of 64.

ghost use Rattle.std.specs.Prelude.{◌≡◌, ◌+◌, ◌<◌, ◌≤◌, ◌*◌, ◌||◌, ◌&&◌, ℕ, Bool, true, length, nat_lt, if◌then◌else◌};
ghost use Rattle.pixel_sets.specs.Bits.{bit, is_set, is_between, AreEnds, AreEndsOf, IsFirstOf};

// How many bits a word has.
const WORD: usize = 64;

/// The least and the greatest of some numbers.
#[derive(Clone, Copy)]
pub struct Ends {
    pub first: usize,
    pub last: usize,
}

// A word whose bits are 1 from one number to below another.
fn mask(from: usize, to: usize) -> u64
    requires some { from < to }
    requires within { to ≤ 64 }
    ensures { (i : ℕ) → i < 64 → bit result i ≡ is_between from to i }
{
    (u64::MAX << from) & (u64::MAX >> (WORD - to))
}

// A word whose bits have this value from one number to below another, and are else as they were.
fn with_bits(word: u64, from: usize, to: usize, value: bool) -> u64
    requires some { from < to }
    requires within { to ≤ 64 }
    ensures { (i : ℕ) → i < 64
        → bit result i ≡ (if is_between from to i then value else bit word i) }
{
    let mask = mask(from, to);
    if value { word | mask } else { word & !mask }
}

/// Puts the numbers from one to below another into the set, or takes them out of it.
pub fn fill(words: &mut [u64], from: usize, to: usize, value: bool)
    requires order { from ≤ to }
    requires within { to ≤ 64 * length words.old }
    ensures { (k : ℕ) → is_set words.new k
        ≡ (if is_between from to k then value else is_set words.old k) }
{
    let mut next = from;
    while next < to {
        let word = next / WORD;
        let low = next % WORD;
        let count = (to - next).min(WORD - low);
        words[word] = with_bits(words[word], low, low + count, value);
        next += count;
    }
}

/// The same of all numbers that some words stand for, from one word to before another.
pub fn fill_words(words: &mut [u64], from: usize, to: usize, value: bool)
    requires order { from ≤ to }
    requires within { to ≤ length words.old }
    ensures { (k : ℕ) → is_set words.new k
        ≡ (if is_between (64 * from) (64 * to) k then value else is_set words.old k) }
{
    let whole = with_bits(0, 0, WORD, value);
    for pixel in from..to {
        words[pixel] = whole;
    }
}

// The lowest and the highest bit of a word that are 1.
fn ends_of_word(word: u64) -> Option<Ends>
    ensures { AreEndsOf (λ i. nat_lt i 64 && bit word i) result }
{
    if word == 0 {
        return None;
    }
    Some(Ends {
        first: word.trailing_zeros() as usize,
        last: WORD - 1 - word.leading_zeros() as usize,
    })
}

// The ends of some numbers, and of others that follow them.
fn joined(found: Option<Ends>, following: Ends) -> Ends
    ensures { (p q : ℕ → Bool) → AreEndsOf p found → AreEnds q following
        → ((k l : ℕ) → p k ≡ true → q l ≡ true → k ≤ l) → AreEnds (λ k. p k || q k) result }
{
    match found {
        Some(ends) => Ends {
            first: ends.first,
            last: following.last,
        },
        None => following,
    }
}

/// The least and the greatest number of the set that are from one to below another.
pub fn first_and_last(words: &[u64], from: usize, to: usize) -> Option<Ends>
    requires order { from ≤ to }
    requires within { to ≤ 64 * length words.now }
    ensures { AreEndsOf (λ k. is_between from to k && is_set words.now k) result }
{
    let mut found: Option<Ends> = None;
    let mut next = from;
    while next < to {
        let low = next % WORD;
        let count = (to - next).min(WORD - low);
        if let Some(ends) = ends_of_word(words[next / WORD] & mask(low, low + count)) {
            let base = next - low;
            let following = Ends {
                first: base + ends.first,
                last: base + ends.last,
            };
            found = Some(joined(found, following));
        }
        next += count;
    }
    found
}

/// The least number of the set that is from one to below another.
pub fn first(words: &[u64], from: usize, to: usize) -> Option<usize>
    requires order { from ≤ to }
    requires within { to ≤ 64 * length words.now }
    ensures { IsFirstOf (λ k. is_between from to k && is_set words.now k) result }
{
    let mut next = from;
    while next < to {
        let low = next % WORD;
        let count = (to - next).min(WORD - low);
        if let Some(ends) = ends_of_word(words[next / WORD] & mask(low, low + count)) {
            return Some(next - low + ends.first);
        }
        next += count;
    }
    None
}
