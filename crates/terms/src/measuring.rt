//! The length of data that bytes begin with.

ghost use Rattle.std.specs.Prelude.{◌≡◌, Ok, Err, MatchOption};

use thiserror::Error;

/// Why bytes have no length as data of an encoding.
#[derive(Debug, Clone, Copy, PartialEq, Eq, Error)]
pub enum NoLength {
    /// So far they hold no fault, and more of them are needed.
    #[error("more bytes are needed")]
    NeedMore,
    /// They break a rule of the encoding.
    #[error("a rule of the encoding is broken")]
    Bad,
}

/// The whole fields of data that bytes begin with.
#[derive(Clone, Copy)]
pub struct WholeFields<Field> {
    /// How many bytes they have.
    pub taken: usize,
    /// The field after them, which isn't whole in the bytes; none if the data end.
    pub next: Option<Field>,
}

impl<Field: Drop> WholeFields<Field> {
    /// The length of the data; `NeedMore` if a field follows.
    pub fn length(self) -> Result<usize, NoLength>
        ensures { MatchOption self.next (result ≡ Ok self.taken) (λ _. result ≡ Err NoLength.NeedMore) }
    {
        match self.next {
            None => Ok(self.taken),
            Some(_) => Err(NoLength::NeedMore),
        }
    }
}
