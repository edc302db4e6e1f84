//! How viewers begin.

ghost use Rattle.std.specs.Prelude.{◌≡◌, ◌⊎◌, false, max, true};

/// How a viewer begins, as it stands when it comes.
#[derive(Clone, Copy, Debug, PartialEq, Eq)]
pub enum Begins {
    /// At the newest screen.
    Live,
    /// After so many messages. Each of those that stand when it comes is shown by itself.
    After {
        from: u64,
        /// How many messages there are up to the last of these.
        each_until: u64,
    },
}

impl Begins {
    /// After so many messages, of a recording of which so many are known to be committed. There may
    /// be more by now.
    pub fn after(from: u64, committed: u64) -> Begins
        ensures { result ≡ Begins.After from (max from committed) }
    {
        Begins::After {
            from,
            each_until: from.max(committed),
        }
    }

    /// How one that begins so is shown the rest once the recorder is closing: one that says nothing
    /// any more is a live one then, for which nobody has to wait message by message.
    pub fn at_the_end(self, is_closing: bool, is_silent: bool) -> Begins
        ensures silent { is_closing ≡ true → is_silent ≡ true → result ≡ Begins.Live }
        ensures otherwise { ((is_closing ≡ false) ⊎ (is_silent ≡ false)) → result ≡ self }
    {
        if is_closing && is_silent {
            Begins::Live
        } else {
            self
        }
    }
}
