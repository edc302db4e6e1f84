//! What is done for a viewer next.

/// What is done for a viewer next.
#[derive(Clone, Copy, Debug, PartialEq, Eq)]
pub enum Next {
    /// It is handed the messages after its position, so many at most, and the screen first if it has
    /// none.
    Want(u32),
    /// It waits until there are more.
    Wait,
    /// It waits until it was shown what it has, and asks for what changes next.
    WaitUntilAsked,
    /// The same, and isn't answered before it stands further on.
    HoldBack,
    /// It goes on after all that are committed, with the screen there.
    Newest,
    /// It goes on after so many messages, with the screen there.
    Seek(u64),
    /// It is played from now on.
    Begin,
    /// So many milliseconds pass.
    Sleep(u64),
    /// It is shown the message that it was handed.
    Show,
    /// It stays until it was shown all that there is, and then ends.
    Rest,
    /// It ends.
    Stop,
}
