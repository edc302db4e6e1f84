//! What holds of each host's stream. The function does nothing: its contract is the law.

ghost use Rattle.std.specs.Prelude.{◌++◌, ◌∷◌, [], ℕ, List};
ghost use Rattle.rfb_wire.specs.Host.{Host};
ghost use Rattle.host_stream.specs.Streams.{HasGiven, IsOfHost, Stream};

/// Each message that was given is of the session's format, and of the size that the host has told.
pub fn each_message_is_of_its_host()
    ensures { (s : Stream) → (bytes : List ℕ) → (given : List Host) → (m : Host) → HasGiven s bytes (given ++ m ∷ []) → IsOfHost s.session m }
{}
