//! How a recorder ended, and which of several reasons is told.

ghost use Rattle.std.specs.Prelude.{◌≡◌, ◌↔◌, ℕ, None, Some, IfErr, IsTrue, OnOk, OnErr, not, true, false};
ghost use Rattle.host_session.specs.declared.fault.HostFault.{HostFault};

use host_stream::HostEnd;
use refusals::Refusal;
use watching::book_workers::FlusherEnd;
use watching::flusher_core::HostRefusal;

/// How each part of a recorder ended.
#[derive(Clone, Copy, Debug, PartialEq, Eq)]
pub struct Ends {
    /// The flusher.
    pub flusher: Result<(), FlusherEnd>,
    /// The worker that hands the host's messages in.
    pub worker: Result<(), HostRefusal>,
    /// The host's stream.
    pub host: HostEnd,
    /// Whether each viewer's connection was taken.
    pub is_listener_sound: bool,
    /// Whether all that viewers were to be shown could be read.
    pub is_readable: bool,
}

/// Whether it is told how the host's stream ended: if the host ended it, and not the recorder, which
/// hung up on it, or the book, which refused a message.
pub fn is_end_of_host(worker: Result<(), HostRefusal>, has_hung_up: bool) -> bool
    ensures ended { OnOk worker (result ≡ not has_hung_up) }
    ensures refused { OnErr worker (result ≡ false) }
{
    worker.is_ok() && !has_hung_up
}

/// Whether a viewer in a browser whose showing is over is shown what it asks for next: it asks for
/// something, is there, and the recorder isn't closing, so that nobody holds up the end by orders.
pub fn is_shown_next(is_over: bool, has_left: bool, is_closing: bool) -> bool
    ensures { IsTrue result ↔ ((is_over ≡ true) × ((has_left ≡ false) × (is_closing ≡ false))) }
{
    is_over && !has_left && !is_closing
}

/// The one reason that is told: the flusher's, else the worker's, else the host's or its socket's,
/// else the listener's, else the device's when it was read; `None` if all went well.
pub fn first_refusal(ends: Ends) -> Option<Refusal>
    ensures flusher { OnErr ends.flusher (result ≡ Some Refusal.Device) }
    ensures worker { OnOk ends.flusher (IfErr ends.worker (λ refusal. result ≡ Some (Refusal.Book refusal))) }
    ensures fault { OnOk ends.flusher (OnOk ends.worker ((fault : HostFault)
        → ends.host ≡ HostEnd.Fault fault → result ≡ Some (Refusal.Host fault))) }
    ensures socket { OnOk ends.flusher (OnOk ends.worker (ends.host ≡ HostEnd.Socket → result ≡ Some Refusal.Net)) }
    ensures listener { OnOk ends.flusher (OnOk ends.worker ((unfinished : ℕ)
        → ends.host ≡ HostEnd.Closed unfinished → ends.is_listener_sound ≡ false → result ≡ Some Refusal.Net)) }
    ensures unreadable { OnOk ends.flusher (OnOk ends.worker ((unfinished : ℕ)
        → ends.host ≡ HostEnd.Closed unfinished → ends.is_listener_sound ≡ true
        → ends.is_readable ≡ false → result ≡ Some Refusal.Device)) }
    ensures done { OnOk ends.flusher (OnOk ends.worker ((unfinished : ℕ)
        → ends.host ≡ HostEnd.Closed unfinished → ends.is_listener_sound ≡ true
        → ends.is_readable ≡ true → result ≡ None)) }
{
    if ends.flusher.is_err() {
        return Some(Refusal::Device);
    }
    if let Err(refusal) = ends.worker {
        return Some(Refusal::Book(refusal));
    }
    match ends.host {
        HostEnd::Socket => Some(Refusal::Net),
        HostEnd::Fault(fault) => Some(Refusal::Host(fault)),
        HostEnd::Closed(_) if !ends.is_listener_sound => Some(Refusal::Net),
        HostEnd::Closed(_) if !ends.is_readable => Some(Refusal::Device),
        HostEnd::Closed(_) => None,
    }
}
