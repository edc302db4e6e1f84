//! When more is told than a refusal's line, and what.

ghost use Rattle.std.specs.Prelude.{◌≡◌, ◌==◌, is_some, position};

use serve_plan::Plan;

/// What is wrong with an address to listen at that has no port.
const LISTEN: &str =
    "--listen wants an address and a port: 127.0.0.1:5900, or 0.0.0.0:5900 for other machines";

/// The same of browsers, for whom a port alone is one of this machine.
const WEB: &str =
    "--web wants a port, or an address and a port: 8080, or 0.0.0.0:8080 for other machines";

/// What is wrong with a host that is named as VNC's own programs do.
const HOST: &str = "--host wants an address and a port: the display :1 of desk is desk:5901";

fn first_colon(address: &[u8]) -> Option<usize>
    ensures { result ≡ position (λ byte. byte == 58) address.now }
{
    address.iter().position(|byte| *byte == b':')
}

// Whether an address has a port after it.
fn has_port(address: &str) -> bool
    ensures { result ≡ is_some (position (λ byte. byte == 58) address.now) }
{
    first_colon(address.as_bytes()).is_some()
}

// Whether an address is a port alone.
fn is_port(address: &str) -> bool {
    address.bytes().all(|byte| byte.is_ascii_digit())
}

// Whether a host is named by a display, as desk:1 or desk::5901, or by no port at all.
fn names_display(host: &str) -> bool {
    match host.rsplit_once(":") {
        Some((name, port)) => port.len() < 3 || name.ends_with(":"),
        None => true,
    }
}

/// What may be wrong with the addresses of a recorder that is refused.
pub fn advice_of(plan: &Plan<'_>) -> Option<&'static str> {
    if plan.host.is_some_and(names_display) {
        return Some(HOST);
    }
    if plan.listen.is_some_and(|address| !has_port(address)) {
        return Some(LISTEN);
    }
    if plan
        .web
        .is_some_and(|address| !has_port(address) && !is_port(address))
    {
        return Some(WEB);
    }
    None
}

/// Whether one of the words asks for more than a refusal's line.
pub fn asks_for_more(words: &[String]) -> bool {
    words.iter().any(|word| word.as_str() == "--verbose")
}
