//! By which names a server may be asked. Under a name of its own, a page of somebody else's could
//! read what is served here, by having its name lead here.

ghost use Rattle.std.specs.Prelude.{◌≡◌, ◌↔◌, ◌++◌, ℕ, List, codes, IsTrue, MatchOption};
ghost use Rattle.std.specs.Char.{is_ascii_digit};
ghost use Rattle.std.specs.List.{list_all};
ghost use Rattle.request_head.specs.Hosts.{IsIpv4, IsIpv6, is_among, IsOwn, IsWithPort, IsAllowed};

use crate::fields::is_same;
use std::net::{Ipv4Addr, Ipv6Addr};

fn is_ipv4(name: &[u8]) -> bool
    ensures { IsTrue result ↔ IsIpv4 name.now }
{
    Ipv4Addr::parse_ascii(name).is_ok()
}

// What is in brackets.
fn bracketed(name: &[u8]) -> Option<&[u8]>
    ensures { MatchOption result ((text : List ℕ) → name.now ≡ codes "[" ++ text ++ codes "]" → ⊥)
        (λ text. name.now ≡ codes "[" ++ text.now ++ codes "]") }
{
    name.strip_prefix(b"[")?.strip_suffix(b"]")
}

fn is_ipv6(name: &[u8]) -> bool
    ensures { IsTrue result ↔ IsIpv6 name.now }
{
    match bracketed(name) {
        Some(text) => Ipv6Addr::parse_ascii(text).is_ok(),
        None => false,
    }
}

fn is_among(names: &[&[u8]], name: &[u8]) -> bool
    ensures { result ≡ is_among names.now name.now }
{
    names.iter().any(|other| is_same(other, name))
}

// Whether a name, without a port, leads here.
fn is_own(names: &[&[u8]], name: &[u8]) -> bool
    ensures { IsTrue result ↔ IsOwn names.now name.now }
{
    name.is_empty()
        || is_same(name, b"localhost")
        || is_among(names, name)
        || is_ipv4(name)
        || is_ipv6(name)
}

fn are_digits(bytes: &[u8]) -> bool
    ensures { result ≡ list_all is_ascii_digit bytes.now }
{
    bytes.iter().all(|byte| byte.is_ascii_digit())
}

// The name, if a port follows it.
fn without_port(host: &[u8]) -> Option<&[u8]>
    ensures { MatchOption result ((name : List ℕ) → IsWithPort name host.now → ⊥) (λ name. IsWithPort name.now host.now) }
{
    for (end, byte) in host.iter().enumerate() {
        if *byte == b':' && are_digits(&host[end + 1..]) {
            return Some(&host[..end]);
        }
    }
    None
}

/// Whether a server with these names, besides its addresses and `localhost`, is named by the value
/// of a Host field, with a port or without.
pub fn is_allowed(names: &[&[u8]], host: &[u8]) -> bool
    ensures { IsTrue result ↔ IsAllowed names.now host.now }
{
    if is_own(names, host) {
        return true;
    }
    match without_port(host) {
        Some(name) => is_own(names, name),
        None => false,
    }
}
