//! Tests of the two servers over loopback.
#![tactic(auto)]

ghost use Rattle.std.specs.Prelude.{◌≡◌};

use reception::Stop;
use serve_plan::{Audience, Origin, Plan};
use telling::Told;
use terms::Format;

/// A plan of a test: what it serves, to whom, and the position at which they begin. It ends with
/// its viewers.
pub fn plan_of<'a>(
    file: &'a str,
    host: Option<&'a str>,
    audience: Audience,
    from: Origin,
) -> Plan<'a>
    ensures audience { result.audience ≡ audience }
    ensures from { result.from ≡ from }
{
    Plan {
        file,
        listen: None,
        web: None,
        web_names: None,
        host,
        format: Format::Two,
        key_interval: 4,
        audience,
        ends_with_host: false,
        from,
        playing: None,
        stop: Stop::never(),
        overwrites: false,
        told: Told::Nothing,
    }
}

#[cfg(test)]
mod tests;
