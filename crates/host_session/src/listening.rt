//! A host's messages, heard in pieces and answered.

ghost use Rattle.std.specs.Prelude.{◌≡◌, None, IfErr, OnOk};
ghost use Rattle.host_session.specs.Fault.{UnlessMemory};
ghost use Rattle.host_session.specs.Listening.{Listens, StopsListening, ListensToSome};

use crate::fault::HostFault;
use crate::request::write_requests;
use rfb_wire::{HostMessage, ServerReader};

/// Takes a piece of the messages, and appends a request for each update that is whole now, also for
/// those before a fault.
pub fn listen(
    reader: &mut ServerReader,
    piece: &[u8],
    due: &mut Vec<u8>,
    out: &mut Vec<HostMessage>,
) -> Result<(), HostFault>
    requires { reader.old.fault ≡ None }
    ensures going { OnOk result (reader.new.fault ≡ None) }
    ensures screen { (reader.new.format ≡ reader.old.format)
        × (reader.new.width ≡ reader.old.width) × (reader.new.height ≡ reader.old.height) }
    ensures goes { OnOk result (Listens reader.old reader.new piece.now
        out.old.items out.new.items due.old.items due.new.items) }
    ensures faults { IfErr result (λ f. UnlessMemory f
        (StopsListening reader.old f piece.now
        out.old.items out.new.items due.old.items due.new.items)) }
    ensures some { ListensToSome reader.old piece.now out.old.items out.new.items }
{
    let start = out.len();
    let heard = reader.feed(piece, out);
    write_requests(reader.size(), &out[start..], due)?;
    if let Err(fault) = heard {
        return Err(HostFault::Wire(fault));
    }
    Ok(())
}
