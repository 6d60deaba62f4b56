// Texts are put.
ghost use Rattle.std.specs.Prelude.{◌≡◌, ◌<◌, ◌-◌, ◌^◌, OnOk, OnErr, MatchResult};
ghost use Rattle.sp_io.specs.Moved.{appended};
ghost use Rattle.sp_command.specs.Puts.{IsPartPut, PutCause, failure_status};

use sp_io::{Out, OutFault, put_all};

/// Puts a text. After a fault a front of it was put.
pub fn put_text<O: Out>(out: &mut O, text: &[u8]) -> Result<(), OutFault>
    requires { O.faults out.old < 2 ^ 64 - 1 }
    ensures held { OnOk result (O.held out.new ≡ appended (O.held out.old) text.now) }
    ensures part { OnErr result (IsPartPut (O.held out.old) (O.held out.new) text.now) }
    ensures cause { MatchResult result (λ _. O.faults out.new ≡ O.faults out.old)
        (PutCause (O.faults out.old) (O.faults out.new)) }
{
    put_all(out, text)
}

/// The status where an output was not written: 5 where it failed, and 7 where there was no memory.
pub fn failure_status(fault: &OutFault) -> u8
    ensures { result ≡ failure_status fault.now }
{
    match fault {
        OutFault::Failed => 5,
        OutFault::NoMemory => 7,
    }
}
