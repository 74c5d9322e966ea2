//! Writes the output.

ghost use Rattle.std.specs.Prelude.{◌≡◌, ◌<◌, ◌≤◌, ◌-◌, length};
ghost use Rattle.std.specs.Prelude.{take, drop, false, IfOk, OnOk, OnErr, IsErrOf};
ghost use Rattle.std.specs.Io.KnownBytes.{append_known};
ghost use Rattle.gh_io.specs.Outside.{Rose};
ghost use Rattle.gunyah.specs.Outcome.{TookFirst};

use gh_io::{PutErr, Sink};
use std::alloc::Global;

/// The next piece: all of the output that isn't taken yet.
fn rest(output: &[u8], count: usize) -> &[u8]
    requires { count ≤ length output.now }
    ensures whole { result.now ≡ drop count output.now }
{
    &output[count..]
}

/// Gives the sink all of the output that isn't taken yet, and counts what it took of it.
fn put_rest<K: Sink>(
    alloc: Global,
    out: &mut K,
    output: &[u8],
    count: usize,
) -> Result<usize, PutErr>
    requires { count < length output.now }
    ensures some { IfOk result (λ taken. 0 < taken) }
    ensures within { IfOk result (λ taken. taken ≤ length output.now - count) }
    ensures taken { IfOk result (λ taken. K.taken out.new
        ≡ append_known (K.taken out.old) (take taken (drop count output.now))) }
    ensures failed { IsErrOf result PutErr.Failed → Rose (K.faults out.old) (K.faults out.new) }
    ensures unsure { IsErrOf result PutErr.Failed → K.is_sure out.old ≡ false }
    ensures err { OnErr result (K.taken out.new ≡ K.taken out.old) }
    ensures ok { OnOk result (K.faults out.new ≡ K.faults out.old) }
    ensures no_memory { IsErrOf result PutErr.NoMemory → K.faults out.new ≡ K.faults out.old }
    ensures sure { K.is_sure out.new ≡ K.is_sure out.old }
{
    out.put(alloc, rest(output, count))
}

/// Writes the output. Each piece that the sink is given is all that it hasn't taken yet.
#[tactic(auto, using(crate::proofs::OutcomeLemmas::took_more, crate::proofs::OutcomeLemmas::took_first))]
pub(crate) fn write_output<K: Sink>(alloc: Global, out: &mut K, output: &[u8]) -> Result<(), PutErr>
    ensures ok { OnOk result (K.taken out.new ≡ append_known (K.taken out.old) output.now) }
    ensures err { OnErr result (TookFirst (K.taken out.old) (K.taken out.new) output.now) }

    // A fault has its cause, and there is none without it.
    ensures failed { IsErrOf result PutErr.Failed → Rose (K.faults out.old) (K.faults out.new) }
    ensures no_memory { IsErrOf result PutErr.NoMemory → K.faults out.new ≡ K.faults out.old }
    ensures no_fault { OnOk result (K.faults out.new ≡ K.faults out.old) }
    ensures unsure { IsErrOf result PutErr.Failed → K.is_sure out.old ≡ false }
{
    let mut count = 0;
    while count < output.len() {
        count += put_rest(alloc, out, output, count)?;
    }
    Ok(())
}
