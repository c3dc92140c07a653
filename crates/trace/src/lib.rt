// Each half-cycle told: five numbers, in order. One pass checks the samples; one over the steps writes.
#![tactic(auto)]

ghost use Rattle.std.specs.Prelude.{◌≡◌, length};
ghost use Rattle.rules.specs.Trace.{trace_of};
ghost use Rattle.rules.specs.Refusals.{over, traced, trace_written};
ghost use Rattle.trace.specs.Pass.{Writable};

use checks::all_in_range;
use halves::{Recording, bad_sample, joined};
use kinds::Inside;
use rules::{Refusal, Settings};
use tell::tell;

// Tells the half-cycles of an accepted recording over the front of `out`, which has room for them.
fn write_halves(recording: &Recording, out: &mut [u64])
    requires { Writable recording.now (length out.old) }
    ensures { out.new ≡ over (trace_of recording.now.settings recording.now.samples.now) out.old }
{
    let mut inside = Inside::none();
    let mut step = recording.step_at(0);
    for k in 0..recording.halves {
        let next = recording.step_at(k + 1);
        inside = tell(recording.thresholds, joined(step, next), inside, k, out);
        step = next;
    }
}

// The half-cycles of a recording of good length: its samples checked, the room tested, and each half-cycle told.
fn trace_shaped(recording: &Recording, out: &mut [u64]) -> Result<u64, Refusal>
    ensures value { result ≡ traced recording.now.settings recording.now.samples.now (length out.old) }
    ensures out_after { out.new ≡ trace_written recording.now.settings recording.now.samples.now out.old }
{
    let good = all_in_range(recording.samples);
    if !good {
        return Err(bad_sample(recording.settings, recording.samples, 0));
    }
    let halves = recording.halves;
    let room = (out.len() / 5) as u64;
    if room < halves {
        return Err(Refusal::Room(halves));
    }
    write_halves(recording, out);
    Ok(halves)
}

// Tells each half-cycle of any recording into `out`, five numbers each, in order: how many there are, or the refusal. Numbers beyond the
// last half-cycle's stay as they were, and a refusal writes nothing.
pub fn trace(s: Settings, samples: &[i32], out: &mut [u64]) -> Result<u64, Refusal>
    ensures value { result ≡ traced s samples.now (length out.old) }
    ensures out_after { out.new ≡ trace_written s samples.now out.old }
{
    let recording = Recording::new(s, samples)?;
    trace_shaped(&recording, out)
}
