// Quiet half-cycles: known ones at which no event begins. Where nothing is going on they begin and end nothing, and a loop of its own,
// with few numbers to carry, passes over them.
#![tactic(auto)]

ghost use Rattle.std.specs.Prelude.{◌≡◌, ◌<◌, cond};
ghost use Rattle.kinds.specs.Machine.{Few};
ghost use Rattle.quiet.specs.Quiet.{quiet_by, quiet_till, Standing, StoppedAt};

use halves::{Recording, joined};
use kinds::Thresholds;
use numbers::{greatest, least};
use rules::Half;

// Where a quiet stretch ends: the first half-cycle that it does not hold, and the two steps of that, so that neither is summed again.
#[derive(Clone, Copy)]
pub struct Stretch {
    pub k: u64,
    pub step: Half,
    pub next: Half,
}

// Whether a half-cycle is known and no event begins there. No interruption begins where no sag does.
fn is_quiet(m: Thresholds, half: Half) -> bool
    requires { Few half }
    ensures { result ≡ quiet_by m half }
{
    let Some(v) = half else {
        return false;
    };
    (m.sag.from <= 10000 * least(v)) & (10000 * greatest(v) <= m.swell.from)
}

// Passes over the quiet half-cycles from `from` on, and stops at the first that is not quiet, or at `to`; `first` is the first step of
// half-cycle `from`.
pub fn pass_quiet(recording: &Recording, from: u64, to: u64, first: Half) -> Stretch
    requires { Standing recording.now from to first }
    ensures { StoppedAt recording.now.settings recording.now.samples.now to (quiet_till recording.now.settings recording.now.samples.now from to) result }
{
    let mut step = first;
    for k in from..to {
        let next = recording.step_at(k + 1);
        if !is_quiet(recording.thresholds, joined(step, next)) {
            return Stretch { k, step, next };
        }
        step = next;
    }
    Stretch {
        k: to,
        step,
        next: step,
    }
}

// The first half-cycle from `from` on for the machine, and its two steps: where nothing is going on the quiet ones are passed over.
pub fn calm_from(recording: &Recording, going: bool, from: u64, first: Half) -> Stretch
    requires { Standing recording.now from recording.now.halves first × (from < recording.now.halves) }
    ensures { StoppedAt recording.now.settings recording.now.samples.now recording.now.halves (cond going from (quiet_till recording.now.settings recording.now.samples.now from recording.now.halves)) result }
{
    let halves = recording.halves;
    if going {
        return Stretch {
            k: from,
            step: first,
            next: recording.step_at(from + 1),
        };
    }
    pass_quiet(recording, from, halves, first)
}
