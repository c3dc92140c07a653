// How many events a recording has, or refusal 6; and notes of where something goes on, for the pass that writes.
#![tactic(auto)]

ghost use Rattle.std.specs.Prelude.{◌≡◌, Ok, Err, MatchResult, true, not, ◌&&◌, ◌≤◌, length};
ghost use Rattle.rules.specs.Bounded.{bit};
ghost use Rattle.rules.specs.EventList.{events_of};
ghost use Rattle.rules.specs.Refusals.{recording_check, by_check};
ghost use Rattle.kinds.specs.Machine.{Marked, Few};
ghost use Rattle.counts.specs.Counting.{tallied, Counting, CountedTo, noted_at, Noted};

use halves::{Recording, joined};
use kinds::{Inside, Thresholds};
use quiet::calm_from;
use rules::{Half, Refusal};

// The state of the counting pass: which kinds are in an event, and how many events have started.
#[derive(Clone, Copy)]
pub struct Tally {
    pub inside: Inside,
    pub n: u64,
}

// How far the counting pass has come: the tally before half-cycle k and that one's first step, and the half-cycle that the machine
// took on the way, if any, which is to be noted.
#[derive(Clone, Copy)]
pub struct Counted {
    pub tally: Tally,
    pub step: Half,
    pub k: u64,
    pub taken: Option<u64>,
}

// 1 where an event starts.
fn rise(was: bool, is: bool) -> u64
    ensures { (result ≡ bit (is && not was)) × (result ≤ 1) }
{
    u64::from(is & !was)
}

// The tally after one more half-cycle.
fn count_turn(m: Thresholds, t: Tally, half: Half) -> Tally
    requires { Marked m × Few half × (t.n ≤ 300003) }
    ensures { result ≡ tallied m t half }
{
    let was = t.inside;
    let is = was.next(m, m.level(half));
    let up = rise(was.sag, is.sag)
        + rise(was.interruption, is.interruption)
        + rise(was.swell, is.swell);
    Tally {
        inside: is,
        n: t.n + up,
    }
}

// Counts on from half-cycle `from`: the quiet ones are passed over, and the machine takes the next. Refusal 6, where a bad sample is met.
fn count_next(recording: &Recording, t: Tally, first: Half, from: u64) -> Result<Counted, Refusal>
    requires { Counting recording.now t first from }
    ensures { MatchResult result (λ c. CountedTo recording.now.settings recording.now.samples.now from c) (λ q. recording_check recording.now.settings recording.now.samples.now ≡ Err q) }
{
    let calm = calm_from(recording, t.inside.any(), from, first);
    let k = calm.k;
    if k == recording.halves {
        return Ok(Counted {
            tally: t,
            step: calm.step,
            k,
            taken: None,
        });
    }
    let next = calm.next;
    recording.check_step(k + 1, next)?;
    Ok(Counted {
        tally: count_turn(recording.thresholds, t, joined(calm.step, next)),
        step: next,
        k: k + 1,
        taken: Some(k),
    })
}

// A note for the group of four in which half-cycle k lies.
fn note(notes: &mut [bool; 25001], k: u64)
    requires { k ≤ 100000 }
    ensures { notes.new ≡ noted_at notes.old k }
{
    notes[(k / 4) as usize] = true;
}

// How many events a recording has, or refusal 6, which is told as soon as a bad sample is met. Each group of four half-cycles in which
// something goes on is noted, and so is that of half-cycle H, which ends what is still going on. How many notes there are is asked for,
// since the prover does not tell the length of a lent array.
pub fn count_events(recording: &Recording, notes: &mut [bool; 25001]) -> Result<u64, Refusal>
    requires { length notes.old ≡ 25001 }
    ensures value { result ≡ by_check (recording_check recording.now.settings recording.now.samples.now) (Ok (length (events_of recording.now.settings recording.now.samples.now))) (λ q. Err q) }
    ensures noted { recording_check recording.now.settings recording.now.samples.now ≡ Ok tt → Noted recording.now.settings recording.now.samples.now notes.new }
{
    let halves = recording.halves;
    let mut t = Tally {
        inside: Inside::none(),
        n: 0,
    };
    let mut step = recording.step_at(0);
    recording.check_step(0, step)?;
    let mut k: u64 = 0;
    while k < halves {
        let counted = count_next(recording, t, step, k)?;
        if let Some(taken) = counted.taken {
            note(notes, taken);
        }
        t = counted.tally;
        step = counted.step;
        k = counted.k;
    }
    note(notes, halves);
    Ok(t.n)
}
