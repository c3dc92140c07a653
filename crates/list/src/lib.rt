// The event list: the events counted, the room tested, and a pass that goes where the notes say and writes each event where it belongs.
#![tactic(auto)]

ghost use Rattle.std.specs.Prelude.{◌≡◌, false, ◌+◌, ◌-◌, ◌≤◌, ◌<◌, length, get_or, Ok};
ghost use Rattle.rules.specs.Bounded.{first_not};
ghost use Rattle.rules.specs.Halves.{half_at};
ghost use Rattle.rules.specs.EventList.{events_of, flat};
ghost use Rattle.rules.specs.Refusals.{recording_check, over, listed, written};
ghost use Rattle.halves.specs.Steps.{step_at};
ghost use Rattle.counts.specs.Counting.{Noted};
ghost use Rattle.list.specs.Listing.{Visiting, visited, closes, Turning, Readable, Running, differs, WritingOn, WrittenTo, start_pass, rested, turned, turned_out, turns, turns_out};

use counts::count_events;
use ended::{finish, put};
use halves::{Recording, joined};
use kinds::{Level, Marks, Open, step};
use rules::{Half, Kind, Refusal, Settings};

// An event of a kind that is going on, and the slot that waits for its words.
#[derive(Clone, Copy)]
pub struct Pending {
    pub event: Open,
    pub slot: u64,
}

// A kind's state after a half-cycle, and how many events have a slot.
#[derive(Clone, Copy)]
pub struct Visited {
    pub pending: Option<Pending>,
    pub n: u64,
}

// The state of the writing pass before a half-cycle; `known` tells of the half-cycle before it.
#[derive(Clone, Copy)]
pub struct Pass {
    pub known: bool,
    pub n: u64,
    pub sag: Option<Pending>,
    pub interruption: Option<Pending>,
    pub swell: Option<Pending>,
}

// A half-cycle as the writing pass reads it, and the step after it.
#[derive(Clone, Copy)]
pub struct Read {
    pub half: Half,
    pub step: Half,
}

// The state of the writing pass, and the group of half-cycles that it stands before.
#[derive(Clone, Copy)]
pub struct Written {
    pub pass: Pass,
    pub group: u64,
}

// Half-cycle k by one kind, with `n` slots given out: the words of an event that it ends go into its slot, and an event that
// starts there gets the next one.
fn visit(
    recording: &Recording,
    kind: Kind,
    m: Marks,
    seen: bool,
    k: u64,
    was: Option<Pending>,
    level: Option<Level>,
    n: u64,
    out: &mut [u64],
) -> Visited
    requires { Visiting recording.now kind m seen k was level n (length out.old) }
    ensures value { result ≡ visited recording.now.settings recording.now.samples.now kind k was n }
    ensures out_after { out.new ≡ closes recording.now.settings recording.now.samples.now kind k was out.old }
{
    let is = step(kind, m, seen, k, was.map(|p| p.event), level);
    match (was, is) {
        (Some(p), Some(event)) => Visited {
            pending: Some(Pending { event, ..p }),
            n,
        },
        (Some(p), None) => {
            let e = finish(recording, kind, p.event, k, level.is_some());
            put(out, (11 * p.slot) as usize, e);
            Visited { pending: None, n }
        }
        (None, Some(event)) => Visited {
            pending: Some(Pending { event, slot: n }),
            n: n + 1,
        },
        (None, None) => Visited { pending: None, n },
    }
}

// Half-cycle k by all three kinds.
fn turn(recording: &Recording, half: Half, p: Pass, k: u64, out: &mut [u64]) -> Pass
    requires { Turning recording.now half k p (length out.old) }
    ensures value { result ≡ turned recording.now.settings recording.now.samples.now k p }
    ensures out_after { out.new ≡ turned_out recording.now.settings recording.now.samples.now k p out.old }
{
    let m = recording.thresholds;
    let l = m.level(half);
    let seen = p.known;
    let a = visit(recording, Kind::Sag, m.sag, seen, k, p.sag, l, p.n, out);
    let b = visit(
        recording,
        Kind::Interruption,
        m.interruption,
        seen,
        k,
        p.interruption,
        l,
        a.n,
        out,
    );
    let c = visit(
        recording,
        Kind::Swell,
        m.swell,
        seen,
        k,
        p.swell,
        l,
        b.n,
        out,
    );
    Pass {
        known: l.is_some(),
        n: c.n,
        sag: a.pending,
        interruption: b.pending,
        swell: c.pending,
    }
}

// Nothing goes on before half-cycle 0.
fn start_pass() -> Pass
    ensures { result ≡ start_pass }
{
    Pass {
        known: false,
        n: 0,
        sag: None,
        interruption: None,
        swell: None,
    }
}

// After half-cycles at which nothing goes on, if there are any, nothing has changed but that the one before is known.
fn rest(p: Pass, any: bool) -> Pass
    ensures { result ≡ rested p any }
{
    Pass {
        known: p.known | any,
        ..p
    }
}

// Half-cycle k, whose first step is `step`, and the step after it. Half-cycle H, which does not exist, is unknown.
fn read_half(recording: &Recording, step: Half, k: u64) -> Read
    requires { Readable recording.now step k }
    ensures { (result.half ≡ half_at recording.now.settings recording.now.samples.now k) × (k < recording.now.halves → result.step ≡ step_at recording.now.settings recording.now.samples.now (k + 1)) }
{
    if k == recording.halves {
        return Read { half: None, step };
    }
    let next = recording.step_at(k + 1);
    Read {
        half: joined(step, next),
        step: next,
    }
}

// Half-cycles `from` to `to` by all three kinds.
fn write_run(recording: &Recording, p: Pass, from: u64, to: u64, out: &mut [u64]) -> Pass
    requires { Running recording.now from to p (length out.old) }
    ensures value { result ≡ turns recording.now.settings recording.now.samples.now from (to - from) p }
    ensures out_after { out.new ≡ turns_out recording.now.settings recording.now.samples.now from (to - from) p out.old }
{
    let mut pass = p;
    let mut step = recording.step_at(from);
    for k in from..to {
        let read = read_half(recording, step, k);
        pass = turn(recording, read.half, pass, k, out);
        step = read.step;
    }
    pass
}

// The first group from g on whose note is `noted`, or `groups`.
fn next_group(notes: &[bool; 25001], groups: u64, g: u64, noted: bool) -> u64
    requires { (g ≤ groups) × (groups ≤ 25001) }
    ensures { result ≡ first_not (λ i. differs (get_or notes.now i false) noted) g (groups - g) }
{
    for i in g..groups {
        if notes[i as usize] == noted {
            return i;
        }
    }
    groups
}

// The next groups that are noted, one behind the other, by all three kinds; in the groups before them nothing goes on.
fn write_next(recording: &Recording, notes: &[bool; 25001], at: Written, out: &mut [u64]) -> Written
    requires { WritingOn recording.now notes.now at.group at.pass (length out.old) }
    ensures { WrittenTo recording.now.settings recording.now.samples.now at.group at.pass out.old result out.new }
{
    let halves = recording.halves;
    let groups = halves / 4 + 1;
    let from = next_group(notes, groups, at.group, true);
    let to = next_group(notes, groups, from, false);
    let calm = rest(at.pass, at.group < from);
    let end = (4 * to).min(halves + 1);
    Written {
        pass: write_run(recording, calm, 4 * from, end, out),
        group: to,
    }
}

// Writes the events of an accepted recording over the front of `out`, which has room for them.
fn write_events(recording: &Recording, notes: &[bool; 25001], out: &mut [u64])
    requires { (recording_check recording.now.settings recording.now.samples.now ≡ Ok tt) × Noted recording.now.settings recording.now.samples.now notes.now × (length (flat (events_of recording.now.settings recording.now.samples.now)) ≤ length out.old) }
    ensures { out.new ≡ over (flat (events_of recording.now.settings recording.now.samples.now)) out.old }
{
    let mut at = Written {
        pass: start_pass(),
        group: 0,
    };
    while at.group < recording.halves / 4 + 1 {
        at = write_next(recording, notes, at, out);
    }
}

// The events of a recording of good length: counted, and written where there is room for all of them.
fn list_recording(recording: &Recording, out: &mut [u64]) -> Result<u64, Refusal>
    ensures value { result ≡ listed recording.now.settings recording.now.samples.now (length out.old) }
    ensures out_after { out.new ≡ written recording.now.settings recording.now.samples.now out.old }
{
    let mut notes = [false; 25001];
    let total = count_events(recording, &mut notes)?;
    let room = (out.len() / 11) as u64;
    if room < total {
        return Err(Refusal::Room(total));
    }
    write_events(recording, &notes, out);
    Ok(total)
}

// Lists the events of any recording into `out`, eleven numbers each, in order of start and then kind: how many there are, or the
// refusal. Numbers beyond the last event stay as they were, and a refusal writes nothing.
pub fn list(s: Settings, samples: &[i32], out: &mut [u64]) -> Result<u64, Refusal>
    ensures value { result ≡ listed s samples.now (length out.old) }
    ensures out_after { out.new ≡ written s samples.now out.old }
{
    let recording = Recording::new(s, samples)?;
    list_recording(&recording, out)
}
