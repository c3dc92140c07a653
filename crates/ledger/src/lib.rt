// The ledger of a recording while it is surveyed: what goes on and what is counted so far, and what a half-cycle, a sag's end and a
// quiet stretch make of it.
#![tactic(auto)]

ghost use Rattle.std.specs.Prelude.{◌≡◌, IfSome, ◌+◌, ◌≤◌};
ghost use Rattle.rules.specs.Bounded.{bit};
ghost use Rattle.kinds.specs.Machine.{Light};
ghost use Rattle.ledger.specs.Entries.{tracked_by, classed_by, started_by, ended_by, placed_by, landed_by, cells_by, Placeable, Landable, Turnable, surveyed_by, cells_turned, going_on, passed_over, start_survey};

use borders::cell_at;
use kinds::{Class, Level, Open, Thresholds, goes_on, step};
use numbers::add_sums;
use rules::{Half, Kind, Settings, Sums};

// What goes on before a half-cycle: whether the one before is known, the sag if one is, whether an interruption or a swell is.
#[derive(Clone, Copy)]
pub struct Track {
    pub known: bool,
    pub sag: Option<Open>,
    pub interruption: bool,
    pub swell: bool,
}

// Half-cycles by their class.
#[derive(Clone, Copy)]
pub struct Classes {
    pub healthy: u64,
    pub disturbed: u64,
    pub unknown: u64,
}

// Events that have started, by kind.
#[derive(Clone, Copy)]
pub struct Starts {
    pub sags: u64,
    pub interruptions: u64,
    pub swells: u64,
}

// What is told when a sag ends: sags that go in no cell, and the shortfall of each channel.
#[derive(Clone, Copy)]
pub struct Landed {
    pub unplaced: u64,
    pub parts: Sums,
}

// What the pass holds before a half-cycle: what goes on, and what is counted so far.
#[derive(Clone, Copy)]
pub struct Survey {
    pub track: Track,
    pub classes: Classes,
    pub starts: Starts,
    pub landed: Landed,
}

// One more where it holds.
fn bump(n: u64, yes: bool) -> u64
    requires { n ≤ 4000000 }
    ensures { result ≡ n + bit yes }
{
    n + u64::from(yes)
}

// What goes on after half-cycle k.
fn follow(m: Thresholds, k: u64, t: Track, level: Option<Level>) -> Track
    requires { IfSome t.sag (λ o. Light o.short) × IfSome level (λ l. Light l.short) }
    ensures { result ≡ tracked_by m k t level }
{
    Track {
        known: level.is_some(),
        sag: step(Kind::Sag, m.sag, t.known, k, t.sag, level),
        interruption: goes_on(Kind::Interruption, m.interruption, t.interruption, level),
        swell: goes_on(Kind::Swell, m.swell, t.swell, level),
    }
}

// The half-cycle's class counted: `any` says whether it is in an event.
fn classify(c: Classes, known: bool, any: bool) -> Classes
    requires { (c.healthy ≤ 4000000) × (c.disturbed ≤ 4000000) × (c.unknown ≤ 4000000) }
    ensures { result ≡ classed_by c known any }
{
    match Class::of(known, any) {
        Class::Healthy => Classes {
            healthy: c.healthy + 1,
            ..c
        },
        Class::Disturbed => Classes {
            disturbed: c.disturbed + 1,
            ..c
        },
        Class::Unknown => Classes {
            unknown: c.unknown + 1,
            ..c
        },
    }
}

// The events that start counted.
fn count_starts(n: Starts, was: Track, is: Track) -> Starts
    requires { (n.sags ≤ 4000000) × (n.interruptions ≤ 4000000) × (n.swells ≤ 4000000) }
    ensures { result ≡ started_by n was is }
{
    Starts {
        sags: bump(n.sags, is.sag.is_some() & was.sag.is_none()),
        interruptions: bump(n.interruptions, is.interruption & !was.interruption),
        swells: bump(n.swells, is.swell & !was.swell),
    }
}

// The sag that a half-cycle ends: the one that went on before it, where none goes on after it.
fn ended(was: Option<Open>, is: Option<Open>) -> Option<Open>
    ensures { result ≡ ended_by was is }
{
    match is {
        Some(_) => None,
        None => was,
    }
}

// A sag that half-cycle `end` ends: with both ends seen, its cell by the set of borders has one more.
fn place(s: Settings, set: u64, o: Open, end: u64, known: bool, cells: &mut [u64; 40])
    requires { Placeable s set o end cells.old }
    ensures { cells.new ≡ placed_by s set o end known cells.old }
{
    if o.seen & known {
        let c = cell_at(s, set, o.extreme, end - o.start) as usize;
        cells[c] += 1;
    }
}

// What the sag adds that half-cycle k, known or not, ends; nothing where it ends none.
pub fn land(
    s: Settings,
    set: u64,
    n: Landed,
    ended: Option<Open>,
    k: u64,
    known: bool,
    cells: &mut [u64; 40],
) -> Landed
    requires { IfSome ended (λ o. Landable s set n o k cells.old) }
    ensures value { result ≡ landed_by n ended known }
    ensures cells_after { cells.new ≡ cells_by s set ended k known cells.old }
{
    let Some(o) = ended else {
        return n;
    };
    place(s, set, o, k, known, cells);
    Landed {
        unplaced: bump(n.unplaced, !(o.seen & known)),
        parts: add_sums(n.parts, o.short),
    }
}

// Half-cycle k for all kinds and all counts.
pub fn survey_turn(
    s: Settings,
    set: u64,
    m: Thresholds,
    half: Half,
    p: Survey,
    k: u64,
    cells: &mut [u64; 40],
) -> Survey
    requires { Turnable s set m half p k cells.old }
    ensures value { result ≡ surveyed_by m half p k }
    ensures cells_after { cells.new ≡ cells_turned s set m half p k cells.old }
{
    let level = m.level(half);
    let known = level.is_some();
    let was = p.track;
    let is = follow(m, k, was, level);
    Survey {
        track: is,
        classes: classify(p.classes, known, is_open(is)),
        starts: count_starts(p.starts, was, is),
        landed: land(s, set, p.landed, ended(was.sag, is.sag), k, known, cells),
    }
}

// Before half-cycle 0 nothing goes on, and nothing is counted.
pub fn start_survey() -> Survey
    ensures { result ≡ start_survey }
{
    Survey {
        track: Track {
            known: false,
            sag: None,
            interruption: false,
            swell: false,
        },
        classes: Classes {
            healthy: 0,
            disturbed: 0,
            unknown: 0,
        },
        starts: Starts {
            sags: 0,
            interruptions: 0,
            swells: 0,
        },
        landed: Landed {
            unplaced: 0,
            parts: Sums { a: 0, b: 0, c: 0 },
        },
    }
}

// Whether an event is going on.
pub fn is_open(t: Track) -> bool
    ensures { result ≡ going_on t }
{
    t.sag.is_some() | t.interruption | t.swell
}

// The survey after so many half-cycles more at which nothing goes on: they are healthy, and the last of them is known.
pub fn pass_over(p: Survey, more: u64) -> Survey
    requires { (p.classes.healthy ≤ 4000000) × (more ≤ 4000000) }
    ensures { result ≡ passed_over p more }
{
    Survey {
        track: Track {
            known: p.track.known | (0 < more),
            ..p.track
        },
        classes: Classes {
            healthy: p.classes.healthy + more,
            ..p.classes
        },
        ..p
    }
}
