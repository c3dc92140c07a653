// One machine for the three kinds: what a half-cycle does to the event of a kind that is going on.
#![tactic(auto)]

ghost use Rattle.std.specs.Prelude.{◌≡◌, true, IfSome, ◌+◌, ◌*◌, ◌≤◌};
ghost use Rattle.rules.specs.Recorder.{settings_good};
ghost use Rattle.rules.specs.Halves.{full as full_of};
ghost use Rattle.rules.specs.Events.{worse};
ghost use Rattle.kinds.specs.Machine.{marks_of, thresholds_of, level_from, short_by, peak_of, goes_by, class_of, outside, followed_by, in_some, launched, lasting, step_by, Marked, Few, Light};

use numbers::{add_sums, greatest, least};
use rules::{Half, Kind, Settings, Sums};

// The two marks of a kind, in the unit of 10,000 x S: an event begins past `from`, and ends back at `to`.
#[derive(Clone, Copy)]
pub struct Marks {
    pub from: u64,
    pub to: u64,
}

// N x R x R and the marks of the three kinds, worked out once a pass.
#[derive(Clone, Copy)]
pub struct Thresholds {
    pub full: u64,
    pub sag: Marks,
    pub interruption: Marks,
    pub swell: Marks,
}

// What the kinds ask of a known half-cycle, worked out once for all three: the least and the greatest S, `low` and `high` for them in
// the unit of the marks, and the shortfall of each channel.
#[derive(Clone, Copy)]
pub struct Level {
    pub least: u64,
    pub greatest: u64,
    pub low: u64,
    pub high: u64,
    pub short: Sums,
}

// The event of a kind that is going on: where it started and whether that was seen, its extreme so far, the earliest half-cycle
// of that, and the shortfall of each channel.
#[derive(Clone, Copy)]
pub struct Open {
    pub start: u64,
    pub seen: bool,
    pub extreme: u64,
    pub at: u64,
    pub short: Sums,
}

// Whether the half-cycle is in an event of the kind, where `inside` says it of the one before. An unknown one is in none.
pub fn goes_on(kind: Kind, m: Marks, inside: bool, level: Option<Level>) -> bool
    ensures { result ≡ goes_by kind m inside level }
{
    let Some(l) = level else {
        return false;
    };
    match kind {
        Kind::Sag => (l.low < m.from) | (inside & (l.low < m.to)),
        Kind::Interruption => (l.high < m.from) | (inside & (l.high < m.to)),
        Kind::Swell => (m.from < l.high) | (inside & (m.to < l.high)),
    }
}

// The kinds that a half-cycle is in an event of.
#[derive(Clone, Copy)]
pub struct Inside {
    pub sag: bool,
    pub interruption: bool,
    pub swell: bool,
}

impl Inside {
    // Before half-cycle 0 there is no event.
    pub fn none() -> Inside
        ensures { result ≡ outside }
    {
        Inside {
            sag: false,
            interruption: false,
            swell: false,
        }
    }

    // What the next half-cycle makes of them.
    pub fn next(self, m: Thresholds, l: Option<Level>) -> Inside
        ensures { result ≡ followed_by m self l }
    {
        Inside {
            sag: goes_on(Kind::Sag, m.sag, self.sag, l),
            interruption: goes_on(Kind::Interruption, m.interruption, self.interruption, l),
            swell: goes_on(Kind::Swell, m.swell, self.swell, l),
        }
    }

    // Whether there is one.
    pub fn any(self) -> bool
        ensures { result ≡ in_some self }
    {
        self.sag | self.interruption | self.swell
    }
}

// The classes of half-cycles, by their numbers.
#[derive(Clone, Copy)]
pub enum Class {
    Healthy = 1,
    Disturbed = 2,
    Unknown = 3,
}

impl Class {
    // `any` says whether the half-cycle is in an event.
    pub fn of(known: bool, any: bool) -> Class
        ensures { result ≡ class_of known any }
    {
        if !known {
            Class::Unknown
        } else if any {
            Class::Disturbed
        } else {
            Class::Healthy
        }
    }
}

// p percent, with `full` for N x R x R.
fn mark(full: u64, p: u64) -> u64
    requires { (full ≤ 1280000000000) × (p ≤ 200) }
    ensures { result ≡ p * p * full }
{
    p * p * full
}

// The marks of a kind.
fn marks_of(s: Settings, full: u64, kind: Kind) -> Marks
    requires { (settings_good s ≡ true) × (full ≡ full_of s) }
    ensures { result ≡ marks_of s kind }
{
    match kind {
        Kind::Sag => Marks {
            from: mark(full, s.sag),
            to: mark(full, s.sag + s.hysteresis),
        },
        Kind::Interruption => Marks {
            from: mark(full, s.interruption),
            to: mark(full, s.interruption + s.hysteresis),
        },
        Kind::Swell => Marks {
            from: mark(full, s.swell),
            to: mark(full, s.swell - s.hysteresis),
        },
    }
}

// What a pass needs of the settings.
pub fn thresholds_of(s: Settings) -> Thresholds
    requires { settings_good s ≡ true }
    ensures { result ≡ thresholds_of s }
{
    let full = checks::full_of(s);
    Thresholds {
        full,
        sag: marks_of(s, full, Kind::Sag),
        interruption: marks_of(s, full, Kind::Interruption),
        swell: marks_of(s, full, Kind::Swell),
    }
}

// The shortfall of a channel: nothing where it is not itself below the sag's mark.
fn short(full: u64, from: u64, sum: u64) -> u64
    requires { (sum ≤ 5120000000000) × (from ≤ 10000 * full) }
    ensures { result ≡ short_by full from sum }
{
    if 10000 * sum < from {
        return full - sum;
    }
    0
}

impl Thresholds {
    // What the kinds ask of a half-cycle, if it is known.
    pub fn level(self, half: Half) -> Option<Level>
        requires { Marked self × Few half }
        ensures { result ≡ level_from self.full self.sag.from half }
    {
        let v = half?;
        let least = least(v);
        let greatest = greatest(v);
        let full = self.full;
        let from = self.sag.from;
        Some(Level {
            least,
            greatest,
            low: 10000 * least,
            high: 10000 * greatest,
            short: Sums {
                a: short(full, from, v.a),
                b: short(full, from, v.b),
                c: short(full, from, v.c),
            },
        })
    }
}

// The level of the kind's extreme.
fn peak(kind: Kind, l: Level) -> u64
    ensures { result ≡ peak_of kind l }
{
    match kind {
        Kind::Sag | Kind::Interruption => l.least,
        Kind::Swell => l.greatest,
    }
}

// The worse of two levels.
fn worse_of(kind: Kind, x: u64, y: u64) -> u64
    ensures { result ≡ worse kind x y }
{
    match kind {
        Kind::Sag | Kind::Interruption => x.min(y),
        Kind::Swell => x.max(y),
    }
}

// An event starts at k.
fn launch(kind: Kind, seen: bool, k: u64, l: Level) -> Open
    ensures { result ≡ launched kind seen k l }
{
    Open {
        start: k,
        seen,
        extreme: peak(kind, l),
        at: k,
        short: l.short,
    }
}

// The event goes on at k.
fn last(kind: Kind, k: u64, o: Open, l: Level) -> Open
    requires { Light o.short × Light l.short }
    ensures { result ≡ lasting kind k o l }
{
    let extreme = worse_of(kind, o.extreme, peak(kind, l));
    Open {
        extreme,
        at: if extreme == o.extreme { o.at } else { k },
        short: add_sums(o.short, l.short),
        ..o
    }
}

// What half-cycle k makes of the event that is going on, if one is; `seen` says whether the half-cycle before it is known.
pub fn step(
    kind: Kind,
    m: Marks,
    seen: bool,
    k: u64,
    was: Option<Open>,
    level: Option<Level>,
) -> Option<Open>
    requires { IfSome was (λ o. Light o.short) × IfSome level (λ l. Light l.short) }
    ensures { result ≡ step_by kind m seen k was level }
{
    if !goes_on(kind, m, was.is_some(), level) {
        return None;
    }
    let l = level?;
    Some(match was {
        Some(o) => last(kind, k, o, l),
        None => launch(kind, seen, k, l),
    })
}
