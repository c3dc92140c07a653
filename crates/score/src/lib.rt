// The score of one event: its retained value, the reason why it has no score, severity and energy, and its cell.
#![tactic(auto)]

ghost use Rattle.std.specs.Prelude.{◌≡◌, true, ◌+◌, ◌*◌, ◌≤◌, ◌<◌};
ghost use Rattle.rules.specs.Recorder.{settings_good};
ghost use Rattle.rules.specs.Events.{retained_of};
ghost use Rattle.rules.specs.Scores.{in_bounds, sag_good, is_event, why_of, why_by, curve_of, severity_of, energy_of, score_of, scoring_by};
ghost use Rattle.rules.specs.Demands.{IsDown, half_or_more};
ghost use Rattle.rules.specs.Site.{cell_of};
ghost use Rattle.score.specs.Newton.{NotBelow, First, Nearer};

use borders::{cell_at, known_set, not_scored};
use checks::{full_of, settings_good};
use numbers::adds_up;
use rules::{Event, Reason, Score, Settings};

// A first guess at the root of q: one of Newton's steps from the power of two with half of q's digits, so that its division is a shift.
fn first_guess(q: u64) -> u64
    ensures { First q result }
{
    let half = (64 - u64::leading_zeros(q)) / 2;
    ((1u64 << half) + (q >> half)) / 2
}

// A guess nearer to the root of q: one of Newton's steps down from r. The root itself stays.
fn nearer(q: u64, r: u64) -> u64
    requires { (r < 4294967296) × NotBelow q r }
    ensures { Nearer q r result }
{
    if r * r <= q {
        return r;
    }
    (r + q / r) / 2
}

// The root of a number below the square of 100,001, rounded down. From the first guess three steps are enough; small numbers take fewer.
fn root(q: u64) -> u64
    requires { q < 10000200001 }
    ensures { (result * result ≤ q) × (q < (result + 1) * (result + 1)) }
{
    nearer(q, nearer(q, nearer(q, first_guess(q))))
}

// Whether 1000 V / R of an extreme, which is d rounded down, is at least d + 1/2, with m for N x R x R. 4,000,000 x S need not fit in
// 64 bits; four times the rest does.
fn half_or_more(m: u64, extreme: u64, d: u64) -> bool
    requires { (m ≤ 1280000000000) × (extreme ≤ 5120000000000) × (d ≤ 100000) × IsDown m extreme d }
    ensures { result ≡ half_or_more m extreme d }
{
    let rest = 1000000 * extreme - d * d * m;
    (4 * d + 1) * m <= 4 * rest
}

// The retained value of an extreme: 1000 V / R to the nearest whole number, halves upward.
pub fn retained(s: Settings, extreme: u64) -> u64
    requires { (settings_good s ≡ true) × (extreme ≤ s.n * 10000000000) }
    ensures { result ≡ retained_of s extreme }
{
    let m = full_of(s);
    let d = root(1000000 * extreme / m);
    d + half_or_more(m, extreme, d) as u64
}

// Whether each number of an event of any kind is in its range.
#[tactic(auto, unfolding(rules::specs::Scores::in_bounds))]
fn in_bounds(s: Settings, e: Event) -> bool
    requires { settings_good s ≡ true }
    ensures { result ≡ in_bounds s e }
{
    1 <= e.kind
        && e.kind <= 3
        && e.start < e.end
        && e.end <= 100000
        && e.seen <= 3
        && e.extreme <= s.n * 10000000000
}

// What holds of a sag besides.
#[tactic(auto, unfolding(rules::specs::Scores::sag_good, rules::specs::Halves::below))]
fn sag_good(s: Settings, e: Event) -> bool
    requires { (settings_good s ≡ true) × (in_bounds s e ≡ true) }
    ensures { result ≡ sag_good s e }
{
    let m = full_of(s);
    let h = e.end - e.start;
    10000 * e.extreme < s.sag * s.sag * m && e.shortfall <= 3 * m * h && e.class <= 6
}

// Whether the eleven numbers are an event.
#[tactic(auto, unfolding(rules::specs::Scores::is_event))]
fn is_event(s: Settings, e: Event) -> bool
    requires { settings_good s ≡ true }
    ensures { result ≡ is_event s e }
{
    if !in_bounds(s, e) {
        return false;
    }
    let made_up = adds_up(e.shortfall, e.parts.a, e.parts.b, e.parts.c);
    let by_kind = if e.kind == 1 {
        sag_good(s, e)
    } else {
        e.shortfall == 0 && e.class == 0
    };
    e.retained == retained(s, e.extreme) && made_up && by_kind
}

// Why the event has no score, whatever the borders.
#[tactic(auto, unfolding(rules::specs::Scores::why_of))]
fn reason_of(s: Settings, e: Event) -> Option<Reason>
    ensures { result ≡ why_of s e }
{
    if !settings_good(s) {
        return Some(Reason::BadSettings);
    }
    if !is_event(s, e) {
        return Some(Reason::NotAnEvent);
    }
    if e.kind != 1 {
        return Some(Reason::NotASag);
    }
    match e.seen {
        3 => None,
        2 => Some(Reason::StartUnseen),
        1 => Some(Reason::EndUnseen),
        _ => Some(Reason::BothUnseen),
    }
}

// Why the event has no score under a set of borders: an unknown one is as bad settings.
#[tactic(auto, unfolding(rules::specs::Scores::why_by))]
pub fn reason(s: Settings, set: u64, e: Event) -> Option<Reason>
    ensures { result ≡ why_by s set e }
{
    if !known_set(set) {
        return Some(Reason::BadSettings);
    }
    reason_of(s, e)
}

// The curve value at h half-cycles.
fn curve(f: u64, h: u64) -> u64
    requires { (f ≤ 60) × (h ≤ 100000) }
    ensures { result ≡ curve_of f h }
{
    if h <= 2 {
        return 0;
    }
    if 5 * h <= 2 * f {
        return 500;
    }
    if h <= f {
        return 700;
    }
    if h <= 20 * f {
        return 800;
    }
    900
}

// The retained value against the curve: one division of two whole numbers.
fn severity(r: u64, c: u64) -> f64
    requires { (r ≤ 1000) × (c ≤ 900) }
    ensures { result ≡ severity_of r c }
{
    (1000 - r) as f64 / (1000 - c) as f64
}

// Whole milliseconds, then seconds. 1000 x shortfall need not fit, so the whole seconds and the rest go by themselves.
fn energy(s: Settings, shortfall: u64) -> f64
    requires { settings_good s ≡ true }
    ensures { result ≡ energy_of s shortfall }
{
    let d = full_of(s) * (2 * s.f);
    let whole = shortfall / d;
    let rest = shortfall % d;
    let millis = whole * 1000 + rest * 1000 / d;
    millis as f64 / 1000.0
}

// The score of an event that has one.
fn scored(s: Settings, e: Event) -> Score
    requires { why_of s e ≡ None }
    ensures { result ≡ score_of s e }
{
    let severity = severity(e.retained, curve(s.f, e.end - e.start));
    let energy = energy(s, e.shortfall);
    Score { severity, energy }
}

// The score of an event, or the reason why there is none, under a set of borders.
#[tactic(auto, unfolding(rules::specs::Scores::scoring_by))]
pub fn score_of(s: Settings, set: u64, e: Event) -> Result<Score, Reason>
    ensures { result ≡ scoring_by s set e }
{
    match reason(s, set, e) {
        None => Ok(scored(s, e)),
        Some(why) => Err(why),
    }
}

// The cell of an event by a set of borders: one above the last where it is not scored.
#[tactic(auto, unfolding(rules::specs::Site::cell_of))]
pub fn cell(s: Settings, set: u64, e: Event) -> u64
    ensures { result ≡ cell_of s set e }
{
    match reason(s, set, e) {
        None => cell_at(s, set, e.extreme, e.end - e.start),
        Some(_) => not_scored(set),
    }
}
