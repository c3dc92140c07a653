// What the recorder hands over, checked: refusals 1 to 5, the tests of a sample for refusal 6; N x R x R, and how many half-cycles there
// are.
#![tactic(auto)]

ghost use Rattle.std.specs.Prelude.{◌≡◌, true, cond, ◌≤◌, length};
ghost use Rattle.rules.specs.Recorder.{bad_setting, settings_good, missing, in_range, first_bad};
ghost use Rattle.rules.specs.Halves.{full, halves_of};
ghost use Rattle.rules.specs.Refusals.{settings_check, and_then};
ghost use Rattle.checks.specs.Flags.{too_low, too_high, all_in_range, RangedBelow, shape_check};

use numbers::{quotient, remainder};
use rules::{Refusal, Settings};

// The number of the first setting that is outside its range, if there is one.
pub fn first_bad_setting(s: Settings) -> Option<u64>
    ensures { result ≡ cond (settings_good s) None (Some (bad_setting s)) }
{
    let even = s.n % 2 == 0;
    let n = (8 <= s.n) & (s.n <= 512) & even;
    let r = (1000 <= s.r) & (s.r <= 50000);
    let f = (s.f == 50) | (s.f == 60);
    let sag = (50 <= s.sag) & (s.sag <= 95);
    let interruption = (1 <= s.interruption) & (s.interruption <= 20);
    let swell = (105 <= s.swell) & (s.swell <= 150);
    let hysteresis = s.hysteresis <= 5;
    if !n {
        return Some(1);
    }
    if !r {
        return Some(2);
    }
    if !f {
        return Some(3);
    }
    if !sag {
        return Some(4);
    }
    if !interruption {
        return Some(5);
    }
    if !swell {
        return Some(6);
    }
    if !hysteresis {
        return Some(7);
    }
    None
}

// Whether every setting is in its range.
pub fn settings_good(s: Settings) -> bool
    ensures { result ≡ settings_good s }
{
    first_bad_setting(s).is_none()
}

// N x R x R.
pub fn full_of(s: Settings) -> u64
    requires { settings_good s ≡ true }
    ensures { result ≡ full s }
{
    s.n * s.r * s.r
}

// Refusal 1.
pub fn check_settings(s: Settings) -> Result<(), Refusal>
    ensures { result ≡ settings_check s }
{
    match first_bad_setting(s) {
        None => Ok(()),
        Some(i) => Err(Refusal::Setting(i)),
    }
}

// H, how many half-cycles a recording has.
pub fn count_halves(s: Settings, samples: &[i32]) -> u64
    ensures { result ≡ halves_of s samples.now }
{
    let per_channel = (samples.len() / 3) as u64;
    let steps = quotient(2 * per_channel, s.n);
    if steps == 0 {
        return 0;
    }
    steps - 1
}

// The one value that means "missing".
const MISSING: i32 = -2147483648;

// How far from 0 a sample may lie.
const LIMIT: i32 = 100000;

// Whether a sample is missing.
fn is_missing(x: i32) -> bool
    ensures { result ≡ missing x }
{
    x == MISSING
}

// Whether a sample lies below the limits: it is missing, or bad.
pub fn is_too_low(x: i32) -> bool
    ensures { result ≡ too_low x }
{
    x < -LIMIT
}

// Whether a sample lies above the limits: it is bad.
pub fn is_too_high(x: i32) -> bool
    ensures { result ≡ too_high x }
{
    LIMIT < x
}

// Whether a sample is in range, or missing.
fn is_in_range(x: i32) -> bool
    ensures { result ≡ in_range x }
{
    is_missing(x) | !(is_too_low(x) | is_too_high(x))
}

// Whether every sample is in range: one pass of flags, with no branch.
pub fn all_in_range(samples: &[i32]) -> bool
    ensures { result ≡ all_in_range samples.now }
{
    let mut good = true;
    for x in samples {
        good &= is_in_range(*x);
    }
    good
}

// The index of the first sample that is out of range, where none before index `from` is; the length where there is none.
pub fn first_bad(samples: &[i32], from: usize) -> usize
    requires { (from ≤ length samples.now) × RangedBelow samples.now from }
    ensures { result ≡ first_bad samples.now }
{
    for i in from..samples.len() {
        if !is_in_range(samples[i]) {
            return i;
        }
    }
    samples.len()
}

// Refusals 2 to 5, in their order: all that the length says. Refusal 6 comes out of the pass that reads the samples.
pub fn check_shape(s: Settings, samples: &[i32]) -> Result<(), Refusal>
    ensures { result ≡ shape_check s samples.now }
{
    let n = s.n;
    let per_channel = (samples.len() / 3) as u64;
    if samples.len() % 3 != 0 {
        return Err(Refusal::Uneven);
    }
    if per_channel < n {
        return Err(Refusal::Short);
    }
    if remainder(per_channel, n / 2) != 0 {
        return Err(Refusal::Ragged);
    }
    if count_halves(s, samples) > 100000 {
        return Err(Refusal::Long);
    }
    Ok(())
}

// Refusals 1 to 5, in their order.
pub fn check(s: Settings, samples: &[i32]) -> Result<(), Refusal>
    ensures { result ≡ and_then (settings_check s) (shape_check s samples.now) }
{
    check_settings(s)?;
    check_shape(s, samples)
}
