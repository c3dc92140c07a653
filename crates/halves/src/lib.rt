// Half-cycles. A recording is a row of steps, half a cycle of samples of each channel, and each is summed once: half-cycle k is
// steps k and k + 1, unknown where one of them lacks a sample, and else their sums added.
#![tactic(auto)]

ghost use Rattle.std.specs.Prelude.{◌≡◌, suc, ◌+◌, ◌*◌, ◌/◌, ◌%◌, ◌≤◌, true, length, Ok, Err, MatchResult};
ghost use Rattle.rules.specs.Recorder.{settings_good, first_bad};
ghost use Rattle.rules.specs.declared.Refusal.TheVariants.{Sample};
ghost use Rattle.rules.specs.Halves.{square, begin, halves_of};
ghost use Rattle.rules.specs.Refusals.{settings_check, recording_check, and_then};
ghost use Rattle.checks.specs.Flags.{all_in_range, RangedBelow, shape_check};
ghost use Rattle.kinds.specs.Machine.{thresholds_of};
ghost use Rattle.halves.specs.Steps.{part, window, step_run, step_in, step_at, joined_of, Addable};

use checks::{all_in_range, check, check_shape, count_halves, first_bad, is_too_high, is_too_low};
use kinds::{Thresholds, thresholds_of};
use numbers::add_sums;
use rules::{Half, Refusal, Settings, Sums};

// The square of any i32, at most 2 ^ 62.
pub fn square(x: i32) -> u64
    ensures { result ≡ square x }
{
    let y = x as i64;
    (y * y) as u64
}

// The part of a recording that has `many` samples of each channel, from sample `from` on.
fn part_of<'a>(samples: &'a [i32], from: u64, many: u64) -> &'a [i32]
    requires { 3 * from + 3 * many ≤ length samples.now }
    ensures { result.now ≡ part samples.now from many }
{
    let start = (3 * from) as usize;
    let end = start + (3 * many) as usize;
    &samples[start..end]
}

// The window of half-cycle k: N samples of each channel from sample k x N/2.
pub fn window_at<'a>(s: Settings, samples: &'a [i32], k: u64) -> &'a [i32]
    requires { 3 * begin s k + 3 * s.n ≤ length samples.now }
    ensures { result.now ≡ window s samples.now k }
{
    let n = s.n;
    part_of(samples, k * (n / 2), n)
}

// A step's three sums of squares; unknown where a sample is missing, or bad. One pass, with no branch: the sums may wrap where a sample
// lies outside the limits, and the lowest and the highest, 0 among them, tell whether one does.
fn step_of(w: &[i32]) -> Half
    requires few { length w.now ≤ 768 }
    requires threes { length w.now % 3 ≡ 0 }
    ensures { result ≡ step_in w.now }
{
    let n = w.len() / 3;
    let mut a: u64 = 0;
    let mut b: u64 = 0;
    let mut c: u64 = 0;
    let mut low: i32 = 0;
    let mut high: i32 = 0;
    for i in 0..n {
        let x = w[3 * i];
        let y = w[3 * i + 1];
        let z = w[3 * i + 2];
        low = low.min(x).min(y.min(z));
        high = high.max(x).max(y.max(z));
        a = a.wrapping_add(square(x));
        b = b.wrapping_add(square(y));
        c = c.wrapping_add(square(z));
    }
    if is_too_low(low) | is_too_high(high) {
        return None;
    }
    Some(Sums { a, b, c })
}

// A recording of good length: its settings are each in their range, and nothing in its length is refused. How many half-cycles it has,
// and the thresholds that its settings make, are worked out once.
#[derive(Clone, Copy)]
pub struct Recording<'a> {
    pub settings: Settings,
    pub samples: &'a [i32],
    pub halves: u64,
    pub thresholds: Thresholds,
    ghost good: { settings_good settings ≡ true },
    ghost shaped: { shape_check settings samples.now ≡ Ok tt },
    ghost counted: { halves ≡ halves_of settings samples.now },
    ghost marked: { thresholds ≡ thresholds_of settings },
}

impl<'a> Recording<'a> {
    // Refusals 1 to 5, in their order.
    pub fn new(settings: Settings, samples: &'a [i32]) -> Result<Recording<'a>, Refusal>
        ensures { MatchResult result (λ r. (r.settings ≡ settings) × (r.samples.now ≡ samples.now) × (and_then (settings_check settings) (shape_check settings samples.now) ≡ Ok tt)) (λ q. and_then (settings_check settings) (shape_check settings samples.now) ≡ Err q) }
    {
        check(settings, samples)?;
        Ok(Recording::accepted(settings, samples))
    }

    // Refusals 2 to 5, where the settings are known to be good.
    pub fn with_good_settings(
        settings: Settings,
        samples: &'a [i32],
    ) -> Result<Recording<'a>, Refusal>
        requires { settings_good settings ≡ true }
        ensures { MatchResult result (λ r. (r.settings ≡ settings) × (r.samples.now ≡ samples.now) × (shape_check settings samples.now ≡ Ok tt)) (λ q. shape_check settings samples.now ≡ Err q) }
    {
        check_shape(settings, samples)?;
        Ok(Recording::accepted(settings, samples))
    }

    // The recording of settings and a length that are not refused.
    fn accepted(settings: Settings, samples: &'a [i32]) -> Recording<'a>
        requires { (settings_good settings ≡ true) × (shape_check settings samples.now ≡ Ok tt) }
        ensures { (result.settings ≡ settings) × (result.samples.now ≡ samples.now) }
    {
        Recording {
            settings,
            samples,
            halves: count_halves(settings, samples),
            thresholds: thresholds_of(settings),
        }
    }

    // The samples of step j: N/2 of each channel from sample j x N/2.
    fn run_of_step(&self, j: u64) -> &'a [i32]
        requires { j ≤ self.now.halves }
        ensures { result.now ≡ step_run self.now.settings self.now.samples.now j }
    {
        let n = self.settings.n;
        part_of(self.samples, j * (n / 2), n / 2)
    }

    // Step j. There are H + 1 of them.
    pub fn step_at(&self, j: u64) -> Half
        requires { j ≤ self.now.halves }
        ensures { result ≡ step_at self.now.settings self.now.samples.now j }
    {
        step_of(self.run_of_step(j))
    }

    // Whether step j, which was found as `step`, has no bad sample: it is looked at again only where it is unknown.
    pub fn step_in_range(&self, j: u64, step: Half) -> bool
        requires { (j ≤ self.now.halves) × (step ≡ step_at self.now.settings self.now.samples.now j) }
        ensures { result ≡ all_in_range (step_run self.now.settings self.now.samples.now j) }
    {
        step.is_some() || all_in_range(self.run_of_step(j))
    }

    // Refusal 6, where step j, which was found as `step`, has a bad sample and none before it has.
    pub fn check_step(&self, j: u64, step: Half) -> Result<(), Refusal>
        requires { (j ≤ self.now.halves) × (step ≡ step_at self.now.settings self.now.samples.now j) × RangedBelow self.now.samples.now (3 * begin self.now.settings j) }
        ensures { MatchResult result (λ u. RangedBelow self.now.samples.now (3 * begin self.now.settings (suc j))) (λ q. recording_check self.now.settings self.now.samples.now ≡ Err q) }
    {
        if self.step_in_range(j, step) {
            Ok(())
        } else {
            Err(bad_sample(self.settings, self.samples, j))
        }
    }
}

// Refusal 6, where a sample is bad and none before step j is.
pub fn bad_sample(s: Settings, samples: &[i32], j: u64) -> Refusal
    requires { (3 * begin s j ≤ length samples.now) × RangedBelow samples.now (3 * begin s j) }
    ensures { result ≡ Sample (first_bad samples.now) }
{
    let n = s.n;
    Refusal::Sample(first_bad(samples, (3 * (j * (n / 2))) as usize) as u64)
}

// The half-cycle of two steps.
pub fn joined(p: Half, q: Half) -> Half
    requires { Addable p × Addable q }
    ensures { result ≡ joined_of p q }
{
    Some(add_sums(p?, q?))
}
