// The survey of a recording: one pass over its half-cycles that counts all that a site table holds.
#![tactic(auto)]

ghost use Rattle.std.specs.Prelude.{ℕ, suc, ◌≡◌, ◌≤◌, ◌<◌, true, Ok, Err, MatchResult, replicate};
ghost use Rattle.rules.specs.Borders.{known_set};
ghost use Rattle.rules.specs.Refusals.{recording_check};
ghost use Rattle.rules.specs.Site.{empty, grown};
ghost use Rattle.halves.specs.Steps.{step_at};
ghost use Rattle.kinds.specs.Machine.{Light};
ghost use Rattle.survey.specs.Pass.{Clear, Reached, table_with};

use halves::{Recording, joined};
use ledger::{Landed, Survey, is_open, land, pass_over, start_survey, survey_turn};
use quiet::calm_from;
use rules::{Half, Refusal, Settings, Sums, Table};

// How far the pass has come: the survey before half-cycle k, and that one's first step, which is in range.
#[derive(Clone, Copy)]
pub struct Surveyed {
    pub survey: Survey,
    pub step: Half,
    pub k: u64,
}

// The pass before half-cycle 0.
fn survey_start(recording: &Recording) -> Result<Surveyed, Refusal>
    ensures { MatchResult result (λ on. (set : ℕ) → Reached recording.now set on (replicate 40 0)) (λ q. recording_check recording.now.settings recording.now.samples.now ≡ Err q) }
{
    let step = recording.step_at(0);
    recording.check_step(0, step)?;
    Ok(Surveyed {
        survey: start_survey(),
        step,
        k: 0,
    })
}

// Surveys on: the quiet half-cycles are passed over, and the machine takes the next.
fn survey_next(
    recording: &Recording,
    set: u64,
    on: Surveyed,
    cells: &mut [u64; 40],
) -> Result<Surveyed, Refusal>
    requires { (known_set set ≡ true) × (on.k < recording.now.halves) × Reached recording.now set on cells.old }
    ensures { MatchResult result (λ then. (on.k < then.k) × Reached recording.now set then cells.new) (λ q. recording_check recording.now.settings recording.now.samples.now ≡ Err q) }
{
    let calm = calm_from(recording, is_open(on.survey.track), on.k, on.step);
    let k = calm.k;
    let survey = pass_over(on.survey, k - on.k);
    if k == recording.halves {
        return Ok(Surveyed {
            survey,
            step: calm.step,
            k,
        });
    }
    recording.check_step(k + 1, calm.next)?;
    let half = joined(calm.step, calm.next);
    Ok(Surveyed {
        survey: survey_turn(
            recording.settings,
            set,
            recording.thresholds,
            half,
            survey,
            k,
            cells,
        ),
        step: calm.next,
        k: k + 1,
    })
}

// A table of the settings and the set of borders with every count 0.
pub fn empty_table(s: Settings, set: u64) -> Table
    ensures { result ≡ empty s set }
{
    Table {
        settings: s,
        set,
        total: 0,
        healthy: 0,
        disturbed: 0,
        unknown: 0,
        cells: [0; 40],
        unplaced: 0,
        sags: 0,
        interruptions: 0,
        swells: 0,
        shortfall: 0,
        parts: Sums { a: 0, b: 0, c: 0 },
    }
}

// The table of the numbers counted.
fn table_with(
    s: Settings,
    set: u64,
    halves: u64,
    p: Survey,
    landed: Landed,
    cells: [u64; 40],
) -> Table
    requires { Light landed.parts }
    ensures { result ≡ table_with s set halves p landed cells }
{
    let parts = landed.parts;
    Table {
        settings: s,
        set,
        total: halves,
        healthy: p.classes.healthy,
        disturbed: p.classes.disturbed,
        unknown: p.classes.unknown,
        cells,
        unplaced: landed.unplaced,
        sags: p.starts.sags,
        interruptions: p.starts.interruptions,
        swells: p.starts.swells,
        shortfall: parts.a + parts.b + parts.c,
        parts,
    }
}

// The table of a recording of good length by a set of borders, or refusal 6, which is told as soon as a bad sample is met.
// Half-cycle H, which does not exist, ends a sag that is still going on.
pub fn table_of(recording: &Recording, set: u64) -> Result<Table, Refusal>
    requires { known_set set ≡ true }
    ensures { MatchResult result (λ t. (recording_check recording.now.settings recording.now.samples.now ≡ Ok tt) × (t ≡ grown (empty recording.now.settings set) recording.now.samples.now)) (λ q. recording_check recording.now.settings recording.now.samples.now ≡ Err q) }
{
    let halves = recording.halves;
    let mut cells: [u64; 40] = [0; 40];
    let mut on = survey_start(recording)?;
    while on.k < halves {
        on = survey_next(recording, set, on, &mut cells)?;
    }
    let p = on.survey;
    let landed = land(
        recording.settings,
        set,
        p.landed,
        p.track.sag,
        halves,
        false,
        &mut cells,
    );
    Ok(table_with(recording.settings, set, halves, p, landed, cells))
}
