// The site table: fresh for its settings, and grown by a recording.
#![tactic(auto)]

ghost use Rattle.std.specs.Prelude.{◌≡◌, true, false, Ok, Err, ◌&&◌, ◌||◌, ℕ, ◌+◌, ◌≤◌, min as lesser, eqb, drop, get_or};
ghost use Rattle.std.specs.List.{fold, list_all};
ghost use Rattle.rules.specs.Bounded.{all};
ghost use Rattle.rules.specs.Borders.{known_set, borders_of};
ghost use Rattle.rules.specs.Site.{unused_zero, total, cells_from, zero_settings, is_unsound};
ghost use Rattle.rules.specs.Refusals.{settings_check, set_check, and_then, freshened, added};
ghost use Rattle.rules.specs.declared.Site.{Site as Handed};
ghost use Rattle.site.specs.Merging.{Mergeable, merged, Adding, added_to};

use borders::{check_set, known_set, not_scored};
use checks::{check_settings, full_of, settings_good};
use halves::Recording;
use numbers::{add_sums, added, adds_up};
use rules::{Refusal, Settings, Site, Table};
use survey::{empty_table, table_of};

// The sum of the cells, or the largest number there is.
fn cells_sum(cells: [u64; 40]) -> u64
    ensures { result ≡ fold (λ sum cell. lesser (sum + cell) u64.MAX) 0 cells }
{
    cells.iter().fold(0, |sum, cell| sum.saturating_add(*cell))
}

// Whether the cells and the unplaced ones make up the sags.
fn sags_add_up(cells: [u64; 40], unplaced: u64, sags: u64) -> bool
    requires { sags ≤ 4000000 }
    ensures { result ≡ eqb (total cells + unplaced) sags }
{
    if sags < unplaced {
        return false;
    }
    cells_sum(cells) == sags - unplaced
}

// Whether the cells from `used` on are all 0.
fn unused_zero(cells: [u64; 40], used: u64) -> bool
    ensures { result ≡ list_all (λ cell. eqb cell 0) (drop used cells) }
{
    cells.iter().skip(used as usize).all(|cell| *cell == 0)
}

// Whether a set of borders is known, and the cells that it does not use are 0.
fn set_fits(set: u64, cells: [u64; 40]) -> bool
    ensures { (s : Settings) → result ≡ (known_set set && unused_zero (borders_of s set) cells) }
{
    if !known_set(set) {
        return false;
    }
    unused_zero(cells, not_scored(set))
}

// Refusal 9 for any numbers, of a table whose set fits: each number is bounded before it is added to another.
fn miscounted(t: Table) -> bool
    requires { (known_set t.set && unused_zero (borders_of t.settings t.set) t.cells) ≡ true }
    ensures { result ≡ is_unsound t }
{
    if !settings_good(t.settings) {
        return true;
    }
    if 4000000 < t.total {
        return true;
    }
    if (t.total < t.sags) | (t.total < t.interruptions) | (t.total < t.swells) {
        return true;
    }
    if !adds_up(t.total, t.healthy, t.disturbed, t.unknown) {
        return true;
    }
    if !sags_add_up(t.cells, t.unplaced, t.sags) {
        return true;
    }
    if !adds_up(t.shortfall, t.parts.a, t.parts.b, t.parts.c) {
        return true;
    }
    3 * full_of(t.settings) * t.total < t.shortfall
}

// Refusal 9, for any numbers.
fn is_unsound(t: Table) -> bool
    ensures { result ≡ is_unsound t }
{
    if !set_fits(t.set, t.cells) {
        return true;
    }
    miscounted(t)
}

// Two tables' numbers added.
fn merge(t: Table, u: Table) -> Table
    requires { Mergeable t u }
    ensures { result ≡ merged t u }
{
    Table {
        total: t.total + u.total,
        healthy: t.healthy + u.healthy,
        disturbed: t.disturbed + u.disturbed,
        unknown: t.unknown + u.unknown,
        cells: added(t.cells, u.cells),
        unplaced: t.unplaced + u.unplaced,
        sags: t.sags + u.sags,
        interruptions: t.interruptions + u.interruptions,
        swells: t.swells + u.swells,
        shortfall: t.shortfall + u.shortfall,
        parts: add_sums(t.parts, u.parts),
        ..t
    }
}

fn no_settings() -> Settings
    ensures { result ≡ zero_settings }
{
    Settings {
        n: 0,
        r: 0,
        f: 0,
        sag: 0,
        interruption: 0,
        swell: 0,
        hysteresis: 0,
    }
}

// Refusal 1: of the seven settings, and then of the set of borders.
fn check_making(s: Settings, set: u64) -> Result<(), Refusal>
    ensures { result ≡ and_then (settings_check s) (set_check set) }
{
    check_settings(s)?;
    check_set(set)
}

// A refusal, beside a table.
fn turned_away(t: Table, refusal: Refusal) -> Site
    ensures { ◌≡◌ {A = Handed} result (record { answer = Err refusal; table = t }) }
{
    Site {
        answer: Err(refusal),
        table: t,
    }
}

// A fresh table for any settings and any set of borders. Where they are refused the table is all zeros, which is itself unsound.
pub fn fresh(s: Settings, set: u64) -> Site
    ensures { result ≡ freshened s set }
{
    match check_making(s, set) {
        Ok(()) => Site {
            answer: Ok(()),
            table: empty_table(s, set),
        },
        Err(refusal) => turned_away(empty_table(no_settings(), 0), refusal),
    }
}

// Adds the table of an accepted recording to a sound table, where there is room for its half-cycles.
fn add_table(t: Table, u: Table) -> Site
    requires { Adding t u }
    ensures { result ≡ added_to t u }
{
    let room = 4000000 - t.total;
    if room < u.total {
        return turned_away(t, Refusal::Full(room));
    }
    Site {
        answer: Ok(()),
        table: merge(t, u),
    }
}

// Adds a recording of good length to a sound table of its settings.
fn add_shaped(t: Table, recording: &Recording) -> Site
    requires { (is_unsound t ≡ false) × (recording.now.settings ≡ t.settings) }
    ensures { result ≡ added t recording.now.samples.now }
{
    match table_of(recording, t.set) {
        Ok(u) => add_table(t, u),
        Err(refusal) => turned_away(t, refusal),
    }
}

// Adds any recording to any table: the grown table, or the refusal with the same table.
pub fn add(t: Table, samples: &[i32]) -> Site
    ensures { result ≡ added t samples.now }
{
    if is_unsound(t) {
        return turned_away(t, Refusal::Unsound);
    }
    match Recording::with_good_settings(t.settings, samples) {
        Ok(recording) => add_shaped(t, &recording),
        Err(refusal) => turned_away(t, refusal),
    }
}
