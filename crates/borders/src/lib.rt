// The borders of cells: which sets of them there are, and the cell of an extreme and a duration by a set.
#![tactic(auto)]

ghost use Rattle.std.specs.Prelude.{◌≡◌, ℕ, true, suc, ◌+◌, ◌*◌, ◌≤◌, leb, ltb, length, map};
ghost use Rattle.std.specs.List.{All, prefix_len};
ghost use Rattle.rules.specs.Recorder.{settings_good};
ghost use Rattle.rules.specs.Borders.{sets, known_set, borders_of, cell_at};
ghost use Rattle.rules.specs.Site.{not_scored};
ghost use Rattle.rules.specs.Refusals.{set_check};
ghost use Rattle.borders.specs.Lists.{at_frequency, lists_at};

use checks::full_of;
use rules::{Refusal, Settings};

// A border of columns: so many fifths of a half-cycle, and so many times f.
#[derive(Clone, Copy)]
struct Border {
    fifths: u64,
    times: u64,
}

// The borders of a set: of rows in percent of R, and of columns.
#[derive(Clone, Copy)]
struct Borders {
    rows: &'static [u64],
    columns: &'static [Border],
}

// Set 0.
const UNIPEDE: Borders = Borders {
    rows: &[10, 40, 70, 85],
    columns: &[
        Border {
            fifths: 10,
            times: 0,
        },
        Border {
            fifths: 0,
            times: 1,
        },
        Border {
            fifths: 0,
            times: 5,
        },
        Border {
            fifths: 0,
            times: 10,
        },
        Border {
            fifths: 0,
            times: 30,
        },
        Border {
            fifths: 0,
            times: 200,
        },
        Border {
            fifths: 0,
            times: 600,
        },
    ],
};

// Set 1.
const IEC_61000_4_11: Borders = Borders {
    rows: &[10, 40, 70, 80],
    columns: &[
        Border {
            fifths: 10,
            times: 0,
        },
        Border {
            fifths: 0,
            times: 2,
        },
        Border {
            fifths: 0,
            times: 5,
        },
        Border {
            fifths: 0,
            times: 50,
        },
    ],
};

// The sets, each at its number.
static SETS: [Borders; 2] = [UNIPEDE, IEC_61000_4_11];

// All of them: at any frequency they are the rules' sets. That is said of the whole list, and not of one set after another.
fn sets() -> &'static [Borders]
    ensures lists { (f : ℕ) → map (lists_at f) result.now ≡ map (λ b. b f) sets }
    ensures percents { All (λ b. All (λ p. p ≤ 100) b.rows.now) result.now }
    ensures low { All (λ b. All (λ c. (c.fifths ≤ 1000) × (c.times ≤ 1000)) b.columns.now) result.now }
    ensures few { All (λ b. (length b.rows.now ≤ 40) × (length b.columns.now ≤ 40)) result.now }
{
    &SETS
}

// Whether there is such a set.
pub fn known_set(set: u64) -> bool
    ensures { result ≡ known_set set }
{
    set < sets().len() as u64
}

// Refusal 1 of a set that there is not: it is the eighth, after the seven settings.
pub fn check_set(set: u64) -> Result<(), Refusal>
    ensures { result ≡ set_check set }
{
    if known_set(set) {
        Ok(())
    } else {
        Err(Refusal::Setting(8))
    }
}

// How many rows, or columns, borders make: the last is the rest.
fn count<T>(borders: &[T]) -> u64
    requires { length borders.now ≤ 40 }
    ensures { result ≡ suc (length borders.now) }
{
    borders.len() as u64 + 1
}

// The borders of a set.
fn borders_of(set: u64) -> Borders
    requires { known_set set ≡ true }
    ensures rows { (s : Settings) → result.rows.now ≡ (borders_of s set).rows }
    ensures columns { (s : Settings) → at_frequency s.f result.columns.now ≡ (borders_of s set).columns }
    ensures percents { All (λ p. p ≤ 100) result.rows.now }
    ensures low { All (λ b. (b.fifths ≤ 1000) × (b.times ≤ 1000)) result.columns.now }
    ensures few { (length result.rows.now ≤ 40) × (length result.columns.now ≤ 40) }
{
    sets()[set as usize]
}

// The row of x, m being N x R x R: on a border it is not above it.
fn row(rows: &[u64], m: u64, x: u64) -> u64
    requires percents { All (λ p. p ≤ 100) rows.now }
    requires low { m ≤ 1280000000000 }
    ensures { result ≡ prefix_len (λ p. ltb (p * p * m) x) rows.now }
{
    rows.iter().take_while(|p| **p * **p * m < x).count() as u64
}

// The column of x: on a border it has passed it.
fn column(columns: &[Border], f: u64, x: u64) -> u64
    requires low { All (λ b. (b.fifths ≤ 1000) × (b.times ≤ 1000)) columns.now }
    requires frequency { f ≤ 60 }
    ensures { result ≡ prefix_len (λ b. leb (b.fifths + b.times * f) x) columns.now }
{
    columns
        .iter()
        .take_while(|b| b.fifths + b.times * f <= x)
        .count() as u64
}

// One above the last cell of a set, whatever the settings; 40 where there is no such set.
pub fn not_scored(set: u64) -> u64
    ensures { (s : Settings) → result ≡ not_scored s set }
{
    if !known_set(set) {
        return 40;
    }
    let borders = borders_of(set);
    count(borders.rows) * count(borders.columns)
}

// The cell of an extreme and a duration of h half-cycles: number of columns x row + column.
pub fn cell_at(s: Settings, set: u64, extreme: u64, h: u64) -> u64
    requires { (settings_good s ≡ true) × (known_set set ≡ true) × (extreme ≤ s.n * 10000000000) × (h ≤ 100000) }
    ensures { result ≡ cell_at s (borders_of s set) extreme h }
{
    let borders = borders_of(set);
    let m = full_of(s);
    let row = row(borders.rows, m, 10000 * extreme);
    let column = column(borders.columns, s.f, 5 * h);
    count(borders.columns) * row + column
}
