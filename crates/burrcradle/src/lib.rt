// The boundary for C and Rust. Settings are seven numbers, a set of borders is one, an event is eleven, a half-cycle five and a site table
// 60, in the order of the rules.
#![tactic(auto)]

ghost use Rattle.std.specs.Prelude.{◌≡◌, length};
ghost use Rattle.rules.specs.Scores.{reason_by, scoring_by};
ghost use Rattle.rules.specs.Site.{cell_of};
ghost use Rattle.rules.specs.Refusals.{listed, written, traced, trace_written, freshened, added};
ghost use Rattle.words.specs.Numbers.{settings_from, event_with, severity_after, energy_after, number_of_score, number_of_answer, count_or_place, place_of_answer};
ghost use Rattle.words.specs.Words.{table_from, table_words};

use rules::{Refusal, Site};
use words::{
    event, number_of, number_of_reason, number_of_taken, place_in, place_of_taken, settings,
    table_of, words_of,
};

// The number of an answer that counts, and in `answer` how many there are, or the refusal's place.
fn told(given: Result<u64, Refusal>, answer: &mut u64) -> u64
    ensures value { result ≡ number_of_answer given }
    ensures answer_after { answer.new ≡ count_or_place given }
{
    match given {
        Ok(count) => {
            *answer = count;
            0
        }
        Err(refusal) => {
            *answer = place_in(refusal);
            number_of(refusal)
        }
    }
}

// The number of an answer with a table, its place in `place` and the table's numbers in `table`.
fn handed(site: Site, table: &mut [u64; 60], place: &mut u64) -> u64
    ensures value { result ≡ number_of_answer site.answer }
    ensures place_after { place.new ≡ place_of_answer site.answer }
    ensures table_after { table.new ≡ table_words site.table }
{
    *table = words_of(site.table);
    *place = place_of_taken(site.answer);
    number_of_taken(site.answer)
}

// Why the event has no score under the set of borders: 0 where it has one.
#[tactic(auto, unfolding(rules::specs::Scores::reason_by))]
pub fn burr_reason(
    n: u64,
    r: u64,
    f: u64,
    sag: u64,
    interruption: u64,
    swell: u64,
    hysteresis: u64,
    set: u64,
    kind: u64,
    start: u64,
    end: u64,
    seen: u64,
    extreme: u64,
    retained: u64,
    shortfall: u64,
    class: u64,
    a: u64,
    b: u64,
    c: u64,
) -> u64
    ensures { result ≡ reason_by (settings_from n r f sag interruption swell hysteresis) set (event_with kind start end seen extreme retained shortfall class a b c) }
{
    let s = settings(n, r, f, sag, interruption, swell, hysteresis);
    let e = event(
        kind, start, end, seen, extreme, retained, shortfall, class, a, b, c,
    );
    match score::reason(s, set, e) {
        None => 0,
        Some(why) => number_of_reason(why),
    }
}

// The event's cell by the set of borders: one above the last where it has no score, and 40 where there is no such set.
pub fn burr_cell(
    n: u64,
    r: u64,
    f: u64,
    sag: u64,
    interruption: u64,
    swell: u64,
    hysteresis: u64,
    set: u64,
    kind: u64,
    start: u64,
    end: u64,
    seen: u64,
    extreme: u64,
    retained: u64,
    shortfall: u64,
    class: u64,
    a: u64,
    b: u64,
    c: u64,
) -> u64
    ensures { result ≡ cell_of (settings_from n r f sag interruption swell hysteresis) set (event_with kind start end seen extreme retained shortfall class a b c) }
{
    let s = settings(n, r, f, sag, interruption, swell, hysteresis);
    let e = event(
        kind, start, end, seen, extreme, retained, shortfall, class, a, b, c,
    );
    score::cell(s, set, e)
}

// The score in the two floats, and 0; or why the event has none under the set of borders, and both floats as they were.
pub fn burr_score(
    n: u64,
    r: u64,
    f: u64,
    sag: u64,
    interruption: u64,
    swell: u64,
    hysteresis: u64,
    set: u64,
    kind: u64,
    start: u64,
    end: u64,
    seen: u64,
    extreme: u64,
    retained: u64,
    shortfall: u64,
    class: u64,
    a: u64,
    b: u64,
    c: u64,
    severity: &mut f64,
    energy: &mut f64,
) -> u64
    ensures value { result ≡ number_of_score (scoring_by (settings_from n r f sag interruption swell hysteresis) set (event_with kind start end seen extreme retained shortfall class a b c)) }
    ensures severity_after { severity.new ≡ severity_after (scoring_by (settings_from n r f sag interruption swell hysteresis) set (event_with kind start end seen extreme retained shortfall class a b c)) severity.old }
    ensures energy_after { energy.new ≡ energy_after (scoring_by (settings_from n r f sag interruption swell hysteresis) set (event_with kind start end seen extreme retained shortfall class a b c)) energy.old }
{
    let s = settings(n, r, f, sag, interruption, swell, hysteresis);
    let e = event(
        kind, start, end, seen, extreme, retained, shortfall, class, a, b, c,
    );
    match score::score_of(s, set, e) {
        Ok(x) => {
            *severity = x.severity;
            *energy = x.energy;
            0
        }
        Err(why) => number_of_reason(why),
    }
}

// The events of a recording, eleven numbers each, from the front of `events`: 0 and how many there are; or the refusal's number
// and its place, with nothing else written.
pub fn burr_list(
    n: u64,
    r: u64,
    f: u64,
    sag: u64,
    interruption: u64,
    swell: u64,
    hysteresis: u64,
    samples: &[i32],
    events: &mut [u64],
    answer: &mut u64,
) -> u64
    ensures value { result ≡ number_of_answer (listed (settings_from n r f sag interruption swell hysteresis) samples.now (length events.old)) }
    ensures answer_after { answer.new ≡ count_or_place (listed (settings_from n r f sag interruption swell hysteresis) samples.now (length events.old)) }
    ensures events_after { events.new ≡ written (settings_from n r f sag interruption swell hysteresis) samples.now events.old }
{
    let s = settings(n, r, f, sag, interruption, swell, hysteresis);
    told(list::list(s, samples, events), answer)
}

// Each half-cycle of a recording, five numbers each, from the front of `halves`: 0 and how many there are; or the refusal's number and
// its place, with nothing else written.
pub fn burr_halves(
    n: u64,
    r: u64,
    f: u64,
    sag: u64,
    interruption: u64,
    swell: u64,
    hysteresis: u64,
    samples: &[i32],
    halves: &mut [u64],
    answer: &mut u64,
) -> u64
    ensures value { result ≡ number_of_answer (traced (settings_from n r f sag interruption swell hysteresis) samples.now (length halves.old)) }
    ensures answer_after { answer.new ≡ count_or_place (traced (settings_from n r f sag interruption swell hysteresis) samples.now (length halves.old)) }
    ensures halves_after { halves.new ≡ trace_written (settings_from n r f sag interruption swell hysteresis) samples.now halves.old }
{
    let s = settings(n, r, f, sag, interruption, swell, hysteresis);
    told(trace::trace(s, samples, halves), answer)
}

// A fresh table for the settings and the set of borders, and 0; or the refusal's number and its place, and a table of zeros.
pub fn burr_fresh(
    n: u64,
    r: u64,
    f: u64,
    sag: u64,
    interruption: u64,
    swell: u64,
    hysteresis: u64,
    set: u64,
    table: &mut [u64; 60],
    place: &mut u64,
) -> u64
    ensures value { result ≡ number_of_answer (freshened (settings_from n r f sag interruption swell hysteresis) set).answer }
    ensures place_after { place.new ≡ place_of_answer (freshened (settings_from n r f sag interruption swell hysteresis) set).answer }
    ensures table_after { table.new ≡ table_words (freshened (settings_from n r f sag interruption swell hysteresis) set).table }
{
    let s = settings(n, r, f, sag, interruption, swell, hysteresis);
    handed(site::fresh(s, set), table, place)
}

// The table grown by a recording, and 0; or the refusal's number and its place, and the table as it was.
pub fn burr_add(table: &mut [u64; 60], samples: &[i32], place: &mut u64) -> u64
    ensures value { result ≡ number_of_answer (added (table_from table.old) samples.now).answer }
    ensures place_after { place.new ≡ place_of_answer (added (table_from table.old) samples.now).answer }
    ensures table_after { table.new ≡ table_words (added (table_from table.old) samples.now).table }
{
    handed(site::add(table_of(*table), samples), table, place)
}
