// The boundary as C links it: each export calls the function of that name in the library `burrcradle`, and states its clauses again.
#![tactic(auto)]

ghost use Rattle.std.specs.Prelude.{◌≡◌, length};
ghost use Rattle.rules.specs.Scores.{reason_by, scoring_by};
ghost use Rattle.rules.specs.Site.{cell_of};
ghost use Rattle.rules.specs.Refusals.{listed, written, traced, trace_written, freshened, added};
ghost use Rattle.words.specs.Numbers.{settings_from, event_with, severity_after, energy_after, number_of_score, number_of_answer, count_or_place, place_of_answer};
ghost use Rattle.words.specs.Words.{table_from, table_words};

// Why the event has no score under the set of borders: 0 where it has one.
#[unsafe(no_mangle)]
pub extern "C" fn burr_reason(
    n: u64,
    r: u64,
    f: u64,
    sag: u64,
    interruption: u64,
    swell: u64,
    hysteresis: u64,
    set: u64,
    kind: u64,
    start: u64,
    end: u64,
    seen: u64,
    extreme: u64,
    retained: u64,
    shortfall: u64,
    class: u64,
    a: u64,
    b: u64,
    c: u64,
) -> u64
    ensures { result ≡ reason_by (settings_from n r f sag interruption swell hysteresis) set (event_with kind start end seen extreme retained shortfall class a b c) }
{
    burrcradle::burr_reason(
        n,
        r,
        f,
        sag,
        interruption,
        swell,
        hysteresis,
        set,
        kind,
        start,
        end,
        seen,
        extreme,
        retained,
        shortfall,
        class,
        a,
        b,
        c,
    )
}

// The event's cell by the set of borders: one above the last where it has no score, and 40 where there is no such set.
#[unsafe(no_mangle)]
pub extern "C" fn burr_cell(
    n: u64,
    r: u64,
    f: u64,
    sag: u64,
    interruption: u64,
    swell: u64,
    hysteresis: u64,
    set: u64,
    kind: u64,
    start: u64,
    end: u64,
    seen: u64,
    extreme: u64,
    retained: u64,
    shortfall: u64,
    class: u64,
    a: u64,
    b: u64,
    c: u64,
) -> u64
    ensures { result ≡ cell_of (settings_from n r f sag interruption swell hysteresis) set (event_with kind start end seen extreme retained shortfall class a b c) }
{
    burrcradle::burr_cell(
        n,
        r,
        f,
        sag,
        interruption,
        swell,
        hysteresis,
        set,
        kind,
        start,
        end,
        seen,
        extreme,
        retained,
        shortfall,
        class,
        a,
        b,
        c,
    )
}

// The score in the two floats, and 0; or why the event has none under the set of borders, and both floats as they were.
#[unsafe(no_mangle)]
pub extern "C" fn burr_score(
    n: u64,
    r: u64,
    f: u64,
    sag: u64,
    interruption: u64,
    swell: u64,
    hysteresis: u64,
    set: u64,
    kind: u64,
    start: u64,
    end: u64,
    seen: u64,
    extreme: u64,
    retained: u64,
    shortfall: u64,
    class: u64,
    a: u64,
    b: u64,
    c: u64,
    severity: &mut f64,
    energy: &mut f64,
) -> u64
    ensures value { result ≡ number_of_score (scoring_by (settings_from n r f sag interruption swell hysteresis) set (event_with kind start end seen extreme retained shortfall class a b c)) }
    ensures severity_after { severity.new ≡ severity_after (scoring_by (settings_from n r f sag interruption swell hysteresis) set (event_with kind start end seen extreme retained shortfall class a b c)) severity.old }
    ensures energy_after { energy.new ≡ energy_after (scoring_by (settings_from n r f sag interruption swell hysteresis) set (event_with kind start end seen extreme retained shortfall class a b c)) energy.old }
{
    burrcradle::burr_score(
        n,
        r,
        f,
        sag,
        interruption,
        swell,
        hysteresis,
        set,
        kind,
        start,
        end,
        seen,
        extreme,
        retained,
        shortfall,
        class,
        a,
        b,
        c,
        severity,
        energy,
    )
}

// The events of a recording, eleven numbers each, from the front of `events`: 0 and how many there are; or the refusal's number
// and its place, with nothing else written.
#[unsafe(no_mangle)]
pub extern "C" fn burr_list(
    n: u64,
    r: u64,
    f: u64,
    sag: u64,
    interruption: u64,
    swell: u64,
    hysteresis: u64,
    samples: &[i32],
    events: &mut [u64],
    answer: &mut u64,
) -> u64
    ensures value { result ≡ number_of_answer (listed (settings_from n r f sag interruption swell hysteresis) samples.now (length events.old)) }
    ensures answer_after { answer.new ≡ count_or_place (listed (settings_from n r f sag interruption swell hysteresis) samples.now (length events.old)) }
    ensures events_after { events.new ≡ written (settings_from n r f sag interruption swell hysteresis) samples.now events.old }
{
    burrcradle::burr_list(
        n,
        r,
        f,
        sag,
        interruption,
        swell,
        hysteresis,
        samples,
        events,
        answer,
    )
}

// Each half-cycle of a recording, five numbers each, from the front of `halves`: 0 and how many there are; or the refusal's number and
// its place, with nothing else written.
#[unsafe(no_mangle)]
pub extern "C" fn burr_halves(
    n: u64,
    r: u64,
    f: u64,
    sag: u64,
    interruption: u64,
    swell: u64,
    hysteresis: u64,
    samples: &[i32],
    halves: &mut [u64],
    answer: &mut u64,
) -> u64
    ensures value { result ≡ number_of_answer (traced (settings_from n r f sag interruption swell hysteresis) samples.now (length halves.old)) }
    ensures answer_after { answer.new ≡ count_or_place (traced (settings_from n r f sag interruption swell hysteresis) samples.now (length halves.old)) }
    ensures halves_after { halves.new ≡ trace_written (settings_from n r f sag interruption swell hysteresis) samples.now halves.old }
{
    burrcradle::burr_halves(
        n,
        r,
        f,
        sag,
        interruption,
        swell,
        hysteresis,
        samples,
        halves,
        answer,
    )
}

// A fresh table for the settings and the set of borders, and 0; or the refusal's number and its place, and a table of zeros.
#[unsafe(no_mangle)]
pub extern "C" fn burr_fresh(
    n: u64,
    r: u64,
    f: u64,
    sag: u64,
    interruption: u64,
    swell: u64,
    hysteresis: u64,
    set: u64,
    table: &mut [u64; 60],
    place: &mut u64,
) -> u64
    ensures value { result ≡ number_of_answer (freshened (settings_from n r f sag interruption swell hysteresis) set).answer }
    ensures place_after { place.new ≡ place_of_answer (freshened (settings_from n r f sag interruption swell hysteresis) set).answer }
    ensures table_after { table.new ≡ table_words (freshened (settings_from n r f sag interruption swell hysteresis) set).table }
{
    burrcradle::burr_fresh(
        n,
        r,
        f,
        sag,
        interruption,
        swell,
        hysteresis,
        set,
        table,
        place,
    )
}

// The table grown by a recording, and 0; or the refusal's number and its place, and the table as it was.
#[unsafe(no_mangle)]
pub extern "C" fn burr_add(table: &mut [u64; 60], samples: &[i32], place: &mut u64) -> u64
    ensures value { result ≡ number_of_answer (added (table_from table.old) samples.now).answer }
    ensures place_after { place.new ≡ place_of_answer (added (table_from table.old) samples.now).answer }
    ensures table_after { table.new ≡ table_words (added (table_from table.old) samples.now).table }
{
    burrcradle::burr_add(table, samples, place)
}
