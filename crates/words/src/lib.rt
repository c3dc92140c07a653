// The numbers of the boundary: settings are seven, an event eleven, a site table 60, in the order of the rules; an answer is its
// number and its place.
#![tactic(auto)]

ghost use Rattle.std.specs.Prelude.{◌≡◌};
ghost use Rattle.rules.specs.Scores.{number_of_reason};
ghost use Rattle.rules.specs.Refusals.{number_of, place_in};
ghost use Rattle.words.specs.Numbers.{settings_from, event_with, number_of_answer, place_of_answer};
ghost use Rattle.words.specs.Words.{table_from, table_words};

use rules::{Event, Reason, Refusal, Settings, Sums, Table};

// Seven numbers as settings.
pub fn settings(
    n: u64,
    r: u64,
    f: u64,
    sag: u64,
    interruption: u64,
    swell: u64,
    hysteresis: u64,
) -> Settings
    ensures { result ≡ settings_from n r f sag interruption swell hysteresis }
{
    Settings {
        n,
        r,
        f,
        sag,
        interruption,
        swell,
        hysteresis,
    }
}

// Eleven numbers as an event.
pub fn event(
    kind: u64,
    start: u64,
    end: u64,
    seen: u64,
    extreme: u64,
    retained: u64,
    shortfall: u64,
    class: u64,
    a: u64,
    b: u64,
    c: u64,
) -> Event
    ensures { result ≡ event_with kind start end seen extreme retained shortfall class a b c }
{
    Event {
        kind,
        start,
        end,
        seen,
        extreme,
        retained,
        shortfall,
        class,
        parts: Sums { a, b, c },
    }
}

// The number of a reason.
pub fn number_of_reason(reason: Reason) -> u64
    ensures { result ≡ number_of_reason reason }
{
    reason as u64
}

// A refusal's number.
pub fn number_of(refusal: Refusal) -> u64
    ensures { result ≡ number_of refusal }
{
    match refusal {
        Refusal::Setting(_) => 1,
        Refusal::Uneven => 2,
        Refusal::Short => 3,
        Refusal::Ragged => 4,
        Refusal::Long => 5,
        Refusal::Sample(_) => 6,
        Refusal::Room(_) => 7,
        Refusal::Full(_) => 8,
        Refusal::Unsound => 9,
    }
}

// A refusal's place.
pub fn place_in(refusal: Refusal) -> u64
    ensures { result ≡ place_in refusal }
{
    match refusal {
        Refusal::Setting(i) => i,
        Refusal::Uneven => 0,
        Refusal::Short => 0,
        Refusal::Ragged => 0,
        Refusal::Long => 0,
        Refusal::Sample(i) => i,
        Refusal::Room(n) => n,
        Refusal::Full(n) => n,
        Refusal::Unsound => 0,
    }
}

// The table that 60 numbers are.
#[tactic(auto, unfolding(crate::specs::Words::table_from))]
pub fn table_of(words: [u64; 60]) -> Table
    ensures { result ≡ table_from words }
{
    let settings = settings(
        words[0], words[1], words[2], words[3], words[4], words[5], words[6],
    );
    let mut cells = [0; 40];
    cells.copy_from_slice(&words[12..52]);
    Table {
        settings,
        set: words[7],
        total: words[8],
        healthy: words[9],
        disturbed: words[10],
        unknown: words[11],
        cells,
        unplaced: words[52],
        sags: words[53],
        interruptions: words[54],
        swells: words[55],
        shortfall: words[56],
        parts: Sums {
            a: words[57],
            b: words[58],
            c: words[59],
        },
    }
}

// A table's 60 numbers.
#[tactic(auto, unfolding(crate::specs::Words::table_words))]
pub fn words_of(t: Table) -> [u64; 60]
    ensures { result ≡ table_words t }
{
    let s = t.settings;
    let head = [
        s.n,
        s.r,
        s.f,
        s.sag,
        s.interruption,
        s.swell,
        s.hysteresis,
        t.set,
        t.total,
        t.healthy,
        t.disturbed,
        t.unknown,
    ];
    let parts = t.parts;
    let tail = [
        t.unplaced,
        t.sags,
        t.interruptions,
        t.swells,
        t.shortfall,
        parts.a,
        parts.b,
        parts.c,
    ];
    let mut w = [0; 60];
    w[..12].copy_from_slice(&head);
    w[52..].copy_from_slice(&tail);
    w[12..52].copy_from_slice(&t.cells);
    w
}

// The number of an answer that takes or refuses: 0 where it takes.
pub fn number_of_taken(taken: Result<(), Refusal>) -> u64
    ensures { result ≡ number_of_answer taken }
{
    match taken {
        Ok(()) => 0,
        Err(refusal) => number_of(refusal),
    }
}

// Its place: 0 where it takes.
pub fn place_of_taken(taken: Result<(), Refusal>) -> u64
    ensures { result ≡ place_of_answer taken }
{
    match taken {
        Ok(()) => 0,
        Err(refusal) => place_in(refusal),
    }
}
