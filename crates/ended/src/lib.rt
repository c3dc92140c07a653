// An event that has ended: its eleven numbers, and their place in the lent run.
#![tactic(auto)]

ghost use Rattle.std.specs.Prelude.{◌≡◌, true, ◌+◌, ◌≤◌, length, Ok};
ghost use Rattle.std.proofs.lemmas.List.Edits.{sets};
ghost use Rattle.rules.specs.Halves.{of_channel, channels, known, half_at};
ghost use Rattle.rules.specs.Events.{six_sums, type_of};
ghost use Rattle.rules.specs.EventList.{kind_number, of_sag, words_of};
ghost use Rattle.rules.specs.Refusals.{recording_check};
ghost use Rattle.kinds.specs.Machine.{Finishable, seen_number, finished_by};

use halves::Recording;
use kinds::Open;
use numbers::copy;
use rules::{Event, Kind, Sums};
use sag_type::type_at;
use score::retained;

// 1 sag, 2 interruption, 3 swell.
fn number_of(kind: Kind) -> u64
    ensures { result ≡ kind_number kind }
{
    kind as u64
}

// 1 for the start plus 2 for the end.
fn seen_number(start: bool, end: bool) -> u64
    ensures { result ≡ seen_number start end }
{
    u64::from(start) + 2 * u64::from(end)
}

// The shortfalls of a sag's channels; 0 for the other kinds.
fn parts_of(kind: Kind, v: Sums) -> Sums
    ensures { result ≡ channels (λ c. of_sag kind (of_channel c v)) }
{
    match kind {
        Kind::Sag => v,
        Kind::Interruption | Kind::Swell => Sums { a: 0, b: 0, c: 0 },
    }
}

// A sag's type, by half-cycle `at`; 0 for the other kinds.
fn class_of(recording: &Recording, kind: Kind, at: u64) -> u64
    requires { (recording_check recording.now.settings recording.now.samples.now ≡ Ok tt) × (known (half_at recording.now.settings recording.now.samples.now at) ≡ true) }
    ensures { result ≡ of_sag kind (type_of (six_sums recording.now.settings recording.now.samples.now at)) }
{
    match kind {
        Kind::Sag => type_at(recording, at),
        Kind::Interruption | Kind::Swell => 0,
    }
}

// The event that half-cycle `end` ends; `known` tells of that half-cycle.
pub fn finish(recording: &Recording, kind: Kind, o: Open, end: u64, known: bool) -> Event
    requires { (recording_check recording.now.settings recording.now.samples.now ≡ Ok tt) × Finishable recording.now.settings recording.now.samples.now o }
    ensures { result ≡ finished_by recording.now.settings recording.now.samples.now kind o end known }
{
    let parts = parts_of(kind, o.short);
    Event {
        kind: number_of(kind),
        start: o.start,
        end,
        seen: seen_number(o.seen, known),
        extreme: o.extreme,
        retained: retained(recording.settings, o.extreme),
        shortfall: parts.a + parts.b + parts.c,
        class: class_of(recording, kind, o.at),
        parts,
    }
}

// An event's words, from `at` on.
pub fn put(out: &mut [u64], at: usize, e: Event)
    requires { at + 11 ≤ length out.old }
    ensures { out.new ≡ sets out.old at (words_of e) }
{
    let parts = e.parts;
    let words = [
        e.kind,
        e.start,
        e.end,
        e.seen,
        e.extreme,
        e.retained,
        e.shortfall,
        e.class,
        parts.a,
        parts.b,
        parts.c,
    ];
    copy(&words, out, at);
}
