// What one half-cycle tells: its class, the kinds it lies in and its sums, by the machine of the kinds; and their place in the lent run.
#![tactic(auto)]

ghost use Rattle.std.specs.Prelude.{◌≡◌, ◌+◌, ◌*◌, ◌≤◌, length};
ghost use Rattle.std.proofs.lemmas.List.Edits.{sets};
ghost use Rattle.rules.specs.Trace.{sums_told};
ghost use Rattle.kinds.specs.Machine.{level_from, followed_by};
ghost use Rattle.tell.specs.Telling.{class_by, kinds_by, five_of, told_by, Tellable};

use kinds::{Class, Inside, Thresholds};
use numbers::copy;
use rules::{Half, Sums};

// The number of a half-cycle's class; `any` says whether it is in an event.
fn class_number(known: bool, any: bool) -> u64
    ensures { result ≡ class_by known any }
{
    Class::of(known, any) as u64
}

// 1 for a sag plus 2 for an interruption plus 4 for a swell.
fn kinds_number(i: Inside) -> u64
    ensures { result ≡ kinds_by i }
{
    u64::from(i.sag) + 2 * u64::from(i.interruption) + 4 * u64::from(i.swell)
}

// S of each channel, 0 where unknown.
fn sums_of(half: Half) -> Sums
    ensures { result ≡ sums_told half }
{
    half.unwrap_or(Sums { a: 0, b: 0, c: 0 })
}

// The five numbers of a half-cycle, from `at` on.
fn put(out: &mut [u64], at: usize, class: u64, kinds: u64, v: Sums)
    requires { at + 5 ≤ length out.old }
    ensures { out.new ≡ sets out.old at (five_of class kinds v) }
{
    let words = [class, kinds, v.a, v.b, v.c];
    copy(&words, out, at);
}

// Half-cycle k told, where `was` has the kinds of the one before: its own.
pub fn tell(m: Thresholds, half: Half, was: Inside, k: u64, out: &mut [u64]) -> Inside
    requires { Tellable m half k (length out.old) }
    ensures value { result ≡ followed_by m was (level_from m.full m.sag.from half) }
    ensures out_after { out.new ≡ sets out.old (5 * k) (told_by m was half) }
{
    let l = m.level(half);
    let is = was.next(m, l);
    put(
        out,
        (5 * k) as usize,
        class_number(l.is_some(), is.any()),
        kinds_number(is),
        sums_of(half),
    );
    is
}
