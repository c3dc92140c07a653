// Plain numbers and runs of them: the least and the greatest of three, a division for any divisor, three numbers that make up a
// whole, one run copied into another, two runs added place by place, and two sums channel by channel.
#![tactic(auto)]

ghost use Rattle.std.specs.Prelude.{◌≡◌, ℕ, ◌+◌, ◌/◌, ◌%◌, ◌^◌, ◌≤◌, ◌<◌, eqb, length, get_or};
ghost use Rattle.std.proofs.Math.Seq.{paste};
ghost use Rattle.rules.specs.Halves.{of_channel, channels};
ghost use Rattle.rules.specs.Events.{least, greatest, plus};

use rules::Sums;

// The least of the three.
pub fn least(v: Sums) -> u64
    ensures { result ≡ least v }
{
    v.a.min(v.b).min(v.c)
}

// The greatest of the three.
pub fn greatest(v: Sums) -> u64
    ensures { result ≡ greatest v }
{
    v.a.max(v.b).max(v.c)
}

// How often d goes into x: 0 where d is 0.
pub fn quotient(x: u64, d: u64) -> u64
    ensures { result ≡ x / d }
{
    x.checked_div(d).unwrap_or(0)
}

// What is left of x then: x where d is 0.
pub fn remainder(x: u64, d: u64) -> u64
    ensures { result ≡ x % d }
{
    x.checked_rem(d).unwrap_or(x)
}

// Whether three numbers make up the whole. They are taken off it one after the other: a sum of any three could wrap and look right.
pub fn adds_up(whole: u64, a: u64, b: u64, c: u64) -> bool
    ensures { result ≡ eqb (a + b + c) whole }
{
    if whole < a {
        return false;
    }
    let rest = whole - a;
    if rest < b {
        return false;
    }
    rest - b == c
}

// The numbers of `from` in their place in `out`, from `at` on.
pub fn copy(from: &[u64], out: &mut [u64], at: usize)
    requires { at + length from.now ≤ length out.old }
    ensures { out.new ≡ paste out.old at from.now (length from.now) }
{
    for (i, x) in from.iter().enumerate() {
        out[at + i] = *x;
    }
}

// `more` added to `sum`, number by number.
pub fn add_each(sum: &mut [u64], more: &[u64])
    requires { (length sum.old ≡ length more.now) × ((i : ℕ) → get_or sum.old i 0 + get_or more.now i 0 < 2 ^ 64) }
    ensures { sum.new ≡ plus sum.old more.now }
{
    for (k, x) in more.iter().enumerate() {
        sum[k] += *x;
    }
}

// Two arrays added, number by number.
pub fn added<const N: usize>(a: [u64; N], b: [u64; N]) -> [u64; N]
    requires { (i : ℕ) → get_or a i 0 + get_or b i 0 < 2 ^ 64 }
    ensures { result ≡ plus a.entry b.entry }
{
    let mut sum = a;
    add_each(&mut sum, &b);
    sum
}

// Two sums added, channel by channel.
pub fn add_sums(x: Sums, y: Sums) -> Sums
    requires { (x.a + y.a < 2 ^ 64) × (x.b + y.b < 2 ^ 64) × (x.c + y.c < 2 ^ 64) }
    ensures { result ≡ channels (λ c. of_channel c x + of_channel c y) }
{
    Sums {
        a: x.a + y.a,
        b: x.b + y.b,
        c: x.c + y.c,
    }
}
