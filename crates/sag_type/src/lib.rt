// The type of a sag: six sums over the samples of one half-cycle, and which of them is the smallest.
#![tactic(auto)]

ghost use Rattle.std.specs.Prelude.{◌≡◌, true, ◌*◌, ◌≤◌, nat_abs, ◌-ℤ◌, length, Ok};
ghost use Rattle.rules.specs.Halves.{square, known, half_at};
ghost use Rattle.rules.specs.Events.{twice, six_parts, six_sums, number_of_first, type_of};
ghost use Rattle.rules.specs.Refusals.{recording_check};
ghost use Rattle.halves.specs.Steps.{Low};
ghost use Rattle.sag_type.specs.Six.{six_in, Sixes, ends_of};

use halves::{Recording, square, window_at};
use numbers::added;

// The smallest and the largest of six.
#[derive(Clone, Copy)]
pub struct Ends {
    pub low: u64,
    pub high: u64,
}

// The square of 2a - b - c.
fn lone_part(a: i32, b: i32, c: i32) -> u64
    requires { (nat_abs a ≤ 100000) × (nat_abs b ≤ 100000) × (nat_abs c ≤ 100000) }
    ensures { result ≡ square (twice a -ℤ b -ℤ c) }
{
    square(a + a - b - c)
}

// Three times the square of a - b.
fn pair_part(a: i32, b: i32) -> u64
    requires { (nat_abs a ≤ 100000) × (nat_abs b ≤ 100000) }
    ensures { result ≡ 3 * square (a -ℤ b) }
{
    3 * square(a - b)
}

// What one sample of each channel adds to the six sums, in their order.
fn six_parts(a: i32, b: i32, c: i32) -> [u64; 6]
    requires { (nat_abs a ≤ 100000) × (nat_abs b ≤ 100000) × (nat_abs c ≤ 100000) }
    ensures { result ≡ six_parts a b c }
{
    [
        lone_part(a, b, c),
        lone_part(b, a, c),
        lone_part(c, a, b),
        pair_part(b, c),
        pair_part(c, a),
        pair_part(a, b),
    ]
}

// The six sums over a window that lacks no sample.
fn six_of(w: &[i32]) -> [u64; 6]
    requires few { length w.now ≤ 1536 }
    requires low { Low w.now }
    ensures { result ≡ six_in w.now }
{
    let mut six = [0; 6];
    for sample in w.chunks_exact(3) {
        let next = added(six, six_parts(sample[0], sample[1], sample[2]));
        six = next;
    }
    six
}

// Both ends of the six.
fn ends_of(six: [u64; 6]) -> Ends
    ensures { result ≡ ends_of six }
{
    let mut low = six[0];
    let mut high = six[0];
    for x in &six[1..] {
        low = low.min(*x);
        high = high.max(*x);
    }
    Ends { low, high }
}

// The number, from 1, of the first of the six that equals v.
fn number_of_first(six: [u64; 6], v: u64) -> u64
    ensures { result ≡ number_of_first six v }
{
    for (i, x) in six.iter().enumerate() {
        if *x == v {
            return i as u64 + 1;
        }
    }
    6
}

// 0 (A) where the six are nearly equal, else the number of the first smallest: Da, Db, Dc, Ca, Cb, Cc.
fn sag_type(six: [u64; 6]) -> u64
    requires { Sixes 100000000000000 six }
    ensures { result ≡ type_of six }
{
    let ends = ends_of(six);
    if 81 * ends.high <= 100 * ends.low {
        return 0;
    }
    number_of_first(six, ends.low)
}

// The sag type by half-cycle k, which is known: six sums over its samples, held together as one array of six.
pub fn type_at(recording: &Recording, k: u64) -> u64
    requires { (recording_check recording.now.settings recording.now.samples.now ≡ Ok tt) × (known (half_at recording.now.settings recording.now.samples.now k) ≡ true) }
    ensures { result ≡ type_of (six_sums recording.now.settings recording.now.samples.now k) }
{
    sag_type(six_of(window_at(recording.settings, recording.samples, k)))
}
