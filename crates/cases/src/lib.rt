// What the programs over the known answers share: their settings, their blocks of samples, K9, and how a refusal is written.
#![tactic(auto)]

ghost use Rattle.std.specs.Prelude.{◌≡◌, ◌*◌, length};
ghost use Rattle.rules.specs.Known.{settings};

use rules::{Refusal, Settings};
use std::io;

// N 8, R 1,000, f 50, thresholds 90, 10, 110, hysteresis 2.
pub fn settings() -> Settings
    ensures { result ≡ settings }
{
    Settings {
        n: 8,
        r: 1000,
        f: 50,
        sag: 90,
        interruption: 10,
        swell: 110,
        hysteresis: 2,
    }
}

// A refusal's number and its place.
pub fn write_refusal(rt: &impl Print, refusal: Refusal) -> io::Result<()> {
    print!(rt;
        " refusal {} at {}",
        words::number_of(refusal),
        words::place_in(refusal)
    )
}

// Blocks of four equal samples: values for channel a, and for b and c.
fn fill(run: &mut [i32], a: &[i32], bc: &[i32])
    requires { (length run.old ≡ 12 * length a.now) × (length bc.now ≡ length a.now) }
    ensures { length run.new ≡ length run.old }
{
    for m in 0..4 * a.len() {
        let x = bc[m / 4];
        run[3 * m] = a[m / 4];
        run[3 * m + 1] = x;
        run[3 * m + 2] = x;
    }
}

// Eight blocks.
pub fn blocks(a: [i32; 8], bc: [i32; 8]) -> [i32; 96]
    ensures { 96 ≡ length result }
{
    let mut run = [0; 96];
    fill(&mut run, &a, &bc);
    run
}

// Six blocks, 1000 1000 x x 1000 1000 on channel a and the same with y on b and c: K2 with 500 twice, K12 with 500 and 1000.
pub fn dip(x: i32, y: i32) -> [i32; 72]
    ensures { 72 ≡ length result }
{
    let mut run = [0; 72];
    fill(
        &mut run,
        &[1000, 1000, x, x, 1000, 1000],
        &[1000, 1000, y, y, 1000, 1000],
    );
    run
}

// K9: one sample of the fifth block missing.
pub fn k9() -> [i32; 96]
    ensures { 96 ≡ length result }
{
    let values = [1000, 1000, 500, 500, 500, 500, 1000, 1000];
    let mut run = blocks(values, values);
    run[48] = i32::MIN;
    run
}
