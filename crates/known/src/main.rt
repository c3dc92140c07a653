// Lists the known answers K1 to K12 and three recordings that are turned away, through the public call, and writes a line for
// each: how many events there are, and of each its eleven numbers, its reason, and its cells by set 0 and by set 1; or the refusal and
// its place.
#![tactic(auto)]

ghost use Rattle.std.specs.Prelude.{◌≡◌, ◌*◌, ◌≤◌, length};

use cases::{blocks, dip, k9, settings, write_refusal};
use print::Row;
use std::io;

// An event's eleven numbers, its reason, which is the same under both sets of borders, and its cell by each.
fn write_event(rt: &impl Print, words: &[u64]) -> io::Result<()>
    requires { length words.now ≡ 11 }
{
    let e = words::event(
        words[0], words[1], words[2], words[3], words[4], words[5], words[6], words[7], words[8],
        words[9], words[10],
    );
    let reason = match score::reason(settings(), 0, e) {
        None => 0,
        Some(why) => words::number_of_reason(why),
    };
    let by_0 = score::cell(settings(), 0, e);
    let by_1 = score::cell(settings(), 1, e);
    print!(rt; ";{} reason {reason} cells {by_0} {by_1}", Row(words))
}

fn write_events(rt: &impl Print, words: &[u64], n: u64) -> io::Result<()>
    requires { 11 * n ≤ length words.now }
{
    print!(rt; " events {n}")?;
    for event in words[..11 * n as usize].chunks_exact(11) {
        write_event(rt, event)?;
    }
    Ok(())
}

// The line of a recording that is listed into these numbers.
fn write_line(rt: &impl Print, name: &str, samples: &[i32], words: &mut [u64]) -> io::Result<()> {
    let listed = list::list(settings(), samples, words);
    print!(rt; "{name}")?;
    match listed {
        Ok(n) => write_events(rt, words, n)?,
        Err(refusal) => write_refusal(rt, refusal)?,
    }
    println!(rt)
}

// The line of a recording, with room for so many numbers.
fn write_case(rt: &impl Print, name: &str, samples: &[i32], room: usize) -> io::Result<()>
    requires { room ≤ 22 }
{
    let mut words = [9; 22];
    write_line(rt, name, samples, &mut words[..room])
}

// The first `n` blocks of these values.
fn write_blocks(rt: &impl Print, name: &str, values: [i32; 8], n: usize) -> io::Result<()>
    requires { n ≤ 8 }
{
    let run = blocks(values, values);
    write_case(rt, name, &run[..12 * n], 22)
}

// 1000 1000 v v 1000 1000.
fn write_dip(rt: &impl Print, name: &str, v: i32) -> io::Result<()> {
    write_case(rt, name, &dip(v, v), 22)
}

// No samples; a sample out of range; K2 with room for less than its event.
fn write_turned_away(rt: &impl Print) -> io::Result<()> {
    let mut run = dip(500, 500);
    write_case(rt, "no samples:", &[], 22)?;
    write_case(rt, "room 10:", &run, 10)?;
    run[20] = 100_001;
    write_case(rt, "sample 100001:", &run, 22)
}

fn main(rt: HostRuntime) -> io::Result<()> {
    write_dip(&rt, "K1:", 1000)?;
    write_dip(&rt, "K2:", 500)?;
    write_blocks(&rt, "K3:", [900; 8], 6)?;
    write_dip(&rt, "K4:", 899)?;
    write_blocks(&rt, "K5:", [1000, 899, 899, 919, 919, 920, 920, 0], 7)?;
    write_dip(&rt, "K6:", 0)?;
    write_blocks(&rt, "K7:", [1000, 1000, 100, 101, 1000, 1000, 0, 0], 6)?;
    write_blocks(&rt, "K8:", [500, 500, 1000, 1000, 0, 0, 0, 0], 4)?;
    write_case(&rt, "K9:", &k9(), 22)?;
    write_dip(&rt, "K10:", 1200)?;
    write_blocks(&rt, "K11:", [500; 8], 2)?;
    write_case(&rt, "K12:", &dip(500, 1000), 22)?;
    write_turned_away(&rt)
}
