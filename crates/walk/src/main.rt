// Walks the channels of K12 and of a ragged run through a view and writes each channel's samples on a line, with the
// position where there is none. Channel 3, which no run has, is walked too.
#![tactic(auto)]

use cases::dip;
use std::io;
use view::View;

// The samples of a channel from a position on, and the position where there is none.
fn write_from(rt: &impl Print, samples: &[i32], channel: usize, start: usize) -> io::Result<()> {
    let mut v = View::new(samples, channel, start);
    for x in v.by_ref() {
        print!(rt; " {x}")?;
    }
    println!(rt; " none at {}", v.position())
}

// A line for each channel from the start, and one from the last position there can be.
fn write_run(rt: &impl Print, samples: &[i32]) -> io::Result<()> {
    for channel in 0..4 {
        print!(rt; "channel {channel}:")?;
        write_from(rt, samples, channel, 0)?;
    }
    print!(rt; "far:")?;
    write_from(rt, samples, 0, usize::MAX)
}

fn main(rt: HostRuntime) -> io::Result<()> {
    println!(&rt; "K12")?;
    write_run(&rt, &dip(500, 1000))?;
    // Eight samples: a and b have three, c two; a's second is missing, b's second and third are out of range.
    let ragged = [1, 2, 3, i32::MIN, 100_001, -5, 7, i32::MAX];
    println!(&rt; "ragged")?;
    write_run(&rt, &ragged)
}
