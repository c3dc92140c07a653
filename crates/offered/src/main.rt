// Offers a fresh table of each set of borders several recordings, refused ones among them, through the public calls, and writes a line
// for each answer and one for the table. Then the table of zeros that a refused making hands back, which takes nothing.
#![tactic(auto)]

ghost use Rattle.std.specs.Prelude.{◌≤◌, length};

use cases::{dip, k9, settings, write_refusal};
use print::Row;
use rules::{Refusal, Table};
use std::io;

fn write_taken(rt: &impl Print, taken: Result<(), Refusal>) -> io::Result<()> {
    match taken {
        Ok(()) => print!(rt; " taken"),
        Err(refusal) => write_refusal(rt, refusal),
    }
}

// The table that is offered a recording; a line tells the answer.
fn offer(rt: &impl Print, name: &str, t: Table, samples: &[i32]) -> io::Result<Table> {
    let site = site::add(t, samples);
    let answer = site.answer;
    print!(rt; "{name}")?;
    write_taken(rt, answer)?;
    println!(rt)?;
    Ok(site.table)
}

// The cells that are not empty, each with its number and its count.
fn write_cells(rt: &impl Print, cells: &[u64]) -> io::Result<()> {
    for (i, count) in cells.iter().enumerate() {
        if *count != 0 {
            print!(rt; " cell {i} {count}")?;
        }
    }
    Ok(())
}

fn write_table(rt: &impl Print, name: &str, t: Table) -> io::Result<()> {
    let halves = [t.total, t.healthy, t.disturbed, t.unknown];
    let events = [t.sags, t.interruptions, t.swells];
    let parts = [t.parts.a, t.parts.b, t.parts.c];
    print!(rt; "{name} set {} half-cycles{}", t.set, Row(&halves))?;
    write_cells(rt, &t.cells)?;
    print!(rt; " unplaced {} events{}", t.unplaced, Row(&events))?;
    println!(rt; " shortfall {} by channel{}", t.shortfall, Row(&parts))
}

// The table that is offered 1000 1000 v v 1000 1000.
fn offer_dip(rt: &impl Print, name: &str, t: Table, v: i32) -> io::Result<Table> {
    offer(rt, name, t, &dip(v, v))
}

// A fresh table of a set that is offered several recordings, refused ones among them.
fn write_site(rt: &impl Print, set: u64) -> io::Result<()> {
    let run = dip(1000, 1000);
    let fresh = site::fresh(settings(), set);
    let t0 = fresh.table;
    let t1 = offer_dip(rt, "site, K2:", t0, 500)?;
    let t2 = offer(rt, "site, no samples:", t1, &[])?;
    let t3 = offer(rt, "site, K9:", t2, &k9())?;
    let t4 = offer(rt, "site, 71 numbers:", t3, run.split_at(71).0)?;
    let t5 = offer_dip(rt, "site, K6:", t4, 0)?;
    let t6 = offer_dip(rt, "site, K10:", t5, 1200)?;
    let t7 = offer_dip(rt, "site, K2 again:", t6, 500)?;
    let t8 = offer(rt, "site, K12:", t7, &dip(500, 1000))?;
    write_table(rt, "site:", t8)
}

// A making that is refused gives a table of zeros, and that takes nothing.
fn write_zeros(rt: &impl Print, name: &str, f: u64, set: u64) -> io::Result<()> {
    let mut s = settings();
    s.f = f;
    let fresh = site::fresh(s, set);
    let answer = fresh.answer;
    let zeros = fresh.table;
    print!(rt; "{name}")?;
    write_taken(rt, answer)?;
    println!(rt)?;
    let after = offer_dip(rt, "zeros, K2:", zeros, 500)?;
    write_table(rt, "zeros:", after)
}

fn main(rt: HostRuntime) -> io::Result<()> {
    write_site(&rt, 0)?;
    write_site(&rt, 1)?;
    write_zeros(&rt, "55 Hz and set 2:", 55, 2)?;
    write_zeros(&rt, "set 2:", 50, 2)
}
