// Runs the ISO-2022-JP machine, over the Standard's published JIS X 0208 index, through every escape of three bytes, every byte
// after each escape that is one, every pair after ESC $ B, and every escape straight after another. Each is compared with a second
// check, written another way. Prints how many there were, how many were whole, cut and none, and on how many the two differ, in
// the reason and the place of a drop-out too.
#![tactic(auto)]

ghost use Rattle.std.specs.Prelude.{◌≤◌};

use iso2022jp::Iso2022Jp;
use laws::Stop;
use lengths::JIS;
use reader::fill;
use std::fs::File;
use std::io::Result;
use std::os::fd::AsRawFd;
use tally::{Counts, Verdict};

fn machine(part: &[u8], index: &[u32]) -> Verdict {
    match Iso2022Jp::fresh().run(part, index) {
        Ok(m) => match m.close() {
            Ok(_) => Verdict::of(tally::WHOLE),
            Err(Stop::Dropped(reason, at)) => Verdict::dropped(reason, at),
            Err(Stop::Unfit) => Verdict::of(tally::UNFIT),
        },
        Err(Stop::Dropped(reason, at)) => Verdict::dropped(reason, at.wrapping_add(1)),
        Err(Stop::Unfit) => Verdict::of(tally::UNFIT),
    }
}

// An escape after so many bytes with these last two, that is broken at one of them.
fn broken_escape(after: usize, x: u8) -> Verdict
    requires { after ≤ 3 }
{
    Verdict::broken(match x {
        0x24 | 0x28 => after + 3,
        _ => after + 2,
    })
}

// The five escapes.
fn second_escape(x: u8, y: u8) -> Verdict {
    match (x, y) {
        (0x24, 0x40 | 0x42) | (0x28, 0x42 | 0x49 | 0x4A) => Verdict::of(tally::WHOLE),
        _ => broken_escape(0, x),
    }
}

// A byte after the escape ESC ( or ESC $ with this last byte.
fn second_after(last: u8, b: u8) -> Verdict {
    match (last, b) {
        (_, 0x1B) => Verdict::of(tally::CUT),
        (0x49, 0x21..=0x5F) => Verdict::of(tally::WHOLE),
        (0x49, _) => Verdict::bad(4),
        (0x40, 0x21..=0x7E) => Verdict::of(tally::CUT),
        (0x40, _) => Verdict::bad(4),
        (_, 14 | 15 | 0x80..) => Verdict::bad(4),
        _ => Verdict::of(tally::WHOLE),
    }
}

// Where a pair stands, by its row and its cell, both counted from 0.
fn pair_place(a: u8, b: u8) -> Option<usize> {
    match (a, b) {
        (33..=126, 33..=126) => Some(usize::from(a - 33) * 94 + usize::from(b - 33)),
        _ => None,
    }
}

fn second_pair(a: u8, b: u8, index: &[u32]) -> Verdict {
    if a == 0x1B {
        return match b {
            0x24 | 0x28 => Verdict::of(tally::CUT),
            _ => Verdict::broken(5),
        };
    }
    let entry = pair_place(a, b)
        .filter(|at| *at < Iso2022Jp::FIRST)
        .and_then(|at| index.get(at));
    match (entry, a) {
        (Some(1..), _) => Verdict::of(tally::WHOLE),
        (_, 33..=126) => Verdict::bad(5),
        _ => Verdict::bad(4),
    }
}

// What the machine makes of each case, and the second check, of the two low bytes of each number below `to`.
fn swept<F: Fn(u8, u8) -> (Verdict, Verdict)>(to: u32, case: F) -> Counts
    requires { F.IsAlwaysCallable case }
{
    let mut counts = Counts::nothing();
    for n in 0..to {
        let (found, expected) = case((n / 256 % 256) as u8, (n % 256) as u8);
        counts = counts.counted(found, expected);
    }
    counts
}

// The bytes after an escape.
// Printed by `io::write_all`: `println!` gives each call a `Result` to be thrown away.
fn print_after(second: u8, last: u8, name: &[u8], index: &[u32]) {
    let counts = swept(256, |_, b| {
        let found = machine(&[0x1B, second, last, b], index);
        (found, second_after(last, b))
    });
    counts.print(name);
}

fn print_sweeps(index: &[u32]) {
    swept(
        65536,
        |a, b| (machine(&[0x1B, a, b], index), second_escape(a, b)),
    )
    .print(b"escapes:");
    print_after(0x28, 0x42, b"bytes after ESC ( B:", index);
    print_after(0x28, 0x4A, b"bytes after ESC ( J:", index);
    print_after(0x28, 0x49, b"bytes after ESC ( I:", index);
    print_after(0x24, 0x40, b"bytes after ESC $ @:", index);
    swept(65536, |a, b| {
        let found = machine(&[0x1B, 0x24, 0x42, a, b], index);
        (found, second_pair(a, b, index))
    })
    .print(b"pairs after ESC $ B:");
    swept(65536, |a, b| {
        let found = machine(&[0x1B, 0x28, 0x42, 0x1B, a, b], index);
        (found, broken_escape(3, a))
    })
    .print(b"escapes straight after ESC ( B:");
}

fn main(rt: HostRuntime) -> Result<()> {
    let file = File::open(&rt, "index-jis0208.u32le")?;
    let mut bytes = [0u8; 4 * JIS];
    let got = io::read_full(file.as_raw_fd(), &mut bytes);
    drop(file);
    tally::print_count(b"bytes of the index ", got as u64);
    let mut index = [0u32; JIS];
    fill::entries(&bytes, &mut index);
    tally::print_mapped(b", mapped ", &index);
    tally::print_count(b", of the first ", Iso2022Jp::FIRST as u64);
    tally::print_mapped(b" entries ", &index[0..Iso2022Jp::FIRST]);
    tally::print_word(b"\n");
    print_sweeps(&index);
    Ok(())
}
