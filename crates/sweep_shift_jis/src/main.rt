// Runs the Shift_JIS machine, over the Standard's published JIS X 0208 index, through every byte and every pair of bytes, and over
// indexes that have other entries at the pointers of private use and beside them. Each is compared with a second check, written
// another way, by the rows and cells of the plane. Then runs short streams, cut in two and in three at every place, against the same
// stream in one piece. Prints how many there were, how many were whole, cut and none, and on how many the two differ, in the
// reason and the place of a drop-out too.
#![tactic(auto)]

ghost use Rattle.std.specs.Prelude.{◌≤◌, length};

use laws::Stop;
use lengths::JIS;
use reader::fill;
use shift_jis::ShiftJis;
use std::fs::File;
use std::io::Result;
use std::os::fd::AsRawFd;
use tally::{Counts, Verdict};

// The pointers of private use, and the first after them.
const PRIVATE: usize = 8836;

const PAST: usize = 10716;

// ---- the machine
// What it is that the machine stopped after so many bytes.
fn stopped(stop: Stop, after: usize) -> Verdict {
    match stop {
        Stop::Dropped(reason, at) => Verdict::dropped(reason, after.wrapping_add(at)),
        Stop::Unfit => Verdict::of(tally::UNFIT),
    }
}

fn ended(m: ShiftJis) -> Verdict {
    match m.close() {
        Ok(_) => Verdict::of(tally::WHOLE),
        Err(stop) => stopped(stop, 0),
    }
}

// What comes of a stream in one piece. It is no call of `machine_in`: over a list of one part the sweeps of all pairs take half as
// many instructions again.
fn machine(stream: &[u8], index: &[u32]) -> Verdict {
    match ShiftJis::fresh().run(stream, index) {
        Ok(m) => ended(m),
        Err(stop) => stopped(stop, 1),
    }
}

// What comes of a stream that is fed in these parts.
fn machine_in(parts: &[&[u8]], index: &[u32]) -> Verdict {
    let mut m = ShiftJis::fresh();
    let mut after: usize = 0;
    for part in parts {
        match m.run(part, index) {
            Ok(next) => m = next,
            Err(stop) => return stopped(stop, after.wrapping_add(1)),
        }
        after = after.wrapping_add(part.len());
    }
    ended(m)
}

// ---- the second check
// What a byte is where a character begins.
#[derive(Clone, Copy, PartialEq, Eq)]
enum Sort {
    Alone,
    Lead,
    Never,
}

// By its two halves.
fn sort_of(b: u8) -> Sort {
    match (b / 16, b % 16) {
        (8, 1..) | (9 | 14, _) | (15, 0..=12) => Sort::Lead,
        (10, 0) | (15, _) => Sort::Never,
        _ => Sort::Alone,
    }
}

// A lead stands for two rows of the plane, sixteen leads for 32. The second of the two, counted from 1.
fn second_row(lead: u8) -> u8 {
    let low = 2 * (lead % 16);
    match lead / 16 {
        8 => low,
        9 => 32 + low,
        14 => 64 + low,
        _ => 96 + low,
    }
}

// The cell of a byte in the first of a lead's two rows, and in the second, counted from 1.
fn first_cell(b: u8) -> Option<u8> {
    match b {
        0x40..=0x7E => Some(b - 63),
        0x80..=0x9E => Some(b - 64),
        _ => None,
    }
}

fn second_cell(b: u8) -> Option<u8> {
    match b {
        0x9F..=0xFC => Some(b - 158),
        _ => None,
    }
}

// Whether an entry is a character: not of ASCII, in the first plane, and no surrogate, which are the 28th of its stretches of 2,048.
fn is_character(entry: u32) -> bool {
    0x7F < entry && entry < 0x1_0000 && entry / 0x800 != 27
}

// Whether a cell of a row, both counted from 1, has a character. The rows 95 to 114 are of private use.
fn has_character(row: u8, cell: u8, index: &[u32]) -> bool {
    match row {
        95..=114 => true,
        _ => (usize::from(row) * 94 + usize::from(cell))
            .checked_sub(95)
            .and_then(|at| index.get(at))
            .is_some_and(|entry| is_character(*entry)),
    }
}

fn is_pair(lead: u8, b: u8, index: &[u32]) -> bool {
    let row = second_row(lead);
    if let Some(cell) = second_cell(b) {
        return has_character(row, cell, index);
    }
    let Some(cell) = first_cell(b) else {
        return false;
    };
    0 < row && has_character(row - 1, cell, index)
}

// One character after the other. A step is one byte or two, or ends the stream, so no `for` goes over the bytes.
fn second(stream: &[u8], index: &[u32]) -> Verdict {
    let mut left = stream;
    while let [b, rest @ ..] = left {
        left = match (sort_of(*b), rest) {
            (Sort::Never, _) => return Verdict::bad(stream.len() - rest.len()),
            (Sort::Alone, _) => rest,
            (Sort::Lead, []) => return Verdict::of(tally::CUT),
            (Sort::Lead, [trail, after @ ..]) => {
                if !is_pair(*b, *trail, index) {
                    return Verdict::bad(stream.len() - after.len());
                }
                after
            }
        };
    }
    Verdict::of(tally::WHOLE)
}

// A lead of private use and this byte: whole for every byte that has a cell.
fn second_private(b: u8) -> Verdict {
    match first_cell(b).or(second_cell(b)) {
        Some(_) => Verdict::of(tally::WHOLE),
        None => Verdict::bad(2),
    }
}

// ---- sweeps
// What the machine makes of each case, and the second check, of the two low bytes of each number.
fn swept<F: Fn(u8, u8) -> (Verdict, Verdict)>(from: u32, to: u32, case: F) -> Counts
    requires { F.IsAlwaysCallable case }
{
    let mut counts = Counts::nothing();
    for n in from..to {
        let (found, expected) = case((n / 256 % 256) as u8, (n % 256) as u8);
        counts = counts.counted(found, expected);
    }
    counts
}

// Printed by `io::write_all`: `println!` gives each call a `Result` to be thrown away.
fn print_singles(index: &[u32]) {
    swept(0, 256, |_, b| (machine(&[b], index), second(&[b], index))).print(b"single bytes:");
}

fn print_pairs(index: &[u32]) {
    swept(
        0,
        65536,
        |a, b| (machine(&[a, b], index), second(&[a, b], index)),
    )
    .print(b"pairs:");
}

// ---- private use
// With this entry at the pointers just before private use and just after it; what is expected of the pairs that point there.
fn print_beside(index: &mut [u32; JIS], entry: u32, expected: Verdict) {
    index[PRIVATE - 1] = entry;
    index[PAST] = entry;
    let before = machine(&[0xEF, 0xFC], index);
    let after = machine(&[0xFA, 0x40], index);
    let counts = Counts::nothing()
        .counted(before, expected)
        .counted(after, expected);
    tally::print_count(b"with ", u64::from(entry));
    counts.print(b" beside it, EF FC and FA 40:");
}

// With this entry at the pointers of private use.
fn print_private(index: &mut [u32; JIS], entry: u32) {
    index[PRIVATE..PAST].fill(entry);
    tally::print_count(b"with ", u64::from(entry));
    tally::print_word(b" in private use,\n");
    print_beside(index, 0x3042, Verdict::of(tally::WHOLE));
    print_beside(index, 0, Verdict::bad(2));
    print_pairs(index);
    swept(
        0xF000,
        0xFA00,
        |a, b| (machine(&[a, b], index), second_private(b)),
    )
    .print(b"leads F0 to F9 and any byte:");
}

// ---- cuts
// What was found of streams in one piece, cut in two, and cut in three.
#[derive(Clone, Copy)]
struct Cuts {
    one: Counts,
    two: Counts,
    three: Counts,
}

fn counted_two(counts: Counts, stream: &[u8], index: &[u32]) -> Counts {
    let expected = machine(stream, index);
    let mut found = counts;
    for cut in 0..=stream.len() {
        found = found.counted(
            machine_in(&[&stream[..cut], &stream[cut..]], index),
            expected,
        );
    }
    found
}

// The first of the two cuts anywhere up to the second.
fn counted_three(counts: Counts, stream: &[u8], second: usize, index: &[u32]) -> Counts
    requires { second ≤ length stream.now }
{
    let expected = machine(stream, index);
    let mut found = counts;
    for first in 0..=second {
        found = found.counted(
            machine_in(
                &[&stream[..first], &stream[first..second], &stream[second..]],
                index,
            ),
            expected,
        );
    }
    found
}

fn with_stream(cuts: Cuts, stream: &[u8], index: &[u32]) -> Cuts {
    let one = cuts.one;
    let two = cuts.two;
    let mut three = cuts.three;
    for second in 0..=stream.len() {
        three = counted_three(three, stream, second, index);
    }
    Cuts {
        one: one.counted(machine(stream, index), second(stream, index)),
        two: counted_two(two, stream, index),
        three,
    }
}

// The streams that are run whole and cut.
const STREAMS: [&[u8]; 12] = [
    // ASCII; katakana; pairs; all of them, with 80, private use and the index's last character
    b"Rattle ~\\",
    b"\xB1\xDF\xA1\xC0",
    b"\x82\xA0\x93\xFA\x96\x7B",
    b"A\xB1\x82\xA0\x80~\xF0\x40\xF9\xFC\xFC\x4B",
    // a byte that is never right: first, amid others and last
    b"\xFDAB",
    b"A\x82\xA0\xA0\xB1",
    b"\xB1\x83\x41\xFF",
    // a byte that is no trail, twice, and a pair that the index lacks
    b"B\xB1\x81\x7FC",
    b"\x83\x40\xE0 A",
    b"\x82\xA0\x85\x40\x82\xA0",
    // a lead that is open at the end
    b"\x93",
    b"A\x82\xA0\xDF\xFC",
];

fn print_streams(index: &[u32]) {
    let mut cuts = Cuts {
        one: Counts::nothing(),
        two: Counts::nothing(),
        three: Counts::nothing(),
    };
    for stream in STREAMS {
        cuts = with_stream(cuts, stream, index);
    }
    cuts.one.print(b"streams in one piece:");
    cuts.two.print(b"cut in two:");
    cuts.three.print(b"cut in three:");
}

fn main(rt: HostRuntime) -> Result<()> {
    let file = File::open(&rt, "index-jis0208.u32le")?;
    let mut bytes = [0u8; 4 * JIS];
    let got = io::read_full(file.as_raw_fd(), &mut bytes);
    drop(file);
    tally::print_count(b"bytes of the index ", got as u64);
    let mut index = [0u32; JIS];
    fill::entries(&bytes, &mut index);
    tally::print_mapped(b", mapped ", &index);
    tally::print_word(b"\n");
    print_singles(&index);
    print_pairs(&index);
    print_streams(&index);
    print_private(&mut index, 0);
    print_private(&mut index, 1);
    print_private(&mut index, 0x11_0000);
    print_private(&mut index, 0xD800);
    print_private(&mut index, 0x4E00);
    Ok(())
}
