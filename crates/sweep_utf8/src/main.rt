// Runs the UTF-8 machine over every short sequence of bytes and compares it with a second check, written another way: from the
// bytes read so far, the interval of code points that they can still become. Prints how many sequences there were, how many were
// whole, cut and none, and on how many the two differ, in the byte at which it is none too.
#![tactic(auto)]

ghost use Rattle.std.specs.Prelude.{◌<◌, ◌≤◌};

use laws::Stop;
use tally::{Counts, Verdict};
use utf8::Utf8;

// What the bytes of one sequence, read so far, can become: with `left` bytes to come, the code points from `low` on, one for each
// value of those bytes. `least` is the lowest code point that may be written with so many bytes.
#[derive(Clone, Copy)]
struct Part {
    left: u8,
    low: u64,
    least: u64,
}

fn machine(part: &[u8]) -> Verdict {
    match Utf8::fresh().run(part) {
        Ok(m) => match m.close() {
            Ok(_) => Verdict::of(tally::WHOLE),
            Err(Stop::Dropped(reason, at)) => Verdict::dropped(reason, at),
            Err(Stop::Unfit) => Verdict::of(tally::UNFIT),
        },
        Err(Stop::Dropped(reason, at)) => Verdict::dropped(reason, at.wrapping_add(1)),
        Err(Stop::Unfit) => Verdict::of(tally::UNFIT),
    }
}

// Bits with the room of so many trail bytes below them.
fn above(bits: u8, left: u8) -> u64 {
    let bits = u64::from(bits);
    match left {
        0 => bits,
        1 => 64 * bits,
        2 => 4096 * bits,
        _ => 262_144 * bits,
    }
}

fn begun(bits: u8, left: u8, least: u64) -> Option<Part> {
    let low = above(bits, left);
    Some(Part { left, low, least })
}

// Whether one of those code points may be written so: not too low, not above U+10FFFF, no surrogate.
fn is_possible(part: Part) -> bool {
    let from = part.low.max(part.least);
    let past = part.low.wrapping_add(above(1, part.left)).min(0x11_0000);
    from < past && (from < 0xD800 || 0xE000 < past)
}

// A byte more, where it can be one.
fn taken(part: Part, b: u8) -> Option<Part> {
    match (part.left, b) {
        (0, _) => first(b),
        (left, 0x80..=0xBF) => Some(Part {
            left: left - 1,
            low: part.low.wrapping_add(above(b % 64, left - 1)),
            least: part.least,
        }),
        _ => None,
    }
}

// A lead, by its leading ones.
fn first(b: u8) -> Option<Part> {
    match b {
        0x00..=0x7F => begun(b, 0, 0),
        0xC0..=0xDF => begun(b % 32, 1, 0x80),
        0xE0..=0xEF => begun(b % 16, 2, 0x800),
        0xF0..=0xF7 => begun(b % 8, 3, 0x1_0000),
        _ => None,
    }
}

fn second(bytes: &[u8]) -> Verdict {
    let mut part = Part {
        left: 0,
        low: 0,
        least: 0,
    };
    for (i, b) in bytes.iter().enumerate() {
        match taken(part, *b).filter(|next| is_possible(*next)) {
            Some(next) => part = next,
            None => return Verdict::bad(i + 1),
        }
    }
    match part.left {
        0 => Verdict::of(tally::WHOLE),
        _ => Verdict::of(tally::CUT),
    }
}

fn counted(counts: Counts, bytes: &[u8]) -> Counts {
    counts.counted(machine(bytes), second(bytes))
}

// The first `len` of the four bytes of each number from `from` on, below `to`, by `step`.
fn swept(len: usize, from: u64, to: u64, step: usize) -> Counts
    requires { (len ≤ 4) × (0 < step) }
{
    let mut counts = Counts::nothing();
    for n in (from..to).step_by(step) {
        let bytes = ((n % 0x1_0000_0000) as u32).to_be_bytes();
        counts = counted(counts, &bytes[..len]);
    }
    counts
}

// The bytes at which a range of trail bytes can begin or end, and those beside them.
const EDGES: [u8; 8] = [0x7F, 0x80, 0x8F, 0x90, 0x9F, 0xA0, 0xBF, 0xC0];

// From each lead of four bytes.
fn swept_edges() -> Counts {
    let mut counts = Counts::nothing();
    for lead in 0xF0..=0xF4 {
        for second in EDGES {
            for third in EDGES {
                for fourth in EDGES {
                    counts = counted(counts, &[lead, second, third, fourth]);
                }
            }
        }
    }
    counts
}

// Printed by `io::write_all`: `println!` gives each call a `Result` to be thrown away.
fn print_one(name: &[u8], bytes: &[u8]) {
    counted(Counts::nothing(), bytes).print(name);
}

fn main() {
    swept(1, 0, 0x1_0000_0000, 0x100_0000).print(b"one byte:");
    swept(2, 0, 0x1_0000_0000, 0x1_0000).print(b"two bytes:");
    swept(3, 0xC200_0000, 0xF500_0000, 0x100).print(b"three bytes from a lead:");
    swept_edges().print(b"four bytes at the edges:");
    print_one(b"ED 9F BF:", &[0xED, 0x9F, 0xBF]);
    print_one(b"ED A0 80:", &[0xED, 0xA0, 0x80]);
    print_one(b"F4 8F BF BF:", &[0xF4, 0x8F, 0xBF, 0xBF]);
    print_one(b"F4 90 80 80:", &[0xF4, 0x90, 0x80, 0x80]);
    print_one(b"C0 80:", &[0xC0, 0x80]);
    print_one(b"F0 8F BF BF:", &[0xF0, 0x8F, 0xBF, 0xBF]);
    print_one(b"E0 9F BF:", &[0xE0, 0x9F, 0xBF]);
}
