// Drives one machine alone and prints a digest of its records, or its last record in words: what `oracle drive --digest`
// prints for the same input (oracle/README.md has the format).
#![tactic(auto)]

mod lent;
mod place;
mod record;

use digest::Digest;
use lines::show;
use place::Next;
use places::place::Place;
use reader::command::Command;
use reader::{command, number};
use scribe::page::Page;
use scribe::{STDIN_FILENO, STDOUT_FILENO};
use std::convert::AsSlice;
use tables::Tables;
use tables::held::Held;
use tables::own::Own;

// A stream byte by byte: the digest with the record after each, and after the close if there is one.
fn each(from: Digest, start: Place, part: &[u8], last: bool, own: &Own) -> Digest {
    let mut d = from;
    let mut p = start;
    for (i, &b) in part.iter().enumerate() {
        p = place::fed(p, Next::Byte(b, i), part, own);
        d = record::add(d, p);
    }
    if last {
        p = place::fed(p, Next::End, part, own);
        return record::add(d, p);
    }
    d
}

// Every two-byte stream, closed.
fn all_pairs(p: Place, own: &Own) -> Digest {
    let mut d = Digest::fresh();
    for n in 0..=u16::MAX {
        d = each(d, p, &n.to_be_bytes(), true, own);
    }
    d
}

// `bench` and `replies` print a state so too. Shared, it would be a public function, and no contract can say what it prints.
fn line(p: Place) {
    let mut text = [0u8; 192];
    let mut out = Page::new(&mut text, 0);
    show::place(&mut out, p);
    io::write_all(STDOUT_FILENO, out.as_slice());
}

// A case from its starting record over all its bytes, and what its command prints.
fn drive(command: u8, p: Place, all: &[u8], last: bool, own: &Own) {
    let d = Digest::fresh();
    if command == b'A' {
        all_pairs(p, own).print();
        return;
    }
    if command == b'M' {
        each(d, p, all, last, own).print();
        return;
    }
    let whole = Next::Part;
    let at = place::fed(p, whole, all, own);
    if last {
        let end = Next::End;
        line(place::fed(at, end, all, own));
        return;
    }
    line(at);
}

// The bytes of a case: whether they are the last of their stream, and how many they are. `A` has none.
fn bytes_of(command: u8, buffer: &mut [u8]) -> Command {
    if command == b'A' {
        return Command::Feed(true, 0);
    }
    let mut head = [0u8; 5];
    if io::read_full(STDIN_FILENO, &mut head) != 5 {
        return Command::Bad;
    }
    let length = number::at::<u32>(&head, 1) as usize;
    if buffer.len() < length {
        return Command::Bad;
    }
    if io::read_full(STDIN_FILENO, &mut buffer[0..length]) != length {
        return Command::Bad;
    }
    Command::Feed(head[0] == 1, length)
}

// The next byte of the input; answers how many there were.
fn next(to: &mut [u8; 1]) -> usize {
    io::read_full(STDIN_FILENO, to)
}

// Prints a name, which a line follows.
fn name(buffer: &mut [u8]) -> bool {
    let mut size = [0u8; 1];
    if next(&mut size) != 1 {
        return false;
    }
    let length = usize::from(size[0]);
    if buffer.len() < length {
        return false;
    }
    if io::read_full(STDIN_FILENO, &mut buffer[0..length]) != length {
        return false;
    }
    io::write_all(STDOUT_FILENO, &buffer[0..length]);
    io::write_all(STDOUT_FILENO, b": ");
    true
}

fn is_case(command: u8) -> bool {
    matches!(command, b'A' | b'L' | b'M')
}

// What follows a command: a name, or a case over the tables of its place. Answers whether it was well formed.
fn case(command: u8, buffer: &mut [u8], tables: &Tables) -> bool {
    if command == b'N' {
        return name(buffer);
    }
    if !is_case(command) {
        return false;
    }
    let mut head = [0u8; 41];
    if io::read_full(STDIN_FILENO, &mut head) != 41 {
        return false;
    }
    let Command::Feed(last, length) = bytes_of(command, buffer) else {
        return false;
    };
    if buffer.len() < length {
        return false;
    }
    let place = usize::from(head[0]);
    if 8 < place {
        return false;
    }
    let p = record::start(&head);
    let part = &buffer[0..length];
    let own = lent::own(tables, place);
    drive(command, p, part, last, &own);
    true
}

// The same, with the buffer as an array.
fn turn(command: u8, buffer: &mut [u8; command::CHUNK], tables: &Tables) -> bool {
    case(command, buffer, tables)
}

// Lent data comes first, without its letter.
fn main() {
    let mut buffer = [0u8; command::CHUNK];
    let mut held = Held::zero();
    let mut command = [b'T'; 1];
    for _ in 0..10_000_000 {
        let whole = if command[0] == b'T' {
            lent::lend(&mut held)
        } else {
            turn(command[0], &mut buffer, &Tables::from(&held))
        };
        if !whole {
            io::write_all(STDOUT_FILENO, b"bad input\n");
            return;
        }
        if next(&mut command) != 1 {
            return;
        }
    }
}
