// Runs one thing over standard input and prints its answer, so that its instructions can be counted: tools/instructions
// runs it and the Rust's counterpart (`oracle bench`) on the same bytes. The first argument names the thing.
#![tactic(auto)]

mod all;
mod arguments;
mod lent;

use context::Scanned;
use scribe::{STDERR_FILENO, STDIN_FILENO, STDOUT_FILENO};
use std::fs::File;
use std::rt::{Env, Files};

fn scanned_to(chunk: &[u8]) -> u64 {
    match context::scan(chunk) {
        Scanned::Escape(at) => at as u64,
        Scanned::NonAscii(at) => at as u64,
        Scanned::End => chunk.len() as u64,
    }
}

fn contains(label: &[u8]) -> u64 {
    u64::from(octets::contains_upper_case_period_or_non_ascii(label))
}

fn print(answer: u64) {
    io::print_decimal(STDOUT_FILENO, answer);
    io::write_all(STDOUT_FILENO, b"\n");
}

#[derive(Clone, Copy, PartialEq, Eq)]
enum Thing {
    Count,
    Scan,
    Contains,
    All,
}

const THINGS: [(&[u8], Thing); 4] = [
    (b"count_non_ascii", Thing::Count),
    (b"scan", Thing::Scan),
    (b"contains", Thing::Contains),
    (b"all", Thing::All),
];

fn named(name: &[u8]) -> Option<Thing> {
    THINGS
        .iter()
        .find(|(known, _)| check::same(known, name))
        .map(|(_, thing)| *thing)
}

// A program can't end with a status of its own: what is not known prints nothing on standard output.
fn unknown() {
    io::write_all(
        STDERR_FILENO,
        b"bench: its first argument is one of count_non_ascii, scan, contains, all\n",
    );
}

// Each case calls what is its own: a table of functions would have to give them one signature.
fn run(rt: &(impl Env + Files<File = File>), what: Thing) {
    let mut bytes = [0u8; 262144];
    let n = io::read_full(STDIN_FILENO, &mut bytes);
    match what {
        Thing::Count => print(context::count_non_ascii(&bytes[..n])),
        Thing::Scan => print(scanned_to(&bytes[..n])),
        Thing::Contains => print(contains(&bytes[..n])),
        Thing::All => all::run(rt, &bytes[..n]),
    }
}

fn main(rt: HostRuntime) {
    let mut name = [0u8; 32];
    let k = arguments::argument(&rt, 1, &mut name);
    match named(&name[..k]) {
        Some(what) => run(&rt, what),
        None => unknown(),
    }
}
