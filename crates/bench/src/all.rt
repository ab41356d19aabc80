// A whole detector over a text in chunks of one size, never closed; prints the state after it.
ghost use Rattle.std.specs.Prelude.{◌<◌, ◌≤◌};

use crate::{arguments, lent};
use detector::feed;
use lines::show;
use scribe::page::Page;
use scribe::{STDERR_FILENO, STDOUT_FILENO};
use state;
use state::State;
use std::convert::AsSlice;
use std::fs::File;
use std::os::fd::AsRawFd;
use std::rt::{Env, Files};
use std::str;
use tables::Tables;
use tables::held::Held;

// A chunk that no text is longer than.
const WHOLE: usize = 262_144;

// Where the chunk that begins at `at` ends.
fn ending(at: usize, size: usize, len: usize) -> usize
    requires at_lt_len { at < len }
    requires size_nonzero { 0 < size }
    ensures { (at < result) × (result ≤ len) }
{
    if len - at < size {
        return len;
    }
    at + size
}

// The state comes in from outside, as it does to a feed in a library. Where a start and the feed are compiled as one, the
// compiler takes the state apart into its fields, and each feed costs some 300 instructions more. So it does where the loop is
// over `chunks`: some 215 more.
fn over(from: State, size: usize, text: &[u8], tables: &Tables) -> State
    requires { 0 < size }
{
    let mut state = from;
    let mut at: usize = 0;
    while at < text.len() {
        let end = ending(at, size, text.len());
        let fed = feed::feed(state, &text[at..end], false, tables);
        state = fed.state;
        at = end;
    }
    state
}

// `replies` has this too. Shared, it would be a public function, and no contract can say what it prints.
fn print(state: State) {
    let mut text = [0u8; 2048];
    let mut out = Page::new(&mut text, 0);
    show::state(&mut out, state);
    io::write_all(STDOUT_FILENO, out.as_slice());
}

fn open(rt: &(impl Env + Files<File = File>)) -> Option<File> {
    let mut path = io::buffer();
    let n = arguments::argument(rt, 4, &mut path);
    let path = str::from_utf8(&path[..n]).ok()?;
    File::open(rt, path).ok()
}

fn run_over(bits: u16, size: usize, text: &[u8], from: i32) -> bool {
    let mut lent = Held::zero();
    if !lent::read(from, &mut lent) {
        return false;
    }
    let begun = state::start(bits);
    let start = begun.state;
    let tables = Tables::from(&lent);
    if size == 0 {
        print(over(start, WHOLE, text, &tables));
        return true;
    }
    print(over(start, size, text, &tables));
    true
}

// The arguments: the places that take part, as a number of nine bits, the size of a chunk (0 for all of the text), a file of
// lent data.
pub(crate) fn run(rt: &(impl Env + Files<File = File>), text: &[u8]) {
    let bits = (arguments::number(rt, 2) % 512) as u16;
    let size = arguments::number(rt, 3);
    let done = match open(rt) {
        Some(from) => run_over(bits, size, text, from.as_raw_fd()),
        None => false,
    };
    if !done {
        io::write_all(
            STDERR_FILENO,
            b"bench: all BITS CHUNK TABLES, the last a file of lent data\n",
        );
    }
}
