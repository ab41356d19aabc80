// Feeds over states by hand, which standard input gives as numbers (`rows` says which): a line for each group of cases, its
// name and a colon, then the cases, a semicolon between two. A case is a pair of states and of how each is fed. `4x=11/10`
// sets x of row 4 to 11 in the first and to 10 in the second, `4x=11` in both; bytes are in hexadecimal after an `x`. Then every
// start (`starts`).
#![tactic(auto)]

mod group;
mod lent;
mod pen;
mod rows;
mod script;
mod starts;
mod tally;

use lines::show;
use rows::{FEED, NUMBERS, UNSET};
use scribe::page::Page;
use scribe::{STDIN_FILENO, STDOUT_FILENO};
use state::State;
use std::convert::AsSlice;

// `bench` has this too. Shared, it would be a public function, and no contract can say what it prints.
// Printed by `io::write_all`: `println!` gives each call a `Result` to be thrown away.
fn print_state(state: State) {
    let mut text = [0u8; 2048];
    let mut out = Page::new(&mut text, 0);
    show::state(&mut out, state);
    io::write_all(STDOUT_FILENO, out.as_slice());
}

// Document 01's printed case.
fn printed() {
    let mut numbers = [UNSET; NUMBERS];
    rows::set(&mut numbers, FEED, b'a', 4);
    rows::set(&mut numbers, FEED, b'b', 10);
    rows::set(&mut numbers, FEED, b'l', 1);
    let begun = state::start(0x1FF);
    let fed = lent::fed(begun.state, &numbers);
    let after = fed.state;
    print_state(after);
}

fn main() {
    printed();
    let mut text = io::large_buffer();
    let end = io::read_full(STDIN_FILENO, &mut text);
    script::run(&text[..end]);
    starts::run();
}
