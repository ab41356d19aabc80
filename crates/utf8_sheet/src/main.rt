// Prints the sheet of the UTF-8 rule by state, runs of equal entries as ranges, to be compared with Unicode's table 3-7.
#![tactic(auto)]

mod sheet;

use scribe::STDOUT_FILENO;
use scribe::page::Page;
use std::convert::AsSlice;
use utf8::grid::GRID;

// Room for the text, which has 353 bytes.
const ROOM: usize = 1_024;

fn main() {
    let grid = GRID;
    let mut text = [0u8; ROOM];
    let mut out = Page::new(&mut text, 0);
    sheet::write(&mut out, &grid);
    io::write_all(STDOUT_FILENO, out.as_slice());
}
