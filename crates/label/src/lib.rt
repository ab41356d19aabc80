// What is answered to a label: its sheet over the demonstration data, or that it is too long.
#![tactic(auto)]

ghost use Rattle.std.specs.Prelude.{true, ◌≡◌};
ghost use Rattle.detector.specs.Feed.{feed_of};
ghost use Rattle.label.specs.Label.{state_of, answer_of};
ghost use Rattle.scribe.specs.Lent.{with_text};
ghost use Rattle.state.specs.State.{start_of};
ghost use Rattle.tables.specs.Lists.{lists};

use demo;
use detector::feed;
use scribe::STDOUT_FILENO;
use scribe::page::Page;
use sheet;
use state;
use state::State;
use std::convert::AsSlice;
use tables::{Single, Tables};

// A label's bytes at most.
pub const MOST: usize = 65_536;

// As many bytes as tell that a label is too long.
pub const READ: usize = MOST + 1;

// Every place takes part.
const ALL: u16 = 0x1FF;

// All places in, the label as one closing chunk.
fn over(label: &[u8], tables: &Tables) -> State
    ensures { result ≡ (feed_of (lists tables.now) (start_of 511) label.now true).state }
{
    let begun = state::start(ALL);
    let fed = feed::feed(begun.state, label, true, tables);
    let after = fed.state;
    after
}

// What it leaves, over the demonstration data: the four single-byte places have the same tables.
pub fn fed(label: &[u8]) -> State
    ensures { result ≡ state_of label.now }
{
    let big5: demo::Big5 = demo::unmapped();
    let euckr: demo::EucKr = demo::unmapped();
    let jis: demo::Jis = demo::unmapped();
    let single = Single {
        classes: &demo::classes(),
        marks: &demo::marks(),
        pairs: &demo::pairs(),
    };
    over(
        label,
        &Tables {
            caseless: single,
            logical: single,
            visual: single,
            arabic_french: single,
            big5: &big5,
            euckr: &euckr,
            jis: &jis,
            extras: &demo::extras(),
            weights: &demo::weights(),
        },
    )
}

pub fn answer(label: &[u8], out: &mut Page)
    ensures { out.new ≡ with_text out.old (answer_of label.now) }
{
    if MOST < label.len() {
        out.word(b"too long\n");
    } else {
        sheet::write(out, fed(label));
    }
}

// The same on standard output.
// Printed by `io::write_all`: `println!` gives each call a `Result` to be thrown away.
pub fn print_answer(label: &[u8]) {
    let mut text = [0u8; sheet::ROOM];
    let mut out = Page::new(&mut text, 0);
    answer(label, &mut out);
    io::write_all(STDOUT_FILENO, out.as_slice());
}
