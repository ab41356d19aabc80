// The printed sheet: document 01's twelve lines, written onto a page.
#![tactic(auto)]

ghost use Rattle.std.specs.Prelude.{◌≡◌, ◌++◌};
ghost use Rattle.scribe.specs.Lent.{with_text};
ghost use Rattle.scribe.specs.Text.{newline, decimal_of};
ghost use Rattle.sheet.specs.Sheet.{score_text, place_line, place_lines, leader_name, leader_line, sheet_of};

use names;
use places::place::{Score, Slate};
use scribe::page::Page;
use state::leader::Leader;
use state::{State, leader};

// A buffer of so many bytes has room for every sheet.
pub const ROOM: usize = 512;

// The line of a count, its label before it.
fn count_line(out: &mut Page, label: &[u8], n: u64)
    ensures { out.new ≡ with_text out.old (label.now ++ decimal_of n ++ newline) }
{
    out.word(label);
    out.decimal(n);
    out.byte(b'\n');
}

fn score(out: &mut Page, score: Score)
    ensures { out.new ≡ with_text out.old (score_text score) }
{
    match score {
        Err(_) => out.word(b"none"),
        Ok(n) => out.signed(n),
    }
}

// The line of the place with number k.
fn place_line(out: &mut Page, k: usize, held: Score)
    ensures { out.new ≡ with_text out.old (place_line k held) }
{
    names::place(out, k);
    out.byte(b' ');
    score(out, held);
    out.byte(b'\n');
}

fn place_lines(out: &mut Page, slate: Slate)
    ensures { out.new ≡ with_text out.old (place_lines 0 slate) }
{
    for (k, place) in slate.iter().enumerate() {
        place_line(out, k, place.score);
    }
}

fn leader_name(out: &mut Page, leader: Leader)
    ensures { out.new ≡ with_text out.old (leader_name leader) }
{
    match leader {
        Leader::Ascii => out.word(b"ascii"),
        Leader::None => out.word(b"none"),
        Leader::Place(k) => names::place(out, k),
    }
}

pub fn leader_line(out: &mut Page, leader: Leader)
    ensures { out.new ≡ with_text out.old (leader_line leader) }
{
    out.word(b"leader ");
    leader_name(out, leader);
    out.byte(b'\n');
}

// All thirteen lines.
pub fn write(out: &mut Page, state: State)
    ensures { out.new ≡ with_text out.old (sheet_of state) }
{
    let front = state.front;
    let slate = state.places;
    out.word(b"slate 2\n");
    count_line(out, b"bytes ", front.bytes);
    count_line(out, b"nonascii ", front.non_ascii_seen);
    place_lines(out, slate);
    leader_line(out, leader::of(state));
}
