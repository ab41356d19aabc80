// What is told of a file: each place with its score, or why and where in the file it dropped out.
#![tactic(auto)]

ghost use Rattle.std.specs.Prelude.{◌≡◌, ◌-◌};
ghost use Rattle.account.specs.Account.{head_length, told_text, place_line, place_lines, count_lines, account_of, answer_of};
ghost use Rattle.scribe.specs.Lent.{with_text};

use label;
use label::MOST;
use names;
use places::place::{Score, Slate};
use scribe::STDOUT_FILENO;
use scribe::page::Page;
use spot::File;
use state::State;
use state::front::Front;
use std::convert::AsSlice;

// A buffer of so many bytes has room for every answer.
pub const ROOM: usize = 1_280;

// How many bytes the head has.
fn head_length(front: Front) -> u64
    ensures { result ≡ head_length front }
{
    front.bytes.saturating_sub(front.body)
}

fn told(out: &mut Page, file: File, score: Score)
    ensures { out.new ≡ with_text out.old (told_text file.entry.bytes.now file.entry.head score) }
{
    match score {
        Err(why) => spot::dropped(out, file, why.reason, why.at as usize),
        Ok(n) => {
            out.word(b"score ");
            out.signed(n);
        }
    }
}

// The line of the place with number k.
fn place_line(out: &mut Page, file: File, k: usize, held: Score)
    ensures { out.new ≡ with_text out.old (place_line file.entry.bytes.now file.entry.head k held) }
{
    names::place(out, k);
    out.word(b": ");
    told(out, file, held);
    out.byte(b'\n');
}

fn place_lines(out: &mut Page, file: File, slate: Slate)
    ensures { out.new ≡ with_text out.old (place_lines file.entry.bytes.now file.entry.head 0 slate) }
{
    for (k, place) in slate.iter().enumerate() {
        place_line(out, file, k, place.score);
    }
}

fn count_lines(out: &mut Page, bytes: u64, head: u64)
    ensures { out.new ≡ with_text out.old (count_lines bytes head) }
{
    out.word(b"why 1\nbytes ");
    out.decimal(bytes);
    out.byte(b'\n');
    out.word(b"head ");
    out.decimal(head);
    out.byte(b'\n');
}

// What a state tells of the file whose bytes it was fed.
pub fn write(out: &mut Page, file: &[u8], state: State)
    ensures { out.new ≡ with_text out.old (account_of file.now state) }
{
    let front = state.front;
    let slate = state.places;
    let head = head_length(front);
    count_lines(out, front.bytes, head);
    let headed = File {
        bytes: file,
        head: head as usize,
    };
    place_lines(out, headed, slate);
}

pub fn answer(file: &[u8], out: &mut Page)
    ensures { out.new ≡ with_text out.old (answer_of file.now) }
{
    if MOST < file.len() {
        out.word(b"too long\n");
    } else {
        write(out, file, label::fed(file));
    }
}

// The same on standard output.
// Printed by `io::write_all`: `println!` gives each call a `Result` to be thrown away.
pub fn print_answer(file: &[u8]) {
    let mut text = [0u8; ROOM];
    let mut out = Page::new(&mut text, 0);
    answer(file, &mut out);
    io::write_all(STDOUT_FILENO, out.as_slice());
}
