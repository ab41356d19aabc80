// Why and where in a file a place dropped out: the line after the place's name.
#![tactic(auto)]

ghost use Rattle.std.specs.Prelude.{◌≡◌, cond, ◌++◌, eqb, length, ◌-◌, ◌<◌, ◌≤◌};
ghost use Rattle.scribe.specs.Lent.{with_text};
ghost use Rattle.spot.specs.Spot.{spaced_hexes, before_text, marked_text, byte_text, end_text, at_place_text, where_text, unhyphened, spot_text};
ghost use Rattle.spot.specs.SpotLaws.{Shown};
ghost use Rattle.scribe.specs.Text.{ascii};
ghost use Rattle.names.specs.Names.{reason_name};

use laws::Reason;
use names;
use scribe::page::Page;
use std::convert::AsSlice;

// A file's bytes, and how many of them its head has.
#[derive(Clone, Copy)]
pub struct File<'a> {
    pub bytes: &'a [u8],
    pub head: usize,
}

// So many bytes are shown on each side.
const SIDE: usize = 4;

// In hexadecimal, a space before each.
fn hexes(out: &mut Page, bytes: &[u8])
    ensures { out.new ≡ with_text out.old (spaced_hexes bytes.now) }
{
    for b in bytes {
        out.byte(b' ');
        out.hex(*b);
    }
}

fn before(out: &mut Page, file: &[u8], offset: usize)
    requires { offset ≤ length file.now }
    ensures { out.new ≡ with_text out.old (before_text file.now offset) }
{
    let from = offset.saturating_sub(SIDE);
    hexes(out, &file[from..offset]);
}

// Where the bytes after an offset end that are shown.
fn shown(offset: usize, length: usize) -> usize
    requires { offset < length }
    ensures { Shown offset length result }
{
    if SIDE < length - (offset + 1) {
        return offset + 1 + SIDE;
    }
    length
}

// The byte at an offset, marked, and those after it.
fn marked(out: &mut Page, file: &[u8], offset: usize)
    requires { offset < length file.now }
    ensures { out.new ≡ with_text out.old (marked_text file.now offset) }
{
    out.word(b" [");
    out.hex(file[offset]);
    out.byte(b']');
    let from = offset + 1;
    let to = shown(offset, file.len());
    hexes(out, &file[from..to]);
}

fn at_byte(out: &mut Page, file: &[u8], offset: usize)
    requires { offset < length file.now }
    ensures { out.new ≡ with_text out.old (byte_text file.now offset) }
{
    out.word(b" at offset ");
    out.decimal(offset as u64);
    out.byte(b':');
    before(out, file, offset);
    marked(out, file, offset);
}

fn at_end(out: &mut Page, file: &[u8])
    ensures { out.new ≡ with_text out.old (end_text file.now) }
{
    out.word(b" at the end of the file, offset ");
    out.decimal(file.len() as u64);
    out.byte(b':');
    before(out, file, file.len());
}

// A byte by its place, which is counted from 1 at the end of the head.
fn at_place(out: &mut Page, file: File, place: usize)
    ensures { out.new ≡ with_text out.old (at_place_text file.entry.bytes.now file.entry.head place) }
{
    if place == 0 {
        out.word(b" in the head");
    } else if place - 1 < file.bytes.len().saturating_sub(file.head) {
        at_byte(out, file.bytes, file.head + (place - 1));
    } else {
        out.word(b", the closing space");
        at_end(out, file.bytes);
    }
}

fn at_cut(out: &mut Page, file: &[u8])
    ensures { out.new ≡ with_text out.old (ascii "," ++ end_text file.now) }
{
    out.byte(b',');
    at_end(out, file);
}

fn location(out: &mut Page, file: File, reason: Reason, place: usize)
    ensures { out.new ≡ with_text out.old (where_text file.entry.bytes.now file.entry.head reason place) }
{
    match reason {
        Reason::CutAtClose => at_cut(out, file.bytes),
        Reason::NotInSlate => {}
        _ => at_place(out, file, place),
    }
}

// A space for a `-`.
fn apart(b: u8) -> u8
    ensures { result ≡ cond (eqb b 45) 32 b }
{
    if b == b'-' {
        return b' ';
    }
    b
}

fn in_words(out: &mut Page, text: &[u8])
    ensures { out.new ≡ with_text out.old (unhyphened text.now) }
{
    for b in text {
        out.byte(apart(*b));
    }
}

fn why(out: &mut Page, reason: Reason)
    ensures { out.new ≡ with_text out.old (unhyphened (reason_name reason)) }
{
    let mut word = [0u8; 16];
    let mut text = Page::new(&mut word, 0);
    names::reason(&mut text, reason);
    in_words(out, text.as_slice());
}

// Why, and where in the file.
pub fn dropped(out: &mut Page, file: File, reason: Reason, place: usize)
    ensures { out.new ≡ with_text out.old (spot_text file.entry.bytes.now file.entry.head reason place) }
{
    why(out, reason);
    location(out, file, reason, place);
}
