// The places' names, as documents 01 and 02 spell them, and the reasons' words. There is no `Display` of them: what these functions
// write is said by their contracts, and no contract says what `fmt` writes.
#![tactic(auto)]

ghost use Rattle.std.specs.Prelude.{◌≡◌};
ghost use Rattle.names.specs.Names.{place_name, reason_name};
ghost use Rattle.scribe.specs.Lent.{with_text};

use laws::Reason;
use scribe::STDOUT_FILENO;
use scribe::page::Page;
use std::convert::AsSlice;

// The name of a place by its number; the last one's for any above.
pub fn place(out: &mut Page, k: usize)
    ensures { out.new ≡ with_text out.old (place_name k) }
{
    match k {
        0 => out.word(b"utf-8"),
        1 => out.word(b"iso-2022-jp"),
        2 => out.word(b"euc-kr"),
        3 => out.word(b"big5"),
        4 => out.word(b"caseless"),
        5 => out.word(b"logical"),
        6 => out.word(b"visual"),
        7 => out.word(b"arabic-french"),
        _ => out.word(b"shift_jis"),
    }
}

// Why a place has no score, in a word.
pub fn reason(out: &mut Page, reason: Reason)
    ensures { out.new ≡ with_text out.old (reason_name reason) }
{
    match reason {
        Reason::Class255 => out.word(b"class-255"),
        Reason::BadByte => out.word(b"bad-byte"),
        Reason::BadSecondByte => out.word(b"bad-second-byte"),
        Reason::BrokenEscape => out.word(b"broken-escape"),
        Reason::CutAtClose => out.word(b"cut-at-close"),
        Reason::NotInSlate => out.word(b"not-in-slate"),
    }
}

// A place's name on standard output.
pub fn print_place(k: usize) {
    let mut text = [0u8; 16];
    let mut out = Page::new(&mut text, 0);
    place(&mut out, k);
    io::write_all(STDOUT_FILENO, out.as_slice());
}
