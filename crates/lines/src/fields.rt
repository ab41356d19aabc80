// A machine's record, the fields of its line after the score.
ghost use Rattle.std.specs.Prelude.{◌≡◌, ◌++◌};
ghost use Rattle.lines.specs.Fields.{held_text, utf8_text, iso2022jp_text, euckr_text, big5_text, class_text, words_text, caseless_text, logical_text, visual_text, arabic_french_text, shift_jis_text};
ghost use Rattle.scribe.specs.Lent.{with_text};
ghost use Rattle.scribe.specs.Text.{ascii, flag_of, hex_of, decimal_of};

use crate::terms;
use arabic_french::ArabicFrench;
use big5::Big5;
use caseless_script::Caseless;
use euckr::EucKr;
use iso2022jp::Iso2022Jp;
use logical::Logical;
use scribe::page::Page;
use shift_jis::ShiftJis;
use utf8::Utf8;
use visual::Visual;

// A label and a number, two hexadecimal digits or a flag after it. One function over a trait of the three types would be no plainer:
// it would hide which of the numbers is hexadecimal.
pub(crate) fn count(out: &mut Page, label: &[u8], n: u64)
    ensures { out.new ≡ with_text out.old (label.now ++ decimal_of n) }
{
    out.word(label);
    out.decimal(n);
}

fn hex(out: &mut Page, label: &[u8], b: u8)
    ensures { out.new ≡ with_text out.old (label.now ++ hex_of b) }
{
    out.word(label);
    out.hex(b);
}

pub(crate) fn flag(out: &mut Page, label: &[u8], f: bool)
    ensures { out.new ≡ with_text out.old (label.now ++ flag_of f) }
{
    out.word(label);
    out.flag(f);
}

// The score held back.
fn held(out: &mut Page, h: Option<i64>)
    ensures { out.new ≡ with_text out.old (ascii " held=" ++ held_text h) }
{
    out.word(b" held=");
    match h {
        None => out.word(b"none"),
        Some(z) => out.signed(z),
    }
}

pub(crate) fn utf8(out: &mut Page, m: Utf8)
    ensures { out.new ≡ with_text out.old (utf8_text m) }
{
    count(out, b" need=", u64::from(m.need));
    hex(out, b" lo=", m.lo);
    hex(out, b" hi=", m.hi);
}

pub(crate) fn iso2022jp(out: &mut Page, m: Iso2022Jp)
    ensures { out.new ≡ with_text out.old (iso2022jp_text m) }
{
    let state = m.state;
    let output_state = m.out;
    out.word(b" state=");
    terms::decoder_state(out, state);
    out.word(b" out=");
    terms::output_state(out, output_state);
    hex(out, b" lead=", m.lead);
    flag(out, b" output=", m.output);
}

pub(crate) fn euckr(out: &mut Page, m: EucKr)
    ensures { out.new ≡ with_text out.old (euckr_text m) }
{
    let prev = m.prev;
    let held_score = m.held;
    hex(out, b" lead=", m.lead);
    hex(out, b" byte=", m.prev_byte);
    flag(out, b" euc=", m.prev_was_euc_range);
    out.word(b" prev=");
    terms::korean(out, prev);
    count(out, b" word=", m.current_word_len);
    held(out, held_score);
}

pub(crate) fn big5(out: &mut Page, m: Big5)
    ensures { out.new ≡ with_text out.old (big5_text m) }
{
    let prev = m.prev;
    let held_score = m.held;
    hex(out, b" lead=", m.lead);
    hex(out, b" byte=", m.prev_byte);
    out.word(b" prev=");
    terms::cj(out, prev);
    held(out, held_score);
}

// What every single-byte machine's line begins with, and what it ends with.
fn class(out: &mut Page, prev: u8, prev_ascii: bool)
    ensures { out.new ≡ with_text out.old (class_text prev prev_ascii) }
{
    count(out, b" prev=", u64::from(prev));
    flag(out, b" ascii=", prev_ascii);
}

fn words(out: &mut Page, current: u64, longest: u64)
    ensures { out.new ≡ with_text out.old (words_text current longest) }
{
    count(out, b" word=", current);
    count(out, b" longest=", longest);
}

pub(crate) fn caseless(out: &mut Page, m: Caseless)
    ensures { out.new ≡ with_text out.old (caseless_text m) }
{
    class(out, m.prev, m.prev_ascii);
    words(out, m.current_word_len, m.longest_word);
}

pub(crate) fn logical(out: &mut Page, m: Logical)
    ensures { out.new ≡ with_text out.old (logical_text m) }
{
    class(out, m.prev, m.prev_ascii);
    count(out, b" punct=", m.plausible_punctuation);
    words(out, m.current_word_len, m.longest_word);
}

pub(crate) fn visual(out: &mut Page, m: Visual)
    ensures { out.new ≡ with_text out.old (visual_text m) }
{
    class(out, m.prev, m.prev_ascii);
    flag(out, b" prevpunct=", m.prev_punctuation);
    count(out, b" punct=", m.plausible_punctuation);
    words(out, m.current_word_len, m.longest_word);
}

pub(crate) fn arabic_french(out: &mut Page, m: ArabicFrench)
    ensures { out.new ≡ with_text out.old (arabic_french_text m) }
{
    let case_state = m.case_state;
    class(out, m.prev, m.prev_ascii);
    out.word(b" case=");
    terms::case(out, case_state);
    words(out, m.current_word_len, m.longest_word);
}

pub(crate) fn shift_jis(out: &mut Page, m: ShiftJis)
    ensures { out.new ≡ with_text out.old (shift_jis_text m) }
{
    hex(out, b" lead=", m.lead);
}
