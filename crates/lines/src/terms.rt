// The words of the format, a function for each kind. `Display` can be written for a type in its own crate alone, and a trait here
// would have the same five bodies, since the words are all that they hold.
ghost use Rattle.std.specs.Prelude.{◌≡◌};
ghost use Rattle.lines.specs.Names.{state_name, out_name, korean_name, cj_name, case_name};
ghost use Rattle.scribe.specs.Lent.{with_text};

use arabic_french::LatinCaseState;
use big5::LatinCj;
use euckr::LatinKorean;
use iso2022jp::{DecoderState, OutputState};
use scribe::page::Page;

pub(crate) fn decoder_state(out: &mut Page, s: DecoderState)
    ensures { out.new ≡ with_text out.old (state_name s) }
{
    match s {
        DecoderState::Ascii => out.word(b"ascii"),
        DecoderState::Roman => out.word(b"roman"),
        DecoderState::Katakana => out.word(b"katakana"),
        DecoderState::LeadByte => out.word(b"lead"),
        DecoderState::TrailByte => out.word(b"trail"),
        DecoderState::EscapeStart => out.word(b"escape-start"),
        DecoderState::Escape => out.word(b"escape"),
    }
}

pub(crate) fn output_state(out: &mut Page, s: OutputState)
    ensures { out.new ≡ with_text out.old (out_name s) }
{
    match s {
        OutputState::Ascii => out.word(b"ascii"),
        OutputState::Roman => out.word(b"roman"),
        OutputState::Katakana => out.word(b"katakana"),
        OutputState::LeadByte => out.word(b"lead"),
    }
}

pub(crate) fn korean(out: &mut Page, kind: LatinKorean)
    ensures { out.new ≡ with_text out.old (korean_name kind) }
{
    match kind {
        LatinKorean::AsciiLetter => out.word(b"letter"),
        LatinKorean::Hangul => out.word(b"hangul"),
        LatinKorean::Hanja => out.word(b"hanja"),
        LatinKorean::Other => out.word(b"other"),
    }
}

pub(crate) fn cj(out: &mut Page, kind: LatinCj)
    ensures { out.new ≡ with_text out.old (cj_name kind) }
{
    match kind {
        LatinCj::AsciiLetter => out.word(b"letter"),
        LatinCj::Cj => out.word(b"cj"),
        LatinCj::Other => out.word(b"other"),
    }
}

pub(crate) fn case(out: &mut Page, case: LatinCaseState)
    ensures { out.new ≡ with_text out.old (case_name case) }
{
    match case {
        LatinCaseState::Space => out.word(b"space"),
        LatinCaseState::Upper => out.word(b"upper"),
        LatinCaseState::Lower => out.word(b"lower"),
        LatinCaseState::AllCaps => out.word(b"caps"),
    }
}
