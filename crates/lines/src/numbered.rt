// The kinds in a record and the reasons, each where oracle/README.md numbers it. As the number of a record that is given, any past
// the last stands for the last.
use arabic_french::LatinCaseState;
use big5::LatinCj;
use euckr::LatinKorean;
use iso2022jp::{DecoderState, OutputState};
use laws::Reason;

pub const STATES: [DecoderState; 7] = [
    DecoderState::Ascii,
    DecoderState::Roman,
    DecoderState::Katakana,
    DecoderState::LeadByte,
    DecoderState::TrailByte,
    DecoderState::EscapeStart,
    DecoderState::Escape,
];

pub const OUTPUTS: [OutputState; 4] = [
    OutputState::Ascii,
    OutputState::Roman,
    OutputState::Katakana,
    OutputState::LeadByte,
];

pub const KOREANS: [LatinKorean; 4] = [
    LatinKorean::AsciiLetter,
    LatinKorean::Hangul,
    LatinKorean::Hanja,
    LatinKorean::Other,
];

pub const CJS: [LatinCj; 3] = [LatinCj::AsciiLetter, LatinCj::Cj, LatinCj::Other];

pub const CASES: [LatinCaseState; 4] = [
    LatinCaseState::Space,
    LatinCaseState::Upper,
    LatinCaseState::Lower,
    LatinCaseState::AllCaps,
];

// They are numbered from 1. A record that is given with 0 is read as one with 6, so that reason stands twice: its number is the
// last place where it stands.
pub const REASONS: [Reason; 7] = [
    Reason::NotInSlate,
    Reason::Class255,
    Reason::BadByte,
    Reason::BadSecondByte,
    Reason::BrokenEscape,
    Reason::CutAtClose,
    Reason::NotInSlate,
];
