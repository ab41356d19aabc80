// Tests of one byte, and of a label: the detector's smallest questions.
#![tactic(auto)]

ghost use Rattle.std.specs.Prelude.{◌≡◌};
ghost use Rattle.octets.specs.Octets.{ascii, non_ascii, letter, upper_case, is_punctuation, is_problematic_lead, unfit_for_label, unfit_label};

pub fn is_ascii(b: u8) -> bool
    ensures { result ≡ ascii b }
{
    b.is_ascii()
}

pub fn is_non_ascii(b: u8) -> bool
    ensures { result ≡ non_ascii b }
{
    !b.is_ascii()
}

pub fn is_ascii_upper_case(b: u8) -> bool
    ensures { result ≡ upper_case b }
{
    b.is_ascii_uppercase()
}

pub fn is_ascii_letter(b: u8) -> bool
    ensures { result ≡ letter b }
{
    b.is_ascii_alphabetic()
}

#[tactic(auto, unfolding(laws::specs::Lists::any))]
pub fn is_ascii_punctuation(b: u8) -> bool
    ensures { result ≡ is_punctuation b }
{
    // With ':' beside it ';' would make a range, and the test two; so all six are one test of a bit.
    matches!(b, b'.' | b',' | b':' | b'?' | b'!') || b == b';'
}

// Leads of Big5 and EUC-KR pairs whose score waits for what follows.
#[tactic(auto, unfolding(laws::specs::Lists::any))]
pub fn problematic_lead(b: u8) -> bool
    ensures { result ≡ is_problematic_lead b }
{
    matches!(
        b,
        0x91..=0x97 | 0x9A | 0x8A | 0x9B | 0x8B | 0x9E | 0x8E | 0xB0
    )
}

fn is_unfit_for_label(b: u8) -> bool
    ensures { result ≡ unfit_for_label b }
{
    is_ascii_upper_case(b) || b == b'.' || is_non_ascii(b)
}

pub fn contains_upper_case_period_or_non_ascii(label: &[u8]) -> bool
    ensures { result ≡ unfit_label label.now }
{
    label.iter().any(|&b| is_unfit_for_label(b))
}
