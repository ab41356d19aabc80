// What Big5 and EUC-KR share: the frame of the Standard's pair decoders, and the held score.
#![tactic(auto)]

ghost use Rattle.std.specs.Prelude.{◌≡◌, ◌-◌};
ghost use Rattle.octets.specs.Octets.{letter};
ghost use Rattle.pairs.specs.Pairs.{is_lead, is_lead_or_none, is_held_lead, reason_by, released_of, small_held_b};
ghost use Rattle.pairs.specs.Events.{malformed_of, first_of};

use laws::Reason;

// What a decoder yields at a byte: nothing yet, one code point, two, or an error of so many bytes.
#[derive(Clone, Copy, PartialEq, Eq)]
pub enum Event {
    Pending,
    Point(u32),
    Two(u32, u32),
    Error(u8),
}

// The decoder's lead after a byte, and what the byte yields. The lead is 0 where there is none, as in the Standard, in the
// definitions over it and in a record that C holds.
#[derive(Clone, Copy, PartialEq, Eq)]
pub struct Decoded {
    pub lead: u8,
    pub event: Event,
}

// The largest size of a score that waits for what follows (`pending_score` in the Rust).
pub const MOST_HELD: u64 = 2147483648;

pub fn is_lead(b: u8) -> bool
    ensures { result ≡ is_lead b }
{
    matches!(b, 0x81..=0xFE)
}

// Whether a decoder can hold it: a lead, or 0.
pub fn is_lead_or_none(lead: u8) -> bool
    ensures { result ≡ is_lead_or_none lead }
{
    lead == 0 || is_lead(lead)
}

// The error of a lead with a byte that makes no pair with it: the byte is part of it unless it is ASCII.
#[tactic(auto, unfolding(crate::specs::Standard::returned, crate::specs::Events::event_of))]
pub fn malformed(b: u8) -> Event
    ensures { result ≡ malformed_of b }
{
    if octets::is_ascii(b) {
        return Event::Error(1);
    }
    Event::Error(2)
}

// A byte where no lead is pending.
#[tactic(auto, unfolding(crate::specs::Standard::first, laws::specs::Handler::vars_of, crate::specs::Events::event_of, crate::specs::Events::points_as))]
pub fn first(b: u8) -> Decoded
    ensures { result ≡ first_of b }
{
    if octets::is_ascii(b) {
        return Decoded {
            lead: 0,
            event: Event::Point(b as u32),
        };
    }
    if is_lead(b) {
        return Decoded {
            lead: b,
            event: Event::Pending,
        };
    }
    Decoded {
        lead: 0,
        event: Event::Error(1),
    }
}

// Why a byte drops a machine out, by the decoder's lead before it.
pub fn reason(lead: u8) -> Reason
    ensures { result ≡ reason_by lead }
{
    if lead != 0 {
        return Reason::BadSecondByte;
    }
    Reason::BadByte
}

// The rows of an index before a lead's own: 81 has the first.
pub fn rows(lead: u8) -> usize
    ensures { result ≡ lead - 0x81 }
{
    lead.saturating_sub(0x81) as usize
}

// Whether a score is held after this byte.
pub fn is_held_lead(b: u8) -> bool
    ensures { result ≡ is_held_lead b }
{
    octets::problematic_lead(b)
}

pub fn is_letter(u: u32) -> bool
    ensures { result ≡ letter u }
{
    matches!(u, 0x41..=0x5A | 0x61..=0x7A)
}

// The same, made anew. Where EUC-KR's step copies it as it is, its loop costs half an instruction more for each byte of Korean text;
// Big5's loop costs one less.
pub fn kept(held: Option<i64>) -> Option<i64>
    ensures { result ≡ held }
{
    match held {
        None => None,
        Some(s) => Some(s),
    }
}

// What a release adds to the score.
pub fn released(held: Option<i64>) -> i64
    ensures { result ≡ released_of held }
{
    held.unwrap_or(0)
}

#[tactic(auto, unfolding(crate::specs::Pairs::small_held_b))]
pub fn is_small(held: Option<i64>) -> bool
    ensures { result ≡ small_held_b held }
{
    released(held).unsigned_abs() <= MOST_HELD
}
