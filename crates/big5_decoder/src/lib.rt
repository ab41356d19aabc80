// The Standard's Big5 decoder over a lent index, one byte.
#![tactic(auto)]

ghost use Rattle.std.specs.Prelude.{◌≡◌, true};
ghost use Rattle.big5_decoder.specs.Standard.{is_trail, pointer_of, entry_of, pair_of, decode_of, reply_of};

use pairs::{Decoded, Event};

pub fn is_trail(b: u8) -> bool
    ensures { result ≡ is_trail b }
{
    matches!(b, 0x40..=0x7E | 0xA1..=0xFE)
}

fn pointer(lead: u8, b: u8) -> usize
    requires { is_trail b ≡ true }
    ensures { result ≡ pointer_of lead b }
{
    let row = pairs::rows(lead) * 157;
    if b < 0x7F {
        return row + (b - 0x40) as usize;
    }
    row + (b - 0x62) as usize
}

// What stands at a pointer of the index.
#[tactic(auto, unfolding(crate::specs::Standard::entry_of, pairs::specs::Standard::indexed, pairs::specs::Standard::returned, pairs::specs::Events::event_of, pairs::specs::Events::points_as))]
fn looked_up(at: usize, b: u8, index: &[u32]) -> Event
    ensures { result ≡ entry_of index.now at b }
{
    let entry = entries::entry(index, at);
    if entries::is_mapped(entry, true) {
        return Event::Point(entry);
    }
    pairs::malformed(b)
}

// A lead and the byte after it.
fn pair(lead: u8, b: u8, index: &[u32]) -> Event
    ensures { result ≡ pair_of index.now lead b }
{
    if is_trail(b) {
        let at = pointer(lead, b);
        return match at {
            1133 => Event::Two(0xCA, 0x304),
            1135 => Event::Two(0xCA, 0x30C),
            1164 => Event::Two(0xEA, 0x304),
            1166 => Event::Two(0xEA, 0x30C),
            _ => looked_up(at, b, index),
        };
    }
    pairs::malformed(b)
}

// A byte after a lead, or after none, which is 0. What the index does not have is not mapped.
// `decode` and `decoded` of EUC-KR read the same, but for the pair and the index's length. A trait that names the layout, the
// points, the length and the pair, and an impl of it for each encoding, would be as long as the four functions.
#[tactic(auto, unfolding(crate::specs::Standard::decode_of, crate::specs::Standard::pair_of), using(pairs::specs::PairsLaws::returned_lead))]
pub fn decode(lead: u8, b: u8, index: &[u32]) -> Decoded
    ensures { result ≡ decode_of index.now lead b }
{
    if lead == 0 {
        return pairs::first(b);
    }
    Decoded {
        lead: 0,
        event: pair(lead, b, index),
    }
}

// The decoder alone: a lead, or 0, and a byte, over an index of the right length.
#[tactic(auto, unfolding(crate::specs::Standard::reply_of))]
pub fn decoded(lead: u8, b: u8, index: &[u32]) -> Option<Decoded>
    ensures { result ≡ reply_of index.now lead b }
{
    if pairs::is_lead_or_none(lead) && index.len() == lengths::BIG5 {
        return Some(decode(lead, b, index));
    }
    None
}
