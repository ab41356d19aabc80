// Big5: the scoring machine over what the Standard's decoder yields.
#![tactic(auto)]

ghost use Rattle.std.specs.Prelude.{◌≡◌, true, ◌*◌, ◌≤◌, ◌<◌, pos, nat_abs, length};
ghost use Rattle.laws.specs.Answer.{answered, BoundedBy};
ghost use Rattle.laws.specs.Run.{live, alive, run, last_at};
ghost use Rattle.pairs.specs.Pairs.{SmallHeld};
ghost use Rattle.laws.specs.Limit.{limit};
ghost use Rattle.weights.specs.Weights.{term, per_byte};
ghost use Rattle.lengths.specs.Lengths.{big5_count};
ghost use Rattle.big5.specs.Scoring.{scale_of, is_hanzi, is_distinct, beside_of, holds_of, hanzi_weight, letter_of, hanzi_of, other_of, unit_of, point_of, unmapped_of, extension_of, is_pair, is_extension, after_byte, stray_of, error_of, lent, fresh, step_of, scored};
ghost use Rattle.big5.specs.Big5.{Sound, sound_b, SmallScale, out_of, Weighed, ready_b, ran_of, closed_of};

use laws::{Ran, Reason, Stop};
use pairs::Event;

// The kind of what came before.
#[derive(Clone, Copy, PartialEq, Eq)]
pub enum LatinCj {
    AsciiLetter,
    Cj,
    Other,
}

#[derive(Clone, Copy, PartialEq, Eq)]
pub struct Big5 {
    pub lead: u8,
    pub prev: LatinCj,
    pub prev_byte: u8,
    pub held: Option<i64>,
}

// The weights that this machine uses. That they are of 32 bits is asked by each function and no ghost field: `scale_of` makes a
// scale of any list of numbers, and the theorems of specs/Edges.antt speak of every scale, as of every held score.
#[derive(Clone, Copy)]
struct Scale {
    adjacency: i64,
    punctuation: i64,
    other: i64,
    level1: i64,
    hanzi: i64,
    pua: i64,
    extension: i64,
}

// What a byte makes of a record, but for its lead and its previous byte.
#[derive(Clone, Copy)]
struct Scored {
    prev: LatinCj,
    held: Option<i64>,
    gain: i64,
}

// ---- what the tests of a unit say
// From extension A to the end of the unified ones, and the compatibility ones.
fn is_hanzi(u: u32) -> bool
    ensures { result ≡ is_hanzi u }
{
    matches!(u, 0x3400..=0x9FFF | 0xF900..=0xFAFF)
}

// Full-width punctuation that Korean or Japanese text has otherwise.
#[tactic(auto, unfolding(laws::specs::Lists::any))]
fn is_distinct(u: u32) -> bool
    ensures { result ≡ is_distinct u }
{
    matches!(
        u,
        0x3000 | 0x3001 | 0x3002 | 0xFF01 | 0xFF08 | 0xFF09 | 0xFF0C | 0xFF1B | 0xFF1F
    )
}

impl Scale {
    #[tactic(auto, unfolding(crate::specs::Scoring::scale_of))]
    fn read(weights: &[i32]) -> Scale
        ensures value { result ≡ scale_of weights.now }
        ensures small_scale { SmallScale result }
    {
        Scale {
            adjacency: weights::weight(weights, weights::CJK_LATIN_ADJACENCY),
            punctuation: weights::weight(weights, weights::CJ_PUNCTUATION),
            other: weights::weight(weights, weights::CJK_OTHER),
            level1: weights::weight(weights, weights::BIG5_LEVEL_1),
            hanzi: weights::weight(weights, weights::BIG5_OTHER),
            pua: weights::weight(weights, weights::BIG5_PUA),
            extension: weights::weight(weights, weights::BIG5_EXTENSION),
        }
    }

    // What a Hanzi adds that stands after this kind.
    fn beside(self, prev: LatinCj) -> i64
        ensures { result ≡ beside_of self prev }
    {
        match prev {
            LatinCj::AsciiLetter => self.adjacency,
            LatinCj::Cj | LatinCj::Other => 0,
        }
    }

    // Level 1, the Hanzi in frequent use, has the leads A4 to C6.
    #[tactic(auto, unfolding(crate::specs::Scoring::hanzi_weight))]
    fn of_hanzi(self, prev_byte: u8) -> i64
        ensures { result ≡ hanzi_weight self prev_byte }
    {
        match prev_byte {
            0xA4..=0xC6 => self.level1,
            _ => self.hanzi,
        }
    }
}

impl Big5 {
    // How many entries its index has.
    pub const INDEX: usize = lengths::BIG5;

    pub fn fresh() -> Big5
        ensures { result ≡ fresh }
    {
        Big5 {
            lead: 0,
            prev: LatinCj::Other,
            prev_byte: 0,
            held: None,
        }
    }

    // Whether the score of a Hanzi waits for what follows.
    #[tactic(auto, unfolding(crate::specs::Scoring::holds_of))]
    fn holds(self) -> bool
        ensures { result ≡ holds_of self }
    {
        self.prev != LatinCj::Cj && pairs::is_held_lead(self.prev_byte)
    }

    // A lead changes nothing else.
    fn pending(self) -> Scored
        ensures { result ≡ scored self.prev self.held (pos 0) }
    {
        Scored {
            prev: self.prev,
            held: self.held,
            gain: 0,
        }
    }

    // A letter discards what is held.
    #[tactic(auto, unfolding(crate::specs::Scoring::letter_of))]
    fn letter(self, w: Scale) -> Scored
        ensures { result ≡ letter_of w self }
    {
        Scored {
            prev: LatinCj::AsciiLetter,
            held: None,
            gain: match self.prev {
                LatinCj::Cj => w.adjacency,
                LatinCj::AsciiLetter | LatinCj::Other => 0,
            },
        }
    }

    // A Hanzi releases what is held, and its own score may be held in turn.
    fn hanzi(self, own: i64, w: Scale) -> Scored
        requires small_scale { SmallScale w }
        requires small_held { SmallHeld self.held }
        requires own_bound { nat_abs own ≤ term }
        ensures { result ≡ hanzi_of w self own }
    {
        let gain = pairs::released(self.held) + w.beside(self.prev);
        if self.holds() {
            return Scored {
                prev: LatinCj::Cj,
                held: Some(own),
                gain,
            };
        }
        Scored {
            prev: LatinCj::Cj,
            held: None,
            gain: gain + own,
        }
    }

    // Anything else that is no ASCII: what is held is released, and its own score added.
    #[tactic(auto, unfolding(crate::specs::Scoring::other_of))]
    fn other(self, own: i64) -> Scored
        requires small_held { SmallHeld self.held }
        requires own_bound { nat_abs own ≤ term }
        ensures { result ≡ other_of self own }
    {
        Scored {
            prev: LatinCj::Other,
            held: None,
            gain: pairs::released(self.held) + own,
        }
    }

    // A code point that is one unit.
    #[tactic(auto, unfolding(crate::specs::Scoring::unit_of))]
    fn unit(self, u: u32, w: Scale) -> Scored
        requires small_scale { SmallScale w }
        requires small_held { SmallHeld self.held }
        ensures { result ≡ unit_of w self u }
    {
        if pairs::is_letter(u) {
            return self.letter(w);
        }
        if is_hanzi(u) {
            return self.hanzi(w.of_hanzi(self.prev_byte), w);
        }
        if is_distinct(u) {
            return self.other(w.punctuation);
        }
        if u < 0x80 {
            return Scored {
                prev: LatinCj::Other,
                held: None,
                gain: 0,
            };
        }
        self.other(w.other)
    }

    // A code point that is a pair of units is a Hanzi of Hong Kong's extension.
    #[tactic(auto, unfolding(crate::specs::Scoring::point_of))]
    fn point(self, point: u32, w: Scale) -> Scored
        requires small_scale { SmallScale w }
        requires small_held { SmallHeld self.held }
        ensures { result ≡ point_of w self point }
    {
        if point < 0x10000 {
            return self.unit(point, w);
        }
        self.hanzi(w.hanzi, w)
    }

    // A pair in Big5's range that is not mapped counts as a Hanzi of private use: other extensions have theirs there.
    fn unmapped(self, w: Scale) -> Scored
        requires small_scale { SmallScale w }
        requires small_held { SmallHeld self.held }
        ensures { result ≡ unmapped_of w self }
    {
        Scored {
            prev: LatinCj::Cj,
            held: None,
            gain: pairs::released(self.held) + w.pua + w.beside(self.prev),
        }
    }
}

// Whether the byte before and this one are a pair in Big5's range.
fn is_pair(prev_byte: u8, b: u8) -> bool
    ensures { result ≡ is_pair prev_byte b }
{
    pairs::is_lead(prev_byte) && big5_decoder::is_trail(b)
}

// Whether the byte before is a single byte of Mac OS Chinese Traditional where it stands before ASCII or FF. It is a lead too;
// FF is another such byte, and no lead.
#[tactic(auto, unfolding(laws::specs::Lists::any))]
fn is_extension(prev_byte: u8) -> bool
    ensures { result ≡ is_extension prev_byte }
{
    matches!(prev_byte, 0xA0 | 0xFD | 0xFE)
}

// An extension byte with the byte after it: ASCII, or the extension FF, which counts too.
#[tactic(auto, unfolding(crate::specs::Scoring::extension_of))]
fn extension(b: u8, w: Scale) -> Scored
    requires { SmallScale w }
    ensures { result ≡ extension_of w b }
{
    if b == 0xFF {
        return Scored {
            prev: LatinCj::Other,
            held: None,
            gain: w.extension + w.extension,
        };
    }
    if octets::is_ascii_letter(b) {
        return Scored {
            prev: LatinCj::AsciiLetter,
            held: None,
            gain: w.extension,
        };
    }
    Scored {
        prev: LatinCj::Other,
        held: None,
        gain: w.extension,
    }
}

// The record after a byte, and by how much the score changed.
fn after_byte(lead: u8, b: u8, s: Scored) -> (Big5, i64)
    ensures { live result.0 result.1 ≡ after_byte lead b s }
{
    let next = Big5 {
        lead,
        prev: s.prev,
        prev_byte: b,
        held: s.held,
    };
    (next, s.gain)
}

impl Big5 {
    // An error that is no pair in range: an extension, or the machine drops out.
    #[tactic(auto, unfolding(crate::specs::Scoring::stray_of))]
    fn stray(self, lead: u8, b: u8, size: u8, w: Scale) -> Option<(Big5, i64)>
        requires { SmallScale w }
        ensures { out_of self.lead result ≡ stray_of w self lead b size }
    {
        if is_extension(self.prev_byte) && (octets::is_ascii(b) || b == 0xFF) {
            return Some(after_byte(lead, b, extension(b, w)));
        }
        if size == 1 && b == 0xFF {
            let alone = Scored {
                prev: LatinCj::Other,
                held: None,
                gain: w.extension,
            };
            return Some(after_byte(lead, b, alone));
        }
        None
    }

    #[tactic(auto, unfolding(crate::specs::Scoring::error_of))]
    fn error(self, lead: u8, b: u8, size: u8, w: Scale) -> Option<(Big5, i64)>
        requires small_scale { SmallScale w }
        requires small_held { SmallHeld self.held }
        ensures { out_of self.lead result ≡ error_of w self lead b size }
    {
        if is_pair(self.prev_byte, b) {
            return Some(after_byte(lead, b, self.unmapped(w)));
        }
        self.stray(lead, b, size, w)
    }

    // A byte; none where the machine drops out.
    fn step(self, b: u8, index: &[u32], w: Scale) -> Option<(Big5, i64)>
        requires small_scale { SmallScale w }
        requires sound { Sound limit self }
        requires index_len { length index.now ≡ big5_count }
        ensures { out_of self.lead result ≡ step_of (lent index.now w) self b }
    {
        let d = big5_decoder::decode(self.lead, b, index);
        match d.event {
            Event::Pending => Some(after_byte(d.lead, b, self.pending())),
            Event::Point(point) => Some(after_byte(d.lead, b, self.point(point, w))),
            Event::Two(_, _) => Some(after_byte(d.lead, b, self.other(w.other))),
            Event::Error(size) => self.error(d.lead, b, size, w),
        }
    }

    // EUC-KR's run is lent one list more, and its records have another bound and another test, so that each has its own.
    fn run_fit(self, part: &[u8], index: &[u32], w: Scale) -> Ran<Big5>
        requires small_scale { SmallScale w }
        requires sound { Sound limit self }
        requires part_len_bound { length part.now ≤ limit }
        requires index_len { length index.now ≡ big5_count }
        ensures value { result ≡ answered (last_at (step_of (lent index.now w)) (alive self) part.now) (run (step_of (lent index.now w)) (alive self) part.now) }
        ensures bounded { BoundedBy (per_byte * length part.now) result }
    {
        let mut m = self;
        let mut score: i64 = 0;
        for i in 0..part.len() {
            let Some(found) = m.step(part[i], index, w) else {
                return Err(Stop::Dropped(pairs::reason(m.lead), i));
            };
            m = found.0;
            score += found.1;
        }
        Ok((m, score))
    }

    // Whether no bound of `bytes` bytes excludes the record.
    #[tactic(auto, unfolding(crate::specs::Big5::sound_b))]
    pub fn is_sound_for(self, bytes: u64) -> bool
        ensures { result ≡ sound_b bytes self }
    {
        pairs::is_lead_or_none(self.lead) && pairs::is_small(self.held)
    }

    pub fn run(self, part: &[u8], index: &[u32], weights: &[i32]) -> Ran<Big5>
        ensures value { result ≡ ran_of index.now weights.now self part.now }
        ensures bounded { BoundedBy (per_byte * length part.now) result }
        ensures weighed { Weighed weights.now result }
    {
        if is_ready(self, part, index, weights) {
            return self.run_fit(part, index, Scale::read(weights));
        }
        Err(Stop::Unfit)
    }

    // The end of the stream: none where a lead is pending, at no byte. A held score counts nothing, and stays.
    #[tactic(auto, unfolding(crate::specs::Big5::closed_of, laws::specs::Answer::tested))]
    pub fn close(self) -> Ran<Big5>
        ensures { result ≡ closed_of self }
    {
        if !self.is_sound_for(lengths::LIMIT) {
            return Err(Stop::Unfit);
        }
        if self.lead != 0 {
            return Err(Stop::Dropped(Reason::CutAtClose, 0));
        }
        Ok((self, 0))
    }
}

// Whether all is in order for a run.
#[tactic(auto, unfolding(crate::specs::Big5::ready_b))]
fn is_ready(m: Big5, part: &[u8], index: &[u32], weights: &[i32]) -> bool
    ensures { result ≡ ready_b index.now weights.now m part.now }
{
    m.is_sound_for(lengths::LIMIT)
        && (part.len() <= lengths::MOST
            && (index.len() == Big5::INDEX && weights.len() == lengths::WEIGHTS))
}
