// The Shift_JIS validator: dropped at the first byte that the Encoding Standard's decoder calls an error.
#![tactic(auto)]

ghost use Rattle.std.specs.Prelude.{◌≡◌, true, ◌-◌, ◌<◌, length};
ghost use Rattle.laws.specs.Answer.{reached};
ghost use Rattle.laws.specs.Run.{run, last_at, alive};
ghost use Rattle.lengths.specs.Lengths.{jis_count};
ghost use Rattle.octets.specs.Octets.{between};
ghost use Rattle.shift_jis.specs.Standard.{is_lead, is_private_use, is_trail, lead_offset, offset, pointer};
ghost use Rattle.shift_jis.specs.ShiftJis.{Sound, closed_of, first_of, fresh, holds, is_point, out_of, ran_of, sound_b, step_of, trail_of};

use entries::ready::is_ready;
use laws::{Reason, Stop};

// Between two bytes: the lead of a pair, or 0 where none is pending.
#[derive(Clone, Copy, PartialEq, Eq)]
pub struct ShiftJis {
    pub lead: u8,
}

// The first lead.
const LOW_LEAD: u8 = 0x81;

// How many pairs a lead has.
const ROW: usize = 188;

// The pointers of private use, from the first to the last.
const PRIVATE_FIRST: usize = 8_836;

const PRIVATE_LAST: usize = 10_715;

// Half-width katakana, one byte each.
fn is_katakana(b: u8) -> bool
    ensures { result ≡ between 0xA1 0xDF b }
{
    matches!(b, 0xA1..=0xDF)
}

fn is_lead(b: u8) -> bool
    ensures { result ≡ is_lead b }
{
    matches!(b, LOW_LEAD..=0x9F | 0xE0..=0xFC)
}

// One range but for a byte, not two ranges: the loop is the faster for it.
fn is_trail(b: u8) -> bool
    ensures { result ≡ is_trail b }
{
    b != 0x7F && matches!(b, 0x40..=0xFC)
}

// How many leads stand before this one.
fn row(lead: u8) -> usize
    requires { is_lead lead ≡ true }
    ensures { result ≡ lead - lead_offset lead }
{
    if lead < 0xA0 {
        return (lead - LOW_LEAD) as usize;
    }
    (lead - 0xC1) as usize
}

// How many trail bytes stand before this one.
fn column(b: u8) -> usize
    requires { is_trail b ≡ true }
    ensures { result ≡ b - offset b }
{
    if b < 0x7F {
        return (b - 0x40) as usize;
    }
    (b - 0x41) as usize
}

fn is_private_use(at: usize) -> bool
    ensures { result ≡ is_private_use at }
{
    matches!(at, PRIVATE_FIRST..=PRIVATE_LAST)
}

// Where a pair stands in the index.
#[tactic(auto, using(crate::proofs::StandardLaws::pointer_parts, crate::proofs::StandardLaws::pointer_below))]
fn pointer(lead: u8, b: u8) -> usize
    requires lead { is_lead lead ≡ true }
    requires trail { is_trail b ≡ true }
    ensures value { result ≡ pointer lead b }
    ensures below { result < jis_count }
{
    row(lead) * ROW + column(b)
}

// Whether a pointer stands for a code point; those of private use do whatever the index has there.
fn is_point(at: usize, index: &[u32]) -> bool
    requires { (at < jis_count) × (length index.now ≡ jis_count) }
    ensures { result ≡ is_point index.now at }
{
    is_private_use(at) || entries::is_mapped(index[at], false)
}

impl ShiftJis {
    pub fn fresh() -> ShiftJis
        ensures { result ≡ fresh }
    {
        ShiftJis { lead: 0 }
    }

    // Whether the record is one that the kind can hold.
    pub fn is_sound(self) -> bool
        ensures { result ≡ sound_b self }
    {
        self.lead == 0 || is_lead(self.lead)
    }

    // A byte where no lead is pending; none where it is bad. What the record has already is not written anew, and ASCII comes
    // first: the loop is the faster for it.
    #[tactic(auto, using(crate::specs::ShiftJisLaws::first_low, crate::specs::ShiftJisLaws::first_lead, crate::specs::ShiftJisLaws::first_katakana, crate::specs::ShiftJisLaws::first_rest))]
    fn first(self, b: u8) -> Option<ShiftJis>
        requires { self ≡ fresh }
        ensures { out_of result ≡ first_of b }
    {
        if b < LOW_LEAD {
            return Some(self);
        }
        if is_lead(b) {
            return Some(ShiftJis { lead: b });
        }
        if is_katakana(b) {
            return Some(self);
        }
        None
    }

    // A byte after a lead; none where it makes no pair with it.
    #[tactic(auto, unfolding(crate::specs::ShiftJis::trail_of))]
    fn trail(lead: u8, b: u8, index: &[u32]) -> Option<ShiftJis>
        requires { (is_lead lead ≡ true) × (length index.now ≡ jis_count) }
        ensures { out_of result ≡ trail_of index.now lead b }
    {
        if is_trail(b) && is_point(pointer(lead, b), index) {
            return Some(ShiftJis::fresh());
        }
        None
    }

    #[tactic(auto, unfolding(crate::specs::ShiftJis::step_of))]
    fn step(self, b: u8, index: &[u32]) -> Option<ShiftJis>
        requires { Sound self × (length index.now ≡ jis_count) }
        ensures { out_of result ≡ step_of index.now self b }
    {
        if self.lead == 0 {
            return self.first(b);
        }
        ShiftJis::trail(self.lead, b, index)
    }

    fn run_fit(self, part: &[u8], index: &[u32]) -> Result<ShiftJis, Stop>
        requires { Sound self × (length index.now ≡ jis_count) }
        ensures { result ≡ reached (last_at (step_of index.now) (alive self) part.now) (run (step_of index.now) (alive self) part.now) }
    {
        let mut m = self;
        for i in 0..part.len() {
            let Some(next) = m.step(part[i], index) else {
                return Err(Stop::Dropped(Reason::BadByte, i));
            };
            m = next;
        }
        Ok(m)
    }

    // A stretch of bytes, one after the other, over the JIS X 0208 index. This and `close` read alike in ISO-2022-JP, and `close` in
    // UTF-8: a test and a call, for which a trait is no plainer.
    pub fn run(self, part: &[u8], index: &[u32]) -> Result<ShiftJis, Stop>
        ensures { result ≡ ran_of index.now self part.now }
    {
        if is_ready(self.is_sound(), lengths::JIS, index, part) {
            return self.run_fit(part, index);
        }
        Err(Stop::Unfit)
    }

    // The end of the stream: a lead that is pending is cut.
    #[tactic(auto, unfolding(crate::specs::ShiftJis::closed_of, crate::specs::ShiftJis::close_of, laws::specs::Answer::tested))]
    pub fn close(self) -> Result<ShiftJis, Stop>
        ensures { result ≡ closed_of self }
    {
        if !self.is_sound() {
            return Err(Stop::Unfit);
        }
        if self.lead == 0 {
            return Ok(self);
        }
        Err(Stop::Dropped(Reason::CutAtClose, 0))
    }
}
