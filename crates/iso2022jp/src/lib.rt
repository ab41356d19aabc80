// The ISO-2022-JP validator: dropped at the first byte that the Encoding Standard's decoder calls an error.
#![tactic(auto)]

ghost use Rattle.std.specs.Prelude.{◌≡◌, true, ◌≤◌, length};
ghost use Rattle.laws.specs.Answer.{reached};
ghost use Rattle.laws.specs.Run.{run, last_at, alive};
ghost use Rattle.lengths.specs.Lengths.{jis_count};
ghost use Rattle.iso2022jp.specs.Iso2022Jp.{Sound, Passes, ascii_of, closed_of, designated, escape_of, escape_start_of, fresh, is_text, katakana_of, lead_of, leads_escape, out_of, ran_of, ranged_of, sound_b, started, state_of, step_of, trail_of};

use entries::ready::is_ready;
use laws::{Reason, Stop};

#[derive(Clone, Copy, PartialEq, Eq)]
pub enum DecoderState {
    Ascii,
    Roman,
    Katakana,
    LeadByte,
    TrailByte,
    EscapeStart,
    Escape,
}

// The states that an escape can set.
#[derive(Clone, Copy, PartialEq, Eq)]
pub enum OutputState {
    Ascii,
    Roman,
    Katakana,
    LeadByte,
}

impl From<OutputState> for DecoderState {
    ghost from_gives = { λ out state. state ≡ state_of out };

    #[tactic(auto, unfolding(crate::specs::Iso2022Jp::state_of))]
    fn from(out: OutputState) -> DecoderState {
        match out {
            OutputState::Ascii => DecoderState::Ascii,
            OutputState::Roman => DecoderState::Roman,
            OutputState::Katakana => DecoderState::Katakana,
            OutputState::LeadByte => DecoderState::LeadByte,
        }
    }
}

// Between two bytes. The lead is 0 where none is pending; output is true where nothing came out since the last escape.
#[derive(Clone, Copy, PartialEq, Eq)]
pub struct Iso2022Jp {
    pub state: DecoderState,
    pub out: OutputState,
    pub lead: u8,
    pub output: bool,
}

fn is_escape_lead(b: u8) -> bool
    ensures { result ≡ leads_escape b }
{
    matches!(b, 0x24 | 0x28)
}

// Whether ASCII and Roman put the byte out. Three tests and no `matches!`: with one the loop takes 14 instructions for each byte
// of plain text in place of 8.
#[tactic(auto, unfolding(crate::specs::Iso2022Jp::is_text, laws::specs::Lists::any))]
fn is_text(b: u8) -> bool
    ensures { result ≡ is_text b }
{
    if b == Iso2022Jp::ESCAPE {
        return false;
    }
    if b == 0x0E {
        return false;
    }
    if b == 0x0F {
        return false;
    }
    b < 0x80
}

// What an escape's last two bytes designate.
#[tactic(auto, unfolding(crate::specs::Iso2022Jp::designated))]
fn designate(lead: u8, b: u8) -> Option<OutputState>
    ensures { result ≡ designated lead b }
{
    match (lead, b) {
        (0x28, 0x42) => Some(OutputState::Ascii),
        (0x28, 0x4A) => Some(OutputState::Roman),
        (0x28, 0x49) => Some(OutputState::Katakana),
        (0x24, 0x40 | 0x42) => Some(OutputState::LeadByte),
        _ => None,
    }
}

impl Iso2022Jp {
    pub const ESCAPE: u8 = 0x1B;

    // How many of the index's entries, from the first on, a pair can stand at: no others are read.
    pub const FIRST: usize = 8836;

    pub fn fresh() -> Iso2022Jp
        ensures { result ≡ fresh }
    {
        Iso2022Jp {
            state: DecoderState::Ascii,
            out: OutputState::Ascii,
            lead: 0,
            output: false,
        }
    }

    // Whether the record is one that the kind can hold.
    #[tactic(auto, unfolding(crate::specs::Iso2022Jp::lead_in_b))]
    pub fn is_sound(self) -> bool
        ensures { result ≡ sound_b self }
    {
        match self.state {
            DecoderState::TrailByte => matches!(self.lead, 0x21..=0x7E),
            DecoderState::Escape => is_escape_lead(self.lead),
            _ => self.lead == 0,
        }
    }

    fn start_escape(self) -> Iso2022Jp
        ensures { result ≡ started self }
    {
        Iso2022Jp {
            state: DecoderState::EscapeStart,
            lead: 0,
            ..self
        }
    }

    // A byte in ASCII and in Roman.
    #[tactic(auto, unfolding(crate::specs::Iso2022Jp::ascii_of))]
    fn ascii(self, b: u8) -> Result<Iso2022Jp, Reason>
        ensures { out_of result ≡ ascii_of self.state self b }
    {
        if b == Iso2022Jp::ESCAPE {
            return Ok(self.start_escape());
        }
        if is_text(b) {
            return Ok(Iso2022Jp {
                lead: 0,
                output: false,
                ..self
            });
        }
        Err(Reason::BadByte)
    }

    // Whether the byte is text of plain ASCII, which leaves the record as it is: the loop's short way.
    #[tactic(auto, using(crate::specs::Iso2022JpLaws::text_passes))]
    fn passes(self, b: u8) -> bool
        requires { Sound self }
        ensures { result ≡ true → Passes self b }
    {
        self.state == DecoderState::Ascii && !self.output && is_text(b)
    }

    // A byte from 0x21 to the highest gives the next record.
    #[tactic(auto, unfolding(crate::specs::Iso2022Jp::ranged_of))]
    fn ranged(self, next: Iso2022Jp, high: u8, b: u8) -> Result<Iso2022Jp, Reason>
        ensures { out_of result ≡ ranged_of self next high b }
    {
        if b == Iso2022Jp::ESCAPE {
            return Ok(self.start_escape());
        }
        if (0x21..=high).contains(&b) {
            return Ok(next);
        }
        Err(Reason::BadByte)
    }

    fn katakana(self, b: u8) -> Result<Iso2022Jp, Reason>
        ensures { out_of result ≡ katakana_of self b }
    {
        let next = Iso2022Jp {
            state: DecoderState::Katakana,
            lead: 0,
            output: false,
            ..self
        };
        self.ranged(next, 0x5F, b)
    }

    fn lead_byte(self, b: u8) -> Result<Iso2022Jp, Reason>
        ensures { out_of result ≡ lead_of self b }
    {
        let next = Iso2022Jp {
            state: DecoderState::TrailByte,
            lead: b,
            output: false,
            ..self
        };
        self.ranged(next, 0x7E, b)
    }

    // An escape byte is an error here too.
    #[tactic(auto, unfolding(crate::specs::Iso2022Jp::trail_of))]
    fn trail_byte(self, b: u8, index: &[u32]) -> Result<Iso2022Jp, Reason>
        requires { ((0x21 ≤ self.lead) × (self.lead ≤ 0x7E)) × (length index.now ≡ jis_count) }
        ensures { out_of result ≡ trail_of index.now self b }
    {
        if !(0x21..=0x7E).contains(&b) {
            return Err(Reason::BadByte);
        }
        let at = (self.lead - 0x21) as usize * 94 + (b - 0x21) as usize;
        if entries::is_mapped(index[at], false) {
            return Ok(Iso2022Jp {
                state: DecoderState::LeadByte,
                lead: 0,
                ..self
            });
        }
        Err(Reason::BadByte)
    }

    #[tactic(auto, unfolding(crate::specs::Iso2022Jp::escape_start_of))]
    fn escape_start(self, b: u8) -> Result<Iso2022Jp, Reason>
        ensures { out_of result ≡ escape_start_of self b }
    {
        if is_escape_lead(b) {
            return Ok(Iso2022Jp {
                state: DecoderState::Escape,
                lead: b,
                ..self
            });
        }
        Err(Reason::BrokenEscape)
    }

    // An escape that follows another, with nothing put out between them, is an error.
    #[tactic(auto, unfolding(crate::specs::Iso2022Jp::escaped_to))]
    fn escape(self, b: u8) -> Result<Iso2022Jp, Reason>
        ensures { out_of result ≡ escape_of self b }
    {
        let Some(out) = designate(self.lead, b) else {
            return Err(Reason::BrokenEscape);
        };
        if self.output {
            return Err(Reason::BrokenEscape);
        }
        Ok(Iso2022Jp {
            state: DecoderState::from(out),
            out,
            lead: 0,
            output: true,
        })
    }

    #[tactic(auto, unfolding(crate::specs::Iso2022Jp::step_in))]
    fn step(self, b: u8, index: &[u32]) -> Result<Iso2022Jp, Reason>
        requires { Sound self × (length index.now ≡ jis_count) }
        ensures { out_of result ≡ step_of index.now self b }
    {
        match self.state {
            DecoderState::Ascii | DecoderState::Roman => self.ascii(b),
            DecoderState::Katakana => self.katakana(b),
            DecoderState::LeadByte => self.lead_byte(b),
            DecoderState::TrailByte => self.trail_byte(b, index),
            DecoderState::EscapeStart => self.escape_start(b),
            DecoderState::Escape => self.escape(b),
        }
    }

    fn run_fit(self, part: &[u8], index: &[u32]) -> Result<Iso2022Jp, Stop>
        requires { Sound self × (length index.now ≡ jis_count) }
        ensures { result ≡ reached (last_at (step_of index.now) (alive self) part.now) (run (step_of index.now) (alive self) part.now) }
    {
        let mut m = self;
        for i in 0..part.len() {
            if m.passes(part[i]) {
                continue;
            }
            match m.step(part[i], index) {
                Ok(next) => m = next,
                Err(reason) => return Err(Stop::Dropped(reason, i)),
            }
        }
        Ok(m)
    }

    // A stretch of bytes, one after the other, over the JIS X 0208 index. This and `close` read alike in Shift_JIS: a test and a call,
    // for which a trait is no plainer.
    pub fn run(self, part: &[u8], index: &[u32]) -> Result<Iso2022Jp, Stop>
        ensures { result ≡ ran_of index.now self part.now }
    {
        if is_ready(self.is_sound(), lengths::JIS, index, part) {
            return self.run_fit(part, index);
        }
        Err(Stop::Unfit)
    }

    // The end of the stream: a pending lead, or an escape that is not whole, drops out.
    #[tactic(auto, unfolding(crate::specs::Iso2022Jp::closed_of, crate::specs::Iso2022Jp::close_in, laws::specs::Answer::tested))]
    pub fn close(self) -> Result<Iso2022Jp, Stop>
        ensures { result ≡ closed_of self }
    {
        if !self.is_sound() {
            return Err(Stop::Unfit);
        }
        match self.state {
            DecoderState::TrailByte | DecoderState::EscapeStart | DecoderState::Escape => {
                Err(Stop::Dropped(Reason::CutAtClose, 0))
            }
            _ => Ok(self),
        }
    }
}
