// The UTF-8 validator: dropped at the first byte that the Encoding Standard's decoder calls an error.
#![tactic(auto)]

ghost use Rattle.std.specs.Prelude.{◌≡◌, ◌<◌, eqb};
ghost use Rattle.context.specs.Head.{non_ascii_count};
ghost use Rattle.utf8.specs.Grid.{Live, cut_state, last, record_at, state_of};
ghost use Rattle.utf8.specs.Utf8.{closed_of, fresh, needs, next_in, ran_of, sound_b};

pub mod grid;

use context::Scanned;
use laws::{Reason, Stop};

// Between two bytes: how many more the sequence needs, and the range of the next one.
#[derive(Clone, Copy, PartialEq, Eq)]
pub struct Utf8 {
    pub need: u8,
    pub lo: u8,
    pub hi: u8,
}

impl Utf8 {
    pub const LOWER: u8 = 0x80;

    pub const UPPER: u8 = 0xBF;

    pub fn fresh() -> Utf8
        ensures { result ≡ fresh }
    {
        Utf8 {
            need: 0,
            lo: Utf8::LOWER,
            hi: Utf8::UPPER,
        }
    }

    // Whether the next byte's range is this one.
    #[tactic(auto, unfolding(crate::specs::Utf8::next_in))]
    fn next_in(self, lo: u8, hi: u8) -> bool
        ensures { result ≡ next_in self lo hi }
    {
        self.lo == lo && self.hi == hi
    }

    // The state of a record whose next byte's range is cut: at its low end, or, one further, at its high end.
    #[tactic(auto, unfolding(crate::specs::Grid::cut_state))]
    fn cut_state(self, lo: u8, hi: u8, state: u8) -> u8
        requires { state < last }
        ensures { result ≡ cut_state self lo hi state }
    {
        if self.next_in(lo, Utf8::UPPER) {
            return state;
        }
        if self.next_in(Utf8::LOWER, hi) {
            return state + 1;
        }
        grid::BAD
    }

    // The record's state in the grid; the first one stands for every record that the kind can't hold.
    #[tactic(auto, unfolding(crate::specs::Grid::state_of))]
    fn state(self) -> u8
        ensures { result ≡ state_of self }
    {
        if self.next_in(Utf8::LOWER, Utf8::UPPER) {
            if self.need <= 3 {
                return self.need + 1;
            }
            return grid::BAD;
        }
        if self.need == 2 {
            return self.cut_state(0xA0, 0x9F, 5);
        }
        if self.need == 3 {
            return self.cut_state(0x90, 0x8F, 7);
        }
        grid::BAD
    }

    fn needs(need: u8, lo: u8, hi: u8) -> Utf8
        ensures { result ≡ needs need lo hi }
    {
        Utf8 { need, lo, hi }
    }

    // The record of a state that has one.
    #[tactic(auto, using(crate::specs::GridLaws::last_record), unfolding(crate::specs::Grid::record_at))]
    pub(crate) fn of_state(state: u8) -> Utf8
        requires { Live state }
        ensures { result ≡ record_at state }
    {
        match state {
            1 => Utf8::fresh(),
            2 => Utf8::needs(1, Utf8::LOWER, Utf8::UPPER),
            3 => Utf8::needs(2, Utf8::LOWER, Utf8::UPPER),
            4 => Utf8::needs(3, Utf8::LOWER, Utf8::UPPER),
            5 => Utf8::needs(2, 0xA0, Utf8::UPPER),
            6 => Utf8::needs(2, Utf8::LOWER, 0x9F),
            7 => Utf8::needs(3, 0x90, Utf8::UPPER),
            _ => Utf8::needs(3, Utf8::LOWER, 0x8F),
        }
    }

    // Whether the record is one that the kind can hold.
    #[tactic(auto, using(crate::specs::GridLaws::state_sound))]
    pub fn is_sound(self) -> bool
        ensures { result ≡ sound_b self }
    {
        grid::BAD < self.state()
    }

    // A stretch of bytes, one after the other. Between two sequences a stretch of ASCII changes nothing and needs no grid.
    pub fn run(self, part: &[u8]) -> Result<Utf8, Stop>
        ensures { result ≡ ran_of self part.now }
    {
        let from = self.state();
        if from == grid::BAD {
            return Err(Stop::Unfit);
        }
        if lengths::MOST < part.len() {
            return Err(Stop::Unfit);
        }
        if from == grid::BETWEEN && is_ascii(part) {
            return Ok(Utf8::fresh());
        }
        grid::run(from, part)
    }

    // The end of the stream: a sequence that is cut drops out.
    #[tactic(auto, unfolding(crate::specs::Utf8::closed_of, crate::specs::Utf8::close_of, laws::specs::Answer::tested))]
    pub fn close(self) -> Result<Utf8, Stop>
        ensures { result ≡ closed_of self }
    {
        if !self.is_sound() {
            return Err(Stop::Unfit);
        }
        if self.need == 0 {
            return Ok(self);
        }
        Err(Stop::Dropped(Reason::CutAtClose, 0))
    }
}

// Whether a stretch is ASCII. The scan says so faster than the count where it is short, but stops at an escape.
fn is_ascii(part: &[u8]) -> bool
    ensures { result ≡ eqb (non_ascii_count part.now) 0 }
{
    match context::scan(part) {
        Scanned::End => true,
        Scanned::NonAscii(_) => false,
        Scanned::Escape(_) => context::count_non_ascii(part) == 0,
    }
}
