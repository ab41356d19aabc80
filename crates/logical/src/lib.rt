// Hebrew in logical order, as windows-1255 has it: bytes stand in the order in which they are read, so that punctuation follows
// its word.
#![tactic(auto)]

ghost use Rattle.std.specs.Prelude.{◌≡◌, true, false, ◌*◌, ◌<◌, ◌≤◌, length, get_or, unsigned_abs};
ghost use Rattle.weights.specs.Weights.{per_byte};
ghost use Rattle.logical.specs.Logical.{fresh, plausible_of, step_of, Sound, sound_b};
ghost use Rattle.logical.specs.LogicalLaws.{is_sound};
ghost use Rattle.logical.specs.Noted.{noted, bare, left_by, gain_from, RestsAt, starts};
ghost use Rattle.laws.specs.Limit.{room};
ghost use Rattle.single.specs.Class.{alphabetic_of};
ghost use Rattle.single.specs.Rest.{Rests};

use single::Lent;
use single::machine::{AsciiBefore, SingleByte};

#[derive(Clone, Copy, PartialEq, Eq)]
pub struct Logical {
    pub prev: u8,
    pub prev_ascii: bool,
    pub plausible_punctuation: u64,
    pub current_word_len: u64,
    pub longest_word: u64,
}

impl Logical {
    // Caseless classes are below it.
    pub const CLASSES: u8 = 128;

    pub fn fresh() -> Logical
        ensures { result ≡ fresh }
    {
        Logical {
            prev: 0,
            prev_ascii: true,
            plausible_punctuation: 0,
            current_word_len: 0,
            longest_word: 0,
        }
    }

    // ASCII punctuation of caseless class 0 after an alphabetic class.
    fn is_plausible(prev: u8, current: u8, b: u8, marks: &[u8]) -> bool
        ensures { result ≡ plausible_of marks.now prev current b }
    {
        if single::is_punctuation(current, b) {
            return single::is_non_latin_alphabetic(marks, prev);
        }
        false
    }

    // What a step leaves. Its flag is left for `noted` to find from the byte, where it is asked.
    fn bare(prev: u8, plausible: u64, word: u64, longest: u64) -> Logical
        ensures { result ≡ bare prev plausible word longest }
    {
        Logical {
            prev,
            prev_ascii: false,
            plausible_punctuation: plausible,
            current_word_len: word,
            longest_word: longest,
        }
    }

    // A byte between words, and so is the one before: no word ends, and none is beside a Latin letter.
    #[tactic(auto, using(single::specs::Rest::gain_rested))]
    fn between(self, part: &[u8], i: usize, current: u8, lent: &Lent) -> (Logical, i64)
        requires i_in_bounds { i < length part.now }
        requires current_word_len_value { self.current_word_len ≡ 0 }
        requires prev_value { alphabetic_of lent.now.marks.now self.prev ≡ false }
        requires current_value { alphabetic_of lent.now.marks.now current ≡ false }
        ensures next { result.0 ≡ left_by lent.now.marks.now (noted part.now i self) (get_or part.now i 0) current false }
        ensures gain { result.1 ≡ gain_from lent.now.marks.now lent.now.pairs.now lent.now.weights.now (noted part.now i self) (get_or part.now i 0) current }
        ensures gain_bound { unsigned_abs result.1 ≤ per_byte }
    {
        let next = Self::bare(current, self.plausible_punctuation, 0, self.longest_word);
        if self.is_ascii_pair(part, i) {
            return (next, 0);
        }
        (next, single::pair_score(self.prev, current, lent.pairs))
    }

    // A byte of a class that is alphabetic, or of one that is not.
    #[tactic(auto, using(single::specs::Rest::gain_marked))]
    fn scored<const ALPHABETIC: bool>(
        self,
        part: &[u8],
        i: usize,
        current: u8,
        lent: &Lent,
    ) -> (Logical, i64)
        requires i_in_bounds { i < length part.now }
        requires sound { Sound (2 * room) self }
        requires current_value { alphabetic_of lent.now.marks.now current ≡ ALPHABETIC }
        ensures next { result.0 ≡ left_by lent.now.marks.now (noted part.now i self) (get_or part.now i 0) current ALPHABETIC }
        ensures gain { result.1 ≡ gain_from lent.now.marks.now lent.now.pairs.now lent.now.weights.now (noted part.now i self) (get_or part.now i 0) current }
        ensures gain_bound { unsigned_abs result.1 ≤ per_byte }
    {
        let words = single::words_after(self.current_word_len, self.longest_word, ALPHABETIC);
        let count = self.plausible_punctuation;
        if self.is_ascii_pair(part, i) {
            return (Self::bare(current, count, words.current, words.longest), 0);
        }
        let plausible = Self::is_plausible(self.prev, current, part[i], lent.marks);
        let more = single::count_if(count, plausible);
        let score = single::marked_gain(self.prev, current, ALPHABETIC, lent);
        (
            Self::bare(current, more, words.current, words.longest),
            score,
        )
    }
}

impl AsciiBefore for Logical {
    ghost prev_ascii = { λ m. m.prev_ascii };

    fn prev_ascii(self) -> bool {
        self.prev_ascii
    }
}

impl SingleByte for Logical {
    ghost step_of = { step_of };

    ghost Sound = { Sound };

    ghost sound_b = { sound_b };

    ghost noted = { noted };

    ghost Rests = { RestsAt };

    fn is_sound_for(self, n: u64) -> bool {
        self.plausible_punctuation <= n
            && single::is_common(n, self.prev, self.current_word_len, self.longest_word)
    }

    fn again(self) -> Logical {
        Logical {
            prev: self.prev % Self::CLASSES,
            ..self
        }
    }

    fn noted(self, part: &[u8], i: usize) -> Logical {
        Logical {
            prev_ascii: self.ascii_before(part, i),
            ..self
        }
    }

    #[tactic(auto, using(crate::specs::Noted::step_drops, crate::specs::Noted::step_leaves))]
    fn step(self, part: &[u8], i: usize, lent: &Lent) -> Option<(Logical, i64)> {
        let class = lent.classes[part[i] as usize];
        if class == single::NO_CLASS {
            return None;
        }
        let current = class % Self::CLASSES;
        if single::is_non_latin_alphabetic(lent.marks, current) {
            return Some(self.scored::<true>(part, i, current, lent));
        }
        if single::is_at_rest(i, self.current_word_len) {
            return Some(self.between(part, i, current, lent));
        }
        Some(self.scored::<false>(part, i, current, lent))
    }

    ghost sound = { is_sound };

    ghost starts = { starts };
}
