// Hebrew in visual order, as ISO-8859-8 has it: bytes stand as they are seen from the left, so that punctuation precedes its
// word.
#![tactic(auto)]

ghost use Rattle.std.specs.Prelude.{◌≡◌, true, false, ◌*◌, ◌<◌, ◌≤◌, length, nat_abs, get_or};
ghost use Rattle.laws.specs.Limit.{room};
ghost use Rattle.weights.specs.Weights.{per_byte};
ghost use Rattle.single.specs.Class.{alphabetic_of};
ghost use Rattle.visual.specs.Visual.{fresh, step_of, Sound, sound_b};
ghost use Rattle.visual.specs.VisualLaws.{is_sound};
ghost use Rattle.visual.specs.Noted.{punctuation_before, noted, bare, left_by, gain_from, RestsAt, starts};

use single::Lent;
use single::machine::{AsciiBefore, SingleByte};

#[derive(Clone, Copy, PartialEq, Eq)]
pub struct Visual {
    pub prev: u8,
    pub prev_ascii: bool,
    pub prev_punctuation: bool,
    pub plausible_punctuation: u64,
    pub current_word_len: u64,
    pub longest_word: u64,
}

impl Visual {
    // Caseless classes are below it.
    pub const CLASSES: u8 = 128;

    pub fn fresh() -> Visual
        ensures { result ≡ fresh }
    {
        Visual {
            prev: 0,
            prev_ascii: true,
            prev_punctuation: false,
            plausible_punctuation: 0,
            current_word_len: 0,
            longest_word: 0,
        }
    }

    // Whether the byte before byte i of a part is ASCII punctuation of caseless class 0.
    fn punctuation_before(self, part: &[u8], i: usize) -> bool
        requires { i ≤ length part.now }
        ensures { result ≡ punctuation_before part.now i self }
    {
        if i == 0 {
            return self.prev_punctuation;
        }
        single::is_punctuation(self.prev, part[i - 1])
    }

    // What a step leaves. Its flags are left for `noted` to find from the byte, where they are asked.
    fn bare(prev: u8, plausible: u64, word: u64, longest: u64) -> Visual
        ensures { result ≡ bare prev plausible word longest }
    {
        Visual {
            prev,
            prev_ascii: false,
            prev_punctuation: false,
            plausible_punctuation: plausible,
            current_word_len: word,
            longest_word: longest,
        }
    }

    // A byte between words, and so is the one before: no word ends, and none is beside a Latin letter.
    #[tactic(auto, using(single::specs::Rest::gain_rested))]
    fn between(self, part: &[u8], i: usize, current: u8, lent: &Lent) -> (Visual, i64)
        requires i_in_bounds { i < length part.now }
        requires current_word_len_value { self.current_word_len ≡ 0 }
        requires prev_value { alphabetic_of lent.now.marks.now self.prev ≡ false }
        requires current_value { alphabetic_of lent.now.marks.now current ≡ false }
        ensures next { result.0 ≡ left_by (noted part.now i self) (get_or part.now i 0) current false }
        ensures gain { result.1 ≡ gain_from lent.now.marks.now lent.now.pairs.now lent.now.weights.now (noted part.now i self) (get_or part.now i 0) current }
        ensures gain_bound { nat_abs result.1 ≤ per_byte }
    {
        let next = Self::bare(current, self.plausible_punctuation, 0, self.longest_word);
        if self.is_ascii_pair(part, i) {
            return (next, 0);
        }
        (next, single::pair_score(self.prev, current, lent.pairs))
    }

    // A byte of a class that is alphabetic, before which alone punctuation is plausible, or of one that is not.
    #[tactic(auto, using(single::specs::Rest::gain_marked))]
    fn scored<const ALPHABETIC: bool>(
        self,
        part: &[u8],
        i: usize,
        current: u8,
        lent: &Lent,
    ) -> (Visual, i64)
        requires i_in_bounds { i < length part.now }
        requires sound { Sound (2 * room) self }
        requires current_value { alphabetic_of lent.now.marks.now current ≡ ALPHABETIC }
        ensures next { result.0 ≡ left_by (noted part.now i self) (get_or part.now i 0) current ALPHABETIC }
        ensures gain { result.1 ≡ gain_from lent.now.marks.now lent.now.pairs.now lent.now.weights.now (noted part.now i self) (get_or part.now i 0) current }
        ensures gain_bound { nat_abs result.1 ≤ per_byte }
    {
        let words = single::words_after(self.current_word_len, self.longest_word, ALPHABETIC);
        let count = self.plausible_punctuation;
        if self.is_ascii_pair(part, i) {
            return (Self::bare(current, count, words.current, words.longest), 0);
        }
        let plausible = ALPHABETIC && self.punctuation_before(part, i);
        let more = single::count_if(count, plausible);
        let score = single::marked_gain(self.prev, current, ALPHABETIC, lent);
        (
            Self::bare(current, more, words.current, words.longest),
            score,
        )
    }
}

impl AsciiBefore for Visual {
    ghost prev_ascii = { λ m. m.prev_ascii };

    fn prev_ascii(self) -> bool {
        self.prev_ascii
    }
}

impl SingleByte for Visual {
    ghost step_of = { step_of };

    ghost Sound = { Sound };

    ghost sound_b = { sound_b };

    ghost noted = { noted };

    ghost Rests = { RestsAt };

    fn is_sound_for(self, n: u64) -> bool {
        self.plausible_punctuation <= n
            && single::is_common(n, self.prev, self.current_word_len, self.longest_word)
    }

    fn again(self) -> Visual {
        Visual {
            prev: self.prev % Self::CLASSES,
            ..self
        }
    }

    fn noted(self, part: &[u8], i: usize) -> Visual {
        Visual {
            prev_ascii: self.ascii_before(part, i),
            prev_punctuation: self.punctuation_before(part, i),
            ..self
        }
    }

    #[tactic(auto, using(crate::specs::Noted::step_drops, crate::specs::Noted::step_leaves))]
    fn step(self, part: &[u8], i: usize, lent: &Lent) -> Option<(Visual, i64)> {
        let class = lent.classes[part[i] as usize];
        if class == single::NO_CLASS {
            return None;
        }
        let current = class % Self::CLASSES;
        if single::is_non_latin_alphabetic(lent.marks, current) {
            return Some(self.scored::<true>(part, i, current, lent));
        }
        if single::is_at_rest(i, self.current_word_len) {
            return Some(self.between(part, i, current, lent));
        }
        Some(self.scored::<false>(part, i, current, lent))
    }

    ghost sound = { is_sound };

    ghost starts = { starts };
}
