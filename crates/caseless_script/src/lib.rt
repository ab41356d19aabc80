// A single-byte encoding of a script without case, as ISO-8859-6 (Arabic) and windows-874 (Thai) are.
#![tactic(auto)]

ghost use Rattle.std.specs.Prelude.{◌≡◌, true, false, ◌*◌, ◌<◌, ◌≤◌, length, get_or, unsigned_abs};
ghost use Rattle.weights.specs.Weights.{per_byte};
ghost use Rattle.caseless_script.specs.Caseless.{fresh, step_of, Sound, sound_b};
ghost use Rattle.caseless_script.specs.CaselessLaws.{is_sound};
ghost use Rattle.caseless_script.specs.Noted.{noted, bare, left_by, gain_from, RestsAt, starts};
ghost use Rattle.laws.specs.Limit.{room};
ghost use Rattle.single.specs.Class.{alphabetic_of};
ghost use Rattle.single.specs.Rest.{Rests};

use single::Lent;
use single::machine::{AsciiBefore, SingleByte};

#[derive(Clone, Copy, PartialEq, Eq)]
pub struct Caseless {
    pub prev: u8,
    pub prev_ascii: bool,
    pub current_word_len: u64,
    pub longest_word: u64,
}

impl Caseless {
    // Caseless classes are below it.
    pub const CLASSES: u8 = 128;

    pub fn fresh() -> Caseless
        ensures { result ≡ fresh }
    {
        Caseless {
            prev: 0,
            prev_ascii: true,
            current_word_len: 0,
            longest_word: 0,
        }
    }

    // What a step leaves. Its flag is left for `noted` to find from the byte, where it is asked.
    fn bare(prev: u8, word: u64, longest: u64) -> Caseless
        ensures { result ≡ bare prev word longest }
    {
        Caseless {
            prev,
            prev_ascii: false,
            current_word_len: word,
            longest_word: longest,
        }
    }

    // A byte between words, and so is the one before: no word ends, and none is beside a Latin letter.
    #[tactic(auto, using(single::specs::Rest::gain_rested))]
    fn between(self, part: &[u8], i: usize, current: u8, lent: &Lent) -> (Caseless, i64)
        requires i_in_bounds { i < length part.now }
        requires current_word_len_value { self.current_word_len ≡ 0 }
        requires prev_value { alphabetic_of lent.now.marks.now self.prev ≡ false }
        requires current_value { alphabetic_of lent.now.marks.now current ≡ false }
        ensures next { result.0 ≡ left_by (noted part.now i self) (get_or part.now i 0) current false }
        ensures gain { result.1 ≡ gain_from lent.now.marks.now lent.now.pairs.now lent.now.weights.now (noted part.now i self) (get_or part.now i 0) current }
        ensures gain_bound { unsigned_abs result.1 ≤ per_byte }
    {
        let next = Self::bare(current, 0, self.longest_word);
        if self.is_ascii_pair(part, i) {
            return (next, 0);
        }
        (next, single::pair_score(self.prev, current, lent.pairs))
    }

    // A byte of a class that is alphabetic, or of one that is not.
    #[tactic(auto, using(single::specs::Rest::gain_marked))]
    fn scored<const ALPHABETIC: bool>(
        self,
        part: &[u8],
        i: usize,
        current: u8,
        lent: &Lent,
    ) -> (Caseless, i64)
        requires i_in_bounds { i < length part.now }
        requires sound { Sound (2 * room) self }
        requires current_value { alphabetic_of lent.now.marks.now current ≡ ALPHABETIC }
        ensures next { result.0 ≡ left_by (noted part.now i self) (get_or part.now i 0) current ALPHABETIC }
        ensures gain { result.1 ≡ gain_from lent.now.marks.now lent.now.pairs.now lent.now.weights.now (noted part.now i self) (get_or part.now i 0) current }
        ensures gain_bound { unsigned_abs result.1 ≤ per_byte }
    {
        let words = single::words_after(self.current_word_len, self.longest_word, ALPHABETIC);
        let next = Self::bare(current, words.current, words.longest);
        if self.is_ascii_pair(part, i) {
            return (next, 0);
        }
        let score = single::marked_gain(self.prev, current, ALPHABETIC, lent);
        (next, score)
    }
}

impl AsciiBefore for Caseless {
    ghost prev_ascii = { λ m. m.prev_ascii };

    fn prev_ascii(self) -> bool {
        self.prev_ascii
    }
}

impl SingleByte for Caseless {
    ghost step_of = { step_of };

    ghost Sound = { Sound };

    ghost sound_b = { sound_b };

    ghost noted = { noted };

    ghost Rests = { RestsAt };

    fn is_sound_for(self, n: u64) -> bool {
        single::is_common(n, self.prev, self.current_word_len, self.longest_word)
    }

    fn again(self) -> Caseless {
        Caseless {
            prev: self.prev % Self::CLASSES,
            ..self
        }
    }

    fn noted(self, part: &[u8], i: usize) -> Caseless {
        Caseless {
            prev_ascii: self.ascii_before(part, i),
            ..self
        }
    }

    #[tactic(auto, using(crate::specs::Noted::step_drops, crate::specs::Noted::step_leaves))]
    fn step(self, part: &[u8], i: usize, lent: &Lent) -> Option<(Caseless, i64)> {
        let class = lent.classes[part[i] as usize];
        if class == single::NO_CLASS {
            return None;
        }
        let current = class % Self::CLASSES;
        if single::is_non_latin_alphabetic(lent.marks, current) {
            return Some(self.scored::<true>(part, i, current, lent));
        }
        if single::is_at_rest(i, self.current_word_len) {
            return Some(self.between(part, i, current, lent));
        }
        Some(self.scored::<false>(part, i, current, lent))
    }

    ghost sound = { is_sound };

    ghost starts = { starts };
}
