// A single-byte encoding of Arabic and French, as windows-1256 is: the French letters have case, the Arabic ones make words.
#![tactic(auto)]

ghost use Rattle.std.specs.Prelude.{◌≡◌, true, false, ◌*◌, ◌<◌, ◌≤◌, nat_abs, length, get_or};
ghost use Rattle.laws.specs.Limit.{room};
ghost use Rattle.weights.specs.Weights.{term, per_byte};
ghost use Rattle.single.specs.Class.{alphabetic_of};
ghost use Rattle.arabic_french.specs.ArabicFrench.{fresh, case_of, clash_of, case_gain_of, step_of, Sound, sound_b};
ghost use Rattle.arabic_french.specs.ArabicFrenchLaws.{is_sound};
ghost use Rattle.arabic_french.specs.Noted.{case_before, noted, bare, left_by, gain_from, latin_by, latin_gain_by, RestsAt, starts};

use single::Lent;
use single::machine::{AsciiBefore, SingleByte};

#[derive(Clone, Copy, PartialEq, Eq)]
pub enum LatinCaseState {
    Space,
    Upper,
    Lower,
    AllCaps,
}

#[derive(Clone, Copy, PartialEq, Eq)]
pub struct ArabicFrench {
    pub prev: u8,
    pub case_state: LatinCaseState,
    pub prev_ascii: bool,
    pub current_word_len: u64,
    pub longest_word: u64,
}

impl LatinCaseState {
    // The case after a letter of French; any other class counts as a space between words.
    fn after_class(self, class: u8) -> LatinCaseState
        ensures { result ≡ case_of self class }
    {
        if class % 128 != single::LATIN_LETTER {
            return LatinCaseState::Space;
        }
        if class < 128 {
            return LatinCaseState::Lower;
        }
        match self {
            LatinCaseState::Space => LatinCaseState::Upper,
            LatinCaseState::Lower => LatinCaseState::Upper,
            LatinCaseState::Upper => LatinCaseState::AllCaps,
            LatinCaseState::AllCaps => LatinCaseState::AllCaps,
        }
    }

    // A lower letter after AllCaps, or a capital after Lower.
    fn clashes(self, class: u8) -> bool
        ensures { result ≡ clash_of self class }
    {
        if class % 128 != single::LATIN_LETTER {
            return false;
        }
        let capital = 128 <= class;
        match self {
            LatinCaseState::Space => false,
            LatinCaseState::Lower => capital,
            LatinCaseState::Upper => false,
            LatinCaseState::AllCaps => !capital,
        }
    }

    // By what a letter changes the score, unless both bytes are ASCII.
    fn gain(self, class: u8, weights: &[i32]) -> i64
        ensures value { result ≡ case_gain_of weights.now false self class }
        ensures result_bound { nat_abs result ≤ term }
    {
        if self.clashes(class) {
            return weights::weight(weights, weights::CASE);
        }
        0
    }
}

impl ArabicFrench {
    // Caseless classes are below it.
    pub const CLASSES: u8 = 128;

    pub fn fresh() -> ArabicFrench
        ensures { result ≡ fresh }
    {
        ArabicFrench {
            prev: 0,
            case_state: LatinCaseState::Space,
            prev_ascii: true,
            current_word_len: 0,
            longest_word: 0,
        }
    }

    // The case of the letters before byte i of a part. A step over no Latin letter leaves what it found, which then counts as
    // a space.
    fn case_before(self, i: usize) -> LatinCaseState
        ensures { result ≡ case_before i self }
    {
        let case_state = self.case_state;
        if i == 0 {
            return case_state;
        }
        if self.prev == single::LATIN_LETTER {
            return case_state;
        }
        LatinCaseState::Space
    }

    // What a step leaves. Its flag is left for `noted` to find from the byte, where it is asked.
    fn bare(prev: u8, case_state: LatinCaseState, word: u64, longest: u64) -> ArabicFrench
        ensures { result ≡ bare prev case_state word longest }
    {
        ArabicFrench {
            prev,
            case_state,
            prev_ascii: false,
            current_word_len: word,
            longest_word: longest,
        }
    }

    // A byte between words, and so is the one before: no word ends, and none is beside a Latin letter.
    #[tactic(auto, using(single::specs::Rest::gain_rested))]
    fn between(self, part: &[u8], i: usize, current: u8, lent: &Lent) -> (ArabicFrench, i64)
        requires i_in_bounds { i < length part.now }
        requires current_word_len_value { self.current_word_len ≡ 0 }
        requires prev_value { alphabetic_of lent.now.marks.now self.prev ≡ false }
        requires current_value { alphabetic_of lent.now.marks.now current ≡ false }
        ensures next { result.0 ≡ left_by self self.case_state current false }
        ensures gain { result.1 ≡ gain_from lent.now.marks.now lent.now.pairs.now lent.now.weights.now (noted part.now i self) (get_or part.now i 0) current }
        ensures gain_bound { nat_abs result.1 ≤ per_byte }
    {
        let case_state = self.case_state;
        let next = Self::bare(current, case_state, 0, self.longest_word);
        if self.is_ascii_pair(part, i) {
            return (next, 0);
        }
        (next, single::pair_score(self.prev, current, lent.pairs))
    }

    // A byte of a class that is alphabetic, but not the Latin letter's, or of one that is not.
    #[tactic(auto, using(single::specs::Rest::gain_marked))]
    fn scored<const ALPHABETIC: bool>(
        self,
        part: &[u8],
        i: usize,
        current: u8,
        lent: &Lent,
    ) -> (ArabicFrench, i64)
        requires i_in_bounds { i < length part.now }
        requires sound { Sound (2 * room) self }
        requires current_value { alphabetic_of lent.now.marks.now current ≡ ALPHABETIC }
        ensures next { result.0 ≡ left_by self self.case_state current ALPHABETIC }
        ensures gain { result.1 ≡ gain_from lent.now.marks.now lent.now.pairs.now lent.now.weights.now (noted part.now i self) (get_or part.now i 0) current }
        ensures gain_bound { nat_abs result.1 ≤ per_byte }
    {
        let words = single::words_after(self.current_word_len, self.longest_word, ALPHABETIC);
        let case_state = self.case_state;
        let next = Self::bare(current, case_state, words.current, words.longest);
        if self.is_ascii_pair(part, i) {
            return (next, 0);
        }
        let score = single::marked_gain(self.prev, current, ALPHABETIC, lent);
        (next, score)
    }

    // A Latin letter.
    fn latin(self, part: &[u8], i: usize, class: u8, lent: &Lent) -> (ArabicFrench, i64)
        requires i_in_bounds { i < length part.now }
        requires sound { Sound (2 * room) self }
        ensures next { result.0 ≡ latin_by lent.now.marks.now (noted part.now i self) class }
        ensures gain { result.1 ≡ latin_gain_by lent.now.marks.now lent.now.pairs.now lent.now.weights.now (noted part.now i self) (get_or part.now i 0) class }
        ensures gain_bound { nat_abs result.1 ≤ per_byte }
    {
        let current = single::LATIN_LETTER;
        let alphabetic = single::is_non_latin_alphabetic(lent.marks, current);
        let words = single::words_after(self.current_word_len, self.longest_word, alphabetic);
        let before = self.case_before(i);
        let after = before.after_class(class);
        let next = Self::bare(current, after, words.current, words.longest);
        if self.is_ascii_pair(part, i) {
            return (next, 0);
        }
        let pair = single::marked_gain(self.prev, current, alphabetic, lent);
        let score = pair + before.gain(class, lent.weights);
        (next, score)
    }
}

impl AsciiBefore for ArabicFrench {
    ghost prev_ascii = { λ m. m.prev_ascii };

    fn prev_ascii(self) -> bool {
        self.prev_ascii
    }
}

impl SingleByte for ArabicFrench {
    ghost step_of = { step_of };

    ghost Sound = { Sound };

    ghost sound_b = { sound_b };

    ghost noted = { noted };

    ghost Rests = { RestsAt };

    fn is_sound_for(self, n: u64) -> bool {
        single::is_common(n, self.prev, self.current_word_len, self.longest_word)
    }

    fn again(self) -> ArabicFrench {
        ArabicFrench {
            prev: self.prev % Self::CLASSES,
            ..self
        }
    }

    fn noted(self, part: &[u8], i: usize) -> ArabicFrench {
        ArabicFrench {
            case_state: self.case_before(i),
            prev_ascii: self.ascii_before(part, i),
            ..self
        }
    }

    #[tactic(auto, using(crate::specs::Noted::step_drops, crate::specs::Noted::step_leaves, crate::specs::Noted::latin_leaves))]
    fn step(self, part: &[u8], i: usize, lent: &Lent) -> Option<(ArabicFrench, i64)> {
        let class = lent.classes[part[i] as usize];
        if class == single::NO_CLASS {
            return None;
        }
        let current = class % Self::CLASSES;
        if current == single::LATIN_LETTER {
            return Some(self.latin(part, i, class, lent));
        }
        if single::is_non_latin_alphabetic(lent.marks, current) {
            return Some(self.scored::<true>(part, i, current, lent));
        }
        if single::is_at_rest(i, self.current_word_len) {
            return Some(self.between(part, i, current, lent));
        }
        Some(self.scored::<false>(part, i, current, lent))
    }

    ghost sound = { is_sound };

    ghost starts = { starts };
}
