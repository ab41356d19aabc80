// What the four single-byte machines have in common: class, word length, pair score, adjacency, and the test of what is lent.
#![tactic(auto)]

ghost use Rattle.std.specs.Prelude.{◌≡◌, ◌*◌, ◌≤◌, unsigned_abs};
ghost use Rattle.weights.specs.Weights.{term};
ghost use Rattle.single.specs.Class.{alphabetic_of};
ghost use Rattle.single.specs.Fit.{common_b};
ghost use Rattle.single.specs.Pair.{ascii_pair, beside_of, pair_score, marked_gain_of};
ghost use Rattle.single.specs.Punctuation.{punctuation_of, count_of};
ghost use Rattle.single.specs.Rest.{rest_b};
ghost use Rattle.single.specs.Words.{in64, words_of};

pub mod machine;

// Classes are numbers and no enum: the tables that are lent have any byte as a class.
pub const LATIN_LETTER: u8 = 1;

pub const NO_CLASS: u8 = 255;

#[derive(Clone, Copy)]
pub struct Words {
    pub current: u64,
    pub longest: u64,
}

// What a single-byte machine is lent.
#[derive(Clone, Copy)]
pub struct Lent<'a> {
    pub classes: &'a [u8],
    pub marks: &'a [u8],
    pub pairs: &'a [i16],
    pub weights: &'a [i32],
}

// Whether no bound of n bytes excludes the fields that the four records share.
#[tactic(auto, unfolding(crate::specs::Fit::common_b))]
pub fn is_common(n: u64, prev: u8, word: u64, longest: u64) -> bool
    ensures { result ≡ common_b n prev word longest }
{
    prev < 128 && (word <= n && longest <= n)
}

// Whether the marks say so of the class; a class that they don't reach is not alphabetic.
pub fn is_non_latin_alphabetic(marks: &[u8], class: u8) -> bool
    ensures { result ≡ alphabetic_of marks.now class }
{
    let k = class as usize;
    if k < marks.len() {
        return marks[k] != 0;
    }
    false
}

// Counts are kept in 64 bits.
pub fn words_after(current: u64, longest: u64, alphabetic: bool) -> Words
    ensures { result ≡ words_of current longest alphabetic }
{
    if alphabetic {
        return Words {
            current: std::num::wrapping_add_u64(current, 1),
            longest,
        };
    }
    if current == 0 {
        return Words { current, longest };
    }
    if longest < current {
        return Words {
            current: 0,
            longest: current,
        };
    }
    Words {
        current: 0,
        longest,
    }
}

// Whether a byte of the part came before byte i, and no word has begun.
pub fn is_at_rest(i: usize, word: u64) -> bool
    ensures { result ≡ rest_b i word }
{
    (i != 0) & (word == 0)
}

// Whether a byte is ASCII punctuation of caseless class 0.
pub fn is_punctuation(class: u8, b: u8) -> bool
    ensures { result ≡ punctuation_of class b }
{
    if class == 0 {
        return octets::is_ascii_punctuation(b);
    }
    false
}

pub fn count_if(count: u64, more: bool) -> u64
    ensures { result ≡ in64 (count_of count more) }
{
    if more {
        return std::num::wrapping_add_u64(count, 1);
    }
    count
}

// Whether this byte and the previous one are both ASCII.
pub fn is_ascii_pair(prev_ascii: bool, b: u8) -> bool
    ensures { result ≡ ascii_pair prev_ascii b }
{
    if prev_ascii {
        return octets::is_ascii(b);
    }
    false
}

// Whether a Latin letter and a non-Latin alphabetic class stand side by side, where it is known whether `current` is alphabetic.
#[tactic(auto, unfolding(crate::specs::Pair::beside_of))]
fn is_beside(prev: u8, current: u8, alphabetic: bool, marks: &[u8]) -> bool
    ensures { result ≡ beside_of marks.now alphabetic prev current }
{
    if (prev == LATIN_LETTER) & alphabetic {
        return true;
    }
    if current != LATIN_LETTER {
        return false;
    }
    is_non_latin_alphabetic(marks, prev)
}

// The lent score of the pair, or 0 where there is none.
pub fn pair_score(prev: u8, current: u8, pairs: &[i16]) -> i64
    ensures value { result ≡ pair_score pairs.now prev current }
    ensures result_bound { unsigned_abs result ≤ term }
{
    let at = 128 * current as usize + prev as usize;
    if at < pairs.len() {
        return pairs[at] as i64;
    }
    0
}

// The pair score of `current` after `prev`, with the adjacency weight where it applies, for a caller that knows whether `current`
// is alphabetic.
pub fn marked_gain(prev: u8, current: u8, alphabetic: bool, lent: &Lent) -> i64
    ensures value { result ≡ marked_gain_of lent.now.marks.now lent.now.pairs.now lent.now.weights.now alphabetic prev current }
    ensures result_bound { unsigned_abs result ≤ 2 * term }
{
    let score = pair_score(prev, current, lent.pairs);
    if is_beside(prev, current, alphabetic, lent.marks) {
        return score + weights::weight(lent.weights, weights::LATIN_ADJACENCY);
    }
    score
}
