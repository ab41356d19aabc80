// The two orders of Hebrew. They often score nearly alike; their plausible punctuation tells in which of them a text is.
ghost use Rattle.std.specs.Prelude.{◌≡◌};
ghost use Rattle.state.specs.Hebrew.{has_score, plausible_punctuation, is_hebrew, contested, punctuated, named_of};

use kinds::machine::Machine;
use places::place::{Place, Score, Slate};

// The numbers of their places.
const LOGICAL: usize = 5;

const VISUAL: usize = 6;

fn has_score(score: Score) -> bool
    ensures { result ≡ has_score score }
{
    score.is_ok()
}

// The plausible punctuation that a machine has counted; the other kinds count none.
fn plausible_punctuation(machine: Machine) -> u64
    ensures { result ≡ plausible_punctuation machine }
{
    match machine {
        Machine::Utf8(_) => 0,
        Machine::Iso2022Jp(_) => 0,
        Machine::EucKr(_) => 0,
        Machine::Big5(_) => 0,
        Machine::Caseless(_) => 0,
        Machine::Logical(m) => m.plausible_punctuation,
        Machine::Visual(m) => m.plausible_punctuation,
        Machine::ArabicFrench(_) => 0,
        Machine::ShiftJis(_) => 0,
    }
}

// Whether place `at` is one of the two.
fn is_hebrew(at: usize) -> bool
    ensures { result ≡ is_hebrew at }
{
    at == LOGICAL || at == VISUAL
}

// Whether place `at` is one of the two, and both have scores.
fn is_contested(logical: Place, visual: Place, at: usize) -> bool
    ensures { result ≡ contested logical visual at }
{
    let one = logical.score;
    let other = visual.score;
    is_hebrew(at) && (has_score(one) && has_score(other))
}

// The one with more plausible punctuation, logical on equal counts.
fn punctuated(logical: Place, visual: Place) -> usize
    ensures { result ≡ punctuated logical visual }
{
    let one = logical.machine;
    let other = visual.machine;
    if plausible_punctuation(one) < plausible_punctuation(other) {
        return VISUAL;
    }
    LOGICAL
}

// The place that is named where place `at` has the greatest score.
pub(crate) fn named(places: Slate, at: usize) -> usize
    ensures { result ≡ named_of places at }
{
    let logical = places[LOGICAL];
    let visual = places[VISUAL];
    if is_contested(logical, visual, at) {
        return punctuated(logical, visual);
    }
    at
}
