// Which place leads.
ghost use Rattle.std.specs.Prelude.{◌≡◌};
ghost use Rattle.state.specs.Leader.{better_of, best_from, leader_of};
ghost use Rattle.std.specs.declared.option.Option.TheVariants as best;

use crate::{State, hebrew};
use places::place::{PLACES, Score, Slate};

// Before any trigger; no place has a score; or the number of the place.
#[derive(Clone, Copy, PartialEq, Eq)]
pub enum Leader {
    Ascii,
    None,
    Place(usize),
}

// The greatest score so far, and where it stands first.
type Best = Option<(usize, i64)>;

fn better(best: Best, k: usize, score: Score) -> Best
    ensures { result ≡ better_of best k score }
{
    let Ok(n) = score else {
        return best;
    };
    let Some((_, most)) = best else {
        return Some((k, n));
    };
    if most < n {
        return Some((k, n));
    }
    best
}

fn greatest(places: Slate) -> Best
    ensures { result ≡ best_from best.None 0 places }
{
    let mut best = None;
    for k in 0..PLACES {
        best = better(best, k, places[k].score);
    }
    best
}

// The place that leads: the greatest score, the lowest place at a tie; between the two orders of Hebrew their punctuation.
pub fn of(state: State) -> Leader
    ensures { result ≡ leader_of state }
{
    let front = state.front;
    let places = state.places;
    if front.is_triggered() {
        return match greatest(places) {
            None => Leader::None,
            Some((at, _)) => Leader::Place(hebrew::named(places, at)),
        };
    }
    Leader::Ascii
}
