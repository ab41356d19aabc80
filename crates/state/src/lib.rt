// The state of a stream: the front and the slate.
#![tactic(auto)]

ghost use Rattle.std.specs.Prelude.{◌≡◌};
ghost use Rattle.state.specs.Order.{state_b};
ghost use Rattle.state.specs.State.{start_of, started_of};

pub mod front;
mod hebrew;
pub mod leader;
pub mod reply;

use front::Front;
use places::place::Slate;
use places::{order, slate};
use reply::StartReply;

#[derive(Clone, Copy, PartialEq, Eq)]
pub struct State {
    pub front: Front,
    pub places: Slate,
}

// A start's state, and what is replied to it.
#[derive(Clone, Copy, PartialEq, Eq)]
pub struct Started {
    pub state: State,
    pub reply: StartReply,
}

// The bits that name places are below this one.
const FIRST_UNNAMED: u16 = 512;

fn begun(bits: u16) -> State
    ensures { result ≡ start_of bits }
{
    State {
        front: Front::fresh(),
        places: slate::start(bits),
    }
}

// A stream's start; bit k of `bits` says whether place k takes part. A bit that no place has is refused, and then none does.
pub fn start(bits: u16) -> Started
    ensures { result ≡ started_of bits }
{
    if bits < FIRST_UNNAMED {
        return Started {
            state: begun(bits),
            reply: StartReply::Accepted,
        };
    }
    Started {
        state: begun(0),
        reply: StartReply::NoSuchPlace,
    }
}

impl State {
    // Whether the state is in order: what a start and feeds lead to is, and other states besides.
    pub fn is_in_order(self) -> bool
        ensures { result ≡ state_b self }
    {
        let front = self.front;
        let places = self.places;
        let fed = front.is_triggered();
        front.is_in_order()
            && order::are_in_order(places, front.bytes, front.body, front.closed, fed)
    }
}
