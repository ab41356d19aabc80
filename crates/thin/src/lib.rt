// The thin form of a feed, for a loop that keeps the front in one place: the front is lent by `&mut`, the places go in and
// come back by value.
#![tactic(auto)]

ghost use Rattle.std.specs.Prelude.{◌≡◌};
ghost use Rattle.tables.specs.Lists.{lists};
ghost use Rattle.thin.specs.Thin.{stepped_of, thin_of, front_after};

use detector::feed;
use places::place::Slate;
use state::State;
use state::front::Front;
use state::reply::Reply;
use tables::Tables;

#[derive(Clone, Copy)]
pub struct Thin {
    pub places: Slate,
    pub reply: Reply,
}

// What a feed leaves in the caller's record, and what it gives.
#[derive(Clone, Copy)]
struct Stepped {
    front: Front,
    thin: Thin,
}

fn step(front: Front, places: Slate, chunk: &[u8], last: bool, tables: &Tables) -> Stepped
    ensures { result ≡ stepped_of (lists tables.now) front places chunk.now last }
{
    let fed = feed::feed(State { front, places }, chunk, last, tables);
    let state = fed.state;
    let front = state.front;
    let places = state.places;
    let reply = fed.reply;
    Stepped {
        front,
        thin: Thin { places, reply },
    }
}

// A chunk, the last one of its stream or not, over the lent tables. After a reply of 1 to 4 the front is as it was.
pub fn feed(front: &mut Front, places: Slate, chunk: &[u8], last: bool, tables: &Tables) -> Thin
    ensures { (result ≡ thin_of (lists tables.now) front.old places chunk.now last) × (front.new ≡ front_after (lists tables.now) front.old places chunk.now last) }
{
    let old = *front;
    let stepped = step(old, places, chunk, last, tables);
    *front = stepped.front;
    stepped.thin
}
