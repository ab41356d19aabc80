// A chunk of a stream, and what is replied.
ghost use Rattle.std.specs.Prelude.{false, ◌≡◌};
ghost use Rattle.tables.specs.Lists.{lists};
ghost use Rattle.detector.specs.Feed.{verdict_of, accepted, feed_of};
ghost use Rattle.detector.specs.Kept.{StaysIn};

use crate::front;
use crate::front::Due;
use places::place::Slate;
use places::{order, slate};
use state::State;
use state::front::Front;
use state::reply::Reply;
use tables::Tables;

#[derive(Clone, Copy, PartialEq, Eq)]
pub struct Fed {
    pub state: State,
    pub reply: Reply,
}

// Whether a chunk is refused, and how. The tests, in document 01's order: 4, 1, 2, 3.
fn judged(state: State, sized: bool, bytes: usize) -> Result<(), Reply>
    ensures { result ≡ verdict_of state sized bytes }
{
    let front = state.front;
    let flag = front.flag();
    if !state.is_in_order() {
        return Err(Reply::NotInOrder);
    }
    if front.closed {
        return Err(Reply::Closed(flag));
    }
    if !sized {
        return Err(Reply::WrongLength(flag));
    }
    if lengths::LIMIT - front.bytes < bytes as u64 {
        return Err(Reply::TooLong(flag));
    }
    Ok(())
}

fn accepted(front: Front, places: Slate) -> Fed
    ensures { result ≡ accepted (record { front = front; places = places }) }
{
    Fed {
        state: State { front, places },
        reply: Reply::Accepted(front.flag()),
    }
}

// A chunk, the last one of its stream or not, over the lent tables.
pub fn feed(state: State, chunk: &[u8], last: bool, tables: &Tables) -> Fed
    ensures value { result ≡ feed_of (lists tables.now) state chunk.now last }
    ensures stays_in { StaysIn result.reply result.state }
{
    let sized = tables.are_sized();
    match judged(state, sized, chunk.len()) {
        Err(reply) => Fed { state, reply },
        Ok(()) => {
            let front = state.front;
            let trigger = front::trigger_in(front, chunk);
            let next = front::uncounted(front, trigger, chunk, last);
            let body = next.body;
            match front::due_by(front, trigger) {
                Due::Nothing => {
                    let places = state.places;
                    accepted(next, places)
                }
                Due::Part(from) => {
                    let places = state.places;
                    let part = &chunk[from..];
                    let fed = slate::feed(places, part, last, body, tables);
                    accepted(front::counted(next, part), fed)
                }
                Due::After(count) => {
                    let places = state.places;
                    let context = front.context;
                    let saved = context.bytes();
                    let fed = slate::feed_after(places, &saved[..count], chunk, last, body, tables);
                    accepted(front::counted(next, chunk), fed)
                }
            }
        }
    }
}
