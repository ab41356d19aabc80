// One place, and what a part of a chunk and the end of the stream make of it.
//
// The feed is for one kind, so that a call goes to one machine's loop and to nothing else. It takes all places and reads its own,
// so that the compiler leaves them where they are (DECISIONS, 73). A place that can't be fed, since it has no score, or a
// machine of another kind or one that is not fit, is left fresh and without a score; in a state in order only a place without a
// score can't, and it is fresh already and keeps its reason.
//
// `body` is how many bytes from the end of the head on have come, those of the part among them.
ghost use Rattle.std.specs.Prelude.{◌≡◌, ◌-◌};
ghost use Rattle.tables.specs.Lists.{lists};
ghost use Rattle.tables.specs.Own.{own_of};
ghost use Rattle.places.specs.Place.{place};
ghost use Rattle.places.specs.Slate.{place_at};
ghost use Rattle.places.specs.Fed.{settled_of, fed_as, decoder_ended, ended_as, KnownFed, KnownEnd};

use kinds::machine;
use kinds::machine::{Kind, Machine};
use laws::{Ran, Reason, Stop};
use tables::Tables;

// Why a place has no score, and the place of the byte at which it happened: counted from 1 at the first byte after the head, 0 for
// a byte of the head and for a place that takes no part.
#[derive(Clone, Copy, PartialEq, Eq)]
pub struct NoScore {
    pub reason: Reason,
    pub at: u64,
}

pub type Score = Result<i64, NoScore>;

#[derive(Clone, Copy, PartialEq, Eq)]
pub struct Place {
    pub machine: Machine,
    pub score: Score,
}

pub const PLACES: usize = 9;

// All places, by their numbers: UTF-8, ISO-2022-JP, EUC-KR, Big5, caseless, logical, visual, Arabic-French, Shift_JIS.
pub type Slate = [Place; PLACES];

// The difference, or 0.
pub(crate) fn less(a: u64, b: u64) -> u64
    ensures { result ≡ a - b }
{
    a.saturating_sub(b)
}

// The score becomes the sum, or none with the fresh machine. The byte at which a part of so many bytes drops out, whose
// offset is from 0, is counted back from the part's end: the body less the bytes that stand behind it.
fn settled(fresh: Machine, before: i64, ran: Ran<Machine>, body: u64, bytes: usize) -> Place
    ensures { result ≡ settled_of fresh before body bytes ran }
{
    match ran {
        Ok(found) => Place {
            machine: found.0,
            score: Ok(signed::sum(before, found.1)),
        },
        Err(stop) => match stop {
            Stop::Dropped(reason, at) => Place {
                machine: fresh,
                score: Err(NoScore {
                    reason,
                    at: less(body, less(less(bytes as u64, at as u64), 1)),
                }),
            },
            Stop::Unfit => Place {
                machine: fresh,
                score: Err(NoScore {
                    reason: Reason::NotInSlate,
                    at: 0,
                }),
            },
        },
    }
}

// Without a score: the fresh machine, and the score as it was. It is made anew, so that the compiler copies no byte between the
// fields.
fn passed(fresh: Machine, score: Score) -> Place
    ensures { result ≡ place fresh score }
{
    match score {
        Ok(n) => Place {
            machine: fresh,
            score: Ok(n),
        },
        Err(why) => Place {
            machine: fresh,
            score: Err(NoScore {
                reason: why.reason,
                at: why.at,
            }),
        },
    }
}

// A part of a chunk to the place of a kind. It is compiled as a function of its own: with all machines' loops in one function, each
// takes a tenth more instructions a byte.
#[inline(never)]
pub(crate) fn feed<K: Kind>(places: Slate, part: &[u8], body: u64, tables: &Tables) -> Place
    ensures value { result ≡ fed_as K.PLACE (own_of (lists tables.now) K.PLACE) body part.now (place_at K.PLACE places) }
    ensures known_fed { KnownFed K.PLACE (own_of (lists tables.now) K.PLACE) part.now (place_at K.PLACE places) }
{
    let place = places[K::PLACE];
    let machine = place.machine;
    let score = place.score;
    let fresh = K::fresh().whole();
    let Ok(before) = score else {
        return passed(fresh, score);
    };
    let own = K::own(tables);
    let ran = machine::run::<K>(machine, part, &own);
    settled(fresh, before, ran, body, part.len())
}

// The end of the stream to a decoder's place.
fn end_decoder(place: Place, body: u64) -> Place
    ensures { result ≡ decoder_ended body place }
{
    let machine = place.machine;
    let score = place.score;
    let fresh = machine.fresh();
    let Ok(before) = score else {
        return passed(fresh, score);
    };
    settled(fresh, before, machine.close_decoder(), body, 0)
}

// The end of the stream to the place of a kind: to the single-byte machines it is a space, one byte past the others.
pub(crate) fn end<K: Kind>(places: Slate, body: u64, tables: &Tables) -> Place
    ensures value { result ≡ ended_as K.PLACE (own_of (lists tables.now) K.PLACE) body (place_at K.PLACE places) }
    ensures known_end { KnownEnd K.PLACE (own_of (lists tables.now) K.PLACE) (place_at K.PLACE places) }
{
    if K::TAKES_SPACE {
        let past = std::num::wrapping_add_u64(body, 1);
        return feed::<K>(places, b" ", past, tables);
    }
    end_decoder(places[K::PLACE], body)
}
