// Which places a state in order can hold.
ghost use Rattle.std.specs.Prelude.{◌≡◌, ◌+◌, ◌*◌, ◌≤◌, ◌==◌, ◌&&◌, cond, nat_le, unsigned_abs};
ghost use Rattle.laws.specs.Limit.{limit};
ghost use Rattle.weights.specs.Weights.{per_byte};
ghost use Rattle.kinds.specs.Kinds.{is_single};
ghost use Rattle.places.specs.Order.{spaced_of, dropped_b, place_b, slate_b};
ghost use Rattle.places.specs.Steps.{asked_if, asked_of};

use crate::place;
use crate::place::{Place, Score, Slate};
use arabic_french::ArabicFrench;
use big5::Big5;
use caseless_script::Caseless;
use euckr::EucKr;
use iso2022jp::Iso2022Jp;
use kinds::machine::Kind;
use laws::Reason;
use logical::Logical;
use records::Record;
use shift_jis::ShiftJis;
use utf8::Utf8;
use visual::Visual;

// What one byte adds to a score at most.
const PER_BYTE: u64 = 10_737_418_240;

// Whether a byte's place is within so many bytes, or where the stream is closed at its closing space.
fn is_within(at: u64, body: u64, closed: bool) -> bool
    ensures { result ≡ nat_le at (spaced_of body closed) }
{
    if closed {
        return place::less(at, 1) <= body;
    }
    at <= body
}

// Whether place k is a single-byte machine's.
fn is_single(k: usize) -> bool
    ensures { result ≡ is_single k }
{
    (4 <= k) & (k <= 7)
}

// Whether place k can have dropped out so, of a stream that has `body` bytes from the end of the head on.
fn is_dropped(reason: Reason, at: u64, k: usize, body: u64, closed: bool, fed: bool) -> bool
    ensures { result ≡ dropped_b body closed fed k reason at }
{
    match reason {
        Reason::Class255 => fed & (is_single(k) & is_within(at, body, closed)),
        Reason::BadByte => fed & (!is_single(k) & (at <= body)),
        Reason::BadSecondByte => fed & (((k == 2) | (k == 3)) & (at <= body)),
        Reason::BrokenEscape => fed & ((k == 1) & (at <= body)),
        Reason::CutAtClose => fed & (!is_single(k) & (closed & (at == body))),
        Reason::NotInSlate => at == 0,
    }
}

// Whether so many bytes can make a score of this size.
fn is_small(n: i64, bytes: u64) -> bool
    requires { bytes ≤ limit + 1 }
    ensures { result ≡ nat_le (unsigned_abs n) (per_byte * bytes) }
{
    signed::size(n) <= PER_BYTE * bytes
}

// Whether it is 0.
fn is_zero(n: i64) -> bool
    ensures { result ≡ (unsigned_abs n == 0) }
{
    signed::size(n) == 0
}

// What is asked of the record of a place by its score: that no bound excludes it, that it is fresh (which no bound excludes), or
// nothing, since no place can have the score.
#[derive(Clone, Copy, PartialEq, Eq)]
pub(crate) enum Asked {
    Sound,
    Fresh,
    Never,
}

fn asked_if(possible: bool, asked: Asked) -> Asked
    ensures { result ≡ asked_if possible asked }
{
    if possible {
        return asked;
    }
    Asked::Never
}

// What the score of place k asks, of a machine that has seen `reach` bytes at most, fed already or not.
fn ask(score: Score, k: usize, reach: u64, body: u64, closed: bool, fed: bool) -> Asked
    requires { reach ≤ limit + 1 }
    ensures { result ≡ asked_of reach body closed fed k score }
{
    match score {
        Err(why) => asked_if(
            is_dropped(why.reason, why.at, k, body, closed, fed),
            Asked::Fresh,
        ),
        Ok(n) => {
            if fed {
                return asked_if(is_small(n, reach), Asked::Sound);
            }
            asked_if(is_zero(n), Asked::Fresh)
        }
    }
}

// How many bytes a machine of the kind has seen at most: the closing space among them where it takes it.
fn reach<K: Kind>(bytes: u64, closed: bool) -> u64
    requires { bytes ≤ limit }
    ensures { result ≡ cond (closed && K.TAKES_SPACE) (bytes + 1) bytes }
{
    if closed & K::TAKES_SPACE {
        return bytes + 1;
    }
    bytes
}

// Whether a place can stand where its kind does, after so many bytes, fed already or not.
fn is_in_order<K: Record>(place: Place, bytes: u64, body: u64, closed: bool, fed: bool) -> bool
    requires { bytes ≤ limit }
    ensures { result ≡ place_b bytes body closed fed K.PLACE place }
{
    let machine = place.machine;
    let score = place.score;
    let Some(m) = K::pick(machine) else {
        return false;
    };
    let reach = reach::<K>(bytes, closed);
    match ask(score, K::PLACE, reach, body, closed, fed) {
        Asked::Sound => m.is_sound(bytes, reach),
        Asked::Fresh => m.is_fresh(),
        Asked::Never => false,
    }
}

// Whether all places can stand so: after so many bytes, of which `body` came from the end of the head on. Each is asked by itself,
// from the last to the first, and not in a loop: for a loop the compiler would copy the places (DECISIONS, 73).
pub fn are_in_order(places: Slate, bytes: u64, body: u64, closed: bool, fed: bool) -> bool
    ensures { result ≡ slate_b bytes body closed fed places }
{
    if lengths::LIMIT < bytes {
        return false;
    }
    if !is_in_order::<ShiftJis>(places[8], bytes, body, closed, fed) {
        return false;
    }
    if !is_in_order::<ArabicFrench>(places[7], bytes, body, closed, fed) {
        return false;
    }
    if !is_in_order::<Visual>(places[6], bytes, body, closed, fed) {
        return false;
    }
    if !is_in_order::<Logical>(places[5], bytes, body, closed, fed) {
        return false;
    }
    if !is_in_order::<Caseless>(places[4], bytes, body, closed, fed) {
        return false;
    }
    if !is_in_order::<Big5>(places[3], bytes, body, closed, fed) {
        return false;
    }
    if !is_in_order::<EucKr>(places[2], bytes, body, closed, fed) {
        return false;
    }
    if !is_in_order::<Iso2022Jp>(places[1], bytes, body, closed, fed) {
        return false;
    }
    if !is_in_order::<Utf8>(places[0], bytes, body, closed, fed) {
        return false;
    }
    true
}
