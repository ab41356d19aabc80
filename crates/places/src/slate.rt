// All nine places.
ghost use Rattle.std.specs.Prelude.{◌≡◌, ◌<◌};
ghost use Rattle.tables.specs.Lists.{lists};
ghost use Rattle.places.specs.Place.{place};
ghost use Rattle.places.specs.Slate.{taken_of, start_of};
ghost use Rattle.places.specs.Fed.{fed_each, ended_each, slate_fed, AllKnown, EndKnown, SlateKnown};

use crate::place;
use crate::place::{NoScore, Place, Score, Slate};
use arabic_french::ArabicFrench;
use big5::Big5;
use caseless_script::Caseless;
use euckr::EucKr;
use iso2022jp::Iso2022Jp;
use kinds::machine::Kind;
use laws::Reason;
use logical::Logical;
use shift_jis::ShiftJis;
use tables::Tables;
use utf8::Utf8;
use visual::Visual;

// The score of a place that takes part, or does not: its bit is worth `unit`.
fn taken(bits: u16, unit: u16) -> Score
    requires { 0 < unit }
    ensures { result ≡ taken_of bits unit }
{
    if bits / unit % 2 == 1 {
        return Ok(0);
    }
    Err(NoScore {
        reason: Reason::NotInSlate,
        at: 0,
    })
}

fn begun<K: Kind>(bits: u16, unit: u16) -> Place
    requires { 0 < unit }
    ensures { result ≡ place (K.whole K.fresh) (taken_of bits unit) }
{
    Place {
        machine: K::fresh().whole(),
        score: taken(bits, unit),
    }
}

// Fresh machines; bit k of `bits` says whether place k takes part. Bits that no place has say nothing.
pub fn start(bits: u16) -> Slate
    ensures { result ≡ start_of bits }
{
    [
        begun::<Utf8>(bits, 1),
        begun::<Iso2022Jp>(bits, 2),
        begun::<EucKr>(bits, 4),
        begun::<Big5>(bits, 8),
        begun::<Caseless>(bits, 16),
        begun::<Logical>(bits, 32),
        begun::<Visual>(bits, 64),
        begun::<ArabicFrench>(bits, 128),
        begun::<ShiftJis>(bits, 256),
    ]
}

// Each place over its own tables. It and the two that call it become part of their callers: as functions of their own they copy all
// places once more in each call.
#[inline(always)]
fn feed_each(places: Slate, part: &[u8], body: u64, tables: &Tables) -> Slate
    ensures value { result ≡ fed_each (lists tables.now) body part.now places }
    ensures all_known { AllKnown (lists tables.now) part.now places }
{
    [
        place::feed::<Utf8>(places, part, body, tables),
        place::feed::<Iso2022Jp>(places, part, body, tables),
        place::feed::<EucKr>(places, part, body, tables),
        place::feed::<Big5>(places, part, body, tables),
        place::feed::<Caseless>(places, part, body, tables),
        place::feed::<Logical>(places, part, body, tables),
        place::feed::<Visual>(places, part, body, tables),
        place::feed::<ArabicFrench>(places, part, body, tables),
        place::feed::<ShiftJis>(places, part, body, tables),
    ]
}

// The end of the stream.
fn end_each(places: Slate, body: u64, tables: &Tables) -> Slate
    ensures value { result ≡ ended_each (lists tables.now) body places }
    ensures end_known { EndKnown (lists tables.now) places }
{
    [
        place::end::<Utf8>(places, body, tables),
        place::end::<Iso2022Jp>(places, body, tables),
        place::end::<EucKr>(places, body, tables),
        place::end::<Big5>(places, body, tables),
        place::end::<Caseless>(places, body, tables),
        place::end::<Logical>(places, body, tables),
        place::end::<Visual>(places, body, tables),
        place::end::<ArabicFrench>(places, body, tables),
        place::end::<ShiftJis>(places, body, tables),
    ]
}

// A part of a chunk to all places. `body` is how many bytes from the end of the head on have come, those of the part among them.
#[inline(always)]
pub fn feed(places: Slate, part: &[u8], last: bool, body: u64, tables: &Tables) -> Slate
    ensures value { result ≡ slate_fed (lists tables.now) last body part.now places }
    ensures slate_known { SlateKnown (lists tables.now) last body part.now places }
{
    let fed = feed_each(places, part, body, tables);
    if last {
        return end_each(fed, body, tables);
    }
    fed
}

// A few bytes of the head, and then a part of a chunk.
#[inline(always)]
pub fn feed_after(
    places: Slate,
    before: &[u8],
    part: &[u8],
    last: bool,
    body: u64,
    tables: &Tables,
) -> Slate
    ensures value { result ≡ slate_fed (lists tables.now) last body part.now (fed_each (lists tables.now) 0 before.now places) }
    ensures all_known { (AllKnown (lists tables.now) before.now places) × SlateKnown (lists tables.now) last body part.now (fed_each (lists tables.now) 0 before.now places) }
{
    let after = feed_each(places, before, 0, tables);
    feed(after, part, last, body, tables)
}
