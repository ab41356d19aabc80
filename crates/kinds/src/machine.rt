// One machine of the nine, under its kind: what a stretch of bytes and the end of the stream make of it.
ghost use Rattle.std.specs.Prelude.{◌≡◌, ◌*◌, ◌<◌, ℕ, Bool, true, false, length, refl, []};
ghost use Rattle.laws.specs.Answer.{BoundedBy};
ghost use Rattle.weights.specs.Weights.{per_byte};
ghost use Rattle.tables.specs.OwnLists.{own_lists};
ghost use Rattle.kinds.specs.Kinds.{place_number, fresh_of, wrapped, unchanged, ran_of, closed_of, ran_at, decoded_end, Bounded, Weighed};
ghost use Rattle.kinds.specs.Sound.{takes_space};
ghost use Rattle.single.specs.Lists as single;
ghost use Rattle.tables.specs.Lists.{lists, single_lists};
ghost use Rattle.tables.specs.Own.{place_count, lent_to, own, own_of, of_single};
ghost use Rattle.kinds.specs.Kind.{Picked, placed, fresh_utf8, fresh_iso2022jp, fresh_euckr, fresh_big5, fresh_caseless, fresh_logical, fresh_visual, fresh_arabic_french, fresh_shift_jis};
ghost use Rattle.kinds.specs.declared.machine.Machine.{Machine as Whole};
ghost use Rattle.kinds.specs.declared.machine.Machine.TheVariants as machine;
ghost use Rattle.arabic_french.specs.ArabicFrench as arabic_french;
ghost use Rattle.big5.specs.Scoring as big5;
ghost use Rattle.caseless_script.specs.Caseless as caseless;
ghost use Rattle.euckr.specs.Scoring as euckr;
ghost use Rattle.iso2022jp.specs.Iso2022Jp as iso2022jp;
ghost use Rattle.logical.specs.Logical as logical;
ghost use Rattle.shift_jis.specs.ShiftJis as shift_jis;
ghost use Rattle.utf8.specs.Utf8 as utf8;
ghost use Rattle.visual.specs.Visual as visual;

use arabic_french::ArabicFrench;
use big5::Big5;
use caseless_script::Caseless;
use euckr::EucKr;
use iso2022jp::Iso2022Jp;
use laws::{Ran, Stop};
use logical::Logical;
use shift_jis::ShiftJis;
use single::{Lent, machine as single_byte};
use tables::own::Own;
use tables::{Single, Tables};
use utf8::Utf8;
use visual::Visual;

#[derive(Clone, Copy, PartialEq, Eq)]
pub enum Machine {
    Utf8(Utf8),
    Iso2022Jp(Iso2022Jp),
    EucKr(EucKr),
    Big5(Big5),
    Caseless(Caseless),
    Logical(Logical),
    Visual(Visual),
    ArabicFrench(ArabicFrench),
    ShiftJis(ShiftJis),
}

// A kind of machine, and the place that holds machines of it. A run goes to one machine's loop and to nothing else.
pub trait Kind: Copy {
    // The number of the place.
    ghost PLACE: { ℕ };

    // Whether the end of the stream is a space to it.
    ghost TAKES_SPACE: { Bool };

    ghost fresh: { Self };

    // As one of the nine.
    ghost whole: { Self → Whole };

    const PLACE: usize;

    const TAKES_SPACE: bool;

    fn fresh() -> Self
        ensures { result ≡ fresh };

    fn whole(self) -> Machine
        ensures { result ≡ whole self };

    // The place's own of all tables.
    fn own<'a>(tables: &Tables<'a>) -> Own<'a>
        ensures { own_lists result ≡ own_of (lists tables.now) PLACE };

    // The machine, if it is of this kind.
    fn pick(machine: Machine) -> Option<Self>
        ensures { Picked whole PLACE machine result };

    // A stretch of bytes, over the place's own tables.
    fn run_over(self, part: &[u8], own: &Own) -> Ran<Self>
        ensures value { wrapped whole result ≡ ran_of (own_lists own.now) (whole self) part.now }
        ensures bounded { BoundedBy (per_byte * length part.now) result }
        ensures weighed { Weighed (whole self) own.now.weights.now result };

    // The end of the stream.
    fn close_over(self, own: &Own) -> Ran<Self>
        ensures value { wrapped whole result ≡ closed_of (own_lists own.now) (whole self) }
        ensures bounded { BoundedBy per_byte result };

    ghost numbered: { (m : Self) → place_number (whole m) ≡ PLACE };

    ghost placed: { PLACE < place_count };

    ghost spaced: { (m : Self) → takes_space (whole m) ≡ TAKES_SPACE };

    ghost begins: { (m : Self) → fresh_of (whole m) ≡ whole fresh };
}

#[tactic(auto, unfolding(crate::specs::Kinds::ran_of, crate::specs::Kinds::closed_of))]
impl Kind for Utf8 {
    ghost PLACE = { 0 };

    ghost TAKES_SPACE = { false };

    ghost fresh = { utf8.fresh };

    ghost whole = { machine.Utf8 };

    ghost numbered = { λ m. refl };

    ghost placed = { placed 0 refl };

    ghost spaced = { λ m. refl };

    ghost begins = { λ m. fresh_utf8 m };

    const PLACE: usize = 0;

    const TAKES_SPACE: bool = false;

    fn fresh() -> Utf8 {
        Utf8::fresh()
    }

    // The record is made anew from its fields, so that the compiler does not put it together byte by byte.
    fn whole(self) -> Machine {
        Machine::Utf8(Utf8 {
            need: self.need,
            lo: self.lo,
            hi: self.hi,
        })
    }

    fn own<'a>(_tables: &Tables<'a>) -> Own<'a> {
        own_index(&[], &[], &[])
    }

    fn pick(machine: Machine) -> Option<Utf8> {
        match machine {
            Machine::Utf8(m) => Some(m),
            _ => None,
        }
    }

    fn run_over(self, part: &[u8], _own: &Own) -> Ran<Utf8> {
        unscored(self.run(part))
    }

    fn close_over(self, _own: &Own) -> Ran<Utf8> {
        unscored(self.close())
    }
}

#[tactic(auto, unfolding(crate::specs::Kinds::ran_of, crate::specs::Kinds::closed_of))]
impl Kind for Iso2022Jp {
    ghost PLACE = { 1 };

    ghost TAKES_SPACE = { false };

    ghost fresh = { iso2022jp.fresh };

    ghost whole = { machine.Iso2022Jp };

    ghost numbered = { λ m. refl };

    ghost placed = { placed 1 refl };

    ghost spaced = { λ m. refl };

    ghost begins = { λ m. fresh_iso2022jp m };

    const PLACE: usize = 1;

    const TAKES_SPACE: bool = false;

    fn fresh() -> Iso2022Jp {
        Iso2022Jp::fresh()
    }

    fn whole(self) -> Machine {
        Machine::Iso2022Jp(self)
    }

    fn own<'a>(tables: &Tables<'a>) -> Own<'a> {
        own_index(tables.jis, &[], &[])
    }

    fn pick(machine: Machine) -> Option<Iso2022Jp> {
        match machine {
            Machine::Iso2022Jp(m) => Some(m),
            _ => None,
        }
    }

    fn run_over(self, part: &[u8], own: &Own) -> Ran<Iso2022Jp> {
        unscored(self.run(part, own.index))
    }

    fn close_over(self, _own: &Own) -> Ran<Iso2022Jp> {
        unscored(self.close())
    }
}

#[tactic(auto, unfolding(crate::specs::Kinds::ran_of, crate::specs::Kinds::closed_of))]
impl Kind for EucKr {
    ghost PLACE = { 2 };

    ghost TAKES_SPACE = { false };

    ghost fresh = { euckr.fresh };

    ghost whole = { machine.EucKr };

    ghost numbered = { λ m. refl };

    ghost placed = { placed 2 refl };

    ghost spaced = { λ m. refl };

    ghost begins = { λ m. fresh_euckr m };

    const PLACE: usize = 2;

    const TAKES_SPACE: bool = false;

    fn fresh() -> EucKr {
        EucKr::fresh()
    }

    fn whole(self) -> Machine {
        Machine::EucKr(self)
    }

    fn own<'a>(tables: &Tables<'a>) -> Own<'a> {
        own_index(tables.euckr, tables.extras, tables.weights)
    }

    fn pick(machine: Machine) -> Option<EucKr> {
        match machine {
            Machine::EucKr(m) => Some(m),
            _ => None,
        }
    }

    fn run_over(self, part: &[u8], own: &Own) -> Ran<EucKr> {
        self.run(part, own.index, own.extras, own.weights)
    }

    fn close_over(self, _own: &Own) -> Ran<EucKr> {
        self.close()
    }
}

#[tactic(auto, unfolding(crate::specs::Kinds::ran_of, crate::specs::Kinds::closed_of))]
impl Kind for Big5 {
    ghost PLACE = { 3 };

    ghost TAKES_SPACE = { false };

    ghost fresh = { big5.fresh };

    ghost whole = { machine.Big5 };

    ghost numbered = { λ m. refl };

    ghost placed = { placed 3 refl };

    ghost spaced = { λ m. refl };

    ghost begins = { λ m. fresh_big5 m };

    const PLACE: usize = 3;

    const TAKES_SPACE: bool = false;

    fn fresh() -> Big5 {
        Big5::fresh()
    }

    fn whole(self) -> Machine {
        Machine::Big5(self)
    }

    fn own<'a>(tables: &Tables<'a>) -> Own<'a> {
        own_index(tables.big5, &[], tables.weights)
    }

    fn pick(machine: Machine) -> Option<Big5> {
        match machine {
            Machine::Big5(m) => Some(m),
            _ => None,
        }
    }

    fn run_over(self, part: &[u8], own: &Own) -> Ran<Big5> {
        self.run(part, own.index, own.weights)
    }

    fn close_over(self, _own: &Own) -> Ran<Big5> {
        self.close()
    }
}

#[tactic(auto, unfolding(crate::specs::Kinds::ran_of, crate::specs::Kinds::closed_of))]
impl Kind for Caseless {
    ghost PLACE = { 4 };

    ghost TAKES_SPACE = { true };

    ghost fresh = { caseless.fresh };

    ghost whole = { machine.Caseless };

    ghost numbered = { λ m. refl };

    ghost placed = { placed 4 refl };

    ghost spaced = { λ m. refl };

    ghost begins = { λ m. fresh_caseless m };

    const PLACE: usize = 4;

    const TAKES_SPACE: bool = true;

    fn fresh() -> Caseless {
        Caseless::fresh()
    }

    fn whole(self) -> Machine {
        Machine::Caseless(self)
    }

    fn own<'a>(tables: &Tables<'a>) -> Own<'a> {
        own_single(&tables.caseless, tables.weights)
    }

    fn pick(machine: Machine) -> Option<Caseless> {
        match machine {
            Machine::Caseless(m) => Some(m),
            _ => None,
        }
    }

    fn run_over(self, part: &[u8], own: &Own) -> Ran<Caseless> {
        single_byte::run(self, part, &lent(own))
    }

    fn close_over(self, own: &Own) -> Ran<Caseless> {
        single_byte::close(self, &lent(own))
    }
}

#[tactic(auto, unfolding(crate::specs::Kinds::ran_of, crate::specs::Kinds::closed_of))]
impl Kind for Logical {
    ghost PLACE = { 5 };

    ghost TAKES_SPACE = { true };

    ghost fresh = { logical.fresh };

    ghost whole = { machine.Logical };

    ghost numbered = { λ m. refl };

    ghost placed = { placed 5 refl };

    ghost spaced = { λ m. refl };

    ghost begins = { λ m. fresh_logical m };

    const PLACE: usize = 5;

    const TAKES_SPACE: bool = true;

    fn fresh() -> Logical {
        Logical::fresh()
    }

    fn whole(self) -> Machine {
        Machine::Logical(self)
    }

    fn own<'a>(tables: &Tables<'a>) -> Own<'a> {
        own_single(&tables.logical, tables.weights)
    }

    fn pick(machine: Machine) -> Option<Logical> {
        match machine {
            Machine::Logical(m) => Some(m),
            _ => None,
        }
    }

    // A function of its own: within the feed of its place, where more values live through it, the loop takes more instructions a byte.
    #[inline(never)]
    fn run_over(self, part: &[u8], own: &Own) -> Ran<Logical> {
        single_byte::run(self, part, &lent(own))
    }

    fn close_over(self, own: &Own) -> Ran<Logical> {
        single_byte::close(self, &lent(own))
    }
}

#[tactic(auto, unfolding(crate::specs::Kinds::ran_of, crate::specs::Kinds::closed_of))]
impl Kind for Visual {
    ghost PLACE = { 6 };

    ghost TAKES_SPACE = { true };

    ghost fresh = { visual.fresh };

    ghost whole = { machine.Visual };

    ghost numbered = { λ m. refl };

    ghost placed = { placed 6 refl };

    ghost spaced = { λ m. refl };

    ghost begins = { λ m. fresh_visual m };

    const PLACE: usize = 6;

    const TAKES_SPACE: bool = true;

    fn fresh() -> Visual {
        Visual::fresh()
    }

    fn whole(self) -> Machine {
        Machine::Visual(self)
    }

    fn own<'a>(tables: &Tables<'a>) -> Own<'a> {
        own_single(&tables.visual, tables.weights)
    }

    fn pick(machine: Machine) -> Option<Visual> {
        match machine {
            Machine::Visual(m) => Some(m),
            _ => None,
        }
    }

    fn run_over(self, part: &[u8], own: &Own) -> Ran<Visual> {
        single_byte::run(self, part, &lent(own))
    }

    fn close_over(self, own: &Own) -> Ran<Visual> {
        single_byte::close(self, &lent(own))
    }
}

#[tactic(auto, unfolding(crate::specs::Kinds::ran_of, crate::specs::Kinds::closed_of))]
impl Kind for ArabicFrench {
    ghost PLACE = { 7 };

    ghost TAKES_SPACE = { true };

    ghost fresh = { arabic_french.fresh };

    ghost whole = { machine.ArabicFrench };

    ghost numbered = { λ m. refl };

    ghost placed = { placed 7 refl };

    ghost spaced = { λ m. refl };

    ghost begins = { λ m. fresh_arabic_french m };

    const PLACE: usize = 7;

    const TAKES_SPACE: bool = true;

    fn fresh() -> ArabicFrench {
        ArabicFrench::fresh()
    }

    fn whole(self) -> Machine {
        Machine::ArabicFrench(self)
    }

    fn own<'a>(tables: &Tables<'a>) -> Own<'a> {
        own_single(&tables.arabic_french, tables.weights)
    }

    fn pick(machine: Machine) -> Option<ArabicFrench> {
        match machine {
            Machine::ArabicFrench(m) => Some(m),
            _ => None,
        }
    }

    // A function of its own: within the feed of its place, where more values live through it, the loop takes more instructions a byte.
    #[inline(never)]
    fn run_over(self, part: &[u8], own: &Own) -> Ran<ArabicFrench> {
        single_byte::run(self, part, &lent(own))
    }

    fn close_over(self, own: &Own) -> Ran<ArabicFrench> {
        single_byte::close(self, &lent(own))
    }
}

#[tactic(auto, unfolding(crate::specs::Kinds::ran_of, crate::specs::Kinds::closed_of))]
impl Kind for ShiftJis {
    ghost PLACE = { 8 };

    ghost TAKES_SPACE = { false };

    ghost fresh = { shift_jis.fresh };

    ghost whole = { machine.ShiftJis };

    ghost numbered = { λ m. refl };

    ghost placed = { placed 8 refl };

    ghost spaced = { λ m. refl };

    ghost begins = { λ m. fresh_shift_jis m };

    const PLACE: usize = 8;

    const TAKES_SPACE: bool = false;

    fn fresh() -> ShiftJis {
        ShiftJis::fresh()
    }

    fn whole(self) -> Machine {
        Machine::ShiftJis(self)
    }

    fn own<'a>(tables: &Tables<'a>) -> Own<'a> {
        own_index(tables.jis, &[], &[])
    }

    fn pick(machine: Machine) -> Option<ShiftJis> {
        match machine {
            Machine::ShiftJis(m) => Some(m),
            _ => None,
        }
    }

    fn run_over(self, part: &[u8], own: &Own) -> Ran<ShiftJis> {
        unscored(self.run(part, own.index))
    }

    fn close_over(self, _own: &Own) -> Ran<ShiftJis> {
        unscored(self.close())
    }
}

// A decoder's own tables.
fn own_index<'a>(index: &'a [u32], extras: &'a [i16], weights: &'a [i32]) -> Own<'a>
    ensures { own_lists result ≡ own [] [] [] index.now extras.now weights.now }
{
    Own {
        classes: &[],
        marks: &[],
        pairs: &[],
        index,
        extras,
        weights,
    }
}

// A single-byte place's own tables.
fn own_single<'a>(single: &Single<'a>, weights: &'a [i32]) -> Own<'a>
    ensures { own_lists result ≡ of_single (single_lists single.now) weights.now }
{
    Own {
        classes: single.classes,
        marks: single.marks,
        pairs: single.pairs,
        index: &[],
        extras: &[],
        weights,
    }
}

// What a single-byte machine is lent of its place's own tables.
fn lent<'a>(own: &Own<'a>) -> Lent<'a>
    ensures { single.lists result ≡ lent_to (own_lists own.now) }
{
    Lent {
        classes: own.classes,
        marks: own.marks,
        pairs: own.pairs,
        weights: own.weights,
    }
}

// The answer of a machine whose score never changes.
fn unscored<M: Copy>(reached: Result<M, Stop>) -> Ran<M>
    ensures { result ≡ unchanged reached }
{
    match reached {
        Ok(m) => Ok((m, 0)),
        Err(stop) => Err(stop),
    }
}

// A kind's own answer, as one of the nine.
fn as_whole<K: Kind>(ran: Ran<K>) -> Ran<Machine>
    ensures { result ≡ wrapped K.whole ran }
{
    match ran {
        Ok((m, gain)) => Ok((m.whole(), gain)),
        Err(stop) => Err(stop),
    }
}

// A machine of the kind alone; one of another kind is not fit.
pub fn run<K: Kind>(machine: Machine, part: &[u8], own: &Own) -> Ran<Machine>
    ensures value { result ≡ ran_at K.PLACE (own_lists own.now) machine part.now }
    ensures bounded { Bounded (per_byte * length part.now) result }
    ensures weighed { Weighed machine own.now.weights.now result }
{
    let Some(m) = K::pick(machine) else {
        return Err(Stop::Unfit);
    };
    as_whole(m.run_over(part, own))
}

#[tactic(auto, unfolding(crate::specs::Kinds::fresh_of, crate::specs::Kinds::ran_of, crate::specs::Kinds::closed_of))]
impl Machine {
    // The number of the place that holds machines of this kind. Here and below each case calls what is its own: a table of functions
    // would have to give them one signature.
    pub fn place_number(self) -> usize
        ensures { result ≡ place_number self }
    {
        match self {
            Machine::Utf8(_) => Utf8::PLACE,
            Machine::Iso2022Jp(_) => Iso2022Jp::PLACE,
            Machine::EucKr(_) => EucKr::PLACE,
            Machine::Big5(_) => Big5::PLACE,
            Machine::Caseless(_) => Caseless::PLACE,
            Machine::Logical(_) => Logical::PLACE,
            Machine::Visual(_) => Visual::PLACE,
            Machine::ArabicFrench(_) => ArabicFrench::PLACE,
            Machine::ShiftJis(_) => ShiftJis::PLACE,
        }
    }

    // The fresh machine of the same kind.
    pub fn fresh(self) -> Machine
        ensures { result ≡ fresh_of self }
    {
        match self {
            Machine::Utf8(_) => Utf8::fresh().whole(),
            Machine::Iso2022Jp(_) => Iso2022Jp::fresh().whole(),
            Machine::EucKr(_) => EucKr::fresh().whole(),
            Machine::Big5(_) => Big5::fresh().whole(),
            Machine::Caseless(_) => Caseless::fresh().whole(),
            Machine::Logical(_) => Logical::fresh().whole(),
            Machine::Visual(_) => Visual::fresh().whole(),
            Machine::ArabicFrench(_) => ArabicFrench::fresh().whole(),
            Machine::ShiftJis(_) => ShiftJis::fresh().whole(),
        }
    }

    // A stretch of bytes, of a machine of whichever kind.
    pub fn run(self, part: &[u8], own: &Own) -> Ran<Machine>
        ensures value { result ≡ ran_of (own_lists own.now) self part.now }
        ensures bounded { Bounded (per_byte * length part.now) result }
    {
        match self {
            Machine::Utf8(m) => as_whole(m.run_over(part, own)),
            Machine::Iso2022Jp(m) => as_whole(m.run_over(part, own)),
            Machine::EucKr(m) => as_whole(m.run_over(part, own)),
            Machine::Big5(m) => as_whole(m.run_over(part, own)),
            Machine::Caseless(m) => as_whole(m.run_over(part, own)),
            Machine::Logical(m) => as_whole(m.run_over(part, own)),
            Machine::Visual(m) => as_whole(m.run_over(part, own)),
            Machine::ArabicFrench(m) => as_whole(m.run_over(part, own)),
            Machine::ShiftJis(m) => as_whole(m.run_over(part, own)),
        }
    }

    // The end of the stream.
    pub fn close(self, own: &Own) -> Ran<Machine>
        ensures value { result ≡ closed_of (own_lists own.now) self }
        ensures bounded { Bounded per_byte result }
    {
        match self {
            Machine::Utf8(m) => as_whole(m.close_over(own)),
            Machine::Iso2022Jp(m) => as_whole(m.close_over(own)),
            Machine::EucKr(m) => as_whole(m.close_over(own)),
            Machine::Big5(m) => as_whole(m.close_over(own)),
            Machine::Caseless(m) => as_whole(m.close_over(own)),
            Machine::Logical(m) => as_whole(m.close_over(own)),
            Machine::Visual(m) => as_whole(m.close_over(own)),
            Machine::ArabicFrench(m) => as_whole(m.close_over(own)),
            Machine::ShiftJis(m) => as_whole(m.close_over(own)),
        }
    }

    // The end of the stream of a decoder's machine; to the others it is a space, and this is no answer.
    pub fn close_decoder(self) -> Ran<Machine>
        ensures { result ≡ decoded_end self }
    {
        match self {
            Machine::Utf8(m) => as_whole(unscored(m.close())),
            Machine::Iso2022Jp(m) => as_whole(unscored(m.close())),
            Machine::EucKr(m) => as_whole(m.close()),
            Machine::Big5(m) => as_whole(m.close()),
            Machine::ShiftJis(m) => as_whole(unscored(m.close())),
            Machine::Caseless(_)
            | Machine::Logical(_)
            | Machine::Visual(_)
            | Machine::ArabicFrench(_) => Err(Stop::Unfit),
        }
    }
}
