// Room for all that is lent, of fixed size: each table at its length.
ghost use Rattle.std.specs.Prelude.{◌≡◌};
ghost use Rattle.tables.specs.Held.{zero_single, zeros, single_held, held};
ghost use Rattle.tables.specs.Lists.{lists, single_lists};

use crate::{Single, Tables};
use lengths::{BIG5, CLASSES, EUC_KR, EXTRAS, JIS, MARKS, PAIRS, WEIGHTS};

#[derive(Drop)]
pub struct HeldSingle {
    pub classes: [u8; CLASSES],
    pub marks: [u8; MARKS],
    pub pairs: [i16; PAIRS],
}

#[derive(Drop)]
pub struct Held {
    pub caseless: HeldSingle,
    pub logical: HeldSingle,
    pub visual: HeldSingle,
    pub arabic_french: HeldSingle,
    pub big5: [u32; BIG5],
    pub euckr: [u32; EUC_KR],
    pub jis: [u32; JIS],
    pub extras: [i16; EXTRAS],
    pub weights: [i32; WEIGHTS],
}

impl HeldSingle {
    #[tactic(auto, unfolding(crate::specs::Held::zero_single))]
    fn zero() -> HeldSingle
        ensures { result ≡ zero_single }
    {
        HeldSingle {
            classes: [0; CLASSES],
            marks: [0; MARKS],
            pairs: [0; PAIRS],
        }
    }
}

impl Held {
    pub fn zero() -> Held
        ensures { result ≡ zeros }
    {
        Held {
            caseless: HeldSingle::zero(),
            logical: HeldSingle::zero(),
            visual: HeldSingle::zero(),
            arabic_french: HeldSingle::zero(),
            big5: [0; BIG5],
            euckr: [0; EUC_KR],
            jis: [0; JIS],
            extras: [0; EXTRAS],
            weights: [0; WEIGHTS],
        }
    }
}

impl<'a> From<&'a HeldSingle> for Single<'a> {
    ghost from_gives = { λ room lent. single_lists lent ≡ single_held room.now };

    fn from(room: &'a HeldSingle) -> Single<'a> {
        Single {
            classes: &room.classes,
            marks: &room.marks,
            pairs: &room.pairs,
        }
    }
}

impl<'a> From<&'a Held> for Tables<'a> {
    ghost from_gives = { λ room lent. lists lent ≡ held room.now };

    fn from(room: &'a Held) -> Tables<'a> {
        Tables {
            caseless: Single::from(&room.caseless),
            logical: Single::from(&room.logical),
            visual: Single::from(&room.visual),
            arabic_french: Single::from(&room.arabic_french),
            big5: &room.big5,
            euckr: &room.euckr,
            jis: &room.jis,
            extras: &room.extras,
            weights: &room.weights,
        }
    }
}
