// The seventeen lent tables: their lengths, in document 01's order.
#![tactic(auto)]

ghost use Rattle.std.specs.Prelude.{◌≡◌};
ghost use Rattle.tables.specs.Lists.{lists, single_lists};
ghost use Rattle.tables.specs.Tables.{single_lengths, rest_lengths, single_rules, rest_rules, exact_b, sized_b};

pub mod held;
pub mod own;

// What a single-byte place is lent, the weights apart.
#[derive(Clone, Copy)]
pub struct Single<'a> {
    pub classes: &'a [u8],
    pub marks: &'a [u8],
    pub pairs: &'a [i16],
}

// All that is lent.
#[derive(Clone, Copy)]
pub struct Tables<'a> {
    pub caseless: Single<'a>,
    pub logical: Single<'a>,
    pub visual: Single<'a>,
    pub arabic_french: Single<'a>,
    pub big5: &'a [u32],
    pub euckr: &'a [u32],
    pub jis: &'a [u32],
    pub extras: &'a [i16],
    pub weights: &'a [i32],
}

impl Single<'_> {
    #[tactic(auto, unfolding(crate::specs::Tables::exact_b))]
    fn is_sized(&self) -> bool
        ensures { result ≡ exact_b (single_lengths (single_lists self.now)) single_rules }
    {
        self.classes.len() == lengths::CLASSES
            && (self.marks.len() == lengths::MARKS && self.pairs.len() == lengths::PAIRS)
    }
}

impl Tables<'_> {
    #[tactic(auto, unfolding(crate::specs::Tables::exact_b))]
    fn is_rest_sized(&self) -> bool
        ensures { result ≡ exact_b (rest_lengths self.now.big5.now self.now.euckr.now self.now.jis.now self.now.extras.now self.now.weights.now) rest_rules }
    {
        self.big5.len() == lengths::BIG5
            && (self.euckr.len() == lengths::EUC_KR
                && (self.jis.len() == lengths::JIS
                    && (self.extras.len() == lengths::EXTRAS
                        && self.weights.len() == lengths::WEIGHTS)))
    }

    // Whether every lent length is exact.
    pub fn are_sized(&self) -> bool
        ensures { result ≡ sized_b (lists self.now) }
    {
        self.caseless.is_sized()
            && (self.logical.is_sized()
                && (self.visual.is_sized()
                    && (self.arabic_french.is_sized() && self.is_rest_sized())))
    }
}
