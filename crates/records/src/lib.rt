// Which records a machine can hold: the fresh one, and those that no bound of so many bytes excludes.
#![tactic(auto)]

ghost use Rattle.kinds.specs.Sound.{sound_b};
ghost use Rattle.records.specs.Fresh.{fresh_b};
ghost use Rattle.std.specs.Prelude.{◌≡◌};

use arabic_french::ArabicFrench;
use big5::Big5;
use caseless_script::Caseless;
use euckr::EucKr;
use iso2022jp::Iso2022Jp;
use kinds::machine::Kind;
use logical::Logical;
use shift_jis::ShiftJis;
use single::machine::SingleByte;
use utf8::Utf8;
use visual::Visual;

pub trait Record: Kind {
    // Whether it is the fresh one of its kind.
    fn is_fresh(self) -> bool
        ensures { result ≡ fresh_b (Self.whole self) };

    // Whether no bound of so many bytes excludes it. `reach` has the closing space besides: it can lengthen a word and, in visual
    // order, count punctuation, and nothing else.
    fn is_sound(self, bytes: u64, reach: u64) -> bool
        ensures { result ≡ sound_b bytes reach (Self.whole self) };
}

impl Record for Utf8 {
    #[tactic(auto, unfolding(crate::specs::Fresh::fresh_b, crate::specs::Fresh::fresh_utf8_b))]
    fn is_fresh(self) -> bool {
        self == Utf8::fresh()
    }

    #[tactic(auto, unfolding(kinds::specs::Sound::sound_b))]
    fn is_sound(self, _bytes: u64, _reach: u64) -> bool {
        self.is_sound()
    }
}

impl Record for Iso2022Jp {
    #[tactic(auto, unfolding(crate::specs::Fresh::fresh_b, crate::specs::Fresh::fresh_iso2022_jp_b))]
    fn is_fresh(self) -> bool {
        self == Iso2022Jp::fresh()
    }

    #[tactic(auto, unfolding(kinds::specs::Sound::sound_b))]
    fn is_sound(self, _bytes: u64, _reach: u64) -> bool {
        self.is_sound()
    }
}

impl Record for EucKr {
    #[tactic(auto, unfolding(crate::specs::Fresh::fresh_b, crate::specs::Fresh::fresh_euc_kr_b))]
    fn is_fresh(self) -> bool {
        self == EucKr::fresh()
    }

    #[tactic(auto, unfolding(kinds::specs::Sound::sound_b))]
    fn is_sound(self, bytes: u64, _reach: u64) -> bool {
        self.is_sound_for(bytes)
    }
}

impl Record for Big5 {
    #[tactic(auto, unfolding(crate::specs::Fresh::fresh_b, crate::specs::Fresh::fresh_big5_b))]
    fn is_fresh(self) -> bool {
        self == Big5::fresh()
    }

    #[tactic(auto, unfolding(kinds::specs::Sound::sound_b))]
    fn is_sound(self, bytes: u64, _reach: u64) -> bool {
        self.is_sound_for(bytes)
    }
}

impl Record for Caseless {
    #[tactic(auto, unfolding(crate::specs::Fresh::fresh_b, crate::specs::Fresh::fresh_caseless_b, crate::specs::Fresh::fresh_common_b))]
    fn is_fresh(self) -> bool {
        self == Caseless::fresh()
    }

    #[tactic(auto, unfolding(kinds::specs::Sound::sound_b))]
    fn is_sound(self, bytes: u64, reach: u64) -> bool {
        self.longest_word <= bytes && self.is_sound_for(reach)
    }
}

impl Record for Logical {
    #[tactic(auto, unfolding(crate::specs::Fresh::fresh_b, crate::specs::Fresh::fresh_logical_b, crate::specs::Fresh::fresh_common_b))]
    fn is_fresh(self) -> bool {
        self == Logical::fresh()
    }

    #[tactic(auto, unfolding(kinds::specs::Sound::sound_b, kinds::specs::Sound::sound_logical_b))]
    fn is_sound(self, bytes: u64, reach: u64) -> bool {
        self.plausible_punctuation <= bytes
            && (self.longest_word <= bytes && self.is_sound_for(reach))
    }
}

impl Record for Visual {
    #[tactic(auto, unfolding(crate::specs::Fresh::fresh_b, crate::specs::Fresh::fresh_visual_b, crate::specs::Fresh::fresh_common_b))]
    fn is_fresh(self) -> bool {
        self == Visual::fresh()
    }

    #[tactic(auto, unfolding(kinds::specs::Sound::sound_b))]
    fn is_sound(self, bytes: u64, reach: u64) -> bool {
        self.longest_word <= bytes && self.is_sound_for(reach)
    }
}

impl Record for ArabicFrench {
    #[tactic(auto, unfolding(crate::specs::Fresh::fresh_b, crate::specs::Fresh::fresh_arabic_french_b, crate::specs::Fresh::fresh_common_b))]
    fn is_fresh(self) -> bool {
        self == ArabicFrench::fresh()
    }

    #[tactic(auto, unfolding(kinds::specs::Sound::sound_b))]
    fn is_sound(self, bytes: u64, reach: u64) -> bool {
        self.longest_word <= bytes && self.is_sound_for(reach)
    }
}

impl Record for ShiftJis {
    #[tactic(auto, unfolding(crate::specs::Fresh::fresh_b, crate::specs::Fresh::fresh_shift_jis_b))]
    fn is_fresh(self) -> bool {
        self == ShiftJis::fresh()
    }

    #[tactic(auto, unfolding(kinds::specs::Sound::sound_b))]
    fn is_sound(self, _bytes: u64, _reach: u64) -> bool {
        self.is_sound()
    }
}
