// The 17 lent weights, by their indexes in document 01's order, and how one is read. Numbers and no enum: `weight` promises its
// answer at any index of any list, past the 17 too (its clause `value`), and `demo` writes its lists by the same names.
#![tactic(auto)]

ghost use Rattle.std.specs.Prelude.{◌≡◌, ◌≤◌, pos, nat_abs, get_or};
ghost use Rattle.weights.specs.Weights.{term};

pub const CASE: usize = 0;

pub const LATIN_ADJACENCY: usize = 1;

pub const CJK_LATIN_ADJACENCY: usize = 2;

pub const CJ_PUNCTUATION: usize = 3;

pub const CJK_OTHER: usize = 4;

pub const BIG5_LEVEL_1: usize = 5;

pub const BIG5_OTHER: usize = 6;

pub const BIG5_PUA: usize = 7;

pub const BIG5_EXTENSION: usize = 8;

pub const EUC_HANGUL: usize = 9;

pub const NON_EUC_HANGUL: usize = 10;

pub const HANJA: usize = 11;

pub const HANJA_AFTER_HANGUL: usize = 12;

pub const EUC_KR_PUA: usize = 13;

pub const MAC_KOREAN: usize = 14;

pub const EUC_KR_EXTENSION: usize = 15;

pub const LONG_WORD: usize = 16;

// A lent weight, or 0 where there is none.
pub fn weight(weights: &[i32], k: usize) -> i64
    ensures value { result ≡ get_or weights.now k (pos 0) }
    ensures result_bound { nat_abs result ≤ term }
{
    weights.get(k).copied().unwrap_or(0) as i64
}
