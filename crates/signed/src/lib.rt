// Signed numbers and their bits in two's complement, and their sizes.
#![tactic(auto)]

ghost use Rattle.std.specs.Prelude.{◌≡◌, unsigned_abs};
ghost use Rattle.std.specs.Int.{w16, w32, w64};
ghost use Rattle.std.proofs.Common.{to_z, of_z};
ghost use Rattle.signed.specs.Sum.{sum_of};

// How far a number is from zero.
pub fn size(z: i64) -> u64
    ensures { result ≡ unsigned_abs z }
{
    z.unsigned_abs()
}

pub fn bits(z: i64) -> u64
    ensures { result ≡ of_z w64 z }
{
    z.cast_unsigned()
}

// The next three are one line each, and std has no trait of these methods: a trait here to make them one would be longer.
pub fn of_bits16(n: u16) -> i16
    ensures { result ≡ to_z w16 n }
{
    u16::cast_signed(n)
}

pub fn of_bits32(n: u32) -> i32
    ensures { result ≡ to_z w32 n }
{
    u32::cast_signed(n)
}

pub fn of_bits64(n: u64) -> i64
    ensures { result ≡ to_z w64 n }
{
    u64::cast_signed(n)
}

// The sum in 64 bits of two's complement: where it fits, the sum.
#[tactic(auto, unfolding(crate::specs::Sum::sum_of))]
pub fn sum(a: i64, b: i64) -> i64
    ensures { result ≡ sum_of a b }
{
    a.wrapping_add(b)
}
