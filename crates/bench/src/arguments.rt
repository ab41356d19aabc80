ghost use Rattle.std.specs.Prelude.{◌≤◌, length};

use std::rt::Env;

// Arguments that are numbers, in decimal, of at most six digits.
fn decimal(digits: &[u8]) -> usize {
    digits
        .iter()
        .fold(0, |n, digit| n % 100_000 * 10 + usize::from(digit % 16))
}

// How many bytes of an argument stand in the buffer: 0 where there is none, or it is longer.
pub(crate) fn argument(rt: &impl Env, i: usize, buffer: &mut [u8]) -> usize
    ensures { result ≤ length buffer.new }
{
    match rt.arg(i, buffer) {
        Ok(n) => n,
        Err(_) => 0,
    }
}

// 0 where there is none.
pub(crate) fn number(rt: &impl Env, i: usize) -> usize {
    let mut digits = [0u8; 8];
    let n = argument(rt, i, &mut digits);
    decimal(&digits[..n])
}
