// Document 01's demonstration data: the tables over which a sheet is printed.
#![tactic(auto)]

ghost use Rattle.std.specs.Prelude.{◌≡◌};
ghost use Rattle.demo.specs.Demo.{class_of, classes, marks, pairs, unmapped, extras, weights};

use lengths::{BIG5, CLASSES, EUC_KR, EXTRAS, JIS, MARKS, PAIRS, WEIGHTS};

// A table of each sort.
pub type Classes = [u8; CLASSES];

pub type Marks = [u8; MARKS];

pub type Pairs = [i16; PAIRS];

pub type Big5 = [u32; BIG5];

pub type EucKr = [u32; EUC_KR];

pub type Jis = [u32; JIS];

pub type Extras = [i16; EXTRAS];

pub type Weights = [i32; WEIGHTS];

// The one class that is alphabetic, and the index of its pair score after itself.
const LETTER: usize = 2;

const LETTERS: usize = MARKS * LETTER + LETTER;

fn class(b: u8) -> u8
    ensures { result ≡ class_of b }
{
    match b {
        b'A'..=b'Z' => 0x81,
        b'a'..=b'z' => 1,
        0xE0..=0xFA => 2,
        0xFF => 255,
        _ => 0,
    }
}

// The classes, marks and pair scores of each of the four single-byte places.
pub fn classes() -> Classes
    ensures { result ≡ classes }
{
    std::array::from_fn(|b| class(b as u8))
}

pub fn marks() -> Marks
    ensures { result ≡ marks }
{
    let mut to = [0u8; MARKS];
    to[LETTER] = 1;
    to
}

pub fn pairs() -> Pairs
    ensures { result ≡ pairs }
{
    let mut to = [0i16; PAIRS];
    to[LETTERS] = 10;
    to
}

// An index, in which nothing is mapped.
pub fn unmapped<const N: usize>() -> [u32; N]
    ensures { result ≡ unmapped N }
{
    [0; N]
}

pub fn extras() -> Extras
    ensures { result ≡ extras }
{
    [0; EXTRAS]
}

pub fn weights() -> Weights
    ensures { result ≡ weights }
{
    let mut to = [0i32; WEIGHTS];
    to[weights::CASE] = -3;
    to[weights::LATIN_ADJACENCY] = -5;
    to[weights::BIG5_PUA] = -7;
    to
}
