// The demonstration data of document 01, and a feed over it. The four single-byte places have the same tables, so each kind
// of table is here once, with room for one entry more; the three indexes are zero and share one array.
ghost use Rattle.std.specs.Prelude.{◌<◌, ◌≤◌};

use crate::rows;
use crate::rows::{FEED, Rows};
use detector::feed;
use detector::feed::Fed;
use lengths::{BIG5, CLASSES, EUC_KR, EXTRAS, JIS, MARKS, PAIRS, WEIGHTS};
use state::State;
use tables::{Single, Tables};

fn class(b: usize) -> u8 {
    match b {
        0x41..=0x5A => 0x81,
        0x61..=0x7A => 1,
        0xE0..=0xFA => 2,
        0xFF => 255,
        _ => 0,
    }
}

fn at_most(n: u64, most: usize) -> usize
    ensures { result ≤ most }
{
    if n < most as u64 {
        return n as usize;
    }
    most
}

// The length that slice k is lent with; `most` is what there is.
fn length(rows: &Rows, k: u64, exact: u64, most: usize) -> usize
    requires { (0 < exact) × (exact < 100000) }
    ensures { result ≤ most }
{
    if rows::number(rows, FEED, b's', 0) == k {
        return at_most(exact - 1, most);
    }
    if rows::number(rows, FEED, b'g', 0) == k {
        return at_most(exact + 1, most);
    }
    at_most(exact, most)
}

// A single-byte place's tables, each cut to its length, the first of them as slice k.
fn cut<'a>(single: &Single<'a>, rows: &Rows, k: u64) -> Single<'a>
    requires { k < 100 }
{
    Single {
        classes: &single.classes[0..length(rows, k, CLASSES as u64, single.classes.len())],
        marks: &single.marks[0..length(rows, k + 1, MARKS as u64, single.marks.len())],
        pairs: &single.pairs[0..length(rows, k + 2, PAIRS as u64, single.pairs.len())],
    }
}

// Over slices of the three, of one index and of the rest.
fn lend(
    state: State,
    rows: &Rows,
    chunk: &[u8],
    single: &Single,
    index: &[u32],
    extras: &[i16],
    weights: &[i32],
) -> Fed {
    feed::feed(
        state,
        chunk,
        rows::flag(rows, FEED, b'l', 0),
        &Tables {
            caseless: cut(single, rows, 1),
            logical: cut(single, rows, 4),
            visual: cut(single, rows, 7),
            arabic_french: cut(single, rows, 10),
            big5: &index[0..length(rows, 13, BIG5 as u64, index.len())],
            euckr: &index[0..length(rows, 14, EUC_KR as u64, index.len())],
            jis: &index[0..length(rows, 15, JIS as u64, index.len())],
            extras: &extras[0..length(rows, 16, EXTRAS as u64, extras.len())],
            weights: &weights[0..length(rows, 17, WEIGHTS as u64, weights.len())],
        },
    )
}

// Only class 2 is alphabetic; 10 for class 2 after class 2; case, Latin adjacency, Big5 PUA.
fn over(state: State, rows: &Rows, chunk: &[u8]) -> Fed {
    let mut marks = [0u8; MARKS + 1];
    let mut pairs = [0i16; PAIRS + 1];
    let mut weights = [0i32; WEIGHTS + 1];
    marks[2] = 1;
    pairs[258] = 10;
    weights[0] = -3;
    weights[1] = -5;
    weights[7] = -7;
    let classes: [u8; CLASSES + 1] = std::array::from_fn(class);
    let single = Single {
        classes: &classes,
        marks: &marks,
        pairs: &pairs,
    };
    lend(
        state,
        rows,
        chunk,
        &single,
        &[0; EUC_KR + 1],
        &[0; EXTRAS + 1],
        &weights,
    )
}

fn part(state: State, rows: &Rows, bytes: &[u8]) -> Fed {
    let end = at_most(rows::number(rows, FEED, b'b', 4), bytes.len());
    let start = at_most(rows::number(rows, FEED, b'a', 0), end);
    over(state, rows, &bytes[start..end])
}

// Four bytes, a non-ASCII one among them, so that the flag is set where they are fed; then those of the printed case.
pub(crate) fn fed(state: State, rows: &Rows) -> Fed {
    part(state, rows, b"a\xE0A.ab \xE0\xE1.")
}
