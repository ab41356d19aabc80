// Lent data, read from a file that has it as docs/REPLAY.md lays it out.
use lengths::{BIG5, EUC_KR, EXTRAS, JIS, PAIRS, WEIGHTS};
use reader::fill;
use reader::number::Number;
use tables::held::{Held, HeldSingle};

// The tables of one single-byte place.
fn place(from: i32, to: &mut HeldSingle) {
    io::read_full(from, &mut to.classes);
    io::read_full(from, &mut to.marks);
    entries(from, &mut [0; 2 * PAIRS], &mut to.pairs);
}

// A table, by way of its bytes.
fn entries<T: Number>(from: i32, bytes: &mut [u8], to: &mut [T]) {
    io::read_full(from, bytes);
    fill::entries(bytes, to);
}

// The tables, one after the other. Answers whether the last was there, and so all before it.
pub(crate) fn read(from: i32, to: &mut Held) -> bool {
    place(from, &mut to.caseless);
    place(from, &mut to.logical);
    place(from, &mut to.visual);
    place(from, &mut to.arabic_french);
    entries(from, &mut [0; 4 * BIG5], &mut to.big5);
    entries(from, &mut [0; 4 * EUC_KR], &mut to.euckr);
    entries(from, &mut [0; 4 * JIS], &mut to.jis);
    entries(from, &mut [0; 2 * EXTRAS], &mut to.extras);
    let mut bytes = [0u8; 4 * WEIGHTS];
    let got = io::read_full(from, &mut bytes);
    fill::entries(&bytes, &mut to.weights);
    got == 4 * WEIGHTS
}
