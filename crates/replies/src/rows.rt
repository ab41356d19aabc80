// A state and how it is fed, as numbers in eleven rows, one for each letter. Rows 0 to 8 are the places: k the machine's kind,
// s the score, or n 1 where there is none, and then r the reason and p the place of the byte; the record's fields and the
// reasons by the letters and numbers of oracle/README.md, a to e and x to z. Row F is the front: a and b the bytes of the
// context and c its length, e the escape flag, y the non-ASCII count, x the bytes accepted, d those of them from the end of
// the head on, z whether it is closed. Row C is the feed: a and b where the chunk begins and ends among the bytes of `lent`,
// l whether it is the last, s which of the seventeen slices is one short and g which is one long, from 1 on.
// A number that is not set is that of a stream of ten bytes, one of them non-ASCII, with every place fresh at score 0, to
// which four bytes are fed, not the last, over slices of the right lengths; but d is 0, which is in order in every stream. A
// place without a score is not in the slate.
use arabic_french::ArabicFrench;
use big5::Big5;
use caseless_script::Caseless;
use context::Context;
use euckr::EucKr;
use iso2022jp::Iso2022Jp;
use kinds::machine::Machine;
use lines::numbered::{CASES, CJS, KOREANS, OUTPUTS, REASONS, STATES};
use logical::Logical;
use places::place::{NoScore, Place, Score};
use shift_jis::ShiftJis;
use state::State;
use state::front::Front;
use utf8::Utf8;
use visual::Visual;

// How many numbers: 32 to a row.
pub(crate) const NUMBERS: usize = 352;

pub(crate) type Rows = [u64; NUMBERS];

// The rows of the front and of the feed.
pub(crate) const FRONT: usize = 9;

pub(crate) const FEED: usize = 10;

// What no case sets a number to.
pub(crate) const UNSET: u64 = 0x5555_5555_5555_5555;

pub(crate) fn set(rows: &mut Rows, row: usize, letter: u8, n: u64) {
    rows[row % 11 * 32 + (letter % 32) as usize] = n;
}

pub(crate) fn number(rows: &Rows, row: usize, letter: u8, usual: u64) -> u64 {
    let n = rows[row % 11 * 32 + (letter % 32) as usize];
    if n == UNSET { usual } else { n }
}

fn byte(rows: &Rows, row: usize, letter: u8, usual: u64) -> u8 {
    (number(rows, row, letter, usual) % 256) as u8
}

pub(crate) fn flag(rows: &Rows, row: usize, letter: u8, usual: u64) -> bool {
    number(rows, row, letter, usual) == 1
}

fn utf8(rows: &Rows, k: usize) -> Machine {
    Machine::Utf8(Utf8 {
        need: byte(rows, k, b'a', 0),
        lo: byte(rows, k, b'b', 0x80),
        hi: byte(rows, k, b'c', 0xBF),
    })
}

fn iso2022jp(rows: &Rows, k: usize) -> Machine {
    Machine::Iso2022Jp(Iso2022Jp {
        state: STATES[number(rows, k, b'a', 0).min(6) as usize],
        out: OUTPUTS[number(rows, k, b'b', 0).min(3) as usize],
        lead: byte(rows, k, b'c', 0),
        output: flag(rows, k, b'd', 0),
    })
}

fn held(rows: &Rows, k: usize) -> Option<i64> {
    flag(rows, k, b'e', 0).then(|| signed::of_bits64(number(rows, k, b'z', 0)))
}

fn euckr(rows: &Rows, k: usize) -> Machine {
    Machine::EucKr(EucKr {
        lead: byte(rows, k, b'a', 0),
        prev_byte: byte(rows, k, b'b', 0),
        prev_was_euc_range: flag(rows, k, b'c', 0),
        prev: KOREANS[number(rows, k, b'd', 3).min(3) as usize],
        current_word_len: number(rows, k, b'x', 0),
        held: held(rows, k),
    })
}

fn big5(rows: &Rows, k: usize) -> Machine {
    Machine::Big5(Big5 {
        lead: byte(rows, k, b'a', 0),
        prev: CJS[number(rows, k, b'd', 2).min(2) as usize],
        prev_byte: byte(rows, k, b'b', 0),
        held: held(rows, k),
    })
}

fn caseless(rows: &Rows, k: usize) -> Machine {
    Machine::Caseless(Caseless {
        prev: byte(rows, k, b'a', 0),
        prev_ascii: flag(rows, k, b'b', 1),
        current_word_len: number(rows, k, b'x', 0),
        longest_word: number(rows, k, b'y', 0),
    })
}

fn logical(rows: &Rows, k: usize) -> Machine {
    Machine::Logical(Logical {
        prev: byte(rows, k, b'a', 0),
        prev_ascii: flag(rows, k, b'b', 1),
        plausible_punctuation: number(rows, k, b'z', 0),
        current_word_len: number(rows, k, b'x', 0),
        longest_word: number(rows, k, b'y', 0),
    })
}

fn visual(rows: &Rows, k: usize) -> Machine {
    Machine::Visual(Visual {
        prev: byte(rows, k, b'a', 0),
        prev_ascii: flag(rows, k, b'b', 1),
        prev_punctuation: flag(rows, k, b'c', 0),
        plausible_punctuation: number(rows, k, b'z', 0),
        current_word_len: number(rows, k, b'x', 0),
        longest_word: number(rows, k, b'y', 0),
    })
}

fn arabic_french(rows: &Rows, k: usize) -> Machine {
    Machine::ArabicFrench(ArabicFrench {
        prev: byte(rows, k, b'a', 0),
        case_state: CASES[number(rows, k, b'c', 0).min(3) as usize],
        prev_ascii: flag(rows, k, b'b', 1),
        current_word_len: number(rows, k, b'x', 0),
        longest_word: number(rows, k, b'y', 0),
    })
}

fn shift_jis(rows: &Rows, k: usize) -> Machine {
    Machine::ShiftJis(ShiftJis {
        lead: byte(rows, k, b'a', 0),
    })
}

fn machine(rows: &Rows, k: usize) -> Machine {
    match number(rows, k, b'k', k as u64) {
        0 => utf8(rows, k),
        1 => iso2022jp(rows, k),
        2 => euckr(rows, k),
        3 => big5(rows, k),
        4 => caseless(rows, k),
        5 => logical(rows, k),
        6 => visual(rows, k),
        7 => arabic_french(rows, k),
        _ => shift_jis(rows, k),
    }
}

fn score(rows: &Rows, k: usize) -> Score {
    if flag(rows, k, b'n', 0) {
        return Err(NoScore {
            reason: REASONS[number(rows, k, b'r', 6).min(6) as usize],
            at: number(rows, k, b'p', 0),
        });
    }
    Ok(signed::of_bits64(number(rows, k, b's', 0)))
}

fn place(rows: &Rows, k: usize) -> Place {
    Place {
        machine: machine(rows, k),
        score: score(rows, k),
    }
}

fn context(rows: &Rows) -> Context {
    Context {
        first: byte(rows, FRONT, b'a', 0),
        second: byte(rows, FRONT, b'b', 0),
        len: number(rows, FRONT, b'c', 0) as usize,
    }
}

fn front(rows: &Rows) -> Front {
    Front {
        context: context(rows),
        esc_seen: flag(rows, FRONT, b'e', 0),
        non_ascii_seen: number(rows, FRONT, b'y', 1),
        closed: flag(rows, FRONT, b'z', 0),
        bytes: number(rows, FRONT, b'x', 10),
        body: number(rows, FRONT, b'd', 0),
    }
}

pub(crate) fn state(rows: &Rows) -> State {
    State {
        front: front(rows),
        places: [
            place(rows, 0),
            place(rows, 1),
            place(rows, 2),
            place(rows, 3),
            place(rows, 4),
            place(rows, 5),
            place(rows, 6),
            place(rows, 7),
            place(rows, 8),
        ],
    }
}
