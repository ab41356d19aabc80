// A place's record of 40 bytes, as oracle/README.md lays it out: read from a case, and added to a digest.
use arabic_french::ArabicFrench;
use big5::Big5;
use caseless_script::Caseless;
use digest::Digest;
use euckr::EucKr;
use iso2022jp::Iso2022Jp;
use kinds::machine::Machine;
use lines::numbered::{CASES, CJS, KOREANS, OUTPUTS, REASONS, STATES};
use logical::Logical;
use places::place::{NoScore, Place, Score};
use reader::number;
use shift_jis::ShiftJis;
use utf8::Utf8;
use visual::Visual;

// ---- from a case
fn held_of(e: u8, z: u64) -> Option<i64> {
    (e == 1).then(|| signed::of_bits64(z))
}

fn decoder_of(f: &[u8; 41], x: u64, z: u64) -> Machine {
    match f[0] {
        0 => Machine::Utf8(Utf8 {
            need: f[2],
            lo: f[3],
            hi: f[4],
        }),
        1 => Machine::Iso2022Jp(Iso2022Jp {
            state: STATES[usize::from(f[2]).min(6)],
            out: OUTPUTS[usize::from(f[3]).min(3)],
            lead: f[4],
            output: f[5] == 1,
        }),
        2 => Machine::EucKr(EucKr {
            lead: f[2],
            prev_byte: f[3],
            prev_was_euc_range: f[4] == 1,
            prev: KOREANS[usize::from(f[5]).min(3)],
            current_word_len: x,
            held: held_of(f[6], z),
        }),
        _ => Machine::Big5(Big5 {
            lead: f[2],
            prev: CJS[usize::from(f[5]).min(2)],
            prev_byte: f[3],
            held: held_of(f[6], z),
        }),
    }
}

fn single_of(f: &[u8; 41], x: u64, y: u64, z: u64) -> Machine {
    match f[0] {
        4 => Machine::Caseless(Caseless {
            prev: f[2],
            prev_ascii: f[3] == 1,
            current_word_len: x,
            longest_word: y,
        }),
        5 => Machine::Logical(Logical {
            prev: f[2],
            prev_ascii: f[3] == 1,
            plausible_punctuation: z,
            current_word_len: x,
            longest_word: y,
        }),
        6 => Machine::Visual(Visual {
            prev: f[2],
            prev_ascii: f[3] == 1,
            prev_punctuation: f[4] == 1,
            plausible_punctuation: z,
            current_word_len: x,
            longest_word: y,
        }),
        _ => Machine::ArabicFrench(ArabicFrench {
            prev: f[2],
            case_state: CASES[usize::from(f[4]).min(3)],
            prev_ascii: f[3] == 1,
            current_word_len: x,
            longest_word: y,
        }),
    }
}

fn machine_of(f: &[u8; 41]) -> Machine {
    let x = number::at(f, 17);
    let y = number::at(f, 25);
    let z = number::at(f, 33);
    if f[0] < 4 {
        return decoder_of(f, x, z);
    }
    if f[0] == 8 {
        return Machine::ShiftJis(ShiftJis { lead: f[2] });
    }
    single_of(f, x, y, z)
}

fn score_of(f: &[u8; 41]) -> Score {
    if f[1] == 0 {
        return Err(NoScore {
            reason: REASONS[usize::from(f[2]).min(6)],
            at: number::at(f, 17),
        });
    }
    Ok(signed::of_bits64(number::at(f, 9)))
}

// The place of a case, by its number and then its record.
pub(crate) fn start(f: &[u8; 41]) -> Place {
    Place {
        machine: machine_of(f),
        score: score_of(f),
    }
}

// ---- to a digest
// The fields a to e, x, y and z.
#[derive(Clone, Copy)]
struct Fields(u8, u8, u8, u8, u8, u64, u64, u64);

// A kind's number.
fn number_of<T: Copy + PartialEq>(kinds: &[T], kind: T) -> u8 {
    let n = kinds.iter().rposition(|k| *k == kind).unwrap_or(0);
    (n % 256) as u8
}

fn held_bits(h: Option<i64>) -> u64 {
    h.map_or(0, |s| signed::bits(s))
}

fn of_iso2022jp(m: Iso2022Jp) -> Fields {
    let a = number_of(&STATES, m.state);
    let b = number_of(&OUTPUTS, m.out);
    Fields(a, b, m.lead, u8::from(m.output), 0, 0, 0, 0)
}

fn of_euckr(m: EucKr) -> Fields {
    let held = m.held;
    let c = u8::from(m.prev_was_euc_range);
    let d = number_of(&KOREANS, m.prev);
    let x = m.current_word_len;
    let e = u8::from(held.is_some());
    Fields(m.lead, m.prev_byte, c, d, e, x, 0, held_bits(held))
}

fn of_big5(m: Big5) -> Fields {
    let held = m.held;
    let d = number_of(&CJS, m.prev);
    let e = u8::from(held.is_some());
    Fields(m.lead, m.prev_byte, 0, d, e, 0, 0, held_bits(held))
}

fn of_caseless(m: Caseless) -> Fields {
    let x = m.current_word_len;
    Fields(
        m.prev,
        u8::from(m.prev_ascii),
        0,
        0,
        0,
        x,
        m.longest_word,
        0,
    )
}

fn of_logical(m: Logical) -> Fields {
    let x = m.current_word_len;
    let z = m.plausible_punctuation;
    Fields(
        m.prev,
        u8::from(m.prev_ascii),
        0,
        0,
        0,
        x,
        m.longest_word,
        z,
    )
}

fn of_visual(m: Visual) -> Fields {
    let c = u8::from(m.prev_punctuation);
    let x = m.current_word_len;
    let z = m.plausible_punctuation;
    Fields(
        m.prev,
        u8::from(m.prev_ascii),
        c,
        0,
        0,
        x,
        m.longest_word,
        z,
    )
}

fn of_arabic_french(m: ArabicFrench) -> Fields {
    let c = number_of(&CASES, m.case_state);
    let x = m.current_word_len;
    Fields(
        m.prev,
        u8::from(m.prev_ascii),
        c,
        0,
        0,
        x,
        m.longest_word,
        0,
    )
}

fn fields_of(machine: Machine) -> Fields {
    match machine {
        Machine::Utf8(m) => Fields(m.need, m.lo, m.hi, 0, 0, 0, 0, 0),
        Machine::Iso2022Jp(m) => of_iso2022jp(m),
        Machine::EucKr(m) => of_euckr(m),
        Machine::Big5(m) => of_big5(m),
        Machine::Caseless(m) => of_caseless(m),
        Machine::Logical(m) => of_logical(m),
        Machine::Visual(m) => of_visual(m),
        Machine::ArabicFrench(m) => of_arabic_french(m),
        Machine::ShiftJis(m) => Fields(m.lead, 0, 0, 0, 0, 0, 0, 0),
    }
}

// The small fields first, then the numbers, of each the least byte first.
fn with_record(d: Digest, live: u8, score: u64, f: Fields) -> Digest {
    d.with(&[live, f.0, f.1, f.2, f.3, f.4, 0, 0])
        .with(&score.to_le_bytes())
        .with(&f.5.to_le_bytes())
        .with(&f.6.to_le_bytes())
        .with(&f.7.to_le_bytes())
}

// The digest with a record's 40 bytes. Without a score they have the reason as a and the place of the byte as x.
pub(crate) fn add(d: Digest, p: Place) -> Digest {
    let machine = p.machine;
    let score = p.score;
    match score {
        Err(why) => with_record(
            d,
            0,
            0,
            Fields(number_of(&REASONS, why.reason), 0, 0, 0, 0, why.at, 0, 0),
        ),
        Ok(n) => with_record(d, 1, signed::bits(n), fields_of(machine)),
    }
}
