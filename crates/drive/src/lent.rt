// The lent tables, read from standard input as the replay format lays them out, and which of them are a place's own.
ghost use Rattle.std.specs.Prelude.{◌≡◌, ◌<◌, length};

use arabic_french::ArabicFrench;
use big5::Big5;
use caseless_script::Caseless;
use euckr::EucKr;
use iso2022jp::Iso2022Jp;
use kinds::machine::Kind;
use lengths::{BIG5, CLASSES, EUC_KR, EXTRAS, JIS, MARKS, PAIRS, WEIGHTS};
use logical::Logical;
use reader::fill;
use scribe::STDIN_FILENO;
use shift_jis::ShiftJis;
use tables::Tables;
use tables::held::{Held, HeldSingle};
use tables::own::Own;
use utf8::Utf8;
use visual::Visual;

// Bytes of one single-byte place's tables, of the four, of the three indexes, and of all that is lent.
const SINGLE: usize = CLASSES + MARKS + 2 * PAIRS;

const SINGLES: usize = 4 * SINGLE;

const INDEXES: usize = 4 * BIG5 + 4 * EUC_KR + 4 * JIS;

const LENT: usize = SINGLES + INDEXES + 2 * EXTRAS + 4 * WEIGHTS;

// The tables of single-byte place k, counted from place 4.
fn single(bytes: &[u8], k: usize, to: &mut HeldSingle)
    requires { (k < 4) × (length bytes.now ≡ 375028) }
{
    let at = SINGLE * k;
    fill::entries(&bytes[at..], &mut to.classes);
    fill::entries(&bytes[at + CLASSES..], &mut to.marks);
    fill::entries(&bytes[at + CLASSES + MARKS..], &mut to.pairs);
}

// What follows the tables of the single-byte places.
fn rest(bytes: &[u8], to: &mut Held)
    requires { length bytes.now ≡ 375028 }
{
    fill::entries(&bytes[SINGLES..], &mut to.big5);
    fill::entries(&bytes[SINGLES + 4 * BIG5..], &mut to.euckr);
    fill::entries(&bytes[SINGLES + 4 * BIG5 + 4 * EUC_KR..], &mut to.jis);
    fill::entries(&bytes[SINGLES + INDEXES..], &mut to.extras);
    fill::entries(&bytes[LENT - 4 * WEIGHTS..], &mut to.weights);
}

// Answers whether there was as much as that.
pub(crate) fn lend(to: &mut Held) -> bool {
    let mut bytes = [0u8; LENT];
    if io::read_full(STDIN_FILENO, &mut bytes) != LENT {
        return false;
    }
    single(&bytes, 0, &mut to.caseless);
    single(&bytes, 1, &mut to.logical);
    single(&bytes, 2, &mut to.visual);
    single(&bytes, 3, &mut to.arabic_french);
    rest(&bytes, to);
    true
}

// A place's own of all tables. Each number is another type's `own`, so a case for each is the plainest.
pub(crate) fn own<'a>(tables: &Tables<'a>, place: usize) -> Own<'a> {
    match place {
        0 => Utf8::own(tables),
        1 => Iso2022Jp::own(tables),
        2 => EucKr::own(tables),
        3 => Big5::own(tables),
        4 => Caseless::own(tables),
        5 => Logical::own(tables),
        6 => Visual::own(tables),
        7 => ArabicFrench::own(tables),
        _ => ShiftJis::own(tables),
    }
}
