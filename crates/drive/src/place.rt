// A place alone: its machine over its own tables, and its score.
use arabic_french::ArabicFrench;
use big5::Big5;
use caseless_script::Caseless;
use euckr::EucKr;
use iso2022jp::Iso2022Jp;
use kinds::machine;
use kinds::machine::Machine;
use laws::{Ran, Reason, Stop};
use logical::Logical;
use places::place::{NoScore, Place};
use scribe::STDOUT_FILENO;
use shift_jis::ShiftJis;
use tables::own::Own;
use utf8::Utf8;
use visual::Visual;

// What comes to a machine in one call: all bytes of the case, one byte and how many came before it, or the end.
#[derive(Clone, Copy, PartialEq, Eq)]
pub(crate) enum Next {
    Part,
    Byte(u8, usize),
    End,
}

// How many bytes of the call a machine took that dropped out at this offset; the end is none.
fn taken(reason: Reason, at: usize) -> u64 {
    match reason {
        Reason::CutAtClose => 0,
        _ => std::num::wrapping_add_u64(at as u64, 1),
    }
}

// The byte at which a machine drops out is counted from 1 at the case's first; so many came before this call. A machine that
// refuses says so in a line, which no answer of the Rust has.
fn settled(machine: Machine, old: i64, ran: Ran<Machine>, bytes: usize) -> Place {
    match ran {
        Ok((next, change)) => Place {
            machine: next,
            score: Ok(signed::sum(old, change)),
        },
        Err(Stop::Dropped(reason, at)) => Place {
            machine,
            score: Err(NoScore {
                reason,
                at: std::num::wrapping_add_u64(bytes as u64, taken(reason, at)),
            }),
        },
        Err(Stop::Unfit) => {
            io::write_all(STDOUT_FILENO, b"unfit\n");
            Place {
                machine,
                score: Err(NoScore {
                    reason: Reason::NotInSlate,
                    at: 0,
                }),
            }
        }
    }
}

// What a machine makes of a part, by the function that the feed has for its kind, so that what is compared with the Rust is what
// the product runs.
fn ran(machine: Machine, part: &[u8], own: &Own) -> Ran<Machine> {
    match machine {
        Machine::Utf8(_) => machine::run::<Utf8>(machine, part, own),
        Machine::Iso2022Jp(_) => machine::run::<Iso2022Jp>(machine, part, own),
        Machine::EucKr(_) => machine::run::<EucKr>(machine, part, own),
        Machine::Big5(_) => machine::run::<Big5>(machine, part, own),
        Machine::Caseless(_) => machine::run::<Caseless>(machine, part, own),
        Machine::Logical(_) => machine::run::<Logical>(machine, part, own),
        Machine::Visual(_) => machine::run::<Visual>(machine, part, own),
        Machine::ArabicFrench(_) => machine::run::<ArabicFrench>(machine, part, own),
        Machine::ShiftJis(_) => machine::run::<ShiftJis>(machine, part, own),
    }
}

// The place after what comes next. The part is all of the case; it is read only where all of it comes.
pub(crate) fn fed(p: Place, next: Next, part: &[u8], own: &Own) -> Place {
    let machine = p.machine;
    let score = p.score;
    let Ok(old) = score else {
        return p;
    };
    // what the machine answers, and how many bytes of the case came before
    let (answer, before) = match next {
        Next::Part => (ran(machine, part, own), 0),
        Next::Byte(b, i) => (ran(machine, &[b], own), i),
        Next::End => (machine.close(own), part.len()),
    };
    settled(machine, old, answer, before)
}
