// What a sweep counts and prints: how many byte strings there were, how many were whole, cut and none, and on how many the
// machine and the second check differ, in the reason and the place of a drop-out too.
#![tactic(auto)]

ghost use Rattle.std.specs.Prelude.{◌≡◌};
ghost use Rattle.tally.specs.Counts.{verdict, dropped_of, is_none, same_b, nothing, up_of, counted_of};

use laws::Reason;
use scribe::STDOUT_FILENO;

pub const WHOLE: u8 = 0;

pub const CUT: u8 = 1;

pub const BAD: u8 = 2;

pub const BROKEN: u8 = 3;

pub const UNFIT: u8 = 4;

// What comes of a byte string: one of the codes, and of a bad byte or a broken escape at which byte, from 1; else 0. A number and no
// enum, since the fields are open and counts answer for any code.
#[derive(Clone, Copy, PartialEq, Eq)]
pub struct Verdict {
    pub code: u8,
    pub at: usize,
}

impl Verdict {
    pub fn of(code: u8) -> Verdict
        ensures { result ≡ verdict code 0 }
    {
        Verdict { code, at: 0 }
    }

    pub fn bad(at: usize) -> Verdict
        ensures { result ≡ verdict 2 at }
    {
        Verdict { code: BAD, at }
    }

    pub fn broken(at: usize) -> Verdict
        ensures { result ≡ verdict 3 at }
    {
        Verdict { code: BROKEN, at }
    }

    // A machine that dropped out; what none of the machines here drops out for is not fit.
    pub fn dropped(reason: Reason, at: usize) -> Verdict
        ensures { result ≡ dropped_of reason at }
    {
        match reason {
            Reason::Class255 => Verdict { code: UNFIT, at },
            Reason::BadByte => Verdict { code: BAD, at },
            Reason::BadSecondByte => Verdict { code: UNFIT, at },
            Reason::BrokenEscape => Verdict { code: BROKEN, at },
            Reason::CutAtClose => Verdict { code: CUT, at },
            Reason::NotInSlate => Verdict { code: UNFIT, at },
        }
    }

    fn is_none(self) -> bool
        ensures { result ≡ is_none self.code }
    {
        if self.code == BAD {
            return true;
        }
        self.code == BROKEN
    }

    fn is(self, other: Verdict) -> bool
        ensures { result ≡ same_b self other }
    {
        if self.code == other.code {
            return self.at == other.at;
        }
        false
    }
}

#[derive(Clone, Copy)]
pub struct Counts {
    pub all: u64,
    pub whole: u64,
    pub cut: u64,
    pub none: u64,
    pub differ: u64,
}

fn up(n: u64, by: bool) -> u64
    ensures { result ≡ up_of n by }
{
    if by { n.wrapping_add(1) } else { n }
}

impl Counts {
    pub fn nothing() -> Counts
        ensures { result ≡ nothing }
    {
        Counts {
            all: 0,
            whole: 0,
            cut: 0,
            none: 0,
            differ: 0,
        }
    }

    // One more, of which the machine found this, and the second check expected that.
    pub fn counted(self, found: Verdict, expected: Verdict) -> Counts
        ensures { result ≡ counted_of self found expected }
    {
        Counts {
            all: up(self.all, true),
            whole: up(self.whole, found.code == WHOLE),
            cut: up(self.cut, found.code == CUT),
            none: up(self.none, found.is_none()),
            differ: up(self.differ, !found.is(expected)),
        }
    }

    pub fn print(self, name: &[u8]) {
        print_word(name);
        print_count(b" ", self.all);
        print_count(b" whole ", self.whole);
        print_count(b" cut ", self.cut);
        print_count(b" none ", self.none);
        print_count(b" differ ", self.differ);
        print_word(b"\n");
    }
}

// What can't be written is passed over, and the program goes on: `println!` would give each call a Result to throw away.
pub fn print_word(word: &[u8]) {
    io::write_all(STDOUT_FILENO, word);
}

pub fn print_count(word: &[u8], n: u64) {
    print_word(word);
    io::print_decimal(STDOUT_FILENO, n);
}

// How many entries of an index are not 0.
fn mapped(index: &[u32]) -> u64 {
    index.iter().filter(|entry| **entry != 0).count() as u64
}

pub fn print_mapped(word: &[u8], index: &[u32]) {
    print_count(word, mapped(index));
}
