// What was read of a line: its name's end, and the number at hand.
ghost use Rattle.std.specs.Prelude.{◌<◌};

use crate::rows;
use crate::rows::Rows;

#[derive(Clone, Copy)]
pub(crate) struct Pen {
    // The name has ended.
    pub(crate) named: bool,
    // A number has begun, the first of its pair or the second.
    valued: bool,
    second: bool,
    row: usize,
    letter: u8,
    value: u64,
    hex: bool,
    minus: bool,
}

// A row by its digit or letter.
fn row(c: u8) -> usize {
    match c {
        b'F' => rows::FRONT,
        b'C' => rows::FEED,
        _ => (c % 16) as usize,
    }
}

fn digit(c: u8) -> u64
    ensures { result < 25 }
{
    if c < b'a' {
        return (c % 16) as u64;
    }
    (c % 16 + 9) as u64
}

// The number with one digit more.
fn shifted(n: u64, hex: bool, digit: u64) -> u64
    requires { digit < 25 }
{
    if 1_000_000_000_000_000_000 <= n {
        return n;
    }
    if hex { n * 16 + digit } else { n * 10 + digit }
}

impl Pen {
    pub(crate) fn fresh() -> Pen {
        Pen {
            named: false,
            valued: false,
            second: false,
            row: 0,
            letter: 0,
            value: 0,
            hex: false,
            minus: false,
        }
    }

    pub(crate) fn in_name(mut self, c: u8) -> Pen {
        self.named = c == b':';
        self
    }

    fn begun(mut self, second: bool) -> Pen {
        self.valued = true;
        self.second = second;
        self.value = 0;
        self.hex = false;
        self.minus = false;
        self
    }

    fn ended(mut self) -> Pen {
        self.valued = false;
        self
    }

    fn in_place(mut self, c: u8) -> Pen {
        if c < b'a' {
            self.row = row(c);
            return self;
        }
        self.letter = c;
        self
    }

    fn in_number(mut self, c: u8) -> Pen {
        match c {
            b'-' => {
                self.minus = true;
            }
            b'x' => {
                self.hex = true;
            }
            _ => {
                self.value = shifted(self.value, self.hex, digit(c));
            }
        }
        self
    }

    // After one byte of a case.
    pub(crate) fn with(self, c: u8) -> Pen {
        match c {
            b'=' => self.begun(false),
            b'/' => self.begun(true),
            b' ' | b';' => self.ended(),
            _ => if self.valued {
                self.in_number(c)
            } else {
                self.in_place(c)
            },
        }
    }

    fn number(self) -> u64 {
        if self.minus {
            return std::num::wrapping_sub_u64(0, self.value);
        }
        self.value
    }

    // Where the byte ends a number it is set: the first of a pair in both states, the second in the second.
    pub(crate) fn store(self, c: u8, first: &mut Rows, second: &mut Rows) {
        if !self.valued {
            return;
        }
        match c {
            b'/' | b' ' | b';' | b'\n' => {
                if !self.second {
                    rows::set(first, self.row, self.letter, self.number());
                }
                rows::set(second, self.row, self.letter, self.number());
            }
            _ => {}
        }
    }
}
