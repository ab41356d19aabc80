// A lent buffer (the project has no heap) and how far it is written. What finds no room falls off.
ghost use Rattle.std.specs.Prelude.{◌≡◌, ◌<◌, [], ◌∷◌};
ghost use Rattle.io.specs.Digits.{hex_digit_ascii};
ghost use Rattle.scribe.specs.Lent.{over, seen, with_text};
ghost use Rattle.scribe.specs.Page.{page, onto, text_of};
ghost use Rattle.scribe.specs.Text.{flag_of, hex_of, decimal_of, signed_of};

use std::convert::AsSlice;

// Without a `Model`, since that would hide from a caller that the page keeps the very reference that it was lent.
#[derive(Drop)]
pub struct Page<'a> {
    out: &'a mut [u8],
    at: usize,
}

impl<'a> Page<'a> {
    // A buffer that is written up to `at`.
    pub fn new(out: &'a mut [u8], at: usize) -> Page<'a>
        ensures { result ≡ over out.entry at }
    {
        Page { out, at }
    }

    pub fn byte(&mut self, b: u8)
        ensures { self.new ≡ with_text self.old (b ∷ []) }
    {
        if self.at < self.out.len() {
            self.out[self.at] = b;
            self.at += 1;
        } else {
            self.at = self.out.len();
        }
    }

    pub fn word(&mut self, text: &[u8])
        ensures { self.new ≡ with_text self.old text.now }
    {
        for b in text {
            self.byte(*b);
        }
    }

    // Two hexadecimal digits.
    pub fn hex(&mut self, b: u8)
        ensures { self.new ≡ with_text self.old (hex_of b) }
    {
        self.byte(digit(b / 16));
        self.byte(digit(b % 16));
    }

    pub fn flag(&mut self, f: bool)
        ensures { self.new ≡ with_text self.old (flag_of f) }
    {
        if f {
            self.byte(b'1');
        } else {
            self.byte(b'0');
        }
    }

    pub fn decimal(&mut self, n: u64)
        ensures { self.new ≡ with_text self.old (decimal_of n) }
    {
        let mut digits = [0u8; 20];
        let count = io::decimal(n, &mut digits);
        self.word(&digits[..count]);
    }

    pub fn signed(&mut self, z: i64)
        ensures { self.new ≡ with_text self.old (signed_of z) }
    {
        if z < 0 {
            self.byte(b'-');
        }
        self.decimal(signed::size(z));
    }

    // Gives back how far the buffer is written, which is the caller's own again.
    pub fn end(self) -> usize
        ensures { page self.exit.0.now result ≡ seen self.entry }
    {
        self.at
    }
}

// A text written into a buffer from `at` on; the result is where it ends.
pub fn word(out: &mut [u8], at: usize, text: &[u8]) -> usize
    ensures { page out.new result ≡ onto (page out.old at) text.now }
{
    let mut page = Page::new(out, at);
    page.word(text);
    page.end()
}

// What is written.
impl<'a> AsSlice<u8> for Page<'a> {
    ghost items = { λ p. text_of (seen p) };

    fn as_slice(&self) -> &[u8] {
        if self.at < self.out.len() {
            return &self.out[..self.at];
        }
        self.out
    }
}

fn digit(d: u8) -> u8
    requires { d < 16 }
    ensures { result ≡ hex_digit_ascii d }
{
    if d < 10 {
        return 48 + d;
    }
    87 + d
}
