// The digest of oracle/README.md: no product exceeds 64 bits.
#![tactic(auto)]

ghost use Rattle.std.specs.Prelude.{◌≡◌};
ghost use Rattle.digest.specs.Digest.{fresh, with_byte, with_bytes};

use scribe::STDOUT_FILENO;

#[derive(Clone, Copy)]
pub struct Digest {
    first: u64,
    second: u64,
    length: u64,
}

impl Digest {
    pub fn fresh() -> Digest
        ensures { result ≡ fresh }
    {
        Digest {
            first: 1,
            second: 1,
            length: 0,
        }
    }

    fn with_byte(self, b: u8) -> Digest
        ensures { result ≡ with_byte self b }
    {
        let added = u64::from(b) + 1;
        Digest {
            first: (self.first % 2147483647 * 65599 + added) % 2147483647,
            second: (self.second % 2147483629 * 31337 + added) % 2147483629,
            length: self.length % 0x1_0000_0000 + 1,
        }
    }

    pub fn with(self, bytes: &[u8]) -> Digest
        ensures { result ≡ with_bytes self bytes.now }
    {
        bytes
            .iter()
            .fold(self, |digest, byte| digest.with_byte(*byte))
    }

    // What can't be written is passed over, and the program goes on: `println!` would give each call a Result to throw away.
    pub fn print(self) {
        io::print_decimal(STDOUT_FILENO, self.first);
        io::write_all(STDOUT_FILENO, b" ");
        io::print_decimal(STDOUT_FILENO, self.second);
        io::write_all(STDOUT_FILENO, b" ");
        io::print_decimal(STDOUT_FILENO, self.length);
        io::write_all(STDOUT_FILENO, b"\n");
    }
}
