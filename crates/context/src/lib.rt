// What the front end knows before any candidate is fed: the saved context, the scan for the trigger, and the count of
// non-ASCII bytes.
#![tactic(auto)]

ghost use Rattle.std.specs.Prelude.{◌≡◌, [], ◌∷◌, length, drop, ◌≤◌};
ghost use Rattle.laws.specs.Lists.{any};
ghost use Rattle.context.specs.Context.{bytes_of, context_of, push_of};
ghost use Rattle.context.specs.Head.{is_trigger, scan_of, non_ascii_count};
ghost use Rattle.context.specs.HeadLaws.{scan_from};

// The last two bytes of an all-ASCII beginning, or fewer (`BeforeNonAscii` in the Rust). Two slots with a length beside: memory is
// fixed here, and the fields are open, since reply 4 judges a state that holds any value, a length past two as well.
#[derive(Clone, Copy, PartialEq, Eq)]
pub struct Context {
    pub first: u8,
    pub second: u8,
    pub len: usize,
}

// A context's two slots, whether they hold a byte or not.
pub type Slots = [u8; 2];

impl Context {
    pub const MOST: usize = 2;

    pub fn fresh() -> Context
        ensures { result ≡ context_of [] }
    {
        Context {
            first: 0,
            second: 0,
            len: 0,
        }
    }

    pub fn push(self, chunk: &[u8]) -> Context
        ensures { result ≡ push_of self chunk.now }
    {
        match chunk {
            [] => self,
            [b] => self.push_byte(*b),
            [.., first, second] => Context {
                first: *first,
                second: *second,
                len: 2,
            },
        }
    }

    fn push_byte(self, b: u8) -> Context
        ensures { result ≡ push_of self (b ∷ []) }
    {
        match self.len {
            0 => Context {
                first: b,
                second: 0,
                len: 1,
            },
            1 => Context {
                first: self.first,
                second: b,
                len: 2,
            },
            _ => Context {
                first: self.second,
                second: b,
                len: 2,
            },
        }
    }

    // Its two slots. The bytes that it holds are the first `count` of them.
    pub fn bytes(self) -> Slots
        ensures { result ≡ self.first ∷ self.second ∷ [] }
    {
        [self.first, self.second]
    }

    pub fn count(self) -> usize
        ensures { result ≡ length (bytes_of self) }
    {
        self.len.min(Self::MOST)
    }
}

// The byte that begins an escape sequence.
const ESCAPE: u8 = 0x1B;

fn is_trigger(b: u8) -> bool
    ensures { result ≡ is_trigger b }
{
    b == ESCAPE || octets::is_non_ascii(b)
}

// Whether a block has a trigger. It is looked through to its end with no early exit, so that the compiler takes sixteen
// bytes at a time: `|` and not `||`, and `fold` and not `any`.
fn has_trigger(block: &[u8]) -> bool
    ensures { result ≡ any is_trigger block.now }
{
    block.iter().fold(false, |found, &b| found | is_trigger(b))
}

// How many bytes of a block are non-ASCII: few enough for a u8, so that sixteen sums fit a register. `filter` and `count` would
// sum in a usize, at 7.1 instructions a byte in place of 0.3.
fn count_block(block: &[u8]) -> u8
    requires { length block.now ≤ 255 }
    ensures { result ≡ non_ascii_count block.now }
{
    block.iter().map(|&b| octets::is_non_ascii(b) as u8).sum()
}

pub fn count_non_ascii(buffer: &[u8]) -> u64
    ensures { result ≡ non_ascii_count buffer.now }
{
    let (blocks, rest) = buffer.as_chunks::<128>();
    let counted: u64 = blocks.iter().map(|block| count_block(block) as u64).sum();
    counted + count_block(rest) as u64
}

// What the scan of a chunk finds: the trigger and its offset, or the end of the chunk. Three cases for one `match`; an Option would
// hold an enum of the first two, or a pair.
#[derive(Clone, Copy, PartialEq, Eq)]
pub enum Scanned {
    Escape(usize),
    NonAscii(usize),
    End,
}

// The scan byte by byte, from an offset on.
fn scan_from(chunk: &[u8], from: usize) -> Scanned
    requires { from ≤ length chunk.now }
    ensures { result ≡ scan_from from (drop from chunk.now) }
{
    let at = from
        + chunk[from..]
            .iter()
            .take_while(|&&b| !is_trigger(b))
            .count();
    match chunk.get(at) {
        None => Scanned::End,
        Some(&ESCAPE) => Scanned::Escape(at),
        Some(_) => Scanned::NonAscii(at),
    }
}

// Only the block that has a trigger, and what is left after the last whole block, are gone through byte by byte.
pub fn scan(chunk: &[u8]) -> Scanned
    ensures { result ≡ scan_of chunk.now }
{
    let (blocks, _) = chunk.as_chunks::<64>();
    let clear = blocks
        .iter()
        .take_while(|block| !has_trigger(*block))
        .count();
    scan_from(chunk, clear * 64)
}
