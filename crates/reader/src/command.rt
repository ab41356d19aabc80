// The commands, read from the bytes at hand.
ghost use Rattle.std.specs.Prelude.{◌≡◌};
ghost use Rattle.reader.specs.Command.{start_read, feed_read, read_of};

use crate::number;

// A chunk's bytes at most.
pub const CHUNK: usize = 65_536;

// The bytes of a feed before its chunk.
pub const HEAD: usize = 6;

// Six cases of equal rank, and so no Option or Result.
#[derive(Clone, Copy, PartialEq, Eq)]
pub enum Command {
    // Bit k says whether place k takes part.
    Start(u16),
    // As the last chunk or not; so many bytes, which follow the head.
    Feed(bool, usize),
    Show,
    // Lent data follows.
    Lend,
    // So many bytes are wanted before it can be told.
    More(usize),
    Bad,
}

fn start(bytes: &[u8]) -> Command
    ensures { result ≡ start_read bytes.now }
{
    if bytes.len() < 3 {
        return Command::More(3);
    }
    Command::Start(number::at(bytes, 1))
}

fn feed(bytes: &[u8]) -> Command
    ensures { result ≡ feed_read bytes.now }
{
    if bytes.len() < HEAD {
        return Command::More(HEAD);
    }
    if 1 < bytes[1] {
        return Command::Bad;
    }
    let length = number::at::<u32>(bytes, 2) as usize;
    if CHUNK < length {
        return Command::Bad;
    }
    if bytes.len() - HEAD < length {
        return Command::More(HEAD + length);
    }
    Command::Feed(bytes[1] == 1, length)
}

// The command with which the bytes begin.
pub fn read(bytes: &[u8]) -> Command
    ensures { result ≡ read_of bytes.now }
{
    match bytes {
        [] => Command::More(1),
        [b'S', ..] => start(bytes),
        [b'F', ..] => feed(bytes),
        [b'Q', ..] => Command::Show,
        [b'T', ..] => Command::Lend,
        _ => Command::Bad,
    }
}
