// Little-endian numbers at a place; bytes past the end count as zeros.
ghost use Rattle.std.specs.Prelude.{◌≡◌, ◌<◌, ℕ, List, slice_index, drop};
ghost use Rattle.std.proofs.Common.{lit<};
ghost use Rattle.reader.specs.Fill.{octet_at, half_at, word_at, signed_word_at};
ghost use Rattle.reader.specs.Little.{little_at};

// A number of so many bytes, the least first.
pub trait Number: Copy {
    const SIZE: usize;

    ghost SIZE: { ℕ };

    ghost head: { List ℕ → Self };

    // The number at the head of the bytes.
    fn first(bytes: &[u8]) -> Self
        ensures { result ≡ head bytes.now };

    ghost some: { 0 < SIZE };
}

impl Number for u8 {
    const SIZE: usize = 1;

    ghost SIZE = { 1 };

    ghost head = { octet_at };

    ghost some = { lit< tt };

    fn first(bytes: &[u8]) -> u8 {
        u8::from_le_bytes(padded(bytes))
    }
}

impl Number for u16 {
    const SIZE: usize = 2;

    ghost SIZE = { 2 };

    ghost head = { λ xs. little_at 2 xs 0 };

    ghost some = { lit< tt };

    fn first(bytes: &[u8]) -> u16 {
        u16::from_le_bytes(padded(bytes))
    }
}

impl Number for i16 {
    const SIZE: usize = 2;

    ghost SIZE = { 2 };

    ghost head = { half_at };

    ghost some = { lit< tt };

    fn first(bytes: &[u8]) -> i16 {
        i16::from_le_bytes(padded(bytes))
    }
}

impl Number for u32 {
    const SIZE: usize = 4;

    ghost SIZE = { 4 };

    ghost head = { word_at };

    ghost some = { lit< tt };

    fn first(bytes: &[u8]) -> u32 {
        u32::from_le_bytes(padded(bytes))
    }
}

impl Number for i32 {
    const SIZE: usize = 4;

    ghost SIZE = { 4 };

    ghost head = { signed_word_at };

    ghost some = { lit< tt };

    fn first(bytes: &[u8]) -> i32 {
        i32::from_le_bytes(padded(bytes))
    }
}

impl Number for u64 {
    const SIZE: usize = 8;

    ghost SIZE = { 8 };

    ghost head = { λ xs. little_at 8 xs 0 };

    ghost some = { lit< tt };

    fn first(bytes: &[u8]) -> u64 {
        u64::from_le_bytes(padded(bytes))
    }
}

// The first bytes, with zeros for those past the end.
fn padded<const N: usize>(bytes: &[u8]) -> [u8; N]
    ensures { (k : ℕ) → k < N → slice_index result k ≡ slice_index bytes.now k }
{
    let mut to = [0; N];
    let len = bytes.len().min(N);
    to[..len].copy_from_slice(&bytes[..len]);
    to
}

// The number at a place.
pub fn at<T: Number>(bytes: &[u8], place: usize) -> T
    ensures { result ≡ T.head (drop place bytes.now) }
{
    T::first(bytes.get(place..).unwrap_or(&[]))
}
