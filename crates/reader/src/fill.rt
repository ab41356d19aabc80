// Lent tables, read from little-endian bytes. Entries for which there are no bytes stay as they are.
ghost use Rattle.std.specs.Prelude.{◌≡◌};
ghost use Rattle.reader.specs.Fill.{fill};

use crate::number::Number;

pub fn entries<T: Number>(from: &[u8], to: &mut [T])
    ensures { to.new ≡ fill T.SIZE T.head from.now to.old }
{
    // Of what is written through a zip with `chunks_exact` the check knows nothing.
    let mut left = from;
    for entry in to.iter_mut() {
        if left.len() < T::SIZE {
            return;
        }
        *entry = T::first(left);
        left = &left[T::SIZE..];
    }
}
