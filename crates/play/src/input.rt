// A descriptor's bytes through a window: they are read when they are wanted, and go when they are passed.
ghost use Rattle.std.specs.Prelude.{false, ◌≡◌, ◌+◌, ◌-◌, ◌≤◌, length};
ghost use Rattle.play.specs.Within.{Within, Filled};

use reader::fill;
use reader::number::Number;

// Where the bytes at hand begin and end in the window; `whole` until more were wanted than the input has.
#[derive(Clone, Copy)]
pub(crate) struct Span {
    pub(crate) from: i32,
    pub(crate) at: usize,
    pub(crate) end: usize,
    pub(crate) whole: bool,
}

impl Span {
    pub(crate) fn empty(from: i32) -> Span
        ensures { Within 131072 result }
    {
        Span {
            from,
            at: 0,
            end: 0,
            whole: true,
        }
    }

    // After so many bytes.
    pub(crate) fn past(self, count: usize) -> Span
        requires { self.at + count ≤ self.end }
        ensures { (result.at ≡ self.at + count) × (result.end ≡ self.end) }
    {
        Span {
            from: self.from,
            at: self.at + count,
            end: self.end,
            whole: self.whole,
        }
    }

    fn cut(self) -> Span
        ensures { ((result.at ≡ self.at) × (result.end ≡ self.end)) × (result.whole ≡ false) }
    {
        Span {
            from: self.from,
            at: self.at,
            end: self.end,
            whole: false,
        }
    }
}

// Moves the bytes at hand to the window's beginning; answers how many they are. The two numbers are those of a `Span`, which `fill`
// takes apart.
fn slide(window: &mut [u8], at: usize, end: usize) -> usize
    requires { (at ≤ end) × (end ≤ length window.old) }
    ensures { result ≡ end - at }
{
    window.copy_within(at..end, 0);
    end - at
}

// Reads until so many bytes stand in the window, or the input ends; answers how many do.
fn read_on(from: i32, window: &mut [u8], filled: usize, want: usize) -> usize
    requires { (filled ≤ length window.old) × (want ≤ length window.old) }
    ensures { result ≤ length window.old }
{
    if want <= filled {
        return filled;
    }
    filled + io::read_full(from, &mut window[filled..want])
}

// So many bytes at hand, or all that the input still has.
pub(crate) fn fill(window: &mut [u8], span: Span, want: usize) -> Span
    requires { Within (length window.old) span }
    ensures { Filled (length window.old) want result }
{
    let from = span.from;
    let at = span.at;
    let end = span.end;
    if window.len() < want {
        return span.cut();
    }
    if !span.whole {
        return span;
    }
    if want <= end - at {
        return span;
    }
    let kept = slide(window, at, end);
    let filled = read_on(from, window, kept, want);
    Span {
        from,
        at: 0,
        end: filled,
        whole: want <= filled,
    }
}

// A table, its bytes taken from the input.
pub(crate) fn entries<T: Number>(window: &mut [u8], span: Span, to: &mut [T]) -> Span
    requires { Within (length window.old) span }
    ensures { Within (length window.old) result }
{
    let Some(want) = T::SIZE.checked_mul(to.len()) else {
        return span.cut();
    };
    let s = fill(window, span, want);
    let at = s.at;
    if s.whole {
        fill::entries(&window[at..at + want], to);
        return s.past(want);
    }
    s
}
