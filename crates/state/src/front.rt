// What is known of the bytes so far.
ghost use Rattle.std.specs.Prelude.{◌≡◌};
ghost use Rattle.state.specs.State.{fresh, flag_of, triggered};
ghost use Rattle.state.specs.Order.{triggerless_b, saved_b, body_b, front_b};

use context::Context;

#[derive(Clone, Copy, PartialEq, Eq)]
pub struct Front {
    pub context: Context,
    pub esc_seen: bool,
    pub non_ascii_seen: u64,
    pub closed: bool,
    pub bytes: u64,
    // Of the bytes, those from the end of the head on.
    pub body: u64,
}

impl Front {
    pub fn fresh() -> Front
        ensures { result ≡ fresh }
    {
        Front {
            context: Context::fresh(),
            esc_seen: false,
            non_ascii_seen: 0,
            closed: false,
            bytes: 0,
            body: 0,
        }
    }

    // Whether any non-ASCII byte has reached the places.
    pub fn flag(self) -> bool
        ensures { result ≡ flag_of self }
    {
        0 < self.non_ascii_seen
    }

    // Whether a trigger was met.
    pub fn is_triggered(self) -> bool
        ensures { result ≡ triggered self }
    {
        self.esc_seen || self.flag()
    }

    // Whether a state in order can have it.
    pub fn is_in_order(self) -> bool
        ensures { result ≡ front_b self }
    {
        let context = self.context;
        self.bytes <= lengths::LIMIT
            && (self.non_ascii_seen <= self.bytes
                && (context.len as u64 <= self.bytes && (self.has_body() && is_saved(context))))
    }

    // Whether so many bytes can have come from the end of the head on: before any trigger none has.
    fn has_body(self) -> bool
        ensures { result ≡ body_b self }
    {
        self.body <= self.bytes && (self.is_triggered() || self.body == 0)
    }
}

// A byte that the context can save.
fn is_triggerless(b: u8) -> bool
    ensures { result ≡ triggerless_b b }
{
    b != 0x1B && !octets::is_non_ascii(b)
}

// What stands past a context's length is not looked at.
fn is_saved(context: Context) -> bool
    ensures { result ≡ saved_b context }
{
    let len = context.len;
    if Context::MOST < len {
        return false;
    }
    if len == 0 {
        return true;
    }
    is_triggerless(context.first) && (len < 2 || is_triggerless(context.second))
}
