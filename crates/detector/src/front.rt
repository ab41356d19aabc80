// The front end: which bytes of a chunk reach the places, and what is known after it.
ghost use Rattle.std.specs.Prelude.{◌≡◌, ◌-◌, length};
ghost use Rattle.detector.specs.Due.{DueAt, DueBy, WithinAt, WithinBy, Roomy};
ghost use Rattle.detector.specs.Front.{trigger_of, context_at, context_by, esc_by, body_by, uncounted, counted};

use context;
use context::{Context, Scanned};
use state::front::Front;

// Where the trigger stands: in an earlier chunk, in this one at an offset, or in none so far.
#[derive(Clone, Copy, PartialEq, Eq)]
pub(crate) enum Trigger {
    Earlier,
    Escape(usize),
    NonAscii(usize),
    Nowhere,
}

// What of a chunk reaches the places: nothing; the chunk from an offset on; or so many bytes of the saved context, then the
// whole chunk.
#[derive(Clone, Copy, PartialEq, Eq)]
pub(crate) enum Due {
    Nothing,
    Part(usize),
    After(usize),
}

// The trigger stands at this offset. The test comes before the subtraction of two.
fn due_at(at: usize, context: Context) -> Due
    ensures due_at { DueAt context at result }
    ensures within_at { WithinAt context at result }
{
    if at < Context::MOST {
        return Due::After(context.count());
    }
    Due::Part(at - Context::MOST)
}

fn context_at(at: usize, context: Context) -> Context
    ensures { result ≡ context_at context at }
{
    if Context::MOST <= at {
        return context;
    }
    Context::fresh()
}

pub(crate) fn trigger_in(front: Front, chunk: &[u8]) -> Trigger
    ensures { result ≡ trigger_of front chunk.now }
{
    if front.is_triggered() {
        return Trigger::Earlier;
    }
    match context::scan(chunk) {
        Scanned::Escape(at) => Trigger::Escape(at),
        Scanned::NonAscii(at) => Trigger::NonAscii(at),
        Scanned::End => Trigger::Nowhere,
    }
}

pub(crate) fn due_by(front: Front, trigger: Trigger) -> Due
    ensures due_by { DueBy front.context trigger result }
    ensures within_by { WithinBy front.context trigger result }
{
    let context = front.context;
    match trigger {
        Trigger::Earlier => Due::Part(0),
        Trigger::Escape(at) => due_at(at, context),
        Trigger::NonAscii(at) => due_at(at, context),
        Trigger::Nowhere => Due::Nothing,
    }
}

fn saved(front: Front, trigger: Trigger, chunk: &[u8]) -> Context
    ensures { result ≡ context_by front.context chunk.now trigger }
{
    let context = front.context;
    match trigger {
        Trigger::Earlier => context,
        Trigger::Escape(at) => context_at(at, context),
        Trigger::NonAscii(at) => context_at(at, context),
        Trigger::Nowhere => context.push(chunk),
    }
}

fn escaped(front: Front, trigger: Trigger) -> bool
    ensures { result ≡ esc_by front.esc_seen trigger }
{
    match trigger {
        Trigger::Earlier => front.esc_seen,
        Trigger::Escape(_) => true,
        Trigger::NonAscii(_) => front.esc_seen,
        Trigger::Nowhere => front.esc_seen,
    }
}

// How many of so many bytes stand from an offset on.
fn from_offset(at: usize, bytes: u64) -> u64
    ensures { result ≡ bytes - at }
{
    bytes.saturating_sub(at as u64)
}

// How many bytes from the end of the head on there are after a chunk.
fn body_after(front: Front, trigger: Trigger, chunk: &[u8]) -> u64
    requires { Roomy front (length chunk.now) }
    ensures { result ≡ body_by front.body chunk.now trigger }
{
    let body = front.body;
    let bytes = chunk.len() as u64;
    match trigger {
        Trigger::Earlier => body + bytes,
        Trigger::Escape(at) => body + from_offset(at, bytes),
        Trigger::NonAscii(at) => body + from_offset(at, bytes),
        Trigger::Nowhere => body,
    }
}

// After a chunk; the non-ASCII bytes among those that reach the places are still to be counted.
pub(crate) fn uncounted(front: Front, trigger: Trigger, chunk: &[u8], last: bool) -> Front
    requires { Roomy front (length chunk.now) }
    ensures { result ≡ uncounted front chunk.now last trigger }
{
    Front {
        context: saved(front, trigger, chunk),
        esc_seen: escaped(front, trigger),
        non_ascii_seen: front.non_ascii_seen,
        closed: last,
        bytes: front.bytes + chunk.len() as u64,
        body: body_after(front, trigger, chunk),
    }
}

pub(crate) fn counted(front: Front, part: &[u8]) -> Front
    requires { Roomy front (length part.now) }
    ensures { result ≡ counted front part.now }
{
    let context = front.context;
    Front {
        context,
        esc_seen: front.esc_seen,
        non_ascii_seen: front.non_ascii_seen + context::count_non_ascii(part),
        closed: front.closed,
        bytes: front.bytes,
        body: front.body,
    }
}
