// Commands in turn, over the tables that are lent.
ghost use Rattle.std.specs.Prelude.{◌≡◌, ◌+◌, ◌≤◌, length, take, drop};
ghost use Rattle.tables.specs.Held.{held};
ghost use Rattle.tables.specs.Lists.{lists};
ghost use Rattle.state.specs.State.{started_of};
ghost use Rattle.detector.specs.Feed.{feed_of};
ghost use Rattle.play.specs.Turn.{at_hand, state_after, Played};
ghost use Rattle.play.specs.Within.{Within};

use crate::input;
use crate::input::Span;
use crate::print::Sink;
use detector::feed;
use lines::show;
use reader::command;
use reader::command::Command;
use state;
use state::State;
use tables::Tables;
use tables::held::{Held, HeldSingle};

// How many rounds are played at most, and commands of a round: more than can come in. The input ends both, and may have no end
// itself, so they are counted only for the proof that a function ends.
const MOST: u64 = 0x4000_0000_0000_0000;

// What comes after a command.
#[derive(Clone, Copy, PartialEq, Eq)]
enum Next {
    Command,
    Tables,
    End,
    Bad,
}

#[derive(Clone, Copy)]
struct Stand {
    state: State,
    span: Span,
    sink: Sink,
    next: Next,
}

impl Stand {
    // All but the place in the input stays as it was.
    fn at(self, span: Span, next: Next) -> Stand
        ensures span_value { result.span ≡ span }
        ensures state_value { result.state ≡ self.state }
    {
        let state = self.state;
        let sink = self.sink;
        Stand {
            state,
            span,
            sink,
            next,
        }
    }

    fn started(self, bits: u16) -> Stand
        requires { self.span.at + 3 ≤ self.span.end }
        ensures at_value { (result.span.at ≡ self.span.at + 3) × (result.span.end ≡ self.span.end) }
        ensures state_value { result.state ≡ (started_of bits).state }
    {
        let span = self.span;
        let sink = self.sink;
        let begun = state::start(bits);
        let fresh = begun.state;
        let reply = begun.reply;
        Stand {
            state: fresh,
            span: span.past(3),
            sink: sink.with_page(&mut [0; 16], |out| show::start(out, reply)),
            next: Next::Command,
        }
    }

    fn shown(self) -> Stand
        requires { self.span.at + 1 ≤ self.span.end }
        ensures at_value { (result.span.at ≡ self.span.at + 1) × (result.span.end ≡ self.span.end) }
        ensures state_value { result.state ≡ self.state }
    {
        let held = self.state;
        let span = self.span;
        let sink = self.sink;
        Stand {
            state: held,
            span: span.past(1),
            sink: sink.with_page(&mut [0; 2048], |out| show::state(out, held)),
            next: Next::Command,
        }
    }

    // So many bytes are wanted. The input may end where no command has begun.
    fn filled(self, window: &mut [u8], want: usize) -> Stand
        requires { Within (length window.old) self.span }
        ensures within { Within (length window.old) result.span }
        ensures state_value { result.state ≡ self.state }
    {
        let from = self.span;
        let span = input::fill(window, from, want);
        if span.whole {
            return self.at(span, Next::Command);
        }
        if span.at == span.end {
            return self.at(span, Next::End);
        }
        self.at(span, Next::Bad)
    }
}

// A chunk of so many bytes, which stands in the window.
fn fed(window: &[u8], t: Stand, last: bool, count: usize, tables: &Tables) -> Stand
    requires within { Within (length window.now) t.span }
    requires count_bound { t.span.at + (6 + count) ≤ t.span.end }
    ensures within_2 { Within (length window.now) result.span }
    ensures state_value { result.state ≡ (feed_of (lists tables.now) t.state (take count (drop (t.span.at + 6) window.now)) last).state }
{
    let span = t.span;
    let sink = t.sink;
    let state = t.state;
    let from = span.at + command::HEAD;
    let fed = feed::feed(state, &window[from..from + count], last, tables);
    let after = fed.state;
    let reply = fed.reply;
    Stand {
        state: after,
        span: span.past(command::HEAD + count),
        sink: sink.with_page(&mut [0; 16], |out| show::reply(out, reply)),
        next: Next::Command,
    }
}

// One command, or the bytes that it still wants. Each case calls what is its own: a table of functions would have to give them one
// signature.
fn turn(window: &mut [u8], t: Stand, tables: &Tables) -> Stand
    requires { Within (length window.old) t.span }
    ensures within { Within (length window.old) result.span }
    ensures state_value { result.state ≡ state_after (lists tables.now) t.state (at_hand window.old t.span) }
{
    let span = t.span;
    let at = span.at;
    let end = span.end;
    let found = command::read(&window[at..end]);
    match found {
        Command::Start(bits) => t.started(bits),
        Command::Feed(last, count) => fed(window, t, last, count, tables),
        Command::Show => t.shown(),
        Command::Lend => t.at(span.past(1), Next::Tables),
        Command::More(want) => t.filled(window, want),
        Command::Bad => t.at(span, Next::Bad),
    }
}

// The commands until the input ends, is malformed, or lends new tables.
fn turns(window: &mut [u8], from: Stand, tables: &Tables) -> Stand
    requires { Within (length window.old) from.span }
    ensures within { Within (length window.old) result.span }
    ensures played { Played (lists tables.now) from.state result.state }
{
    let mut t = from;
    for _ in 0..MOST {
        t = turn(window, t, tables);
        if t.next != Next::Command {
            return t;
        }
    }
    t
}

// The tables of one single-byte place.
fn single(window: &mut [u8], span: Span, to: &mut HeldSingle) -> Span
    requires { Within (length window.old) span }
    ensures { Within (length window.old) result }
{
    let a = input::entries(window, span, &mut to.classes);
    let b = input::entries(window, a, &mut to.marks);
    input::entries(window, b, &mut to.pairs)
}

// The tables, one after the other.
fn lend(window: &mut [u8], span: Span, to: &mut Held) -> Span
    requires { Within (length window.old) span }
    ensures { Within (length window.old) result }
{
    let a = single(window, span, &mut to.caseless);
    let b = single(window, a, &mut to.logical);
    let c = single(window, b, &mut to.visual);
    let d = single(window, c, &mut to.arabic_french);
    let e = input::entries(window, d, &mut to.big5);
    let f = input::entries(window, e, &mut to.euckr);
    let g = input::entries(window, f, &mut to.jis);
    let h = input::entries(window, g, &mut to.extras);
    input::entries(window, h, &mut to.weights)
}

// Lent data, then commands.
fn round(window: &mut [u8; 131072], from: Stand, lent: &mut Held) -> Stand
    requires { Within (length window.old) from.span }
    ensures within { Within (length window.old) result.span × (length window.new ≡ length window.old) }
    ensures played { Played (held lent.new) from.state result.state }
{
    let first = from.span;
    let span = lend(window, first, lent);
    if !span.whole {
        return from.at(span, Next::Bad);
    }
    turns(window, from.at(span, Next::Command), &Tables::from(&*lent))
}

// The first stream has all places.
fn every_place() -> State
    ensures { result ≡ (started_of 511).state }
{
    let begun = state::start(0x1FF);
    begun.state
}

fn begun(from: i32, aloud: bool) -> Stand
    ensures within { Within 131072 result.span }
    ensures state_value { result.state ≡ (started_of 511).state }
{
    Stand {
        state: every_place(),
        span: Span::empty(from),
        sink: Sink::new(aloud),
        next: Next::Tables,
    }
}

fn ended(t: Stand) {
    let sink = t.sink;
    if t.next == Next::Bad {
        sink.with(b"bad input\n").end();
        return;
    }
    sink.end();
}

// Plays what a descriptor has. The answers go to standard output as they are, or their digest at the end.
pub fn play(from: i32, aloud: bool) {
    let mut window = [0u8; 131072];
    let mut lent = Held::zero();
    let mut t = begun(from, aloud);
    for _ in 0..MOST {
        t = round(&mut window, t, &mut lent);
        if t.next != Next::Tables {
            break;
        }
    }
    ended(t);
}
