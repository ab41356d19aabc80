// Whole lines: a reply, a place, and the eleven of a state.
ghost use Rattle.std.specs.Prelude.{◌≡◌};
ghost use Rattle.context.specs.Context.{bytes_of};
ghost use Rattle.lines.specs.Show.{saved_text, reply_text, start_text, bytes_text, front_text, record_text, dropped_text, scored_text, place_text, places_text, state_text};
ghost use Rattle.scribe.specs.Lent.{with_text};
ghost use Rattle.scribe.specs.Text.{newline};

use crate::fields;
use context::Context;
use kinds::machine::Machine;
use laws::Reason;
use names;
use places::place::{Place, Score, Slate};
use scribe::page::Page;
use sheet;
use state::front::Front;
use state::reply::{Reply, StartReply};
use state::{State, leader};

fn end_line(out: &mut Page)
    ensures { out.new ≡ with_text out.old newline }
{
    out.byte(0x0A);
}

pub fn reply(out: &mut Page, reply: Reply)
    ensures { out.new ≡ with_text out.old (reply_text reply) }
{
    fields::count(out, b"reply ", u64::from(reply.number()));
    fields::flag(out, b" ", reply.flag());
    end_line(out);
}

// A start that is refused has a line, any other none.
pub fn start(out: &mut Page, reply: StartReply)
    ensures { out.new ≡ with_text out.old (start_text reply) }
{
    match reply {
        StartReply::Accepted => {}
        StartReply::NoSuchPlace => {
            fields::count(out, b"start ", u64::from(reply.number()));
            end_line(out);
        }
    }
}

// The bytes of the saved context, or `-`.
fn saved(out: &mut Page, context: Context)
    ensures { out.new ≡ with_text out.old (saved_text (bytes_of context)) }
{
    match context.count() {
        0 => out.byte(b'-'),
        1 => out.hex(context.first),
        _ => {
            out.hex(context.first);
            out.hex(context.second);
        }
    }
}

// How many bytes were accepted, and how many of them from the end of the head on.
fn bytes(out: &mut Page, all: u64, body: u64)
    ensures { out.new ≡ with_text out.old (bytes_text all body) }
{
    fields::count(out, b" bytes=", all);
    fields::count(out, b" body=", body);
}

fn front(out: &mut Page, front: Front)
    ensures { out.new ≡ with_text out.old (front_text front) }
{
    let context = front.context;
    out.word(b"front context=");
    saved(out, context);
    fields::flag(out, b" esc=", front.esc_seen);
    fields::count(out, b" nonascii=", front.non_ascii_seen);
    fields::flag(out, b" closed=", front.closed);
    bytes(out, front.bytes, front.body);
    end_line(out);
}

// The fields of any machine.
fn machine_fields(out: &mut Page, machine: Machine)
    ensures { out.new ≡ with_text out.old (record_text machine) }
{
    match machine {
        Machine::Utf8(m) => fields::utf8(out, m),
        Machine::Iso2022Jp(m) => fields::iso2022jp(out, m),
        Machine::EucKr(m) => fields::euckr(out, m),
        Machine::Big5(m) => fields::big5(out, m),
        Machine::Caseless(m) => fields::caseless(out, m),
        Machine::Logical(m) => fields::logical(out, m),
        Machine::Visual(m) => fields::visual(out, m),
        Machine::ArabicFrench(m) => fields::arabic_french(out, m),
        Machine::ShiftJis(m) => fields::shift_jis(out, m),
    }
}

// What follows the name of a place without a score: why, and the place of the byte.
fn dropped(out: &mut Page, reason: Reason, byte: u64)
    ensures { out.new ≡ with_text out.old (dropped_text reason byte) }
{
    out.word(b" none ");
    names::reason(out, reason);
    fields::count(out, b" ", byte);
    end_line(out);
}

// What follows a place's name.
fn scored(out: &mut Page, machine: Machine, score: Score)
    ensures { out.new ≡ with_text out.old (scored_text machine score) }
{
    match score {
        Err(why) => dropped(out, why.reason, why.at),
        Ok(n) => {
            out.word(b" ");
            out.signed(n);
            machine_fields(out, machine);
            end_line(out);
        }
    }
}

pub fn place(out: &mut Page, place: Place)
    ensures { out.new ≡ with_text out.old (place_text place) }
{
    let machine = place.machine;
    let score = place.score;
    names::place(out, machine.place_number());
    scored(out, machine, score);
}

fn places(out: &mut Page, slate: Slate)
    ensures { out.new ≡ with_text out.old (places_text slate) }
{
    for p in &slate {
        place(out, *p);
    }
}

pub fn state(out: &mut Page, state: State)
    ensures { out.new ≡ with_text out.old (state_text state) }
{
    let first = state.front;
    let slate = state.places;
    front(out, first);
    places(out, slate);
    sheet::leader_line(out, leader::of(state));
}
