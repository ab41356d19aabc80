// A single-byte machine: what its kind knows of one byte is a trait, and its run over a part, and its close, are the same for all.
ghost use Rattle.std.specs.Prelude.{◌≡◌, ◌*◌, ◌+◌, ◌<◌, ◌≤◌, Bool, true, List, ℕ, ℤ, length};
ghost use Rattle.laws.specs.Answer.{answered, BoundedBy};
ghost use Rattle.laws.specs.Limit.{room};
ghost use Rattle.laws.specs.Run.{Outcome, alive, live, run, last_at};
ghost use Rattle.weights.specs.Weights.{per_byte};
ghost use Rattle.single.specs.Answers.{ran_by, closed_by};
ghost use Rattle.single.specs.Before.{ascii_before, ascii_pair_at};
ghost use Rattle.single.specs.Fit.{Fit, fit_b};
ghost use Rattle.single.specs.Lent.{Sized, sized_b};
ghost use Rattle.single.specs.Lists.{lists};
ghost use Rattle.single.specs.Lent.{Lent as Lists};
ghost use Rattle.single.specs.Steps.{Steps, IsSound, Starts};

use crate::Lent;
use laws::{Ran, Reason, Stop};

// A record that says of the byte before a part whether it is ASCII. It is a trait of its own, since the step of a SingleByte calls
// its functions.
pub trait AsciiBefore: Copy {
    ghost prev_ascii: { Self → Bool };

    fn prev_ascii(self) -> bool
        ensures { result ≡ prev_ascii self };

    // Whether the byte before byte i of a part is ASCII; the record has it of the byte before the part.
    final fn ascii_before(self, part: &[u8], i: usize) -> bool
        requires { i ≤ length part.now }
        ensures { result ≡ ascii_before part.now i (prev_ascii self) }
    {
        if i == 0 {
            return self.prev_ascii();
        }
        octets::is_ascii(part[i - 1])
    }

    // Whether byte i of a part and the one before are both ASCII.
    final fn is_ascii_pair(self, part: &[u8], i: usize) -> bool
        requires { i < length part.now }
        ensures { result ≡ ascii_pair_at part.now i (prev_ascii self) }
    {
        crate::is_ascii_pair(self.ascii_before(part, i), part[i])
    }
}

// What a kind of single-byte machine knows of one byte.
pub trait SingleByte: Copy {
    // What a byte does.
    ghost step_of: { Lists → Self → ℕ → Outcome Self };

    // Whether no bound of so many bytes excludes the record.
    ghost Sound: { ℕ → Self → Type 0 };

    ghost sound_b: { ℕ → Self → Bool };

    // The record at byte i of a part, of what the step before has left.
    ghost noted: { List ℕ → ℕ → Self → Self };

    // What besides is known at byte i of what the step before has left.
    ghost Rests: { Lists → ℕ → Self → Type 0 };

    fn is_sound_for(self, n: u64) -> bool
        ensures { result ≡ sound_b n self };

    // The same record: said again so that no read in the loop is tested.
    fn again(self) -> Self
        requires { Sound room self }
        ensures { result ≡ self };

    // It is asked at the part's end too, where there is no byte: so a part and an offset in it stay two parameters, here and below.
    fn noted(self, part: &[u8], i: usize) -> Self
        requires { i ≤ length part.now }
        ensures { result ≡ noted part.now i self };

    // Byte i of a part; none where its class is 255. The kinds' steps read alike, but one for all would take what each kind's own
    // functions promise into this trait, to spare eight lines.
    fn step(self, part: &[u8], i: usize, lent: &Lent) -> Option<(Self, i64)>
        requires sized { Sized (lists lent.now) }
        requires i_in_bounds { i < length part.now }
        requires sound { Sound (2 * room) (noted part.now i self) }
        requires rests { Rests (lists lent.now) i self }
        ensures { Steps step_of noted Rests (lists lent.now) part.now i self result };

    // What holds of a record is kept by a step, and the test decides it.
    ghost sound: { IsSound step_of Sound sound_b };

    // At a part's start the record is as it stands.
    ghost starts: { Starts noted Rests };
}

// Whether all that is lent has its length.
#[tactic(auto, unfolding(crate::specs::Lent::sized_b))]
fn is_sized(lent: &Lent) -> bool
    ensures { result ≡ sized_b (lists lent.now) }
{
    lent.classes.len() == lengths::CLASSES
        && (lent.marks.len() == lengths::MARKS
            && (lent.pairs.len() == lengths::PAIRS && lent.weights.len() == lengths::WEIGHTS))
}

// The test at the entry of a public call.
#[tactic(auto, unfolding(crate::specs::Fit::fit_b))]
fn is_fit(sound: bool, bytes: usize, lent: &Lent) -> bool
    ensures { result ≡ fit_b (lists lent.now) sound bytes }
{
    is_sized(lent) && (sound && bytes <= lengths::MOST)
}

fn run_fit<M: SingleByte>(machine: M, part: &[u8], lent: &Lent) -> Ran<M>
    requires { Fit (lists lent.now) (M.Sound room machine) (length part.now) }
    ensures value { result ≡ answered (last_at (M.step_of (lists lent.now)) (alive machine) part.now) (run (M.step_of (lists lent.now)) (alive machine) part.now) }
    ensures bounded { BoundedBy (per_byte * length part.now) result }
{
    let mut m = machine;
    let mut score: i64 = 0;
    for i in 0..part.len() {
        let Some(found) = m.step(part, i, lent) else {
            return Err(Stop::Dropped(Reason::Class255, i));
        };
        m = found.0;
        score += found.1;
    }
    Ok((m.noted(part, part.len()), score))
}

// A part of a chunk, byte after byte.
pub fn run<M: SingleByte>(machine: M, part: &[u8], lent: &Lent) -> Ran<M>
    ensures value { result ≡ ran_by M.step_of (M.sound_b room) (lists lent.now) machine part.now }
    ensures bounded { BoundedBy (per_byte * length part.now) result }
{
    if is_fit(machine.is_sound_for(lengths::ROOM), part.len(), lent) {
        return run_fit(
            machine.again(),
            part,
            &Lent {
                classes: lent.classes,
                marks: &lent.marks[0..lengths::MARKS],
                pairs: &lent.pairs[0..lengths::PAIRS],
                weights: &lent.weights[0..lengths::WEIGHTS],
            },
        );
    }
    Err(Stop::Unfit)
}

// The end of the stream: it counts as a space.
pub fn close<M: SingleByte>(machine: M, lent: &Lent) -> Ran<M>
    ensures value { result ≡ closed_by M.step_of (M.sound_b room) (lists lent.now) machine }
    ensures bounded { BoundedBy per_byte result }
{
    run(machine, b" ", lent)
}
