// EUC-KR: the scoring machine over what the Standard's decoder yields.
#![tactic(auto)]

ghost use Rattle.std.specs.Prelude.{◌≡◌, true, ◌*◌, ◌≤◌, ◌<◌, nat_abs, length, None};
ghost use Rattle.laws.specs.Answer.{answered, BoundedBy};
ghost use Rattle.laws.specs.Run.{alive, run, last_at};
ghost use Rattle.pairs.specs.Pairs.{SmallHeld};
ghost use Rattle.laws.specs.Limit.{limit, room};
ghost use Rattle.weights.specs.Weights.{term, per_byte};
ghost use Rattle.lengths.specs.Lengths.{euc_kr_count, extra_count};
ghost use Rattle.euckr.specs.Scoring.{scale_of, extra_of, is_euc, is_hangul, is_hanja, hangul_after, hanja_after, letter_after, long_of, holds_of, scored, letter_of, around_of, inner_of, outer_of, hangul_of, hanja_of, other_of, unit_of, is_user_pair, is_mac_lead, is_mac_symbol, is_extension, is_lone, extension_of, after_byte, pending_of, stray_of, error_of, lent, fresh, step_of};
ghost use Rattle.euckr.specs.EucKr.{Sound, sound_b, SmallScale, out_of, Gives, Slight, Weighed, lent_b, ready_b, ran_of, closed_of};
ghost use Rattle.euckr.specs.declared.LatinKorean.TheVariants.{Other};

use laws::{Ran, Reason, Stop};
use pairs::Event;

// The kind of what came before.
#[derive(Clone, Copy, PartialEq, Eq)]
pub enum LatinKorean {
    AsciiLetter,
    Hangul,
    Hanja,
    Other,
}

#[derive(Clone, Copy, PartialEq, Eq)]
pub struct EucKr {
    pub lead: u8,
    pub prev_byte: u8,
    pub prev_was_euc_range: bool,
    pub prev: LatinKorean,
    pub current_word_len: u64,
    pub held: Option<i64>,
}

// What one byte gives: the record and by how much the score changes; none where the machine drops out.
type Stepped = Option<(EucKr, i64)>;

// The weights that this machine uses: `outer` of a Hangul outside the EUC range, `mixed` of a Hanja after a Hangul, `long` of
// a long word. That they are of 32 bits is asked by each function and no ghost field, as in big5: the theorems speak of every scale.
#[derive(Clone, Copy)]
struct Scale {
    adjacency: i64,
    other: i64,
    hangul: i64,
    outer: i64,
    hanja: i64,
    mixed: i64,
    pua: i64,
    mac: i64,
    extension: i64,
    long: i64,
}

// What a byte makes of a record, but for its lead, its previous byte and the range of that.
#[derive(Clone, Copy)]
struct Scored {
    prev: LatinKorean,
    word: u64,
    held: Option<i64>,
    gain: i64,
}

// ---- what the tests of a byte or a unit say
// EUC's range: the pairs of KS X 1001 have both bytes in it, those that code page 949 adds have not.
fn is_euc(b: u8) -> bool
    ensures { result ≡ is_euc b }
{
    matches!(b, 0xA1..=0xFE)
}

fn is_hangul(u: u32) -> bool
    ensures { result ≡ is_hangul u }
{
    matches!(u, 0xAC00..=0xD7A3)
}

// The unified ideographs and on to the Hangul, and the compatibility ones of KS X 1001.
fn is_hanja(u: u32) -> bool
    ensures { result ≡ is_hanja u }
{
    matches!(u, 0x4E00..=0xABFF | 0xF900..=0xFA0B)
}

// The extra of a Hangul.
fn extra(extras: &[i16], u: u32) -> i64
    requires extras_len { length extras.now ≡ extra_count }
    requires u_value { is_hangul u ≡ true }
    ensures value { result ≡ extra_of extras.now u }
    ensures result_bound { nat_abs result ≤ term }
{
    extras[(u - 0xAC00) as usize] as i64
}

impl Scale {
    fn read(weights: &[i32]) -> Scale
        ensures value { result ≡ scale_of weights.now }
        ensures small_scale { SmallScale result }
    {
        Scale {
            adjacency: weights::weight(weights, weights::CJK_LATIN_ADJACENCY),
            other: weights::weight(weights, weights::CJK_OTHER),
            hangul: weights::weight(weights, weights::EUC_HANGUL),
            outer: weights::weight(weights, weights::NON_EUC_HANGUL),
            hanja: weights::weight(weights, weights::HANJA),
            mixed: weights::weight(weights, weights::HANJA_AFTER_HANGUL),
            pua: weights::weight(weights, weights::EUC_KR_PUA),
            mac: weights::weight(weights, weights::MAC_KOREAN),
            extension: weights::weight(weights, weights::EUC_KR_EXTENSION),
            long: weights::weight(weights, weights::LONG_WORD),
        }
    }

    // What a Hangul adds that stands after this kind.
    fn hangul_after(self, prev: LatinKorean) -> i64
        ensures { result ≡ hangul_after self prev }
    {
        match prev {
            LatinKorean::AsciiLetter => self.adjacency,
            LatinKorean::Hangul => 0,
            LatinKorean::Hanja => 0,
            LatinKorean::Other => 0,
        }
    }

    // What a Hanja adds that stands after this kind.
    fn hanja_after(self, prev: LatinKorean) -> i64
        ensures { result ≡ hanja_after self prev }
    {
        match prev {
            LatinKorean::AsciiLetter => self.adjacency,
            LatinKorean::Hangul => self.mixed,
            LatinKorean::Hanja => 0,
            LatinKorean::Other => 0,
        }
    }

    // What a letter adds that stands after this kind.
    fn letter_after(self, prev: LatinKorean) -> i64
        ensures { result ≡ letter_after self prev }
    {
        match prev {
            LatinKorean::AsciiLetter => 0,
            LatinKorean::Hangul => self.adjacency,
            LatinKorean::Hanja => self.adjacency,
            LatinKorean::Other => 0,
        }
    }

    // What a word of Hangul and Hanja adds that has become this long: it is long from the sixth on.
    fn of_word(self, word: u64) -> i64
        ensures { result ≡ long_of self word }
    {
        if 5 < word {
            return self.long;
        }
        0
    }
}

impl EucKr {
    // How many entries its index has.
    pub const INDEX: usize = lengths::EUC_KR;

    // How many extras there are, one for each Hangul.
    pub const EXTRAS: usize = lengths::EXTRAS;

    pub fn fresh() -> EucKr
        ensures { result ≡ fresh }
    {
        EucKr {
            lead: 0,
            prev_byte: 0,
            prev_was_euc_range: false,
            prev: LatinKorean::Other,
            current_word_len: 0,
            held: None,
        }
    }

    // Whether the score of a Hangul outside the EUC range waits for what follows.
    fn holds(self) -> bool
        ensures { result ≡ holds_of self }
    {
        let prev = self.prev;
        match prev {
            LatinKorean::AsciiLetter => pairs::is_held_lead(self.prev_byte),
            LatinKorean::Hangul => false,
            LatinKorean::Hanja => pairs::is_held_lead(self.prev_byte),
            LatinKorean::Other => pairs::is_held_lead(self.prev_byte),
        }
    }

    // A letter discards what is held.
    fn letter(self, w: Scale) -> Scored
        ensures { result ≡ letter_of w self }
    {
        let prev = self.prev;
        let gain = w.letter_after(prev);
        Scored {
            prev: LatinKorean::AsciiLetter,
            word: 0,
            held: None,
            gain,
        }
    }

    // What a Hangul adds besides its own score: what is held, its neighbour, its word.
    fn around_hangul(self, w: Scale) -> i64
        requires small_scale { SmallScale w }
        requires small_held { SmallHeld self.held }
        requires current_word_len_bound { self.current_word_len ≤ 2 * room }
        ensures { result ≡ around_of w self }
    {
        let prev = self.prev;
        pairs::released(self.held) + w.hangul_after(prev) + w.of_word(self.current_word_len + 1)
    }

    // A Hangul of two bytes in the EUC range is one of KS X 1001 and has an extra of its own.
    fn inner_hangul(self, extra: i64, w: Scale) -> Scored
        requires small_scale { SmallScale w }
        requires small_held { SmallHeld self.held }
        requires current_word_len_bound { self.current_word_len ≤ 2 * room }
        requires extra_bound { nat_abs extra ≤ term }
        ensures { result ≡ inner_of w self extra }
    {
        Scored {
            prev: LatinKorean::Hangul,
            word: self.current_word_len + 1,
            held: None,
            gain: self.around_hangul(w) + w.hangul + extra,
        }
    }

    // Any other is one that code page 949 adds: its score may be held.
    fn outer_hangul(self, w: Scale) -> Scored
        requires small_scale { SmallScale w }
        requires small_held { SmallHeld self.held }
        requires current_word_len_bound { self.current_word_len ≤ 2 * room }
        ensures { result ≡ outer_of w self }
    {
        let gain = self.around_hangul(w);
        if self.holds() {
            return Scored {
                prev: LatinKorean::Hangul,
                word: self.current_word_len + 1,
                held: Some(w.outer),
                gain,
            };
        }
        Scored {
            prev: LatinKorean::Hangul,
            word: self.current_word_len + 1,
            held: None,
            gain: gain + w.outer,
        }
    }

    fn hangul(self, u: u32, b: u8, extras: &[i16], w: Scale) -> Scored
        requires small_scale { SmallScale w }
        requires small_held { SmallHeld self.held }
        requires current_word_len_bound { self.current_word_len ≤ 2 * room }
        requires extras_len { length extras.now ≡ extra_count }
        requires u_value { is_hangul u ≡ true }
        ensures value { result ≡ hangul_of w self extras.now u b }
        ensures gain_bound { nat_abs result.gain ≤ per_byte }
    {
        if self.prev_was_euc_range {
            if is_euc(b) {
                return self.inner_hangul(extra(extras, u), w);
            }
        }
        self.outer_hangul(w)
    }

    // A Hanja, or a pair that counts as one.
    fn hanja(self, own: i64, w: Scale) -> Scored
        requires small_scale { SmallScale w }
        requires small_held { SmallHeld self.held }
        requires current_word_len_bound { self.current_word_len ≤ 2 * room }
        requires own_bound { nat_abs own ≤ term }
        ensures { result ≡ hanja_of w self own }
    {
        let prev = self.prev;
        let word = self.current_word_len + 1;
        Scored {
            prev: LatinKorean::Hanja,
            word,
            held: None,
            gain: pairs::released(self.held) + own + w.hanja_after(prev) + w.of_word(word),
        }
    }

    // Anything else that is no ASCII: what is held is released, and its own score added.
    fn other(self, own: i64) -> Scored
        requires small_held { SmallHeld self.held }
        requires own_bound { nat_abs own ≤ term }
        ensures { result ≡ other_of self own }
    {
        Scored {
            prev: LatinKorean::Other,
            word: 0,
            held: None,
            gain: pairs::released(self.held) + own,
        }
    }

    fn unit(self, u: u32, b: u8, extras: &[i16], w: Scale) -> Scored
        requires small_scale { SmallScale w }
        requires small_held { SmallHeld self.held }
        requires current_word_len_bound { self.current_word_len ≤ 2 * room }
        requires extras_len { length extras.now ≡ extra_count }
        ensures value { result ≡ unit_of w extras.now self u b }
        ensures gain_bound { nat_abs result.gain ≤ per_byte }
    {
        if pairs::is_letter(u) {
            return self.letter(w);
        }
        if is_hangul(u) {
            return self.hangul(u, b, extras, w);
        }
        if is_hanja(u) {
            return self.hanja(w.hanja, w);
        }
        if u < 0x80 {
            return plain(0);
        }
        self.other(w.other)
    }
}

// What is held is discarded, and the kind is Other.
fn plain(gain: i64) -> Scored
    ensures { result ≡ scored Other 0 None gain }
{
    Scored {
        prev: LatinKorean::Other,
        word: 0,
        held: None,
        gain,
    }
}

// Whether the byte before and this one are a pair that code page 949 leaves to its users: the rows C9 and FE.
fn is_user_pair(prev_byte: u8, b: u8) -> bool
    ensures { result ≡ is_user_pair prev_byte b }
{
    matches!(prev_byte, 0xC9 | 0xFE) && is_euc(b)
}

// Leads with which MacKorean has symbols besides those of KS X 1001.
fn is_mac_lead(b: u8) -> bool
    ensures { result ≡ is_mac_lead b }
{
    matches!(b, 0xA1 | 0xA3..=0xA8 | 0xAA..=0xAD)
}

// Whether they are such a symbol: its second byte is no trail byte of code page 949.
fn is_mac_symbol(prev_byte: u8, b: u8) -> bool
    ensures { result ≡ is_mac_symbol prev_byte b }
{
    matches!(b, 0x7B..=0x7D) && is_mac_lead(prev_byte)
}

// Whether the byte before is a single byte of MacKorean where it stands before ASCII, 80 or FF. It is a lead too.
fn is_extension(prev_byte: u8) -> bool
    ensures { result ≡ is_extension prev_byte }
{
    matches!(prev_byte, 0x81..=0x84)
}

// The single bytes of MacKorean that are no leads.
fn is_lone(b: u8) -> bool
    ensures { result ≡ is_lone b }
{
    matches!(b, 0x80 | 0xFF)
}

// An extension byte with the byte after it: ASCII, or an extension too.
fn extension(b: u8, w: Scale) -> Scored
    requires { SmallScale w }
    ensures { result ≡ extension_of w b }
{
    if is_lone(b) {
        return plain(w.extension + w.extension);
    }
    if octets::is_ascii_letter(b) {
        return Scored {
            prev: LatinKorean::AsciiLetter,
            word: 0,
            held: None,
            gain: w.extension,
        };
    }
    plain(w.extension)
}

// The record after a byte.
fn after_byte(lead: u8, b: u8, s: Scored) -> Stepped
    ensures { Gives result (after_byte lead b s) }
{
    let prev = s.prev;
    Some((
        EucKr {
            lead,
            prev_byte: b,
            prev_was_euc_range: is_euc(b),
            prev,
            current_word_len: s.word,
            held: pairs::kept(s.held),
        },
        s.gain,
    ))
}

impl EucKr {
    // An error that is neither a pair nor a symbol: an extension, or the machine drops out.
    fn stray(self, lead: u8, b: u8, size: u8, w: Scale) -> Stepped
        requires { SmallScale w }
        ensures { out_of self.lead result ≡ stray_of w self lead b size }
    {
        if is_extension(self.prev_byte) {
            if b < 0x80 {
                return after_byte(lead, b, extension(b, w));
            }
            if is_lone(b) {
                return after_byte(lead, b, extension(b, w));
            }
        }
        if size == 1 {
            if is_lone(b) {
                return after_byte(lead, b, plain(w.extension));
            }
        }
        None
    }

    fn error(self, lead: u8, b: u8, size: u8, w: Scale) -> Stepped
        requires small_scale { SmallScale w }
        requires small_held { SmallHeld self.held }
        requires current_word_len_bound { self.current_word_len ≤ 2 * room }
        ensures { out_of self.lead result ≡ error_of w self lead b size }
    {
        if is_user_pair(self.prev_byte, b) {
            return after_byte(lead, b, self.hanja(w.pua, w));
        }
        if is_mac_symbol(self.prev_byte, b) {
            return after_byte(lead, b, self.other(w.mac));
        }
        self.stray(lead, b, size, w)
    }

    // A lead changes nothing else.
    fn pending(self, lead: u8, b: u8) -> Stepped
        ensures { out_of self.lead result ≡ pending_of self lead b }
    {
        let prev = self.prev;
        Some((
            EucKr {
                lead,
                prev_byte: b,
                prev_was_euc_range: is_euc(b),
                prev,
                current_word_len: self.current_word_len,
                held: pairs::kept(self.held),
            },
            0,
        ))
    }

    fn step(self, b: u8, index: &[u32], extras: &[i16], w: Scale) -> Stepped
        requires small_scale { SmallScale w }
        requires sound { Sound (2 * room) self }
        requires index_len { length index.now ≡ euc_kr_count }
        requires extras_len { length extras.now ≡ extra_count }
        ensures result_value { out_of self.lead result ≡ step_of (lent index.now extras.now w) self b }
        ensures slight { Slight (out_of self.lead result) }
    {
        let d = euckr_decoder::decode(self.lead, b, index);
        let event = d.event;
        match event {
            Event::Pending => self.pending(d.lead, b),
            Event::Point(point) => after_byte(d.lead, b, self.unit(point, b, extras, w)),
            Event::Two(first, _) => after_byte(d.lead, b, self.unit(first, b, extras, w)),
            Event::Error(size) => self.error(d.lead, b, size, w),
        }
    }

    fn run_fit(self, part: &[u8], index: &[u32], extras: &[i16], w: Scale) -> Ran<EucKr>
        requires small_scale { SmallScale w }
        requires sound { Sound room self }
        requires part_len_bound { length part.now ≤ limit }
        requires index_len { length index.now ≡ euc_kr_count }
        requires extras_len { length extras.now ≡ extra_count }
        ensures value { result ≡ answered (last_at (step_of (lent index.now extras.now w)) (alive self) part.now) (run (step_of (lent index.now extras.now w)) (alive self) part.now) }
        ensures bounded { BoundedBy (per_byte * length part.now) result }
    {
        let mut m = self;
        let mut s: i64 = 0;
        for i in 0..part.len() {
            let Some(found) = m.step(part[i], index, extras, w) else {
                return Err(Stop::Dropped(pairs::reason(m.lead), i));
            };
            m = found.0;
            s += found.1;
        }
        let prev = m.prev;
        Ok((
            EucKr {
                lead: m.lead,
                prev_byte: m.prev_byte,
                prev_was_euc_range: m.prev_was_euc_range,
                prev,
                current_word_len: m.current_word_len,
                held: pairs::kept(m.held),
            },
            s,
        ))
    }

    // Whether no bound of `bytes` bytes excludes the record.
    pub fn is_sound_for(self, bytes: u64) -> bool
        ensures { result ≡ sound_b bytes self }
    {
        pairs::is_lead_or_none(self.lead)
            && (self.current_word_len <= bytes && pairs::is_small(self.held))
    }

    pub fn run(self, part: &[u8], index: &[u32], extras: &[i16], weights: &[i32]) -> Ran<EucKr>
        ensures value { result ≡ ran_of index.now extras.now weights.now self part.now }
        ensures bounded { BoundedBy (per_byte * length part.now) result }
        ensures weighed { Weighed weights.now result }
    {
        if is_ready(self, part, index, extras, weights) {
            return self.run_fit(part, index, extras, Scale::read(weights));
        }
        Err(Stop::Unfit)
    }

    // The end of the stream: none where a lead is pending, at no byte. A held score counts nothing, and stays.
    pub fn close(self) -> Ran<EucKr>
        ensures { result ≡ closed_of self }
    {
        if self.is_sound_for(lengths::ROOM) {
            if self.lead == 0 {
                return Ok((self, 0));
            }
            return Err(Stop::Dropped(Reason::CutAtClose, 0));
        }
        Err(Stop::Unfit)
    }
}

// Whether the lent lengths are exact.
fn is_lent(index: &[u32], extras: &[i16], weights: &[i32]) -> bool
    ensures { result ≡ lent_b index.now extras.now weights.now }
{
    index.len() == EucKr::INDEX
        && (extras.len() == EucKr::EXTRAS && weights.len() == lengths::WEIGHTS)
}

// Whether all is in order for a run.
fn is_ready(m: EucKr, part: &[u8], index: &[u32], extras: &[i16], weights: &[i32]) -> bool
    ensures { result ≡ ready_b index.now extras.now weights.now m part.now }
{
    m.is_sound_for(lengths::ROOM)
        && (part.len() <= lengths::MOST && is_lent(index, extras, weights))
}
