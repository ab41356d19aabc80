// How long each lent table is, and a stream at most: the numbers that the code knows, each once. `specs/Lengths.antt` and
// the limit of `laws` have them for the definitions.
#![tactic(auto)]

pub const CLASSES: usize = 256;

pub const MARKS: usize = 128;

pub const PAIRS: usize = 16_384;

pub const BIG5: usize = 19_782;

pub const EUC_KR: usize = 23_940;

pub const JIS: usize = 11_280;

pub const EXTRAS: usize = 11_172;

pub const WEIGHTS: usize = 17;

// Bytes of a stream at most, and so of a part of it.
pub const LIMIT: u64 = 268_435_456;

pub const MOST: usize = LIMIT as usize;

// A count at the entry of a call is at most this, so that no run makes it wrap.
pub const ROOM: u64 = 4_611_686_018_427_387_904;
