// The test at the entry of a run over a lent index.
ghost use Rattle.std.specs.Prelude.{◌≡◌};
ghost use Rattle.entries.specs.Ready.{ready_b};

// Whether a record that is sound, or not, can be run over a part with an index that must have so many entries.
#[tactic(auto, unfolding(crate::specs::Ready::ready_b))]
pub fn is_ready(sound: bool, count: usize, index: &[u32], part: &[u8]) -> bool
    ensures { result ≡ ready_b sound count index.now part.now }
{
    sound && (index.len() == count && part.len() <= lengths::MOST)
}
