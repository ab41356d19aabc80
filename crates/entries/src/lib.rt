// A lent index: an entry by its pointer, and which entries are code points.
#![tactic(auto)]

ghost use Rattle.std.specs.Prelude.{◌≡◌, get_or};
ghost use Rattle.entries.specs.Entries.{is_mapped};

pub mod ready;

// A lent entry, or 0 where there is none.
pub fn entry(index: &[u32], at: usize) -> u32
    ensures { result ≡ get_or index.now at 0 }
{
    index.get(at).copied().unwrap_or(0)
}

// Whether an entry is a code point, of an index that has plane two beside the first or not.
pub fn is_mapped(entry: u32, plane_two: bool) -> bool
    ensures { result ≡ is_mapped plane_two entry }
{
    match entry {
        0x80..=0xD7FF | 0xE000..=0xFFFF => true,
        0x2_0000..=0x2_FFFF => plane_two,
        _ => false,
    }
}
