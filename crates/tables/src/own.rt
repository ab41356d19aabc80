// One place's own tables: a table that the place does not have is empty.

#[derive(Clone, Copy)]
pub struct Own<'a> {
    pub classes: &'a [u8],
    pub marks: &'a [u8],
    pub pairs: &'a [i16],
    pub index: &'a [u32],
    pub extras: &'a [i16],
    pub weights: &'a [i32],
}
