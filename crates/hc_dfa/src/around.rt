/// What stands before a text and behind it, and how many of its own first bytes are left out.
#[derive(Clone, Copy)]
pub struct Between<'b> {
    pub before: &'b [u8],
    pub skip: usize,
    pub after: &'b [u8],
}
