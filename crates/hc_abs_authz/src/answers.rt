/// The answers that may be given.
#[derive(Clone, Copy)]
pub struct Answers {
    pub yes: bool,
    pub no: bool,
}
