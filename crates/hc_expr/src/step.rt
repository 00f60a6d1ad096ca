//! The steps of an expression as it is written.
use crate::test::Test;

/// A test, or what joins the parts before it: an operator stands behind its parts, the second part before the
/// first.
#[derive(Clone, Copy)]
pub enum Step<'t> {
    Test(Test<'t>),
    /// `!`.
    Not,
    /// `&&`.
    And,
    /// `||`.
    Or,
}
