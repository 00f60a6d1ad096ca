//! Jumps: what is asked of a request, and where the answers lead.
use hc_addr::Net;
use hc_model::{Regex, Template};

/// What is asked of a request.
#[derive(Clone, Copy)]
pub enum Leaf<'x> {
    /// Nothing: it holds, or it doesn't.
    Always(bool),
    /// Whether two texts are equal.
    Same(&'x Template, &'x Template),
    /// Whether a pattern is found in a text.
    Search(&'x Template, &'x Regex),
    /// Whether a text is an address of a network.
    Within(&'x Template, Net),
}

/// Where a jump leads.
#[derive(Clone, Copy)]
pub enum Target {
    /// The expression holds, or it doesn't.
    Over(bool),
    /// So many of the jumps behind it are left out.
    Behind(usize),
}

/// Whether what is asked counts as its opposite, and where it leads if it holds so, and if it doesn't.
#[derive(Clone, Copy)]
pub struct Lead {
    pub negated: bool,
    pub yes: Target,
    pub no: Target,
}

/// What is asked, and where it leads.
#[derive(Clone, Copy)]
pub struct Jump<'x> {
    pub leaf: Leaf<'x>,
    pub lead: Lead,
}
