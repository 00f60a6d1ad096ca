//! Where an expression is asked.
use hc_addr::Addr;
use hc_model::Caller;

/// What stands for the query in an expression: its slot, or any text.
#[derive(Clone, Copy)]
pub enum Query {
    Own,
    Any,
}

/// What all requests of a set have in common where an expression is asked, and the client where all have one.
#[derive(Clone, Copy)]
pub struct Scene<'s> {
    pub caller: &'s Caller,
    pub query: Query,
    pub client: Option<Addr>,
    /// How many states the cells of branches may have together.
    pub room: u64,
}
