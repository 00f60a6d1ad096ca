/// What is asked of ranks and rounds at a server.
#[derive(Clone, Copy)]
pub(crate) struct Bounds {
    /// A request has so many passes at most.
    pub passes: u64,
    /// The server's list of rules shrinks.
    pub shrinks: bool,
}
