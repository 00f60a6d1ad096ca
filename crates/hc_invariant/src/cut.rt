use hc_base::Text;

/// Where a part of the way of a request begins: with a pass, or with a further round of a list of rules.
#[derive(Drop)]
pub enum Cut {
    Pass,
    /// The list of the server.
    Server,
    /// The list of the directory at this path.
    Dir(Text),
}
