use hc_base::Text;
use hc_model::Caller;

/// The directory whose rules run (Apache manual, mod_rewrite: RewriteRule, "Per-directory Rewrites";
/// RewriteBase).
#[derive(Clone, Copy)]
pub struct Engine<'c> {
    /// Without a final slash, but for `/`.
    pub dir: &'c Text,
    /// RewriteBase.
    pub base: Option<&'c Text>,
    /// The file name does not come from the document root.
    pub aliased: bool,
}

/// Where a list of rules runs (Apache manual, mod_rewrite; core, DocumentRoot).
#[derive(Clone, Copy)]
pub struct RwContext<'c> {
    pub caller: &'c Caller,
    /// The URL path of the pass.
    pub path: &'c Text,
    /// The document root.
    pub root: Option<&'c Text>,
    /// The query at the start of the pass.
    pub first_query: &'c Text,
    /// None where the rules of a server run.
    pub engine: Option<Engine<'c>>,
}
