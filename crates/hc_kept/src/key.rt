use hc_model::Allowed;

/// A directory, and what is allowed there. Few directories are kept more than once, so that only they are hashed.
#[derive(PartialEq, Eq, Drop)]
#[derive_where(Hash)]
pub(crate) struct FileKey {
    pub(crate) dir: Vec<u8>,
    #[derive_where(skip(Hash))]
    pub(crate) allowed: Allowed,
}
