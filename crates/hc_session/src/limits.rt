/// A line of a script has fewer bytes than this without its LF.
pub const LINE_LIMIT: usize = 16_777_216;

/// A script has fewer bytes than this.
pub const SCRIPT_LIMIT: usize = 1_073_741_824;

/// At most so many bytes are read at once.
pub const CHUNK: usize = 16_384;

/// At most so many answers are kept.
pub const KEPT_ANSWERS: usize = 4096;

/// The status of a request that is forbidden.
pub const FORBIDDEN: u16 = 403;

/// A `follow` is answered up to so many asks, so that no count of them overflows.
pub const MOST_ASKS: u64 = 18_446_744_073_709_551_594;
