use hc_base::{List, Text};

/// Where the reading stands (Apache manual, core, Include).
#[derive(Drop)]
pub struct Around {
    /// The file that is read.
    pub file: Text,
    /// The files around it, the main file first, and itself last.
    pub chain: List<Text>,
    /// How many more files may stand within each other.
    pub room: u32,
}
