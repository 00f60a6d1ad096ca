/// The name by which a file is asked for.
#[derive(Clone, Copy)]
pub enum Leaf {
    /// The name that it is listed by.
    Listed,
    /// One that the first text of a directory rewrites to that name.
    Rewritten,
}

/// A line of a script. Directories, files and texts go by their numbers.
#[derive(Clone, Copy)]
pub enum Step {
    /// The main file is put.
    Main,
    /// A file of a directory is listed.
    File {
        directory: u64,
        file: u64,
    },
    /// A directory gets a text.
    Override {
        directory: u64,
        text: u64,
    },
    /// A file of a directory is asked for.
    Ask {
        directory: u64,
        leaf: Leaf,
        file: u64,
    },
}
