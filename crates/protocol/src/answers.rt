//! What accepted calls answer.

use naming::stamp::Stamp;

/// What came of a commit.
#[derive(Clone, Copy, Debug)]
pub enum CommitOutcome {
    /// The save is the key's entry now.
    Committed,
    /// The key has an entry with the same stamp or a later one: the save came too late, and its slot is idle.
    Passed,
}

/// What a fetch found in the directory.
#[derive(Clone, Copy)]
pub struct Found {
    pub stamp: Stamp,
    pub size: usize,
}

/// How many keys a listing has, and how many bytes it takes.
#[derive(Clone, Copy, Debug)]
pub struct Listed {
    pub count: usize,
    pub bytes: usize,
}
