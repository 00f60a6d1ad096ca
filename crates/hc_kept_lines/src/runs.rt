ghost use Rattle.std.specs.Prelude.{◌≡◌, ◌≤◌, ◌++◌, length, take, drop, IfOk};
ghost use Rattle.hc_kept_lines.specs.Runs.{within};

use hc_base::NoMemory;
use std::alloc::Global;

/// What a logical line was read as where it isn't too long.
#[derive(Clone, Copy)]
pub(crate) enum Reading {
    // Blank or a comment.
    Nothing,
    // The line is said from one byte of the logical line up to and without another.
    Said { start: u32, end: u32 },
    // It has a control byte.
    Forbidden,
}

/// A logical line of a text: its bytes, its physical lines, its bytes without its end and its joins,
/// and what it was read as.
#[derive(Clone, Copy)]
pub(crate) struct KeptRun {
    pub(crate) bytes: u32,
    pub(crate) count: u32,
    pub(crate) size: u32,
    pub(crate) read: Reading,
}

/// The logical lines within the first so many bytes, other ones, and those behind the first so
/// many bytes.
pub(crate) fn with_runs(
    alloc: Global,
    runs: &[KeptRun],
    first: usize,
    last: usize,
    fresh: &[KeptRun],
) -> Result<Vec<KeptRun>, NoMemory>
    ensures { IfOk result (λ made. made.items
        ≡ take (within runs.now first) runs.now ++ fresh.now ++ drop (within runs.now last) runs.now) }
{
    let (front, _) = runs.split_at(runs_within(runs, first));
    let (_, back) = runs.split_at(runs_within(runs, last));
    let mut made = Vec::with_capacity(alloc, runs.len() + fresh.len())?;
    made.extend_from_slice(front)?;
    made.extend_from_slice(fresh)?;
    made.extend_from_slice(back)?;
    Ok(made)
}

/// The same ones.
pub(crate) fn copied(alloc: Global, runs: &[KeptRun]) -> Result<Vec<KeptRun>, NoMemory>
    ensures { IfOk result (λ made. made.items ≡ runs.now) }
{
    let mut made = Vec::with_capacity(alloc, runs.len())?;
    made.extend_from_slice(runs)?;
    Ok(made)
}

// How many of the first ones have no more than so many bytes in all.
fn runs_within(runs: &[KeptRun], bytes: usize) -> usize
    ensures value { result ≡ within runs.now bytes }
    ensures inside { result ≤ length runs.now }
{
    let mut left = bytes;
    for (index, run) in runs.iter().enumerate() {
        if left < run.bytes as usize {
            return index;
        }
        left -= run.bytes as usize;
    }
    runs.len()
}
