//! What a stop at each moment may leave.

use std::alloc::{AllocError, Global};

/// A commit: the moments before its call and from which on it counts, and what is committed then.
#[derive(Drop)]
struct Commit {
    before: u64,
    from: u64,
    slots: Vec<u64>,
}

/// What was committed at first, and the commits since.
#[derive(Drop)]
pub struct History {
    first: Vec<u64>,
    commits: Vec<Commit>,
}

/// The marks of slots with these bytes.
fn marks(alloc: Global, bytes: &[u8]) -> Result<Vec<u64>, AllocError> {
    let mut marks = Vec::new(alloc);
    for byte in bytes {
        marks.push(u64::from(*byte))?;
    }
    Ok(marks)
}

impl History {
    /// Nothing was committed but these bytes.
    pub fn new(alloc: Global, bytes: &[u8]) -> Result<History, AllocError> {
        Ok(History {
            first: marks(alloc, bytes)?,
            commits: Vec::new(alloc),
        })
    }

    /// Adds a commit called after the moment `before`, which counts from the moment `from` on.
    pub fn add(
        &mut self,
        alloc: Global,
        before: u64,
        from: u64,
        bytes: &[u8],
    ) -> Result<(), AllocError> {
        self.commits.push(Commit {
            before,
            from,
            slots: marks(alloc, bytes)?,
        })?;
        Ok(())
    }

    /// Whether a stop at that moment may leave these slots: those of the last commit that counts, or of
    /// one whose call is under way or failed.
    pub fn allows(&self, moment: u64, slots: &[u64]) -> bool {
        let mut allowed = slots == self.first.as_slice();
        for commit in &self.commits {
            let same = slots == commit.slots.as_slice();
            if commit.from <= moment {
                allowed = same;
            } else if commit.before < moment {
                allowed = allowed || same;
            }
        }
        allowed
    }
}
