//! What a row does to its disk between two commands.

use mem_disk::Torn;

/// What is done to the disk between two commands of a row.
#[derive(Clone, Copy)]
pub enum DiskStep {
    /// The machine stopped the given number of writes and syncs before the last one was done. Each write
    /// that was not synced by then became this; without it the disk is as it reads now.
    Crash { before: u64, torn: Option<Torn> },
    /// Another outcome of a stop of the same disk.
    Or { before: u64, torn: Option<Torn> },
    /// Of the next command one disk call fails: this one counted from the end, where 1 is the last.
    Fail { from_last: u64 },
    /// The area keeps the given number of bytes from its beginning.
    Cut { area: u64, length: u64 },
    /// Each byte of the area becomes this one.
    Fill { area: u64, value: u8 },
    /// The two areas are exchanged.
    Swap { area: u64, other: u64 },
    /// The byte of the area at that place becomes this one.
    Set { area: u64, at: u64, value: u8 },
}

/// What the words between two commands do to the disk, as `crash 1 old` or `cut 0 100`; nothing where
/// they are a command of the program.
pub fn disk_step(words: &str) -> Option<DiskStep> {
    let (word, rest) = words.split_once(' ')?;
    let (first, rest) = rest.split_once(' ').unwrap_or((rest, ""));
    let (second, third) = rest.split_once(' ').unwrap_or((rest, ""));
    let first = first.parse::<u64>().ok()?;
    match word {
        "crash" => Some(DiskStep::Crash {
            before: first,
            torn: torn(second)?,
        }),
        "or" => Some(DiskStep::Or {
            before: first,
            torn: torn(second)?,
        }),
        "fail" => Some(DiskStep::Fail { from_last: first }),
        "cut" => Some(DiskStep::Cut {
            area: first,
            length: second.parse::<u64>().ok()?,
        }),
        "fill" => Some(DiskStep::Fill {
            area: first,
            value: second.parse::<u8>().ok()?,
        }),
        "swap" => Some(DiskStep::Swap {
            area: first,
            other: second.parse::<u64>().ok()?,
        }),
        "set" => Some(DiskStep::Set {
            area: first,
            at: second.parse::<u64>().ok()?,
            value: third.parse::<u8>().ok()?,
        }),
        _ => None,
    }
}

/// What a write that was not synced became: `old`, `new`, or the byte that its range has; `seen` says
/// nothing of it.
fn torn(word: &str) -> Option<Option<Torn>> {
    match word {
        "seen" => Some(None),
        "old" => Some(Some(Torn::Old)),
        "new" => Some(Some(Torn::New)),
        _ => Some(Some(Torn::Fill(word.parse::<u8>().ok()?))),
    }
}
