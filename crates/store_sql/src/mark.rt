//! The mark of a database: a file beside it with the count of its last change that was synced. A log that is lost or cut
//! leaves a database with fewer changes.

use std::fs::{File, OpenOptions};
use std::io;
use std::os::unix::fs::{FileExt, OpenOptionsExt};
use thiserror::Error;

/// The bytes of a mark: twenty digits and a line feed.
const LEN: usize = 21;

/// Who may read and write a mark: its owner alone, as the database.
const MODE: u32 = 0o600;

/// Why a database isn't taken, by its mark.
#[derive(Clone, Copy, Debug, PartialEq, Eq, Drop, Error)]
pub enum MarkFault {
    #[error("out of memory")]
    NoMemory,
    /// The file of the mark can't be opened, read or written.
    #[error("the mark can't be opened")]
    CannotOpen,
    /// The file of the mark has no count.
    #[error("the mark has no count")]
    NoCount,
    /// So many changes that were synced are not on record.
    #[error("the log lacks {0} changes")]
    Lost(u64),
}

impl From<io::Error> for MarkFault {
    fn from(error: io::Error) -> MarkFault {
        match error.kind() {
            io::ErrorKind::OutOfMemory => MarkFault::NoMemory,
            _ => MarkFault::CannotOpen,
        }
    }
}

/// The file of a mark.
#[derive(Drop)]
pub struct Mark {
    file: File,
}

impl Mark {
    /// Opens the mark at a path, or makes it, for a database with so many changes on record. Where its count is greater, or
    /// it has none, it is refused, unless the loss is accepted. It then has the count of the database.
    pub fn open(
        rt: &HostRuntime,
        path: &str,
        changes: u64,
        accepts_loss: bool,
    ) -> Result<Mark, MarkFault> {
        let file = OpenOptions::new()
            .read(true)
            .write(true)
            .create(true)
            .mode(MODE)
            .open(rt, path)?;
        let mark = Mark { file };
        if !accepts_loss {
            mark.check(changes)?;
        }
        mark.write(changes)?;
        mark.file.sync_all()?;
        Ok(mark)
    }

    /// Refuses a count that is greater, and a file with anything but a count. One that is shorter is new: its first count
    /// was cut, as by a stop.
    fn check(&self, changes: u64) -> Result<(), MarkFault> {
        if self.file.metadata()?.len() < LEN as u64 {
            return Ok(());
        }
        let mut bytes = [0; LEN];
        if self.file.read_exact_at(&mut bytes, 0).is_err() {
            return Err(MarkFault::NoCount);
        }
        match count_in(&bytes) {
            Some(count) if count > changes => Err(MarkFault::Lost(count.saturating_sub(changes))),
            Some(_) => Ok(()),
            None => Err(MarkFault::NoCount),
        }
    }

    fn write(&self, changes: u64) -> io::Result<()> {
        self.file.write_all_at(&bytes_of(changes), 0)
    }

    /// Puts how many changes are on record. Where that can't be written, a later loss is found from the count that was
    /// written last.
    pub(crate) fn put(&self, changes: u64) {
        let _kept = self.write(changes);
    }
}

/// The count in the bytes of a mark.
fn count_in(bytes: &[u8]) -> Option<u64> {
    let (last, digits) = bytes.split_last()?;
    if *last != b'\n' {
        return None;
    }
    let mut count = 0_u64;
    for digit in digits {
        if !digit.is_ascii_digit() {
            return None;
        }
        count = count
            .checked_mul(10)?
            .checked_add(u64::from(digit.wrapping_sub(b'0')))?;
    }
    Some(count)
}

/// The bytes of a count.
fn bytes_of(count: u64) -> [u8; LEN] {
    let mut bytes = [b'\n'; LEN];
    let mut rest = count;
    for digit in bytes[..LEN - 1].iter_mut().rev() {
        *digit = b'0'.wrapping_add((rest % 10) as u8);
        rest /= 10;
    }
    bytes
}
