//! Why a database isn't taken.
ghost use Rattle.std.specs.Prelude.{IfErr, OnErr, OnOk, IsErr, IsOk};
ghost use Rattle.store_sql.specs.Faults.{IsFailure};

use hub_rows::StoreFault;
use sqlite::{Error, ErrorCode};
use std::alloc::AllocError;
use thiserror::Error as ThisError;

/// Why a database isn't taken. Nothing in it has changed, but where the disk failed on the way, or where the count of
/// changes can't be read once the database has all tables of this schema.
#[derive(Clone, Copy, Debug, PartialEq, Eq, Drop, ThisError)]
pub enum PrepareFault {
    #[error("out of memory")]
    NoMemory,
    /// No file can be opened or made at the path.
    #[error("the file can't be opened")]
    CannotOpen,
    /// Another process has the database open.
    #[error("another process has the database open")]
    InUse,
    /// The disk failed, or a row can't be read.
    #[error("the database failed")]
    Failed,
    #[error("the disk is full")]
    Full,
    #[error("a page of the file is damaged")]
    Damaged,
    /// Its first page isn't that of a database, an index doesn't have the rows of its table, or a row breaks a rule of
    /// its table.
    #[error("the file is no database, or its rows don't obey its schema")]
    Unsound,
    /// Tables or indexes of the schema with its number are missing, or others stand beside them.
    #[error("the tables and indexes of the file are not those of its schema")]
    OtherSchema,
    /// It has tables, and no `hub_meta` with a row `schema` of a whole number from 1 on.
    #[error("the database is not one of this program")]
    NotOurs,
    /// A later version of the program made it: the number of its schema is greater.
    #[error("a later version of the program made the database")]
    Newer,
}

pub(crate) fn fault(error: Error) -> PrepareFault
    ensures { IsFailure result }
{
    match error {
        Error::SqliteFailure(ErrorCode::OutOfMemory) => PrepareFault::NoMemory,
        Error::SqliteFailure(ErrorCode::CannotOpen) => PrepareFault::CannotOpen,
        Error::SqliteFailure(ErrorCode::DatabaseBusy) => PrepareFault::InUse,
        Error::SqliteFailure(ErrorCode::DiskFull) => PrepareFault::Full,
        Error::SqliteFailure(ErrorCode::DatabaseCorrupt) => PrepareFault::Damaged,
        Error::SqliteFailure(ErrorCode::NotADatabase) => PrepareFault::Unsound,
        _ => PrepareFault::Failed,
    }
}

/// The same answer, with why the database is not taken.
pub(crate) fn told<A: Drop>(done: Result<A, Error>) -> Result<(), PrepareFault>
    ensures ok { OnOk result (IsOk done) }
    ensures err { OnErr result (IsErr done) }
    ensures failure { IfErr result IsFailure }
{
    match done {
        Ok(_) => Ok(()),
        Err(error) => Err(fault(error)),
    }
}

impl From<AllocError> for PrepareFault {
    ghost from_gives = { λ _ f. IsFailure f };

    fn from(_: AllocError) -> PrepareFault {
        PrepareFault::NoMemory
    }
}

impl From<StoreFault> for PrepareFault {
    ghost from_gives = { λ _ f. IsFailure f };

    fn from(fault: StoreFault) -> PrepareFault {
        match fault {
            StoreFault::NoMemory => PrepareFault::NoMemory,
            StoreFault::Failed | StoreFault::TooLong => PrepareFault::Failed,
        }
    }
}
