//! Batches of changes, each one transaction.

pub const BEGIN: &str = "BEGIN";

pub const COMMIT: &str = "COMMIT";

pub const ROLLBACK: &str = "ROLLBACK";

/// Begins a change of a batch.
pub const SAVEPOINT: &str = "SAVEPOINT change";

/// Ends it, with what it has made.
pub const RELEASE: &str = "RELEASE change";

/// Undoes what it has made so far.
pub const ROLLBACK_TO: &str = "ROLLBACK TO change";
