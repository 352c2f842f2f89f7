//! Bounds of what is looked up.

/// A blob, which SQLite orders after each number and each text.
pub(crate) const ABOVE_ALL: &[u8] = &[];
