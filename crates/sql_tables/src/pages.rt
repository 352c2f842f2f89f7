//! Pages of rows.

/// The most rows that a page has, as the texts say.
pub const PAGE_ROWS: usize = 256;
