//! hub_grant: grants of id tags to other operators.

/// A text with the names of all columns, in their order, between the two parts.
macro_rules! with_columns {
    ($before:literal, $after:literal) => {
        concat!($before, "op, tag_key, to_op, until", $after)
    };
}

pub const CREATE: &str =
    "CREATE TABLE hub_grant (op TEXT NOT NULL, tag_key TEXT NOT NULL, to_op TEXT NOT NULL, until INTEGER, PRIMARY KEY (op, tag_key, to_op), FOREIGN KEY (op, tag_key) REFERENCES hub_tag (op, tag_key) ON DELETE CASCADE) STRICT";

/// The index by the operator that a tag is granted to.
pub const CREATE_TO: &str = "CREATE INDEX hub_grant_to ON hub_grant (to_op, tag_key, op)";

pub const DROP_TO: &str = "DROP INDEX hub_grant_to";

/// One grant.
pub const FIND: &str = with_columns!(
    "SELECT ",
    " FROM hub_grant WHERE op = ?1 AND tag_key = ?2 AND to_op = ?3"
);

/// The grants of an operator.
pub const LIST: &str = with_columns!(
    "SELECT ",
    " FROM hub_grant WHERE op = ?1 ORDER BY tag_key, to_op"
);

/// The grants of one key to an operator, or all to it.
pub const FIND_RECEIVED: &str = with_columns!(
    "SELECT ",
    " FROM hub_grant WHERE to_op = ?1 AND tag_key BETWEEN ?2 AND ?3 ORDER BY tag_key, op"
);

/// Puts a grant in place of the one with its key.
pub const PUT: &str = with_columns!(
    "INSERT INTO hub_grant (",
    ") VALUES (?1, ?2, ?3, ?4) ON CONFLICT (op, tag_key, to_op) DO UPDATE SET until = excluded.until"
);

pub const DROP: &str = "DELETE FROM hub_grant WHERE op = ?1 AND tag_key = ?2 AND to_op = ?3";
