//! hub_tag: id tags.

/// A text with the names of all columns, in their order, between the two parts.
macro_rules! with_columns {
    ($before:literal, $after:literal) => {
        concat!($before, "op, tag_key, id_tag, parent_id_tag, parent_key, blocked, expiry_date", $after)
    };
}

pub const CREATE: &str =
    "CREATE TABLE hub_tag (op TEXT NOT NULL, tag_key TEXT NOT NULL, id_tag TEXT NOT NULL, parent_id_tag TEXT, parent_key TEXT, blocked INTEGER NOT NULL, expiry_date INTEGER, PRIMARY KEY (op, tag_key)) STRICT";

/// One tag, or all of an operator.
pub const FIND: &str = with_columns!(
    "SELECT ",
    " FROM hub_tag WHERE op = ?1 AND tag_key BETWEEN ?2 AND ?3 ORDER BY tag_key"
);

/// Adds a tag.
pub const ADD: &str = with_columns!(
    "INSERT INTO hub_tag (",
    ") VALUES (?1, ?2, ?3, ?4, ?5, ?6, ?7)"
);

/// Puts a tag in place of the one with its key.
pub const PUT: &str = with_columns!(
    "INSERT INTO hub_tag (",
    ") VALUES (?1, ?2, ?3, ?4, ?5, ?6, ?7) ON CONFLICT (op, tag_key) DO UPDATE SET id_tag = excluded.id_tag, parent_id_tag = excluded.parent_id_tag, parent_key = excluded.parent_key, blocked = excluded.blocked, expiry_date = excluded.expiry_date"
);

pub const DROP: &str = "DELETE FROM hub_tag WHERE op = ?1 AND tag_key = ?2";
