//! hub_meta: the number of the schema of a database, and how many changes were made.

pub const CREATE: &str =
    "CREATE TABLE hub_meta (name TEXT NOT NULL, number INTEGER NOT NULL, PRIMARY KEY (name)) STRICT";

/// All rows, whatever the columns of the table are.
pub const LIST: &str = "SELECT * FROM hub_meta";

/// One row.
pub const FIND: &str = "SELECT name, number FROM hub_meta WHERE name = ?1";

/// Puts a row in place of the one of its name.
pub const PUT: &str =
    "INSERT INTO hub_meta (name, number) VALUES (?1, ?2) ON CONFLICT (name) DO UPDATE SET number = excluded.number";

/// Sets the number of the row of a name, if there is one.
pub const UPDATE: &str = "UPDATE hub_meta SET number = ?2 WHERE name = ?1";
