//! What follows the help of each command: examples, exit statuses, and where more is written.

/// What follows the help of the program.
pub const CENTRAL: &str = "\
`central COMMAND --help` has the options of a command, an example and its exit statuses.

More: README.md, docs/OPERATIONS.md\n";

/// What follows the help of `replay`.
pub const REPLAY: &str = "\
Example:
  central replay --operators ACME,BETA < script

Exit statuses:
  0  the input was read to its end
  1  the command line can't be read
  2  a fault, which standard error names
  3  with --strict, a line was bad

More: README.md, docs/RULES.md (Lines), docs/OPERATIONS.md (The server)\n";

/// What follows the help of `serve`.
pub const SERVE: &str = "\
Example:
  central serve --port 9180 --db doxeguir.db --operators ACME,BETA

It has no TLS and authenticates nobody: a connection is the station or the operator that its path names.

Exit statuses:
  0  the turns of --turns were made, or the file of --stop-file appeared
  1  the command line can't be read
  2  a fault, which standard error names

More: docs/OPERATIONS.md\n";

/// What follows the help of `sim`.
pub const SIM: &str = "\
Examples:
  central sim --port 9180 --path /ocpp/ACME/CP01
  central sim --port 9180 --path /ocpp/ACME/CP01 --stay
  central sim --port 9180 --path /ocpp/ACME/CP --stations 200 --sessions 5

One that stays does so until its connection ends, which is a fault, or until it is ended by a signal.

Exit statuses:
  0  the sessions were carried out
  1  the command line can't be read
  2  a fault, which standard error names
  3  a station or its id tag wasn't Accepted

More: README.md, docs/RULES.md (The simulated station), docs/OPERATIONS.md (A simulated station)\n";

/// What follows the help of `ask`.
pub const ASK: &str = "\
Examples:
  central ask --port 9180 --operator ACME \"list tags\"
  central ask --port 9180 --operator ACME --wait \"call CP01 ClearCache {}\"

`central ask help` lists the lines.

Exit statuses:
  0  each line was taken, and with --wait carried out by its station
  1  the command line can't be read
  2  a fault, which standard error names
  3  a line was refused or bad, or with --wait not carried out

More: docs/OPERATIONS.md (An operator's commands), docs/TABLES.md\n";

/// What follows the help of `forget`.
pub const FORGET: &str = "\
Example:
  central forget --port 9180 --operator ACME --before 90d

Each order is a line with the station, and how many transactions and readings went. The last line has those of all.

Exit statuses:
  0  nothing is left that is so old
  1  the command line can't be read
  2  a fault, which standard error names
  3  an order was refused

More: docs/OPERATIONS.md (Growth), docs/RULES.md (Forgetting)\n";

/// What follows the help of `follow`.
pub const FOLLOW: &str = "\
Example:
  central follow --db standby.db --operators ACME,BETA --journal - < journal

`central serve --follow -` follows a journal in the same way, and serves at its end.

Exit statuses:
  0  the journal was followed to its end
  1  the command line can't be read
  2  a fault, which standard error names

More: docs/OPERATIONS.md (A standby)\n";
