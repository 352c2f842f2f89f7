//! The marks of a journal (docs/RULES.md, The journal).
ghost use Rattle.std.specs.Prelude.{◌≡◌, IfOk, string_bytes};
ghost use Rattle.journal.specs.Entries.{begins_line, continues_line, turn_line};

use ocpp_types::Mem;
use std::alloc::Global;

/// The line with which a server begins: the count of changes on record, and the operators.
pub fn begins_line(alloc: Global, changes: u64, operators: &str) -> Mem<String>
    ensures { IfOk result (λ s. string_bytes s ≡ begins_line changes operators.now) }
{
    Ok(format!(in alloc; "begins {changes} {operators}")?)
}

/// The line with which the next file of a server begins, the one of that number after its first.
pub fn continues_line(alloc: Global, file: u64, changes: u64, operators: &str) -> Mem<String>
    ensures { IfOk result (λ s. string_bytes s ≡ continues_line file changes operators.now) }
{
    Ok(format!(in alloc; "continues {file} {changes} {operators}")?)
}

/// The line that ends a turn of so many events, whose lines have that digest.
pub fn turn_line(alloc: Global, events: u64, before: u64, after: u64, digest: &str) -> Mem<String>
    ensures { IfOk result (λ s. string_bytes s ≡ turn_line events before after digest.now) }
{
    Ok(format!(in alloc; "turn {events} {before} {after} {digest}")?)
}
