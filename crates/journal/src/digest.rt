//! The digest of the lines of a turn.
ghost use Rattle.std.specs.Prelude.{◌≡◌, IfOk, string_bytes};
ghost use Rattle.journal.specs.Entries.{digest_of};

use ocpp_types::Mem;
use sha1::Sha1;
use std::alloc::Global;

/// The digest of lines with their line feeds: SHA-1 (RFC 3174) in lower case hex digits. It shows damage; it keeps nobody from
/// writing other lines.
#[tactic(auto, unfolding(crate::specs::Entries::digest_of))]
pub fn digest_of(alloc: Global, lines: &[u8]) -> Mem<String>
    ensures { IfOk result (λ s. string_bytes s ≡ digest_of lines.now) }
{
    Ok(hex::encode(alloc, Sha1::digest(lines))?)
}
