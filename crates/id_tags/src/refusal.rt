//! Tags that an operator wants used (docs/RULES.md, Tag keys and judgement).
ghost use Rattle.std.specs.Prelude.{◌≡◌, IfOk};
ghost use Rattle.hub_rows.specs.Reads.{OnlyReads};
ghost use Rattle.hub_rows.specs.Lookups.{lookups_at};
ghost use Rattle.id_tags.specs.Refusal.{refuse_rule, tag_refusal};

use crate::judgement::{Purpose, judge};
use hub_rows::{Store, StoreFault};
use ocpp_types::{AuthorizationStatus, Moment, Refusal, TagKey};
use std::alloc::Global;

/// The refusal of a tag that an operator wants used at a moment: TagRefused with its status, where
/// it is judged as for an Authorize and not accepted.
pub fn refuse_tag<S: Store>(
    alloc: Global,
    store: &mut S,
    op: &str,
    tag: &str,
    moment: Moment,
) -> Result<Option<Refusal>, StoreFault>
    ensures reads { OnlyReads S.view store.old store.new result }
    ensures refusal { (S.view store.new).clean → IfOk result (λ r. r
        ≡ refuse_rule moment tag.now (lookups_at op.now (S.view store.old).rows)) }
{
    let key = TagKey::of(alloc, tag)?;
    let judged = judge(store, op, &key, moment, &Purpose::Authorize)?;
    Ok(tag_refusal(judged.status))
}

fn tag_refusal(status: AuthorizationStatus) -> Option<Refusal>
    ensures { result ≡ tag_refusal status }
{
    match status {
        AuthorizationStatus::Accepted => None,
        _ => Some(Refusal::TagRefused(status)),
    }
}
