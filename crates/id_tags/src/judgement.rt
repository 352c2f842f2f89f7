//! Judgement of id tags (OCPP 1.6, sections 4.1 and 7.2; docs/RULES.md, Tag keys and judgement).
ghost use Rattle.std.specs.Prelude.{◌≡◌, Some, IfOk};
ghost use Rattle.hub_rows.specs.Reads.{OnlyReads};
ghost use Rattle.hub_rows.specs.Lookups.{lookups_at};
ghost use Rattle.id_tags.specs.Judge.{found_tag, is_in_use, judged_tag, judge_rule, judge_with_owner, kept_owner, tag_status, is_past};

use hub_rows::{Info, Store, StoreFault, TxKey};
use ocpp_types::{AuthorizationStatus, IdTagInfo, Moment, TagKey, Text};

/// What a tag is judged for.
#[derive(Drop)]
pub enum Purpose {
    /// For an answer alone: to an Authorize or to a stop.
    Authorize,
    /// To begin a transaction. The one that is left out doesn't count as a use of the tag.
    Start { except: Option<TxKey> },
}

/// How a tag is judged.
#[derive(Drop)]
pub struct Judged {
    pub info: IdTagInfo,
    /// The operator that granted it, where it is accepted. `None` for the operator's own.
    pub owner: Option<Text>,
}

/// The tag of a key that counts for an operator: its own, or else the first of those that are granted
/// to it, by the names of their owners. `None` where there is none.
pub fn find_tag<S: Store>(store: &mut S, op: &str, key: &TagKey) -> Result<Option<Info>, StoreFault>
    ensures reads { OnlyReads S.view store.old store.new result }
    ensures found { (S.view store.new).clean → IfOk result (λ t. t
        ≡ found_tag key.now (lookups_at op.now (S.view store.old).rows)) }
{
    match store.own_tag(op, key)? {
        Some(own) => Ok(Some(own)),
        None => store.granted_tag(op, key),
    }
}

/// Judges the tag of a key at a moment: Invalid where there is none, Blocked where it or its
/// parent is blocked, Expired from its expiry on, ConcurrentTx where it is to begin a transaction
/// while it is in use by another, and else Accepted. Unless it is Invalid, its expiry and its
/// parent are told with it.
pub fn judge<S: Store>(
    store: &mut S,
    op: &str,
    key: &TagKey,
    moment: Moment,
    purpose: &Purpose,
) -> Result<IdTagInfo, StoreFault>
    ensures reads { OnlyReads S.view store.old store.new result }
    ensures judged { (S.view store.new).clean → IfOk result (λ i. i
        ≡ judge_rule moment key.now purpose.now (lookups_at op.now (S.view store.old).rows)) }
{
    Ok(judge_with_owner(store, op, key, moment, purpose)?.info)
}

/// The same, with the operator that granted the tag.
pub fn judge_with_owner<S: Store>(
    store: &mut S,
    op: &str,
    key: &TagKey,
    moment: Moment,
    purpose: &Purpose,
) -> Result<Judged, StoreFault>
    ensures reads { OnlyReads S.view store.old store.new result }
    ensures judged { (S.view store.new).clean → IfOk result (λ j. j
        ≡ judge_with_owner moment key.now purpose.now (lookups_at op.now (S.view store.old).rows)) }
{
    let Some(tag) = find_tag(store, op, key)? else {
        return Ok(Judged {
            info: IdTagInfo {
                expiry_date: None,
                parent_id_tag: None,
                status: AuthorizationStatus::Invalid,
            },
            owner: None,
        });
    };
    let used = is_in_use(store, op, key, purpose)?;
    Ok(judged_tag(moment, used, tag))
}

/// Whether the tag of a key is in use as far as the purpose asks.
fn is_in_use<S: Store>(
    store: &mut S,
    op: &str,
    key: &TagKey,
    purpose: &Purpose,
) -> Result<bool, StoreFault>
    ensures reads { OnlyReads S.view store.old store.new result }
    ensures found { (S.view store.new).clean → IfOk result (λ u. u
        ≡ is_in_use purpose.now key.now (lookups_at op.now (S.view store.old).rows)) }
{
    match purpose {
        Purpose::Authorize => Ok(false),
        Purpose::Start { except } => store.is_used(op, key, except),
    }
}

/// How a tag that was found is judged.
fn judged_tag(moment: Moment, used: bool, tag: Info) -> Judged
    ensures { result ≡ judged_tag moment used (Some tag) }
{
    let status = tag_status(moment, used, &tag);
    let info = IdTagInfo {
        expiry_date: tag.expiry,
        parent_id_tag: tag.parent,
        status,
    };
    Judged {
        info,
        owner: kept_owner(status, tag.owner),
    }
}

fn kept_owner(status: AuthorizationStatus, owner: Option<Text>) -> Option<Text>
    ensures { result ≡ kept_owner status owner }
{
    match status {
        AuthorizationStatus::Accepted => owner,
        _ => None,
    }
}

fn tag_status(moment: Moment, used: bool, tag: &Info) -> AuthorizationStatus
    ensures { result ≡ tag_status moment used tag.now }
{
    if tag.blocked {
        return AuthorizationStatus::Blocked;
    }
    if is_past(moment, tag.expiry) {
        return AuthorizationStatus::Expired;
    }
    if used {
        return AuthorizationStatus::ConcurrentTx;
    }
    AuthorizationStatus::Accepted
}

fn is_past(moment: Moment, expiry: Option<Moment>) -> bool
    ensures { result ≡ is_past moment expiry }
{
    match expiry {
        None => false,
        Some(expiry) => expiry.seconds() <= moment.seconds(),
    }
}
