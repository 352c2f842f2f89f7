//! Tags put, dropped, granted and taken back by operators (docs/RULES.md, Tag keys and judgement).
ghost use Rattle.std.specs.Prelude.{◌≡◌, Err, IfOk};
ghost use Rattle.hub_rows.specs.Reads.{OnlyReads};
ghost use Rattle.hub_rows.specs.Lookups.{lookups_at};
ghost use Rattle.hub_rows.specs.Operators.{is_hosted};
ghost use Rattle.id_tags.specs.Plan.{put_rule, drop_rule, grant_rule, revoke_rule, is_tag, is_parent};

use hub_rows::{Edit, Store, StoreFault, Tag, TagEdit, is_hosted};
use ocpp_types::{FieldName, Mem, Moment, Refusal, TagKey, Text, count_characters};
use std::alloc::Global;

/// The greatest number of characters of a tag that is put, and of its parent.
pub const MAX_TAG: usize = 20;

/// The edit that puts a tag in place of the one with its key, or the first refusal that applies:
/// BadField `tag`, BadField `parent` for one that isn't of 1 to 20 characters.
pub fn plan_put(alloc: Global, tag: &Tag) -> Mem<Result<Edit, Refusal>>
    ensures { IfOk result (λ p. p ≡ put_rule tag.now) }
{
    if !is_tag(tag.text.as_str()) {
        return Ok(Err(Refusal::BadField(FieldName::new("tag"))));
    }
    if !is_parent(&tag.parent) {
        return Ok(Err(Refusal::BadField(FieldName::new("parent"))));
    }
    Ok(Ok(Edit::Tags(TagEdit::TagPut {
        key: TagKey::of(alloc, tag.text.as_str())?,
        tag: tag.clone()?,
    })))
}

/// The edit that drops a tag, or NoSuchTag.
pub fn plan_drop<S: Store>(
    alloc: Global,
    store: &mut S,
    op: &str,
    tag: &str,
) -> Result<Result<Edit, Refusal>, StoreFault>
    ensures reads { OnlyReads S.view store.old store.new result }
    ensures plan { (S.view store.new).clean → IfOk result (λ p. p
        ≡ drop_rule tag.now (lookups_at op.now (S.view store.old).rows)) }
{
    let key = TagKey::of(alloc, tag)?;
    match store.own_tag(op, &key)? {
        Some(_) => Ok(Ok(Edit::Tags(TagEdit::TagDropped { key }))),
        None => Ok(Err(Refusal::NoSuchTag)),
    }
}

/// What an operator grants.
#[derive(Drop)]
pub struct Grant {
    /// The text of the tag.
    pub tag: Text,
    /// The operator that may use it.
    pub to: Text,
    /// It may before this moment, or for good.
    pub until: Option<Moment>,
}

/// The edit that grants a tag of an operator to another, in place of an earlier grant of it to that
/// operator, or the first refusal that applies: NoSuchTag unless the tag is its own, NoSuchOperator
/// unless the other is hosted, SelfGrant where the other is itself.
pub fn plan_grant<S: Store>(
    alloc: Global,
    store: &mut S,
    op: &str,
    grant: &Grant,
    hosted: &[Text],
) -> Result<Result<Edit, Refusal>, StoreFault>
    ensures reads { OnlyReads S.view store.old store.new result }
    ensures plan { (S.view store.new).clean → IfOk result (λ p. p
        ≡ grant_rule (is_hosted hosted.now) grant.now (lookups_at op.now (S.view store.old).rows)) }
{
    let key = TagKey::of(alloc, grant.tag.as_str())?;
    if store.own_tag(op, &key)?.is_none() {
        return Ok(Err(Refusal::NoSuchTag));
    }
    if !is_hosted(hosted, grant.to.as_str()) {
        return Ok(Err(Refusal::NoSuchOperator));
    }
    if grant.to.as_str() == op {
        return Ok(Err(Refusal::SelfGrant));
    }
    let to = grant.to.clone()?;
    let until = grant.until;
    Ok(Ok(Edit::Tags(TagEdit::GrantPut { key, to, until })))
}

/// The edit that removes a grant, or NoSuchGrant.
pub fn plan_revoke<S: Store>(
    alloc: Global,
    store: &mut S,
    op: &str,
    tag: &str,
    to: &Text,
) -> Result<Result<Edit, Refusal>, StoreFault>
    ensures reads { OnlyReads S.view store.old store.new result }
    ensures plan { (S.view store.new).clean → IfOk result (λ p. p
        ≡ revoke_rule tag.now to.now (lookups_at op.now (S.view store.old).rows)) }
{
    let key = TagKey::of(alloc, tag)?;
    if !store.has_grant(op, &key, to.as_str())? {
        return Ok(Err(Refusal::NoSuchGrant));
    }
    let to = to.clone()?;
    Ok(Ok(Edit::Tags(TagEdit::GrantDropped { key, to })))
}

fn is_tag(text: &str) -> bool
    ensures { result ≡ is_tag text.now }
{
    !text.is_empty() && count_characters(text) <= MAX_TAG
}

fn is_parent(parent: &Option<Text>) -> bool
    ensures { result ≡ is_parent parent.now }
{
    match parent {
        Some(parent) => is_tag(parent.as_str()),
        None => true,
    }
}
