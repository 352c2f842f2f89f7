//! Answers to look-ups of id tags.
ghost use Rattle.std.specs.Prelude.{◌≡◌, true, false, IfOk, option_map};
ghost use Rattle.cached.specs.Digests.{tag_digest};
ghost use Rattle.cached.specs.TagAnswers.{is_own, IsAbout, IsApart, IsParentApart, touched};

use crate::answer::{Answer, Searched};
use hub_rows::{Change, Edit, Info, TagEdit};
use ocpp_types::{Mem, TagKey, Text, copied};
use std::alloc::Global;
use std::hash::{BuildHasher, BuildHasherDefault, FoldHasher};

/// A look-up of an id tag.
#[derive(Clone, Copy, Debug, PartialEq, Eq)]
pub enum LookUp {
    /// Of an operator's own tags.
    Own,
    /// Of those that are granted to it.
    Granted,
}

/// What a look-up was answered.
#[derive(Drop)]
pub struct TagAnswer {
    look_up: LookUp,
    /// The operator that asked.
    op: Text,
    /// The key of the tag that was asked for.
    key: TagKey,
    info: Option<Info>,
}

impl TagAnswer {
    /// The answer, with copies of what it is about.
    pub fn of(
        alloc: Global,
        look_up: LookUp,
        op: &str,
        key: &TagKey,
        info: &Option<Info>,
    ) -> Mem<TagAnswer>
        ensures about { IfOk result (λ answer. IsAbout look_up op.now key.now answer) }
        ensures info { IfOk result (λ answer. answer.info ≡ info.now) }
    {
        Ok(TagAnswer {
            look_up,
            op: Text::copy_of(alloc, op)?,
            key: key.clone()?,
            info: copied_info(info)?,
        })
    }

    /// A copy of what was answered.
    pub fn info(&self) -> Mem<Option<Info>>
        ensures { IfOk result (λ info. info ≡ self.now.info) }
    {
        copied_info(&self.info)
    }

    /// Whether it answers that look-up.
    pub fn is_about(&self, look_up: LookUp, op: &str, key: &TagKey) -> bool
        ensures { result ≡ true → IsAbout look_up op.now key.now self.now }
    {
        self.look_up == look_up && self.op.as_str() == op && self.key == *key
    }

    /// Whether it may change with the tag of that key, or with the grants of it.
    fn depends_on(&self, key: &TagKey) -> bool
        ensures { result ≡ false → IsApart key.now self.now }
    {
        self.key == *key || has_parent(&self.info, key.as_str())
    }
}

impl Answer for TagAnswer {
    ghost use Rattle.cached.specs.TagAnswers.{digest_of_tag, IsRight};

    ghost is_right = { IsRight };

    ghost digest = { digest_of_tag };

    fn digest(&self) -> u64 {
        digest(self.look_up, self.op.as_str(), &self.key)
    }
}

impl Searched for TagAnswer {
    fn is_touched(change: &Change<'_>) -> bool {
        touched(change.edit).is_some()
    }

    fn may_change(&self, change: &Change<'_>) -> bool {
        match touched(change.edit) {
            Some(key) => self.depends_on(key),
            None => false,
        }
    }
}

/// The key of the tag that an edit changes, or whose grants it changes.
fn touched(edit: &Edit) -> Option<&TagKey>
    ensures { option_map (λ k. k.now) result ≡ touched edit.now }
{
    match edit {
        Edit::Tags(
            TagEdit::TagPut { key, .. }
            | TagEdit::TagDropped { key }
            | TagEdit::GrantPut { key, .. }
            | TagEdit::GrantDropped { key, .. },
        ) => Some(key),
        _ => None,
    }
}

/// Whether it is a tag whose parent has that key, letters in any case.
fn has_parent(info: &Option<Info>, key: &str) -> bool
    ensures { result ≡ false → IsParentApart key.now info.now }
{
    match info {
        Some(info) => match &info.parent {
            Some(parent) => parent.as_str().eq_ignore_ascii_case(key),
            None => false,
        },
        None => false,
    }
}

/// A number of a look-up.
pub fn digest(look_up: LookUp, op: &str, key: &TagKey) -> u64
    ensures { result ≡ tag_digest (is_own look_up) op.now key.now }
{
    let is_own = look_up == LookUp::Own;
    let hasher: BuildHasherDefault<FoldHasher> = BuildHasherDefault::new();
    hasher.hash_one((is_own, op, key.as_str()))
}

/// A copy of what counts of a tag, if it is there.
fn copied_info(info: &Option<Info>) -> Mem<Option<Info>>
    ensures { IfOk result (λ copy. copy ≡ info.now) }
{
    match info {
        Some(info) => Ok(Some(Info {
            text: info.text.clone()?,
            parent: copied(&info.parent)?,
            blocked: info.blocked,
            expiry: info.expiry,
            owner: copied(&info.owner)?,
        })),
        None => Ok(None),
    }
}
