//! Local lists (docs/RULES.md, Local lists).
ghost use Rattle.std.specs.Prelude.{◌≡◌, [], IfOk, OnOk, unwrap_or};
ghost use Rattle.hub_rows.specs.Keyed.{by_key, put_all};
ghost use Rattle.hub_rows.specs.LocalLists.{entry_key};
ghost use Rattle.holdings.specs.Entries.{AreNamed};
ghost use Rattle.holdings.specs.LocalList.{entries_after, kept_for, list_set, local_tag, not_named, version_of, with_info};

use crate::entries::Entries;
use hub_rows::{Edit, HoldingEdit, LocalList, LocalTag};
use ocpp_types::{IdTagInfo, Listed, Mem, TagKey, Text, copied};
use operator_cmds::{AuthorizationData, SendLocalList, UpdateType};
use std::alloc::Global;
use std::collections::BTreeSet;

/// The edit of an update that the station has accepted: of a Full update the entries of the
/// command, of a Differential one the kept entries whose keys it doesn't name and its entries with
/// idTagInfo; the version is the command's (OCPP 1.6, section 5.15). A command whose version is out
/// of its range is never sent, and edits nothing.
pub fn list_answer(
    alloc: Global,
    station: &Text,
    kept: Option<LocalList>,
    command: &SendLocalList,
) -> Mem<Option<Edit>>
    ensures { IfOk result (λ e. e ≡ list_set station.now kept command.now) }
{
    let Some(version) = version_of(command.list_version()) else {
        return Ok(None);
    };
    let kept = kept_for(alloc, command.update_type(), kept);
    let sent = command.entries().unwrap_or(&[]);
    let entries = entries_after(alloc, kept, sent)?;
    Ok(Some(Edit::Holdings(HoldingEdit::ListSet {
        station: station.clone()?,
        list: LocalList { version, entries },
    })))
}

fn version_of(version: i64) -> Option<u32>
    ensures { result ≡ version_of version }
{
    match u32::try_from(version) {
        Ok(version) if 1 <= version && version <= i32::MAX as u32 => Some(version),
        _ => None,
    }
}

/// The entries that a command builds on.
fn kept_for(alloc: Global, update: UpdateType, kept: Option<LocalList>) -> Listed<LocalTag>
    ensures { result ≡ kept_for update kept }
{
    match (update, kept) {
        (UpdateType::Differential, Some(list)) => list.entries,
        _ => Listed::new(alloc),
    }
}

fn entries_after(
    alloc: Global,
    kept: Listed<LocalTag>,
    sent: &[AuthorizationData],
) -> Mem<Listed<LocalTag>>
    ensures { IfOk result (λ l. l ≡ entries_after kept sent.now) }
{
    let mut entries = Entries::new(alloc);
    put_kept(alloc, &mut entries, kept, sent)?;
    put_sent(alloc, &mut entries, sent)?;
    let list = entries.into_listed(alloc)?;
    Ok(list)
}

/// Puts the kept entries whose keys a command doesn't name.
fn put_kept(
    alloc: Global,
    entries: &mut Entries,
    kept: Listed<LocalTag>,
    sent: &[AuthorizationData],
) -> Mem<()>
    ensures { OnOk result (entries.new ≡ put_all (by_key entry_key) (not_named sent.now kept) entries.old) }
{
    let named = named_keys(alloc, sent)?;
    for entry in kept.into_vec() {
        let key = TagKey::of(alloc, entry.tag.as_str())?;
        if !named.contains(&key) {
            entries.put(alloc, entry)?;
        }
    }
    Ok(())
}

/// The keys that a command names.
fn named_keys(alloc: Global, sent: &[AuthorizationData]) -> Mem<BTreeSet<TagKey>>
    ensures { IfOk result (λ keys. AreNamed sent.now keys) }
{
    let mut keys = BTreeSet::new(alloc);
    for entry in sent {
        let key = TagKey::of(alloc, entry.id_tag.as_str())?;
        keys.insert(key)?;
    }
    Ok(keys)
}

/// Puts the entries of a command that have idTagInfo.
#[tactic(auto, using(hub_rows::proofs::Steps::drop_here))]
fn put_sent(alloc: Global, entries: &mut Entries, sent: &[AuthorizationData]) -> Mem<()>
    ensures { OnOk result (entries.new ≡ put_all (by_key entry_key) (with_info sent.now) entries.old) }
{
    for entry in sent {
        if let Some(entry) = local_tag(entry)? {
            entries.put(alloc, entry)?;
        }
    }
    Ok(())
}

fn local_tag(entry: &AuthorizationData) -> Mem<Option<LocalTag>>
    ensures { IfOk result (λ t. t ≡ local_tag entry.now) }
{
    let Some(info) = &entry.id_tag_info else {
        return Ok(None);
    };
    Ok(Some(LocalTag {
        tag: entry.id_tag.clone()?,
        info: IdTagInfo {
            expiry_date: info.expiry_date,
            parent_id_tag: copied(&info.parent_id_tag)?,
            status: info.status,
        },
    }))
}
