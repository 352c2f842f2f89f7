//! The list of tags that a station keeps, to judge them by while it is offline.
ghost use Rattle.std.specs.Prelude.{◌≡◌, [], IfOk, unwrap_or, option_map};
ghost use Rattle.ocpp_payload.specs.Holds.{first_bad};
ghost use Rattle.ocpp_payload.specs.Table.{read_by};
ghost use Rattle.operator_cmds.specs.LocalList.{authorization_data, bad_entry, bad_of_entries, bad_of_keys, missing_info, repeats_key, send_local_list};

use crate::choices::UpdateType;
use crate::kinds::{ID_TAG, LIST_VERSION};
use ocpp_payload::{
    Bounded, Checked, ListOf, NameOf, ObjectOf, ObjectWriter, ReadResult, Readable, Tabled,
    bad_may, optional, required,
};
use ocpp_types::{FieldName, IdTagInfo, Listed, Mem, TagKey, Text};
use std::alloc::Global;
use std::collections::BTreeSet;
use std::marker::Model;

/// An entry of a list of tags (OCPP 1.6, type AuthorizationData).
#[derive(Clone, Drop)]
pub struct AuthorizationData {
    /// At most 20 characters.
    pub id_tag: Text,
    /// Where it is missing, the entry takes the tag out of the list.
    pub id_tag_info: Option<IdTagInfo>,
}

impl Readable for AuthorizationData {
    ghost reads_as = { read_by authorization_data };

    fn read_from(alloc: Global, object: &json::Value<'_>) -> ReadResult<AuthorizationData> {
        Ok(AuthorizationData {
            id_tag: required(alloc, object, "idTag", ID_TAG)?,
            id_tag_info: optional(alloc, object, "idTagInfo", ObjectOf::new())?,
        })
    }
}

impl Tabled for AuthorizationData {
    ghost form = { authorization_data };

    fn write_members(&self, object: ObjectWriter) -> Mem<ObjectWriter> {
        object
            .must("idTag", ID_TAG, &self.id_tag)?
            .may("idTagInfo", ObjectOf::new(), &self.id_tag_info)
    }
}

impl Checked for AuthorizationData {
    fn bad(&self) -> Option<FieldName> {
        let tag = ID_TAG.bad("idTag", &self.id_tag);
        tag.or(bad_may("idTagInfo", ObjectOf::new(), &self.id_tag_info))
    }
}

/// Sets or changes the list of tags of a station (OCPP 1.6, SendLocalList.req).
#[derive(Clone, Drop)]
pub struct SendLocalList {
    pub(crate) list_version: i64,
    pub(crate) entries: Option<Listed<AuthorizationData>>,
    pub(crate) update_type: UpdateType,
    /// Whether two entries have tags of one key.
    pub(crate) repeats: bool,
}

impl Model for SendLocalList {
    ghost use Rattle.std.specs.Prelude.{◌≡◌, [], unwrap_or};
    ghost use Rattle.operator_cmds.specs.LocalList.{ListUpdate, repeats_key};

    ghost Value = { ListUpdate };

    ghost view = { λ s. record { list_version = s.list_version; entries = s.entries; update_type = s.update_type } };

    ghost invariant = { λ s. s.repeats ≡ repeats_key (unwrap_or s.entries []) };
}

impl SendLocalList {
    /// The version that the list has then: 1 to 2147483647.
    pub fn list_version(&self) -> i64
        ensures { result ≡ self.now.list_version }
    {
        self.list_version
    }

    /// The entries in their order, if the list isn't left out.
    pub fn entries(&self) -> Option<&[AuthorizationData]>
        ensures { option_map (λ entries. entries.now) result ≡ self.now.entries }
    {
        match &self.entries {
            Some(entries) => Some(entries.as_slice()),
            None => None,
        }
    }

    /// Whether the list is set anew or changed.
    pub fn update_type(&self) -> UpdateType
        ensures { result ≡ self.now.update_type }
    {
        self.update_type
    }

    fn bad_of_entries(&self) -> Option<FieldName>
        ensures { result ≡ bad_of_entries self.now }
    {
        match &self.entries {
            Some(entries) => first_bad(self.update_type, entries.as_slice()),
            None => None,
        }
    }

    fn bad_of_keys(&self) -> Option<FieldName>
        ensures { result ≡ bad_of_keys self.now }
    {
        if self.repeats {
            Some(FieldName::new("localAuthorizationList"))
        } else {
            None
        }
    }
}

impl Readable for SendLocalList {
    ghost reads_as = { read_by send_local_list };

    fn read_from(alloc: Global, object: &json::Value<'_>) -> ReadResult<SendLocalList> {
        let list_version = required(alloc, object, "listVersion", LIST_VERSION)?;
        let kind = ListOf(ObjectOf::new());
        let entries = optional(alloc, object, "localAuthorizationList", kind)?;
        let update_type = required(alloc, object, "updateType", NameOf::new())?;
        let repeats = repeats(alloc, &entries)?;
        Ok(SendLocalList {
            list_version,
            entries,
            update_type,
            repeats,
        })
    }
}

impl Tabled for SendLocalList {
    ghost form = { send_local_list };

    fn write_members(&self, object: ObjectWriter) -> Mem<ObjectWriter> {
        object
            .must("listVersion", LIST_VERSION, &self.list_version)?
            .may(
                "localAuthorizationList",
                ListOf(ObjectOf::new()),
                &self.entries,
            )?
            .must("updateType", NameOf::new(), &self.update_type)
    }
}

impl Checked for SendLocalList {
    fn bad(&self) -> Option<FieldName> {
        let version = LIST_VERSION.bad("listVersion", &self.list_version);
        version.or(self.bad_of_entries()).or(self.bad_of_keys())
    }
}

fn first_bad(update: UpdateType, entries: &[AuthorizationData]) -> Option<FieldName>
    ensures { result ≡ first_bad (bad_entry update) entries.now }
{
    for entry in entries {
        if let Some(name) = bad_entry(update, entry) {
            return Some(name);
        }
    }
    None
}

fn bad_entry(update: UpdateType, entry: &AuthorizationData) -> Option<FieldName>
    ensures { result ≡ bad_entry update entry.now }
{
    entry.bad().or(missing_info(update, &entry.id_tag_info))
}

fn missing_info(update: UpdateType, info: &Option<IdTagInfo>) -> Option<FieldName>
    ensures { result ≡ missing_info update info.now }
{
    match (update, info) {
        (UpdateType::Full, None) => Some(FieldName::new("idTagInfo")),
        _ => None,
    }
}

fn repeats(alloc: Global, entries: &Option<Listed<AuthorizationData>>) -> Mem<bool>
    ensures { IfOk result (λ repeats. repeats ≡ repeats_key (unwrap_or entries.now [])) }
{
    match entries {
        Some(entries) => repeats_key(alloc, entries.as_slice()),
        None => Ok(false),
    }
}

/// Whether two entries have tags of one key, in one pass.
fn repeats_key(alloc: Global, entries: &[AuthorizationData]) -> Mem<bool>
    ensures { IfOk result (λ repeats. repeats ≡ repeats_key entries.now) }
{
    let mut keys = BTreeSet::new(alloc);
    for entry in entries {
        let key = TagKey::of(alloc, entry.id_tag.as_str())?;
        if !keys.insert(key)? {
            return Ok(true);
        }
    }
    Ok(false)
}
