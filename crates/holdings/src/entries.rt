//! The entries of a local list, in the order of their keys.
ghost use Rattle.std.specs.Prelude.{◌≡◌, [], IfOk, OnOk};
ghost use Rattle.std.proofs.Props.{props};
ghost use Rattle.hub_rows.specs.Keyed.{by_key, put};
ghost use Rattle.hub_rows.specs.LocalLists.{entry_key};
ghost use Rattle.holdings.specs.Entries.{AreKeyed, tags_of};

use hub_rows::LocalTag;
use ocpp_types::{Listed, Mem, TagKey};
use std::alloc::Global;
use std::collections::BTreeMap;
use std::marker::Model;

/// Entries, each under the key of its tag. A contract sees them as a list in the order of the keys.
#[derive(Drop)]
pub struct Entries {
    map: BTreeMap<TagKey, LocalTag>,
    ghost keyed: { AreKeyed map.entries } by { Prim.hlevel props },
}

impl Model for Entries {
    ghost use Rattle.std.specs.Prelude.{List};
    ghost use Rattle.hub_rows.specs.declared.list_row.LocalTag.{LocalTag};
    ghost use Rattle.holdings.specs.Entries.{tags_of};

    ghost Value = { List LocalTag };

    ghost view = { λ e. tags_of e.map };
}

impl Entries {
    /// No entries, which takes no memory yet.
    pub fn new(alloc: Global) -> Entries
        ensures { result ≡ [] }
    {
        Entries {
            map: BTreeMap::new(alloc),
        }
    }

    /// Puts an entry at its place, or in place of the one with its key.
    pub fn put(&mut self, alloc: Global, entry: LocalTag) -> Mem<()>
        ensures { OnOk result (self.new ≡ put (by_key entry_key) entry self.old) }
    {
        let key = TagKey::of(alloc, entry.tag.as_str())?;
        self.map.insert(key, entry)?;
        Ok(())
    }

    /// The entries in their order.
    pub fn into_listed(self, alloc: Global) -> Mem<Listed<LocalTag>>
        ensures { IfOk result (λ l. l ≡ self) }
    {
        let entries: Vec<LocalTag> = self.map.into_values().collect(alloc)?;
        Ok(Listed::from(entries))
    }
}
