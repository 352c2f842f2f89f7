//! Objects that are repaired by a table, and lists that are repaired item by item.
ghost use Rattle.std.specs.Prelude.{◌≡◌, ◌++◌, List, ℕ, IfOk, OnOk, option_map};
ghost use Rattle.std.specs.Option.{option_to_list};
ghost use Rattle.json.specs.Tree.{HasNumbers, ItemsHaveNumbers, MembersHaveNumbers};
ghost use Rattle.json.specs.Value.{value_view, items_view, members_view};
ghost use Rattle.repairs.specs.Tables.{Repair, Table, repair_at, repaired_members, by_table, repaired_items};

use json::Value;
use ocpp_types::Mem;
use std::alloc::Global;

/// What is read in place of the members of an object.
pub(crate) trait MemberRepairs {
    /// The table, where the text of the moment is that one.
    ghost table: { Self → List ℕ → Table };

    /// What is read in place of the member of that name. `None` leaves it out.
    fn repair<'a>(
        &self,
        alloc: Global,
        now: &'a str,
        name: &str,
        value: Value<'a>,
    ) -> Mem<Option<Value<'a>>>
        requires { HasNumbers (value_view value) }
        ensures { IfOk result (λ repaired. option_map (λ v. value_view v) repaired
            ≡ repair_at (table self.now now.now) name.now (value_view value.entry)) };
}

/// What is read in place of the items of a list.
pub(crate) trait ItemRepair {
    /// The repair, where the text of the moment is that one.
    ghost repair_by: { Self → List ℕ → Repair };

    /// What is read in place of an item. `None` leaves it out.
    fn repair<'a>(&self, alloc: Global, now: &'a str, value: Value<'a>) -> Mem<Option<Value<'a>>>
        requires { HasNumbers (value_view value) }
        ensures { IfOk result (λ repaired. option_map (λ v. value_view v) repaired
            ≡ repair_by self.now now.now (value_view value.entry)) };
}

/// An object with its members repaired. What is no object is kept.
pub(crate) fn by_table<'a, R: MemberRepairs>(
    alloc: Global,
    repairs: &R,
    now: &'a str,
    value: Value<'a>,
) -> Mem<Value<'a>>
    requires { HasNumbers (value_view value) }
    ensures { IfOk result (λ repaired. value_view repaired
        ≡ by_table (R.table repairs.now now.now) (value_view value.entry)) }
{
    match value {
        Value::Object(members) => {
            let repaired = repaired_members(alloc, repairs, now, members)?;
            Ok(Value::Object(repaired))
        }
        other => Ok(other),
    }
}

/// The members in order, each as it is repaired.
pub(crate) fn repaired_members<'a, R: MemberRepairs>(
    alloc: Global,
    repairs: &R,
    now: &'a str,
    members: Vec<(&'a str, Value<'a>)>,
) -> Mem<Vec<(&'a str, Value<'a>)>>
    requires { MembersHaveNumbers (members_view members.items) }
    ensures { IfOk result (λ repaired. members_view repaired.items
        ≡ repaired_members (R.table repairs.now now.now) (members_view members.entry.items)) }
{
    let mut repaired = Vec::new(alloc);
    for (name, value) in members {
        let value = repairs.repair(alloc, now, name, value)?;
        add_member(&mut repaired, name, value)?;
    }
    Ok(repaired)
}

fn add_member<'a>(
    members: &mut Vec<(&'a str, Value<'a>)>,
    name: &'a str,
    value: Option<Value<'a>>,
) -> Mem<()>
    ensures { OnOk result (members.new.items
        ≡ members.old.items ++ option_to_list (option_map (λ v. (name.entry, v)) value.entry)) }
{
    if let Some(value) = value {
        members.push((name, value))?;
    }
    Ok(())
}

/// The items in order, each as it is repaired.
pub(crate) fn repaired_items<'a, R: ItemRepair>(
    alloc: Global,
    repair: &R,
    now: &'a str,
    items: Vec<Value<'a>>,
) -> Mem<Vec<Value<'a>>>
    requires { ItemsHaveNumbers (items_view items.items) }
    ensures { IfOk result (λ repaired. items_view repaired.items
        ≡ repaired_items (R.repair_by repair.now now.now) (items_view items.entry.items)) }
{
    let mut repaired = Vec::new(alloc);
    for item in items {
        let item = repair.repair(alloc, now, item)?;
        add_item(&mut repaired, item)?;
    }
    Ok(repaired)
}

fn add_item<'a>(items: &mut Vec<Value<'a>>, item: Option<Value<'a>>) -> Mem<()>
    ensures { OnOk result (items.new.items ≡ items.old.items ++ option_to_list item.entry) }
{
    if let Some(item) = item {
        items.push(item)?;
    }
    Ok(())
}
