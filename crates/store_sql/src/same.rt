//! Whether two schemas are the same.
ghost use Rattle.std.specs.Prelude.{◌≡◌, ◌↔◌, [], IsTrue, None};
ghost use Rattle.std.specs.List.{AllByRecursion};
ghost use Rattle.sql_tables.specs.Opening.{no_schema};
ghost use Rattle.store_sql.specs.Simple.{IsSimple, IsSimpleColumn, IsSimpleTable};

use sqlite_items::Items;
use sqlite_schema::code::Terms;
use sqlite_schema::schema::{Column, Index, Reference, Schema, Stamps, Table};
use sqlite_value::keys::Order;
use sqlite_value::value::{Bytes, Value};

/// A part of a schema.
pub(crate) trait Same {
    /// The values that can be compared.
    ghost is_simple: { Self → Type 0 };

    /// Whether it is the same, and one that can be compared.
    fn is_same(&self, other: &Self) -> bool
        ensures { IsTrue result ↔ ((self.now ≡ other.now) × is_simple other.now) };
}

fn same_items<T: Same>(a: &Items<T>, b: &Items<T>) -> bool
    ensures { IsTrue result ↔ ((a.now ≡ b.now) × AllByRecursion T.is_simple b.now) }
{
    let a = a.as_slice();
    let b = b.as_slice();
    if a.len() != b.len() {
        return false;
    }
    'items: for i in 0..a.len() {
        if !a[i].is_same(&b[i]) {
            return false;
        }
    }
    true
}

impl Same for Bytes {
    ghost use Rattle.std.specs.Prelude.{⊤};

    ghost is_simple = { λ _. ⊤ };

    fn is_same(&self, other: &Bytes) -> bool {
        self.as_slice() == other.as_slice()
    }
}

impl Same for Items<usize> {
    ghost use Rattle.std.specs.Prelude.{⊤};

    ghost is_simple = { λ _. ⊤ };

    fn is_same(&self, other: &Items<usize>) -> bool {
        self.as_slice() == other.as_slice()
    }
}

impl Same for Order {
    ghost use Rattle.std.specs.Prelude.{⊤};

    ghost is_simple = { λ _. ⊤ };

    fn is_same(&self, other: &Order) -> bool {
        self.digits == other.digits
    }
}

/// Both are none.
impl Same for Terms {
    ghost is_simple = { λ it. it ≡ [] };

    fn is_same(&self, other: &Terms) -> bool {
        no_terms(self) && no_terms(other)
    }
}

impl Same for Stamps {
    ghost is_simple = { λ it. it.terms ≡ [] };

    fn is_same(&self, other: &Stamps) -> bool {
        self.places.is_same(&other.places)
            && self.terms.is_same(&other.terms)
            && same_items(&self.formats, &other.formats)
    }
}

impl Same for Index {
    ghost use Rattle.std.specs.Prelude.{⊤};

    ghost is_simple = { λ _. ⊤ };

    fn is_same(&self, other: &Index) -> bool {
        self.name.is_same(&other.name)
            && self.tree == other.tree
            && self.table == other.table
            && self.columns.is_same(&other.columns)
            && self.order == other.order
            && self.is_unique == other.is_unique
    }
}

impl Same for Column {
    ghost is_simple = { IsSimpleColumn };

    fn is_same(&self, other: &Column) -> bool {
        self.name.is_same(&other.name)
            && self.kind == other.kind
            && self.is_strict == other.is_strict
            && self.not_null == other.not_null
            && matches!((&self.default, &other.default), (Value::Null, Value::Null))
            && self.collation == other.collation
    }
}

impl Same for Reference {
    ghost use Rattle.std.specs.Prelude.{⊤};

    ghost is_simple = { λ _. ⊤ };

    fn is_same(&self, other: &Reference) -> bool {
        self.columns.is_same(&other.columns)
            && self.parent.is_same(&other.parent)
            && same_items(&self.parent_columns, &other.parent_columns)
            && self.on_delete == other.on_delete
            && self.on_update == other.on_update
            && self.is_deferred == other.is_deferred
    }
}

impl Same for Table {
    ghost is_simple = { IsSimpleTable };

    fn is_same(&self, other: &Table) -> bool {
        same_columns_of(self, other)
            && same_rules_of(self, other)
            && self.stamps.is_same(&other.stamps)
            && self.is_counted == other.is_counted
    }
}

fn no_terms(a: &Terms) -> bool
    ensures { IsTrue result ↔ (a.now ≡ []) }
{
    a.roots.is_empty()
}

fn same_columns_of(a: &Table, b: &Table) -> bool
    ensures { IsTrue result ↔ ((a.now.name ≡ b.now.name) × (a.now.tree ≡ b.now.tree) × (a.now.columns ≡ b.now.columns) × AllByRecursion IsSimpleColumn b.now.columns × (a.now.key ≡ None) × (b.now.key ≡ None) × (a.now.primary ≡ b.now.primary)) }
{
    a.name.is_same(&b.name)
        && a.tree == b.tree
        && same_items(&a.columns, &b.columns)
        && a.key.is_none()
        && b.key.is_none()
        && a.primary.is_same(&b.primary)
}

fn same_rules_of(a: &Table, b: &Table) -> bool
    ensures { IsTrue result ↔ ((a.now.uniques ≡ b.now.uniques) × (a.now.orders ≡ b.now.orders) × (a.now.checks ≡ []) × (b.now.checks ≡ []) × (a.now.references ≡ b.now.references) × (a.now.computed ≡ b.now.computed)) }
{
    same_items(&a.uniques, &b.uniques)
        && same_items(&a.orders, &b.orders)
        && a.checks.is_same(&b.checks)
        && same_items(&a.references, &b.references)
        && a.computed.is_same(&b.computed)
}

pub(crate) fn same_schema(a: &Schema, b: &Schema) -> bool
    ensures { IsTrue result ↔ ((a.now ≡ b.now) × IsSimple b.now) }
{
    same_items(&a.tables, &b.tables)
        && same_items(&a.indexes, &b.indexes)
        && a.views.is_empty()
        && b.views.is_empty()
}

pub(crate) fn is_blank(a: &Schema) -> bool
    ensures { IsTrue result ↔ (a.now ≡ no_schema) }
{
    a.tables.is_empty() && a.indexes.is_empty() && a.views.is_empty()
}
