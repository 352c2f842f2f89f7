//! Enumerations whose values have names.
ghost use Rattle.std.specs.Prelude.{◌≡◌, List, ℕ, Some, map};
ghost use Rattle.std.specs.List.{slice_get};
ghost use Rattle.ocpp_types.specs.Named.{named};

/// A value that is written by its name. Case counts (docs/TABLES.md, Enumerations).
pub trait Named: Copy + 'static {
    /// The name of each value.
    ghost name_of: { Self → List ℕ };

    /// The table that `of` reads by: names, each with its value.
    ghost names: { List (List ℕ × Self) };

    /// The names, each with its value.
    fn table() -> &'static [(&'static str, Self)]
        ensures { map (λ row. (row.0.now, row.1)) result.now ≡ names };

    /// Where the value stands in the table.
    fn index(&self) -> usize
        ensures row { slice_get names result ≡ Some (name_of self.now, self.now) }
        ensures reads_back { named names (name_of self.now) ≡ Some self.now };

    /// The value of that name by the table, `None` for any other text.
    final fn of(name: &str) -> Option<Self>
        ensures { result ≡ named names name.now }
    {
        for (known, value) in Self::table() {
            if name == *known {
                return Some(*value);
            }
        }
        None
    }

    /// The name of the value, which `of` reads as the value again.
    final fn name(&self) -> &'static str
        ensures value { result.now ≡ name_of self.now }
        ensures reads_back { named names (name_of self.now) ≡ Some self.now }
    {
        Self::table()[self.index()].0
    }
}

/// The table of an enumeration: each variant under its own name, or under the name given for it.
#[macro_export]
macro_rules! table {
    ($($variant:ident),+) => {
        &[$((stringify!($variant), Self::$variant)),+]
    };
    ($($name:literal => $variant:ident),+) => {
        &[$(($name, Self::$variant)),+]
    };
}
