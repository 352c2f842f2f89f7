//! The name of a member or a field, as a refusal gives it.
ghost use Rattle.std.specs.Prelude.{◌≡◌, nat_eq};
ghost use Rattle.std.specs.Cmp.{partial_equiv_from_equiv};
ghost use Rattle.std.specs.Cmp.Lexicographic.{pointwise, nat_list_eq_equiv};

use std::alloc::AllocError;
use std::marker::Model;

/// The name of a member of a message or of a field of a command. A contract sees it as its bytes.
#[derive(Debug, Drop)]
pub struct FieldName {
    name: &'static str,
}

impl Model for FieldName {
    ghost use Rattle.std.specs.Prelude.{List, ℕ};

    ghost Value = { List ℕ };

    ghost view = { λ field. field.name.now };
}

impl FieldName {
    /// The field of that name.
    pub fn new(name: &'static str) -> FieldName
        ensures { result ≡ name.now }
    {
        FieldName { name }
    }

    /// Its name.
    pub fn as_str(&self) -> &'static str
        ensures { result.now ≡ self.now }
    {
        self.name
    }
}

impl Clone for FieldName {
    ghost is_clone = { λ field copy. copy ≡ field };

    fn clone(&self) -> Result<FieldName, AllocError> {
        Ok(FieldName { name: self.name })
    }
}

impl PartialEq for FieldName {
    ghost eq = { pointwise nat_eq };

    ghost laws = { partial_equiv_from_equiv nat_list_eq_equiv };

    fn eq(&self, other: &FieldName) -> bool {
        self.name == other.name
    }
}

impl Eq for FieldName {
    ghost laws = { nat_list_eq_equiv };
}
