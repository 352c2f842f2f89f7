//! Keys of id tags.
ghost use Rattle.std.specs.Prelude.{◌≡◌, IfOk, Some, nat_eq, refl};
ghost use Rattle.std.specs.Ordering.{nat_cmp};
ghost use Rattle.std.specs.Cmp.{partial_equiv_from_equiv};
ghost use Rattle.std.specs.Cmp.Lexicographic.{pointwise, slice_cmp, nat_list_eq_equiv, nat_list_cmp_total, texts_ties, texts_po};
ghost use Rattle.ocpp_types.specs.TagKey.{key_of};

use crate::memory::Mem;
use crate::text::Text;
use std::alloc::{AllocError, Global};
use std::cmp::Ordering;
use std::marker::Model;

/// The key of an id tag: its text with ASCII letters lowered and nothing else changed. Tags of one
/// key are one tag (OCPP 1.6, type IdToken, which is case-insensitive).
///
/// A contract sees it as its bytes, and two keys are ordered by their bytes.
#[derive(Drop)]
pub struct TagKey {
    text: Text,
}

impl Model for TagKey {
    ghost use Rattle.std.specs.Prelude.{List, ℕ};

    ghost Value = { List ℕ };

    ghost view = { λ k. k.text };
}

impl TagKey {
    /// The key of that tag.
    pub fn of(alloc: Global, tag: &str) -> Mem<TagKey>
        ensures { IfOk result (λ k. k ≡ key_of tag.now) }
    {
        let lowered = tag.to_ascii_lowercase(alloc)?;
        Ok(TagKey {
            text: Text::from(lowered),
        })
    }

    /// The key's text.
    pub fn as_str(&self) -> &str
        ensures { result.now ≡ self.now }
    {
        self.text.as_str()
    }
}

impl Clone for TagKey {
    ghost is_clone = { λ key copy. copy ≡ key };

    fn clone(&self) -> Result<TagKey, AllocError> {
        Ok(TagKey {
            text: self.text.clone()?,
        })
    }
}

impl PartialEq for TagKey {
    ghost eq = { pointwise nat_eq };

    ghost laws = { partial_equiv_from_equiv nat_list_eq_equiv };

    fn eq(&self, other: &TagKey) -> bool {
        self.text == other.text
    }
}

impl Eq for TagKey {
    ghost laws = { nat_list_eq_equiv };
}

impl PartialOrd for TagKey {
    ghost partial_cmp = { λ x y. Some (slice_cmp nat_cmp x y) };

    ghost laws = { texts_po };

    fn partial_cmp(&self, other: &TagKey) -> Option<Ordering> {
        Some(self.cmp(other))
    }
}

impl Ord for TagKey {
    ghost cmp = { slice_cmp nat_cmp };

    ghost total = { nat_list_cmp_total };

    ghost matches_partial_cmp = { λ x y. refl };

    ghost matches_eq = { texts_ties };

    fn cmp(&self, other: &TagKey) -> Ordering {
        self.text.cmp(&other.text)
    }
}
