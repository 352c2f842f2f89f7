//! Owned text that contracts see as its bytes.
ghost use Rattle.std.specs.Prelude.{◌≡◌, IfOk, Some, nat_eq, refl, string_bytes};
ghost use Rattle.std.specs.Ordering.{nat_cmp};
ghost use Rattle.std.specs.Cmp.{partial_equiv_from_equiv};
ghost use Rattle.std.specs.Cmp.Lexicographic.{pointwise, slice_cmp, nat_list_eq_equiv, nat_list_cmp_total, texts_ties, texts_po};
ghost use Rattle.ocpp_types.specs.Text.{characters};

use crate::memory::Mem;
use crate::short_text::ShortText;
use std::alloc::{AllocError, Global};
use std::cmp::Ordering;
use std::fmt;
use std::marker::Model;

/// Where the bytes of a text are.
#[derive(Debug, Drop)]
enum Kept {
    /// In the value itself.
    Short(ShortText),
    /// In memory of their own.
    Long(String),
}

/// A text. A contract sees it as its bytes, and two texts are ordered by their bytes. A text of up to 30 bytes, as most
/// names are, takes no memory of its own, and nor does a copy of it.
#[derive(Debug)]
pub struct Text {
    kept: Kept,
}

/// It is written out, so that a call stands for it wherever a text is let go.
impl Drop for Text {
    fn drop(self) {
        let Text { kept: _kept } = self;
    }
}

/// How many characters (Unicode scalar values) the text has: the unit of all lengths of OCPP.
pub fn count_characters(text: &str) -> usize
    ensures { result ≡ characters text.now }
{
    text.chars().count()
}

impl Model for Text {
    ghost use Rattle.std.specs.Prelude.{List, ℕ};
    ghost use Rattle.ocpp_types.specs.Kept.{kept_bytes};

    ghost Value = { List ℕ };

    ghost view = { λ t. kept_bytes t.kept };
}

impl Text {
    /// A copy of `text`.
    pub fn copy_of(alloc: Global, text: &str) -> Mem<Text>
        ensures { IfOk result (λ t. t ≡ text.now) }
    {
        let kept = match ShortText::copy_of(text) {
            Some(short) => Kept::Short(short),
            None => Kept::Long(String::from_str(alloc, text)?),
        };
        Ok(Text { kept })
    }

    /// The text, lent.
    #[inline]
    pub fn as_str(&self) -> &str
        ensures { result.now ≡ self.now }
    {
        match &self.kept {
            Kept::Short(short) => short.as_str(),
            Kept::Long(long) => long.as_str(),
        }
    }
}

/// Takes no memory.
impl From<String> for Text {
    ghost from_gives = { λ string text. text ≡ string_bytes string };

    fn from(text: String) -> Text
        ensures { result ≡ string_bytes text }
    {
        Text {
            kept: Kept::Long(text),
        }
    }
}

impl Clone for Text {
    ghost is_clone = { λ text copy. copy ≡ text };

    fn clone(&self) -> Result<Text, AllocError> {
        let kept = match &self.kept {
            Kept::Short(short) => Kept::Short(short.copy()),
            Kept::Long(long) => Kept::Long(long.clone()?),
        };
        Ok(Text { kept })
    }
}

impl PartialEq for Text {
    ghost eq = { pointwise nat_eq };

    ghost laws = { partial_equiv_from_equiv nat_list_eq_equiv };

    fn eq(&self, other: &Text) -> bool {
        self.as_str() == other.as_str()
    }
}

impl Eq for Text {
    ghost laws = { nat_list_eq_equiv };
}

impl PartialOrd for Text {
    ghost partial_cmp = { λ x y. Some (slice_cmp nat_cmp x y) };

    ghost laws = { texts_po };

    fn partial_cmp(&self, other: &Text) -> Option<Ordering> {
        Some(self.cmp(other))
    }
}

impl Ord for Text {
    ghost cmp = { slice_cmp nat_cmp };

    ghost total = { nat_list_cmp_total };

    ghost matches_partial_cmp = { λ x y. refl };

    ghost matches_eq = { texts_ties };

    fn cmp(&self, other: &Text) -> Ordering {
        self.as_str().cmp(other.as_str())
    }
}

impl fmt::Display for Text {
    ghost output = { λ text. Some text };

    fn fmt<W: fmt::Write>(&self, f: &mut fmt::Formatter<W>) -> fmt::Result {
        f.write_str(self.as_str())
    }
}

/// A copy of a text that may be missing.
pub fn copied(text: &Option<Text>) -> Result<Option<Text>, AllocError>
    ensures { IfOk result (λ copy. copy ≡ text.now) }
{
    match text {
        Some(text) => Ok(Some(text.clone()?)),
        None => Ok(None),
    }
}
