//! Texts that lie in the value itself.
ghost use Rattle.std.specs.Prelude.{◌≡◌, IfSome, take, length};

use std::marker::Model;

/// The most bytes of a short text.
const MOST: usize = 30;

/// A text of at most 30 bytes, which takes no memory of its own. A contract sees it as its bytes.
#[derive(Debug, Drop)]
pub(crate) struct ShortText {
    len: u8,
    cells: [u8; MOST],
}

impl Model for ShortText {
    ghost use Rattle.std.specs.Prelude.{◌≡◌, ◌≤◌, List, ℕ, length, take, IsUtf8};

    ghost Value = { List ℕ };

    ghost view = { λ s. take s.len s.cells };

    ghost invariant = { λ s. (s.len ≤ 30) × (length s.cells ≡ 30) × ∥ IsUtf8 (take s.len s.cells) ∥₁ };
}

impl ShortText {
    /// A copy of a text, unless it is longer.
    pub(crate) fn copy_of(text: &str) -> Option<ShortText>
        ensures { IfSome result (λ s. s ≡ text.now) }
    {
        let bytes = text.as_bytes();
        if MOST < bytes.len() {
            return None;
        }
        let mut cells = [0; MOST];
        cells[..bytes.len()].copy_from_slice(bytes);
        Some(ShortText {
            len: bytes.len() as u8,
            cells,
        })
    }

    /// A copy.
    pub(crate) fn copy(&self) -> ShortText
        ensures { result ≡ self.now }
    {
        ShortText {
            len: self.len,
            cells: self.cells,
        }
    }

    /// The text, lent.
    #[inline]
    pub(crate) fn as_str(&self) -> &str
        ensures { result.now ≡ self.now }
    {
        unsafe { str::from_utf8_unchecked(&self.cells[..self.len as usize]) }
    }
}
