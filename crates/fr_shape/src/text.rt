//! A text that owns its bytes.
ghost use Rattle.std.specs.Prelude.{◌≡◌, ◌↔◌, [], length, IfOk, IsTrue};
ghost use Rattle.std.specs.Str.{bytes_eq};
ghost use Rattle.std.specs.Cmp.{partial_equiv_from_equiv};
ghost use Rattle.std.specs.Cmp.Lexicographic.{nat_list_eq_equiv};

use crate::OutOfMemory;
use std::alloc::Global;
use std::default::Default;
use std::marker::Model;

/// A text in UTF-8. Contracts see the list of its bytes.
#[derive(Drop)]
pub struct Text {
    // None for the empty text of `default`, which has no allocator.
    text: Option<String>,
}

impl Model for Text {
    ghost use Rattle.std.specs.Prelude.{List, ℕ, [], string_bytes};
    ghost use Rattle.std.specs.Option.{option_map_or};

    ghost Value = { List ℕ };

    ghost view = { λ t. option_map_or string_bytes t.text [] };
}

impl Text {
    /// A copy of `s`.
    pub fn new(alloc: Global, s: &str) -> Result<Text, OutOfMemory>
        ensures copy { IfOk result (λ t. t ≡ s.now) }
    {
        Ok(Text {
            text: Some(String::from_str(alloc, s)?),
        })
    }

    /// The text as Rust's own; an empty one needs no memory.
    pub fn as_str(&self) -> &str
        ensures bytes { result.now ≡ self.now }
    {
        match &self.text {
            Some(text) => text.as_str(),
            None => "",
        }
    }

    /// The length in bytes.
    pub fn len(&self) -> usize
        ensures count { result ≡ length self.now }
    {
        self.as_str().len()
    }

    /// Whether there is no character in it.
    pub fn is_empty(&self) -> bool
        ensures empty { IsTrue result ↔ (self.now ≡ []) }
    {
        self.as_str().is_empty()
    }
}

/// The empty text, made without an allocator.
impl Default for Text {
    ghost is_default = { λ t. t ≡ [] };

    fn default() -> Text {
        Text { text: None }
    }
}

/// Texts are equal where their bytes are.
impl PartialEq for Text {
    ghost eq = { bytes_eq };

    ghost laws = { partial_equiv_from_equiv nat_list_eq_equiv };

    fn eq(&self, other: &Text) -> bool {
        self.as_str() == other.as_str()
    }
}

impl Eq for Text {
    ghost laws = { nat_list_eq_equiv };
}
