//! A kernel as the policy declares it.

ghost use Rattle.std.specs.Prelude.{◌≡◌, ◌&&◌, string_bytes};

use std::alloc::AllocError;
use std::marker::Model;

/// A kernel's source: the name of its entry in the module, and the module's text. The text is kept, not read.
#[derive(Drop)]
pub struct KernelSource {
    entry: String,
    text: String,
}

impl Model for KernelSource {
    ghost use Rattle.std.specs.Prelude.{string_bytes};
    ghost use Rattle.policy.specs.Kernel.{Source};

    ghost Value = { Source };

    ghost view = { λ source. record { entry = string_bytes source.entry; text = string_bytes source.text } };
}

impl Clone for KernelSource {
    ghost is_clone = { λ source copy. copy ≡ source };

    fn clone(&self) -> Result<KernelSource, AllocError> {
        Ok(KernelSource {
            entry: self.entry.clone()?,
            text: self.text.clone()?,
        })
    }
}

impl PartialEq for KernelSource {
    ghost use Rattle.std.specs.Str.{bytes_eq};
    ghost use Rattle.std.specs.Cmp.{and_per, on_per, partial_equiv_from_equiv};
    ghost use Rattle.std.specs.Cmp.Lexicographic.{nat_list_eq_equiv};

    ghost eq = { λ a b. bytes_eq a.entry b.entry && bytes_eq a.text b.text };

    ghost laws = { and_per (on_per (λ source. source.entry) (partial_equiv_from_equiv nat_list_eq_equiv)) (on_per (λ source. source.text) (partial_equiv_from_equiv nat_list_eq_equiv)) };

    fn eq(&self, other: &KernelSource) -> bool {
        self.entry == other.entry && self.text == other.text
    }
}

impl KernelSource {
    /// A source from its entry's name and its text. It takes no memory.
    pub fn new(entry: String, text: String) -> KernelSource
        ensures { result ≡ record { entry = string_bytes entry; text = string_bytes text } }
    {
        KernelSource { entry, text }
    }

    /// The name of the entry in the module, beginning with `&`.
    pub fn entry(&self) -> &str
        ensures { result.now ≡ self.now.entry }
    {
        self.entry.as_str()
    }

    /// The module's text.
    pub fn text(&self) -> &str
        ensures { result.now ≡ self.now.text }
    {
        self.text.as_str()
    }
}
