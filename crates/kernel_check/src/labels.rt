//! The labels of a kernel, as numbers of instructions.

ghost use Rattle.std.specs.Prelude.{◌≡◌, ◌<◌, ◌+◌, ◌^◌, ℕ, List, [], ◌∷◌, IfOk, OnOk};
ghost use Rattle.kernel_check.specs.Names.{find};
ghost use Rattle.kernel_check.specs.inner.Bound.{or_else};
ghost use Rattle.kernel_check.specs.Checks.{label_at, number_behind, labels_from};

use crate::names::Names;
use hsail_reader::Item;
use std::alloc::{AllocError, Global};

/// Puts a label behind the others, unless one of its name stands there.
fn note_label<'a>(
    names: &mut Names<'a, usize>,
    number: usize,
    name: &'a [u8],
) -> Result<(), AllocError>
    ensures { OnOk result ((q : List ℕ) → find names.new q ≡ or_else (find names.old q) (find ((name.now, number) ∷ []) q)) }
{
    if names.get(name).is_some() {
        return Ok(());
    }
    names.add(name, number)
}

/// Puts an item behind the others, of which these many are instructions, and tells how many are then.
fn note_item<'a>(
    names: &mut Names<'a, usize>,
    number: usize,
    item: &'a Item,
) -> Result<usize, AllocError>
    requires { number + 1 < 2 ^ 64 }
    ensures number { IfOk result (λ n. n ≡ number_behind number item.now) }
    ensures names { OnOk result ((q : List ℕ) → find names.new q ≡ or_else (find names.old q) (find (label_at number item.now) q)) }
{
    match item {
        Item::Label(label) => {
            note_label(names, number, label.name.as_slice())?;
            Ok(number)
        }
        Item::Variable(_) => Ok(number),
        Item::Instruction(_) => Ok(number + 1),
    }
}

/// The labels of items, each with the number of the instruction behind it, from 0. Of labels of one
/// name the first counts.
pub fn labels<'a>(alloc: Global, items: &'a [Item]) -> Result<Names<'a, usize>, AllocError>
    ensures { IfOk result (λ names. find names ≡ find (labels_from 0 items.now)) }
{
    let mut names = Names::new(alloc);
    let mut number = 0;
    'items: for item in items {
        number = note_item(&mut names, number, item)?;
    }
    Ok(names)
}
