//! What a word is: the rows' spellings, with types and modifiers.

ghost use Rattle.std.specs.Prelude.{◌≡◌, ◌≤◌, IfSome, None, length, map, true};
ghost use Rattle.std.specs.Option.{option_copied, option_map};
ghost use Rattle.hsail_reader.specs.Bytes.{behind};
ghost use Rattle.hsail_reader.specs.Rows.{modifier_view, row_view};
ghost use Rattle.hsail_reader.specs.Words.{is_spelled, type_among, type_at, ended_at, modifier_among, modifiers_at, opcode_at, instruction_at, alignment_of, word_of};

use crate::rows::{
    Form, ModifierEnd, ModifierRow, Row, Shapes, TypeSet, allowed, modifier_table, spelling, table,
    types,
};
use crate::scan::{align, number, strip};
use crate::types::{Alignment, DataType, Modifier, Modifiers};

/// What a word is.
#[derive(Clone, Copy)]
pub enum Word {
    Module,
    Prog,
    Kernel,
    /// `align(n)`
    Align(u64),
    /// `kernarg_T`
    Argument(DataType),
    /// `group_T`
    GroupVariable(DataType),
    /// a word of a row of the table of instructions
    Instruction(Opcode),
    /// `kernarg_` or `group_` with anything else behind it
    Outside,
    /// a word that stands nowhere
    Unknown,
}

/// The word of an instruction: what its row does, the modifiers and the type of the word, and the
/// operands of its row.
#[derive(Clone, Copy)]
pub struct Opcode {
    pub form: Form,
    pub modifiers: Modifiers,
    pub kind: DataType,
    pub operands: Shapes,
}

/// Whether the text is this spelling.
fn is(spelling: &str, text: &[u8]) -> bool
    ensures { result ≡ is_spelled spelling.now text.now }
{
    matches!(strip(spelling.as_bytes(), text), Some([]))
}

/// The first of some types that is spelled so.
fn among(kinds: &[DataType], text: &[u8]) -> Option<DataType>
    ensures { result ≡ type_among kinds.now text.now }
{
    let mut rest = kinds;
    while let [kind, others @ ..] = rest {
        if is(spelling(*kind), text) {
            return Some(*kind);
        }
        rest = others;
    }
    None
}

/// `_` and a type of a set, to the end of a word; or nothing, where there are no types.
fn kind(set: TypeSet, bytes: &[u8]) -> Option<DataType>
    ensures { result ≡ type_at set bytes.now }
{
    match (set, bytes) {
        (TypeSet::Untyped, []) => Some(DataType::B1),
        _ => among(types(set), strip(b"_", bytes)?),
    }
}

/// What stands behind the text of a modifier's row, and what stands behind the modifier.
fn ended(end: ModifierEnd, rest: &[u8]) -> Option<(Modifier, &[u8])>
    ensures value { option_map (λ x. (x.0, x.1.now)) result ≡ ended_at end rest.now }
    ensures bound { IfSome result (λ x. length x.1.now ≤ length rest.now) }
{
    match end {
        ModifierEnd::Whole(modifier) => Some((modifier, rest)),
        ModifierEnd::Number(modifier) => {
            let found = number(rest)?;
            let after = strip(b")", rest.split_at(found.length).1)?;
            Some((modifier.with_number(found.value), after))
        }
    }
}

/// A modifier at the front, by the first of some rows that spells it, and what stands behind it.
pub fn modifier_of<'a>(rows: &[ModifierRow], bytes: &'a [u8]) -> Option<(Modifier, &'a [u8])>
    ensures value { option_map (λ x. (x.0, x.1.now)) result ≡ modifier_among (map modifier_view rows.now) bytes.now }
    ensures bound { IfSome result (λ x. length x.1.now ≤ length bytes.now) }
{
    let mut rest = rows;
    while let [row, others @ ..] = rest {
        if let Some(inside) = strip(row.0.as_bytes(), bytes) {
            if let Some(found) = ended(row.1, inside) {
                return Some(found);
            }
        }
        rest = others;
    }
    None
}

/// The modifiers at the front, two at most, and what stands behind them.
fn modifiers(bytes: &[u8]) -> (Modifiers, &[u8])
    ensures { (result.0, result.1.now) ≡ modifiers_at bytes.now }
{
    let rows = modifier_table();
    let Some((first, rest)) = modifier_of(rows, bytes) else {
        return (Modifiers::Plain, bytes);
    };
    match modifier_of(rows, rest) {
        Some((second, rest)) => (Modifiers::Two(first, second), rest),
        None => (Modifiers::One(first), rest),
    }
}

/// The modifiers behind the stem of a row with these types, and what stands behind them: none where a type follows at once.
#[tactic(auto, using(crate::proofs::PlainWords::typed_at_once))]
fn modifiers_before(types: TypeSet, rest: &[u8]) -> (Modifiers, &[u8])
    ensures { (result.0, result.1.now) ≡ modifiers_at rest.now }
{
    match kind(types, rest) {
        Some(_) => (Modifiers::Plain, rest),
        None => modifiers(rest),
    }
}

/// The rest of a word behind the stem of a row.
fn finish(row: Row, rest: &[u8]) -> Option<Opcode>
    ensures { result ≡ opcode_at (row_view row) rest.now }
{
    let Row(_, set, types, form, operands) = row;
    let (modifiers, rest) = modifiers_before(types, rest);
    if !allowed(set, modifiers) {
        return None;
    }
    let kind = kind(types, rest)?;
    Some(Opcode {
        form,
        modifiers,
        kind,
        operands,
    })
}

/// Whether the first bytes tell that this is no front of the text.
#[tactic(auto, using(crate::proofs::Fronts::other_begin))]
fn begins_otherwise(front: &[u8], text: &[u8]) -> bool
    ensures { result ≡ true → behind front.now text.now ≡ None }
{
    match (front, text) {
        ([wanted, ..], [first, ..]) => *first != *wanted,
        _ => false,
    }
}

/// What stands behind the stem of a row, if the text begins with it; most rows fall by their first letter.
fn behind_stem<'a>(row: &Row, text: &'a [u8]) -> Option<&'a [u8]>
    ensures { option_copied result ≡ behind row.now.0.now text.now }
{
    let stem = row.0.as_bytes();
    if begins_otherwise(stem, text) {
        return None;
    }
    strip(stem, text)
}

/// The word of an instruction, by the first row that spells it.
#[tactic(auto, unfolding(crate::specs::Words::instruction_at))]
fn instruction(text: &[u8]) -> Option<Opcode>
    ensures { result ≡ instruction_at text.now }
{
    let mut rows = table();
    while let [row, others @ ..] = rows {
        if let Some(rest) = behind_stem(row, text) {
            if let Some(opcode) = finish(*row, rest) {
                return Some(opcode);
            }
        }
        rows = others;
    }
    None
}

/// The alignment of a variable, if n is one.
pub fn variable_alignment(n: u64) -> Option<Alignment>
    ensures { result ≡ alignment_of n }
{
    match n {
        1 => Some(Alignment::One),
        2 => Some(Alignment::Two),
        4 => Some(Alignment::Four),
        8 => Some(Alignment::Eight),
        16 => Some(Alignment::Sixteen),
        _ => None,
    }
}

/// What a word is.
#[tactic(auto, unfolding(crate::specs::Words::word_of))]
pub fn classify(text: &[u8]) -> Word
    ensures { result ≡ word_of text.now }
{
    if is("module", text) {
        return Word::Module;
    }
    if is("prog", text) {
        return Word::Prog;
    }
    if is("kernel", text) {
        return Word::Kernel;
    }
    if let Some(found) = align(text) {
        return if found.length == text.len() {
            Word::Align(found.value)
        } else {
            Word::Unknown
        };
    }
    if let Some(rest) = strip(b"kernarg_", text) {
        return match among(types(TypeSet::Memory), rest) {
            Some(kind) => Word::Argument(kind),
            None => Word::Outside,
        };
    }
    if let Some(rest) = strip(b"group_", text) {
        return match among(types(TypeSet::Memory), rest) {
            Some(kind) => Word::GroupVariable(kind),
            None => Word::Outside,
        };
    }
    match instruction(text) {
        Some(opcode) => Word::Instruction(opcode),
        None => Word::Unknown,
    }
}
