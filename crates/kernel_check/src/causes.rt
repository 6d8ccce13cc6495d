//! By which causes an item of a module fails.

ghost use Rattle.std.specs.Prelude.{◌≡◌, ◌≤◌, ◌<◌, ◌||◌, nat_le, None, Some, false, length, IfErr, IfOk, OnOk};
ghost use Rattle.kernel_check.specs.Names.{find};
ghost use Rattle.kernel_check.specs.Faults.{least_cause};
ghost use Rattle.kernel_check.specs.Layout.{end_behind, group_end_behind};
ghost use Rattle.kernel_check.specs.Causes.{misses_label, differs, is_of_other_width, has_wrong_type, names_unknown, misses_argument, is_same_segment, lies_elsewhere, is_bad_place, is_bad, has_bad_address, instruction_fails, label_fails, argument_fails, variable_fails, kernel_fails};
ghost use Rattle.kernel_check.specs.Operands.{any_operand, is_over};
ghost use Rattle.kernel_check.specs.declared.limits.TheConstants.{MAX_ARGUMENT_BYTES, MAX_GROUP_BYTES, MAX_INSTRUCTIONS};

use crate::fault::CheckCause;
use crate::layout::{Placed, end, group_end};
use crate::limits::{MAX_ARGUMENT_BYTES, MAX_INSTRUCTIONS, MAX_KERNELS};
use crate::memory::forms;
use crate::names::Names;
use crate::operands::{any_over, any_wrong, same_class};
use hsail_reader::{
    Address, Argument, DataType, GroupVariable, Operand, Operands, Operation, RegisterClass,
    Segment, SegmentPlace,
};

/// Whether an operand is a label that the kernel doesn't have.
fn unknown_label(labels: &Names<'_, usize>, operand: &Operand) -> bool
    ensures { result ≡ misses_label (find labels.now) operand.now }
{
    match operand {
        Operand::Label(name) => labels.get(name.as_slice()).is_none(),
        _ => false,
    }
}

fn any_unknown_label(labels: &Names<'_, usize>, operands: &Operands) -> bool
    ensures { result ≡ any_operand (misses_label (find labels.now)) operands.now }
{
    unknown_label(labels, &operands.first)
        || unknown_label(labels, &operands.second)
        || unknown_label(labels, &operands.third)
        || unknown_label(labels, &operands.fourth)
}

/// Whether two segments are one.
fn same_segment(left: Segment, right: Segment) -> bool
    ensures { result ≡ is_same_segment left right }
{
    matches!(
        (left, right),
        (Segment::Kernarg, Segment::Kernarg)
            | (Segment::Global, Segment::Global)
            | (Segment::Group, Segment::Group)
    )
}

/// Whether a known variable is an argument of another width than a type.
fn other_width(kind: DataType, variable: Option<Placed>) -> bool
    ensures { result ≡ differs kind variable }
{
    match variable {
        Some(placed) => {
            same_segment(Segment::Kernarg, placed.segment) && placed.kind.bits() != kind.bits()
        }
        None => false,
    }
}

/// Whether an access takes an argument by a type that isn't as wide.
fn argument_of_other_width(
    variables: &Names<'_, Placed>,
    kind: DataType,
    segment: Segment,
    address: &Address,
) -> bool
    ensures { result ≡ is_of_other_width (find variables.now) kind segment address.now }
{
    match (segment, address) {
        (Segment::Kernarg, Address::Variable(name)) => {
            other_width(kind, variables.get(name.as_slice()))
        }
        _ => false,
    }
}

/// Whether an operand takes an argument by a type that isn't as wide.
fn wrong_type(variables: &Names<'_, Placed>, operand: &Operand) -> bool
    ensures { result ≡ has_wrong_type (find variables.now) operand.now }
{
    match operand {
        Operand::Address(access) => {
            argument_of_other_width(variables, access.kind, access.segment, &access.address)
        }
        _ => false,
    }
}

fn any_wrong_type(variables: &Names<'_, Placed>, operands: &Operands) -> bool
    ensures { result ≡ any_operand (has_wrong_type (find variables.now)) operands.now }
{
    wrong_type(variables, &operands.first)
        || wrong_type(variables, &operands.second)
        || wrong_type(variables, &operands.third)
        || wrong_type(variables, &operands.fourth)
}

/// Whether an address names no variable of the kernel.
fn unknown_variable(variables: &Names<'_, Placed>, address: &Address) -> bool
    ensures { result ≡ names_unknown (find variables.now) address.now }
{
    match address {
        Address::Variable(name) => variables.get(name.as_slice()).is_none(),
        Address::Indexed(indexed) => variables.get(indexed.variable.as_slice()).is_none(),
        Address::Place(_) => false,
    }
}

/// Whether an operand's address names no variable of the kernel.
fn unknown_argument(variables: &Names<'_, Placed>, operand: &Operand) -> bool
    ensures { result ≡ misses_argument (find variables.now) operand.now }
{
    match operand {
        Operand::Address(access) => unknown_variable(variables, &access.address),
        _ => false,
    }
}

fn any_unknown_argument(variables: &Names<'_, Placed>, operands: &Operands) -> bool
    ensures { result ≡ any_operand (misses_argument (find variables.now)) operands.now }
{
    unknown_argument(variables, &operands.first)
        || unknown_argument(variables, &operands.second)
        || unknown_argument(variables, &operands.third)
        || unknown_argument(variables, &operands.fourth)
}

/// Whether an instruction is too many behind these, or a number in it is too large.
fn too_large(number: usize, operands: &Operands) -> bool
    ensures value { result ≡ (nat_le MAX_INSTRUCTIONS number || any_operand is_over operands.now) }
    ensures room { result ≡ false → number < MAX_INSTRUCTIONS }
{
    number >= MAX_INSTRUCTIONS || any_over(operands)
}

/// Whether a place isn't counted from a register of the base's class; or any, where there is no base.
fn bad_place(base: Option<RegisterClass>, place: SegmentPlace) -> bool
    ensures { result ≡ is_bad_place base place }
{
    match (base, place) {
        (None, _) => true,
        (Some(_), SegmentPlace::Absolute(_)) => false,
        (Some(class), SegmentPlace::Relative(relative)) => !same_class(
            class,
            relative.register.class,
        ),
    }
}

/// Whether a variable is one of another segment.
fn elsewhere(variables: &Names<'_, Placed>, segment: Segment, name: &[u8]) -> bool
    ensures { result ≡ lies_elsewhere segment (find variables.now name.now) }
{
    match variables.get(name) {
        Some(placed) => !same_segment(segment, placed.segment),
        None => false,
    }
}

/// Whether a segment doesn't have this address.
fn bad_in_brackets(variables: &Names<'_, Placed>, segment: Segment, address: &Address) -> bool
    ensures { result ≡ is_bad (find variables.now) segment address.now }
{
    let forms = forms(segment);
    match address {
        Address::Variable(name) => {
            !forms.variable || elsewhere(variables, segment, name.as_slice())
        }
        Address::Place(place) => bad_place(forms.base, *place),
        Address::Indexed(indexed) => {
            !forms.indexed
                || elsewhere(variables, segment, indexed.variable.as_slice())
                || bad_place(forms.base, indexed.place)
        }
    }
}

/// Whether an operand's address has a form that its segment doesn't have.
fn bad_address(variables: &Names<'_, Placed>, operand: &Operand) -> bool
    ensures { result ≡ has_bad_address (find variables.now) operand.now }
{
    match operand {
        Operand::Address(access) => bad_in_brackets(variables, access.segment, &access.address),
        _ => false,
    }
}

fn any_bad_address(variables: &Names<'_, Placed>, operands: &Operands) -> bool
    ensures { result ≡ any_operand (has_bad_address (find variables.now)) operands.now }
{
    bad_address(variables, &operands.first)
        || bad_address(variables, &operands.second)
        || bad_address(variables, &operands.third)
        || bad_address(variables, &operands.fourth)
}

/// The least cause by which an instruction fails that stands behind these many.
pub fn instruction_cause(
    variables: &Names<'_, Placed>,
    labels: &Names<'_, usize>,
    number: usize,
    operation: &Operation,
) -> Option<CheckCause>
    ensures value { result ≡ least_cause (instruction_fails (find variables.now) (find labels.now) number operation.now) }
    ensures room { result ≡ None → number < MAX_INSTRUCTIONS }
{
    let operands = operation.operands();
    if any_unknown_label(labels, operands) {
        return Some(CheckCause::UnknownLabel);
    }
    if any_wrong(operands) {
        return Some(CheckCause::WrongRegister);
    }
    if any_wrong_type(variables, operands) {
        return Some(CheckCause::WrongType);
    }
    if any_unknown_argument(variables, operands) {
        return Some(CheckCause::UnknownArgument);
    }
    if too_large(number, operands) {
        return Some(CheckCause::TooLarge);
    }
    if any_bad_address(variables, operands) {
        return Some(CheckCause::BadAddress);
    }
    None
}

/// The least cause by which a label fails, of which these stand before.
pub fn label_cause(before: &Names<'_, usize>, name: &[u8]) -> Option<CheckCause>
    ensures value { result ≡ least_cause (label_fails before.now name.now) }
    ensures new_name { result ≡ None → find before.now name.now ≡ None }
{
    if before.get(name).is_some() {
        return Some(CheckCause::DoubleName);
    }
    None
}

/// The least cause by which an argument fails that stands behind these.
pub fn argument_cause(
    before: &Names<'_, Placed>,
    bytes: u32,
    argument: &Argument,
) -> Option<CheckCause>
    requires { bytes ≤ MAX_ARGUMENT_BYTES }
    ensures value { result ≡ least_cause (argument_fails before.now bytes argument.now) }
    ensures new_name { result ≡ None → find before.now argument.now.name ≡ None }
    ensures room { result ≡ None → end_behind bytes argument.now ≤ MAX_ARGUMENT_BYTES }
{
    if before.get(argument.name.as_slice()).is_some() {
        return Some(CheckCause::DoubleName);
    }
    if end(bytes, argument) > MAX_ARGUMENT_BYTES {
        return Some(CheckCause::TooLarge);
    }
    None
}

/// Where a group variable ends that stands behind these variables, the last of which in group memory ends
/// there; or the least cause by which it fails.
pub fn variable_end(
    before: &Names<'_, Placed>,
    bytes: u32,
    variable: &GroupVariable,
) -> Result<u32, CheckCause>
    requires { bytes ≤ MAX_GROUP_BYTES }
    ensures fine { OnOk result (least_cause (variable_fails before.now bytes variable.now) ≡ None) }
    ensures value { IfOk result (λ end. end ≡ group_end_behind bytes variable.now) }
    ensures bound { IfOk result (λ end. end ≤ MAX_GROUP_BYTES) }
    ensures new_name { OnOk result (find before.now variable.now.name ≡ None) }
    ensures refused { IfErr result (λ cause. least_cause (variable_fails before.now bytes variable.now) ≡ Some cause) }
{
    if before.get(variable.name.as_slice()).is_some() {
        return Err(CheckCause::DoubleName);
    }
    group_end(bytes, variable).ok_or(CheckCause::TooLarge)
}

/// The least cause by which a kernel's head fails that stands behind these kernels.
pub fn kernel_cause(before: &Names<'_, usize>, name: &[u8]) -> Option<CheckCause>
    ensures value { result ≡ least_cause (kernel_fails before.now name.now) }
    ensures new_name { result ≡ None → find before.now name.now ≡ None }
    ensures room { result ≡ None → length before.now < 64 }
{
    if before.get(name).is_some() {
        return Some(CheckCause::DoubleName);
    }
    if before.len() >= MAX_KERNELS {
        return Some(CheckCause::TooLarge);
    }
    None
}
