//! The items of a kernel, checked in order, and the steps that they come to.

ghost use Rattle.std.specs.Prelude.{◌≡◌, ◌≤◌, ◌++◌, ◌∷◌, [], None, IfOk, OnOk, length};
ghost use Rattle.std.specs.List.{All};
ghost use Rattle.kernel_check.specs.Checks.{before, behind, first_before, item_check, item_checks, lined, step_at, worked};
ghost use Rattle.kernel_check.specs.inner.Bodies.{body_worked};
ghost use Rattle.kernel_check.specs.Causes.{instruction_fails, label_fails, variable_fails};
ghost use Rattle.kernel_check.specs.Faults.{first_fault, checkpoint, unless, Gives};
ghost use Rattle.kernel_check.specs.inner.Judged.{Judges};
ghost use Rattle.kernel_check.specs.Layout.{group_end_behind, group_placed};
ghost use Rattle.kernel_check.specs.Names.{find};
ghost use Rattle.kernel_check.specs.Programs.{HasItsClasses};
ghost use Rattle.kernel_check.specs.Steps.{step_of};
ghost use Rattle.kernel_check.specs.declared.limits.TheConstants.{MAX_GROUP_BYTES, MAX_INSTRUCTIONS};

use crate::causes::{instruction_cause, label_cause, variable_end};
use crate::fault::CheckError;
use crate::kernarg::refused;
use crate::layout::{Placed, place_group};
use crate::names::Names;
use crate::step::LinedStep;
use crate::translate::translated;
use hsail_reader::{GroupVariable, Instruction, Item, Label, operations_are_of_rows};
use std::alloc::Global;

/// What the items of a kernel come to: steps with their lines, and the bytes of its group variables.
#[derive(Drop)]
pub struct Body {
    pub steps: Vec<LinedStep>,
    pub group_bytes: u32,
}

/// Puts a label behind the others unless it fails.
fn judge_label<'a>(
    before: &mut Names<'a, usize>,
    number: usize,
    label: &'a Label,
) -> Result<(), CheckError>
    ensures judged { Judges result (checkpoint label.now.line (label_fails before.old label.now.name) ∷ []) }
    ensures labels { OnOk result (before.new ≡ before.old ++ (label.now.name, number) ∷ []) }
{
    match label_cause(before, label.name.as_slice()) {
        Some(cause) => Err(refused(label.line, cause)),
        None => Ok(before.add(label.name.as_slice(), number)?),
    }
}

/// Puts a group variable behind the others unless it fails, and tells where it ends.
fn judge_variable<'a>(
    before: &mut Names<'a, Placed>,
    end: u32,
    variable: &'a GroupVariable,
) -> Result<u32, CheckError>
    requires { end ≤ MAX_GROUP_BYTES }
    ensures judged { Judges result (checkpoint variable.now.line (variable_fails before.old end variable.now) ∷ []) }
    ensures variables { OnOk result (before.new ≡ before.old ++ (variable.now.name, group_placed end variable.now) ∷ []) }
    ensures end { IfOk result (λ e. e ≡ group_end_behind end variable.now) }
    ensures bound { IfOk result (λ e. e ≤ MAX_GROUP_BYTES) }
{
    match variable_end(before, end, variable) {
        Err(cause) => Err(refused(variable.line, cause)),
        Ok(behind) => {
            before.add(variable.name.as_slice(), place_group(end, variable))?;
            Ok(behind)
        }
    }
}

/// Puts the step of an instruction behind the others unless it fails.
fn judge_instruction(
    variables: &Names<'_, Placed>,
    labels: &Names<'_, usize>,
    steps: &mut Vec<LinedStep>,
    instruction: &Instruction,
) -> Result<(), CheckError>
    ensures judged { Judges result (checkpoint instruction.now.line
        (instruction_fails (find variables.now) (find labels.now) (length steps.old.items) instruction.now.operation) ∷ []) }
    ensures steps { OnOk result (steps.new.items ≡ steps.old.items
        ++ lined instruction.now.line (find variables.now) (find labels.now) instruction.now.operation ∷ []) }
    ensures classes { OnOk result (HasItsClasses (step_of (find variables.now) (find labels.now) instruction.now.operation)) }
    ensures room { OnOk result (length steps.new.items ≤ MAX_INSTRUCTIONS) }
{
    operations_are_of_rows(&instruction.operation);
    let line = instruction.line;
    match instruction_cause(variables, labels, steps.len(), &instruction.operation) {
        Some(cause) => Err(refused(line, cause)),
        None => {
            let step = translated(variables, labels, &instruction.operation);
            Ok(steps.push(LinedStep { line, step })?)
        }
    }
}

/// Puts an item behind the others unless it fails, and tells where the group variables end then.
fn judge_item<'a>(
    labels: &Names<'_, usize>,
    variables: &mut Names<'a, Placed>,
    group_end: u32,
    known: &mut Names<'a, usize>,
    steps: &mut Vec<LinedStep>,
    item: &'a Item,
) -> Result<u32, CheckError>
    requires room { length steps.old.items ≤ MAX_INSTRUCTIONS }
    requires bound { group_end ≤ MAX_GROUP_BYTES }
    ensures judged { Judges result (item_check (find labels.now)
        (before variables.old group_end known.old (length steps.old.items)) item.now ∷ []) }
    ensures behind { IfOk result (λ end. before variables.new end known.new (length steps.new.items)
        ≡ behind (before variables.old group_end known.old (length steps.old.items)) item.now) }
    ensures steps { OnOk result (steps.new.items ≡ steps.old.items
        ++ step_at (find labels.now) (before variables.old group_end known.old (length steps.old.items)) item.now) }
    ensures classes { OnOk result (All (λ s. HasItsClasses s.step) (step_at (find labels.now)
        (before variables.old group_end known.old (length steps.old.items)) item.now)) }
    ensures room { OnOk result (length steps.new.items ≤ MAX_INSTRUCTIONS) }
    ensures bound { IfOk result (λ end. end ≤ MAX_GROUP_BYTES) }
{
    match item {
        Item::Label(label) => {
            judge_label(known, steps.len(), label)?;
            Ok(group_end)
        }
        Item::Variable(variable) => judge_variable(variables, group_end, variable),
        Item::Instruction(instruction) => {
            judge_instruction(variables, labels, steps, instruction)?;
            Ok(group_end)
        }
    }
}

/// What the items of a kernel come to behind its arguments, or the fault of the first that fails. The
/// group variables come to stand behind the arguments.
pub fn checked_items<'a>(
    alloc: Global,
    variables: &mut Names<'a, Placed>,
    labels: &Names<'_, usize>,
    items: &'a [Item],
) -> Result<Body, CheckError>
    ensures value { Gives body_worked result
        (unless (first_fault (item_checks (find labels.now) (first_before variables.old) items.now))
        (worked (find labels.now) (first_before variables.old) items.now)) }
    ensures classes { IfOk result (λ body. All (λ s. HasItsClasses s.step) body.steps.items) }
    ensures room { IfOk result (λ body. length body.steps.items ≤ MAX_INSTRUCTIONS) }
    ensures bound { IfOk result (λ body. body.group_bytes ≤ MAX_GROUP_BYTES) }
{
    let mut known = Names::new(alloc);
    let mut steps = Vec::new(alloc);
    let mut group_end = 0;
    'items: for item in items {
        group_end = judge_item(labels, variables, group_end, &mut known, &mut steps, item)?;
    }
    Ok(Body {
        steps,
        group_bytes: group_end,
    })
}
