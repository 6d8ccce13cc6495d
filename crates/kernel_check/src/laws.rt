//! Laws of the check.

ghost use Rattle.std.specs.Prelude.{◌≡◌, ℕ, List, Bool, true, false, Option, Some, None};
ghost use Rattle.std.specs.List.{All, Contains};
ghost use Rattle.kernel_check.specs.Causes.{instruction_fails};
ghost use Rattle.kernel_check.specs.Checks.{program_of};
ghost use Rattle.kernel_check.specs.Faults.{Checkpoint, causes, first_fault, least_cause};
ghost use Rattle.kernel_check.specs.Laws.{IsFirst, IsEarliest, IsFaithful};
ghost use Rattle.kernel_check.specs.Limits.{greatest_dimension, greatest_register, most_argument_bytes, most_group_bytes, most_instructions, most_kernels};
ghost use Rattle.kernel_check.specs.Needs.{leaves_nothing_out};
ghost use Rattle.kernel_check.specs.Programs.{Ascends};
ghost use Rattle.kernel_check.specs.Reads.{KeepsAll, KeepsOrder};
ghost use Rattle.kernel_check.specs.StepWords.{step_words, word_of};
ghost use Rattle.kernel_check.specs.Steps.{step_of};
ghost use Rattle.kernel_check.specs.declared.fault.CheckCause.{CheckCause};
ghost use Rattle.kernel_check.specs.declared.fault.CheckFault.{CheckFault};
ghost use Rattle.kernel_check.specs.declared.layout.Placed.{Placed};
ghost use Rattle.kernel_check.specs.declared.limits.TheConstants.{MAX_ARGUMENT_BYTES, MAX_DIMENSION, MAX_GROUP_BYTES, MAX_INSTRUCTIONS, MAX_KERNELS, MAX_REGISTER};
ghost use Rattle.hsail_reader.specs.RowOperations.{IsOfRow};
ghost use Rattle.hsail_reader.specs.declared.module.Kernel.{Kernel};
ghost use Rattle.hsail_reader.specs.declared.module.Operation.{Operation};

/// The fault of a list of items is that of the earliest item that fails, and its cause the one of
/// least number by which that item fails; without a fault no item fails by any cause. It does nothing.
pub fn law_faults_are_earliest()
    ensures earliest { (checks : List Checkpoint) (f : CheckFault) → first_fault checks ≡ Some f → IsEarliest checks f }
    ensures all_pass { (checks : List Checkpoint) → first_fault checks ≡ None → All (λ c. c.cause ≡ None) checks }
    ensures least { (fails : CheckCause → Bool) (c : CheckCause) → least_cause fails ≡ Some c → IsFirst fails causes c }
    ensures none { (fails : CheckCause → Bool) → least_cause fails ≡ None → (c : CheckCause) → fails c ≡ false }
{}

/// The step of an instruction that fails by no cause has the instruction's own registers, an argument
/// or a group variable that the kernel declares, and the place of a label that it has; and a step sets the first operand of its
/// instruction and reads the others, in their order. It does nothing.
pub fn law_steps_are_faithful()
    ensures faithful { (arguments : List ℕ → Option Placed) (labels : List ℕ → Option ℕ) (number : ℕ) (op : Operation)
        → least_cause (instruction_fails arguments labels number op) ≡ None → IsFaithful arguments labels op }
    ensures order { (arguments : List ℕ → Option Placed) (labels : List ℕ → Option ℕ) (op : Operation)
        → KeepsOrder op (step_of arguments labels op) }
{}

/// An operation of a row of the table, as each of a module is (`operations_are_of_rows` of `hsail_reader`), has all
/// that its step needs: registers and sources of the step's classes, an address, a label or a dimension where
/// the step has one, and a type for which there are such steps. Its step sets the register of the number that
/// the text sets, if there is one, and reads all the sources of the text, registers by number, in their order.
/// It does nothing.
pub fn law_steps_have_what_they_need()
    ensures needed { (op : Operation) → IsOfRow op → leaves_nothing_out op ≡ true }
    ensures all { (arguments : List ℕ → Option Placed) (labels : List ℕ → Option ℕ) (op : Operation)
        → IsOfRow op → KeepsAll op (step_of arguments labels op) }
{}

/// An instruction does what its word says: of an operation of a row of the table the row's stem, with the name of
/// the operation's type, is one of the words that its step stands for. It does nothing.
pub fn law_steps_do_what_words_say()
    ensures { (arguments : List ℕ → Option Placed) (labels : List ℕ → Option ℕ) (op : Operation) (of_row : IsOfRow op)
        → Contains (step_words (step_of arguments labels op)) (word_of of_row.row op.kind) }
{}

/// The offsets of a kernel's arguments of 64 bits ascend. It does nothing.
pub fn law_wide_arguments_ascend()
    ensures { (kernel : Kernel) → Ascends (program_of kernel).wide }
{}

/// The code's limits of kernels are those of the rules. It does nothing.
pub fn law_numbers_are_those_of_the_rules()
    ensures instructions { MAX_INSTRUCTIONS ≡ most_instructions }
    ensures arguments { MAX_ARGUMENT_BYTES ≡ most_argument_bytes }
    ensures group { MAX_GROUP_BYTES ≡ most_group_bytes }
    ensures kernels { MAX_KERNELS ≡ most_kernels }
    ensures register { MAX_REGISTER ≡ greatest_register }
    ensures dimension { MAX_DIMENSION ≡ greatest_dimension }
{}
