//! Laws of policy files.

ghost use Rattle.std.specs.Prelude.{◌≡◌};
ghost use Rattle.toml.specs.Data.{Members};
ghost use Rattle.std.specs.Result.{result_err};
ghost use Rattle.policy.specs.Checks.{file_checks, first_of};
ghost use Rattle.policy.specs.Format.{declared_by};
ghost use Rattle.policy.specs.Limits.{most_agents, most_allow_rows, most_clients, most_deny_rows, most_kernels, most_memory_bytes, most_name_bytes, most_policy_bytes, most_signals, takes_nothing};
ghost use Rattle.policy.specs.Rights.{set_of};
ghost use Rattle.policy.specs.declared.limits.TheConstants.{MOST_AGENTS, MOST_ALLOW_ROWS, MOST_CLIENTS, MOST_DENY_ROWS, MOST_KERNELS, MOST_MEMORY_BYTES, MOST_NAME_BYTES, MOST_POLICY_BYTES, MOST_SIGNALS};
ghost use Rattle.policy.specs.declared.rights.Right.TheVariants.{Use, Read, Write, Wait, Change, Launch};
ghost use Rattle.policy.specs.declared.rights.TheConstants.Rights.{USE, READ, WRITE, WAIT, CHANGE, LAUNCH};
ghost use Rattle.policy.specs.declared.row.TheConstants.{TAKES_NOTHING};

/// The fault of a file is that of the first of its checks that fails, each check by itself: array by array, row by
/// row, and in a row its keys, their values in order, and its names. Where none fails, the file has no fault. It
/// does nothing.
pub fn law_faults_are_first()
    ensures { (file : Members) → result_err (declared_by file) ≡ first_of (file_checks file) }
{}

/// The code's limits of a policy, the bits of the rights, and what an agent takes that takes nothing, are those of the
/// rules. It does nothing.
pub fn law_numbers_are_those_of_the_rules()
    ensures text { MOST_POLICY_BYTES ≡ most_policy_bytes }
    ensures name { MOST_NAME_BYTES ≡ most_name_bytes }
    ensures clients { MOST_CLIENTS ≡ most_clients }
    ensures agents { MOST_AGENTS ≡ most_agents }
    ensures signals { MOST_SIGNALS ≡ most_signals }
    ensures kernels { MOST_KERNELS ≡ most_kernels }
    ensures allows { MOST_ALLOW_ROWS ≡ most_allow_rows }
    ensures denies { MOST_DENY_ROWS ≡ most_deny_rows }
    ensures memory { MOST_MEMORY_BYTES ≡ most_memory_bytes }
    ensures use_agent { USE ≡ set_of Use }
    ensures read { READ ≡ set_of Read }
    ensures write { WRITE ≡ set_of Write }
    ensures wait { WAIT ≡ set_of Wait }
    ensures change { CHANGE ≡ set_of Change }
    ensures launch { LAUNCH ≡ set_of Launch }
    ensures takes_nothing { TAKES_NOTHING ≡ takes_nothing }
{}
