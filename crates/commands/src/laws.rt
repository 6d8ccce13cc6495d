//! Which kernels are told to have no entry, as a law of the definitions.

ghost use Rattle.std.specs.Prelude.{◌≡◌, ℕ, map};
ghost use Rattle.access_core.specs.Opening.{fault_behind, open_fault};
ghost use Rattle.policy.specs.Policy.{Declared};
ghost use Rattle.commands.specs.Kernels.{first_without_entry, kernel_of};

/// With what packets may launch by the kernels of a policy, a core is refused for want of an entry just where
/// a kernel's module has none of its entry's name, and the first such kernel is told; else it is refused just
/// where its audit can't have so many places.
pub fn law_missing_entries_are_told()
    ensures { (policy : Declared) (capacity : ℕ) →
        open_fault policy (map (λ row. kernel_of row.1) policy.kernels) capacity ≡ fault_behind capacity (first_without_entry policy.kernels) }
{}
