//! Laws of grants over any list of calls, proved as contracts of calls that do nothing.

ghost use Rattle.grants.specs.Laws.{LawOfCalls};

/// After any list of grants, revocations, holds, releases and reloads from the beginning, a right is in force
/// where it was granted, and neither revoked nor denied by other rows since, and a packet holds what it came to
/// hold until it is released; each right that a packet holds is in force; what is declared stays, and what may be
/// granted is what the rows of the last reload allow.
pub fn law_of_calls()
    ensures { LawOfCalls }
{}
