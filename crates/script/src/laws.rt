//! What the lines of a script come to, as laws of their definitions.

ghost use Rattle.std.specs.Prelude.{◌≡◌, ◌∷◌, ℕ, List, Option, Some, true, false, bytes_eq, codes};
ghost use Rattle.std.specs.List.{list_all};
ghost use Rattle.std.specs.Option.{is_some};
ghost use Rattle.kernel_check.specs.Programs.{Program};
ghost use Rattle.policy.specs.Policy.{Declared};
ghost use Rattle.core_model.specs.History.{Part};
ghost use Rattle.core_model.specs.Rotation.{entries_in};
ghost use Rattle.world.specs.Actions.{Reaches};
ghost use Rattle.world.specs.Headline.{Headline, IsBegun};
ghost use Rattle.world.specs.States.{Joined};
ghost use Rattle.script.specs.declared.command.Command.{Command};
ghost use Rattle.script.specs.declared.watch.Never.{Never};
ghost use Rattle.script.specs.declared.lines.Line.{Line};
ghost use Rattle.script.specs.declared.lines.TheConstants.{LONGEST_LINE};
ghost use Rattle.script.specs.declared.run.TheConstants.{MOST_READS};
ghost use Rattle.script.specs.Expansions.{does};
ghost use Rattle.script.specs.Forms.{form_rows, is_formed};
ghost use Rattle.script.specs.Lines.{asked_by};
ghost use Rattle.script.specs.Limits.{longest_line, most_reads};
ghost use Rattle.script.specs.Runs.{EndsAt, Runs, Told, by_line, law, lines_of, parts_told};
ghost use Rattle.script.specs.Scripts.{Ending, RunsScript};
ghost use Rattle.script.specs.Splitting.{ended, is_line, joined};
ghost use Rattle.script.specs.Watchers.{worlds};
ghost use Rattle.words.specs.Lines.{Word};

use crate::voice::Voice;
use crate::watch::Watch;
use policy::Policy;
use world::{law_each_run_goes_on, law_headline};

/// The lines of a text, each with a line feed behind it, are the text, with a line feed behind a last line that has
/// none; and no line has a line feed in it.
pub fn law_lines_give_their_text_back()
    ensures back { (text : List ℕ) → joined (lines_of text) ≡ ended text }
    ensures lines { (text : List ℕ) → list_all is_line (lines_of text) ≡ true }
{}

/// What a line does is some requests to the world, served in turn, and hands out the part that its reply tells of, if it
/// does. So is what a run of a script does, however it ends; so a world that was in step stays so, behind the parts that
/// the run handed out (`law_each_run_goes_on`), and over a world that was just opened over a policy, with any kernels, the
/// headline holds.
pub fn law_scripts_are_requests(policy: &Policy)
    ensures line { (later : List Declared) (asked : Command) (old : Joined) (told : Told) (new : Joined) → does later asked old told new → Reaches old (parts_told told) new }
    ensures run { (later : List Declared) (old new : Joined) (held holds had left : Option (List ℕ)) (result : Ending Never) →
        RunsScript (worlds later) old new held holds had left result → (parts : List Part) × Reaches old parts new }
    ensures headline { (later : List Declared) (kernels : List Program) (capacity : ℕ) (lines : List (List ℕ)) (text : List ℕ) (opened world : Joined) →
        IsBegun opened policy.now kernels capacity → Runs (worlds later) opened lines text world →
        (parts : List Part) × Reaches opened parts world × Headline policy.now (entries_in parts) world }
{
    law_headline(policy);
    law_each_run_goes_on();
}

/// So are the lines that any watcher lets by, told in any voice, and so is the one at which it ends a run; turns that rotate the
/// audit are requests too.
pub fn watched_runs_are_requests<S: Voice, V: Watch>()
    ensures runs { (later : List Declared) (old : Joined) (lines : List (List ℕ)) (text : List ℕ) (new : Joined) →
        Runs (law (by_line S.tells) V.watching later) old lines text new → (parts : List Part) × Reaches old parts new }
    ensures ends { (later : List Declared) (old : Joined) (line : List ℕ) (last : List ℕ) (new : Joined) →
        EndsAt (law (by_line S.tells) V.watching later) old new line last → (parts : List Part) × Reaches old parts new }
{}

/// The table of forms is what lines are read by. The words of a line that asks something are those of one of its forms,
/// the first its name and each other one of its class. The words of a form ask something, whatever the policy is; those
/// of `reload` where there is a further policy of that number.
pub fn law_lines_are_of_forms()
    ensures formed { (policy : Declared) (later : ℕ) (name : Word) (words : List Word) (asked : Line) →
        asked_by policy later (name ∷ words) ≡ Some asked → is_formed form_rows name words ≡ true }
    ensures read { (policy : Declared) (later : ℕ) (name : Word) (words : List Word) → is_formed form_rows name words ≡ true →
        bytes_eq name (codes "reload") ≡ false → is_some (asked_by policy later (name ∷ words)) ≡ true }
{}

/// The code's limits of a line and of a run's reads are those of the rules.
pub fn law_numbers_are_those_of_the_rules()
    ensures line { LONGEST_LINE ≡ longest_line }
    ensures reads { MOST_READS ≡ most_reads }
{}
