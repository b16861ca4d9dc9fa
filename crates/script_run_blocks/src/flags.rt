//! Terms that decide which way a run goes.
ghost use Rattle.std.specs.Prelude.{◌≡◌, ◌≤◌};
ghost use Rattle.script_types.specs.ProgramOf.{term_of};
ghost use Rattle.script_meaning.specs.Terms.{eval};
ghost use Rattle.script_types.specs.Numbers.{IsNumberedTerm};
ghost use Rattle.script_run_machine.specs.Agreeing.{Agrees};
ghost use Rattle.script_run_machine.specs.Settings.{setting_of};
ghost use Rattle.script_run_blocks.specs.Loops.{flag_in};

use script_run_machine::{Machine, Scene, Stop};
use script_run_terms::eval_truth;
use script_types::Term;

/// What a term gives that is a truth value.
#[inline(always)]
#[tactic(auto, using(script_run_machine::proofs::KindLemmas::no_flag_stays))]
pub(crate) fn eval_flag(machine: &mut Machine, scene: &Scene, term: &Term) -> Result<bool, Stop>
    requires names { machine.old.names ≡ scene.now.names.now }
    requires term { IsNumberedTerm scene.now.names.now (term_of term.now) }
    ensures agrees { Agrees (flag_in (eval (setting_of scene.now) (term_of term.now))) machine.old machine.new result }
    ensures spent { machine.new.left ≤ machine.old.left }
    ensures names { machine.new.names ≡ machine.old.names }
{
    match eval_truth(machine, scene, term)? {
        Some(flag) => Ok(flag),
        None => Err(Stop::Unchecked),
    }
}
