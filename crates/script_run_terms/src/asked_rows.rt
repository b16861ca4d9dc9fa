//! What is asked of rows of profile tables.
ghost use Rattle.std.specs.Prelude.{◌≡◌, ◌≤◌};
ghost use Rattle.script_types.specs.declared.term.Question.TheVariants as q;
ghost use Rattle.script_meaning.specs.Terms.{ask};
ghost use Rattle.script_meaning.specs.Values.{flag};
ghost use Rattle.script_types.specs.Numbers.{IsNumbered};
ghost use Rattle.script_run_machine.specs.Agreeing.{AgreesAs};
ghost use Rattle.script_run_machine.specs.Lending.{value_at, standing};
ghost use Rattle.script_run_machine.specs.Settings.{setting_of};

use script_run_machine::{Machine, Place, Scene, Stop};
use script_run_reads::{has_profile, profile_value};
use script_types::Symbol;
use slee_value::{Kind, Name};

/// `profile(NAME, e, NAME)`
#[tactic(auto, using(crate::proofs::AskedLemmas::profile_asked))]
pub(crate) fn ask_profile<'a>(
    machine: &mut Machine,
    scene: &Scene<'a>,
    table: &Symbol<Name>,
    name: &Symbol<Name>,
    kind: Kind,
    x: &Place,
) -> Result<Place<'a>, Stop>
    requires names { machine.old.names ≡ scene.now.names.now }
    requires table { IsNumbered scene.now.names.now table.now }
    requires name { IsNumbered scene.now.names.now name.now }
    ensures agrees { AgreesAs (value_at (standing machine.new)) (ask (setting_of scene.now) (q.Profile table.now name.now kind) (value_at (standing machine.old) x.now)) machine.old machine.new result }
    ensures spent { machine.new.left ≤ machine.old.left }
    ensures names { machine.new.names ≡ machine.old.names }
    ensures kept { standing machine.new ≡ standing machine.old }
{
    profile_value(machine, scene, table, x, name, kind)
}

/// `has_profile(NAME, e)`
#[tactic(auto, using(crate::proofs::AskedLemmas::has_profile_asked))]
pub(crate) fn ask_has_profile(
    machine: &mut Machine,
    scene: &Scene,
    table: &Symbol<Name>,
    x: &Place,
) -> Result<bool, Stop>
    requires names { machine.old.names ≡ scene.now.names.now }
    requires table { IsNumbered scene.now.names.now table.now }
    ensures agrees { AgreesAs flag (ask (setting_of scene.now) (q.HasProfile table.now) (value_at (standing machine.old) x.now)) machine.old machine.new result }
    ensures spent { machine.new.left ≤ machine.old.left }
    ensures names { machine.new.names ≡ machine.old.names }
    ensures kept { standing machine.new ≡ standing machine.old }
{
    has_profile(machine, scene, table, x)
}
