//! Units of the operators of a chain.
ghost use Rattle.std.specs.Prelude.{◌≡◌, ◌≤◌};
ghost use Rattle.script_run_machine.specs.Agreeing.{Agrees};
ghost use Rattle.script_run_machine.specs.Lending.{standing};
ghost use Rattle.script_run_terms.specs.Links.{spend};

use script_run_machine::{Machine, Stop};

/// Spends so many units.
pub(crate) fn spend(machine: &mut Machine, units: usize) -> Result<(), Stop>
    ensures agrees { Agrees (spend units) machine.old machine.new result }
    ensures spent { machine.new.left ≤ machine.old.left }
    ensures names { machine.new.names ≡ machine.old.names }
    ensures kept { standing machine.new ≡ standing machine.old }
{
    'units: for _unit in 0..units {
        machine.tick()?;
    }
    Ok(())
}
