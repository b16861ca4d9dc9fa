//! Rows of profile tables, which no effect changes.
ghost use Rattle.std.specs.Prelude.{◌≡◌, ◌≤◌, IfOk, map};
ghost use Rattle.std.specs.Option.{option_copied, option_map};
ghost use Rattle.slee_effect.specs.declared.value.Val.TheVariants.{Plain};
ghost use Rattle.script_meaning.specs.Answers.{value_under};
ghost use Rattle.script_meaning.specs.Values.{flag};
ghost use Rattle.script_run_machine.specs.Agreeing.{AgreesAs};
ghost use Rattle.script_run_machine.specs.Lending.{value_at, standing};
ghost use Rattle.script_run_machine.specs.Settings.{setting_of};
ghost use Rattle.script_types.specs.Codes.{number_in};
ghost use Rattle.script_types.specs.Numbers.{IsNumbered};
ghost use Rattle.script_run_reads.specs.Rows.{AreNumberedIn, row_lent, row_of, profile_value, has_profile};

use crate::answers::row_in;
use script_meaning::FailKind;
use script_run_machine::{
    Asked, Lent, Machine, NumberedName, Place, Scene, Spelling, Stop, is_same_name, text_of,
};
use script_types::{NamedList, Symbol};
use slee_value::{Kind, Name, Payload, Text, Value};

/// A row with the numbers of its attributes' names.
#[derive(Debug, Clone, Copy)]
struct NumberedRow<'a> {
    row: &'a Payload,
    numbers: &'a [Option<usize>],
}

/// A row of a table, whose name is the text in this place, if it is there.
#[tactic(auto, using(script_run_machine::proofs::KindLemmas::no_text_stays))]
fn profile_row<'a>(
    machine: &mut Machine,
    scene: &Scene<'a>,
    table: &Symbol<Name>,
    key: &Place,
) -> Result<Option<NumberedRow<'a>>, Stop>
    requires names { machine.old.names ≡ scene.now.names.now }
    requires table { IsNumbered scene.now.names.now table.now }
    ensures agrees { AgreesAs row_lent (row_of (setting_of scene.now) table.now.name (value_at (standing machine.old) key.now)) machine.old machine.new result }
    ensures numbers { IfOk result (AreNumberedIn scene.now.names.now) }
    ensures spent { machine.new.left ≤ machine.old.left }
    ensures names { machine.new.names ≡ machine.old.names }
    ensures kept { standing machine.new ≡ standing machine.old }
{
    let name = text_of(machine.lend(key))?;
    let looked = machine.peek(scene, Some(Asked::Profile(table, name)))?;
    let numbers = looked.numbers;
    let seen = machine.note(looked)?;
    match row_in(seen) {
        Some(row) => Ok(Some(NumberedRow { row, numbers })),
        None => Ok(None),
    }
}

/// The value that stands under a name.
#[tactic(auto, using(script_run_machine::proofs::KeyLemmas::number_there))]
fn value_under<'a>(
    names: &NamedList<Text>,
    row: NumberedRow<'a>,
    name: &Symbol<Name>,
) -> Option<&'a Value>
    requires numbers { row.numbers.now ≡ map (λ f. number_in names.now f.0) row.row.now }
    requires name { IsNumbered names.now name.now }
    ensures { option_map Plain (option_copied result) ≡ value_under name.now.name row.entry.row.now }
{
    let fields = row.row.as_slice();
    let numbers = row.numbers;
    'fields: for place in 0..fields.len() {
        let (other, value) = &fields[place];
        let field = NumberedName {
            name: Spelling::Name(other),
            number: numbers[place],
        };
        if is_same_name(names, field, NumberedName::of_name(name)) {
            return Some(value);
        }
    }
    None
}

/// Where the value of a row's attribute stands, which has to be of the type.
pub fn profile_value<'a>(
    machine: &mut Machine,
    scene: &Scene<'a>,
    table: &Symbol<Name>,
    key: &Place,
    name: &Symbol<Name>,
    kind: Kind,
) -> Result<Place<'a>, Stop>
    requires names { machine.old.names ≡ scene.now.names.now }
    requires table { IsNumbered scene.now.names.now table.now }
    requires name { IsNumbered scene.now.names.now name.now }
    ensures agrees { AgreesAs (value_at (standing machine.new)) (profile_value (setting_of scene.now) table.now.name (value_at (standing machine.old) key.now) name.now.name kind) machine.old machine.new result }
    ensures spent { machine.new.left ≤ machine.old.left }
    ensures names { machine.new.names ≡ machine.old.names }
    ensures kept { standing machine.new ≡ standing machine.old }
{
    let Some(row) = profile_row(machine, scene, table, key)? else {
        return Err(Stop::Broken(FailKind::NoRow));
    };
    let Some(value) = value_under(scene.names, row, name) else {
        return Err(Stop::Broken(FailKind::NoRow));
    };
    let value = Lent::Held(value);
    if value.is_of(kind) {
        return Ok(Place::Outside(value));
    }
    Err(Stop::Broken(FailKind::NoRow))
}

/// Whether a table has a row whose name is the text in this place.
pub fn has_profile(
    machine: &mut Machine,
    scene: &Scene,
    table: &Symbol<Name>,
    key: &Place,
) -> Result<bool, Stop>
    requires names { machine.old.names ≡ scene.now.names.now }
    requires table { IsNumbered scene.now.names.now table.now }
    ensures agrees { AgreesAs flag (has_profile (setting_of scene.now) table.now.name (value_at (standing machine.old) key.now)) machine.old machine.new result }
    ensures spent { machine.new.left ≤ machine.old.left }
    ensures names { machine.new.names ≡ machine.old.names }
    ensures kept { standing machine.new ≡ standing machine.old }
{
    Ok(profile_row(machine, scene, table, key)?.is_some())
}
