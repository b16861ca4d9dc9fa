//! Expressions without parts.
ghost use Rattle.std.specs.Prelude.{◌≡◌, [], length, option_map};
ghost use Rattle.script_tree.specs.declared.tree.Leaf.TheVariants as leaves;
ghost use Rattle.script_tree.specs.Spelling.{spell_leaf};
ghost use Rattle.script_types.specs.Elaboration.{constant_of, event_field, event_field_for, failure_for, leaf_of};
ghost use Rattle.script_check_terms.specs.Answers.{Gives};
ghost use Rattle.script_check_terms.specs.SettingOf.{setting_of, role_of};
ghost use Rattle.script_check_terms.specs.TypedTerms.{typed_atom_of};

use crate::lookup::{kind_of_field, place_of_table, relation_named, symbol_of};
use crate::{
    Locals, Role, ScriptFault, Setting, behind, check_child, check_known, check_not_on_remove,
    check_value,
};
use script_tree::{Constant, Identifier, Leaf};
use script_types::{Atom, CheckBad, FieldCode, Misuse, NamedList};
use slee_value::{ActivityId, Kind, Value};

/// What an expression without parts is made into.
#[derive(Drop)]
pub struct TypedAtom {
    pub kind: Kind,
    pub atom: Atom,
}

/// How many tokens it has.
pub fn tokens_of_leaf(leaf: &Leaf) -> usize
    ensures { result ≡ length (spell_leaf leaf.now) }
{
    match leaf {
        Leaf::Int(_) | Leaf::Text(_) | Leaf::Constant(_) | Leaf::Variable(_) => 1,
        Leaf::Field(_) | Leaf::EventField(_) => 3,
        Leaf::Table(_) | Leaf::Count(_) | Leaf::Priority(_) => 4,
    }
}

/// The type and the atom of an expression without parts; `at` tokens stand before it.
pub fn check_leaf(
    setting: &Setting,
    scope: &Locals,
    at: usize,
    leaf: &Leaf,
) -> Result<TypedAtom, ScriptFault>
    ensures { Gives typed_atom_of result (leaf_of (setting_of setting.now) scope.now at leaf.now) }
{
    match leaf {
        Leaf::Int(number) => Ok(TypedAtom {
            kind: Kind::Int,
            atom: Atom::Constant(Value::Int(number.get())),
        }),
        Leaf::Text(literal) => Ok(TypedAtom {
            kind: Kind::Text,
            atom: Atom::Constant(Value::Text(literal.text().copy(setting.alloc)?)),
        }),
        Leaf::Constant(word) => check_constant(setting, at, *word),
        Leaf::Variable(name) => {
            let found = check_value(scope, name.as_bytes(), at)?;
            Ok(TypedAtom {
                kind: found.kind,
                atom: Atom::Slot(found.place),
            })
        }
        Leaf::Field(name) => check_field(setting, at, name),
        Leaf::EventField(name) => check_event_field(setting, at, name),
        Leaf::Table(name) => check_table(setting, at, name),
        Leaf::Count(name) => check_count(setting, at, name),
        Leaf::Priority(name) => {
            let found = check_child(scope, name.as_bytes(), behind(at, 2)?)?;
            check_not_on_remove(setting, at)?;
            Ok(TypedAtom {
                kind: Kind::Int,
                atom: Atom::Priority(found.place),
            })
        }
    }
}

/// An expression of one word.
fn check_constant(setting: &Setting, at: usize, word: Constant) -> Result<TypedAtom, ScriptFault>
    ensures { Gives typed_atom_of result (constant_of (setting_of setting.now) at word) }
{
    match word {
        Constant::True => Ok(TypedAtom {
            kind: Kind::Bool,
            atom: Atom::Constant(Value::Bool(true)),
        }),
        Constant::False => Ok(TypedAtom {
            kind: Kind::Bool,
            atom: Atom::Constant(Value::Bool(false)),
        }),
        Constant::Nothing => Ok(TypedAtom {
            kind: Kind::Activity,
            atom: Atom::Constant(Value::Activity(ActivityId(0))),
        }),
        Constant::Now => {
            check_not_on_remove(setting, at)?;
            Ok(TypedAtom {
                kind: Kind::Int,
                atom: Atom::Now,
            })
        }
        Constant::Activity => {
            check_not_on_remove(setting, at)?;
            Ok(TypedAtom {
                kind: Kind::Activity,
                atom: Atom::Activity,
            })
        }
        Constant::Failure => check_failure(&setting.role, at),
    }
}

/// `failure` is for exception and rolled-back callbacks.
fn check_failure(role: &Role, at: usize) -> Result<TypedAtom, ScriptFault>
    ensures { Gives typed_atom_of result (failure_for (role_of role.now) at) }
{
    match role {
        Role::OnException | Role::OnRolledBack => Ok(TypedAtom {
            kind: Kind::Text,
            atom: Atom::Failure,
        }),
        _ => Err(ScriptFault::At(Misuse {
            at,
            kind: CheckBad::Place,
        })),
    }
}

/// `self.NAME`
fn check_field(setting: &Setting, at: usize, name: &Identifier) -> Result<TypedAtom, ScriptFault>
    ensures { Gives typed_atom_of result (leaf_of (setting_of setting.now) [] at (leaves.Field name.now)) }
{
    let fields = &setting.block.fields;
    let kind = check_known(behind(at, 2)?, kind_of_field(fields, name.as_bytes()))?;
    Ok(TypedAtom {
        kind,
        atom: Atom::Field(symbol_of(setting, name)?, kind),
    })
}

/// A field of an event by its place.
#[tactic(auto, using(crate::proofs::LookupLemmas::event_field_is))]
fn event_field(fields: &NamedList<FieldCode>, name: &[u8]) -> Option<TypedAtom>
    ensures { option_map typed_atom_of result ≡ event_field 0 name.now fields.now }
{
    let place = fields.place_of(name)?;
    let field = fields.find(name)?;
    Some(TypedAtom {
        kind: field.kind,
        atom: Atom::EventField(place, field.kind),
    })
}

/// `event.NAME`, which is for handlers.
fn check_event_field(
    setting: &Setting,
    at: usize,
    name: &Identifier,
) -> Result<TypedAtom, ScriptFault>
    ensures { Gives typed_atom_of result (event_field_for (role_of setting.now.role) at name.now) }
{
    match &setting.role {
        Role::OnEvent(fields) => check_known(behind(at, 2)?, event_field(fields, name.as_bytes())),
        _ => Err(ScriptFault::At(Misuse {
            at,
            kind: CheckBad::Place,
        })),
    }
}

/// `table(NAME)`
fn check_table(setting: &Setting, at: usize, name: &Identifier) -> Result<TypedAtom, ScriptFault>
    ensures { Gives typed_atom_of result (leaf_of (setting_of setting.now) [] at (leaves.Table name.now)) }
{
    let found = place_of_table(setting.codes, name.as_bytes());
    let place = check_known(behind(at, 2)?, found)?;
    check_not_on_remove(setting, at)?;
    let number = behind(place, 1)?;
    Ok(TypedAtom {
        kind: Kind::Activity,
        atom: Atom::Constant(Value::Activity(ActivityId(number as u64))),
    })
}

/// `count(RELATION)`
fn check_count(setting: &Setting, at: usize, name: &Identifier) -> Result<TypedAtom, ScriptFault>
    ensures { Gives typed_atom_of result (leaf_of (setting_of setting.now) [] at (leaves.Count name.now)) }
{
    let found = relation_named(setting.block, name.as_bytes());
    check_known(behind(at, 2)?, found)?;
    check_not_on_remove(setting, at)?;
    Ok(TypedAtom {
        kind: Kind::Int,
        atom: Atom::Count(symbol_of(setting, name)?),
    })
}
