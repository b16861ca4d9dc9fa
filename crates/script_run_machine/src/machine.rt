//! The state of a run: its variables, the units that are left, its keys and its effects, with the numbers of the names in these.
ghost use Rattle.std.specs.Prelude.{◌≡◌, ◌≤◌, ◌<◌, ◌+◌, OnOk, OnErr, true, false};
ghost use Rattle.script_meaning.specs.Running.{Holds, tick, declare, assign};
ghost use Rattle.script_meaning.specs.Meaning.{start};
ghost use Rattle.script_meaning.specs.Values.{int, text};
ghost use Rattle.script_run_machine.specs.Agreeing.{Agrees};
ghost use Rattle.script_run_machine.specs.Lending.{standing};
ghost use Rattle.script_run_machine.specs.Machines.{state_of};
ghost use Rattle.script_run_machine.specs.Spending.{with_units, Assigns};

use crate::spare::Spare;
use crate::{Stop, Variable};
use script_meaning::{FailKind, Key};
use script_types::NamedList;
use slee_effect::{Effect, Val};
use slee_value::Text;
use std::alloc::Global;
use std::marker::Model;

/// How many units a run has.
pub const UNIT_LIMIT: u32 = 10_000;

/// A run so far.
#[derive(Drop)]
pub struct Machine<'a> {
    pub(crate) names: &'a NamedList<Text>,
    pub(crate) variables: Vec<Variable>,
    pub(crate) left: u32,
    pub(crate) is_asked: bool,
    pub(crate) keys: Vec<Key>,
    pub(crate) key_numbers: Vec<Option<usize>>,
    pub(crate) effects: Vec<Effect>,
    pub(crate) effect_numbers: Vec<Option<usize>>,
    /// How many bytes the effects have.
    pub(crate) bytes: u32,
    /// Lists that are used again.
    pub(crate) spare: Spare,
}

impl<'a> Model for Machine<'a> {
    ghost use Rattle.std.specs.Prelude.{◌≡◌, ◌≤◌, length, map};
    ghost use Rattle.script_meaning.specs.Running.{bytes_of, effect_limit, effect_bytes_limit};
    ghost use Rattle.script_run_machine.specs.Machines.{MachineState};
    ghost use Rattle.script_run_machine.specs.Numbering.{effect_number, key_number};

    ghost Value = { MachineState };

    ghost view = { λ m. record { variables = m.variables.items; left = m.left; asked = m.is_asked; keys = m.keys.items; effects = m.effects.items; names = m.names.now } };

    ghost invariant = { λ m. (m.bytes ≡ bytes_of m.effects.items) × (m.bytes ≤ effect_bytes_limit) × (length m.effects.items ≤ effect_limit) × (m.key_numbers.items ≡ map (key_number m.names.now) m.keys.items) × (m.effect_numbers.items ≡ map (effect_number m.names.now) m.effects.items) };
}

impl<'a> Machine<'a> {
    /// The state before the first step.
    pub fn new(alloc: Global, names: &'a NamedList<Text>) -> Self
        ensures state { state_of result ≡ start }
        ensures names { result.names ≡ names.now }
    {
        Machine {
            names,
            variables: Vec::new(alloc),
            left: UNIT_LIMIT,
            is_asked: false,
            keys: Vec::new(alloc),
            key_numbers: Vec::new(alloc),
            effects: Vec::new(alloc),
            effect_numbers: Vec::new(alloc),
            bytes: 0,
            spare: Spare::new(alloc),
        }
    }

    /// Spends one unit.
    #[tactic(auto, unfolding(crate::specs::Lending::standing))]
    pub fn tick(&mut self) -> Result<(), Stop>
        ensures agrees { Agrees tick self.old self.new result }
        ensures less { OnOk result (self.new.left + 1 ≡ self.old.left) }
        ensures spent { self.new.left ≤ self.old.left }
        ensures names { self.new.names ≡ self.old.names }
        ensures kept { standing self.new ≡ standing self.old }
    {
        if self.left == 0 {
            return Err(Stop::Broken(FailKind::Budget));
        }
        self.left -= 1;
        Ok(())
    }

    /// Spends so many units, or none where fewer are left.
    #[inline(always)]
    #[tactic(auto, unfolding(crate::specs::Lending::standing))]
    pub fn try_spend(&mut self, units: u32) -> bool
        ensures spent { result ≡ true → state_of self.old ≡ with_units units (state_of self.new) }
        ensures few { result ≡ false → (self.new ≡ self.old) × (self.old.left < units) }
        ensures names { self.new.names ≡ self.old.names }
        ensures kept { standing self.new ≡ standing self.old }
    {
        if self.left < units {
            return false;
        }
        self.left -= units;
        true
    }

    /// A new variable behind all others.
    pub fn declare(&mut self, variable: Variable) -> Result<(), Stop>
        ensures agrees { Agrees (declare variable) self.old self.new result }
        ensures spent { self.new.left ≤ self.old.left }
        ensures names { self.new.names ≡ self.old.names }
    {
        self.variables.push(variable)?;
        Ok(())
    }

    /// A new variable behind all others, which holds this number.
    #[inline(always)]
    pub fn declare_number(&mut self, number: i64) -> Result<(), Stop>
        ensures agrees { Agrees (declare (Holds (int number))) self.old self.new result }
        ensures spent { self.new.left ≤ self.old.left }
        ensures names { self.new.names ≡ self.old.names }
    {
        self.variables.push(Variable::of_number(number))?;
        Ok(())
    }

    /// Gives a value to the variable in this place.
    pub fn assign(&mut self, place: usize, value: Val) -> Result<(), Stop>
        ensures agrees { Agrees (assign place value) self.old self.new result }
        ensures spent { self.new.left ≤ self.old.left }
        ensures names { self.new.names ≡ self.old.names }
    {
        if place < self.variables.len() {
            self.variables[place] = Variable::of_value(value);
            return Ok(());
        }
        Err(Stop::Unchecked)
    }

    /// Spends so many units and gives a number to the variable in this place, or does nothing where either can't be done.
    #[inline(always)]
    pub fn try_assign_number(&mut self, units: u32, place: usize, number: i64) -> bool
        ensures done { result ≡ true → Assigns units place number self.old self.new }
        ensures undone { result ≡ false → self.new ≡ self.old }
        ensures names { self.new.names ≡ self.old.names }
        ensures spent { self.new.left ≤ self.old.left }
    {
        if self.left < units || place >= self.variables.len() {
            return false;
        }
        self.left -= units;
        self.variables[place].set_number(number);
        true
    }

    /// Gives a text to the variable in this place.
    #[inline(always)]
    pub fn assign_text(&mut self, place: usize, given: Text) -> Result<(), Stop>
        ensures agrees { Agrees (assign place (text given)) self.old self.new result }
        ensures spent { self.new.left ≤ self.old.left }
        ensures names { self.new.names ≡ self.old.names }
    {
        if place < self.variables.len() {
            self.variables[place] = Variable::of_text(given);
            return Ok(());
        }
        Err(Stop::Unchecked)
    }

    /// Gives a number to the variable in this place.
    #[inline(always)]
    pub fn assign_number(&mut self, place: usize, number: i64) -> Result<(), Stop>
        ensures agrees { Agrees (assign place (int number)) self.old self.new result }
        ensures spent { self.new.left ≤ self.old.left }
        ensures names { self.new.names ≡ self.old.names }
    {
        if place < self.variables.len() {
            self.variables[place].set_number(number);
            return Ok(());
        }
        Err(Stop::Unchecked)
    }
}
