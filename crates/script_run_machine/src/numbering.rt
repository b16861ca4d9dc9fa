//! Names with their numbers among all names of a deployment, by which they are told apart, and the numbers of the names in keys, answers and effects.
ghost use Rattle.std.specs.Prelude.{◌≡◌, IfOk, Some, bytes_eq, map};
ghost use Rattle.script_types.specs.Codes.{number_in};
ghost use Rattle.script_types.specs.Numbers.{IsNumbered};
ghost use Rattle.script_run_machine.specs.Numbering.{answer_numbers, effect_number, key_number, numbers_seen, spelled};

use script_meaning::{Key, Seen};
use script_types::{CodeList, NamedList, Symbol};
use slee_effect::Effect;
use slee_value::{Name, NoMemory, Text};
use std::alloc::Global;

/// A name as it stands in a script, a key, an answer or an effect. Its bytes are read only where they are needed.
#[derive(Debug, Clone, Copy)]
pub enum Spelling<'a> {
    Name(&'a Name),
    Text(&'a Text),
}

impl<'a> Spelling<'a> {
    /// Its bytes.
    fn as_bytes(&self) -> &'a [u8]
        ensures { result.now ≡ spelled self.now }
    {
        match self {
            Spelling::Name(name) => name.as_bytes(),
            Spelling::Text(text) => text.as_bytes(),
        }
    }
}

/// A name with its number.
#[derive(Debug, Clone, Copy)]
pub struct NumberedName<'a> {
    pub name: Spelling<'a>,
    pub number: Option<usize>,
}

impl<'a> NumberedName<'a> {
    /// That of a name in a script.
    #[inline(always)]
    pub fn of_name(symbol: &'a Symbol<Name>) -> Self
        ensures name { spelled result.name ≡ symbol.now.name }
        ensures number { result.number ≡ symbol.now.number }
    {
        NumberedName {
            name: Spelling::Name(&symbol.name),
            number: symbol.number,
        }
    }

    /// That of a key or an event in a script.
    #[inline(always)]
    pub fn of_text(symbol: &'a Symbol<Text>) -> Self
        ensures name { spelled result.name ≡ symbol.now.name }
        ensures number { result.number ≡ symbol.now.number }
    {
        NumberedName {
            name: Spelling::Text(&symbol.name),
            number: symbol.number,
        }
    }
}

/// Whether two names have the same bytes.
#[inline(never)]
fn is_same_spelling(one: Spelling, other: Spelling) -> bool
    ensures { result ≡ bytes_eq (spelled one.entry) (spelled other.entry) }
{
    one.as_bytes() == other.as_bytes()
}

/// Whether two are the same name. Their bytes are compared only where both are none of the deployment's names.
#[inline(always)]
#[tactic(auto, using(crate::proofs::NamingLemmas::same_by_numbers, crate::proofs::NamingLemmas::known_is_other, crate::proofs::NamingLemmas::other_is_known))]
pub fn is_same_name(names: &NamedList<Text>, one: NumberedName, other: NumberedName) -> bool
    requires one { one.number ≡ number_in names.now (spelled one.name) }
    requires other { other.number ≡ number_in names.now (spelled other.name) }
    ensures { result ≡ bytes_eq (spelled one.entry.name) (spelled other.entry.name) }
{
    match (one.number, other.number) {
        (Some(m), Some(n)) => m == n,
        (Some(_), None) => false,
        (None, Some(_)) => false,
        (None, None) => is_same_spelling(one.name, other.name),
    }
}

/// The number of a name.
pub(crate) fn number_of(names: &NamedList<Text>, name: &str) -> Option<usize>
    ensures { result ≡ number_in names.now name.now }
{
    names.place_of(name.as_bytes())
}

/// The number of a key's name.
#[tactic(auto)]
pub fn number_of_key(names: &NamedList<Text>, key: &Key) -> Option<usize>
    ensures { result ≡ key_number names.now key.now }
{
    match key {
        Key::Field(_, name) => number_of(names, name.as_str()),
        Key::Children(_, relation) => number_of(names, relation.as_str()),
        Key::Attr(_, key) => number_of(names, key.as_str()),
        Key::Profile(table, _) => number_of(names, table.as_str()),
        _ => None,
    }
}

/// The number of an effect's name.
#[tactic(auto)]
pub fn number_of_effect(names: &NamedList<Text>, effect: &Effect) -> Option<usize>
    ensures { result ≡ effect_number names.now effect.now }
{
    match effect {
        Effect::SetField { name, .. } => number_of(names, name.as_str()),
        Effect::SetAttr { key, .. } => number_of(names, key.as_str()),
        Effect::Create { relation, .. } => number_of(names, relation.as_str()),
        Effect::SetMask { event, .. } => number_of(names, event.as_str()),
        _ => None,
    }
}

/// The numbers of the names in an answer that was kept, and of its key's name.
#[derive(Debug, Drop)]
pub struct AnswerNumbers {
    pub key: Option<usize>,
    pub seen: CodeList<Option<usize>>,
}
