//! What is asked for. Each kind of key that scripts read often has a way of its own to be told from others, which goes past keys of another kind after one comparison.
ghost use Rattle.std.specs.Prelude.{◌≡◌};
ghost use Rattle.script_meaning.specs.Seeing.{same_key};
ghost use Rattle.script_types.specs.Numbers.{IsNumbered};
ghost use Rattle.script_run_machine.specs.Asking.{IsNumberedAsked, attribute_wanted, field_wanted, key_asked, state_wanted};
ghost use Rattle.script_run_machine.specs.Numbering.{key_number};

use crate::Asked;
use crate::keys::is_asked;
use crate::numbering::{NumberedName, Spelling, is_same_name};
use script_meaning::Key;
use script_types::{NamedList, Symbol};
use slee_value::{ActivityId, EntityId, Name, Text};

/// What is asked for: a key with names that are lent.
pub trait Wanted: Copy {
    ghost use Rattle.std.specs.Prelude.{◌≡◌, List, ℕ};
    ghost use Rattle.script_meaning.specs.declared.key.Key.{Key};
    ghost use Rattle.script_meaning.specs.Seeing.{same_key};
    ghost use Rattle.script_run_machine.specs.Asking.{IsNumberedAsked, key_asked};
    ghost use Rattle.script_run_machine.specs.Numbering.{key_number};

    /// The key.
    ghost key_of: { Self → Key };

    /// Says that its name has its number among these.
    ghost is_numbered: { List (List ℕ) → Self → Type 0 };

    /// Whether a key, whose name has this number, is that one.
    fn is(&self, names: &NamedList<Text>, one: &Key, number: Option<usize>) -> bool
        requires number { number ≡ key_number names.now one.now }
        requires wanted { is_numbered names.now self.now }
        ensures is { result ≡ same_key one.now (key_of self.now) }
        ensures turned { result ≡ same_key (key_of self.now) one.now };

    /// The same among keys of all kinds.
    fn asked(&self) -> Asked
        ensures key { key_asked result ≡ key_of self.now }
        ensures numbered { (names : List (List ℕ)) → is_numbered names self.now → IsNumberedAsked names result };
}

impl<'a> Wanted for Asked<'a> {
    ghost key_of = { key_asked };

    ghost is_numbered = { IsNumberedAsked };

    fn is(&self, names: &NamedList<Text>, one: &Key, number: Option<usize>) -> bool {
        is_asked(names, one, number, self)
    }

    fn asked(&self) -> Asked {
        *self
    }
}

/// A field of an entity.
#[derive(Debug, Clone, Copy)]
pub struct WantedField<'a> {
    pub entity: EntityId,
    pub name: &'a Symbol<Name>,
}

impl<'a> Wanted for WantedField<'a> {
    ghost key_of = { field_wanted };

    ghost is_numbered = { λ names x. IsNumbered names x.name.now };

    #[inline(always)]
    #[tactic(auto, using(crate::proofs::KeyLemmas::names_turned, crate::proofs::KeyLemmas::numbers_turned))]
    fn is(&self, names: &NamedList<Text>, one: &Key, number: Option<usize>) -> bool {
        let Key::Field(entity, name) = one else {
            return false;
        };
        let name = Spelling::Name(name);
        entity.0 == self.entity.0
            && is_same_name(
                names,
                NumberedName { name, number },
                NumberedName::of_name(self.name),
            )
    }

    fn asked(&self) -> Asked {
        Asked::Field(self.entity, self.name)
    }
}

/// An attribute of an activity.
#[derive(Debug, Clone, Copy)]
pub struct WantedAttribute<'a> {
    pub activity: ActivityId,
    pub key: &'a Symbol<Text>,
}

impl<'a> Wanted for WantedAttribute<'a> {
    ghost key_of = { attribute_wanted };

    ghost is_numbered = { λ names x. IsNumbered names x.key.now };

    #[inline(always)]
    #[tactic(auto, using(crate::proofs::KeyLemmas::names_turned, crate::proofs::KeyLemmas::numbers_turned))]
    fn is(&self, names: &NamedList<Text>, one: &Key, number: Option<usize>) -> bool {
        let Key::Attr(activity, key) = one else {
            return false;
        };
        let name = Spelling::Text(key);
        activity.0 == self.activity.0
            && is_same_name(
                names,
                NumberedName { name, number },
                NumberedName::of_text(self.key),
            )
    }

    fn asked(&self) -> Asked {
        Asked::Attr(self.activity, self.key)
    }
}

/// What is seen of an activity.
#[derive(Debug, Clone, Copy)]
pub struct WantedState {
    pub activity: ActivityId,
}

impl Wanted for WantedState {
    ghost key_of = { state_wanted };

    ghost is_numbered = { λ _ _. Unit {0} };

    #[inline(always)]
    #[tactic(auto, using(crate::proofs::KeyLemmas::numbers_turned))]
    fn is(&self, names: &NamedList<Text>, one: &Key, number: Option<usize>) -> bool {
        match one {
            Key::AcState(activity) => activity.0 == self.activity.0,
            _ => false,
        }
    }

    fn asked(&self) -> Asked {
        Asked::AcState(self.activity)
    }
}
