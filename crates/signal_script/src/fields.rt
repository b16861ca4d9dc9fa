//! The field words of a line. Contracts see the list of names and values.
ghost use Rattle.std.specs.Prelude.{◌≡◌, ◌+◌, ◌++◌, ◌∷◌, [], length, IsTrue, IsUtf8, IfOk, IfSome, OnOk, OnErr, MatchOption};
ghost use Rattle.smallvec.specs.SmallVec.{HasRoomFor};
ghost use Rattle.slee_value.specs.Name.{is_name};
ghost use Rattle.signal_script.specs.Signals.{has_field};

use slee_value::NoMemory;
use smallvec::SmallVec;
use std::alloc::Global;
use std::marker::Model;
use std::{fmt, str};

/// The most bytes of names and values that take no memory: they are kept in the fields themselves.
const INLINE_TEXT: usize = 32;

/// The most fields whose ends take none.
const INLINE_FIELDS: usize = 1;

/// Where a field's name ends and its value, in the text of all fields.
#[derive(Clone, Copy, Debug, Default)]
pub(crate) struct FieldEnds {
    name: usize,
    value: usize,
}

/// The field words of a line, in its order: their names and values in one piece of memory, and beside it where each ends.
#[derive(Drop)]
pub struct Fields {
    text: SmallVec<u8, INLINE_TEXT>,
    ends: SmallVec<FieldEnds, INLINE_FIELDS>,
}

impl Model for Fields {
    ghost use Rattle.std.specs.Prelude.{List, ℕ};
    ghost use Rattle.signal_script.specs.Fields.{AreFields, fields_behind};

    ghost Value = { List (List ℕ × List ℕ) };

    ghost view = { λ f. fields_behind f.text.items 0 f.ends.items };

    ghost invariant = { λ f. AreFields f.text.items 0 f.ends.items };
}

impl Fields {
    /// No fields.
    #[tactic(auto, using(crate::proofs::FieldLemmas::no_fields))]
    pub fn new(alloc: Global) -> Self
        ensures { result ≡ [] }
    {
        Fields {
            text: SmallVec::new(alloc),
            ends: SmallVec::new(alloc),
        }
    }

    /// How many there are.
    #[tactic(auto, using(crate::proofs::FieldLemmas::one_each))]
    pub fn len(&self) -> usize
        ensures { result ≡ length self.now }
    {
        self.ends.len()
    }

    /// All of them, to be looked at one after another.
    pub fn all(&self) -> FieldsLeft<'_>
        ensures { result ≡ self.now }
    {
        FieldsLeft {
            text: self.text.as_slice(),
            from: 0,
            ends: self.ends.as_slice(),
        }
    }

    /// Adds a field at the end.
    #[tactic(auto, using(crate::proofs::FieldLemmas::field_added, crate::proofs::FieldLemmas::fields_stay))]
    pub fn push(&mut self, name: &str, value: &str) -> Result<(), NoMemory>
        requires { IsTrue (is_name name.now) }
        ensures ok { OnOk result (self.new ≡ self.old ++ (name.now, value.now) ∷ []) }
        ensures err { OnErr result (self.new ≡ self.old) }
    {
        self.ends.reserve(1)?;
        self.text.reserve(name.len() + value.len())?;
        let (name, value) = add_parts(&mut self.text, name.as_bytes(), value.as_bytes());
        self.ends.push_reserved(FieldEnds { name, value });
        Ok(())
    }

    /// Whether one of them has this name.
    pub fn has(&self, name: &str) -> bool
        ensures { result ≡ has_field self.now name.now }
    {
        let mut left = self.all();
        while let Some(((key, _), more)) = left.split_first() {
            if key == name {
                return true;
            }
            left = more;
        }
        false
    }

    pub fn copy(&self, alloc: Global) -> Result<Self, NoMemory>
        ensures { IfOk result (λ fields. fields ≡ self.now) }
    {
        Ok(Fields {
            text: SmallVec::from_slice(alloc, self.text.as_slice())?,
            ends: SmallVec::from_slice(alloc, self.ends.as_slice())?,
        })
    }
}

impl fmt::Debug for Fields {
    fn fmt<W: fmt::Write>(&self, f: &mut fmt::Formatter<W>) -> fmt::Result {
        write!(f, "{:?} {:?}", self.text.as_slice(), self.ends.as_slice())
    }
}

/// Adds a name and a value, in the room that was made, and tells where each ends.
fn add_parts(text: &mut SmallVec<u8, INLINE_TEXT>, name: &[u8], value: &[u8]) -> (usize, usize)
    requires { HasRoomFor text.old (length name.now + length value.now) }
    ensures text { text.new.items ≡ (text.old.items ++ name.now) ++ value.now }
    ensures name { result.0 ≡ length text.old.items + length name.now }
    ensures value { result.1 ≡ length text.old.items + length name.now + length value.now }
{
    let Ok(()) = text.extend_from_slice(name) else {
        unreachable!()
    };
    let name_end = text.len();
    let Ok(()) = text.extend_from_slice(value) else {
        unreachable!()
    };
    (name_end, text.len())
}

/// Fields that are still to be looked at. Contracts see the list of them.
#[derive(Drop)]
pub struct FieldsLeft<'a> {
    text: &'a [u8],
    from: usize,
    ends: &'a [FieldEnds],
}

impl<'a> Model for FieldsLeft<'a> {
    ghost use Rattle.std.specs.Prelude.{List, ℕ};
    ghost use Rattle.signal_script.specs.Fields.{AreFields, fields_behind};

    ghost Value = { List (List ℕ × List ℕ) };

    ghost view = { λ f. fields_behind f.text.now f.from f.ends.now };

    ghost invariant = { λ f. AreFields f.text.now f.from f.ends.now };
}

impl<'a> FieldsLeft<'a> {
    /// The name and value of the first of them, and those behind it.
    #[tactic(auto, using(crate::proofs::FieldLemmas::none_left, crate::proofs::FieldLemmas::first_left))]
    pub fn split_first(&self) -> Option<((&'a str, &'a str), FieldsLeft<'a>)>
        ensures field { MatchOption result (self.now ≡ []) (λ parts. self.now ≡ (parts.0.0.now, parts.0.1.now) ∷ parts.1) }
        ensures name { IfSome result (λ parts. IsTrue (is_name parts.0.0.now)) }
    {
        let (end, ends) = self.ends.split_first()?;
        let name = &self.text[self.from..end.name];
        let value = &self.text[end.name..end.value];
        // Both are bytes of a text.
        let field = unsafe {
            (
                str::from_utf8_unchecked(name),
                str::from_utf8_unchecked(value),
            )
        };
        let more = FieldsLeft {
            text: self.text,
            from: end.value,
            ends,
        };
        Some((field, more))
    }
}
