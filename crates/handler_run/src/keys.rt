//! Lists of keys, and of answers by their keys.
ghost use Rattle.std.specs.Prelude.{◌≡◌, ◌++◌, ◌∷◌, [], OnOk, OnErr, length};

use script_meaning::{Key, Seen};
use slee_value::NoMemory;
use std::alloc::Global;
use std::marker::Model;

/// The keys that a transaction read, in order.
#[derive(Debug, Drop)]
pub struct Keys {
    keys: Vec<Key>,
}

impl Model for Keys {
    ghost use Rattle.std.specs.Prelude.{List};
    ghost use Rattle.script_meaning.specs.declared.key.Key.{Key};

    ghost Value = { List Key };

    ghost view = { λ k. k.keys.items };
}

impl Keys {
    /// No keys.
    pub fn new(alloc: Global) -> Self
        ensures { result ≡ [] }
    {
        Keys {
            keys: Vec::new(alloc),
        }
    }

    /// These keys.
    pub fn from_vec(keys: Vec<Key>) -> Self
        ensures { result ≡ keys.items }
    {
        Keys { keys }
    }

    /// Adds a key behind all others.
    pub fn push(&mut self, key: Key) -> Result<(), NoMemory>
        ensures ok { OnOk result (self.new ≡ self.old ++ key ∷ []) }
        ensures err { OnErr result (self.new ≡ self.old) }
    {
        self.keys.push(key)?;
        Ok(())
    }

    /// The keys.
    pub fn as_slice(&self) -> &[Key]
        ensures { result.now ≡ self.now }
    {
        &self.keys
    }

    /// How many keys there are.
    pub fn len(&self) -> usize
        ensures { result ≡ length self.now }
    {
        self.keys.len()
    }
}

/// What is known of the state: answers by their keys. Of two answers to one key the first counts.
#[derive(Debug, Drop)]
pub struct Known {
    answers: Vec<(Key, Seen)>,
}

impl Model for Known {
    ghost use Rattle.std.specs.Prelude.{List};
    ghost use Rattle.script_meaning.specs.declared.key.Key.{Key};
    ghost use Rattle.script_meaning.specs.declared.seen.Seen.{Seen};

    ghost Value = { List (Key × Seen) };

    ghost view = { λ k. k.answers.items };
}

impl Known {
    /// Nothing.
    pub fn new(alloc: Global) -> Self
        ensures { result ≡ [] }
    {
        Known {
            answers: Vec::new(alloc),
        }
    }

    /// Adds an answer behind all others.
    pub fn push(&mut self, key: Key, seen: Seen) -> Result<(), NoMemory>
        ensures ok { OnOk result (self.new ≡ self.old ++ (key, seen) ∷ []) }
        ensures err { OnErr result (self.new ≡ self.old) }
    {
        self.answers.push((key, seen))?;
        Ok(())
    }

    /// The answers.
    pub fn as_slice(&self) -> &[(Key, Seen)]
        ensures { result.now ≡ self.now }
    {
        &self.answers
    }
}
