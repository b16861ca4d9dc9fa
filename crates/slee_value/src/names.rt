//! Names of events in byte order. Contracts see their list.
ghost use Rattle.std.specs.Prelude.{◌≡◌, ◌++◌, ◌∷◌, [], IsTrue, IfOk, OnOk, OnErr, length};
ghost use Rattle.slee_value.specs.Order.{rises};

use crate::{NoMemory, Text};
use std::alloc::Global;
use std::marker::Model;

/// Names of events, rising in byte order.
#[derive(Debug, Drop)]
pub struct Names {
    names: Vec<Text>,
}

impl Model for Names {
    ghost use Rattle.std.specs.Prelude.{List, ℕ, IsTrue};
    ghost use Rattle.slee_value.specs.Order.{rises};

    ghost Value = { List (List ℕ) };

    ghost view = { λ n. n.names.items };

    ghost invariant = { λ n. IsTrue (rises n.names.items) };
}

impl Names {
    /// No names.
    pub fn new(alloc: Global) -> Self
        ensures { result ≡ [] }
    {
        Names {
            names: Vec::new(alloc),
        }
    }

    /// These names.
    pub fn from_vec(names: Vec<Text>) -> Self
        requires { IsTrue (rises names.items) }
        ensures { result ≡ names.items }
    {
        Names { names }
    }

    /// Adds a name behind all others.
    pub fn push(&mut self, name: Text) -> Result<(), NoMemory>
        requires { IsTrue (rises (self.old ++ name ∷ [])) }
        ensures ok { OnOk result (self.new ≡ self.old ++ name ∷ []) }
        ensures err { OnErr result (self.new ≡ self.old) }
    {
        self.names.push(name)?;
        Ok(())
    }

    /// The names.
    pub fn as_slice(&self) -> &[Text]
        ensures names { result.now ≡ self.now }
        ensures rising { IsTrue (rises self.now) }
    {
        &self.names
    }

    /// Gives the names out, without memory.
    pub fn into_vec(self) -> Vec<Text>
        ensures names { result.items ≡ self }
        ensures rising { IsTrue (rises self) }
    {
        self.names
    }

    /// How many names there are.
    pub fn len(&self) -> usize
        ensures length { result ≡ length self.now }
        ensures rising { IsTrue (rises self.now) }
    {
        self.names.len()
    }

    /// A copy.
    pub fn copy(&self, alloc: Global) -> Result<Self, NoMemory>
        ensures same { IfOk result (λ n. n ≡ self.now) }
        ensures rising { IsTrue (rises self.now) }
    {
        let names = copied_texts(alloc, self.as_slice())?;
        Ok(Names { names })
    }
}

fn copied_texts(alloc: Global, texts: &[Text]) -> Result<Vec<Text>, NoMemory>
    ensures { IfOk result (λ v. v.items ≡ texts.now) }
{
    let mut copied = Vec::new(alloc);
    for text in texts {
        copied.push(text.copy(alloc)?)?;
    }
    Ok(copied)
}
