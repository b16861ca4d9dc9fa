//! Lists that were used and are used again, so that calls, loops and joins take memory once. Nothing is seen of them.
ghost use Rattle.std.specs.Prelude.{◌≡◌, [], IfOk, box_value, string_bytes};

use crate::{Machine, Variable};
use slee_effect::{Ref, Val};
use slee_value::{NoMemory, Value};
use std::alloc::Global;
use std::mem;

/// Lists that were used.
#[derive(Debug, Drop)]
pub(crate) struct Spare {
    variables: Vec<Vec<Variable>>,
    items: Vec<Vec<Ref>>,
    text: String,
    boxes: Vec<Box<Val>>,
}

impl Spare {
    /// None.
    pub(crate) fn new(alloc: Global) -> Self {
        Spare {
            variables: Vec::new(alloc),
            items: Vec::new(alloc),
            text: String::new(alloc),
            boxes: Vec::new(alloc),
        }
    }
}

/// An empty list: one that was used, where there is one.
fn take_list<T: Drop>(used: &mut Vec<Vec<T>>, alloc: Global) -> Vec<T>
    ensures { result.items ≡ [] }
{
    let mut list = used.pop().unwrap_or(Vec::new(alloc));
    list.clear();
    list
}

/// Keeps what is needed no longer, where there is memory for it.
fn keep<T: Drop>(used: &mut Vec<T>, one: T) {
    match used.push(one) {
        Ok(()) | Err(_) => {}
    }
}

impl Machine<'_> {
    /// An empty list for the variables of a method.
    pub fn take_variables(&mut self, alloc: Global) -> Vec<Variable>
        ensures empty { result.items ≡ [] }
        ensures same { self.new ≡ self.old }
    {
        take_list(&mut self.spare.variables, alloc)
    }

    /// Keeps a list of variables that are needed no longer.
    pub fn keep_variables(&mut self, list: Vec<Variable>)
        ensures { self.new ≡ self.old }
    {
        keep(&mut self.spare.variables, list);
    }

    /// An empty list for what a loop goes over.
    pub fn take_items(&mut self, alloc: Global) -> Vec<Ref>
        ensures empty { result.items ≡ [] }
        ensures same { self.new ≡ self.old }
    {
        take_list(&mut self.spare.items, alloc)
    }

    /// Keeps a list of things that are needed no longer.
    pub fn keep_items(&mut self, list: Vec<Ref>)
        ensures { self.new ≡ self.old }
    {
        keep(&mut self.spare.items, list);
    }

    /// A value behind a pointer.
    pub fn put_in_box(&mut self, alloc: Global, value: Val) -> Result<Box<Val>, NoMemory>
        ensures value { IfOk result (λ b. box_value b ≡ value) }
        ensures same { self.new ≡ self.old }
    {
        match self.spare.boxes.pop() {
            Some(mut place) => {
                *place = value;
                Ok(place)
            }
            None => Ok(Box::new(alloc, value)?),
        }
    }

    /// The value behind a pointer, which is kept.
    pub fn take_out(&mut self, place: Box<Val>) -> Val
        ensures value { result ≡ box_value place }
        ensures same { self.new ≡ self.old }
    {
        let mut place = place;
        let value = mem::replace(&mut *place, Val::Plain(Value::Int(0)));
        keep(&mut self.spare.boxes, place);
        value
    }

    /// An empty text that others are written to.
    pub fn take_text(&mut self, alloc: Global) -> String
        ensures empty { string_bytes result ≡ [] }
        ensures same { self.new ≡ self.old }
    {
        let mut text = mem::replace(&mut self.spare.text, String::new(alloc));
        text.clear();
        text
    }

    /// Keeps a text that is needed no longer.
    pub fn keep_text(&mut self, text: String)
        ensures { self.new ≡ self.old }
    {
        self.spare.text = text;
    }
}
