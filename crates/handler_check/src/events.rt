//! The fields of the events that handlers are for.
ghost use Rattle.std.specs.Prelude.{◌≡◌, [], IfOk, option_map};
ghost use Rattle.built_in_events.specs.declared.built_in.BuiltInEvent.TheVariants as events;
ghost use Rattle.script_types.specs.Codes.{built_in, built_in_code, named};
ghost use Rattle.script_types.specs.CodesOf.{codes_of};
ghost use Rattle.script_types.specs.Typing.{fields_of_event};

use built_in_events::BuiltInEvent;
use script_check_terms::event_named;
use script_types::{Codes, FieldCode, NamedList};
use slee_value::{Name, NoMemory};
use std::alloc::Global;

/// The fields of the events that no deployment declares.
#[derive(Drop)]
pub(crate) struct BuiltInFields {
    nothing: NamedList<FieldCode>,
    timer: NamedList<FieldCode>,
    row: NamedList<FieldCode>,
    ghost none: { nothing ≡ [] },
    ghost timers: { timer ≡ (built_in_code events.Timer).fields },
    ghost rows: { row ≡ (built_in_code events.ProfileAdded).fields },
}

/// The fields of a built-in event.
fn fields_from(alloc: Global, event: BuiltInEvent) -> Result<NamedList<FieldCode>, NoMemory>
    ensures { IfOk result (λ l. l ≡ (built_in_code event).fields) }
{
    let Some((name, kind)) = event.field() else {
        return Ok(NamedList::new(alloc));
    };
    let name = Name::from_slice(alloc, name.as_bytes())?;
    let mut fields = Vec::new(alloc);
    fields.push(FieldCode { name, kind })?;
    NamedList::from_items(alloc, fields)
}

impl BuiltInFields {
    pub(crate) fn new(alloc: Global) -> Result<Self, NoMemory> {
        Ok(BuiltInFields {
            nothing: NamedList::new(alloc),
            timer: fields_from(alloc, BuiltInEvent::Timer)?,
            row: fields_from(alloc, BuiltInEvent::ProfileAdded)?,
        })
    }

    /// Those of a built-in event.
    fn fields_at(&self, event: BuiltInEvent) -> &NamedList<FieldCode>
        ensures { result.now ≡ (built_in_code event).fields }
    {
        match event {
            BuiltInEvent::ActivityEnd | BuiltInEvent::ServiceStarted => &self.nothing,
            BuiltInEvent::Timer => &self.timer,
            BuiltInEvent::ProfileAdded
            | BuiltInEvent::ProfileUpdated
            | BuiltInEvent::ProfileRemoved => &self.row,
        }
    }

    /// Those of the built-in event of that name.
    #[tactic(auto, using(crate::proofs::BuiltInLemmas::built_in_named))]
    fn of_event(&self, name: &[u8]) -> Option<&NamedList<FieldCode>>
        ensures { option_map (λ f. f.now) result ≡ option_map (λ e. e.fields) (named (λ e. e.name) name.now built_in) }
    {
        let event = BuiltInEvent::named(name)?;
        Some(self.fields_at(event))
    }

    /// The fields of an event that is declared or built in; none of any other.
    pub(crate) fn fields_of<'a>(&'a self, codes: &'a Codes, name: &[u8]) -> &'a NamedList<FieldCode>
        ensures { result.now ≡ fields_of_event name.now (codes_of codes.now) }
    {
        if let Some(fields) = self.of_event(name) {
            return fields;
        }
        match event_named(codes, name) {
            Some(event) => &event.fields,
            None => &self.nothing,
        }
    }
}
