//! The built-in events, as one table.
ghost use Rattle.std.specs.Prelude.{◌≡◌, ◌∷◌, [], IsTrue, MatchOption, ⊤, bytes_eq, find, option_copied};
ghost use Rattle.slee_value.specs.Name.{is_name};
ghost use Rattle.built_in_events.specs.BuiltIn.{name_of, fields_of, kind_of_field, event_named};

use slee_value::Kind;

/// An event that no deployment declares.
#[derive(Debug, Clone, Copy, PartialEq, Eq)]
pub enum BuiltInEvent {
    ActivityEnd,
    Timer,
    ServiceStarted,
    ProfileAdded,
    ProfileUpdated,
    ProfileRemoved,
}

/// All of them.
const EVENTS: [BuiltInEvent; 6] = [
    BuiltInEvent::ActivityEnd,
    BuiltInEvent::Timer,
    BuiltInEvent::ServiceStarted,
    BuiltInEvent::ProfileAdded,
    BuiltInEvent::ProfileUpdated,
    BuiltInEvent::ProfileRemoved,
];

/// The first of these events that has that name.
fn first_named<'a>(events: &'a [BuiltInEvent], name: &[u8]) -> Option<&'a BuiltInEvent>
    ensures { option_copied result ≡ find (λ e. bytes_eq (name_of e) name.now) events.now }
{
    events.iter().find(|event| event.name().as_bytes() == name)
}

impl BuiltInEvent {
    /// The event of that name.
    pub fn named(name: &[u8]) -> Option<Self>
        ensures { result ≡ event_named name.now }
    {
        first_named(EVENTS.as_slice(), name).copied()
    }

    /// Its name.
    pub fn name(self) -> &'static str
        ensures { result.now ≡ name_of self }
    {
        match self {
            BuiltInEvent::ActivityEnd => "activity-end",
            BuiltInEvent::Timer => "timer",
            BuiltInEvent::ServiceStarted => "service-started",
            BuiltInEvent::ProfileAdded => "profile-added",
            BuiltInEvent::ProfileUpdated => "profile-updated",
            BuiltInEvent::ProfileRemoved => "profile-removed",
        }
    }

    /// The name and the type of its one field, where it has one.
    pub fn field(self) -> Option<(&'static str, Kind)>
        ensures field { MatchOption result (fields_of self ≡ []) (λ f. fields_of self ≡ (f.0.now, f.1) ∷ []) }
        ensures name { MatchOption result ⊤ (λ f. IsTrue (is_name f.0.now)) }
    {
        match self {
            BuiltInEvent::ActivityEnd | BuiltInEvent::ServiceStarted => None,
            BuiltInEvent::Timer => Some(("which", Kind::Timer)),
            BuiltInEvent::ProfileAdded
            | BuiltInEvent::ProfileUpdated
            | BuiltInEvent::ProfileRemoved => Some(("row", Kind::Text)),
        }
    }

    /// The type of its field of that name.
    pub fn kind_of_field(self, name: &str) -> Option<Kind>
        ensures { result ≡ kind_of_field name.now self }
    {
        let (declared, kind) = self.field()?;
        if declared == name { Some(kind) } else { None }
    }
}
