//! Services become Active, and stop (JSR 240, chapter 9).
ghost use Rattle.std.specs.Prelude.{◌≡◌, ◌++◌, ◌∷◌, [], codes, length, nat_lt, IfOk, IsTrue, OnOk};
ghost use Rattle.deploy_model.specs.Deployed.{service_key};
ghost use Rattle.router_state.specs.Changes.{after_change};
ghost use Rattle.router_state.specs.Contexts.{is_active};
ghost use Rattle.router_state.specs.declared.change.Change.TheVariants as changes;
ghost use Rattle.router_state.specs.declared.rows.AcKind.TheVariants as kinds;
ghost use Rattle.router_state.specs.declared.rows.ServiceState.TheVariants as states;
ghost use Rattle.router_steps.specs.Lines.{service_line, started_line};
ghost use Rattle.router_steps.specs.Moves.{with_service};
ghost use Rattle.router_steps.specs.Taking.{activated, lines_of_activated, ended_if, lines_of_ended_if};
ghost use Rattle.router_draft.specs.Drafts.{CanBeMade, IsLow, laid};

use built_in_events::BuiltInEvent;
use router_draft::{Base, Draft, change, reading};
use router_moves::{end, queue};
use router_state::{AcKind, Change, ServiceState};
use slee_value::{ActivityId, NoMemory, Payload, Text};
use std::alloc::Global;

/// A state with the keys of its services.
pub trait Keys: Base {
    /// The key of the service, empty where there is none.
    fn service_key(&self, service: u32) -> &str
        ensures { result.now ≡ service_key (Self.state self.now).deployment service };
}

/// The words for what a service's activity stands for.
fn words_of(alloc: Global, key: &str) -> Result<Text, NoMemory>
    ensures { IfOk result (λ words. words ≡ codes "service " ++ key.now) }
{
    let mut words = String::new(alloc);
    write!(words, "service {key}")?;
    Ok(Text::from(words))
}

/// The lines of a service that becomes Active, and of its activity.
fn tell_activated<K: Keys>(
    alloc: Global,
    keys: &K,
    draft: &mut Draft,
    service: u32,
    activity: ActivityId,
) -> Result<(), NoMemory>
    ensures changes { OnOk result (draft.new.changes ≡ draft.old.changes) }
    ensures lines { OnOk result (draft.new.lines ≡ draft.old.lines ++ (service_line (service_key (laid (K.state keys.now) draft.old).deployment service) (codes "active") ∷ started_line activity.0 (codes "service " ++ service_key (laid (K.state keys.now) draft.old).deployment service) ∷ [])) }
{
    let key = keys.service_key(service);
    draft.tell(&router_text::service(alloc, key, "active")?)?;
    let words = words_of(alloc, key)?;
    draft.tell(&router_text::started(alloc, activity, words.as_str())?)?;
    Ok(())
}

/// The service has this state and this activity.
fn set_service<B: Base>(
    base: &B,
    draft: &mut Draft,
    service: u32,
    state: ServiceState,
    activity: ActivityId,
) -> Result<(), NoMemory>
    requires there { IsTrue (nat_lt service (length (laid (B.state base.now) draft.old).services)) }
    requires made { CanBeMade (B.state base.now) draft.old }
    ensures state { OnOk result (laid (B.state base.now) draft.new ≡ with_service (laid (B.state base.now) draft.old) service state activity.0) }
    ensures lines { OnOk result (draft.new.lines ≡ draft.old.lines) }
    ensures made { OnOk result (CanBeMade (B.state base.now) draft.new) }
{
    change(
        base,
        draft,
        Change::Service {
            service,
            state,
            activity,
        },
    )
}

/// The service is Active, with a new activity. Answers its number.
fn open<B: Base>(base: &B, draft: &mut Draft, service: u32) -> Result<(), NoMemory>
    requires low { IsLow (B.state base.now) }
    requires there { IsTrue (nat_lt service (length (laid (B.state base.now) draft.old).services)) }
    requires made { CanBeMade (B.state base.now) draft.old }
    ensures state { OnOk result (laid (B.state base.now) draft.new ≡ with_service (after_change (changes.Start (kinds.Service service)) (laid (B.state base.now) draft.old)) service states.Active (laid (B.state base.now) draft.old).next_activity) }
    ensures lines { OnOk result (draft.new.lines ≡ draft.old.lines) }
    ensures made { OnOk result (CanBeMade (B.state base.now) draft.new) }
{
    let activity = reading::next_activity(base, draft);
    let kind = AcKind::Service(service);
    change(base, draft, Change::Start { kind })?;
    set_service(base, draft, service, ServiceState::Active, activity)
}

/// The service is Active, with a new activity, on which its start waits for it alone.
pub fn activate<K: Keys>(
    alloc: Global,
    keys: &K,
    draft: &mut Draft,
    service: u32,
) -> Result<(), NoMemory>
    requires low { IsLow (K.state keys.now) }
    requires there { IsTrue (nat_lt service (length (laid (K.state keys.now) draft.old).services)) }
    requires made { CanBeMade (K.state keys.now) draft.old }
    ensures state { OnOk result (laid (K.state keys.now) draft.new ≡ activated service (laid (K.state keys.now) draft.old)) }
    ensures lines { OnOk result (draft.new.lines ≡ draft.old.lines ++ lines_of_activated service (laid (K.state keys.now) draft.old)) }
    ensures made { OnOk result (CanBeMade (K.state keys.now) draft.new) }
{
    let activity = reading::next_activity(keys, draft);
    tell_activated(alloc, keys, draft, service, activity)?;
    open(keys, draft, service)?;
    let name = Text::from_str(alloc, BuiltInEvent::ServiceStarted.name())?;
    let fields = Payload::new(alloc);
    queue(alloc, keys, draft, activity, name, fields, Some(service))?;
    Ok(())
}

/// Whether the activity is there and isn't Ending.
#[tactic(auto, using(crate::proofs::ServiceLemmas::active_some, crate::proofs::ServiceLemmas::active_none))]
fn is_active<B: Base>(base: &B, draft: &Draft, activity: ActivityId) -> bool
    ensures { result ≡ is_active (laid (B.state base.now) draft.now).activities activity.0 }
{
    match reading::activity(base, draft, activity) {
        Some((_, ending)) => !ending,
        None => false,
    }
}

/// The activity ends where it is Active.
fn end_if<B: Base>(
    alloc: Global,
    base: &B,
    draft: &mut Draft,
    activity: ActivityId,
) -> Result<(), NoMemory>
    requires low { IsLow (B.state base.now) }
    requires made { CanBeMade (B.state base.now) draft.old }
    ensures state { OnOk result (laid (B.state base.now) draft.new ≡ ended_if activity.0 (laid (B.state base.now) draft.old)) }
    ensures lines { OnOk result (draft.new.lines ≡ draft.old.lines ++ lines_of_ended_if activity.0 (laid (B.state base.now) draft.old)) }
    ensures made { OnOk result (CanBeMade (B.state base.now) draft.new) }
{
    if is_active(base, draft, activity) {
        end(alloc, base, draft, activity)
    } else {
        Ok(())
    }
}

/// The line of a service that stops.
#[tactic(auto, using(crate::proofs::LaidLemmas::key_laid))]
fn tell_stopping<K: Keys>(
    alloc: Global,
    keys: &K,
    draft: &mut Draft,
    service: u32,
) -> Result<(), NoMemory>
    ensures changes { OnOk result (draft.new.changes ≡ draft.old.changes) }
    ensures lines { OnOk result (draft.new.lines ≡ draft.old.lines ++ service_line (service_key (laid (K.state keys.now) draft.old).deployment service) (codes "stopping") ∷ []) }
{
    let key = keys.service_key(service);
    draft.tell(&router_text::service(alloc, key, "stopping")?)?;
    Ok(())
}

/// The service stops, and its activity ends where it is Active.
pub fn stop<K: Keys>(
    alloc: Global,
    keys: &K,
    draft: &mut Draft,
    service: u32,
    activity: ActivityId,
) -> Result<(), NoMemory>
    requires low { IsLow (K.state keys.now) }
    requires there { IsTrue (nat_lt service (length (laid (K.state keys.now) draft.old).services)) }
    requires made { CanBeMade (K.state keys.now) draft.old }
    ensures state { OnOk result (laid (K.state keys.now) draft.new ≡ ended_if activity.0 (with_service (laid (K.state keys.now) draft.old) service states.Stopping activity.0)) }
    ensures lines { OnOk result (draft.new.lines ≡ draft.old.lines ++ service_line (service_key (laid (K.state keys.now) draft.old).deployment service) (codes "stopping") ∷ lines_of_ended_if activity.0 (laid (K.state keys.now) draft.old)) }
    ensures made { OnOk result (CanBeMade (K.state keys.now) draft.new) }
{
    tell_stopping(alloc, keys, draft, service)?;
    set_service(keys, draft, service, ServiceState::Stopping, activity)?;
    end_if(alloc, keys, draft, activity)?;
    Ok(())
}
