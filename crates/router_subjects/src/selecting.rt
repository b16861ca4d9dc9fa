//! Initial selections: a service is marked for the head event, and the root that the event selects is attached (JSR 240, 8.5).
ghost use Rattle.std.specs.Prelude.{◌≡◌, ◌++◌, ◌∷◌, IfOk, OnOk};
ghost use Rattle.router_state.specs.Changes.{after_change};
ghost use Rattle.router_state.specs.declared.change.Change.TheVariants as changes;
ghost use Rattle.router_steps.specs.Moves.{attached, lines_of_attached};
ghost use Rattle.router_draft.specs.Drafts.{CanBeMade, IsLow, laid};
ghost use Rattle.router_subjects.specs.Roots.{CanSelect, heading_of_root, lines_of_root_attached, root_attached, root_in, rooted};

use router_draft::{Draft, change, reading};
use router_moves::{Setting, attach, set_first_fields};
use router_state::Change;
use slee_value::{ActivityId, ConvName, EntityId, EventId, NoMemory, Text};
use std::alloc::Global;

/// A service that is to select for the head event of an activity.
#[derive(Clone, Copy)]
pub struct Due {
    pub activity: ActivityId,
    pub event: EventId,
    pub service: u32,
}

/// The root that an event selects.
#[derive(Drop)]
pub enum Root {
    /// None: the event isn't initial for the service.
    NotInitial,
    /// A root that has the convergence name.
    Old(EntityId),
    /// A new one, of this block and priority.
    New {
        block: u32,
        priority: i8,
        name: ConvName,
    },
}

/// What a service declares of its roots: their block and their priority.
#[derive(Clone, Copy)]
struct Declared {
    block: u32,
    priority: i8,
}

/// A new root of the service, with the next number and the convergence name.
#[tactic(auto, using(crate::proofs::RootLemmas::rooted_so))]
fn create<S: Setting>(
    alloc: Global,
    setting: &S,
    draft: &mut Draft,
    service: u32,
    declared: Declared,
    name: ConvName,
) -> Result<EntityId, NoMemory>
    requires low { IsLow (S.state setting.now) }
    requires made { CanBeMade (S.state setting.now) draft.old }
    ensures number { IfOk result (λ e. e.0 ≡ (laid (S.state setting.now) draft.old).next_entity) }
    ensures state { OnOk result (laid (S.state setting.now) draft.new ≡ rooted (laid (S.state setting.now) draft.old) service declared.block declared.priority name) }
    ensures lines { OnOk result (draft.new.lines ≡ draft.old.lines) }
    ensures made { OnOk result (CanBeMade (S.state setting.now) draft.new) }
{
    let entity = reading::next_entity(setting, draft);
    change(
        setting,
        draft,
        Change::CreateRoot {
            block: declared.block,
            service,
            priority: declared.priority,
        },
    )?;
    change(setting, draft, Change::Root { entity, name })?;
    set_first_fields(alloc, setting, draft, entity, declared.block)?;
    Ok(entity)
}

/// A new root, attached to the activity.
#[tactic(auto, using(crate::proofs::RootLemmas::there_so, crate::proofs::RootLemmas::linked_so))]
fn attach_new<S: Setting>(
    alloc: Global,
    setting: &S,
    draft: &mut Draft,
    due: Due,
    declared: Declared,
    name: ConvName,
) -> Result<(), NoMemory>
    requires low { IsLow (S.state setting.now) }
    requires made { CanBeMade (S.state setting.now) draft.old }
    ensures state { OnOk result (laid (S.state setting.now) draft.new ≡ attached (rooted (laid (S.state setting.now) draft.old) due.service declared.block declared.priority name) (laid (S.state setting.now) draft.old).next_entity due.activity.0) }
    ensures lines { OnOk result (draft.new.lines ≡ draft.old.lines ++ lines_of_attached (laid (S.state setting.now) draft.old) (laid (S.state setting.now) draft.old).next_entity due.activity.0) }
    ensures made { OnOk result (CanBeMade (S.state setting.now) draft.new) }
{
    let entity = create(alloc, setting, draft, due.service, declared, name)?;
    attach(alloc, setting, draft, entity, due.activity)?;
    Ok(())
}

/// The root is attached to the activity.
#[tactic(auto, using(crate::proofs::RootLemmas::given_so, crate::proofs::RootLemmas::lines_so, crate::proofs::RootLemmas::old_there))]
fn attach_root<S: Setting>(
    alloc: Global,
    setting: &S,
    draft: &mut Draft,
    due: Due,
    root: Root,
) -> Result<(), NoMemory>
    requires low { IsLow (S.state setting.now) }
    requires made { CanBeMade (S.state setting.now) draft.old }
    requires can { CanSelect (laid (S.state setting.now) draft.old) due.service root }
    ensures state { OnOk result (laid (S.state setting.now) draft.new ≡ root_attached due.activity.0 due.service (root_in root) (laid (S.state setting.now) draft.old)) }
    ensures lines { OnOk result (draft.new.lines ≡ draft.old.lines ++ lines_of_root_attached due.activity.0 due.service (root_in root) (laid (S.state setting.now) draft.old)) }
    ensures made { OnOk result (CanBeMade (S.state setting.now) draft.new) }
{
    match root {
        Root::NotInitial => Ok(()),
        Root::Old(entity) => attach(alloc, setting, draft, entity, due.activity),
        Root::New {
            block,
            priority,
            name,
        } => {
            let declared = Declared { block, priority };
            attach_new(alloc, setting, draft, due, declared, name)
        }
    }
}

/// The line of a selection by the service of this key, above all others.
fn heading<S: Setting>(
    alloc: Global,
    setting: &S,
    draft: &Draft,
    due: Due,
    key: &str,
    root: &Root,
) -> Result<Text, NoMemory>
    requires low { IsLow (S.state setting.now) }
    ensures { IfOk result (λ line. line ≡ heading_of_root due.activity.0 due.event.0 key.now (root_in root.now) (laid (S.state setting.now) draft.now)) }
{
    match root {
        Root::NotInitial => router_text::initial_none(alloc, due.activity, due.event, key),
        Root::Old(entity) => {
            router_text::initial(alloc, due.activity, due.event, key, *entity, "old")
        }
        Root::New { .. } => {
            let entity = reading::next_entity(setting, draft);
            router_text::initial(alloc, due.activity, due.event, key, entity, "new")
        }
    }
}

/// The service selects this root for the head event, and the root is attached to the activity; the service selects for this event no more.
#[tactic(auto, using(crate::proofs::RootLemmas::told_so, crate::proofs::RootLemmas::can_marked))]
pub fn select<S: Setting>(
    alloc: Global,
    setting: &S,
    draft: &mut Draft,
    due: Due,
    key: &str,
    root: Root,
) -> Result<(), NoMemory>
    requires low { IsLow (S.state setting.now) }
    requires made { CanBeMade (S.state setting.now) draft.old }
    requires can { CanSelect (laid (S.state setting.now) draft.old) due.service root }
    ensures state { OnOk result (laid (S.state setting.now) draft.new ≡ root_attached due.activity.0 due.service (root_in root) (after_change (changes.MarkService due.activity due.service) (laid (S.state setting.now) draft.old))) }
    ensures lines { OnOk result (draft.new.lines ≡ draft.old.lines ++ heading_of_root due.activity.0 due.event.0 key.now (root_in root) (laid (S.state setting.now) draft.old) ∷ lines_of_root_attached due.activity.0 due.service (root_in root) (laid (S.state setting.now) draft.old)) }
    ensures made { OnOk result (CanBeMade (S.state setting.now) draft.new) }
{
    draft.tell(&heading(alloc, setting, draft, due, key, &root)?)?;
    change(
        setting,
        draft,
        Change::MarkService {
            activity: due.activity,
            service: due.service,
        },
    )?;
    attach_root(alloc, setting, draft, due, root)?;
    Ok(())
}
