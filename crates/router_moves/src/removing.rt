//! Entities go, each with its tree (JSR 240, chapter 6).
ghost use Rattle.std.specs.Prelude.{◌≡◌, ◌++◌, ◌∷◌, [], OnOk, IsTrue};
ghost use Rattle.router_state.specs.Changes.{after_changes};
ghost use Rattle.router_state.specs.Fitting.{has_entity};
ghost use Rattle.router_state.specs.Trees.{tree_of};
ghost use Rattle.router_stores.specs.Making.{CanMakeAll};
ghost use Rattle.router_steps.specs.Going.{all_removed, changes_of_all_removed, changes_of_removal, lines_of_all_removed, removed, lines_of_removed, tree_removed, lines_of_tree_removed};
ghost use Rattle.router_draft.specs.Drafts.{laid, CanBeMade, IsLow};
ghost use Rattle.router_moves.specs.Cuts.{detachings};

use crate::Setting;
use router_draft::{Draft, change, reading, tree};
use router_state::Change;
use slee_value::{ActivityId, EntityId, NoMemory, Text};
use std::alloc::Global;

/// An attachment goes, with its masks.
fn cut<S: Setting>(
    setting: &S,
    draft: &mut Draft,
    entity: EntityId,
    activity: u64,
) -> Result<(), NoMemory>
    requires made { CanBeMade (S.state setting.now) draft.old }
    ensures state { OnOk result (laid (S.state setting.now) draft.new ≡ after_changes (detachings entity.0 (activity ∷ [])) (laid (S.state setting.now) draft.old)) }
    ensures lines { OnOk result (draft.new.lines ≡ draft.old.lines) }
    ensures made { OnOk result (CanBeMade (S.state setting.now) draft.new) }
{
    let activity = ActivityId(activity);
    change(setting, draft, Change::Detach { entity, activity })?;
    change(setting, draft, Change::ForgetMasks { entity, activity })?;
    Ok(())
}

/// Attachments go, with their masks.
#[tactic(auto, using(crate::proofs::RemovingLemmas::one_cut))]
fn cut_all<S: Setting>(
    setting: &S,
    draft: &mut Draft,
    entity: EntityId,
    activities: &[u64],
) -> Result<(), NoMemory>
    requires made { CanBeMade (S.state setting.now) draft.old }
    ensures state { OnOk result (laid (S.state setting.now) draft.new ≡ after_changes (detachings entity.0 activities.now) (laid (S.state setting.now) draft.old)) }
    ensures lines { OnOk result (draft.new.lines ≡ draft.old.lines) }
    ensures made { OnOk result (CanBeMade (S.state setting.now) draft.new) }
{
    'activities: for activity in activities {
        cut(setting, draft, entity, *activity)?;
    }
    Ok(())
}

/// What an entity says when it goes.
fn tell_all(draft: &mut Draft, lines: &[Text]) -> Result<(), NoMemory>
    ensures changes { OnOk result (draft.new.changes ≡ draft.old.changes) }
    ensures lines { OnOk result (draft.new.lines ≡ draft.old.lines ++ lines.now) }
{
    'lines: for line in lines {
        draft.tell(line)?;
    }
    Ok(())
}

/// The lines of an entity that goes.
#[tactic(auto, using(crate::proofs::RemovingLemmas::told_removed))]
fn tell_removed<S: Setting>(
    alloc: Global,
    setting: &S,
    draft: &mut Draft,
    entity: EntityId,
) -> Result<(), NoMemory>
    ensures changes { OnOk result (draft.new.changes ≡ draft.old.changes) }
    ensures lines { OnOk result (draft.new.lines ≡ draft.old.lines ++ lines_of_removed (laid (S.state setting.now) draft.old) entity.0) }
{
    let words = setting.last_words(alloc, draft, entity)?;
    tell_all(draft, &words)?;
    draft.tell(&router_text::removed(alloc, entity)?)?;
    Ok(())
}

/// An entity goes, which has no child.
#[tactic(auto, using(crate::proofs::RemovingLemmas::removal_is, crate::proofs::RemovingLemmas::removal_can))]
fn remove<S: Setting>(
    alloc: Global,
    setting: &S,
    draft: &mut Draft,
    entity: EntityId,
) -> Result<(), NoMemory>
    requires made { CanBeMade (S.state setting.now) draft.old }
    requires can { CanMakeAll (changes_of_removal (laid (S.state setting.now) draft.old) entity.0) (laid (S.state setting.now) draft.old) }
    ensures state { OnOk result (laid (S.state setting.now) draft.new ≡ removed (laid (S.state setting.now) draft.old) entity.0) }
    ensures lines { OnOk result (draft.new.lines ≡ draft.old.lines ++ lines_of_removed (laid (S.state setting.now) draft.old) entity.0) }
    ensures made { OnOk result (CanBeMade (S.state setting.now) draft.new) }
{
    let activities = reading::activities(alloc, setting, draft, entity)?;
    tell_removed(alloc, setting, draft, entity)?;
    cut_all(setting, draft, entity, &activities)?;
    change(setting, draft, Change::ForgetFields { entity })?;
    change(setting, draft, Change::Remove { entity })?;
    Ok(())
}

/// These entities go, the first of them first.
#[tactic(auto, using(crate::proofs::RemovingLemmas::first_at))]
fn remove_all<S: Setting>(
    alloc: Global,
    setting: &S,
    draft: &mut Draft,
    members: &[u64],
) -> Result<(), NoMemory>
    requires made { CanBeMade (S.state setting.now) draft.old }
    requires can { CanMakeAll (changes_of_all_removed members.now (laid (S.state setting.now) draft.old)) (laid (S.state setting.now) draft.old) }
    ensures state { OnOk result (laid (S.state setting.now) draft.new ≡ all_removed members.now (laid (S.state setting.now) draft.old)) }
    ensures lines { OnOk result (draft.new.lines ≡ draft.old.lines ++ lines_of_all_removed members.now (laid (S.state setting.now) draft.old)) }
    ensures made { OnOk result (CanBeMade (S.state setting.now) draft.new) }
{
    'members: for member in members {
        remove(alloc, setting, draft, EntityId(*member))?;
    }
    Ok(())
}

/// An entity goes with its tree, whose members these are.
#[tactic(auto, using(crate::proofs::GoingLemmas::tree_can))]
pub fn remove_members<S: Setting>(
    alloc: Global,
    setting: &S,
    draft: &mut Draft,
    _entity: EntityId,
    members: &[u64],
) -> Result<(), NoMemory>
    requires made { CanBeMade (S.state setting.now) draft.old }
    requires there { IsTrue (has_entity (laid (S.state setting.now) draft.old).entities _entity.0) }
    requires members { members.now ≡ tree_of (laid (S.state setting.now) draft.old).entities _entity.0 }
    ensures state { OnOk result (laid (S.state setting.now) draft.new ≡ tree_removed (laid (S.state setting.now) draft.old) _entity.0) }
    ensures lines { OnOk result (draft.new.lines ≡ draft.old.lines ++ lines_of_tree_removed (laid (S.state setting.now) draft.old) _entity.0) }
    ensures made { OnOk result (CanBeMade (S.state setting.now) draft.new) }
{
    setting.ordered();
    remove_all(alloc, setting, draft, members)?;
    Ok(())
}

/// An entity goes with its tree.
pub fn remove_tree<S: Setting>(
    alloc: Global,
    setting: &S,
    draft: &mut Draft,
    entity: EntityId,
) -> Result<(), NoMemory>
    requires low { IsLow (S.state setting.now) }
    requires made { CanBeMade (S.state setting.now) draft.old }
    requires there { IsTrue (has_entity (laid (S.state setting.now) draft.old).entities entity.0) }
    ensures state { OnOk result (laid (S.state setting.now) draft.new ≡ tree_removed (laid (S.state setting.now) draft.old) entity.0) }
    ensures lines { OnOk result (draft.new.lines ≡ draft.old.lines ++ lines_of_tree_removed (laid (S.state setting.now) draft.old) entity.0) }
    ensures made { OnOk result (CanBeMade (S.state setting.now) draft.new) }
{
    let members = tree(alloc, setting, draft, entity)?;
    remove_members(alloc, setting, draft, entity, &members)?;
    Ok(())
}
