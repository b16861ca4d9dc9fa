//! Statements on activities but `fire`; `at` tokens stand before each.
ghost use Rattle.std.specs.Prelude.{◌≡◌, ◌+◌, ◌<◌, IfOk, length};
ghost use Rattle.script_tree.specs.Tree.{tree_of};
ghost use Rattle.script_tree.specs.Tree as tree;
ghost use Rattle.script_tree.specs.Spelling.{spell_on_activities};
ghost use Rattle.script_types.specs.ElaborationOfStatements.{on_activities_of, who_of};
ghost use Rattle.script_check_terms.specs.Answers.{Gives};
ghost use Rattle.script_check_terms.specs.SettingOf.{setting_of};
ghost use Rattle.script_check_steps.specs.Made.{Makes};

use crate::lookup::check_any_event;
use crate::made::MadeStep;
use crate::new_variable::add_value;
use crate::part::check_part;
use script_check_terms::{
    Locals, ScriptFault, Setting, check_child, check_new, check_not_on_remove,
};
use script_tree::{Expr, Identifier, Literal, Who as NamedWho};
use script_types::{OnActivities, Step, Who};
use slee_value::Kind;

/// The entity itself or a child; `at` tokens stand before it.
fn check_who(scope: &Locals, at: usize, who: &NamedWho) -> Result<Who, ScriptFault>
    ensures { Gives (λ w. w) result (who_of scope.now at who.now) }
{
    match who {
        NamedWho::Own => Ok(Who::Own),
        NamedWho::Child(child) => {
            let found = check_child(scope, child.as_bytes(), at)?;
            Ok(Who::Child(found.place))
        }
    }
}

/// `attach WHO to a;`
#[tactic(auto, using(crate::proofs::Counts::who_is_one))]
pub fn check_attach(
    setting: &Setting,
    scope: &Locals,
    at: usize,
    who: &NamedWho,
    x: &Expr,
) -> Result<MadeStep, ScriptFault>
    requires { at + length (spell_on_activities (tree.Attach who.now (tree_of x.now))) < usize.MAX }
    ensures made { Makes result scope.now (on_activities_of (setting_of setting.now) scope.now at (tree.Attach who.now (tree_of x.now))) }
    ensures tokens { IfOk result (λ r. r.tokens ≡ length (spell_on_activities (tree.Attach who.now (tree_of x.now)))) }
{
    let someone = check_who(scope, at + 1, who)?;
    let activity = check_part(setting, scope, Kind::Activity, at + 3, x)?;
    check_not_on_remove(setting, at)?;
    Ok(MadeStep::new(
        Step::Activity(OnActivities::Attach(someone, activity.term)),
        3 + activity.tokens,
    ))
}

/// `detach WHO from a;`
#[tactic(auto, using(crate::proofs::Counts::who_is_one))]
pub fn check_detach(
    setting: &Setting,
    scope: &Locals,
    at: usize,
    who: &NamedWho,
    x: &Expr,
) -> Result<MadeStep, ScriptFault>
    requires { at + length (spell_on_activities (tree.Detach who.now (tree_of x.now))) < usize.MAX }
    ensures made { Makes result scope.now (on_activities_of (setting_of setting.now) scope.now at (tree.Detach who.now (tree_of x.now))) }
    ensures tokens { IfOk result (λ r. r.tokens ≡ length (spell_on_activities (tree.Detach who.now (tree_of x.now)))) }
{
    let someone = check_who(scope, at + 1, who)?;
    let activity = check_part(setting, scope, Kind::Activity, at + 3, x)?;
    check_not_on_remove(setting, at)?;
    Ok(MadeStep::new(
        Step::Activity(OnActivities::Detach(someone, activity.term)),
        3 + activity.tokens,
    ))
}

/// `mask TEXT on a;`
pub fn check_mask(
    setting: &Setting,
    scope: &Locals,
    at: usize,
    event: &Literal,
    x: &Expr,
) -> Result<MadeStep, ScriptFault>
    requires { at + length (spell_on_activities (tree.Mask event.now (tree_of x.now))) < usize.MAX }
    ensures made { Makes result scope.now (on_activities_of (setting_of setting.now) scope.now at (tree.Mask event.now (tree_of x.now))) }
    ensures tokens { IfOk result (λ r. r.tokens ≡ length (spell_on_activities (tree.Mask event.now (tree_of x.now)))) }
{
    check_any_event(setting, event, at + 1)?;
    let activity = check_part(setting, scope, Kind::Activity, at + 3, x)?;
    check_not_on_remove(setting, at)?;
    let event = setting.codes.symbol(event.text().copy(setting.alloc)?);
    Ok(MadeStep::new(
        Step::Activity(OnActivities::Mask(event, true, activity.term)),
        3 + activity.tokens,
    ))
}

/// `unmask TEXT on a;`
pub fn check_unmask(
    setting: &Setting,
    scope: &Locals,
    at: usize,
    event: &Literal,
    x: &Expr,
) -> Result<MadeStep, ScriptFault>
    requires { at + length (spell_on_activities (tree.Unmask event.now (tree_of x.now))) < usize.MAX }
    ensures made { Makes result scope.now (on_activities_of (setting_of setting.now) scope.now at (tree.Unmask event.now (tree_of x.now))) }
    ensures tokens { IfOk result (λ r. r.tokens ≡ length (spell_on_activities (tree.Unmask event.now (tree_of x.now)))) }
{
    check_any_event(setting, event, at + 1)?;
    let activity = check_part(setting, scope, Kind::Activity, at + 3, x)?;
    check_not_on_remove(setting, at)?;
    let event = setting.codes.symbol(event.text().copy(setting.alloc)?);
    Ok(MadeStep::new(
        Step::Activity(OnActivities::Mask(event, false, activity.term)),
        3 + activity.tokens,
    ))
}

/// `null as NAME;`
pub fn check_null<'a>(
    setting: &Setting,
    scope: &mut Locals<'a>,
    at: usize,
    name: &'a Identifier,
) -> Result<MadeStep, ScriptFault>
    requires { at + length (spell_on_activities (tree.Null name.now)) < usize.MAX }
    ensures made { Makes result scope.new (on_activities_of (setting_of setting.now) scope.old at (tree.Null name.now)) }
    ensures tokens { IfOk result (λ r. r.tokens ≡ length (spell_on_activities (tree.Null name.now))) }
{
    check_new(scope, name.as_bytes(), at + 2)?;
    check_not_on_remove(setting, at)?;
    add_value(scope, name, Kind::Activity)?;
    Ok(MadeStep::new(Step::Activity(OnActivities::Null), 3))
}

/// `bind e to a;`
pub fn check_bind(
    setting: &Setting,
    scope: &Locals,
    at: usize,
    x: &Expr,
    y: &Expr,
) -> Result<MadeStep, ScriptFault>
    requires { at + length (spell_on_activities (tree.Bind (tree_of x.now) (tree_of y.now))) < usize.MAX }
    ensures made { Makes result scope.now (on_activities_of (setting_of setting.now) scope.now at (tree.Bind (tree_of x.now) (tree_of y.now))) }
    ensures tokens { IfOk result (λ r. r.tokens ≡ length (spell_on_activities (tree.Bind (tree_of x.now) (tree_of y.now)))) }
{
    let name = check_part(setting, scope, Kind::Text, at + 1, x)?;
    let activity = check_part(setting, scope, Kind::Activity, at + 2 + name.tokens, y)?;
    check_not_on_remove(setting, at)?;
    Ok(MadeStep::new(
        Step::Activity(OnActivities::Bind(name.term, activity.term)),
        2 + name.tokens + activity.tokens,
    ))
}
