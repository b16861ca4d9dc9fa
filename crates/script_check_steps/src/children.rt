//! Statements on child entities but `call`; `at` tokens stand before each.
ghost use Rattle.std.specs.Prelude.{◌≡◌, ◌+◌, ◌<◌, ◌≤◌, IfOk, length};
ghost use Rattle.script_tree.specs.Tree.{tree_of, tree_of_some};
ghost use Rattle.script_tree.specs.Tree as tree;
ghost use Rattle.script_tree.specs.Spelling.{spell_on_entities, spell_priority};
ghost use Rattle.script_types.specs.ElaborationOfStatements.{on_entities_of, rank_of};
ghost use Rattle.script_types.specs.ProgramOf.{rank_of as rank_in_memory};
ghost use Rattle.script_check_terms.specs.Answers.{Gives};
ghost use Rattle.script_check_terms.specs.SettingOf.{setting_of};
ghost use Rattle.script_check_steps.specs.Made.{Makes};

use crate::lookup::check_relation;
use crate::made::MadeStep;
use crate::new_variable::add_child;
use crate::part::check_part;
use script_check_terms::{
    Locals, ScriptFault, Setting, check_child, check_new, check_not_on_remove, symbol_of,
};
use script_tree::{Expr, Identifier};
use script_types::{OnEntities, Rank, RelationCode, Step};
use slee_value::Kind;

/// The priority of a new child.
#[derive(Drop)]
struct RankPart {
    rank: Rank,
    tokens: usize,
}

/// `priority e`, or the relation's priority; `at` tokens stand before the expression.
fn check_rank(
    setting: &Setting,
    scope: &Locals,
    relation: &RelationCode,
    at: usize,
    priority: &Option<Expr>,
) -> Result<RankPart, ScriptFault>
    requires { length (spell_priority (tree_of_some priority.now)) ≤ usize.MAX }
    ensures made { Gives (λ r. rank_in_memory r.rank) result (rank_of (setting_of setting.now) scope.now relation.now at (tree_of_some priority.now)) }
    ensures tokens { IfOk result (λ r. r.tokens ≡ length (spell_priority (tree_of_some priority.now))) }
{
    match priority {
        None => Ok(RankPart {
            rank: Rank::Given(relation.priority),
            tokens: 0,
        }),
        Some(x) => {
            let asked = check_part(setting, scope, Kind::Int, at, x)?;
            Ok(RankPart {
                rank: Rank::Asked(asked.term),
                tokens: 1 + asked.tokens,
            })
        }
    }
}

/// `create RELATION as NAME priority e;`
pub fn check_create<'a>(
    setting: &Setting,
    scope: &mut Locals<'a>,
    at: usize,
    relation: &Identifier,
    child: &'a Identifier,
    priority: &Option<Expr>,
) -> Result<MadeStep, ScriptFault>
    requires { at + length (spell_on_entities (tree.Create relation.now child.now (tree_of_some priority.now))) < usize.MAX }
    ensures made { Makes result scope.new (on_entities_of (setting_of setting.now) scope.old at (tree.Create relation.now child.now (tree_of_some priority.now))) }
    ensures tokens { IfOk result (λ r. r.tokens ≡ length (spell_on_entities (tree.Create relation.now child.now (tree_of_some priority.now)))) }
{
    let found = check_relation(setting, relation, at + 1)?;
    check_new(scope, child.as_bytes(), at + 3)?;
    let part = check_rank(setting, scope, found, at + 5, priority)?;
    check_not_on_remove(setting, at)?;
    let relation = symbol_of(setting, relation)?;
    add_child(scope, child, found.block)?;
    Ok(MadeStep::new(
        Step::Entity(OnEntities::Create(relation, part.rank)),
        4 + part.tokens,
    ))
}

/// `remove NAME;`
pub fn check_remove(
    setting: &Setting,
    scope: &Locals,
    at: usize,
    child: &Identifier,
) -> Result<MadeStep, ScriptFault>
    requires { at + length (spell_on_entities (tree.Remove child.now)) < usize.MAX }
    ensures made { Makes result scope.now (on_entities_of (setting_of setting.now) scope.now at (tree.Remove child.now)) }
    ensures tokens { IfOk result (λ r. r.tokens ≡ length (spell_on_entities (tree.Remove child.now))) }
{
    let found = check_child(scope, child.as_bytes(), at + 1)?;
    check_not_on_remove(setting, at)?;
    Ok(MadeStep::new(Step::Entity(OnEntities::Remove(found.place)), 2))
}

/// `priority NAME e;`
pub fn check_priority(
    setting: &Setting,
    scope: &Locals,
    at: usize,
    child: &Identifier,
    x: &Expr,
) -> Result<MadeStep, ScriptFault>
    requires { at + length (spell_on_entities (tree.Priority child.now (tree_of x.now))) < usize.MAX }
    ensures made { Makes result scope.now (on_entities_of (setting_of setting.now) scope.now at (tree.Priority child.now (tree_of x.now))) }
    ensures tokens { IfOk result (λ r. r.tokens ≡ length (spell_on_entities (tree.Priority child.now (tree_of x.now)))) }
{
    let found = check_child(scope, child.as_bytes(), at + 1)?;
    let value = check_part(setting, scope, Kind::Int, at + 2, x)?;
    check_not_on_remove(setting, at)?;
    Ok(MadeStep::new(
        Step::Entity(OnEntities::Priority(found.place, value.term)),
        2 + value.tokens,
    ))
}
