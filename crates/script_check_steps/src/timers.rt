//! Timers that are set.
ghost use Rattle.std.specs.Prelude.{◌≡◌, ◌+◌, ◌<◌, IfOk, length};
ghost use Rattle.script_tree.specs.Tree.{repeat_of as repeat_statement_of, setting_of as timer_statement_of};
ghost use Rattle.script_tree.specs.Spelling.{spell_repeat, spell_keep, spell_timer};
ghost use Rattle.script_types.specs.ElaborationOfStatements.{repeat_of, keep_of, timer_of};
ghost use Rattle.script_types.specs.ProgramOf.{recurrence_of};
ghost use Rattle.script_check_terms.specs.Answers.{Gives};
ghost use Rattle.script_check_terms.specs.SettingOf.{setting_of};
ghost use Rattle.script_check_steps.specs.Made.{Makes};

use crate::made::MadeStep;
use crate::new_variable::add_value;
use crate::part::check_part;
use script_check_terms::{Locals, ScriptFault, Setting, check_new, check_not_on_remove};
use script_tree::{Repeat, TimerStmt};
use script_types::{OnTimers, Recurrence, Step, TimerStart};
use slee_value::{Keep, Kind};

/// When a timer occurs again.
#[derive(Drop)]
struct RepeatPart {
    repeat: Option<Recurrence>,
    tokens: usize,
}

/// `every e times e`; `at` tokens stand before it.
fn check_repeat(
    setting: &Setting,
    scope: &Locals,
    at: usize,
    repeat: &Option<Repeat>,
) -> Result<RepeatPart, ScriptFault>
    requires { at + length (spell_repeat (repeat_statement_of repeat.now)) < usize.MAX }
    ensures made { Gives (λ r. recurrence_of r.repeat) result (repeat_of (setting_of setting.now) scope.now at (repeat_statement_of repeat.now)) }
    ensures tokens { IfOk result (λ r. r.tokens ≡ length (spell_repeat (repeat_statement_of repeat.now))) }
{
    match repeat {
        None => Ok(RepeatPart {
            repeat: None,
            tokens: 0,
        }),
        Some(given) => {
            let period = check_part(setting, scope, Kind::Int, at + 1, &given.period)?;
            let times = check_part(
                setting,
                scope,
                Kind::Int,
                at + 2 + period.tokens,
                &given.times,
            )?;
            Ok(RepeatPart {
                repeat: Some(Recurrence {
                    period: period.term,
                    times: times.term,
                }),
                tokens: 2 + period.tokens + times.tokens,
            })
        }
    }
}

/// All missed occurrences are fired where a timer says nothing else.
fn keep_of(keep: Option<Keep>) -> Keep
    ensures { result ≡ keep_of keep }
{
    match keep {
        None => Keep::All,
        Some(keep) => keep,
    }
}

/// How many tokens `keep WORD` has, where it is there.
fn tokens_in_keep(keep: Option<Keep>) -> usize
    ensures { result ≡ length (spell_keep keep) }
{
    match keep {
        None => 0,
        Some(_) => 2,
    }
}

/// `timer NAME on a at e every e times e keep ..;`
pub fn check_timer<'a>(
    setting: &Setting,
    scope: &mut Locals<'a>,
    at: usize,
    x: &'a TimerStmt,
) -> Result<MadeStep, ScriptFault>
    requires { at + length (spell_timer (timer_statement_of x.now)) < usize.MAX }
    ensures made { Makes result scope.new (timer_of (setting_of setting.now) scope.old at (timer_statement_of x.now)) }
    ensures tokens { IfOk result (λ r. r.tokens ≡ length (spell_timer (timer_statement_of x.now))) }
{
    check_new(scope, x.name.as_bytes(), at + 1)?;
    let activity = check_part(setting, scope, Kind::Activity, at + 3, &x.activity)?;
    let start = check_part(
        setting,
        scope,
        Kind::Int,
        at + 4 + activity.tokens,
        &x.start,
    )?;
    let tokens = 4 + activity.tokens + start.tokens;
    let behind = at + 4 + activity.tokens + start.tokens;
    let again = check_repeat(setting, scope, behind, &x.repeat)?;
    check_not_on_remove(setting, at)?;
    add_value(scope, &x.name, Kind::Timer)?;
    let start = TimerStart {
        activity: activity.term,
        start: start.term,
        repeat: again.repeat,
        keep: keep_of(x.keep),
    };
    Ok(MadeStep::new(
        Step::Timer(OnTimers::Start(Box::new(setting.alloc, start)?)),
        tokens + again.tokens + tokens_in_keep(x.keep),
    ))
}
