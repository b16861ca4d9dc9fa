//! Steps one behind another, with blocks, loops and calls. A step's unit is spent when it begins.
ghost use Rattle.std.specs.Prelude.{◌≡◌, ◌≤◌, true, false, map};
ghost use Rattle.std.specs.List.{AllByRecursion};
ghost use Rattle.script_types.specs.ProgramOf.{term_of, step_of, steps_of, call_of};
ghost use Rattle.script_meaning.specs.Running.{Gave, ticked, scoped};
ghost use Rattle.script_meaning.specs.Terms.{eval};
ghost use Rattle.script_meaning.specs.Steps.{Next, repeat, walk};
ghost use Rattle.script_types.specs.Numbers.{AreNumberedSteps, IsNumberedRange, IsNumberedStep, IsNumberedTerm};
ghost use Rattle.script_run_machine.specs.Agreeing.{AgreesAs};
ghost use Rattle.script_run_machine.specs.Machines.{state_of};
ghost use Rattle.script_run_steps.specs.Flows.{flow_of};
ghost use Rattle.script_run_blocks.specs.Tidy.{IsTidy, AreTidy};
ghost use Rattle.script_run_blocks.specs.Loops.{variable_in, branched, turned};
ghost use Rattle.script_run_blocks.specs.Stages.{IsTidyStage, given, act_in, all_in, goes_over, invokes, enters};

use crate::calls::{block_at, keep_result, method_at, prepare, stage_for};
use crate::flags::eval_flag;
use crate::items::{loop_variable, read_items};
use crate::plain::{act_on_activities, act_on_entities, act_on_timers, assign};
use crate::stage::Stage;
use script_meaning::FailKind;
use script_run_machine::{Machine, Stop, Variable};
use script_run_steps::{Flow, assign_at_hand, do_saying};
use script_types::{Call, Range, Step, Term};
use slee_effect::Ref;

/// What a step does, behind its unit.
#[inline(always)]
#[cycle(steps)]
fn act(machine: &mut Machine, stage: &Stage, depth: u32, step: &Step) -> Result<Flow, Stop>
    requires names { machine.old.names ≡ stage.now.scene.names.now }
    requires stage { IsTidyStage stage.now }
    requires step { IsTidy (step_of step.now) }
    requires numbered { IsNumberedStep stage.now.scene.names.now (step_of step.now) }
    ensures agrees { AgreesAs flow_of (act_in stage.now depth (step_of step.now)) machine.old machine.new result }
    ensures spent { machine.new.left ≤ machine.old.left }
    ensures names { machine.new.names ≡ machine.old.names }
{
    match step {
        Step::Assign(x) => assign(machine, &stage.scene, x),
        Step::Entity(x) => act_on_entities(machine, &stage.scene, x),
        Step::Activity(x) => act_on_activities(machine, &stage.scene, x),
        Step::Timer(x) => act_on_timers(machine, &stage.scene, x),
        Step::Say(x) => do_saying(machine, &stage.scene, x),
        Step::Invoke(call) => do_call(machine, stage, depth, call),
        Step::If(test, body, other) => do_if(machine, stage, depth, body, other, test),
        Step::While(test, body) => repeat(machine, stage, depth, body, test),
        Step::For(range, body) => do_for(machine, stage, depth, body, range),
    }
}

/// Does a step that needs nothing but variables, with all its units. Answers whether it did; where not, nothing is done.
#[inline(always)]
fn do_at_hand(machine: &mut Machine, stage: &Stage, depth: u32, step: &Step) -> bool
    ensures done { result ≡ true → ticked (act_in stage.now depth (step_of step.now)) (state_of machine.old) ≡ Gave Next (state_of machine.new) }
    ensures undone { result ≡ false → machine.new ≡ machine.old }
    ensures spent { machine.new.left ≤ machine.old.left }
    ensures names { machine.new.names ≡ machine.old.names }
{
    match step {
        Step::Assign(x) => assign_at_hand(machine, &stage.scene, x),
        _ => false,
    }
}

/// A step.
#[inline(always)]
#[cycle(steps)]
fn do_step(machine: &mut Machine, stage: &Stage, depth: u32, step: &Step) -> Result<Flow, Stop>
    requires names { machine.old.names ≡ stage.now.scene.names.now }
    requires stage { IsTidyStage stage.now }
    requires step { IsTidy (step_of step.now) }
    requires numbered { IsNumberedStep stage.now.scene.names.now (step_of step.now) }
    ensures agrees { AgreesAs flow_of (ticked (act_in stage.now depth (step_of step.now))) machine.old machine.new result }
    ensures spent { machine.new.left ≤ machine.old.left }
    ensures names { machine.new.names ≡ machine.old.names }
{
    if do_at_hand(machine, stage, depth, step) {
        return Ok(Flow::Next);
    }
    machine.tick()?;
    act(machine, stage, depth, step)
}

/// Steps one behind another.
#[inline(never)]
#[cycle(steps)]
pub fn do_all(machine: &mut Machine, stage: &Stage, depth: u32, body: &[Step]) -> Result<Flow, Stop>
    requires names { machine.old.names ≡ stage.now.scene.names.now }
    requires stage { IsTidyStage stage.now }
    requires body { AreTidy (steps_of body.now) }
    requires numbered { AreNumberedSteps stage.now.scene.names.now (steps_of body.now) }
    ensures agrees { AgreesAs flow_of (all_in stage.now depth (steps_of body.now)) machine.old machine.new result }
    ensures spent { machine.new.left ≤ machine.old.left }
    ensures names { machine.new.names ≡ machine.old.names }
{
    'steps: for step in body {
        match do_step(machine, stage, depth, step)? {
            Flow::Next => {}
            Flow::Returned(x) => return Ok(Flow::Returned(x)),
        }
    }
    Ok(Flow::Next)
}

/// A block, whose variables are forgotten behind it. Many an `else` is empty.
#[cycle(steps)]
fn do_block(machine: &mut Machine, stage: &Stage, depth: u32, body: &[Step]) -> Result<Flow, Stop>
    requires names { machine.old.names ≡ stage.now.scene.names.now }
    requires stage { IsTidyStage stage.now }
    requires body { AreTidy (steps_of body.now) }
    requires numbered { AreNumberedSteps stage.now.scene.names.now (steps_of body.now) }
    ensures agrees { AgreesAs flow_of (scoped (all_in stage.now depth (steps_of body.now))) machine.old machine.new result }
    ensures spent { machine.new.left ≤ machine.old.left }
    ensures names { machine.new.names ≡ machine.old.names }
{
    if body.is_empty() {
        return Ok(Flow::Next);
    }
    let outer = machine.variable_count();
    let flow = do_all(machine, stage, depth, body)?;
    machine.forget_behind(outer);
    Ok(flow)
}

/// `if e { .. } else { .. }`
#[inline(always)]
#[cycle(steps)]
fn do_if(
    machine: &mut Machine,
    stage: &Stage,
    depth: u32,
    body: &[Step],
    other: &[Step],
    test: &Term,
) -> Result<Flow, Stop>
    requires names { machine.old.names ≡ stage.now.scene.names.now }
    requires test { IsNumberedTerm stage.now.scene.names.now (term_of test.now) }
    requires stage { IsTidyStage stage.now }
    requires body { AreTidy (steps_of body.now) }
    requires numbered { AreNumberedSteps stage.now.scene.names.now (steps_of body.now) }
    requires other { AreTidy (steps_of other.now) }
    requires numbered_other { AreNumberedSteps stage.now.scene.names.now (steps_of other.now) }
    ensures agrees { AgreesAs flow_of (branched (eval (given stage.now) (term_of test.now)) (all_in stage.now depth (steps_of body.now)) (all_in stage.now depth (steps_of other.now))) machine.old machine.new result }
    ensures spent { machine.new.left ≤ machine.old.left }
    ensures names { machine.new.names ≡ machine.old.names }
{
    if eval_flag(machine, &stage.scene, test)? {
        return do_block(machine, stage, depth, body);
    }
    do_block(machine, stage, depth, other)
}

/// `while e { .. }`: each turn takes a unit, so one more than are left are never passed.
#[inline(never)]
#[cycle(steps)]
fn repeat(
    machine: &mut Machine,
    stage: &Stage,
    depth: u32,
    body: &[Step],
    test: &Term,
) -> Result<Flow, Stop>
    requires names { machine.old.names ≡ stage.now.scene.names.now }
    requires test { IsNumberedTerm stage.now.scene.names.now (term_of test.now) }
    requires stage { IsTidyStage stage.now }
    requires body { AreTidy (steps_of body.now) }
    requires numbered { AreNumberedSteps stage.now.scene.names.now (steps_of body.now) }
    ensures agrees { AgreesAs flow_of (repeat (eval (given stage.now) (term_of test.now)) (scoped (all_in stage.now depth (steps_of body.now)))) machine.old machine.new result }
    ensures spent { machine.new.left ≤ machine.old.left }
    ensures names { machine.new.names ≡ machine.old.names }
{
    let most = u64::from(machine.left()) + 1;
    'turns: for turn in 0..most {
        if !eval_flag(machine, &stage.scene, test)? {
            return Ok(Flow::Next);
        }
        match do_block(machine, stage, depth, body)? {
            Flow::Next => {}
            Flow::Returned(x) => return Ok(Flow::Returned(x)),
        }
    }
    Err(Stop::Broken(FailKind::Budget))
}

/// `for NAME in .. { .. }`
#[inline(never)]
#[cycle(steps)]
fn do_for(
    machine: &mut Machine,
    stage: &Stage,
    depth: u32,
    body: &[Step],
    range: &Range,
) -> Result<Flow, Stop>
    requires names { machine.old.names ≡ stage.now.scene.names.now }
    requires range { IsNumberedRange stage.now.scene.names.now range.now }
    requires stage { IsTidyStage stage.now }
    requires body { AreTidy (steps_of body.now) }
    requires numbered { AreNumberedSteps stage.now.scene.names.now (steps_of body.now) }
    ensures agrees { AgreesAs flow_of (goes_over stage.now depth range.now (steps_of body.now)) machine.old machine.new result }
    ensures spent { machine.new.left ≤ machine.old.left }
    ensures names { machine.new.names ≡ machine.old.names }
{
    let items = read_items(machine, &stage.scene, range)?;
    let flow = do_walk(machine, stage, depth, body, range, &items)?;
    machine.keep_items(items);
    Ok(flow)
}

/// A turn for each item.
#[cycle(steps)]
fn do_walk(
    machine: &mut Machine,
    stage: &Stage,
    depth: u32,
    body: &[Step],
    range: &Range,
    items: &[Ref],
) -> Result<Flow, Stop>
    requires names { machine.old.names ≡ stage.now.scene.names.now }
    requires range { IsNumberedRange stage.now.scene.names.now range.now }
    requires stage { IsTidyStage stage.now }
    requires body { AreTidy (steps_of body.now) }
    requires numbered { AreNumberedSteps stage.now.scene.names.now (steps_of body.now) }
    ensures agrees { AgreesAs flow_of (walk (map (variable_in range.now) items.now) (all_in stage.now depth (steps_of body.now))) machine.old machine.new result }
    ensures spent { machine.new.left ≤ machine.old.left }
    ensures names { machine.new.names ≡ machine.old.names }
{
    'items: for item in items {
        match do_turn(machine, stage, depth, body, loop_variable(range, *item))? {
            Flow::Next => {}
            Flow::Returned(x) => return Ok(Flow::Returned(x)),
        }
    }
    Ok(Flow::Next)
}

/// A turn of a `for`, with a variable of its own.
#[cycle(steps)]
fn do_turn(
    machine: &mut Machine,
    stage: &Stage,
    depth: u32,
    body: &[Step],
    variable: Variable,
) -> Result<Flow, Stop>
    requires names { machine.old.names ≡ stage.now.scene.names.now }
    requires stage { IsTidyStage stage.now }
    requires body { AreTidy (steps_of body.now) }
    requires numbered { AreNumberedSteps stage.now.scene.names.now (steps_of body.now) }
    ensures agrees { AgreesAs flow_of (turned variable (all_in stage.now depth (steps_of body.now))) machine.old machine.new result }
    ensures spent { machine.new.left ≤ machine.old.left }
    ensures names { machine.new.names ≡ machine.old.names }
{
    let outer = machine.variable_count();
    machine.declare(variable)?;
    let flow = do_all(machine, stage, depth, body)?;
    machine.forget_behind(outer);
    Ok(flow)
}

/// `call NAME.NAME(e, e) as NAME;`
#[inline(never)]
#[cycle(steps)]
fn do_call(machine: &mut Machine, stage: &Stage, depth: u32, call: &Call) -> Result<Flow, Stop>
    requires names { machine.old.names ≡ stage.now.scene.names.now }
    requires call { AllByRecursion (IsNumberedTerm stage.now.scene.names.now) (call_of call.now).arguments }
    requires stage { IsTidyStage stage.now }
    ensures agrees { AgreesAs flow_of (invokes stage.now depth (call_of call.now)) machine.old machine.new result }
    ensures spent { machine.new.left ≤ machine.old.left }
    ensures names { machine.new.names ≡ machine.old.names }
{
    let (child, arguments) = prepare(machine, &stage.scene, depth, call)?;
    enter(machine, stage, depth - 1, call, child, arguments)
}

/// The method of a child, with variables of its own, where so many calls more may be nested in it.
#[cycle(steps)]
fn enter(
    machine: &mut Machine,
    stage: &Stage,
    depth: u32,
    call: &Call,
    child: Ref,
    arguments: Vec<Variable>,
) -> Result<Flow, Stop>
    requires names { machine.old.names ≡ stage.now.scene.names.now }
    requires stage { IsTidyStage stage.now }
    ensures agrees { AgreesAs flow_of (enters stage.now depth call.now child arguments.items) machine.old machine.new result }
    ensures spent { machine.new.left ≤ machine.old.left }
    ensures names { machine.new.names ≡ machine.old.names }
{
    let Some(block) = block_at(stage.blocks, call.block) else {
        return Err(Stop::Unchecked);
    };
    let Some(method) = method_at(block.methods.as_slice(), call.method) else {
        return Err(Stop::Unchecked);
    };
    let inner = stage_for(stage, block, child);
    let outer = machine.replace_variables(arguments);
    let flow = do_all(machine, &inner, depth, method.steps.as_slice())?;
    let used = machine.replace_variables(outer);
    machine.keep_variables(used);
    keep_result(machine, stage.scene.alloc, call.keeps, flow, method.result)
}
