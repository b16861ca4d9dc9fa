//! What stands before a method of a child and behind it: the arguments, the method itself, and its result.
ghost use Rattle.std.specs.Prelude.{◌≡◌, ◌≤◌, ◌<◌, slice_get, map, OnOk};
ghost use Rattle.std.specs.Option.{option_copied};
ghost use Rattle.std.specs.List.{AllByRecursion};
ghost use Rattle.script_types.specs.ProgramOf.{term_of, call_of, block_program_of};
ghost use Rattle.script_meaning.specs.Steps.{arguments_of, next};
ghost use Rattle.script_meaning.specs.Calls.{keep_result, setting_in};
ghost use Rattle.script_types.specs.Numbers.{IsNumbered, IsNumberedTerm};
ghost use Rattle.script_run_machine.specs.Agreeing.{AgreesAs};
ghost use Rattle.script_run_machine.specs.Settings.{setting_of};
ghost use Rattle.script_run_steps.specs.Flows.{flow_of};
ghost use Rattle.script_run_blocks.specs.Loops.{holding};
ghost use Rattle.script_run_blocks.specs.Stages.{given, program_of, prepares};

use crate::Stage;
use script_meaning::FailKind;
use script_run_machine::{Machine, Scene, Stop, Variable, initial};
use script_run_steps::Flow;
use script_run_terms::eval;
use script_types::{BlockSteps, Call, MethodSteps, Term};
use slee_effect::Ref;
use slee_value::Kind;
use std::alloc::Global;

/// The block with this number.
pub fn block_at(blocks: &[BlockSteps], number: u32) -> Option<&BlockSteps>
    ensures { option_copied result ≡ slice_get blocks.now number }
{
    blocks.get(number as usize)
}

/// The method with this number.
pub(crate) fn method_at(methods: &[MethodSteps], number: usize) -> Option<&MethodSteps>
    ensures { option_copied result ≡ slice_get methods.now number }
{
    methods.get(number)
}

/// The arguments of a call, which become the first variables of the method.
pub(crate) fn eval_arguments(
    machine: &mut Machine,
    scene: &Scene,
    terms: &[Term],
) -> Result<Vec<Variable>, Stop>
    requires names { machine.old.names ≡ scene.now.names.now }
    requires terms { AllByRecursion (IsNumberedTerm scene.now.names.now) (map term_of terms.now) }
    ensures agrees { AgreesAs (λ v. v.items) (holding (arguments_of (setting_of scene.now) (map term_of terms.now))) machine.old machine.new result }
    ensures spent { machine.new.left ≤ machine.old.left }
    ensures names { machine.new.names ≡ machine.old.names }
{
    let mut arguments = machine.take_variables(scene.alloc);
    'terms: for term in terms {
        let x = eval(machine, scene, term)?;
        arguments.push(Variable::of_value(x))?;
    }
    Ok(arguments)
}

/// The child that is called, and the arguments, where one call more may be nested.
pub(crate) fn prepare(
    machine: &mut Machine,
    scene: &Scene,
    depth: u32,
    call: &Call,
) -> Result<(Ref, Vec<Variable>), Stop>
    requires names { machine.old.names ≡ scene.now.names.now }
    requires call { AllByRecursion (IsNumberedTerm scene.now.names.now) (call_of call.now).arguments }
    ensures agrees { AgreesAs (λ x. (x.0, x.1.items)) (prepares (setting_of scene.now) depth call.now) machine.old machine.new result }
    ensures deep { OnOk result (0 < depth) }
    ensures spent { machine.new.left ≤ machine.old.left }
    ensures names { machine.new.names ≡ machine.old.names }
{
    let child = machine.child(scene, call.child)?;
    let arguments = eval_arguments(machine, scene, &call.arguments)?;
    if depth == 0 {
        return Err(Stop::Broken(FailKind::Depth));
    }
    Ok((child, arguments))
}

/// The stage for a child of this block.
#[tactic(auto, using(crate::proofs::TidyLemmas::masks_numbered))]
pub(crate) fn stage_for<'a>(stage: &Stage<'a>, block: &'a BlockSteps, child: Ref) -> Stage<'a>
    requires masks { AllByRecursion (IsNumbered stage.now.scene.names.now) block.now.masks }
    ensures given { given result ≡ setting_in (given stage.now) (block_program_of block.now) child }
    ensures program { program_of result ≡ program_of stage.now }
    ensures names { result.scene.names.now ≡ stage.now.scene.names.now }
{
    let scene = &stage.scene;
    Stage {
        scene: Scene {
            alloc: scene.alloc,
            names: scene.names,
            known: scene.known,
            known_numbers: scene.known_numbers,
            effects: scene.effects,
            effect_numbers: scene.effect_numbers,
            keys: scene.keys,
            key_numbers: scene.key_numbers,
            arguments: scene.arguments,
            me: child,
            masks: block.masks.as_slice(),
        },
        blocks: stage.blocks,
    }
}

/// What comes behind a call: its result becomes a variable where it is kept, and then the next step.
pub(crate) fn keep_result(
    machine: &mut Machine,
    alloc: Global,
    keeps: bool,
    flow: Flow,
    kind: Option<Kind>,
) -> Result<Flow, Stop>
    ensures agrees { AgreesAs flow_of (next (keep_result keeps (flow_of flow) kind)) machine.old machine.new result }
    ensures spent { machine.new.left ≤ machine.old.left }
    ensures names { machine.new.names ≡ machine.old.names }
{
    let x = match flow {
        Flow::Returned(x) => machine.take_out(x),
        Flow::Next if !keeps => return Ok(Flow::Next),
        Flow::Next => match kind {
            Some(kind) => initial(alloc, kind)?,
            None => return Err(Stop::Unchecked),
        },
    };
    if keeps {
        machine.declare(Variable::of_value(x))?;
    }
    Ok(Flow::Next)
}
