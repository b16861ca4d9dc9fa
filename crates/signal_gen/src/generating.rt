//! Lines one after another.
ghost use Rattle.std.specs.Prelude.{◌≡◌, IfOk};
ghost use Rattle.deploy_model.specs.Resolving.{deployed_of};
ghost use Rattle.signal_gen.specs.Generator.{generated};

use crate::course::Course;
use signal_script::Signals;
use slee_descriptor::Deployment;
use slee_value::NoMemory;
use std::alloc::Global;

/// The lines that a seed gives, for the events of a deployment.
#[tactic(auto, using(crate::proofs::LineLemmas::line_more, crate::proofs::LineLemmas::all_lines))]
pub fn generate(
    alloc: Global,
    seed: u32,
    count: u32,
    deployment: &Deployment,
) -> Result<Signals, NoMemory>
    ensures { IfOk result (λ lines. lines ≡ generated seed count (deployed_of deployment.now.parts)) }
{
    let mut course = Course::new(seed);
    let mut lines = Signals::new(alloc);
    let mut left = count;
    'each: while left > 0 {
        let line = course.next_line(alloc, deployment.events())?;
        lines.push(line)?;
        left -= 1;
    }
    Ok(lines)
}
