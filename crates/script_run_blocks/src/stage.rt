//! What a run is given, with the checked scripts of all blocks.
use script_run_machine::Scene;
use script_types::BlockSteps;

/// What a run is given, with the checked scripts of all blocks.
#[derive(Drop)]
pub struct Stage<'a> {
    pub scene: Scene<'a>,
    pub blocks: &'a [BlockSteps],
}
