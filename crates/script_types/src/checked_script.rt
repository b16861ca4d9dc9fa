//! The checked scripts of blocks. Clauses see those of a block through `block_program_of`.
use crate::{CodeList, Step, Symbol};
use slee_value::{Kind, Text};

/// A checked handler.
#[derive(Drop)]
pub struct HandlerSteps {
    /// The name of its event.
    pub event: Text,
    pub steps: CodeList<Step>,
}

/// A checked method. Its parameters are the first variables.
#[derive(Drop)]
pub struct MethodSteps {
    pub result: Option<Kind>,
    pub steps: CodeList<Step>,
}

/// The checked scripts of a block.
#[derive(Drop)]
pub struct BlockSteps {
    /// The events that its entities mask when they are attached.
    pub masks: CodeList<Symbol<Text>>,
    pub handlers: CodeList<HandlerSteps>,
    pub methods: CodeList<MethodSteps>,
    pub exception: Option<CodeList<Step>>,
    pub rolled_back: Option<CodeList<Step>>,
    pub remove: Option<CodeList<Step>>,
}
