//! The programs of a block.
ghost use Rattle.std.specs.Prelude.{◌≡◌, IfOk, filter, map};
ghost use Rattle.script_types.specs.Codes.{symbol_of};
ghost use Rattle.script_types.specs.CodesOf.{codes_of, block_of_code, handler_of_code, method_of_code};
ghost use Rattle.script_types.specs.Program.{HandlerProgram, MethodProgram};
ghost use Rattle.script_types.specs.ProgramOf.{block_program_of, handler_program_of, method_program_of};
ghost use Rattle.script_types.specs.Programs.{block_of, handlers_of, methods_of};
ghost use Rattle.handler_check.specs.Building.{Builds};
ghost use Rattle.handler_check.specs.Items.{handler_built, method_built};

use crate::code_fault::CodeFault;
use crate::events::BuiltInFields;
use crate::making::{Making, item_number, make_each};
use crate::task::{Home, check_callback, check_part, parameters_in_scope};
use script_check_terms::{Locals, Role};
use script_types::{
    BlockSteps, CodeList, CodePart, Codes, HandlerCode, HandlerSteps, MethodCode, MethodSteps,
    Symbol,
};
use slee_value::{NoMemory, Text};
use std::alloc::Global;

/// The handlers of a block.
#[derive(Drop)]
struct HandlerMaking<'a> {
    home: &'a Home<'a>,
    fields: &'a BuiltInFields,
}

impl<'a> Making<HandlerCode, HandlerSteps> for HandlerMaking<'a> {
    ghost Value = { HandlerProgram };

    ghost value_of = { handler_program_of };

    ghost built = { λ s n h. handler_built (codes_of s.home.now.codes.now) (block_of_code s.home.now.block.now) s.home.now.number n (handler_of_code h) };

    fn make(&self, number: usize, item: &HandlerCode) -> Result<HandlerSteps, CodeFault> {
        let role = Role::OnEvent(
            self.fields
                .fields_of(self.home.codes, item.event.as_bytes()),
        );
        let part = CodePart::Handler(item_number(number)?);
        let scope = Locals::new(self.home.alloc);
        let steps = check_part(self.home, part, role, scope, &item.script)?;
        Ok(HandlerSteps {
            event: item.event.copy(self.home.alloc)?,
            steps,
        })
    }
}

/// The methods of a block.
#[derive(Drop)]
struct MethodMaking<'a> {
    home: &'a Home<'a>,
}

impl<'a> Making<MethodCode, MethodSteps> for MethodMaking<'a> {
    ghost Value = { MethodProgram };

    ghost value_of = { method_program_of };

    ghost built = { λ s n m. method_built (codes_of s.home.now.codes.now) (block_of_code s.home.now.block.now) s.home.now.number n (method_of_code m) };

    fn make(&self, number: usize, item: &MethodCode) -> Result<MethodSteps, CodeFault> {
        let part = CodePart::Method(item_number(number)?);
        let scope = parameters_in_scope(self.home.alloc, item.parameters.as_slice())?;
        let role = Role::InMethod(item.result);
        let steps = check_part(self.home, part, role, scope, &item.script)?;
        Ok(MethodSteps {
            result: item.result,
            steps,
        })
    }
}

/// The events that entities of the block mask when they are attached.
fn masks_of(
    alloc: Global,
    codes: &Codes,
    handlers: &[HandlerCode],
) -> Result<CodeList<Symbol<Text>>, NoMemory>
    ensures { IfOk result (λ l. l ≡ map (λ h. symbol_of (codes_of codes.now) h.event) (filter (λ h. h.mask) handlers.now)) }
{
    let mut masks = CodeList::new(alloc);
    'handlers: for handler in handlers {
        if handler.mask {
            masks.push(codes.symbol(handler.event.copy(alloc)?))?;
        }
    }
    Ok(masks)
}

/// The programs of the handlers.
#[tactic(auto, using(crate::proofs::Lists::handlers_are))]
fn check_handlers(home: &Home, fields: &BuiltInFields) -> Result<CodeList<HandlerSteps>, CodeFault>
    ensures { Builds (λ l. map handler_program_of l) result (handlers_of (codes_of home.now.codes.now) (block_of_code home.now.block.now) home.now.number 0 (map handler_of_code home.now.block.now.handlers)) }
{
    make_each(
        home.alloc,
        &HandlerMaking { home, fields },
        home.block.handlers.as_slice(),
    )
}

/// The programs of the methods.
#[tactic(auto, using(crate::proofs::Lists::methods_are))]
fn check_methods(home: &Home) -> Result<CodeList<MethodSteps>, CodeFault>
    ensures { Builds (λ l. map method_program_of l) result (methods_of (codes_of home.now.codes.now) (block_of_code home.now.block.now) home.now.number 0 (map method_of_code home.now.block.now.methods)) }
{
    make_each(
        home.alloc,
        &MethodMaking { home: &*home },
        home.block.methods.as_slice(),
    )
}

/// The programs of a block.
pub(crate) fn check_block(home: &Home, fields: &BuiltInFields) -> Result<BlockSteps, CodeFault>
    ensures { Builds block_program_of result (block_of (codes_of home.now.codes.now) home.now.number (block_of_code home.now.block.now)) }
{
    let block = home.block;
    let handlers = check_handlers(home, fields)?;
    let methods = check_methods(home)?;
    let exception = check_callback(
        home,
        CodePart::Exception,
        Role::OnException,
        &block.exception,
    )?;
    let rolled_back = check_callback(
        home,
        CodePart::RolledBack,
        Role::OnRolledBack,
        &block.rolled_back,
    )?;
    let remove = check_callback(home, CodePart::Remove, Role::OnRemove, &block.remove)?;
    Ok(BlockSteps {
        masks: masks_of(home.alloc, home.codes, block.handlers.as_slice())?,
        handlers,
        methods,
        exception,
        rolled_back,
        remove,
    })
}
