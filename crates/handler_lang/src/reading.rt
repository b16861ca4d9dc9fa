//! A script read from its text: its tree, or the first fault with its place.
ghost use Rattle.std.specs.Prelude.{◌≡◌, ◌≤◌, ◌-◌, length, IfOk, IfErr, MatchResult, Ok};
ghost use Rattle.script_tree.specs.Grammar.{script_of, Faulty};
ghost use Rattle.script_tree.specs.Lexer.{lexemes_of};
ghost use Rattle.script_tree.specs.Reading.{script_read, IsFault, Writes};
ghost use Rattle.script_tree.specs.Script.{tree_of_script};
ghost use Rattle.script_tree.specs.Tree.{statements_of};
ghost use Rattle.handler_lang.specs.Refusals.{Refuses, IsFirst};

use script_parse::script;
use script_parse_terms::ReadError;
use script_tree::{Misfit, Script, Stmt, SyntaxFault, fault_in, lexemes, place_of_token};
use slee_value::{NoMemory, Text};
use std::alloc::Global;

/// The script that a text is, or the first token that can't continue one.
#[tactic(auto, using(crate::proofs::Whole::parsed, crate::proofs::Whole::written, crate::proofs::Whole::refuses, crate::proofs::Whole::first))]
pub fn parse(alloc: Global, text: &str) -> Result<Script, SyntaxFault>
    ensures written { MatchResult result (λ x. Writes text.now (tree_of_script x)) (λ e. Refuses text.now e) }
    ensures placed { IfErr result (λ e. IsFirst text.now e) }
    ensures kept { IfOk result (λ x. x.text ≡ text.now) }
    ensures read { MatchResult result (λ x. script_read text.now ≡ Ok (tree_of_script x)) (λ e. IsFault (script_read text.now) e) }
{
    let lexemes = match lexemes(alloc, text) {
        Ok(lexemes) => lexemes,
        Err(NoMemory) => return Err(SyntaxFault::NoMemory),
    };
    match script(alloc, &lexemes) {
        Ok(statements) => with_text(alloc, statements, text),
        Err(ReadError::NoMemory) => Err(SyntaxFault::NoMemory),
        Err(ReadError::Misfit(misfit)) => Err(misfit_in(alloc, text, lexemes.len(), misfit)),
    }
}

/// The script with its text.
fn with_text(alloc: Global, statements: Vec<Stmt>, text: &str) -> Result<Script, SyntaxFault>
    requires { Writes text.now (statements_of statements.items) }
    ensures { MatchResult result (λ x. (x.statements.items ≡ statements.items) × (x.text ≡ text.now)) (λ e. e ≡ SyntaxFault.NoMemory) }
{
    let Ok(text) = Text::from_str(alloc, text) else {
        return Err(SyntaxFault::NoMemory);
    };
    match Script::new(alloc, statements, text) {
        Ok(script) => Ok(script),
        Err(NoMemory) => Err(SyntaxFault::NoMemory),
    }
}

/// The fault of a text with so many tokens that don't fit. Only now its place is looked up.
#[tactic(auto, using(crate::proofs::Whole::misread))]
fn misfit_in(alloc: Global, text: &str, count: usize, misfit: Misfit) -> SyntaxFault
    requires misfit { script_of (lexemes_of text.now) ≡ Faulty misfit }
    requires count { count ≡ length (lexemes_of text.now) }
    ensures { IsFault (script_read text.now) result }
{
    match place_of_token(alloc, text, count.saturating_sub(misfit.left)) {
        Ok(place) => fault_in(place, misfit.kind),
        Err(NoMemory) => SyntaxFault::NoMemory,
    }
}
