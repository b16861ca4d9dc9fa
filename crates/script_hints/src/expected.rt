//! All that may stand at a place of a script.
ghost use Rattle.std.specs.Prelude.{◌≡◌, ◌++◌, IfOk, OnOk, map, filter};
ghost use Rattle.std.specs.List.{list_all, list_any};
ghost use Rattle.script_hints.specs.declared.choice.Choice.TheVariants as choice;
ghost use Rattle.script_hints.specs.Following.{candidate_behind, candidates_at, choice_of, choices, choices_at, fits_group, groups_at, is_alone, is_in, is_whole};

use crate::choice::{Choice, GROUPS, Group, SIGNS};
use crate::following::{follows, front_of, is_in};
use crate::shortening::shortened;
use script_tree::{Lexeme, Symbol, WORDS};
use slee_value::NoMemory;
use std::alloc::Global;

/// What may stand at a place: groups of which each token may stand there, and tokens beside these groups.
#[derive(Drop)]
pub struct Expected {
    pub groups: Vec<Group>,
    pub choices: Vec<Choice>,
}

/// A kind of token, and whether it may stand at a place.
#[derive(Clone, Copy)]
struct Candidate {
    choice: Choice,
    fits: bool,
}

/// Adds a choice for each of these words or signs.
fn add_symbols(list: &mut Vec<Choice>, symbols: &[Symbol]) -> Result<(), NoMemory>
    ensures { OnOk result (list.new.items ≡ list.old.items ++ map choice.Symbol symbols.now) }
{
    for symbol in symbols {
        list.push(Choice::Symbol(*symbol))?;
    }
    Ok(())
}

/// All kinds of tokens.
#[tactic(auto, unfolding(crate::specs::Following::choices))]
fn all_choices(alloc: Global) -> Result<Vec<Choice>, NoMemory>
    ensures { IfOk result (λ list. list.items ≡ choices) }
{
    let mut list = vec![in alloc; Choice::Name, Choice::Number, Choice::Text]?;
    add_symbols(&mut list, &SIGNS)?;
    add_symbols(&mut list, &WORDS)?;
    Ok(list)
}

/// Each of these kinds of tokens, with whether it may stand behind these tokens.
fn candidates_behind(
    alloc: Global,
    front: &mut Vec<Lexeme>,
    all: &[Choice],
) -> Result<Vec<Candidate>, NoMemory>
    ensures { IfOk result (λ list. list.items ≡ map (candidate_behind front.old.items) all.now) }
{
    let mut list = Vec::with_capacity(alloc, all.len())?;
    for choice in all {
        list.push(Candidate {
            choice: *choice,
            fits: follows(alloc, front, *choice)?,
        })?;
    }
    Ok(list)
}

/// All kinds of tokens, each with whether it may stand in a text that has so many tokens before it. The text is cut into tokens
/// once, and each kind is tried behind the last statement alone.
#[tactic(auto, unfolding(crate::specs::Following::candidates_at), using(crate::proofs::Fronts::same_candidates))]
fn candidates_at(alloc: Global, text: &str, before: usize) -> Result<Vec<Candidate>, NoMemory>
    ensures { IfOk result (λ list. list.items ≡ candidates_at text.now before) }
{
    let front = front_of(alloc, text, before)?;
    let mut short = shortened(alloc, front)?;
    let all = all_choices(alloc)?;
    candidates_behind(alloc, &mut short, &all)
}

/// Whether a token is none of the group, or may stand there.
#[tactic(auto, unfolding(crate::specs::Following::fits_group))]
fn fits_group(alloc: Global, group: Group, candidate: Candidate) -> Result<bool, NoMemory>
    ensures { IfOk result (λ fits. fits ≡ fits_group group candidate) }
{
    if is_in(alloc, group, candidate.choice)? {
        return Ok(candidate.fits);
    }
    Ok(true)
}

/// Whether each token of the group may stand there.
#[tactic(auto, unfolding(crate::specs::Following::is_whole))]
fn is_whole(alloc: Global, all: &[Candidate], group: Group) -> Result<bool, NoMemory>
    ensures { IfOk result (λ whole. whole ≡ is_whole all.now group) }
{
    for candidate in all {
        if !fits_group(alloc, group, *candidate)? {
            return Ok(false);
        }
    }
    Ok(true)
}

/// Those of these groups of which each token may stand there.
fn whole_groups(alloc: Global, all: &[Candidate], groups: &[Group]) -> Result<Vec<Group>, NoMemory>
    ensures { IfOk result (λ list. list.items ≡ filter (is_whole all.now) groups.now) }
{
    let mut list = Vec::new(alloc);
    for group in groups {
        if is_whole(alloc, all, *group)? {
            list.push(*group)?;
        }
    }
    Ok(list)
}

/// Whether a token is of one of these groups.
fn is_in_one(alloc: Global, groups: &[Group], choice: Choice) -> Result<bool, NoMemory>
    ensures { IfOk result (λ found. found ≡ list_any (λ g. is_in g choice) groups.now) }
{
    for group in groups {
        if is_in(alloc, *group, choice)? {
            return Ok(true);
        }
    }
    Ok(false)
}

/// Whether a token may stand there that is of none of these groups.
#[tactic(auto, unfolding(crate::specs::Following::is_alone))]
fn is_alone(alloc: Global, groups: &[Group], candidate: Candidate) -> Result<bool, NoMemory>
    ensures { IfOk result (λ alone. alone ≡ is_alone groups.now candidate) }
{
    if !candidate.fits {
        return Ok(false);
    }
    Ok(!is_in_one(alloc, groups, candidate.choice)?)
}

/// Those of these tokens that may stand there and are of none of these groups.
fn choices_alone(
    alloc: Global,
    groups: &[Group],
    all: &[Candidate],
) -> Result<Vec<Choice>, NoMemory>
    ensures { IfOk result (λ list. list.items ≡ map choice_of (filter (is_alone groups.now) all.now)) }
{
    let mut list = Vec::new(alloc);
    for candidate in all {
        if is_alone(alloc, groups, *candidate)? {
            list.push(candidate.choice)?;
        }
    }
    Ok(list)
}

/// All that may stand in a text that has so many tokens before it.
#[tactic(auto, unfolding(crate::specs::Following::groups_at, crate::specs::Following::choices_at))]
pub fn expected_at(alloc: Global, text: &str, before: usize) -> Result<Expected, NoMemory>
    ensures groups { IfOk result (λ x. x.groups.items ≡ groups_at text.now before) }
    ensures choices { IfOk result (λ x. x.choices.items ≡ choices_at text.now before (groups_at text.now before)) }
{
    let all = candidates_at(alloc, text, before)?;
    let groups = whole_groups(alloc, &all, &GROUPS)?;
    let choices = choices_alone(alloc, &groups, &all)?;
    Ok(Expected { groups, choices })
}
