//! Texts that are joined. The parts of a chain are written one behind another, and the whole takes memory once.
ghost use Rattle.std.specs.Prelude.{◌≡◌, ◌≤◌, ◌<◌, [], IfOk, OnOk, string_bytes};
ghost use Rattle.std.specs.List.{AllByRecursion};
ghost use Rattle.script_meaning.specs.Terms.{combine, eval};
ghost use Rattle.script_meaning.specs.Values.{text};
ghost use Rattle.script_types.specs.declared.term.Joint.TheVariants as j;
ghost use Rattle.script_types.specs.ProgramOf.{term_of, ask_of, combine_of};
ghost use Rattle.script_types.specs.Numbers.{IsNumberedTerm};
ghost use Rattle.script_run_machine.specs.Agreeing.{AgreesAs};
ghost use Rattle.script_run_machine.specs.Lending.{standing, value_lent};
ghost use Rattle.script_run_machine.specs.Machines.{state_of};
ghost use Rattle.script_run_machine.specs.Settings.{setting_of};
ghost use Rattle.script_run_terms.specs.Links.{linked, chained};
ghost use Rattle.script_run_terms.specs.Writing.{EndsWriting, Writes};

use crate::at_hand::text_at_hand;
use crate::chains::spend;
use crate::numbers::eval_number;
use crate::terms::{find, find_asked};
use script_meaning::FailKind;
use script_run_machine::{Lent, Machine, Scene, Stop, TEXT_LIMIT, write_number};
use script_types::{Joint, Question, Term};
use slee_value::{NoMemory, Text};

/// What a chain gives that begins with `++`.
#[inline(never)]
#[cycle(terms)]
pub(crate) fn text_chain(
    machine: &mut Machine,
    scene: &Scene,
    first: &(Term, Joint, Term),
    more: &[(Joint, Term)],
) -> Result<Text, Stop>
    requires names { machine.old.names ≡ scene.now.names.now }
    requires first { IsNumberedTerm scene.now.names.now (combine_of first.now) }
    requires more { AllByRecursion (λ x. IsNumberedTerm scene.now.names.now (term_of x.1)) more.now }
    requires joint { first.now.1 ≡ j.Join }
    ensures agrees { AgreesAs (λ t. text t) (chained (setting_of scene.now) (combine_of first.now) more.now) machine.old machine.new result }
    ensures spent { machine.new.left ≤ machine.old.left }
    ensures names { machine.new.names ≡ machine.old.names }
    ensures kept { standing machine.new ≡ standing machine.old }
{
    spend(machine, more.len())?;
    let mut whole = machine.take_text(scene.alloc);
    write_pair(machine, scene, first, &mut whole)?;
    write_links(machine, scene, more, &mut whole)?;
    let text = Text::from_str(scene.alloc, whole.as_str())?;
    machine.keep_text(whole);
    Ok(text)
}

/// Writes what the first operator of a chain gives, which is `++`.
#[cycle(terms)]
fn write_pair(
    machine: &mut Machine,
    scene: &Scene,
    parts: &(Term, Joint, Term),
    whole: &mut String,
) -> Result<(), Stop>
    requires names { machine.old.names ≡ scene.now.names.now }
    requires parts { IsNumberedTerm scene.now.names.now (combine_of parts.now) }
    requires joint { parts.now.1 ≡ j.Join }
    requires empty { string_bytes whole.old ≡ [] }
    ensures agrees { AgreesAs (λ _. text (string_bytes whole.new)) (eval (setting_of scene.now) (combine_of parts.now)) machine.old machine.new result }
    ensures spent { machine.new.left ≤ machine.old.left }
    ensures names { machine.new.names ≡ machine.old.names }
    ensures kept { standing machine.new ≡ standing machine.old }
    ensures less { OnOk result (machine.new.left < machine.old.left) }
{
    machine.tick()?;
    let (one, _, other) = parts;
    let is_text = write_part(machine, scene, one, whole)?;
    let is_other_text = write_part(machine, scene, other, whole)?;
    if !is_text || !is_other_text {
        return Err(Stop::Unchecked);
    }
    if whole.len() > TEXT_LIMIT {
        return Err(Stop::Broken(FailKind::TooLong));
    }
    Ok(())
}

/// Writes what stands behind a text, joined to it from left to right.
#[cycle(terms)]
fn write_links(
    machine: &mut Machine,
    scene: &Scene,
    links: &[(Joint, Term)],
    whole: &mut String,
) -> Result<(), Stop>
    requires names { machine.old.names ≡ scene.now.names.now }
    requires links { AllByRecursion (λ x. IsNumberedTerm scene.now.names.now (term_of x.1)) links.now }
    ensures agrees { AgreesAs (λ _. text (string_bytes whole.new)) (linked (setting_of scene.now) links.now (text (string_bytes whole.old))) machine.old machine.new result }
    ensures spent { machine.new.left ≤ machine.old.left }
    ensures names { machine.new.names ≡ machine.old.names }
    ensures kept { standing machine.new ≡ standing machine.old }
{
    'links: for (joint, term) in links {
        write_link(machine, scene, *joint, term, whole)?;
    }
    Ok(())
}

/// Writes what an operator gives between a text and a term.
#[cycle(terms)]
fn write_link(
    machine: &mut Machine,
    scene: &Scene,
    joint: Joint,
    term: &Term,
    whole: &mut String,
) -> Result<(), Stop>
    requires names { machine.old.names ≡ scene.now.names.now }
    requires term { IsNumberedTerm scene.now.names.now (term_of term.now) }
    ensures agrees { AgreesAs (λ _. text (string_bytes whole.new)) (combine joint (text (string_bytes whole.old)) (eval (setting_of scene.now) (term_of term.now))) machine.old machine.new result }
    ensures spent { machine.new.left ≤ machine.old.left }
    ensures names { machine.new.names ≡ machine.old.names }
    ensures kept { standing machine.new ≡ standing machine.old }
{
    let is_text = write_part(machine, scene, term, whole)?;
    match joint {
        Joint::Join => {}
        _ => return Err(Stop::Unchecked),
    }
    if !is_text {
        return Err(Stop::Unchecked);
    }
    if whole.len() > TEXT_LIMIT {
        return Err(Stop::Broken(FailKind::TooLong));
    }
    Ok(())
}

/// Writes the text that a term gives behind others, which may well be at hand.
#[inline(always)]
#[cycle(terms)]
fn write_part(
    machine: &mut Machine,
    scene: &Scene,
    term: &Term,
    whole: &mut String,
) -> Result<bool, Stop>
    requires names { machine.old.names ≡ scene.now.names.now }
    requires term { IsNumberedTerm scene.now.names.now (term_of term.now) }
    ensures writes { EndsWriting (eval (setting_of scene.now) (term_of term.now) (state_of machine.old)) machine.new (string_bytes whole.old) (string_bytes whole.new) result }
    ensures spent { machine.new.left ≤ machine.old.left }
    ensures names { machine.new.names ≡ machine.old.names }
    ensures kept { standing machine.new ≡ standing machine.old }
{
    if let Some(text) = text_at_hand(machine, term) {
        whole.push_str(text)?;
        machine.tick()?;
        return Ok(true);
    }
    write_term(machine, scene, term, whole)
}

/// Writes the text that a term gives behind others. If it gives something else, nothing is written.
#[inline(never)]
#[cycle(terms)]
fn write_term(
    machine: &mut Machine,
    scene: &Scene,
    term: &Term,
    whole: &mut String,
) -> Result<bool, Stop>
    requires names { machine.old.names ≡ scene.now.names.now }
    requires term { IsNumberedTerm scene.now.names.now (term_of term.now) }
    ensures writes { EndsWriting (eval (setting_of scene.now) (term_of term.now) (state_of machine.old)) machine.new (string_bytes whole.old) (string_bytes whole.new) result }
    ensures spent { machine.new.left ≤ machine.old.left }
    ensures names { machine.new.names ≡ machine.old.names }
    ensures kept { standing machine.new ≡ standing machine.old }
{
    match term {
        Term::Ask(parts) => write_asked(machine, scene, parts, whole),
        _ => write_found(machine, scene, term, whole),
    }
}

/// Writes the text that a term gives behind others, if it gives one, from where it stands.
#[inline(never)]
#[cycle(terms)]
fn write_found(
    machine: &mut Machine,
    scene: &Scene,
    term: &Term,
    whole: &mut String,
) -> Result<bool, Stop>
    requires names { machine.old.names ≡ scene.now.names.now }
    requires term { IsNumberedTerm scene.now.names.now (term_of term.now) }
    ensures writes { EndsWriting (eval (setting_of scene.now) (term_of term.now) (state_of machine.old)) machine.new (string_bytes whole.old) (string_bytes whole.new) result }
    ensures spent { machine.new.left ≤ machine.old.left }
    ensures names { machine.new.names ≡ machine.old.names }
    ensures kept { standing machine.new ≡ standing machine.old }
{
    let x = find(machine, scene, term)?;
    Ok(write_lent(machine.lend(&x), whole)?)
}

/// Writes the text that a question to a term gives behind others, if it gives one.
#[inline(never)]
#[cycle(terms)]
fn write_asked(
    machine: &mut Machine,
    scene: &Scene,
    parts: &(Question, Term),
    whole: &mut String,
) -> Result<bool, Stop>
    requires names { machine.old.names ≡ scene.now.names.now }
    requires parts { IsNumberedTerm scene.now.names.now (ask_of parts.now) }
    ensures writes { EndsWriting (eval (setting_of scene.now) (ask_of parts.now) (state_of machine.old)) machine.new (string_bytes whole.old) (string_bytes whole.new) result }
    ensures spent { machine.new.left ≤ machine.old.left }
    ensures names { machine.new.names ≡ machine.old.names }
    ensures kept { standing machine.new ≡ standing machine.old }
{
    let (question, term) = parts;
    match question {
        Question::TextOfInt => {
            machine.tick()?;
            let Some(n) = eval_number(machine, scene, term)? else {
                return Err(Stop::Unchecked);
            };
            write_number(whole, n)?;
            Ok(true)
        }
        _ => {
            let x = find_asked(machine, scene, parts)?;
            Ok(write_lent(machine.lend(&x), whole)?)
        }
    }
}

/// Writes a value behind others, if it is a text.
#[inline(always)]
fn write_lent(lent: Lent, whole: &mut String) -> Result<bool, NoMemory>
    ensures { IfOk result (λ is. Writes (value_lent lent.entry) (string_bytes whole.old) (string_bytes whole.new) is) }
{
    match lent.text() {
        Some(text) => {
            whole.push_str(text)?;
            Ok(true)
        }
        None => Ok(false),
    }
}
