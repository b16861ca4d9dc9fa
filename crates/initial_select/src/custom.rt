//! The four rules of custom selection.
ghost use Rattle.std.specs.Prelude.{◌≡◌, ◌==◌, position, IfOk, OnOk};
ghost use Rattle.std.specs.List.{fold};
ghost use Rattle.slee_value.specs.Name.{is_digit as is_digit_so};
ghost use Rattle.router_steps.specs.Selection.{custom_name as custom_so, three_digits as three_so, before_colon as before_so};
ghost use Rattle.initial_select.specs.Customs.{given_by};
ghost use Rattle.initial_select.specs.Digits.{noted};

use deploy_model::SelectRule;
use slee_value::{Blob, NoMemory};
use std::alloc::Global;

/// Of how many digits the name by `digits3` is at most.
const DIGITS: usize = 3;

/// What a text that `screened` doesn't take begins with.
const SCREENED: &[u8] = b"anon:";

/// What a custom selection gives: a name, or that the event isn't initial.
#[derive(Debug, Drop)]
pub enum Custom {
    Named(Blob),
    NotInitial,
}

/// What the rule gives to a text.
pub fn custom_name(alloc: Global, rule: SelectRule, input: &[u8]) -> Result<Custom, NoMemory>
    ensures { IfOk result (λ custom. given_by custom ≡ custom_so rule input.now) }
{
    let name = match rule {
        SelectRule::Whole => Blob::from_slice(alloc, input)?,
        SelectRule::Digits3 => three_digits(alloc, input)?,
        SelectRule::Scheme => Blob::from_slice(alloc, before_colon(input))?,
        SelectRule::Screened => {
            if input.starts_with(SCREENED) {
                return Ok(Custom::NotInitial);
            }
            Blob::from_slice(alloc, input)?
        }
    };
    Ok(Custom::Named(name))
}

/// The first three digits, fewer where there are fewer.
fn three_digits(alloc: Global, input: &[u8]) -> Result<Blob, NoMemory>
    ensures { IfOk result (λ name. name ≡ three_so input.now) }
{
    let mut digits = Vec::new(alloc);
    note_digits(&mut digits, input)?;
    Ok(Blob::from(digits))
}

/// Adds the digits of a text, as long as there are fewer than three.
fn note_digits(digits: &mut Vec<u8>, input: &[u8]) -> Result<(), NoMemory>
    ensures { OnOk result (digits.new.items ≡ fold noted digits.old.items input.now) }
{
    for byte in input {
        note_digit(digits, *byte)?;
    }
    Ok(())
}

/// Adds a byte where it is a digit and there are fewer than three.
fn note_digit(digits: &mut Vec<u8>, byte: u8) -> Result<(), NoMemory>
    ensures { OnOk result (digits.new.items ≡ noted digits.old.items byte) }
{
    if digits.len() < DIGITS && is_digit(byte) {
        digits.push(byte)?;
    }
    Ok(())
}

fn is_digit(byte: u8) -> bool
    ensures { result ≡ is_digit_so byte }
{
    b'0' <= byte && byte <= b'9'
}

/// The bytes before the first colon, all of them where there is none.
fn before_colon(input: &[u8]) -> &[u8]
    ensures { result.now ≡ before_so input.now }
{
    match colon(input) {
        Some(end) => &input[..end],
        None => input,
    }
}

/// Where the first colon stands.
fn colon(input: &[u8]) -> Option<usize>
    ensures { result ≡ position (λ b. b == 58) input.now }
{
    input.iter().position(|byte| *byte == b':')
}
