//! What an entity says when it is removed.
ghost use Rattle.std.specs.Prelude.{◌≡◌, ◌≤◌, ◌+◌, false, IfOk, decimal, filter_map, length, map, nat_le};
ghost use Rattle.std.specs.List.{flat_map};
ghost use Rattle.std.specs.Option.{option_copied};
ghost use Rattle.slee_value.specs.Escape.{escaped, spelled_byte};
ghost use Rattle.script_types.specs.ProgramOf.{IsChecked, kept_program};
ghost use Rattle.script_meaning.specs.Removal.{lines_by, lines_of, no_args, said, text_in};
ghost use Rattle.rollback_calls.specs.LastWords.{LeavesRoom, line_head, own_answers, said_len, words_over};

use crate::callback::nothing_before;
use handler_run::{Known, Run, has_script, run_script};
use itoa::Buffer;
use script_meaning::{Args, Key, Outcome, Part, Seen, Which};
use script_types::Codes;
use slee_effect::{Effect, Effects};
use slee_value::{ActivityId, EntityId, Name, NoMemory, Payload, Text, Value, needs_escape};
use std::alloc::Global;

/// The most bytes that the lines of a removed entity may have together.
pub const LINES_LIMIT: usize = 256;

/// How many bytes a line has beside the digits of the entity and the text: `  say e` and a space.
const WORDS_OF_LINE: usize = 8;

/// How many bytes a byte has where it is escaped.
const ESCAPED_BYTE: usize = 3;

/// Whoever has the fields of entities.
pub trait OwnFields {
    ghost use Rattle.std.specs.Prelude.{◌≡◌, List, ℕ, Option, IfOk};
    ghost use Rattle.slee_value.specs.declared.ids.EntityId.{EntityId as Entity};
    ghost use Rattle.slee_value.specs.declared.value.Value.{Value as TypedValue};

    /// The value of an entity's field.
    ghost field_of: { Self → Entity → List ℕ → Option TypedValue };

    /// The value of the entity's field of this name, if it is set.
    fn field(&self, alloc: Global, entity: EntityId, name: &Name) -> Result<Option<Value>, NoMemory>
        ensures { IfOk result (λ value. value ≡ field_of self.now entity name.now) };
}

/// How many bytes a byte has as it stands in a line.
fn escaped_len(byte: u8) -> usize
    ensures { result ≡ length (spelled_byte false byte) }
{
    if needs_escape(byte, false) {
        return ESCAPED_BYTE;
    }
    1
}

/// The room that is left behind bytes as they stand in a line, if they have room.
#[tactic(auto, using(crate::proofs::LastWordsLemmas::one_byte))]
fn room_behind(room: usize, bytes: &[u8]) -> Option<usize>
    ensures { LeavesRoom room (length (escaped false bytes.now)) result }
{
    let mut left = room;
    'bytes: for byte in bytes {
        left = left.checked_sub(escaped_len(*byte))?;
    }
    Some(left)
}

/// How many bytes a number has in a line.
#[tactic(auto, using(crate::proofs::LastWordsLemmas::few_digits))]
fn digits_of(number: u64) -> usize
    ensures digits { result ≡ length (decimal number) }
    ensures few { result ≤ 20 }
{
    let mut buffer = Buffer::new();
    buffer.format(number).len()
}

/// How many bytes a line has before its text.
fn head_len(entity: EntityId) -> usize
    ensures { result ≡ line_head entity }
{
    WORDS_OF_LINE + digits_of(entity.0)
}

/// The room that is left behind the line of a text, if it has room.
fn room_behind_line(room: usize, head: usize, text: &Text) -> Option<usize>
    ensures { LeavesRoom room (head + length (escaped false text.now)) result }
{
    let room = room.checked_sub(head)?;
    room_behind(room, text.as_bytes())
}

/// The text that an effect says, if it says one.
fn text_said(effect: &Effect) -> Option<&Text>
    ensures { option_copied result ≡ text_in effect.now }
{
    match effect {
        Effect::Emit { entity: _, text } => Some(text),
        _ => None,
    }
}

/// The room that is left behind what an effect says, if it has room.
#[tactic(auto, using(crate::proofs::LastWordsLemmas::said_or_not))]
fn room_behind_effect(room: usize, entity: EntityId, effect: &Effect) -> Option<usize>
    ensures { LeavesRoom room (said_len entity (text_in effect.now)) result }
{
    match text_said(effect) {
        None => Some(room),
        Some(text) => room_behind_line(room, head_len(entity), text),
    }
}

/// Whether the lines of what the entity says have no more bytes than they may.
#[tactic(auto, using(crate::proofs::LastWordsLemmas::one_effect))]
fn are_short(entity: EntityId, effects: &[Effect]) -> bool
    ensures { result ≡ nat_le (length (flat_map (λ line. line) (lines_of entity effects.now))) LINES_LIMIT }
{
    let mut left = LINES_LIMIT;
    'effects: for effect in effects {
        match room_behind_effect(left, entity, effect) {
            Some(room) => left = room,
            None => return false,
        }
    }
    true
}

/// The texts that effects say.
fn texts_of(alloc: Global, effects: &[Effect]) -> Result<Vec<Text>, NoMemory>
    ensures { IfOk result (λ texts. texts.items ≡ filter_map text_in effects.now) }
{
    let mut texts = Vec::new(alloc);
    'effects: for effect in effects {
        match text_said(effect) {
            None => {}
            Some(text) => texts.push(text.copy(alloc)?)?,
        }
    }
    Ok(texts)
}

/// The texts of a run that ended so: none where it wasn't fine, or where their lines are too long.
fn texts_by(
    alloc: Global,
    entity: EntityId,
    outcome: Outcome,
    effects: &Effects,
) -> Result<Vec<Text>, NoMemory>
    ensures { IfOk result (λ texts. map (said entity) texts.items ≡ lines_by entity outcome effects.now) }
{
    match outcome {
        Outcome::Fine => {
            if are_short(entity, effects.as_slice()) {
                return texts_of(alloc, effects.as_slice());
            }
            Ok(Vec::new(alloc))
        }
        Outcome::Asked | Outcome::Broken(_) => Ok(Vec::new(alloc)),
    }
}

/// A remove script is given no activity, no fields and no failure.
fn no_arguments(alloc: Global) -> Result<Args, NoMemory>
    ensures { IfOk result (λ arguments. arguments ≡ no_args) }
{
    Ok(Args {
        activity: ActivityId(0),
        fields: Payload::new(alloc),
        failure: Text::from_str(alloc, "")?,
    })
}

/// What whoever has the fields answers to a key, which is nothing where it asks for no field.
fn own_answer<F: OwnFields>(alloc: Global, fields: &F, key: &Key) -> Result<Option<Seen>, NoMemory>
    ensures { IfOk result (λ seen. seen ≡ own_answers (F.field_of fields.now) key.now) }
{
    match key {
        Key::Field(entity, name) => {
            let value = fields.field(alloc, *entity, name)?;
            Ok(Some(Seen::Held(value)))
        }
        _ => Ok(None),
    }
}

/// What an entity of the block of this number says when it is removed: the texts of its remove script, which reads its fields from whoever
/// has them, each field once. It says nothing where there is no such script, where the script fails, or where its lines have more bytes
/// than they may.
pub fn last_words<F: OwnFields>(
    alloc: Global,
    codes: &Codes,
    block: u32,
    entity: EntityId,
    fields: &F,
) -> Result<Vec<Text>, NoMemory>
    requires { IsChecked codes.now }
    ensures { IfOk result (λ texts. map (said entity) texts.items ≡ words_over (own_answers (F.field_of fields.now)) (kept_program codes.now) block entity) }
{
    let which = Which {
        block,
        part: Part::Remove,
    };
    if !has_script(codes, which) {
        return Ok(Vec::new(alloc));
    }
    let arguments = no_arguments(alloc)?;
    let nothing = nothing_before(alloc);
    let mut known = Known::new(alloc);
    'asking: loop {
        match run_script(alloc, codes, which, entity, &arguments, &nothing, &known)? {
            Run::Done {
                outcome,
                failure: _,
                effects,
                keys: _,
            } => return texts_by(alloc, entity, outcome, &effects),
            Run::Need(key) => match own_answer(alloc, fields, &key)? {
                Some(seen) => known.push(key, seen)?,
                None => return Ok(Vec::new(alloc)),
            },
        }
    }
}
