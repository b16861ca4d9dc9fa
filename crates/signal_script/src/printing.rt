//! Printing a signal as its one line.
ghost use Rattle.std.specs.Prelude.{◌≡◌, ◌++◌, ◌∷◌, [], OnOk, OnErr, true, map};
ghost use Rattle.std.specs.List.{join_with_byte};
ghost use Rattle.slee_value.specs.Escape.{escaped};
ghost use Rattle.signal_script.specs.Signals.{spelled, spelled_event, spelled_field, field_words, verb_word};

use crate::verb::Verb;
use crate::{Fields, Signal, Word};
use itoa::Buffer;
use slee_value::{Name, NoMemory, escape};

/// Adds the signal's one line, without a newline. Where memory runs out, nothing is added.
pub fn print_signal(signal: &Signal, into: &mut Vec<u8>) -> Result<(), NoMemory>
    ensures ok { OnOk result (into.new.items ≡ into.old.items ++ spelled signal.now) }
    ensures err { OnErr result (into.new.items ≡ into.old.items) }
{
    let mut line = Vec::new(*into.allocator());
    write_signal(signal, &mut line)?;
    into.extend_from_slice(&line)?;
    Ok(())
}

fn write_signal(signal: &Signal, line: &mut Vec<u8>) -> Result<(), NoMemory>
    ensures { OnOk result (line.new.items ≡ line.old.items ++ spelled signal.now) }
{
    match signal {
        Signal::Start { name } => write_pair(Verb::Start, name.as_bytes(), line),
        Signal::End { name } => write_pair(Verb::End, name.as_bytes(), line),
        Signal::Fire {
            name,
            event,
            service,
            fields,
        } => write_fire(name, event, service, fields, line),
        Signal::Clock { to } => {
            let mut buffer = Buffer::new();
            write_pair(Verb::Clock, buffer.format(*to).as_bytes(), line)
        }
        Signal::Activate { service } => write_pair(Verb::Activate, service.as_bytes(), line),
        Signal::Deactivate { service } => write_pair(Verb::Deactivate, service.as_bytes(), line),
        Signal::ProfileAdd { table, row, fields } => {
            write_attributes(Verb::ProfileAdd, table, row, fields, line)
        }
        Signal::ProfileUpdate { table, row, fields } => {
            write_attributes(Verb::ProfileUpdate, table, row, fields, line)
        }
        Signal::ProfileRemove { table, row } => write_row(Verb::ProfileRemove, table, row, line),
    }
}

/// A verb, and the word behind it.
fn write_pair(verb: Verb, word: &[u8], line: &mut Vec<u8>) -> Result<(), NoMemory>
    ensures { OnOk result (line.new.items ≡ line.old.items ++ (verb_word verb ++ 32 ∷ word.now)) }
{
    line.extend_from_slice(verb.word().as_bytes())?;
    line.push(b' ')?;
    line.extend_from_slice(word)?;
    Ok(())
}

/// A verb, a table and a row.
fn write_row(verb: Verb, table: &Name, row: &Word, line: &mut Vec<u8>) -> Result<(), NoMemory>
    ensures { OnOk result (line.new.items ≡ line.old.items ++ (verb_word verb ++ 32 ∷ (table.now ++ 32 ∷ escaped true row.now))) }
{
    write_pair(verb, table.as_bytes(), line)?;
    line.push(b' ')?;
    escape(row.as_bytes(), true, line)
}

/// A verb, a table, a row and its attributes.
fn write_attributes(
    verb: Verb,
    table: &Name,
    row: &Word,
    fields: &Fields,
    line: &mut Vec<u8>,
) -> Result<(), NoMemory>
    ensures { OnOk result (line.new.items ≡ line.old.items ++ join_with_byte 32 (verb_word verb ∷ table.now ∷ escaped true row.now ∷ map spelled_field fields.now)) }
{
    write_row(verb, table, row, line)?;
    write_fields(fields, line)?;
    Ok(())
}

/// A line that fires an event.
fn write_fire(
    name: &Name,
    event: &Word,
    service: &Option<Name>,
    fields: &Fields,
    line: &mut Vec<u8>,
) -> Result<(), NoMemory>
    ensures { OnOk result (line.new.items ≡ line.old.items ++ join_with_byte 32 (verb_word Verb.Fire ∷ name.now ∷ spelled_event event.now service.now ∷ map spelled_field fields.now)) }
{
    write_pair(Verb::Fire, name.as_bytes(), line)?;
    write_event(event, service, line)?;
    write_fields(fields, line)?;
    Ok(())
}

/// A space, and an event with the service that it is for.
fn write_event(event: &Word, service: &Option<Name>, line: &mut Vec<u8>) -> Result<(), NoMemory>
    ensures { OnOk result (line.new.items ≡ line.old.items ++ 32 ∷ spelled_event event.now service.now) }
{
    line.push(b' ')?;
    line.extend_from_slice(event.as_bytes())?;
    if let Some(service) = service {
        line.push(b'@')?;
        line.extend_from_slice(service.as_bytes())?;
    }
    Ok(())
}

/// The field words, a space before each.
fn write_fields(fields: &Fields, line: &mut Vec<u8>) -> Result<(), NoMemory>
    ensures { OnOk result (line.new.items ≡ line.old.items ++ field_words fields.now) }
{
    let mut left = fields.all();
    'fields: while let Some(((name, value), more)) = left.split_first() {
        write_field(name, value, line)?;
        left = more;
    }
    Ok(())
}

fn write_field(name: &str, value: &str, line: &mut Vec<u8>) -> Result<(), NoMemory>
    ensures { OnOk result (line.new.items ≡ line.old.items ++ 32 ∷ spelled_field (name.now, value.now)) }
{
    line.push(b' ')?;
    line.extend_from_slice(name.as_bytes())?;
    line.push(b'=')?;
    escape(value.as_bytes(), true, line)
}
