//! Texts, values, named values, and how many rows there are.
ghost use Rattle.std.specs.Prelude.{◌≡◌, ◌++◌, OnOk, length};
ghost use Rattle.slee_value.specs.Bytes.{IsShort, spelled_option, spelled_text, spelled_u64, spelling_of_value};
ghost use Rattle.router_state.specs.Snapshot.{listed, spelled_pair};

use rows_leaves::Run;
use slee_value::{Name, NoMemory, Text, Value, write_bytes, write_flag, write_u64, write_value};

/// The length of a text is a number of 32 bits.
const LONGEST_TEXT: usize = u32::MAX as usize;

/// Adds a text. A longer one than has bytes finds no memory.
pub fn put_text(text: &[u8], into: &mut Vec<u8>) -> Result<(), NoMemory>
    ensures { OnOk result (into.new.items ≡ into.old.items ++ spelled_text text.now) }
{
    if text.len() > LONGEST_TEXT {
        return Err(NoMemory);
    }
    write_bytes(text, into)
}

/// Adds a text, if there is one.
pub fn put_some_text(text: &Option<Text>, into: &mut Vec<u8>) -> Result<(), NoMemory>
    ensures { OnOk result (into.new.items ≡ into.old.items ++ spelled_option spelled_text text.now) }
{
    match text {
        None => write_flag(false, into),
        Some(text) => {
            write_flag(true, into)?;
            put_text(text.as_bytes(), into)
        }
    }
}

fn check_value(value: &Value) -> Result<(), NoMemory>
    ensures { OnOk result (IsShort value.now) }
{
    match value {
        Value::Text(text) if text.len() > LONGEST_TEXT => Err(NoMemory),
        _ => Ok(()),
    }
}

/// Adds a name and its value.
pub fn put_pair(name: &[u8], value: &Value, into: &mut Vec<u8>) -> Result<(), NoMemory>
    ensures { OnOk result (into.new.items ≡ into.old.items ++ spelled_pair (name.now, value.now)) }
{
    check_value(value)?;
    put_text(name, into)?;
    write_value(value, into)
}

/// Adds named values.
pub fn put_pairs(pairs: &[(Name, Value)], into: &mut Vec<u8>) -> Result<(), NoMemory>
    ensures { OnOk result (into.new.items ≡ into.old.items ++ listed spelled_pair pairs.now) }
{
    write_u64(pairs.len() as u64, into)?;
    'pairs: for pair in pairs {
        put_pair(pair.0.as_bytes(), &pair.1, into)?;
    }
    Ok(())
}

/// Adds how many rows there are. More than a number counts find no memory.
pub fn put_count<R>(rows: &Run<'_, R>, into: &mut Vec<u8>) -> Result<(), NoMemory>
    ensures { OnOk result (into.new.items ≡ into.old.items ++ spelled_u64 (length rows.now)) }
{
    let count = rows.len();
    if count == usize::MAX {
        return Err(NoMemory);
    }
    write_u64(count as u64, into)
}
