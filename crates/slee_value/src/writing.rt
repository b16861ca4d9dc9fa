//! Writing: each of these adds the bytes of its part at the end, or nothing where memory runs out.
ghost use Rattle.std.specs.Prelude.{◌≡◌, ◌++◌, ◌<◌, ◌^◌, length, OnOk, OnErr};
ghost use Rattle.slee_value.specs.Bytes.{spelled_u32, spelled_u64, spelled_i8, spelled_bytes, spelled_text, spelled_flag, spelling_of_value, IsShort};

use crate::tag::{ACTIVITY_TAG, FLAG_TAG, INT_TAG, TEXT_TAG, TIMER_TAG};
use crate::{NoMemory, Text, Value};

/// Adds the bytes of the value.
pub fn write_value(value: &Value, into: &mut Vec<u8>) -> Result<(), NoMemory>
    requires { IsShort value.now }
    ensures ok { OnOk result (into.new.items ≡ into.old.items ++ spelling_of_value value.now) }
    ensures err { OnErr result (into.new.items ≡ into.old.items) }
{
    match value {
        Value::Int(number) => append(into, &[INT_TAG], &number.cast_unsigned().to_le_bytes()),
        Value::Text(text) => {
            let [a, b, c, d] = (text.len() as u32).to_le_bytes();
            append(into, &[TEXT_TAG, a, b, c, d], text.as_bytes())
        }
        Value::Bool(flag) => append(into, &[FLAG_TAG], &[u8::from(*flag)]),
        Value::Activity(activity) => append(into, &[ACTIVITY_TAG], &activity.0.to_le_bytes()),
        Value::Timer(timer) => append(into, &[TIMER_TAG], &timer.0.to_le_bytes()),
    }
}

/// Adds the number of 32 bits.
pub fn write_u32(number: u32, into: &mut Vec<u8>) -> Result<(), NoMemory>
    ensures ok { OnOk result (into.new.items ≡ into.old.items ++ spelled_u32 number) }
    ensures err { OnErr result (into.new.items ≡ into.old.items) }
{
    Ok(into.extend_from_slice(&number.to_le_bytes())?)
}

/// Adds the number of 64 bits.
pub fn write_u64(number: u64, into: &mut Vec<u8>) -> Result<(), NoMemory>
    ensures ok { OnOk result (into.new.items ≡ into.old.items ++ spelled_u64 number) }
    ensures err { OnErr result (into.new.items ≡ into.old.items) }
{
    Ok(into.extend_from_slice(&number.to_le_bytes())?)
}

/// Adds the byte with a sign.
pub fn write_i8(number: i8, into: &mut Vec<u8>) -> Result<(), NoMemory>
    ensures ok { OnOk result (into.new.items ≡ into.old.items ++ spelled_i8 number) }
    ensures err { OnErr result (into.new.items ≡ into.old.items) }
{
    Ok(into.push(number.cast_unsigned())?)
}

/// Adds the flag.
pub fn write_flag(flag: bool, into: &mut Vec<u8>) -> Result<(), NoMemory>
    ensures ok { OnOk result (into.new.items ≡ into.old.items ++ spelled_flag flag) }
    ensures err { OnErr result (into.new.items ≡ into.old.items) }
{
    Ok(into.push(u8::from(flag))?)
}

/// Adds the count of the bytes and the bytes themselves.
pub fn write_bytes(bytes: &[u8], into: &mut Vec<u8>) -> Result<(), NoMemory>
    requires { length bytes.now < 2 ^ 32 }
    ensures ok { OnOk result (into.new.items ≡ into.old.items ++ spelled_bytes bytes.now) }
    ensures err { OnErr result (into.new.items ≡ into.old.items) }
{
    append(into, &(bytes.len() as u32).to_le_bytes(), bytes)
}

/// Adds the length of the text and its bytes.
pub fn write_text(text: &Text, into: &mut Vec<u8>) -> Result<(), NoMemory>
    requires { length text.now < 2 ^ 32 }
    ensures ok { OnOk result (into.new.items ≡ into.old.items ++ spelled_text text.now) }
    ensures err { OnErr result (into.new.items ≡ into.old.items) }
{
    write_bytes(text.as_bytes(), into)
}

fn append(into: &mut Vec<u8>, front: &[u8], back: &[u8]) -> Result<(), NoMemory>
    ensures ok { OnOk result (into.new.items ≡ into.old.items ++ (front.now ++ back.now)) }
    ensures err { OnErr result (into.new.items ≡ into.old.items) }
{
    let before = into.len();
    into.extend_from_slice(front)?;
    if into.extend_from_slice(back).is_err() {
        into.truncate(before);
        return Err(NoMemory);
    }
    Ok(())
}
