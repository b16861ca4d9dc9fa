//! Selections as lines.

use initial_select::Selection;
use slee_value::{ActivityId, Blob, ConvName, EventId, Text};
use std::alloc::{AllocError, Global};

// The last digit of a number is enough for those of the tests.
fn write_digit(line: &mut String, number: u64) -> Result<(), AllocError> {
    let digit = (number % 10) as u8;
    line.push(char::from(b'0' + digit))
}

fn write_activity(line: &mut String, activity: Option<ActivityId>) -> Result<(), AllocError> {
    if let Some(activity) = activity {
        line.push_str("activity ")?;
        write_digit(line, activity.0)?;
        line.push('|')?;
    }
    Ok(())
}

fn write_event(line: &mut String, event: Option<EventId>) -> Result<(), AllocError> {
    if let Some(event) = event {
        line.push_str("event ")?;
        write_digit(line, event.0)?;
        line.push('|')?;
    }
    Ok(())
}

fn write_text(line: &mut String, word: &str, text: &Option<Text>) -> Result<(), AllocError> {
    if let Some(text) = text {
        line.push_str(word)?;
        line.push_str(text.as_str())?;
        line.push('|')?;
    }
    Ok(())
}

fn write_custom(line: &mut String, custom: &Option<Blob>) -> Result<(), AllocError> {
    if let Some(custom) = custom {
        line.push_str("custom ")?;
        if let Ok(custom) = str::from_utf8(custom.as_slice()) {
            line.push_str(custom)?;
        }
        line.push('|')?;
    }
    Ok(())
}

fn write_name(line: &mut String, name: &ConvName) -> Result<(), AllocError> {
    write_activity(line, name.activity)?;
    write_text(line, "address ", &name.address)?;
    write_text(line, "type ", &name.event_type)?;
    write_event(line, name.event)?;
    write_custom(line, &name.custom)
}

/// The variables of the name, with a bar behind each, or that the event isn't initial.
pub fn line_of(alloc: Global, selection: &Selection) -> Result<String, AllocError> {
    let mut line = String::new(alloc);
    match selection {
        Selection::NotInitial => line.push_str("not initial")?,
        Selection::Named(name) => write_name(&mut line, name)?,
    }
    Ok(line)
}
