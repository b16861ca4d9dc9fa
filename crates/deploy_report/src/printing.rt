//! Writing what is said of a deployment.
ghost use Rattle.std.specs.Prelude.{◌++◌, codes, decimal};
ghost use Rattle.slee_disk.specs.Writes.{Writes};
ghost use Rattle.deploy_report.specs.Words.{check_word, shape_word, syntax_word};
ghost use Rattle.deploy_report.specs.Texts.{count_text, counts_text, pointer_word, place_text, script_text, fault_text};

use crate::counts::Counts;
use crate::words::{check_word, shape_word, syntax_word};
use deploy_json::ReadFault;
use deploy_model::DeployBad;
use deploy_schema::printed;
use script_tree::SyntaxBad;
use script_types::CheckBad;
use slee_disk::{Failed, Sink, write_number, write_whole, write_word};

/// Writes a line for each kind of part, with how many there are.
pub fn write_counts<K: Sink>(out: &mut K, counts: Counts) -> Result<(), Failed>
    ensures { Writes K.contents K.faults out.old out.new (counts_text counts) result }
{
    write_count(out, b"events ", counts.events)?;
    write_count(out, b"profiles ", counts.profiles)?;
    write_count(out, b"tables ", counts.tables)?;
    write_count(out, b"blocks ", counts.blocks)?;
    write_count(out, b"services ", counts.services)
}

fn write_count<K: Sink>(out: &mut K, label: &[u8], count: u64) -> Result<(), Failed>
    ensures { Writes K.contents K.faults out.old out.new (count_text label.now count) result }
{
    write_whole(out, label)?;
    write_number(out, count)?;
    write_whole(out, b"\n")
}

/// Writes what is wrong with bytes that are no deployment, without a newline.
pub fn write_fault<K: Sink>(out: &mut K, fault: &ReadFault) -> Result<(), Failed>
    ensures { Writes K.contents K.faults out.old out.new (fault_text fault.now) result }
{
    match fault {
        ReadFault::Json => write_whole(out, b"json"),
        ReadFault::Shape { pointer, kind } => write_shape(out, pointer.as_str(), *kind),
        ReadFault::Syntax {
            pointer,
            line,
            column,
            kind,
        } => write_syntax(out, pointer.as_str(), *line, *column, *kind),
        ReadFault::Check {
            pointer,
            line,
            column,
            kind,
        } => write_check(out, pointer.as_str(), *line, *column, *kind),
        ReadFault::NoMemory => write_whole(out, b""),
    }
}

fn write_shape<K: Sink>(out: &mut K, pointer: &str, kind: DeployBad) -> Result<(), Failed>
    ensures { Writes K.contents K.faults out.old out.new (codes "shape " ++ (pointer_word pointer.now ++ (codes " " ++ shape_word kind))) result }
{
    write_whole(out, b"shape ")?;
    write_pointer(out, pointer)?;
    write_whole(out, b" ")?;
    write_shape_word(out, kind)
}

fn write_shape_word<K: Sink>(out: &mut K, kind: DeployBad) -> Result<(), Failed>
    ensures { Writes K.contents K.faults out.old out.new (shape_word kind) result }
{
    write_str(out, shape_word(kind))
}

fn write_syntax<K: Sink>(
    out: &mut K,
    pointer: &str,
    line: u64,
    column: u64,
    kind: SyntaxBad,
) -> Result<(), Failed>
    ensures { Writes K.contents K.faults out.old out.new (codes "syntax " ++ script_text pointer.now line column (syntax_word kind)) result }
{
    write_whole(out, b"syntax ")?;
    write_in_script(out, pointer, line, column, syntax_word(kind))
}

fn write_check<K: Sink>(
    out: &mut K,
    pointer: &str,
    line: u64,
    column: u64,
    kind: CheckBad,
) -> Result<(), Failed>
    ensures { Writes K.contents K.faults out.old out.new (codes "check " ++ script_text pointer.now line column (check_word kind)) result }
{
    write_whole(out, b"check ")?;
    write_in_script(out, pointer, line, column, check_word(kind))
}

/// Writes where a fault of a script stands, and the word for it.
fn write_in_script<K: Sink>(
    out: &mut K,
    pointer: &str,
    line: u64,
    column: u64,
    word: &str,
) -> Result<(), Failed>
    ensures { Writes K.contents K.faults out.old out.new (script_text pointer.now line column word.now) result }
{
    write_pointer(out, pointer)?;
    write_whole(out, b" ")?;
    write_place(out, line, column)?;
    write_whole(out, b" ")?;
    write_str(out, word)
}

fn write_str<K: Sink>(out: &mut K, text: &str) -> Result<(), Failed>
    ensures { Writes K.contents K.faults out.old out.new text.now result }
{
    write_whole(out, text.as_bytes())
}

fn write_pointer<K: Sink>(out: &mut K, pointer: &str) -> Result<(), Failed>
    ensures { Writes K.contents K.faults out.old out.new (pointer_word pointer.now) result }
{
    write_word(out, printed(pointer).as_bytes())
}

fn write_place<K: Sink>(out: &mut K, line: u64, column: u64) -> Result<(), Failed>
    ensures { Writes K.contents K.faults out.old out.new (place_text line column) result }
{
    write_number(out, line)?;
    write_whole(out, b":")?;
    write_number(out, column)
}
