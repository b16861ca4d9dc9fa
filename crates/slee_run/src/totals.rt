//! Writing usage totals.
ghost use Rattle.std.specs.Prelude.{decimal, map};
ghost use Rattle.std.specs.Fmt.{signed_decimal};
ghost use Rattle.slee_disk.specs.Writes.{Writes};
ghost use Rattle.trace_history.specs.Lines.{line_text, line_texts};
ghost use Rattle.usage_totals.specs.Totals.{total_line};

use itoa::Buffer;
use slee_disk::{Failed, Sink, write_number, write_whole};
use slee_value::Blob;
use usage_totals::{Total, Totals};

/// Writes usage totals, a line each.
pub fn write_totals<K: Sink>(out: &mut K, totals: &Totals) -> Result<(), Failed>
    ensures { Writes K.contents K.faults out.old out.new (line_texts (map total_line totals.now)) result }
{
    write_rows(out, totals.as_slice())
}

/// Writes these totals, a line each.
fn write_rows<K: Sink>(out: &mut K, totals: &[Total]) -> Result<(), Failed>
    ensures { Writes K.contents K.faults out.old out.new (line_texts (map total_line totals.now)) result }
{
    for total in totals {
        write_total(out, total)?;
    }
    Ok(())
}

/// Writes the line of a total.
fn write_total<K: Sink>(out: &mut K, total: &Total) -> Result<(), Failed>
    ensures { Writes K.contents K.faults out.old out.new (line_text (total_line total.now)) result }
{
    write_total_line(out, total)?;
    write_whole(out, b"\n")
}

/// Writes the line of a total, without its newline.
fn write_total_line<K: Sink>(out: &mut K, total: &Total) -> Result<(), Failed>
    ensures { Writes K.contents K.faults out.old out.new (total_line total.now) result }
{
    write_whole(out, b"usage ")?;
    write_name(out, &total.name)?;
    write_whole(out, b" ")?;
    write_number(out, total.count)?;
    write_whole(out, b" ")?;
    write_signed(out, total.sum)
}

/// Writes the name of a count.
fn write_name<K: Sink>(out: &mut K, name: &Blob) -> Result<(), Failed>
    ensures { Writes K.contents K.faults out.old out.new name.now result }
{
    write_whole(out, name.as_slice())
}

/// Writes a number with its sign, where it is below 0.
fn write_signed<K: Sink>(out: &mut K, number: i128) -> Result<(), Failed>
    ensures { Writes K.contents K.faults out.old out.new (signed_decimal number) result }
{
    let mut buffer = Buffer::new();
    write_whole(out, buffer.format(number).as_bytes())
}
