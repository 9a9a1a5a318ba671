// The report of an audit.
ghost use Rattle.std.specs.Prelude.{◌≡◌, OnOk, OnErr};
ghost use Rattle.std.specs.Io.KnownBytes.{Appends};
ghost use Rattle.byte_writer.specs.Bytes.{AppendsPart};
ghost use Rattle.queue_texts.specs.Report.{audit_text};

use arrayvec::ArrayVec;
use byte_writer::rows::{Rows, append, append_row, append_sum};
use byte_writer::write_bytes;
use std::io;
use std::io::Write;

/// What a lawful journal adds up to.
#[derive(Clone, Copy)]
pub struct AuditReport {
    /// How many lines it has.
    pub lines: u64,
    /// How many places have a line.
    pub places: u64,
    /// How many pushes there are.
    pub pushed: u64,
    /// How many pops and removals took an item out.
    pub got: u64,
    /// How many pops, removals and moves found no item.
    pub empty: u64,
    /// How many items it leaves in the queue.
    pub left: u64,
    /// The priorities put in, by pushes and moves, added up.
    pub sum_in: u128,
    /// Those taken out and those left.
    pub sum_out_and_left: u128,
}

// The text of a report.
fn text_of(report: &AuditReport) -> Rows
    ensures { result.items ≡ audit_text report.now }
{
    let mut text = ArrayVec::new();
    append_row(&mut text, b"lines", report.lines);
    append_row(&mut text, b"places", report.places);
    append_row(&mut text, b"pushed", report.pushed);
    append_row(&mut text, b"got", report.got);
    append_row(&mut text, b"empty", report.empty);
    append_row(&mut text, b"left", report.left);
    append_sum(&mut text, b"sum in", report.sum_in);
    append_sum(&mut text, b"sum out and left", report.sum_out_and_left);
    append(&mut text, b"audit ok\n");
    text
}

/// Writes the report: nine lines, eight with a name and its number, and `audit ok`. After a fault
/// the writer holds a beginning of them.
pub fn write_audit_report<W: Write>(report: &AuditReport, writer: &mut W) -> io::Result<()>
    ensures ok { OnOk result (Appends (W.contents writer.old) (W.contents writer.new) (audit_text report.now)) }
    ensures err { OnErr result (AppendsPart (W.contents writer.old) (W.contents writer.new) (audit_text report.now)) }
{
    write_bytes(writer, text_of(report).as_slice())
}
