// The report of a load.
ghost use Rattle.std.specs.Prelude.{◌≡◌, OnOk, OnErr};
ghost use Rattle.std.specs.Io.KnownBytes.{Appends};
ghost use Rattle.byte_writer.specs.Bytes.{AppendsPart};
ghost use Rattle.queue_load.specs.Report.{report_text};

use arrayvec::ArrayVec;
use byte_writer::rows::{Rows, append, append_row, append_sum};
use byte_writer::write_bytes;
use std::io;
use std::io::Write;

/// What the workers of a load were answered, all together, and what the closed queue is left with.
#[derive(Clone, Copy)]
pub struct Report {
    /// How many workers there were.
    pub workers: u32,
    /// How many pushes were answered.
    pub pushed: u64,
    /// How many pops took an item out.
    pub got: u64,
    /// How many pops found the queue empty.
    pub empty: u64,
    /// How many items the queue still holds.
    pub left: u64,
    /// How many lines its journal has.
    pub lines: u64,
    /// The priorities of the items pushed, added up.
    pub sum_in: u128,
    /// Those of the items taken out and of those left.
    pub sum_out_and_left: u128,
    /// Whether these numbers fit each other and what the workers were to do.
    pub audit: bool,
}

// The text of a report.
fn text_of(report: &Report) -> Rows
    ensures { result.items ≡ report_text report.now }
{
    let mut text = ArrayVec::new();
    append_row(&mut text, b"workers", u64::from(report.workers));
    append_row(&mut text, b"pushed", report.pushed);
    append_row(&mut text, b"got", report.got);
    append_row(&mut text, b"empty", report.empty);
    append_row(&mut text, b"left", report.left);
    append_row(&mut text, b"lines", report.lines);
    append_sum(&mut text, b"sum in", report.sum_in);
    append_sum(&mut text, b"sum out and left", report.sum_out_and_left);
    let audit: &[u8] = if report.audit {
        b"audit ok\n"
    } else {
        b"audit failed\n"
    };
    append(&mut text, audit);
    text
}

/// Writes the report: nine lines, each with a name and its number, and the last `audit ok` or
/// `audit failed`. After a fault the writer holds a beginning of them.
pub fn write_report<W: Write>(report: &Report, writer: &mut W) -> io::Result<()>
    ensures ok { OnOk result (Appends (W.contents writer.old) (W.contents writer.new) (report_text report.now)) }
    ensures err { OnErr result (AppendsPart (W.contents writer.old) (W.contents writer.new) (report_text report.now)) }
{
    write_bytes(writer, text_of(report).as_slice())
}
