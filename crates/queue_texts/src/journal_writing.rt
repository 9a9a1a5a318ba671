// A journal as text.
ghost use Rattle.std.specs.Prelude.{◌≡◌, ◌≤◌, ◌+◌, ◌++◌, ◌<◌, codes, length, OnOk, OnErr};
ghost use Rattle.std.specs.Io.KnownBytes.{Appends};
ghost use Rattle.byte_writer.specs.Bytes.{AppendsPart};
ghost use Rattle.queue_texts.specs.LineText.{line_text, journal_text, IsWritten};

use crate::answer_text::LONGEST;
use crate::line_text::text_of;
use arrayvec::ArrayVec;
use byte_writer::write_bytes;
use pq_types::{Line, Part};
use std::io;
use std::io::Write;

/// How many bytes of a journal's text are written at once, at most.
const PAGE: usize = 4096;

// Puts the line behind the page so far, which is written out where it has no room for a line.
fn put_line<P: Part, W: Write>(
    page: &mut ArrayVec<u8, PAGE>,
    number: u64,
    line: &Line<P>,
    writer: &mut W,
) -> io::Result<()>
    ensures ok { OnOk result (IsWritten (W.contents writer.old) page.old.items (line_text number line.now ++ codes "\n")
        (W.contents writer.new) page.new.items) }
    ensures err { OnErr result (AppendsPart (W.contents writer.old) (W.contents writer.new) page.old.items) }
{
    if page.len() + LONGEST > PAGE {
        write_bytes(writer, page.as_slice())?;
        page.clear();
    }
    page.try_extend_from_slice(text_of(number, line).as_slice())
        .unwrap();
    Ok(())
}

/// Writes the lines of a journal, numbered from 1, each ended by a line feed, as `append_line`
/// spells them. After a fault the writer holds a beginning of them. Takes no memory.
pub fn write_journal<P: Part, W: Write>(lines: &[Line<P>], writer: &mut W) -> io::Result<()>
    ensures ok { OnOk result (Appends (W.contents writer.old) (W.contents writer.new) (journal_text 1 lines.now)) }
    ensures err { OnErr result (AppendsPart (W.contents writer.old) (W.contents writer.new) (journal_text 1 lines.now)) }
{
    let mut page = ArrayVec::new();
    let mut number = 0u64;
    for line in lines {
        number += 1;
        put_line(&mut page, number, line, writer)?;
    }
    write_bytes(writer, page.as_slice())
}
