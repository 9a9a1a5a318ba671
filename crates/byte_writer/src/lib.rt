//! Bytes that reach a writer whole, or as a beginning that can be told; and the rows of a report.
//!
//! To the layer above it promises that `write_bytes` writes exactly the bytes that it is given, and
//! that after a fault the writer holds a beginning of them. Unlike the standard library's
//! `write_all` it tries no write again. A row that is appended is the text of its name and number.
#![tactic(auto)]

ghost use Rattle.std.specs.Prelude.{OnOk, OnErr, length};
ghost use Rattle.std.specs.Io.KnownBytes.{Appends};
ghost use Rattle.byte_writer.specs.Bytes.{AppendsPart};

use std::io;
use std::io::Write;

pub mod rows;

/// Writes all of these bytes. Each error of a write ends it, an interrupted one too, and so does a
/// write that takes no byte. The writer then holds a beginning of the bytes, all that it said to
/// have taken.
pub fn write_bytes<W: Write>(writer: &mut W, bytes: &[u8]) -> io::Result<()>
    ensures ok { OnOk result (Appends (W.contents writer.old) (W.contents writer.new) bytes.now) }
    ensures err { OnErr result (AppendsPart (W.contents writer.old) (W.contents writer.new) bytes.now) }
{
    let mut rest = bytes;
    while !rest.is_empty() {
        let taken = writer.write(rest)?;
        if taken == 0 {
            return Err(io::Error::from(io::ErrorKind::WriteZero));
        }
        rest = rest.split_at(taken).1;
    }
    Ok(())
}
