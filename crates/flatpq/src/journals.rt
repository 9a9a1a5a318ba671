// The journal of a run, where the words ask for it.
ghost use Rattle.std.specs.Prelude.{◌≡◌, ◌<◌, ◌++◌, true, false, codes, length, string_bytes};
ghost use Rattle.std.specs.Prelude.{IfOk, IfSome, IfNone, IsTrue, OnOk, OnErr};
ghost use Rattle.std.specs.Io.KnownBytes.{Appends};
ghost use Rattle.byte_writer.specs.Bytes.{AppendsPart};
ghost use Rattle.queue_texts.specs.LineText.{journal_text};
ghost use Rattle.flatpq.specs.Endings.{book_of, left_of};

use leftist_heap::AnyStore;
use pq_book::{Book, Entry};
use pq_types::{Line, Part};
use queue_texts::write_journal;
use std::alloc::Global;
use std::io::Write;
use std::{fs, io};

/// A Book of items of one width.
pub type Kept<P = u32> = Book<AnyStore<Entry<P>, Global>, Global, P>;

/// The Book that a run leaves, of narrow items or of wide ones.
#[derive(Drop)]
pub enum Left {
    Narrow(Kept),
    Wide(Kept<u64>),
}

/// What a run with narrow items leaves, if any.
pub fn of_narrow(book: Option<Kept>) -> Option<Left>
    ensures { result ≡ left_of false book }
{
    match book {
        Some(book) => Some(Left::Narrow(book)),
        None => None,
    }
}

/// What a run with wide items leaves, if any.
pub fn of_wide(book: Option<Kept<u64>>) -> Option<Left>
    ensures { result ≡ left_of true book }
{
    match book {
        Some(book) => Some(Left::Wide(book)),
        None => None,
    }
}

// The journal, where all of it is in memory in one piece, as that of each run whose words may name a
// file for it.
fn whole_journal<P: Part>(book: &Kept<P>) -> Option<&[Line<P>]>
    ensures some { IfSome result (λ lines. lines.now ≡ book.now.journal) }
    ensures none { IfNone result (0 < length book.now.journal) }
{
    let lines = book.lines();
    if lines.forgotten > 0 || !lines.newer.is_empty() {
        return None;
    }
    Some(lines.older)
}

// Writes the journal of the Book, as `write_left`.
fn write_book<P: Part, W: Write>(book: &Kept<P>, writer: &mut W) -> io::Result<()>
    ensures ok { OnOk result (Appends (W.contents writer.old) (W.contents writer.new) (journal_text 1 book.now.journal)) }
    ensures err { OnErr result (AppendsPart (W.contents writer.old) (W.contents writer.new) (journal_text 1 book.now.journal)) }
{
    match whole_journal(book) {
        Some(lines) => write_journal(lines, writer),
        None => Err(io::Error::from(io::ErrorKind::Unsupported)),
    }
}

// Whether a file of this name is to be replaced: there is none, or a plain one, and no device or pipe.
fn is_plain(rt: &HostRuntime, path: &str) -> bool {
    match fs::metadata(rt, path) {
        Ok(found) => found.is_file(),
        Err(_) => true,
    }
}

/// Where a journal is written that is to stand in the file of this name: in a file of its own beside it,
/// `PATH.part`, which takes its place in the end; or there at once, where that is no plain file, as a pipe.
#[derive(Drop)]
pub struct Place<'a> {
    path: &'a str,
    part: Option<String>,
}

impl<'a> Place<'a> {
    /// The file to write to, and its place.
    pub fn open(rt: &HostRuntime, path: &'a str) -> io::Result<(fs::File, Place<'a>)>
        ensures path { IfOk result (λ opened. opened.1.path ≡ path.entry) }
        ensures part { IfOk result (λ opened. IfSome opened.1.part (λ part. string_bytes part ≡ path.now ++ codes ".part")) }
    {
        if !is_plain(rt, path) {
            let place = Place { path, part: None };
            return Ok((fs::create(rt, path)?, place));
        }
        let part = format!(in rt.alloc(); "{path}.part")?;
        let file = fs::create(rt, part.as_str())?;
        let part = Some(part);
        Ok((file, Place { path, part }))
    }

    /// Where the whole is written, the file takes its place, else it is removed: whether the journal
    /// stands there.
    pub fn end(self, rt: &HostRuntime, is_whole: bool) -> bool
        ensures { IsTrue result → IsTrue is_whole }
    {
        let Place { path, part } = self;
        let Some(part) = part else {
            return is_whole;
        };
        if is_whole && fs::rename(rt, part.as_str(), path).is_ok() {
            return true;
        }
        let _ = fs::remove_file(rt, part.as_str());
        false
    }
}

/// Writes the journal of the Book, a line each. After a fault the writer holds a beginning of it.
pub fn write_left<W: Write>(left: &Left, writer: &mut W) -> io::Result<()>
    ensures ok { OnOk result
        (Appends (W.contents writer.old) (W.contents writer.new) (journal_text 1 (book_of left.now).journal)) }
    ensures err { OnErr result
        (AppendsPart (W.contents writer.old) (W.contents writer.new) (journal_text 1 (book_of left.now).journal)) }
{
    match left {
        Left::Narrow(book) => write_book(book, writer),
        Left::Wide(book) => write_book(book, writer),
    }
}

/// Writes the journal of the Book to the file of this name: whether it stands there. A plain file that is
/// there stays as it is until the whole is written, beside it, as `PATH.part`; what else is there, as a
/// pipe, is written to.
pub fn save_left(rt: &HostRuntime, book: &Left, path: &str) -> io::Result<bool> {
    let (mut file, place) = Place::open(rt, path)?;
    let is_whole = write_left(book, &mut file).is_ok();
    Ok(place.end(rt, is_whole))
}
