// `flatpq seq`: commands to a queue of one thread, answered with their journal lines.
ghost use Rattle.std.specs.Prelude.{◌≡◌, ℕ, List, [], Some, Ok, IfOk};
ghost use Rattle.std.proofs.Props.{props};
ghost use Rattle.std.specs.Io.KnownBytes.{Appends};
ghost use Rattle.pq_book.specs.Book.{IsLongRoom, IsPlain};
ghost use Rattle.queue_texts.specs.SeqText.{SeqWrites, TakesCommands};

use crate::answer_text::write_answer;
use crate::command::read_command;
use crate::faults::Refusal;
use crate::owned::Owned;
use leftist_heap::{AnyStore, Store, StoreKind};
use line_script::{LONGEST_LINE, Player, RunError, play_script};
use pq_book::{Book, Entry};
use pq_types::Part;
use pq_types::laws::{law_one_answer, law_one_more_line, law_shut};
use std::alloc::{AllocError, Allocator};
use std::io::{Read, Write};

/// The poster's place in the journal of `seq`.
const PLACE: u16 = 0;

/// Carries commands out on a Book, one a line.
#[derive(Drop)]
struct Commands<S: Store<Entry<P>>, A: Allocator, P: Part = u32> {
    book: Owned<Book<S, A, P>>,
    ghost ready: { TakesCommands book.value } by { Prim.hlevel props },
}

impl<S: Store<Entry<P>>, A: Allocator, P: Part> Player for Commands<S, A, P> {
    type Refusal = Refusal;

    ghost use Rattle.line_script.specs.declared.lines.TheConstants.{LONGEST_LINE};
    ghost use Rattle.queue_texts.specs.SeqText.{PlaysCommand, RefusesCommand};

    ghost kind = { record {
      longest = LONGEST_LINE;
      plays =
          λ s line text t. (t.book.value.room ≡ s.book.value.room)
          × PlaysCommand P.wide s.book.value.room s.book.value.journal line text t.book.value.journal;
      refuses = λ s. RefusesCommand P.wide;
      ends = λ s r. r ≡ Ok tt;
    } };

    fn longest() -> usize {
        LONGEST_LINE
    }

    fn play<B: Allocator>(
        &mut self,
        number: u64,
        line: &[u8],
        out: &mut Vec<u8, B>,
    ) -> Result<(), RunError<Refusal>> {
        law_one_more_line();
        law_shut();
        law_one_answer();
        let request = match read_command::<P>(line) {
            Ok(request) => request,
            Err(error) => {
                return Err(RunError::Refused(Refusal::Command {
                    line: number,
                    reason: error,
                }));
            }
        };
        let serial = self.book.value.len() + 1;
        let answer = self.book.value.apply(PLACE, serial, request);
        if write_answer(&answer, out).is_err() {
            return Err(RunError::NoMemory);
        }
        Ok(())
    }

    fn end(&mut self) -> Result<(), RunError<Refusal>> {
        Ok(())
    }
}

// A Book without lines over an empty store of this kind.
fn empty_book<A: Allocator + Clone, P: Part>(
    alloc: &A,
    lines: u64,
    kind: StoreKind,
) -> Result<Book<AnyStore<Entry<P>, A>, A, P>, AllocError>
    requires { IsLongRoom lines }
    ensures ok { IfOk result (λ book. (book.room ≡ lines) × (book.journal ≡ [])) }
    ensures plain { IfOk result IsPlain }
{
    let store = AnyStore::new(alloc.clone()?, kind);
    match Book::lasting(alloc.clone()?, store, lines) {
        Ok(book) => Ok(book),
        Err(_) => Err(AllocError),
    }
}

/// Reads a script of commands, carries each line out on a queue that is empty at first, of items of
/// this width, and writes the answers, a line each. The journal has room for so many lines, 1 to 72,057,594,037,927,936; one
/// with room for more than 1,048,576 is kept by its last 65,536 lines. The queue keeps its items in a
/// store of this kind, on which no answer depends but `no memory`.
///
/// - `Ok`: each line is answered; the Book has the journal of all of them.
/// - `Refused` and `TooLong`: the answers of the lines before the refused one are written.
/// - `NoMemory`: a beginning of the answers is written; none where memory for the journal is
///   refused, and then nothing is read. A push for which the queue can't grow is answered `no
///   memory`, and is no error.
/// - `Input`: the answers of all whole lines that were read are written.
/// - `Output`: a beginning of the answers is written.
///
/// After an error the reader has given at most one buffer behind the lines that were carried out.
pub fn run_seq<P: Part, A: Allocator + Clone, R: Read, W: Write>(
    alloc: A,
    reader: &mut R,
    writer: &mut W,
    lines: u64,
    kind: StoreKind,
) -> Result<Book<AnyStore<Entry<P>, A>, A, P>, RunError<Refusal>>
    requires { IsLongRoom lines }
    ensures { (input : List ℕ) → R.remaining reader.old ≡ Some input
        → (text : List ℕ) × Appends (W.contents writer.old) (W.contents writer.new) text
        × SeqWrites P.wide lines input (R.remaining reader.new) result text }
{
    let Ok(book) = empty_book(&alloc, lines, kind) else {
        return Err(RunError::NoMemory);
    };
    let commands = Commands {
        book: Owned { value: book },
    };
    match play_script(alloc, commands, reader, writer) {
        Ok(played) => Ok(played.book.value),
        Err(error) => Err(error),
    }
}
