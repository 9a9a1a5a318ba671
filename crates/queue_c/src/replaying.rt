// How a C program reads a journal back from its text.
ghost use Rattle.std.specs.Prelude.{◌≡◌, ◌≢◌, ◌↔◌, ◌∷◌, [], Some, None, IfOk, IfErr};
ghost use Rattle.queue_c.specs.Calls.{IsOneOf};
ghost use Rattle.queue_c.specs.Handles.{journal_in, replay_in};
ghost use Rattle.queue_c.specs.Replaying.{OpenReplayAnswers, LineAnswers, IsReadBack, Ending, EndAnswers};
ghost use Rattle.queue_c.specs.declared.contents.Contents.TheVariants as holds;
ghost use Rattle.queue_c.specs.declared.codes.TheConstants.{NO_HANDLE, NO_MEMORY, OK};

use crate::boxed_replay::BoxedReplay;
use crate::closing::put_closed;
use crate::codes::{NO_HANDLE, NO_MEMORY, NOT_LAWFUL, OK};
use crate::contents::{Contents, JournalReplay};
use crate::handle::Handle;
use crate::journal::Journal;
use crate::place::{boxed, set};
use queue_texts::{Replay, ReplayError};
use std::alloc::Global;
use std::mem;

// A replay of no lines, on the heap.
fn open_boxed(alloc: Global) -> Result<Box<Contents, Global>, u32>
    ensures opened { IfOk result (λ b. b.value ≡ holds.Replay (record { journal = [] })) }
    ensures err { IfErr result (λ code. code ≡ NO_MEMORY) }
{
    match BoxedReplay::new(alloc) {
        Ok(replay) => boxed(alloc, Contents::Replay(replay)),
        Err(code) => Err(code),
    }
}

/// Opens a replay, which has read no line. Refusals, which leave the handle as it was: 42 where it isn't empty, 6 no memory.
#[unsafe(no_mangle)]
pub extern "C" fn pq_core_replay_open(alloc: Global, replay: &mut Handle) -> u32
    ensures answers { OpenReplayAnswers replay.old.value result replay.new.value }
{
    if !replay.is_empty() {
        return NO_HANDLE;
    }
    match open_boxed(alloc) {
        Ok(held) => {
            replay.put(held);
            OK
        }
        Err(code) => code,
    }
}

// Reads the text as the next line of the replay.
fn read_next(replay: &mut BoxedReplay, text: &[u8]) -> u32
    ensures answers { LineAnswers text.now (Some (holds.Replay replay.old)) result (Some (holds.Replay replay.new)) }
{
    match replay.play_line(text) {
        Ok(()) => OK,
        Err(ReplayError::NoMemory) => NO_MEMORY,
        Err(ReplayError::Unlawful(_)) => NOT_LAWFUL,
    }
}

// The same, of what is held.
fn read_line(held: &mut Contents, text: &[u8]) -> u32
    ensures answers { LineAnswers text.now (Some held.old) result (Some held.new) }
{
    let Contents::Replay(replay) = held else {
        return NO_HANDLE;
    };
    read_next(replay, text)
}

/// Reads a text without its line feed as the journal's next line, and carries its operation out: 0, and the journal that was read
/// has that line at its end, and is a lawful one. Refusals, which change nothing: 54 where the text is no line that may come
/// next, 6 no memory for the item of a push or a move, 42 where the handle holds no replay. The pointer must not be null, where the length
/// is 0 neither.
#[unsafe(no_mangle)]
pub extern "C" fn pq_core_replay_line(alloc: Global, replay: &mut Handle, text: &[u8]) -> u32
    ensures answers { LineAnswers text.now replay.old.value result replay.new.value }
{
    let Some(mut held) = replay.take(alloc) else {
        return NO_HANDLE;
    };
    let code = read_line(&mut held, text);
    replay.put(held);
    code
}

// What the lines that were read leave.
fn read_back(replay: JournalReplay) -> Journal
    ensures { IsReadBack replay.journal result }
{
    let (store, before, lines) = Replay::take_parts(&mut Some(replay));
    Journal::of(store, before, lines)
}

// The same, in place of the replay that is held.
fn end(held: &mut Contents) -> u32
    ensures ended { result ≡ OK → Ending (replay_in (Some held.old)) (journal_in (Some held.new)) }
    ensures refused { result ≢ OK → held.new ≡ held.old }
    ensures codes { IsOneOf result (OK ∷ NO_HANDLE ∷ []) }
    ensures no_replay { (result ≡ NO_HANDLE) ↔ (replay_in (Some held.old) ≡ None) }
{
    let journal = match mem::replace(held, Contents::Vacant) {
        Contents::Replay(replay) => read_back(replay.into_replay()),
        other => {
            set(held, other);
            return NO_HANDLE;
        }
    };
    set(held, Contents::Journal(journal));
    OK
}

/// Ends a replay, and gives the journal that was read: its last lines, how many came before them, and the items that all of
/// them leave in the queue. The first handle is empty then. 42, which leaves both handles as they were, where the first holds no
/// replay or the second isn't empty.
#[unsafe(no_mangle)]
pub extern "C" fn pq_core_replay_end(
    alloc: Global,
    replay: &mut Handle,
    journal: &mut Handle,
) -> u32
    ensures answers { EndAnswers replay.old.value journal.old.value result replay.new.value journal.new.value }
{
    let Some(mut held) = replay.take_for(alloc, journal) else {
        return NO_HANDLE;
    };
    let code = end(&mut held);
    put_closed(code, held, replay, journal);
    code
}
