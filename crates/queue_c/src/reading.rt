// What a C program reads of a journal, and takes out of a closed queue.
ghost use Rattle.std.specs.Prelude.{◌≡◌, ◌≢◌, length, Some, None};
ghost use Rattle.std.specs.Option.{MatchOption};
ghost use Rattle.queue_c.specs.Handles.{journal_in};
ghost use Rattle.queue_c.specs.Calls.{Reading, Taking};
ghost use Rattle.queue_c.specs.declared.codes.TheConstants.{NO_HANDLE, OK};

use crate::codes::{NO_HANDLE, NO_ITEM, NO_LINE, OK};
use crate::contents::Contents;
use crate::handle::Handle;
use crate::plain::{PlainItem, PlainLine, tell_item, tell_line};
use std::alloc::Global;

fn lines(held: &Contents, count: &mut usize) -> u32
    ensures lines { MatchOption (journal_in (Some held.now)) (result ≡ NO_HANDLE) (λ told.
        (result ≡ OK) × (count.new ≡ length told.lines)) }
    ensures untold { result ≢ OK → count.new ≡ count.old }
{
    let Contents::Journal(told) = held else {
        return NO_HANDLE;
    };
    *count = told.count();
    OK
}

/// Tells how many lines the handle has of a journal; 42 where it holds none.
#[unsafe(no_mangle)]
pub extern "C" fn pq_core_lines(alloc: Global, journal: &mut Handle, count: &mut usize) -> u32
    ensures lines { MatchOption (journal_in journal.old.value) (result ≡ NO_HANDLE) (λ told.
        (result ≡ OK) × (count.new ≡ length told.lines)) }
    ensures same { journal.new.value ≡ journal.old.value }
    ensures untold { result ≢ OK → count.new ≡ count.old }
{
    let Some(held) = journal.take(alloc) else {
        return NO_HANDLE;
    };
    let code = lines(&held, count);
    journal.put(held);
    code
}

fn lines_before(held: &Contents, count: &mut u64) -> u32
    ensures before { MatchOption (journal_in (Some held.now)) (result ≡ NO_HANDLE) (λ told.
        (result ≡ OK) × (count.new ≡ told.before)) }
    ensures untold { result ≢ OK → count.new ≡ count.old }
{
    let Contents::Journal(told) = held else {
        return NO_HANDLE;
    };
    *count = told.before();
    OK
}

/// Tells how many lines of the journal came before those that the handle has; 42 where it holds none.
#[unsafe(no_mangle)]
pub extern "C" fn pq_core_lines_before(alloc: Global, journal: &mut Handle, count: &mut u64) -> u32
    ensures before { MatchOption (journal_in journal.old.value) (result ≡ NO_HANDLE) (λ told.
        (result ≡ OK) × (count.new ≡ told.before)) }
    ensures same { journal.new.value ≡ journal.old.value }
    ensures untold { result ≢ OK → count.new ≡ count.old }
{
    let Some(held) = journal.take(alloc) else {
        return NO_HANDLE;
    };
    let code = lines_before(&held, count);
    journal.put(held);
    code
}

// Tells the line of this index.
fn read(held: &Contents, index: usize, line: &mut PlainLine) -> u32
    ensures read { MatchOption (journal_in (Some held.now)) (result ≡ NO_HANDLE) (λ told.
        Reading told.lines index result line.new) }
    ensures untold { result ≢ OK → line.new ≡ line.old }
{
    let Contents::Journal(told) = held else {
        return NO_HANDLE;
    };
    match told.line(index) {
        Some(found) => {
            *line = tell_line(found);
            OK
        }
        None => NO_LINE,
    }
}

/// Reads the line of this index, from 0; 46 where there is none, 42 where the handle holds no
/// journal.
#[unsafe(no_mangle)]
pub extern "C" fn pq_core_read(
    alloc: Global,
    journal: &mut Handle,
    index: usize,
    line: &mut PlainLine,
) -> u32
    ensures read { MatchOption (journal_in journal.old.value) (result ≡ NO_HANDLE) (λ told.
        Reading told.lines index result line.new) }
    ensures same { journal.new.value ≡ journal.old.value }
    ensures untold { result ≢ OK → line.new ≡ line.old }
{
    let Some(held) = journal.take(alloc) else {
        return NO_HANDLE;
    };
    let code = read(&held, index, line);
    journal.put(held);
    code
}

// Takes the first item out, and tells it.
fn take(held: &mut Contents, item: &mut PlainItem) -> u32
    ensures taken { MatchOption (journal_in (Some held.old)) (result ≡ NO_HANDLE) (λ told.
        Taking told result item.new (journal_in (Some held.new))) }
    ensures refused { result ≢ OK → held.new ≡ held.old }
    ensures untold { result ≢ OK → item.new ≡ item.old }
{
    let Contents::Journal(told) = held else {
        return NO_HANDLE;
    };
    match told.take() {
        Some(first) => {
            *item = tell_item(&first);
            OK
        }
        None => NO_ITEM,
    }
}

/// Takes the first item out of those that are left in the closed queue, and leaves the lines; 47 where none is left, 42 where the
/// handle holds no journal.
#[unsafe(no_mangle)]
pub extern "C" fn pq_core_take(alloc: Global, journal: &mut Handle, item: &mut PlainItem) -> u32
    ensures taken { MatchOption (journal_in journal.old.value) (result ≡ NO_HANDLE) (λ told.
        Taking told result item.new (journal_in journal.new.value)) }
    ensures refused { result ≢ OK → journal.new.value ≡ journal.old.value }
    ensures untold { result ≢ OK → item.new ≡ item.old }
{
    let Some(mut held) = journal.take(alloc) else {
        return NO_HANDLE;
    };
    let code = take(&mut held, item);
    journal.put(held);
    code
}

/// Drops the lines, and the items that are left; 42, which changes nothing, where the handle holds no journal.
#[unsafe(no_mangle)]
pub extern "C" fn pq_core_journal_close(alloc: Global, journal: &mut Handle) -> u32
    ensures closed { result ≡ OK → journal.new.value ≡ None }
    ensures refused { result ≢ OK → journal.new.value ≡ journal.old.value }
    ensures codes { MatchOption (journal_in journal.old.value) (result ≡ NO_HANDLE) (λ _. result ≡ OK) }
{
    let Some(held) = journal.take(alloc) else {
        return NO_HANDLE;
    };
    if let Contents::Journal(_) = &*held {
        drop(held);
        return OK;
    }
    journal.put(held);
    NO_HANDLE
}
