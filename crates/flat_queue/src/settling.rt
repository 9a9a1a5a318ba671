// A lead without a sweep, by which a member learns the journal, and archives it.
ghost use Rattle.std.specs.Prelude.{◌≡◌, ◌≤◌, length, IfSome, IfNone, IsErrOf};
ghost use Rattle.desk_core.specs.Pen.{after_miss};
ghost use Rattle.flat_queue.specs.Settling.{Archives, Settles, SettlesBy};

use crate::error::ArchiveError;
use crate::member::Member;
use crate::queue::Queue;
use announce_board::Lead;
use leftist_heap::Store;
use pq_book::{Entry, LinesError};
use pq_types::{Item, Line, Part};
use std::alloc::Allocator;

impl<S: Store<Entry<P>>, P: Part> Queue<S, P> {
    /// The member leads and releases, and answers nobody: how many lines the journal had meanwhile.
    /// `None` only where it found the lock held. Takes no memory, and never waits.
    pub fn settle(&self, member: &mut Member<S, P>) -> Option<u64>
        requires queue { member.old.queue ≡ self.now }
        ensures queue { member.new.queue ≡ member.old.queue }
        ensures settles { IfSome result (λ count. Settles member.old count member.new) }
        ensures misses { IfNone result (member.new ≡ record member.old { pen = after_miss member.old.pen }) }
    {
        let lead = self.lead(member)?;
        let count = lead.lines();
        self.release(member, lead);
        Some(count)
    }

    /// The member leads, says that the first so many lines of the journal are archived, copies those that come next to the end
    /// of the archive, which has the others already, and releases: how many lines the journal has, all of which the archive has
    /// then. From now on the journal may have as many lines beyond those first ones as memory keeps, or as many as it might
    /// before; no other call lets it have more. `None` only where it found the lock held. `Ahead` where the journal has fewer lines than that, and then nothing was said or copied. `Forgotten`
    /// where the first line that the archive lacks is no longer in memory, which never comes where it is brought up to date
    /// at least once in as many lines as memory keeps; `NoMemory` where memory for the lines was refused. The archive is as it
    /// was then. Takes memory for the archive alone, and never waits.
    pub fn archive<B: Allocator>(
        &self,
        member: &mut Member<S, P>,
        archived: u64,
        archive: &mut Vec<Line<P>, B>,
    ) -> Option<Result<u64, ArchiveError>>
        requires queue { member.old.queue ≡ self.now }
        ensures queue { member.new.queue ≡ member.old.queue }
        ensures settles { IfSome result (λ told. SettlesBy archived member.old told member.new) }
        ensures archives { IfSome result
            (Archives self.now.room archived member.new.pen.known archive.old.items archive.new.items) }
        ensures misses { IfNone result (member.new ≡ record member.old { pen = after_miss member.old.pen }) }
        ensures kept { IfNone result (archive.new.items ≡ archive.old.items) }
    {
        law_one_room(member);
        let led = self.lead(member)?;
        if archived > led.lines() {
            self.release(member, led);
            return Some(Err(ArchiveError::Ahead));
        }
        let told = self.desk.archive(&mut member.pen, led, archived);
        let copied = copied_from(&told, archived, archive);
        self.release(member, told);
        Some(copied)
    }
}

// The pen of a member is one of its queue's, so that it knows the room of the queue's journal. Runs nothing.
pub(crate) fn law_one_room<S: Store<Entry<P>>, P: Part>(member: &Member<S, P>)
    ensures { member.now.pen.room ≡ member.now.queue.room }
{
    let _ = &member.pen;
}

// Brings the archive, which has so many lines of the leader's journal, up to date.
fn copied_from<S: Store<Entry<P>>, B: Allocator, P: Part>(
    lead: &Lead<S, P>,
    archived: u64,
    archive: &mut Vec<Line<P>, B>,
) -> Result<u64, ArchiveError>
    requires has { archived ≤ length lead.now.book.journal }
    ensures archives { Archives lead.now.book.room archived lead.now.book.journal archive.old.items archive.new.items result }
    ensures has { ¬ (IsErrOf result ArchiveError.Ahead) }
{
    match lead.lines_from(archived, archive) {
        Ok(()) => Ok(lead.lines()),
        Err(LinesError::Forgotten) => Err(ArchiveError::Forgotten),
        Err(LinesError::NoMemory) => Err(ArchiveError::NoMemory),
    }
}
