// Notes, by which one member tells another what it knows of the journal.
ghost use Rattle.std.specs.Prelude.{◌≡◌};
ghost use Rattle.flat_queue.specs.Notes.{WritesNote, HearsNote, NotesKeepOrder};

use crate::handle::Handle;
use crate::member::Member;
use crate::queue::Queue;
use announce_board::Note;
use leftist_heap::Store;
use pq_book::Entry;
use pq_types::Part;

impl<S: Store<Entry<P>>, P: Part> Queue<S, P> {
    /// The member writes a note of the journal, as it stands: it has all calls that the member was told of.
    /// Whoever is handed the note may hear it. Takes no memory, and never waits.
    pub fn note(&self, member: &mut Member<S, P>) -> Note
        requires queue { member.old.queue ≡ self.now }
        ensures table { result.table ≡ self.now.desk }
        ensures writes { WritesNote member.old result.told member.new }
    {
        self.desk.note(&mut member.pen)
    }

    /// The member hears a note of another member of this queue: it knows the journal from then on, which begins
    /// with the one that the note tells, and each call that it makes from now on has its line behind that. Takes no
    /// memory, and never waits.
    pub fn hear(&self, member: &mut Member<S, P>, note: Note)
        requires queue { member.old.queue ≡ self.now }
        requires note { note.table ≡ self.now.desk }
        ensures hears { HearsNote member.old note.told member.new }
    {
        self.desk.hear(&mut member.pen, note);
    }
}

impl<'q, S: Store<Entry<P>>, P: Part> Handle<'q, S, P> {
    /// Writes a note of the journal, as `Queue::note` does. Takes no memory, and never waits.
    pub fn note(&mut self) -> Note
        ensures table { result.table ≡ self.old.queue.desk }
        ensures writes { WritesNote self.old result.told self.new }
    {
        self.queue.note(&mut self.member)
    }

    /// Hears a note of another member of its queue, as `Queue::hear` does. Takes no memory, and never waits.
    pub fn hear(&mut self, note: Note)
        requires note { note.table ≡ self.old.queue.desk }
        ensures hears { HearsNote self.old note.told self.new }
    {
        self.queue.hear(&mut self.member, note);
    }
}

/// Order in time between threads: where a member was told of a call and then wrote a note, and another heard
/// the note, each later call of the other has its line behind that call's. With the rise of each member's own
/// lines (`law_lines_rise`), this is the order in which calls are made, as far as those who make them know it.
/// Runs nothing.
pub fn law_notes_keep_order()
    ensures { NotesKeepOrder }
{}
