// The desk's pens as plain data: what proofs know of a thread that posts, leads or waits. Machines
// make no value of these types but `Call`.
use pq_types::{Control, Item, Kind, Line, Operation, Reply, Request};
use std::collections::LinkedList;
use wait_list::Waiter;

/// An answer that was entered, as its asker keeps it: the journal line, from 1, the serial of the
/// post, the operation and the reply.
#[derive(Clone, Copy)]
pub struct Call {
    pub number: u64,
    pub serial: u64,
    pub operation: Operation,
    pub reply: Reply,
}

/// Whether a pen waits for an answer.
pub enum Standing {
    /// It is idle, with the item of its last draft, where no post has followed.
    Idle(Option<Item>),
    /// It waits for the answer to this request.
    Waiting(Request),
}

/// What is due to a leader: the answer to the post that it has read.
pub struct Due {
    /// The place where the request stands posted.
    pub place: u16,
    /// Its serial.
    pub serial: u64,
    /// Whether it is a push, a pop or a least.
    pub kind: Kind,
    /// The item of the record, once the leader knows it: of a push the one that it has read, of a
    /// pop or least the one that it has laid.
    pub item: Option<Item>,
}

/// What stood in a word that was read.
pub enum Word {
    /// The lock: whether it was held.
    Lock(bool),
    /// The control of a place.
    Control(Control),
    /// The item cell of a place.
    Item(Item),
}

/// Whether a pen acts.
pub enum Duty {
    /// It may take steps.
    Active,
    /// It sleeps, as new, until it is woken.
    Asleep,
    /// It has retired, and takes no step from then on.
    Retired,
}

/// A pen: what the one who posts at a place has done and seen.
pub struct PenState {
    /// Its place.
    pub place: u16,
    /// How many lines the journal has room for.
    pub room: u64,
    /// Its last serial: how often it has posted, or carried out a request of its own.
    pub posts: u64,
    /// Whether it is idle, or for the answer to which request it waits.
    pub standing: Standing,
    /// The entered answers that it has read whole, and those to its own requests, in order.
    pub mine: LinkedList<Call>,
    /// Whether it was told that the journal is full.
    pub told_full: bool,
    /// Whether it has the lock.
    pub leading: bool,
    /// While it leads, the journal in its hand.
    pub hand: LinkedList<Line>,
    /// How many items pushes may leave, as the Book says that it has, or had last, in its hand.
    pub bound: u64,
    /// How many lines that Book's journal may have until more are archived.
    pub allowed: u64,
    /// Who waits at that Book.
    pub waiters: LinkedList<Waiter>,
    /// The numbers that its releases have woken, and that it has not handed out yet.
    pub owed: LinkedList<u8>,
    /// The places whose mail it has read in its present or last lead, in order.
    pub dealt: LinkedList<u16>,
    /// The journal that it knows, empty at first: that of its last release, or the whole one with which it has caught
    /// up since, with the lines of the notes that it has heard.
    pub known: LinkedList<Line>,
    /// What its last mail read found posted, where it has neither answered nor released since.
    pub due: Option<Due>,
    /// The control that it last read or stored at its own place, Nothing before.
    pub own: Control,
    /// While it waits: the item of the answer that it has seen in its record, once it has read a word
    /// of it.
    pub seen: Option<Item>,
    /// What it last read.
    pub read: Option<Word>,
    /// Of each of its calls the serial, and the position at which it began in the history of its desk.
    pub begins: LinkedList<(u64, u64)>,
    /// Of each of its calls that has ended the serial, and the position at which it ended.
    pub ends: LinkedList<(u64, u64)>,
    /// The number of its steps.
    pub steps: u64,
    /// Whether it acts.
    pub duty: Duty,
}

/// What a seat at the desk stands for: the places from this one on, whose pens are still to come,
/// with the journal's room; or a pen; or a note, with the journal that it tells; or a testimony, with
/// some pens as they were when they gave it, and how many sleeping pens may be woken by it: its licences.
pub enum View {
    Dealer(u16, u64),
    Holder(PenState),
    Note(LinkedList<Line>),
    Testimony(LinkedList<PenState>, u64),
}
