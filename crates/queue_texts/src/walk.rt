// `flatpq walk`: a schedule of comers and their moves, played on the grid machine.
ghost use Rattle.std.specs.Prelude.{◌≡◌, ℕ, List, [], ◌++◌, Some, OnOk, OnErr, IfOk, IfErr};
ghost use Rattle.std.specs.Io.KnownBytes.{Appends};
ghost use Rattle.split_core.specs.Ids.{OpenGrid};
ghost use Rattle.split_core.specs.TrailMachine.{StandsAfter};
ghost use Rattle.queue_texts.specs.EventText.{event_text};
ghost use Rattle.queue_texts.specs.declared.orders.ScanKind.{ScanKind};
ghost use Rattle.queue_texts.specs.Orders.{SpellsOrder};
ghost use Rattle.queue_texts.specs.WalkText.{RefusesWalk, Schedule, WalkWrites};
ghost use Rattle.queue_texts.specs.WalkSteps.{OpensAs, MoveMade, MoveRefused, OrderPlays, OrderRefused, OrderStops, OpenStops};

use crate::events::event_line;
use crate::faults::Refusal;
use crate::orders::{Move, Order, ScanKind, Verb, read_order};
use arrayvec::ArrayVec;
use line_script::{LONGEST_LINE, Player, RunError, run_script};
use split_core::ids::IdError;
use split_core::places::MAX_COMERS;
use split_core::seen::{Seen, StepError};
use split_core::trail_machine::TrailMachine;
use std::alloc::Allocator;
use std::io::{Read, Write};

// The grid of these comers.
fn open<A: Allocator + Clone>(alloc: &A, ids: &[u64]) -> Result<TrailMachine<A>, RunError<Refusal>>
    ensures ok { IfOk result (λ m. OpenGrid ids.now × StandsAfter ids.now [] m) }
    ensures err { IfErr result (λ e. OpenStops ids.now e) }
{
    let Ok(own) = alloc.clone() else {
        return Err(RunError::NoMemory);
    };
    match TrailMachine::new(own, ids) {
        Ok(machine) => Ok(machine),
        Err(IdError::NoMemory) => Err(RunError::NoMemory),
        Err(error) => Err(RunError::Refused(Refusal::Comers(error))),
    }
}

// The machine, which is opened where it isn't open yet.
fn take_machine<A: Allocator + Clone>(
    machine: &mut Option<TrailMachine<A>>,
    alloc: &A,
    ids: &[u64],
) -> Result<TrailMachine<A>, RunError<Refusal>>
    ensures ok { IfOk result (λ m. OpensAs ids.now machine.old m) }
    ensures err { IfErr result (λ e. OpenStops ids.now e) }
{
    match machine.take() {
        Some(open) => Ok(open),
        None => open(alloc, ids),
    }
}

// Puts the line of an event behind the text so far.
fn put_event<B: Allocator>(
    id: u64,
    seen: Seen,
    out: &mut Vec<u8, B>,
) -> Result<(), RunError<Refusal>>
    ensures ok { OnOk result (out.new.items ≡ out.old.items ++ event_text id seen) }
    ensures err { IfErr result (λ e. (e ≡ RunError.NoMemory) × (out.new.items ≡ out.old.items)) }
{
    match out.extend_from_slice(event_line(id, seen).as_slice()) {
        Ok(()) => Ok(()),
        Err(_) => Err(RunError::NoMemory),
    }
}

// Lets this comer make this move on the open grid.
fn make_move<A: Allocator>(
    grid: &mut TrailMachine<A>,
    kind: ScanKind,
    what: Move,
    id: u64,
) -> Result<Seen, StepError>
    ensures ok { IfOk result (λ seen. MoveMade kind what id grid.old seen grid.new) }
    ensures refused { IfErr result (λ e. MoveRefused kind what id grid.old e) }
{
    match (what, kind) {
        (Move::Step, _) => grid.step(id),
        (Move::Scan, ScanKind::Diagonals) => grid.scan_step(id),
        (Move::Scan, ScanKind::Trails) => grid.trail_step(id),
    }
}

/// A move that a line asks for: what it is, of which comer, and by which kind of scan, and the number of the line.
#[derive(Clone, Copy)]
struct AskedMove {
    kind: ScanKind,
    what: Move,
    id: u64,
    line: u64,
}

// Makes this move, and puts the event's line behind the text so far.
fn play_move<A: Allocator + Clone, B: Allocator>(
    machine: &mut Option<TrailMachine<A>>,
    alloc: &A,
    ids: &[u64],
    asked: AskedMove,
    out: &mut Vec<u8, B>,
) -> Result<(), RunError<Refusal>>
    ensures ok { OnOk result ((text : List ℕ) × (out.new.items ≡ out.old.items ++ text)
        × OrderPlays asked.kind (Verb.Make asked.what) asked.id ids.now machine.old text ids.now machine.new) }
    ensures err { IfErr result (λ e. OrderStops asked.kind (Verb.Make asked.what) asked.id ids.now machine.old asked.line e) }
    ensures unchanged { OnErr result (out.new.items ≡ out.old.items) }
{
    let mut open = match take_machine(machine, alloc, ids) {
        Ok(open) => open,
        Err(error) => return Err(error),
    };
    let seen = match make_move(&mut open, asked.kind, asked.what, asked.id) {
        Ok(seen) => seen,
        Err(error) => {
            return Err(RunError::Refused(Refusal::Step {
                line: asked.line,
                reason: error,
            }));
        }
    };
    *machine = Some(open);
    if put_event(asked.id, seen, out).is_err() {
        return Err(RunError::NoMemory);
    }
    Ok(())
}

// The order of the line with this number.
fn read_order_at(number: u64, line: &[u8]) -> Result<Order, Refusal>
    ensures ok { IfOk result (λ order. SpellsOrder line.now order) }
    ensures err { IfErr result (λ e. (kind : ScanKind) (p : Schedule) → RefusesWalk kind p number line.now e) }
{
    match read_order(line) {
        Ok(order) => Ok(order),
        Err(error) => Err(Refusal::Order {
            line: number,
            reason: error,
        }),
    }
}

/// A walk so far: the kind of its scans, the comers that were named, and their grid once it is open.
#[derive(Drop)]
struct Walk<A: Allocator + Clone> {
    alloc: A,
    kind: ScanKind,
    ids: ArrayVec<u64, MAX_COMERS>,
    machine: Option<TrailMachine<A>>,
}

// Names one more comer.
fn add<A: Allocator + Clone>(
    ids: &mut ArrayVec<u64, MAX_COMERS>,
    machine: &Option<TrailMachine<A>>,
    id: u64,
    number: u64,
) -> Result<(), Refusal>
    ensures ok { OnOk result ((kind : ScanKind)
        → OrderPlays kind Verb.Comer id ids.old.items machine.now [] ids.new.items machine.now) }
    ensures err { IfErr result (λ e. (kind : ScanKind) → OrderRefused kind Verb.Comer id ids.old.items machine.now number e) }
{
    if machine.is_some() {
        return Err(Refusal::LateComer { line: number });
    }
    if ids.is_full() {
        return Err(Refusal::Comers(IdError::TooManyComers));
    }
    ids.push(id);
    Ok(())
}

impl<A: Allocator + Clone> Player for Walk<A> {
    type Refusal = Refusal;

    ghost use Rattle.line_script.specs.declared.lines.TheConstants.{LONGEST_LINE};
    ghost use Rattle.queue_texts.specs.WalkText.{Schedule, PlaysWalk, RefusesWalk, EndsWalk};
    ghost use Rattle.queue_texts.specs.WalkSteps.{IsWalk};

    ghost kind = { record {
      longest = LONGEST_LINE;
      plays =
          λ s line text t. (t.kind ≡ s.kind) × ((p : Schedule) → IsWalk s.ids.items s.machine p
          → (q : Schedule) × IsWalk t.ids.items t.machine q × PlaysWalk s.kind p line text q);
      refuses = λ s n line e. (p : Schedule) → IsWalk s.ids.items s.machine p → RefusesWalk s.kind p n line e;
      ends = λ s r. (p : Schedule) → IsWalk s.ids.items s.machine p → EndsWalk p r;
    } };

    fn longest() -> usize {
        LONGEST_LINE
    }

    fn play<B: Allocator>(
        &mut self,
        number: u64,
        line: &[u8],
        out: &mut Vec<u8, B>,
    ) -> Result<(), RunError<Refusal>> {
        let order = match read_order_at(number, line) {
            Ok(order) => order,
            Err(error) => return Err(RunError::Refused(error)),
        };
        let id = order.id;
        let Walk {
            alloc,
            kind,
            ids,
            machine,
        } = self;
        match order.verb {
            Verb::Comer => {
                if let Err(error) = add(ids, machine, id, number) {
                    return Err(RunError::Refused(error));
                }
            }
            Verb::Make(what) => {
                let asked = AskedMove {
                    kind: *kind,
                    what,
                    id,
                    line: number,
                };
                if let Err(error) = play_move(machine, alloc, ids.as_slice(), asked, out) {
                    return Err(error);
                }
            }
        }
        Ok(())
    }

    fn end(&mut self) -> Result<(), RunError<Refusal>> {
        if self.machine.is_some() {
            return Ok(());
        }
        if let Err(error) = open(&self.alloc, self.ids.as_slice()) {
            return Err(error);
        }
        Ok(())
    }
}

/// Reads a schedule of comers, steps and scans, plays it on a grid of splitters, and writes each
/// event, a line each. All scans are of this kind. The grid opens at the first step or scan, or else at the end of the input.
///
/// - `Ok`: each event is written.
/// - `Refused` and `TooLong`: the events of the lines before the refused one are written; of all
///   lines, where the comers open no grid at the end.
/// - `NoMemory`: a beginning of the events is written.
/// - `Input`: the events of all whole lines that were read are written.
/// - `Output`: a beginning of the events is written.
///
/// After an error the reader has given at most one buffer behind the lines that were played.
pub fn run_walk<A: Allocator + Clone, R: Read, W: Write>(
    alloc: A,
    reader: &mut R,
    writer: &mut W,
    kind: ScanKind,
) -> Result<(), RunError<Refusal>>
    ensures { (input : List ℕ) → R.remaining reader.old ≡ Some input
        → (text : List ℕ) × Appends (W.contents writer.old) (W.contents writer.new) text
        × WalkWrites kind input (R.remaining reader.new) result text }
{
    let Ok(own) = alloc.clone() else {
        return Err(RunError::NoMemory);
    };
    let walk = Walk {
        alloc: own,
        kind,
        ids: ArrayVec::new(),
        machine: None,
    };
    run_script(alloc, walk, reader, writer)
}
