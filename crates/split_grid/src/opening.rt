// How a grid is made.
ghost use Rattle.std.specs.Prelude.{◌≡◌, ◌≢◌, ◌↔◌, ◌<◌, [], map, length, Some, IfOk, OnOk};
ghost use Rattle.split_core.specs.Grid.{Different};
ghost use Rattle.split_core.specs.Places.{IsGridSize, place};
ghost use Rattle.split_core.specs.Ids.{OpenGrid, IsFault};
ghost use Rattle.split_core.specs.declared.ids.IdError.{IdError};
ghost use Rattle.split_grid.specs.Rule.{dealer as all_waiting};
ghost use Rattle.split_grid.specs.Dealing.{without_first, IsFirst};
ghost use Rattle.split_grid.specs.Tokens.{Sized};
ghost use Rattle.split_grid.specs.Opening.{places_of, AllFit, newcomer_in, Opens};

use crate::error::GridError;
use crate::grid::Grid;
use crate::rule::{Fits, GridKey, GridRule, GridTable, NextSeat, View};
use crate::tokens::Newcomer;
use atomic_table::{Refused, Seat, Shared, Table};
use split_core::ids::check_ids;
use split_core::laws::{law_ids, law_places};
use split_core::places::place_number;
use split_core::walker::Walker;
use std::alloc::{AllocError, Allocator, Global};

impl<T: Fits> Grid<T> {
    /// The grid of the comers of these ids, with value i at place i, and a newcomer for each id, in
    /// their order. The ids are 1 to 64 in number, none 0 and no two equal, else `Comers` says what
    /// is wrong with them; then there is one value a place, n(n + 1)/2 for n ids, else
    /// `WrongCount`; then `NoMemory` where memory was refused. Takes all memory that the grid will
    /// ever need.
    pub fn new(
        alloc: Global,
        ids: &[u64],
        tag: T::Tag,
        values: Vec<T>,
    ) -> Result<(Grid<T>, Vec<Newcomer<T>>), GridError>
        requires fit { AllFit T.fits tag values.items }
        ensures ok { IfOk result (λ r. Opens tag ids.now r.0 r.1.items) }
        ensures opens { OnOk result (OpenGrid ids.now) }
        ensures comers { (e : IdError) → (result ≡ Err (GridError.Comers e)) ↔ IsFault ids.now e }
        ensures count { (result ≡ Err GridError.WrongCount)
            ↔ (OpenGrid ids.now × (length values.items ≢ places_of (length ids.now))) }

        // No clause can say that memory was refused, but these ids and values would have made a
        // grid.
        ensures memory { result ≡ Err GridError.NoMemory → OpenGrid ids.now × (length values.items ≡ places_of (length ids.now)) }
    {
        if let Err(fault) = check_ids(ids) {
            return Err(GridError::Comers(fault));
        }
        law_ids();
        law_places();
        let places = place_number(0, ids.len() as u16);
        if values.len() != places as usize {
            return Err(GridError::WrongCount);
        }
        match opened(alloc, ids, tag, values, places) {
            Ok(made) => Ok(made),
            Err(AllocError) => Err(GridError::NoMemory),
        }
    }
}

// The grid of these comers and values, and its newcomers.
fn opened<T: Fits>(
    alloc: Global,
    ids: &[u64],
    tag: T::Tag,
    values: Vec<T>,
    places: u16,
) -> Result<(Grid<T>, Vec<Newcomer<T>>), AllocError>
    requires differ { Different ids.now }
    requires size { IsGridSize (length ids.now) }
    requires places { places ≡ place 0 (length ids.now) }
    requires count { length values.items ≡ places }
    requires fit { AllFit T.fits tag values.items }
    ensures { IfOk result (λ r. Opens tag ids.now r.0 r.1.items) }
{
    let key = key_of(alloc, ids, tag)?;
    let (table, newcomers) = laid_out(alloc, &key, values, places)?;
    let grid = Grid {
        table,
        comers: ids.len(),
        places,
    };
    Ok((grid, newcomers))
}

/// The table of a grid with this key and these values, and its newcomers; all of their memory is
/// this allocator's, so that a test can refuse each request. Where there is no table, the values
/// are dropped.
pub fn laid_out<T: Fits, A: Allocator + Copy>(
    alloc: A,
    key: &GridKey<T::Tag>,
    values: Vec<T>,
    places: u16,
) -> Result<(GridTable<T, A>, Vec<Newcomer<T>, A>), AllocError>
    requires differ { Different key.now.ids.items }
    requires size { IsGridSize (length key.now.ids.items) }
    requires places { places ≡ place 0 (length key.now.ids.items) }
    requires count { length values.items ≡ places }
    requires fit { AllFit T.fits key.now.tag values.items }
    ensures sized { IfOk result (λ r. Sized r.0.shared.table_id (length key.now.ids.items)) }
    ensures key { IfOk result (λ r. r.0.shared.key ≡ key.now) }
    ensures dealt { IfOk result
        (λ r. r.1.items ≡ map (newcomer_in r.0.shared.table_id key.now.tag (length key.now.ids.items)) key.now.ids.items) }
{
    let slots = in_slots(alloc, values)?;
    let words = vec![in alloc; 0u64; 2 * places as usize]?;
    let (table, dealer) = match Table::new(alloc, &words, slots, key) {
        Ok(made) => made,
        Err(Refused { slots: _ }) => return Err(AllocError),
    };
    let newcomers = deal(alloc, &table.shared, dealer, &key.ids)?;
    Ok((table, newcomers))
}

fn in_slots<T: Drop, A: Allocator>(
    alloc: A,
    values: Vec<T>,
) -> Result<Vec<Option<T>, A>, AllocError>
    ensures { IfOk result (λ v. v.items ≡ map Some values.items) }
{
    values.into_iter().map(|value| Some(value)).collect(alloc)
}

fn key_of<G: Drop>(alloc: Global, ids: &[u64], tag: G) -> Result<GridKey<G>, AllocError>
    ensures ids { IfOk result (λ o. o.ids.items ≡ ids.now) }
    ensures tag { IfOk result (λ o. o.tag ≡ tag) }
{
    let ids = ids.to_vec(alloc)?;
    Ok(GridKey { ids, tag })
}

// The newcomers, one cut off the dealer's seat after the other.
fn deal<T: Fits, A: Allocator>(
    alloc: A,
    board: &Shared<Option<T>, View<T::Tag>, GridKey<T::Tag>, GridRule<T>>,
    mut dealer: Seat<Option<T>, View<T::Tag>>,
    ids: &[u64],
) -> Result<Vec<Newcomer<T>, A>, AllocError>
    requires here { dealer.table_id ≡ board.now.table_id }
    requires sized { Sized board.now.table_id (length ids.now) }
    requires all { dealer.me ≡ (all_waiting board.now.key.tag (length ids.now) ids.now, []) }
    ensures { IfOk result (λ ns. ns.items ≡ map (newcomer_in board.now.table_id board.now.key.tag (length ids.now)) ids.now) }
{
    let mut newcomers = Vec::with_capacity(alloc, ids.len())?;
    for id in ids {
        newcomers.push(next_newcomer(board, &mut dealer, *id))?;
    }
    Ok(newcomers)
}

fn next_newcomer<T: Fits>(
    board: &Shared<Option<T>, View<T::Tag>, GridKey<T::Tag>, GridRule<T>>,
    dealer: &mut Seat<Option<T>, View<T::Tag>>,
    id: u64,
) -> Newcomer<T>
    requires here { dealer.old.table_id ≡ board.now.table_id }
    requires sized { Sized board.now.table_id dealer.old.me.0.comers }
    requires next { IsFirst dealer.old.me.0.role id }
    ensures table { dealer.new.table_id ≡ dealer.old.table_id }
    ensures dealer { dealer.new.me ≡ (without_first dealer.old.me.0, dealer.old.me.1) }
    ensures newcomer { result ≡ newcomer_in dealer.old.table_id dealer.old.me.0.tag dealer.old.me.0.comers id }
{
    law_places();
    Newcomer {
        seat: board.split_seat::<NextSeat>(dealer),
        walker: Walker::at_start(id),
    }
}
