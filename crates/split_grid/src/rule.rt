// What the table of a grid keeps between any two steps, and what a step tells.
ghost use Rattle.std.specs.Prelude.{◌≡◌, ℕ, length};
ghost use Rattle.split_grid.specs.Words.{door_at};
ghost use Rattle.split_grid.specs.Rule.{Keeps, dealer};
ghost use Rattle.split_grid.specs.Steps.{Strode, Begun, GoneOn};
ghost use Rattle.split_grid.specs.Trails.{SeesDoor};
ghost use Rattle.split_grid.specs.Dealing.{without_first, first_alone};

use atomic_table::{Play, Split, Table, TableRule};
use split_core::model::Comer;
use std::collections::LinkedList;
use std::marker::PhantomData;

/// A value that is kept for one place of a grid.
pub trait Fits: Drop {
    /// What the values of one grid have in common.
    type Tag: Drop;

    /// This value fits this tag and the place of this number.
    ghost fits: { Self.Tag → ℕ → Self → Type 0 };
}

/// What a seat of the table stands for. No value of it is made.
pub enum Role {
    /// The ids of the comers that have no seat yet.
    Dealer(LinkedList<u64>),
    /// A comer.
    Dealt(Comer),
}

/// One read of a door for a trail scan: of which place, and what its word was. No value of it is made.
pub struct Look {
    pub place: u64,
    pub word: u64,
}

/// What a seat of the table knows: the grid's tag, the number of its comers, what the seat stands
/// for, and each door that it has read for a trail scan, in their order. No value of it is made.
pub struct View<G> {
    pub tag: G,
    pub comers: u64,
    pub role: Role,
    pub looks: LinkedList<Look>,
}

/// What a grid is opened with.
#[derive(Drop)]
pub struct GridKey<G> {
    pub ids: Vec<u64>,
    pub tag: G,
}

/// The rule of a grid's table.
pub struct GridRule<T> {
    marker: PhantomData<T>,
}

impl<T: Fits> TableRule<Option<T>, View<T::Tag>, GridKey<T::Tag>> for GridRule<T> {
    ghost holds = { λ key. Keeps T.fits key.tag key.ids.items };

    ghost first = { λ key. dealer key.tag (length key.ids.items) key.ids.items };
}

/// The table of a grid, with its memory of this allocator.
pub type GridTable<T, A> = Table<
    Option<T>,
    View<<T as Fits>::Tag>,
    GridKey<<T as Fits>::Tag>,
    GridRule<T>,
    A,
>;

/// A comer takes its next step on its way.
pub struct WayStep<T> {
    marker: PhantomData<T>,
}

impl<T: Fits> Play<Option<T>, View<T::Tag>> for WayStep<T> {
    ghost then = { λ _ before word after. Strode T.fits before word after };
}

/// The first door of a scan is read.
pub struct FirstDoor;

impl<T, G> Play<Option<T>, View<G>> for FirstDoor {
    ghost then = { λ _ before word after. Begun before word after };
}

/// The next door of a scan is read.
pub struct NextDoor;

impl<T, G> Play<Option<T>, View<G>> for NextDoor {
    ghost then = { λ _ before word after. GoneOn before word after };
}

/// The door of a place is read for a trail scan.
pub struct TrailDoor;

impl<T, G> Play<Option<T>, View<G>> for TrailDoor {
    ghost then = { λ step before word after. (place : ℕ) → step.word ≡ door_at place → SeesDoor place before word after };
}

/// The next comer gets its seat.
pub struct NextSeat;

impl<G> Split<View<G>> for NextSeat {
    ghost left = { without_first };

    ghost right = { first_alone };
}
