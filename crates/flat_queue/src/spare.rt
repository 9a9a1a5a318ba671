// The licences that no comer has, which a queue keeps until it is closed.
ghost use Rattle.std.specs.Prelude.{◌≡◌, IfOk};
ghost use mathlib.Core.Option.{some};
ghost use Rattle.std.specs.Prelude.{[], ◌∷◌};

use announce_board::Testimony;
use atomic_table::{Refused, Table, TableRule};
use std::alloc::{AllocError, Global};
use std::marker::Model;
use std::snapshot::Snapshot;

/// What was put into a slot.
#[derive(Drop)]
pub struct Kept {
    pub sample: Snapshot<Option<Testimony>>,
}

/// It stays there: nobody has a seat by which to take it out.
pub struct Stays;

impl TableRule<Option<Testimony>, (), Kept> for Stays {
    ghost holds = { λ kept s. s.homes ≡ some kept.sample.value ∷ [] };

    ghost first = { λ _. record {} };
}

/// Licences that are kept where threads share them: a testimony may only go from thread to thread, but what lies in the slot of a
/// table may be shared. A contract sees what was put in.
#[derive(Drop)]
pub struct Spare {
    table: Table<Option<Testimony>, (), Kept, Stays, Global>,
}

impl Model for Spare {
    ghost use Rattle.std.specs.Prelude.{◌≡◌, Option};
    ghost use Rattle.announce_board.specs.Testimonies.{Testified};

    ghost Value = { Option Testified };

    ghost view = { λ s. s.table.shared.key.sample.value };

    ghost invariant = { λ s. s.table.shared.table_id.slots ≡ 1 };
}

impl Spare {
    /// Keeps these licences.
    pub(crate) fn new(alloc: Global, licences: Option<Testimony>) -> Result<Spare, AllocError>
        ensures { IfOk result (λ s. s ≡ licences) }
    {
        let kept = Kept {
            sample: Snapshot::of(&licences),
        };
        let slots = vec![in alloc; licences]?;
        match Table::new(alloc, &[], slots, &kept) {
            Ok((table, _)) => Ok(Spare { table }),
            Err(Refused { slots: _ }) => Err(AllocError),
        }
    }

    /// The licences that were kept.
    pub(crate) fn into_licences(self) -> Option<Testimony>
        ensures { result ≡ self }
    {
        let Spare { table } = self;
        let mut closed = table.close();
        let licences = closed.take(0);
        closed.free();
        licences
    }
}
