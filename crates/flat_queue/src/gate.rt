// What a call does while it waits for its answer, as its caller lays down.
ghost use Rattle.std.specs.Prelude.{◌≡◌, ℕ};
ghost use Rattle.flat_queue.specs.declared.gate.Turn.{Turn};
ghost use Rattle.flat_queue.specs.declared.gate.Turn.TheVariants.{Lead};

/// What a call that has no answer yet does next.
#[derive(Clone, Copy, Debug, PartialEq, Eq)]
pub enum Turn {
    /// It tries a round of its own.
    Lead,
    /// It leaves the rounds to others.
    Look,
    /// It ends without an answer, and its request stays posted.
    GiveUp,
}

/// What says by turns how a call waits. Threads share a gate through a `&`.
pub trait Gate {
    ghost use Rattle.flat_queue.specs.declared.gate.Turn.{Turn};

    /// This gate may answer the member of this id so.
    ghost may_answer: { Self → ℕ → Turn → Type 0 };

    /// The next turn of a call by the member of this id.
    fn turn(&self, id: u64) -> Turn
        ensures { may_answer self.now id result };
}

/// The gate by which every call tries a round at each turn, and none gives up.
#[derive(Clone, Copy, Debug, Default)]
pub struct Open;

impl Gate for Open {
    ghost may_answer = { λ _ _ turn. turn ≡ Lead };

    fn turn(&self, _id: u64) -> Turn {
        Turn::Lead
    }
}
