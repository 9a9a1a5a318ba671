// A replay on the heap.
ghost use Rattle.std.specs.Prelude.{◌≡◌, true, [], IfOk, IfErr, OnOk, OnErr};
ghost use Rattle.queue_texts.specs.Audit.{IsLawful};
ghost use Rattle.queue_texts.specs.Replay.{RefusesText, TakesText};
ghost use Rattle.queue_c.specs.declared.codes.TheConstants.{NO_MEMORY};

use crate::codes::NO_MEMORY;
use crate::contents::JournalReplay;
use crate::place::boxed;
use any_heap::AnyHeap;
use queue_texts::{Owned, Replay, ReplayError};
use std::alloc::{AllocError, Global};
use std::marker::Model;

/// A replay on the heap, in a block of its own, so that what holds a member is no larger for it. A contract sees of it its
/// replay.
#[derive(Drop)]
pub struct BoxedReplay {
    boxed: Box<Owned<JournalReplay>>,
}

impl Model for BoxedReplay {
    ghost use Rattle.queue_texts.specs.Replay.{Replayed};

    ghost Value = { Replayed };

    ghost view = { λ r. r.boxed.value.value };
}

impl BoxedReplay {
    /// A replay of no lines.
    pub fn new(alloc: Global) -> Result<BoxedReplay, u32>
        ensures opened { IfOk result (λ replay. replay ≡ record { journal = [] }) }
        ensures err { IfErr result (λ code. code ≡ NO_MEMORY) }
    {
        match Replay::new(&alloc, AnyHeap::new(alloc, true)) {
            Ok(replay) => match boxed(alloc, Owned { value: replay }) {
                Ok(boxed) => Ok(BoxedReplay { boxed }),
                Err(code) => Err(code),
            },
            Err(AllocError) => Err(NO_MEMORY),
        }
    }

    /// Reads the text as the next line.
    pub fn play_line(&mut self, text: &[u8]) -> Result<(), ReplayError>
        ensures ok { OnOk result (TakesText true self.old.journal text.now self.new.journal) }
        ensures err { IfErr result (λ error. RefusesText true self.old.journal text.now error) }
        ensures same { OnErr result (self.new ≡ self.old) }
        ensures lawful { IsLawful self.new.journal }
    {
        self.boxed.value.play_line(text)
    }

    /// The replay, whose block is freed.
    pub fn into_replay(self) -> JournalReplay
        ensures { result ≡ self }
    {
        Box::into_inner(self.boxed).value
    }
}
