// The list of those who wait.
ghost use Rattle.std.specs.Prelude.{◌≡◌, ◌==◌, ◌<◌, ◌↔◌, ◌⊎◌, ℕ, List, [], ◌∷◌, ◌++◌, length, true, false, IsTrue, IfSome, is_some, slice_index_or};
ghost use Rattle.wait_list.specs.declared.waiter.Waiter.{Waiter};
ghost use Rattle.std.specs.Int.{bit_at};
ghost use Rattle.wait_list.specs.Waiters.{has_number, is_woken_at, without, without_all, asleep, numbers, AreWaiters};
ghost use Rattle.wait_list.specs.Settled.{IsSettled, is_watched, settled};

use crate::stock::Stock;
use crate::waiter::{Waiter, Wants};
use crate::waking::{is_watched, settle_all};
use arrayvec::ArrayVec;
use std::marker::Model;

/// How many may wait, and their numbers are below this.
pub const MOST_WAITERS: usize = 64;

/// Those who wait, in the order in which they came, and those who were woken and have not come back. Each has a
/// number of its own, below 64. A contract sees the list of them.
#[derive(Drop)]
pub struct WaitList {
    entries: ArrayVec<Waiter, MOST_WAITERS>,
}

impl Model for WaitList {
    ghost use Rattle.std.specs.Prelude.{List};
    ghost use Rattle.wait_list.specs.declared.waiter.Waiter.{Waiter};
    ghost use Rattle.wait_list.specs.Waiters.{AreWaiters};

    ghost Value = { List Waiter };

    ghost view = { λ a. a.entries.items };

    ghost invariant = { λ a. AreWaiters a.entries.items };
}

impl WaitList {
    /// Nobody waits.
    pub fn new() -> WaitList
        ensures { result ≡ [] }
    {
        WaitList {
            entries: ArrayVec::new(),
        }
    }

    /// Whether nobody is in the list: nobody waits, and all who were woken have come back.
    pub fn is_empty(&self) -> bool
        ensures { IsTrue result ↔ self.now ≡ [] }
    {
        self.entries.is_empty()
    }

    /// Whether one with this number is in the list.
    pub fn has(&self, number: u8) -> bool
        ensures { result ≡ has_number number self.now }
    {
        place_of(self.entries.as_slice(), number).is_some()
    }

    /// Whether an item of this priority is taken when it is due: by a thread that was woken, or by one of those who take what is due
    /// and sleep until then at most.
    pub fn is_watched(&self, first: u64) -> bool
        ensures { result ≡ is_watched first self.now }
    {
        is_watched(self.entries.as_slice(), first)
    }

    /// One with this number, which nobody in the list has, waits for this from now on.
    pub fn wait(&mut self, number: u8, wants: Wants)
        requires below { number < 64 }
        requires apart { has_number number self.old ≡ false }
        ensures { self.new ≡ self.old ++ asleep number wants ∷ [] }
    {
        self.entries.push(Waiter {
            number,
            wants,
            is_woken: false,
        });
    }

    /// The one with this number comes back, or gives up, where there is one: it is in the list no more. The result says
    /// whether it was woken. Then another may have to be woken in its place, which `settle` does.
    pub fn leave(&mut self, number: u8) -> bool
        ensures was_woken { result ≡ is_woken_at number self.old }
        ensures list { self.new ≡ without number self.old }
        ensures gone { has_number number self.new ≡ false }
    {
        match place_of(self.entries.as_slice(), number) {
            Some(place) => self.entries.remove(place).is_woken,
            None => false,
        }
    }

    /// Those whose bits are set in the mask come back, or give up: they are in the list no more.
    pub fn leave_all(&mut self, mask: u64)
        ensures { self.new ≡ without_all mask self.old }
    {
        let mut place = 0;
        while place < self.entries.len() {
            if is_in_mask(self.entries.as_slice()[place].number, mask) {
                self.entries.remove(place);
            } else {
                place += 1;
            }
        }
    }

    /// Wakes those who are to be woken where the queue has this, and no others. The bit of each number whose waiter
    /// was woken is set in the result.
    pub fn settle(&mut self, stock: Stock) -> u64
        ensures list { self.new ≡ settled stock self.old }
        ensures settled { IsSettled stock self.new }
        ensures wakes { (number : ℕ) → (bit_at result number ≡ 1) ↔ ((is_woken_at number self.old ≡ false) × (is_woken_at number self.new ≡ true)) }
    {
        if self.entries.is_empty() {
            return 0;
        }
        let before = woken_among(self.entries.as_slice());
        settle_all(self.entries.as_mut_slice(), stock);
        woken_among(self.entries.as_slice()) & !before
    }
}

// Where the one with this number is.
#[tactic(auto, using(crate::proofs::Numbers::has_at))]
fn place_of(waiters: &[Waiter], number: u8) -> Option<usize>
    ensures some { IfSome result (λ i. (i < length waiters.now) × ((d : Waiter) → (slice_index_or waiters.now i d).number ≡ number)) }
    ensures found { is_some result ≡ has_number number waiters.now }
{
    for (i, waiter) in waiters.iter().enumerate() {
        if waiter.number == number {
            return Some(i);
        }
    }
    None
}

// Whether the bit of this number is set in the mask.
#[tactic(auto, using(std::proofs::lemmas::Nat::Bits::shr_and_one))]
fn is_in_mask(number: u8, mask: u64) -> bool
    requires { number < 64 }
    ensures { result ≡ (bit_at mask number == 1) }
{
    mask >> number & 1 == 1
}

// The mask with this number where it joins, or as it is.
#[tactic(auto, using(crate::proofs::Masks::number_joins))]
fn with_number_if(joins: bool, mask: u64, number: u8) -> u64
    requires { number < 64 }
    ensures { (k : ℕ) → (bit_at result k ≡ 1) ↔ ((bit_at mask k ≡ 1) ⊎ ((joins ≡ true) × (k ≡ number))) }
{
    if joins { mask | 1u64 << number } else { mask }
}

// The numbers of those who were woken.
fn woken_among(waiters: &[Waiter]) -> u64
    requires { AreWaiters waiters.now }
    ensures { (number : ℕ) → (bit_at result number ≡ 1) ↔ (is_woken_at number waiters.now ≡ true) }
{
    let mut mask = 0;
    for waiter in waiters {
        mask = with_number_if(waiter.is_woken, mask, waiter.number);
    }
    mask
}
