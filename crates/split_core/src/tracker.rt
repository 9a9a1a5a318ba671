// A trail scan as running code keeps it, and how it goes on.
ghost use Rattle.std.specs.Prelude.{◌≡◌, ◌≢◌, ℕ, ◌<◌, ◌≤◌, ◌+◌, ◌-◌, ◌↔◌, ◌⊎◌, true, ◌==◌, ◌++◌, ◌∷◌, [], List};
ghost use Rattle.std.specs.Int.{bit_at};
ghost use Rattle.split_core.specs.Places.{place};
ghost use Rattle.split_core.specs.Trail.{Trail, trail_start};
ghost use Rattle.split_core.specs.TrailReads.{trail_by};
ghost use Rattle.split_core.specs.TrailRows.{LedFrom};
ghost use Rattle.split_core.specs.TrailCalls.{is_done, trail_now};
ghost use Rattle.split_core.specs.Tracker.{IsTracker, Stores, IsNextRow, no_tracker};
ghost use Rattle.split_core.specs.declared.places.TheConstants.{MAX_COMERS};

use crate::laws::law_trail_reads;

/// A trail scan as running code keeps it, by one diagonal: the number of its first place, which of
/// its rows are still to be read, in which of its rows a closed door was read, each a bit of a mask,
/// and the number of doors read. The scan is over where no row is unread.
#[derive(Clone, Copy)]
pub struct Tracker {
    pub diagonal: u16,
    pub first: u16,
    pub unread: u64,
    pub shut: u64,
    pub doors: u32,
}

impl Tracker {
    /// A trail scan of a grid of `comers` comers before its first door.
    pub fn fresh(comers: usize) -> Tracker
        requires some { 0 < comers }
        requires few { comers ≤ MAX_COMERS }
        ensures lawful { IsTracker comers result }
        ensures stores { Stores comers result trail_start }
    {
        let _ = comers;
        Tracker {
            diagonal: 0,
            first: 0,
            unread: 1,
            shut: 0,
            doors: 0,
        }
    }

    /// No trail scan: none was begun.
    pub fn none() -> Tracker
        ensures { result ≡ no_tracker }
    {
        Tracker {
            diagonal: 0,
            first: 0,
            unread: 0,
            shut: 0,
            doors: 0,
        }
    }

    /// Whether the scan of a grid of `comers` comers is over.
    pub fn is_over(self, comers: usize) -> bool
        requires lawful { IsTracker comers self }
        ensures unread { result ≡ (self.unread == 0) }
        ensures over { (z : Trail) → Stores comers self z → result ≡ is_done z.ahead }
    {
        if self.unread == 0 {
            return true;
        }
        let _ = self.next_row(comers);
        false
    }

    /// The trail scan to which the next door belongs, in a grid of `comers` comers: the one under
    /// way, or a new one where none was begun or the last is over.
    pub fn current(self, comers: usize) -> Tracker
        requires lawful { IsTracker comers self }
        ensures lawful { IsTracker comers result }
        ensures more { result.unread ≢ 0 }
        ensures stores { (z : Trail) → Stores comers self z → Stores comers result (trail_now z) }
    {
        if self.is_over(comers) {
            Tracker::fresh(comers)
        } else {
            self
        }
    }

    /// The row of the place whose door comes next.
    pub fn next_row(self, comers: usize) -> u16
        requires lawful { IsTracker comers self }
        requires more { self.unread ≢ 0 }
        ensures unread { bit_at self.unread result ≡ 1 }
        ensures within { result ≤ self.diagonal }
        ensures next { (words : List ℕ) → Stores comers self (trail_by comers words)
            → IsNextRow self.diagonal result (trail_by comers words).ahead }
    {
        law_trail_reads();
        let _ = comers;
        least_row(self.unread) as u16
    }

    /// The number of the place in this row of the diagonal.
    pub fn place_in(self, row: u16, comers: usize) -> u16
        requires lawful { IsTracker comers self }
        requires within { row ≤ self.diagonal }
        ensures { result ≡ place row (self.diagonal - row) }
    {
        let _ = comers;
        self.first + row
    }

    /// The scan, of a grid of `comers` comers, after its next door was read, closed or open. Where
    /// no row of the diagonal is left to be read it goes to the next one.
    pub fn after_door(self, closed: bool, comers: usize) -> Tracker
        requires lawful { IsTracker comers self }
        requires more { self.unread ≢ 0 }
        ensures lawful { IsTracker comers result }
        ensures counted { result.doors ≡ self.doors + 1 }
        ensures stores { (words : List ℕ) (word : ℕ) → closed ≡ (word == 1) → Stores comers self (trail_by comers words)
            → Stores comers result (trail_by comers (words ++ word ∷ [])) }
    {
        law_trail_reads();
        let row = least_row(self.unread);
        let unread = without_least(self.unread, row);
        let shut = with_row_if(closed, self.shut, row);
        let doors = self.doors + 1;
        if unread == 0 && self.diagonal as usize + 1 < comers {
            Tracker {
                diagonal: self.diagonal + 1,
                first: self.first + self.diagonal + 1,
                unread: rows_led_to(shut),
                shut: 0,
                doors,
            }
        } else {
            Tracker {
                diagonal: self.diagonal,
                first: self.first,
                unread,
                shut,
                doors,
            }
        }
    }
}

// The least row of the mask.
fn least_row(mask: u64) -> u32
    requires { mask ≢ 0 }
    ensures set { bit_at mask result ≡ 1 }
    ensures least { (r : ℕ) → r < result → bit_at mask r ≡ 0 }
    ensures below { result < 64 }
{
    mask.trailing_zeros()
}

// The mask without its least row, which is this one.
fn without_least(mask: u64, row: u32) -> u64
    requires set { bit_at mask row ≡ 1 }
    requires least { (r : ℕ) → r < row → bit_at mask r ≡ 0 }
    ensures { (r : ℕ) → (bit_at result r ≡ 1) ↔ ((bit_at mask r ≡ 1) × (r ≢ row)) }
{
    let _ = row;
    mask & (mask - 1)
}

// The mask with this row, or as it is.
fn with_row_if(joins: bool, mask: u64, row: u32) -> u64
    requires { row < 64 }
    ensures { (r : ℕ) → (bit_at result r ≡ 1) ↔ ((bit_at mask r ≡ 1) ⊎ ((joins ≡ true) × (r ≡ row))) }
{
    if joins { mask | 1u64 << row } else { mask }
}

// The rows of the next diagonal to which doors in these rows lead: right of them, and below.
fn rows_led_to(mask: u64) -> u64
    requires { (r : ℕ) → bit_at mask r ≡ 1 → r + 1 < 64 }
    ensures { (r : ℕ) → (bit_at result r ≡ 1) ↔ LedFrom (λ q. bit_at mask q ≡ 1) r }
{
    mask | mask << 1
}
