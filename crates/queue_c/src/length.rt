// How long the journal is that a queue is opened with, and its bound, in the numbers for C.
ghost use Rattle.std.specs.Prelude.{◌≡◌};
ghost use Rattle.queue_c.specs.Lengths.{bound_of, length_of};

use flat_queue::Length;

/// The length that two numbers of a C program mean, where there is one.
pub fn length_of(keeping: u32, entries: u32) -> Option<Length>
    ensures { result ≡ length_of keeping entries }
{
    match keeping {
        0 => Some(Length::Keeping(entries)),
        1 => Some(Length::Archived(entries)),
        2 => Some(Length::Lines(entries)),
        _ => None,
    }
}

/// The bound that a number of a C program means, where there is one.
pub fn bound_of(most: u64) -> Option<u64>
    ensures { result ≡ bound_of most }
{
    match most {
        0 => None,
        _ => Some(most),
    }
}
