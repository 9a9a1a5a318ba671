// The count of comparisons, at no cost.
ghost use Rattle.std.specs.Prelude.{◌≡◌, ◌+◌, ◌<◌};

use std::marker::Model;
use std::sync::ledger::{Blank, Book, Ledger, Share};

/// How many comparisons of items were made. It takes no bytes and does nothing at run time: it is
/// there for contracts, which see it as a number.
#[derive(Drop)]
pub struct Steps<L: Ledger> {
    book: Book<L>,
    share: Share<L>,
}

impl<L: Ledger> Model for Steps<L> {
    ghost use Rattle.std.specs.Prelude.{ℕ, ◌<◌};

    ghost Value = { ℕ };

    ghost view = { λ s. s.book.total };

    ghost invariant = { λ s. 0 < s.share.parts };
}

impl<L: Ledger> Steps<L> {
    /// A count that begins at 0. A count belongs to one ledger, which a function with a ledger `L`
    /// of its own opens with the blank that it is given:
    ///
    /// ```text
    /// fn sorted<L: Ledger>(blank: Blank, ..)
    ///     requires name { blank.name ≡ L.name }
    ///     requires parts { blank.parts ≡ L.parts }
    ///     requires shared { 0 < L.parts }
    /// {
    ///     let mut steps = Steps::<L>::new(blank);
    ///     heap.push(item, &mut steps)?;
    ///     ..
    /// }
    ///
    /// sorted::<Brand>(Blank::new(1), ..)
    /// ```
    pub fn new(blank: Blank) -> Self
        requires name { blank.name ≡ L.name }
        requires parts { blank.parts ≡ L.parts }
        requires shared { 0 < L.parts }
        ensures { result ≡ 0 }
    {
        let (book, share) = blank.open();
        Steps { book, share }
    }

    // Counts one comparison.
    pub(crate) fn tick(&mut self)
        ensures { self.new ≡ self.old + 1 }
    {
        self.book.add(&mut self.share, 1);
    }
}
