// What workers were answered, added up.
ghost use Rattle.std.specs.Prelude.{◌≡◌, ◌+◌, ◌≤◌, ◌^◌};
ghost use Rattle.pq_types.specs.Item.{bound_of};
ghost use Rattle.queue_load.specs.Tally.{IsSmall, counted, both};

use pq_types::{Item, Part, Reply, Request};

/// What a worker was answered, or several together.
#[derive(Clone, Copy, Default)]
pub struct Tally {
    /// How many pushes were answered.
    pub pushed: u64,
    /// How many pops took an item out.
    pub got: u64,
    /// How many pops found no item.
    pub empty: u64,
    /// The priorities of the items pushed, added up.
    pub sum_in: u128,
    /// Those of the items taken out.
    pub sum_out: u128,
}

impl Tally {
    /// Counts a request with its reply.
    pub(crate) fn count<P: Part>(&mut self, request: Request<Item<P>>, reply: Reply<Item<P>>)
        requires { IsSmall self.old }
        ensures counted { self.new ≡ counted self.old request reply }
        ensures sum_out { self.new.sum_out ≤ self.old.sum_out + bound_of P.wide }
    {
        match (request, reply) {
            (Request::Push(item), _) => {
                self.pushed += 1;
                self.sum_in += u128::from(item.priority.as_u64());
            }
            (Request::Pop, Reply::Got(item)) => {
                self.got += 1;
                self.sum_out += u128::from(item.priority.as_u64());
            }
            (Request::Pop, Reply::Empty) => self.empty += 1,
            _ => {}
        }
    }

    /// Adds another tally to this one.
    pub(crate) fn add(&mut self, other: &Tally)
        requires this { IsSmall self.old }
        requires other { IsSmall other.now }
        ensures { self.new ≡ both self.old other.now }
    {
        self.pushed += other.pushed;
        self.got += other.got;
        self.empty += other.empty;
        self.sum_in += other.sum_in;
        self.sum_out += other.sum_out;
    }
}
