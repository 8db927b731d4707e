ghost use Rattle.std.specs.Prelude.{◌≡◌, List, [], length};
ghost use Rattle.pools.specs.declared.size.Size.{Size};
ghost use Rattle.pools.specs.Periods.{Span};
ghost use Rattle.pools.specs.Sets.{Sound, Puts, least_after, member};
ghost use Rattle.moments.specs.Order.{least};

use crate::period::Period;
use crate::size::Size;
use terms::{Place, Refusal};

// A set of periods from place to place, with three numbers that are fixed when it is made. Whatever the make, its meaning is the list of
// its members in order, and the contracts speak of that alone.
pub trait Pool {
    // the members, each before the next
    ghost members: { Self → List Span };

    // the three numbers
    ghost sized: { Self → Size };

    // the members ascend, are no more than the capacity, and are in bounds
    ghost sound: { (s : Self) → Sound (sized s) (members s) };

    // The three numbers.
    fn size(&self) -> Size
        ensures { result ≡ sized self.now };

    // How many members there are.
    fn count(&self) -> usize
        ensures { result ≡ length (members self.now) };

    // Makes the set empty.
    fn clear(&mut self)
        ensures emptied { members self.new ≡ [] }
        ensures fixed { sized self.new ≡ sized self.old };

    // Puts a period into the set. One beyond the labels or places, or that ends before it starts, is refused as off the pool; one that is
    // there already is accepted and adds nothing; a new one is refused as full if the count is the capacity.
    fn put(&mut self, p: Period<Place>) -> Result<(), Refusal>
        ensures answer { Puts (sized self.old) (members self.old) p result (members self.new) }
        ensures fixed { sized self.new ≡ sized self.old };

    // Whether a period is a member.
    fn has(&self, p: Period<Place>) -> bool
        ensures { result ≡ member p (members self.now) };

    // The least member.
    fn first(&self) -> Option<Period<Place>>
        ensures { result ≡ least (members self.now) };

    // The least member that is later than a period, which need be no member, nor in bounds.
    fn next(&self, after: Period<Place>) -> Option<Period<Place>>
        ensures { result ≡ least_after after (members self.now) };
}
