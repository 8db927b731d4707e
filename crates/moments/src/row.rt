ghost use Rattle.std.specs.Prelude.{◌≡◌, ◌+◌, ◌<◌, ◌≤◌, [], length, take, Ok, Err};
ghost use Rattle.std.specs.List.{slice_get, insert};
ghost use Rattle.moments.specs.Order.{Ascending, found, rank};

use crate::ordered::Ordered;
use terms::Refusal;

// Things of an ordered kind, each before the next, in the first of the slots that were lent: a row takes no memory of its own. It is empty
// when it is made, and only `add` and `clear` change it, so its things always ascend; each contract says what follows from that and that it
// stays so. (The type does not say it: it would ask for the order wherever a row is named.) The slots past its length are open: what stands
// there is nobody's.
#[derive(Drop)]
pub struct Row<'a, T> {
    slots: &'a mut [T],
    len: usize,
}

impl<'a, T: Ordered> Row<'a, T> {
    ghost use Rattle.moments.specs.Rows.{Adds, count, kept, slots_of};

    // An empty row. The slots stay as they are.
    pub fn new(slots: &'a mut [T]) -> Row<'a, T>
        ensures empty { kept result ≡ [] }
        ensures slots { result.slots.now ≡ slots.old }
    {
        Row { slots, len: 0 }
    }

    // How many it keeps. The field never passes the slots, but nothing in the type says so; the smaller of both needs no such fact.
    pub fn len(&self) -> usize
        ensures value { result ≡ count self.now }
        ensures kept { result ≡ length (kept self.now) }
    {
        self.len.min(self.slot_count())
    }

    // How many slots it has.
    pub fn slot_count(&self) -> usize
        ensures { result ≡ slots_of self.now }
    {
        self.slots.len()
    }

    // Keeps nothing any more. The slots stay as they are.
    pub fn clear(&mut self)
        ensures empty { kept self.new ≡ [] }
        ensures slots { self.new.slots.now ≡ self.old.slots.now }
    {
        self.len = 0;
    }

    // The slots in use.
    fn kept(&self) -> &[T]
        ensures { result.now ≡ kept self.now }
    {
        &self.slots[..self.len()]
    }

    // The thing at an index, from 0.
    pub fn get(&self, i: usize) -> Option<T>
        ensures { result ≡ slice_get (kept self.now) i }
    {
        self.kept().get(i).copied()
    }

    // How many of the kept come before `x`.
    fn rank(&self, x: T) -> usize
        ensures within { result ≤ count self.now }
        ensures place { Ascending T.before (kept self.now) → result ≡ rank T.before x (kept self.now) }
    {
        self.kept().partition_point(|y| y.precedes(&x))
    }

    // The index of `x` if it is kept, else the index where it belongs.
    pub fn find(&self, x: T) -> Result<usize, usize>
        ensures within { elim result [ Ok i ↦ i < count self.now | Err i ↦ i ≤ count self.now ] }
        ensures place { Ascending T.before (kept self.now) → result ≡ found T.before x (kept self.now) }
    {
        let at = self.rank(x);
        if let Some(y) = self.kept().get(at)
            && !x.precedes(y)
        {
            return Ok(at);
        }
        Err(at)
    }

    // Writes `x` into the first open slot, and turns it from there into the slot where it belongs.
    fn insert(&mut self, at: usize, x: T)
        requires room { count self.old < slots_of self.old }
        requires within { at ≤ count self.old }
        ensures room { slots_of self.new ≡ slots_of self.old }
        ensures kept { kept self.new ≡ insert (kept self.old) at x }
    {
        let count = self.len();
        self.slots[count] = x;
        self.slots[at..=count].rotate_right(1);
        self.len = count + 1;
    }

    // Keeps `x`, and says whether it is new. A new one without a slot is refused as full, and the row keeps what it kept.
    pub fn add(&mut self, x: T) -> Result<bool, Refusal>
        ensures room { slots_of self.new ≡ slots_of self.old }
        ensures answer { Ascending T.before (kept self.old) → Adds T.before (slots_of self.old) (kept self.old) x result (kept self.new) }
    {
        let Err(at) = self.find(x) else {
            return Ok(false);
        };
        if self.len() == self.slot_count() {
            return Err(Refusal::Full);
        }
        self.insert(at, x);
        Ok(true)
    }
}
