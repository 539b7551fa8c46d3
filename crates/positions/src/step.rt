ghost use Rattle.std.specs.Prelude.{◌≡◌, ℕ, ◌^◌, ◌<◌, ◌≤◌, ◌∷◌, length, slice_index, unsigned_abs, vec_len};
ghost use Rattle.positions.specs.Net.{placed, opposite, all_opposite, smallest, towards, net};
ghost use Rattle.positions.specs.Steps.{taken, related, Distinct};

use crate::own::OwnPositions;

// One above 0, the other below.
fn is_opposite(a: i64, b: i64) -> bool
    ensures { result ≡ opposite a b }
{
    (0 < a && b < 0) || (a < 0 && 0 < b)
}

// Less in size, on the same side of 0.
fn toward_zero(size: u64, a: i64) -> i64
    requires { (size ≤ unsigned_abs a) × (unsigned_abs a ≤ 2 ^ 62) }
    ensures { result ≡ towards size a }
{
    let step = size as i64;
    if a < 0 { a + step } else { a - step }
}

// Each write says that the length is as it was, since no field can compare before and after.
impl OwnPositions {
    // Whether the position at every other place is opposite to a.
    fn all_opposite(&self, a: i64, others: &[usize]) -> bool
        ensures { result ≡ all_opposite (placed self.now.positions.items) a others.now }
    {
        others.iter().all(|o| is_opposite(a, self.at(*o)))
    }

    // The smallest size of a position among the first and the others.
    fn smallest_size(&self, first: usize, others: &[usize]) -> u64
        ensures { result ≡ smallest (placed self.now.positions.items) first others.now }
    {
        let first_size = self.at(first).unsigned_abs();
        others.iter().fold(first_size, |least, o| least.min(self.at(*o).unsigned_abs()))
    }

    // A size taken off at each of the places.
    fn take_off(&mut self, size: u64, others: &[usize])
        requires below { (j : ℕ) → j < length others.now → slice_index others.now j < vec_len self.old.positions }
        requires apart { Distinct others.now }
        requires enough { (j : ℕ) → j < length others.now → size ≤ unsigned_abs (placed self.old.positions.items (slice_index others.now j)) }
        ensures value { (i : ℕ) → placed self.new.positions.items i ≡ taken size others.now (placed self.old.positions.items) i }
        ensures long { vec_len self.new.positions ≡ vec_len self.old.positions }
    {
        for o in others {
            let less = toward_zero(size, self.at(*o));
            self.positions[*o] = less;
        }
    }

    // One relation netted: where every other is opposite to the first, the smallest size is taken off all of them.
    pub(crate) fn net_once(&mut self, first: usize, others: &[usize])
        requires within { first < vec_len self.old.positions }
        requires below { (j : ℕ) → j < length others.now → slice_index others.now j < vec_len self.old.positions }
        requires apart { Distinct (first ∷ others.now) }
        ensures value { (i : ℕ) → placed self.new.positions.items i ≡ net (related first others.now) (placed self.old.positions.items) i }
        ensures long { vec_len self.new.positions ≡ vec_len self.old.positions }
    {
        let a = self.at(first);
        if self.all_opposite(a, others) {
            let size = self.smallest_size(first, others);
            self.take_off(size, others);
            self.positions[first] = toward_zero(size, a);
        }
    }
}
