ghost use Rattle.std.specs.Prelude.{◌≡◌};
ghost use Rattle.std.specs.List.{range_with_len};
ghost use Rattle.positions.specs.Examples.{year_and_quarters, held_before, left_after, netted_places};

// What a published example of netting leaves of a year of -5 with its quarters of 1, 2, 1 and 3: the rules, on a table of
// these five, leave the same.
pub fn published_netting() -> [i64; 5]
    ensures value { result ≡ left_after }
    ensures stands { netted_places year_and_quarters held_before (range_with_len 0 5) ≡ left_after }
{
    [-4, 0, 1, 0, 2]
}
