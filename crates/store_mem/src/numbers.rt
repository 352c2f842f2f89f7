//! The numbers of rows that go.
ghost use Rattle.std.specs.Prelude.{◌≡◌, ◌||◌, nat_lt, not};
ghost use Rattle.hub_rows.specs.Forgetting.{has_number};
ghost use Rattle.hub_rows.specs.Keyed.{greatest};

/// The greatest of some numbers, 0 where there are none.
#[tactic(auto, using(hub_rows::proofs::Steps::drop_here))]
pub fn greatest(numbers: &[u32]) -> u32
    ensures { result ≡ greatest numbers.now }
{
    let mut last = 0;
    for number in numbers {
        last = last.max(*number);
    }
    last
}

/// Whether a number is none of those. No number above the last of them is looked for.
pub fn is_none_of(numbers: &[u32], last: u32, number: u32) -> bool
    ensures { result ≡ nat_lt last number || not (has_number numbers.now number) }
{
    last < number || !numbers.contains(&number)
}
