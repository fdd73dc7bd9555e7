ghost use Rattle.std.specs.Prelude.{◌≡◌, true, false, pos, MatchOption};
ghost use Rattle.sink.specs.Calls.{within};

// An item's value as a number, if it lies in the item's range.
pub fn number_within(value: i32, low: u8, high: u8) -> Option<u8>
    ensures { MatchOption result (within low high value ≡ false) (λ n. (within low high value ≡ true) × (pos n ≡ value)) }
{
    let number = u8::try_from(value).ok()?;
    if (low..=high).contains(&number) {
        Some(number)
    } else {
        None
    }
}
