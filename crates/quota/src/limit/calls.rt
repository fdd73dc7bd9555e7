ghost use Rattle.std.specs.Prelude.{◌≡◌};
ghost use Rattle.quota.specs.Limits.{LimitOf};

use crate::limit::Limit;
use sink::fault::Cause;
use sink::ranges::number_within;

impl Limit {
    // The highest limit, which a quota has at first.
    pub fn highest() -> Limit
        ensures { result.notes ≡ 64 }
    {
        Limit { notes: 64 }
    }
}

// The limit of a number of notes, if it is one.
impl TryFrom<i32> for Limit {
    type Error = Cause;

    ghost try_from_gives = { LimitOf };

    fn try_from(value: i32) -> Result<Limit, Cause> {
        let notes = number_within(value, 1, 64).ok_or(Cause::ValueOutOfRange)?;
        Ok(Limit { notes })
    }
}
