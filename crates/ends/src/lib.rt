// What the ends have in common: the memory that they are handed, which calls they refuse, and the law of their tickets.
#![tactic(auto)]

ghost use Rattle.std.specs.Prelude.{◌≡◌, nat_lt};
ghost use Rattle.roll.specs.Notes.{full};
ghost use Rattle.roll.specs.Rolls.{listed};
ghost use Rattle.ends.specs.Ending.{check_of};

use roll::roll::Roll;
use sink::fault::Cause;

pub mod buffer;

// The most places that an end uses.
pub const MOST: usize = 1_000_000_000;

// Whether an end with this roll and so many spare places takes a start that needs so many, and else why not.
pub fn check_start(roll: &Roll, spare: usize, need: usize) -> Result<(), Cause>
    ensures { result ≡ check_of (full (listed roll.now)) (nat_lt spare need) }
{
    if roll.is_full() {
        return Err(Cause::AllOut);
    }
    if spare < need {
        return Err(Cause::NoSpace);
    }
    Ok(())
}
