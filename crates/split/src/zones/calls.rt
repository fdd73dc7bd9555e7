ghost use Rattle.std.specs.Prelude.{◌≡◌, true, false, pos, MatchOption, MatchResult};
ghost use Rattle.sink.specs.Calls.{within};
ghost use Rattle.split.specs.Zones.{AllZero, side, sent_to, is_value, Changed, ZonesSet};
ghost use Rattle.sink.specs.declared.fault.Cause.TheVariants.{ValueOutOfRange};

use crate::zones::Zones;
use sink::calls::NoteOn;
use sink::fault::Cause;
use sink::ranges::number_within;

// An item's value as a number, at most so high.
fn number(value: i32, most: u8) -> Result<u8, Cause>
    ensures { MatchResult result (λ n. (within 0 most value ≡ true) × (pos n ≡ value)) (λ e. (within 0 most value ≡ false) × (e ≡ ValueOutOfRange)) }
{
    number_within(value, 0, most).ok_or(Cause::ValueOutOfRange)
}

impl Zones {
    // All items 0. No `Default` can be derived for a struct with ghost fields, and one written out is no plainer.
    pub fn new() -> Zones
        ensures { AllZero result }
    {
        Zones {
            channel: 0,
            key: 0,
            low: 0,
            high: 0,
        }
    }

    // The channel that a start goes to: a key below the split's goes low, any other high.
    pub fn send(self, note: NoteOn) -> u8
        ensures { result ≡ sent_to self note.channel note.key }
    {
        if note.channel != self.channel {
            note.channel
        } else if note.key < self.key {
            self.low
        } else {
            self.high
        }
    }

    // Sets an item: 0 is the channel, 1 the key, 2 the low and 3 the high channel.
    pub fn set(&mut self, item: u32, value: i32) -> Result<(), Cause>
        ensures { ZonesSet item value self.old result self.new }
    {
        match item {
            0 => self.channel = number(value, 15)?,
            1 => self.key = number(value, 128)?,
            2 => self.low = number(value, 15)?,
            3 => self.high = number(value, 15)?,
            _ => return Err(Cause::NoSuchItem),
        }
        Ok(())
    }

    // The zones with an item set, if the value lies in its range. They have no item past 3: such a one changes nothing.
    pub fn with(self, item: u32, value: i32) -> Option<Zones>
        ensures { MatchOption result (is_value item value ≡ false) (λ z. (is_value item value ≡ true) × Changed item value self z) }
    {
        if item > 3 {
            number_within(value, 0, 15)?;
            return Some(self);
        }
        let mut zones = self;
        zones.set(item, value).ok()?;
        Some(zones)
    }
}
