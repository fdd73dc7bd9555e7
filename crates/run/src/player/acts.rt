ghost use Rattle.std.specs.Prelude.{◌≡◌, ℕ, ◌+◌, ◌*◌, ◌^◌, ◌<◌, ◌≤◌, List, [], ◌∷◌, Some};
ghost use Rattle.sink.specs.Calls.{Tell, Clear, started, finished};
ghost use Rattle.reader.specs.Ahead.{read_as};
ghost use Rattle.reader.specs.Ranges.{Ranged, InRange};
ghost use Rattle.run.specs.Counting.{total, at, spot, use_of, passed_over};
ghost use Rattle.run.specs.Steps.{Event, start, release, Counted, Called, Returned, Emptied, Started, Swept, SweptThen, OnNoteOn, OnNoteOff, OnControl, OnMessage, OnReading, InRanges};

use crate::player::Player;
use crate::player::keys::Key;
use reader::{Item, Message};
use sink::calls::{ControlChange, NoteOn};
use sink::sink::Sink;

// What a run does with a controller message. The definition `use_of` names the same three uses.
#[derive(Clone, Copy)]
pub(crate) enum ControlUse {
    // the stack is told
    Tell,
    // the channel's tickets are released, and then the stack is told
    ReleaseAndTell,
    // it is only counted
    PassOver,
}

impl ControlUse {
    fn of(controller: u8) -> ControlUse
        ensures { result ≡ use_of controller }
    {
        match controller {
            64 | 66 | 121 => ControlUse::Tell,
            120 | 123..=127 => ControlUse::ReleaseAndTell,
            _ => ControlUse::PassOver,
        }
    }
}

impl<S: Sink> Player<S> {
    // Releases the ticket of a key, empties the key's place in the table, and answers what the stack answered.
    // `room` and `total` stand at each function with bounds of its own, since a caller may have counted before it calls: no
    // one fact of the type would do.
    fn give_back(&mut self, place: u64, key: Key, ticket: u16, velocity: u8) -> Result<(), S::Fault>
        requires held { at self.old.table (spot key.channel key.number) ≡ Some ticket }
        requires room { total self.old.counts < 2 ^ 63 }
        ensures returned { Returned place (spot key.channel key.number) ticket velocity self.old (release ticket (finished result) ∷ []) self.new }
        ensures total { total self.new.counts ≤ total self.old.counts + 1 }
    {
        self.table[key.index()] = None;
        let answer = self.stack.release(place, ticket, velocity);
        self.counts.count_release(answer);
        answer
    }

    // Releases the ticket of a key, if it has one, with velocity 64.
    fn empty(&mut self, place: u64, key: Key)
        requires room { total self.old.counts < 2 ^ 63 }
        ensures emptied { (es : List (Event S.Fault)) × Emptied place (spot key.channel key.number) self.old es self.new }
        ensures total { total self.new.counts ≤ total self.old.counts + 1 }
    {
        if let Some(ticket) = self.table[key.index()] {
            let _ = self.give_back(place, key, ticket, 64);
        }
    }

    // Releases the tickets of a channel, the lowest key first.
    fn empty_channel(&mut self, place: u64, channel: u8)
        requires channel { channel < 16 }
        requires room { total self.old.counts < 2 ^ 62 }
        ensures swept { (es : List (Event S.Fault)) × Swept place (128 * channel) (128 * channel + 128) self.old es self.new }
        ensures total { total self.new.counts ≤ total self.old.counts + 128 }
    {
        for number in 0..128 {
            self.empty(place, Key { channel, number });
        }
    }

    // Releases the tickets of all channels, the lowest first.
    fn empty_all(&mut self, place: u64)
        requires room { total self.old.counts < 2 ^ 61 }
        ensures swept { (es : List (Event S.Fault)) × Swept place 0 2048 self.old es self.new }
        ensures total { total self.new.counts ≤ total self.old.counts + 2048 }
    {
        for channel in 0..16 {
            self.empty_channel(place, channel);
        }
    }

    // Releases all tickets, and then clears the stack.
    pub(crate) fn reset(&mut self, place: u64)
        requires room { total self.old.counts < 2 ^ 61 }
        ensures swept { (es : List (Event S.Fault)) × SweptThen place 0 2048 (Clear place) self.old es self.new }
        ensures total { total self.new.counts ≤ total self.old.counts + 2048 }
    {
        self.empty_all(place);
        self.stack.clear(place);
    }

    // Starts a note, enters its ticket in the table or counts the denial, and answers what the stack answered.
    fn start(&mut self, place: u64, key: Key, velocity: u8) -> Result<u16, S::Fault>
        requires room { total self.old.counts < 2 ^ 62 }
        ensures started { Started place key.channel key.number velocity self.old (start (S.Sink.meaning self.old.stack).ready (started result) ∷ []) self.new }
        ensures total { total self.new.counts ≤ total self.old.counts + 2 }
    {
        let note = NoteOn {
            channel: key.channel,
            key: key.number,
            velocity,
        };
        let answer = self.stack.start(place, note);
        self.counts.count_start(place, key, answer);
        if let Ok(ticket) = answer {
            self.table[key.index()] = Some(ticket);
        }
        answer
    }

    fn note_on(&mut self, place: u64, key: Key, velocity: u8)
        requires room { total self.old.counts < 2 ^ 61 }
        ensures on { (es : List (Event S.Fault)) × OnNoteOn place key.channel key.number velocity self.old es self.new }
        ensures total { total self.new.counts ≤ total self.old.counts + 3 }
    {
        self.empty(place, key);
        let _ = self.start(place, key, velocity);
    }

    fn note_off(&mut self, place: u64, key: Key, velocity: u8)
        requires room { total self.old.counts < 2 ^ 61 }
        ensures off { (es : List (Event S.Fault)) × OnNoteOff place key.channel key.number velocity self.old es self.new }
        ensures total { total self.new.counts ≤ total self.old.counts + 1 }
    {
        let Some(ticket) = self.table[key.index()] else {
            self.counts.stray += 1;
            return;
        };
        let _ = self.give_back(place, key, ticket, velocity);
    }

    fn pass_over(&mut self)
        requires room { total self.old.counts < 2 ^ 61 }
        ensures passed { (es : List (Event S.Fault)) × Counted passed_over self.old es self.new }
        ensures total { total self.new.counts ≤ total self.old.counts + 1 }
    {
        self.counts.passed += 1;
    }

    fn tell(&mut self, place: u64, change: ControlChange)
        ensures told { Called (Tell place change.channel change.controller change.value) self.old [] self.new }
        ensures total { total self.new.counts ≡ total self.old.counts }
    {
        let _ = self.stack.tell(place, change);
    }

    fn control(&mut self, place: u64, change: ControlChange)
        requires channel { change.channel < 16 }
        requires room { total self.old.counts < 2 ^ 61 }
        ensures control { (es : List (Event S.Fault)) × OnControl (use_of change.controller) place change.channel change.controller change.value self.old es self.new }
        ensures total { total self.new.counts ≤ total self.old.counts + 128 }
    {
        match ControlUse::of(change.controller) {
            ControlUse::Tell => self.tell(place, change),
            ControlUse::ReleaseAndTell => {
                self.empty_channel(place, change.channel);
                self.tell(place, change);
            }
            ControlUse::PassOver => self.pass_over(),
        }
    }

    fn act(&mut self, place: u64, message: Message)
        requires ranged { Ranged message }
        requires room { total self.old.counts < 2 ^ 60 }
        ensures acted { (es : List (Event S.Fault)) × OnMessage place message self.old es self.new }
        ensures total { total self.new.counts ≤ total self.old.counts + 2048 }
    {
        match message {
            Message::NoteOn {
                channel,
                key: number,
                velocity,
            } => self.note_on(place, Key { channel, number }, velocity),
            Message::NoteOff {
                channel,
                key: number,
                velocity,
            } => self.note_off(place, Key { channel, number }, velocity),
            Message::Control {
                channel,
                controller,
                value,
            } => self.control(
                place,
                ControlChange {
                    channel,
                    controller,
                    value,
                },
            ),
            Message::Reset => self.reset(place),
            Message::Program { .. }
            | Message::Bend { .. }
            | Message::KeyPressure { .. }
            | Message::ChannelPressure { .. } => self.pass_over(),
            _ => {}
        }
    }

    // Acts on an item.
    pub(crate) fn handle(&mut self, item: Item)
        requires ranged { InRange (Some item) }
        requires room { total self.old.counts < 2 ^ 60 }
        ensures ranged { InRanges (read_as item.entry) }
        ensures handled { (es : List (Event S.Fault)) × OnReading (read_as item.entry) self.old es self.new }
        ensures total { total self.new.counts ≤ total self.old.counts + 2048 }
    {
        match item {
            Item::Message { place, message } => self.act(place, message),
            Item::Part { .. } => {}
        }
    }
}
