ghost use Rattle.std.specs.Prelude.{◌≡◌, ◌+◌, ◌<◌, ◌≤◌, true, ◌++◌, length, drop, is_none, None, IfSome, slice_index};
ghost use Rattle.reader.specs.Rules.{belongs, filled, fills, gives, leads, note_on_of, opened, opens, paired, reads, reaches};
ghost use Rattle.reader.specs.Ranges.{Ranged, InRange, bare, numberless};
ghost use Rattle.reader.specs.Ahead.{listed, Next};
ghost use Rattle.reader.specs.Steps.{given, optional, handed, AllData};

use crate::Reader;
use crate::items::{Item, Message};
use crate::pieces::Piece;
use crate::states::{Class, State};
use crate::steps::{DataByte, Given, Taken};

impl Reader {
    // Hands out the next item of a piece, or none where the piece is read whole.
    pub fn next<'p>(&mut self, piece: &mut Piece<'p>) -> Option<Item<'p>>
        ensures next { Next self.old.state piece.old result self.new.state piece.new }
        ensures ranged { InRange result }
    {
        if let Some(item) = piece.pending.take() {
            return Some(item);
        }
        while !piece.rest.is_empty() {
            let taken = self.take(piece.place, piece.rest);
            piece.place += taken.count as u64;
            piece.rest = &piece.rest[taken.count..];
            if let Some(item) = taken.first {
                piece.pending = taken.second;
                return Some(item);
            }
        }
        None
    }

    // Reads the byte in front, or the run there of an exclusive's data bytes.
    #[tactic(auto, using(crate::proofs::Parts::parts))]
    fn take<'p>(&mut self, place: u64, rest: &'p [u8]) -> Taken<'p>
        requires some { 0 < length rest.now }
        ensures order { result.first ≡ None → result.second ≡ None }
        ensures ranged { InRange result.first }
        ensures bare { numberless result.second ≡ true }
        ensures low { 0 < result.count }
        ensures high { result.count ≤ length rest.now }
        ensures state { reaches self.old.state rest.now ≡ reaches self.new.state (drop result.count rest.now) }
        ensures items { reads self.old.state place rest.now ≡ handed result ++ reads self.new.state (place + result.count) (drop result.count rest.now) }
    {
        let Some(given) = self.step(rest[0]) else {
            let count = self.part_length(rest);
            let bytes = &rest[..count];
            return Taken {
                first: Some(Item::Part { place, bytes }),
                second: None,
                count,
            };
        };
        Taken {
            first: given.first.map(|message| Item::Message { place, message }),
            second: given.second.map(|message| Item::Message { place, message }),
            count: 1,
        }
    }

    // Reads one byte, and answers its messages, or none where it is a data byte of an exclusive,
    // which belongs to a part.
    fn step(&mut self, byte: u8) -> Option<Given>
        ensures state { self.new.state ≡ leads self.old.state byte }
        ensures part { is_none result ≡ belongs self.old.state byte }
        ensures items { IfSome result (λ g. given g ≡ gives self.old.state byte) }
    {
        match (self.state, Class::of(byte)) {
            (_, Class::Reset) => {
                self.state = State::Idle;
                Some(Given::one(Message::Reset))
            }
            (_, Class::Undefined) => Some(Given::one(Message::Undefined)),
            (_, Class::RealTime) => Some(Given::one(Message::RealTime { byte })),
            (State::Idle, Class::Data) => Some(Given::one(Message::Stray)),
            (State::Channel { status }, Class::Data) => Some(self.channel_data(
                status,
                DataByte { value: byte },
            )),
            (State::Half { status, first }, Class::Data) => Some(self.half_data(
                status,
                first,
                DataByte { value: byte },
            )),
            (State::Common { status }, Class::Data) => Some(self.common_data(
                status,
                DataByte { value: byte },
            )),
            (State::Exclusive, Class::Data) => None,
            (State::Exclusive, Class::ExclusiveEnd) => {
                self.state = State::Idle;
                Some(Given::one(Message::ExclusiveEnded { whole: true }))
            }
            (State::Half { .. }, Class::ExclusiveEnd) => {
                self.state = State::Idle;
                Some(Given::two(Message::Cut, Some(Message::Stray)))
            }
            (_, Class::ExclusiveEnd) => {
                self.state = State::Idle;
                Some(Given::one(Message::Stray))
            }
            (State::Exclusive, Class::Status) => {
                self.state = opens_state(byte);
                Some(Given::two(
                    Message::ExclusiveEnded { whole: false },
                    opens_message(byte),
                ))
            }
            (State::Half { .. }, Class::Status) => {
                self.state = opens_state(byte);
                Some(Given::two(Message::Cut, opens_message(byte)))
            }
            (_, Class::Status) => {
                self.state = opens_state(byte);
                Some(Given {
                    first: opens_message(byte),
                    second: None,
                })
            }
        }
    }

    // A data byte under a channel's status.
    fn channel_data(&mut self, status: u8, byte: DataByte) -> Given
        requires stands { self.old.state ≡ State.Channel status }
        ensures state { self.new.state ≡ fills (State.Channel status) byte.value }
        ensures items { given result ≡ filled (State.Channel status) byte.value }
    {
        match status {
            0xC0..=0xCF => Given::one(Message::Program {
                channel: status % 16,
                program: byte.value,
            }),
            0xD0..=0xDF => Given::one(Message::ChannelPressure {
                channel: status % 16,
                pressure: byte.value,
            }),
            _ => {
                self.state = State::Half {
                    status,
                    first: byte.value,
                };
                Given::none()
            }
        }
    }

    // The second of two data bytes.
    fn half_data(&mut self, status: u8, first: u8, byte: DataByte) -> Given
        requires stands { self.old.state ≡ State.Half status first }
        ensures state { self.new.state ≡ fills (State.Half status first) byte.value }
        ensures items { given result ≡ filled (State.Half status first) byte.value }
    {
        self.state = if status < 0xF0 {
            State::Channel { status }
        } else {
            State::Idle
        };
        Given::one(pair(status, DataByte { value: first }, byte))
    }

    // A data byte after F1h, F2h or F3h.
    fn common_data(&mut self, status: u8, byte: DataByte) -> Given
        requires stands { self.old.state ≡ State.Common status }
        ensures state { self.new.state ≡ fills (State.Common status) byte.value }
        ensures items { given result ≡ filled (State.Common status) byte.value }
    {
        self.state = State::Idle;
        match status {
            0xF1 => Given::one(Message::QuarterFrame { value: byte.value }),
            0xF3 => Given::one(Message::SongSelect { song: byte.value }),
            _ => {
                self.state = State::Half {
                    status,
                    first: byte.value,
                };
                Given::none()
            }
        }
    }

    // Reads on through the data bytes of an exclusive, of which the first is read, and answers how
    // many there are.
    fn part_length(&mut self, rest: &[u8]) -> usize
        requires exclusive { self.old.state ≡ State.Exclusive }
        requires some { 0 < length rest.now }
        requires data { slice_index rest.now 0 < 0x80 }
        ensures state { self.new.state ≡ State.Exclusive }
        ensures low { 0 < result }
        ensures high { result ≤ length rest.now }
        ensures all { AllData rest.now result }
        ensures stops { result < length rest.now → 0x80 ≤ slice_index rest.now result }
    {
        for (index, byte) in rest[1..].iter().enumerate() {
            if *byte >= 0x80 {
                return index + 1;
            }
            let _ = self.step(*byte);
        }
        rest.len()
    }
}

// The message of a status with two data bytes.
fn pair(status: u8, first: DataByte, second: DataByte) -> Message
    requires status { 0x80 ≤ status }
    ensures value { result ≡ paired status first.value second.value }
    ensures ranged { Ranged result }
{
    let channel = status % 16;
    match status {
        0x00..=0x8F => Message::NoteOff {
            channel,
            key: first.value,
            velocity: second.value,
        },
        0x90..=0x9F => note_on(channel, first, second),
        0xA0..=0xAF => Message::KeyPressure {
            channel,
            key: first.value,
            pressure: second.value,
        },
        0xB0..=0xBF => Message::Control {
            channel,
            controller: first.value,
            value: second.value,
        },
        0xC0..=0xEF => Message::Bend {
            channel,
            bend: 128 * i16::from(second.value) - 8192 + i16::from(first.value),
        },
        _ => Message::SongPosition {
            position: u16::from(first.value) + 128 * u16::from(second.value),
        },
    }
}

// A Note-on, or at velocity 0 the Note-off that it stands for.
fn note_on(channel: u8, key: DataByte, velocity: DataByte) -> Message
    requires { channel < 16 }
    ensures value { result ≡ note_on_of channel key.value velocity.value }
    ensures ranged { Ranged result }
{
    match velocity.value {
        0 => Message::NoteOff {
            channel,
            key: key.value,
            velocity: 64,
        },
        _ => Message::NoteOn {
            channel,
            key: key.value,
            velocity: velocity.value,
        },
    }
}

// The state that a byte 80h to F6h leads to.
fn opens_state(byte: u8) -> State
    ensures { result ≡ opens byte }
{
    match byte {
        0x00..=0xEF => State::Channel { status: byte },
        0xF0 => State::Exclusive,
        0xF1..=0xF3 => State::Common { status: byte },
        _ => State::Idle,
    }
}

// What a byte 80h to F6h gives in Idle.
fn opens_message(byte: u8) -> Option<Message>
    ensures items { optional result ≡ opened byte }
    ensures bare { IfSome result (λ x. bare x ≡ true) }
{
    match byte {
        0x00..=0xEF => None,
        0xF0 => Some(Message::ExclusiveBegun),
        0xF1..=0xF3 => None,
        0xF4 | 0xF5 => Some(Message::Undefined),
        _ => Some(Message::TuneRequest),
    }
}
