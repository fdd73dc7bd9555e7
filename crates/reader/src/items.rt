// One message of the stream.
#[derive(Clone, Copy, Debug)]
pub enum Message {
    NoteOff {
        channel: u8,
        key: u8,
        velocity: u8,
    },
    NoteOn {
        channel: u8,
        key: u8,
        velocity: u8,
    },
    KeyPressure {
        channel: u8,
        key: u8,
        pressure: u8,
    },
    Control {
        channel: u8,
        controller: u8,
        value: u8,
    },
    Program {
        channel: u8,
        program: u8,
    },
    ChannelPressure {
        channel: u8,
        pressure: u8,
    },
    Bend {
        channel: u8,
        bend: i16,
    },
    QuarterFrame {
        value: u8,
    },
    SongPosition {
        position: u16,
    },
    SongSelect {
        song: u8,
    },
    TuneRequest,
    RealTime {
        byte: u8,
    },
    Reset,
    Undefined,
    Stray,
    Cut,
    ExclusiveBegun,
    ExclusiveEnded {
        whole: bool,
    },
}

// What the reader hands out: a message with the place of its last byte, or a run of an exclusive's
// data bytes, borrowed from the piece, with the place of the first of them.
#[derive(Clone, Copy, Debug)]
pub enum Item<'p> {
    Message { place: u64, message: Message },
    Part { place: u64, bytes: &'p [u8] },
}
