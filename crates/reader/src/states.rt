ghost use Rattle.std.specs.Prelude.{◌≡◌};
ghost use Rattle.reader.specs.Rules.{class};

// What the bytes so far have left open.
#[derive(Clone, Copy, Debug)]
pub enum State {
    // no status stands
    Idle,
    // a channel's status stands, and data bytes may follow without it (running status)
    Channel { status: u8 },
    // the first of two data bytes has come
    Half { status: u8, first: u8 },
    // F1h, F2h or F3h has come, which stands for one message only
    Common { status: u8 },
    // between F0h and the byte that ends the exclusive
    Exclusive,
}

// How a byte is read.
#[derive(Clone, Copy)]
pub(crate) enum Class {
    // 00h to 7Fh
    Data,
    // 80h to F6h
    Status,
    // F7h
    ExclusiveEnd,
    // F8h to FEh, without the two undefined ones
    RealTime,
    // F9h and FDh
    Undefined,
    // FFh
    Reset,
}

impl Class {
    pub(crate) fn of(byte: u8) -> Class
        ensures { result ≡ class byte }
    {
        match byte {
            0x00..=0x7F => Class::Data,
            0x80..=0xF6 => Class::Status,
            0xF7 => Class::ExclusiveEnd,
            0xF9 | 0xFD => Class::Undefined,
            0xFF => Class::Reset,
            _ => Class::RealTime,
        }
    }
}
