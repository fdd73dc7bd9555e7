// The line of text that stands for an item.
ghost use Rattle.std.specs.Prelude.{◌≡◌, ◌<◌, true, [], ◌∷◌, Some};
ghost use Rattle.std.specs.Fmt.{WritesOnOk, digit_glyph};
ghost use Rattle.reader.specs.Ahead.{read_as};
ghost use Rattle.listing.specs.Lines.{message_text, hex_text, line_text_of};

use reader::{Item, Message};
use std::fmt;

// A message as text: its kind, and then its fields.
#[derive(Clone, Copy)]
pub struct Described(pub Message);

impl fmt::Display for Described {
    ghost output = { λ d. Some (message_text d.0) };

    fn fmt<W: fmt::Write>(&self, f: &mut fmt::Formatter<W>) -> fmt::Result {
        match self.0 {
            Message::NoteOff {
                channel,
                key,
                velocity,
            } => write!(f, "Note-off {channel} {key} {velocity}"),
            Message::NoteOn {
                channel,
                key,
                velocity,
            } => write!(f, "Note-on {channel} {key} {velocity}"),
            Message::KeyPressure {
                channel,
                key,
                pressure,
            } => write!(f, "Key-pressure {channel} {key} {pressure}"),
            Message::Control {
                channel,
                controller,
                value,
            } => write!(f, "Control {channel} {controller} {value}"),
            Message::Program { channel, program } => write!(f, "Program {channel} {program}"),
            Message::ChannelPressure { channel, pressure } => write!(
                f,
                "Channel-pressure {channel} {pressure}"
            ),
            Message::Bend { channel, bend } => write!(f, "Bend {channel} {bend}"),
            Message::QuarterFrame { value } => write!(f, "Quarter-frame {value}"),
            Message::SongPosition { position } => write!(f, "Song-position {position}"),
            Message::SongSelect { song } => write!(f, "Song-select {song}"),
            Message::TuneRequest => write!(f, "Tune-request"),
            Message::RealTime { byte } => write!(f, "Real-time {byte}"),
            Message::Reset => write!(f, "Reset"),
            Message::Undefined => write!(f, "Undefined"),
            Message::Stray => write!(f, "Stray"),
            Message::Cut => write!(f, "Cut"),
            Message::ExclusiveBegun => write!(f, "Exclusive-begun"),
            Message::ExclusiveEnded { whole: true } => write!(f, "Exclusive-ended whole"),
            Message::ExclusiveEnded { whole: false } => write!(f, "Exclusive-ended not-whole"),
        }
    }
}

// An item as a line of text, without the line's end: its place, its kind and its fields.
#[derive(Clone, Copy)]
pub struct Line<'p>(pub Item<'p>);

impl<'p> fmt::Display for Line<'p> {
    ghost output = { λ l. Some (line_text_of (read_as l.0)) };

    fn fmt<W: fmt::Write>(&self, f: &mut fmt::Formatter<W>) -> fmt::Result {
        match self.0 {
            Item::Message { place, message } => write!(f, "{place} {}", Described(message)),
            Item::Part { place, bytes } => write!(f, "{place} Exclusive-part {}", Hex(bytes)),
        }
    }
}

// Bytes as upper-case hexadecimal digits, two for each.
#[derive(Clone, Copy)]
struct Hex<'p>(&'p [u8]);

impl<'p> fmt::Display for Hex<'p> {
    ghost output = { λ h. Some (hex_text h.0.now) };

    #[tactic(auto, using(crate::proofs::Hexes::hex_steps))]
    fn fmt<W: fmt::Write>(&self, f: &mut fmt::Formatter<W>) -> fmt::Result {
        for &byte in self.0 {
            write_byte(f, byte)?;
        }
        Ok(())
    }
}

// Writes the two digits of a byte. Below 10h the formatter would pad by a call of its own, which takes a third more time.
#[tactic(auto, using(crate::proofs::Hexes::hex_digits))]
fn write_byte<W: fmt::Write>(f: &mut fmt::Formatter<W>, byte: u8) -> fmt::Result
    ensures { WritesOnOk W.write_str_gives f.old result (hex_text (byte ∷ [])) f.new }
{
    if byte < 0x10 {
        f.write_char('0')?;
        f.write_char(hex_digit(byte))
    } else {
        write!(f, "{byte:02X}")
    }
}

// The upper-case hexadecimal digit of a number below 16.
fn hex_digit(n: u8) -> char
    requires { n < 16 }
    ensures value { result ≡ digit_glyph true n }
    ensures ascii { result < 128 }
{
    char::from_digit(u32::from(n), 16)
        .unwrap_or('0')
        .to_ascii_uppercase()
}
