// The rows of the question, in their order.
#[derive(Clone, Copy, Debug)]
pub enum Row {
    KeyDown,
    Transpose,
    PedalDown,
    KeyUp,
    PedalUp,
}

impl Row {
    pub const ALL: [Row; 5] = [
        Row::KeyDown,
        Row::Transpose,
        Row::PedalDown,
        Row::KeyUp,
        Row::PedalUp,
    ];
}

pub mod acts;
pub mod label;
