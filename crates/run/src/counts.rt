// A start that the stack denied: its fault, and the console's place, channel and key.
#[derive(Clone, Copy, Debug)]
pub struct DeniedStart<F> {
    pub fault: F,
    pub place: u64,
    pub channel: u8,
    pub key: u8,
}

// What a run has counted. A type beside `Tally`, since the count of bytes goes its own way: in one type, each step of a
// run would have to say that it leaves the bytes as they are. With this one inside `Tally`, callers would name two levels.
#[derive(Clone, Copy, Debug)]
pub struct Counts<F> {
    pub note_ons: u64,
    pub taken: u64,
    pub denied: u64,
    pub returned: u64,
    pub stray: u64,
    pub passed: u64,
    pub first: Option<DeniedStart<F>>,
}

// The bytes of a run, the Note-ons in them, the starts by their answer, the tickets returned, the stray
// Note-offs, the messages passed over, and the first denied start.
#[derive(Clone, Copy, Debug)]
pub struct Tally<F> {
    pub count: u64,
    pub note_ons: u64,
    pub taken: u64,
    pub denied: u64,
    pub returned: u64,
    pub stray: u64,
    pub passed: u64,
    pub first: Option<DeniedStart<F>>,
}

// The bytes of a run would pass 4,000,000,000.
#[derive(Clone, Copy, Debug)]
pub struct TooManyBytes;

pub mod calls;
