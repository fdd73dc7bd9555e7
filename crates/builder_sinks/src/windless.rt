use sink::fault::Cause;

// Why a chest without wind denies a call.
#[derive(Clone, Copy)]
pub enum ChestFault {
    NoWind,
    Plain(Cause),
}

// A chest without wind: it is never ready.
#[derive(Drop)]
pub struct Windless {}

pub mod calls;
