ghost use Rattle.std.specs.Prelude.{◌≡◌, IfOk};
ghost use Rattle.exam_table.specs.Speaking.{stops_before, stopped, speaks, speaking};

use std::alloc::{AllocError, Global};
use voice_log::line::{Kind, Line};

// Whether a line stops a note before a place.
fn stops(line: Line, serial: u32, end: u64) -> bool
    ensures { result ≡ stops_before end serial line }
{
    match line.kind {
        Kind::Begun => false,
        Kind::Ended | Kind::Hushed => line.serial == serial && line.place < end,
    }
}

// Whether a note is stopped before a place.
fn is_stopped(lines: &[Line], serial: u32, end: u64) -> bool
    ensures { result ≡ stopped end serial lines.now }
{
    lines.iter().any(|line| stops(*line, serial, end))
}

// Whether a line begins a note before a place, and no line stops it before that place.
fn is_speaking(line: Line, lines: &[Line], end: u64) -> bool
    ensures { result ≡ speaks end lines.now line }
{
    match line.kind {
        Kind::Begun => line.place < end && !is_stopped(lines, line.serial, end),
        Kind::Ended | Kind::Hushed => false,
    }
}

// The keys of the pipes that speak when as many bytes are read, the first begun first.
pub fn speaking(heap: Global, lines: &[Line], end: u64) -> Result<Vec<u8>, AllocError>
    ensures { IfOk result (λ keys. keys.items ≡ speaking end lines.now) }
{
    lines
        .iter()
        .filter(|line| is_speaking(**line, lines, end))
        .map(|line| line.key)
        .collect(heap)
}
