ghost use Rattle.std.specs.Prelude.{◌≡◌, IfOk, string_bytes};
ghost use Rattle.playing.specs.Texts.{lines_text};

use std::alloc::Global;
use std::fmt;
use voice_log::line::Line;

// The lines as text, each with its end. Fails for want of memory only.
pub fn text(heap: Global, lines: &[Line]) -> Result<String, fmt::Error>
    ensures { IfOk result (λ t. string_bytes t ≡ lines_text lines.now) }
{
    let mut text = String::new(heap);
    for line in lines {
        writeln!(text, "{line}")?;
    }
    Ok(text)
}
