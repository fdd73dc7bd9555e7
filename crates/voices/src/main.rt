// Plays the MIDI byte stream on standard input into a voice log of 2,048 lines, and prints the lines.
#![tactic(auto)]

use playing::log;
use playing::text::text;
use std::io::Read;
use voice_log::line::Line;

fn main(rt: HostRuntime) -> anyhow::Result<()> {
    let heap = rt.alloc();
    let mut bytes = Vec::new(heap);
    rt.stdin().read_to_end(&mut bytes)?;
    let lines = vec![in heap; Line::BLANK; 2048]?;
    let logged = log(&bytes, lines);
    let shown = text(heap, logged.written_lines())?;
    rt.print(shown.as_str())?;
    Ok(())
}
