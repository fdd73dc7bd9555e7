// Lists the messages of a MIDI byte stream on standard input, one line each, as they come.
#![tactic(auto)]

use listing::Listing;
use std::io::Read;

fn main(rt: HostRuntime) -> anyhow::Result<()> {
    let mut input = rt.stdin();
    let mut buffer = [0u8; 4096];
    let mut listing = Listing::new();
    // A loop must be proved to end, and standard input may never end.
    for _ in 0..u64::MAX {
        let count = input.read(&mut buffer)?;
        if count == 0 {
            break;
        }
        let text = listing.list(rt.alloc(), &buffer[..count])?;
        rt.print(text.as_str())?;
    }
    Ok(())
}
