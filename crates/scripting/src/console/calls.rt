ghost use Rattle.std.specs.Prelude.{◌≡◌, ◌≤◌, take, vec_len};
ghost use Rattle.byte_writer.specs.Receiver.{Clean, Complete};
ghost use Rattle.run.specs.Counting.{tally_of};
ghost use Rattle.run.specs.Past.{Feeds, Sets};
ghost use Rattle.sink.specs.Calls.{finished};
ghost use Rattle.scripting.specs.Consoles.{Opens, ClosesIt};

use crate::console::Console;
use run::{Run, Tally, TooManyBytes};
use sink::calls::Setting;
use sink::sink::Sink;
use stacks::console_stack::{ConsoleFault, console_stack, into_bytes};

// What a closed console leaves: the tally, and the bytes of which the first `written` were written. They stand whole, as it was handed them.
#[derive(Drop)]
pub struct Written {
    pub tally: Tally<ConsoleFault>,
    pub bytes: Vec<u8>,
    pub written: usize,
}

impl Written {
    // The bytes that were written.
    pub fn written_bytes(&self) -> &[u8]
        ensures { result.now ≡ take self.now.written self.now.bytes.items }
    {
        &self.bytes[..self.written.min(self.bytes.len())]
    }
}

impl Console {
    // Opens a run over a new stack whose writer has these bytes.
    pub fn open(bytes: Vec<u8>) -> Console
        ensures { Opens bytes.items result.run }
    {
        let (run, slip) = Run::open(console_stack(bytes));
        Console { run, slip }
    }

    pub fn feed(&mut self, bytes: &[u8]) -> Result<(), TooManyBytes>
        ensures { Feeds bytes.now self.old.run result self.new.run }
    {
        self.run.feed(bytes)
    }

    pub fn set(&mut self, setting: Setting) -> Result<(), ConsoleFault>
        ensures { Sets setting.depth setting.item setting.value self.old.run (finished result) self.new.run }
    {
        self.run.set(setting)
    }

    // What was counted so far.
    pub fn tally(&self) -> Tally<ConsoleFault>
        ensures { result ≡ tally_of self.now.run.count self.now.run.player.counts }
    {
        self.run.tally()
    }

    // Closes the run. Whatever was played, no key is on at the receiver of the bytes, and none was struck twice or stopped before.
    pub fn close(self) -> Written
        ensures closes { ClosesIt self.run result.tally result.written result.bytes.items }
        ensures within { result.written ≤ vec_len result.bytes }
        ensures clean { Clean (take result.written result.bytes.items) }
        ensures complete { Complete (take result.written result.bytes.items) }
    {
        let Console { run, slip } = self;
        let (tally, stack) = run.close(slip);
        let (bytes, written) = into_bytes(stack);
        Written {
            tally,
            bytes,
            written,
        }
    }
}
