ghost use Rattle.std.specs.Prelude.{◌≡◌};
ghost use Rattle.sink.specs.Calls.{finished};
ghost use Rattle.run.specs.Counting.{tally_of};
ghost use Rattle.run.specs.Past.{Opened, Feeds, Sets, ClosesBy, NoNoteLeft, PastStands, PastCloses};

use crate::counts::{Counts, Tally, TooManyBytes};
use crate::player::Player;
use crate::runs::{Run, RunSlip};
use reader::{Piece, Reader};
use sink::calls::Setting;
use sink::sink::Sink;

// The most bytes that a run reads.
const MOST: u64 = 4_000_000_000;

impl<S: Sink> Run<S> {
    // Opens a run over a stack. The slip is spent by closing.
    pub fn open(stack: S) -> (Run<S>, RunSlip)
        ensures { Opened stack result.0 }
    {
        let player = Player {
            stack,
            table: [None; 2048],
            counts: Counts::new(),
        };
        (
            Run {
                reader: Reader::new(),
                count: 0,
                player,
            },
            RunSlip { issued: () },
        )
    }

    // Reads the bytes and acts on what they give.
    pub fn feed(&mut self, bytes: &[u8]) -> Result<(), TooManyBytes>
        ensures { Feeds bytes.now self.old result self.new }
    {
        if bytes.len() as u64 > MOST - self.count {
            return Err(TooManyBytes);
        }
        let mut piece = Piece::new(bytes);
        piece.number_from(self.count).map_err(|_| TooManyBytes)?;
        self.count += bytes.len() as u64;
        while let Some(item) = self.reader.next(&mut piece) {
            self.player.handle(item);
        }
        Ok(())
    }

    // Sets an item of a layer, at the place reached.
    pub fn set(&mut self, setting: Setting) -> Result<(), S::Fault>
        ensures { Sets setting.depth setting.item setting.value self.old (finished result) self.new }
    {
        self.player.stack.set(self.count, setting)
    }

    // What is true of a run after every past of it. It does nothing else than to state it.
    pub fn stands(&self)
        ensures { PastStands self.now }
    {}

    // What was counted so far.
    pub fn tally(&self) -> Tally<S::Fault>
        ensures tally { result ≡ tally_of self.now.count self.now.player.counts }
        ensures stands { PastStands self.now }
    {
        self.stands();
        self.player.counts.tally(self.count)
    }

    // Releases all tickets, clears the stack, and hands it back with the tally.
    pub fn close(self, slip: RunSlip) -> (Tally<S::Fault>, S)
        ensures closed { ClosesBy self result.0 result.1 }
        ensures rests { PastCloses self result.0 result.1 }
        ensures theorem { NoNoteLeft S.Sink S.Fault.Refusal }
    {
        let RunSlip { issued: _ } = slip;
        let Run {
            reader: _,
            count,
            mut player,
        } = self;
        player.reset(count);
        let Player {
            stack,
            table: _,
            counts,
        } = player;
        (counts.tally(count), stack)
    }
}
