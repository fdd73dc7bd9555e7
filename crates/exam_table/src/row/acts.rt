ghost use Rattle.std.specs.Prelude.{◌≡◌};
ghost use Rattle.exam_table.specs.Rows.{end_of, Fed, Acts};

use crate::row::Row;
use run::Run;
use sink::calls::Setting;
use sink::sink::Sink;

// Feeds bytes to a run.
fn send<S: Sink>(run: &mut Run<S>, bytes: &[u8])
    ensures { Fed bytes.now run.old run.new }
{
    let _ = run.feed(bytes);
}

impl Row {
    // How many bytes the run has read once the row is played.
    pub fn end(self) -> u64
        ensures { result ≡ end_of self }
    {
        match self {
            Row::KeyDown | Row::Transpose => 3,
            Row::PedalDown => 6,
            Row::KeyUp => 9,
            Row::PedalUp => 12,
        }
    }

    // Plays the row: key 60 or the pedal by its bytes, the transposer by its setting.
    pub fn act<S: Sink>(self, run: &mut Run<S>)
        ensures { Acts self run.old run.new }
    {
        match self {
            Row::KeyDown => send(run, &[0x90, 60, 100]),
            Row::Transpose => {
                let _ = run.set(Setting {
                    depth: 0,
                    item: 0,
                    value: 12,
                });
            }
            Row::PedalDown => send(run, &[0xB0, 64, 127]),
            Row::KeyUp => send(run, &[0x80, 60, 64]),
            Row::PedalUp => send(run, &[0xB0, 64, 0]),
        }
    }
}
