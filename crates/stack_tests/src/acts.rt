ghost use Rattle.std.specs.Prelude.{◌≡◌};
ghost use Rattle.sink.specs.Faults.{Denial};
ghost use Rattle.stack_tests.specs.Acts.{refusal};

use sink::calls::{ControlChange, NoteOn, Setting};
use sink::fault::refusal::Refusal;
use sink::sink::Sink;

// A call of a sink: place first, then as the sink takes it. Bare numbers, so that a test's calls stand in a table.
#[derive(Clone, Copy)]
pub enum Act {
    Start(u64, u8, u8, u8),
    Release(u64, u16, u8),
    Hush(u64, u16),
    Tell(u64, u8, u8, u8),
    Set(u64, u32, u32, i32),
    Clear(u64),
}

// The number and the depth of a refusal. The tests of `builder_sinks` have the same; no crate of the product is for tests.
fn refusal<T: Copy, F: Refusal>(answer: Result<T, F>) -> Option<(u8, u8)>
    ensures { result ≡ refusal F.Refusal.denial answer }
{
    let fault = answer.err()?;
    Some((fault.number(), fault.depth()))
}

// Makes a call, and answers its refusal.
fn make<S: Sink>(sink: &mut S, act: Act) -> Option<(u8, u8)> {
    match act {
        Act::Start(place, channel, key, velocity) => {
            let note = NoteOn {
                channel,
                key,
                velocity,
            };
            refusal(sink.start(place, note))
        }
        Act::Release(place, ticket, velocity) => refusal(sink.release(place, ticket, velocity)),
        Act::Hush(place, ticket) => refusal(sink.hush(place, ticket)),
        Act::Tell(place, channel, controller, value) => {
            let change = ControlChange {
                channel,
                controller,
                value,
            };
            refusal(sink.tell(place, change))
        }
        Act::Set(place, depth, item, value) => {
            refusal(sink.set(place, Setting { depth, item, value }))
        }
        Act::Clear(place) => {
            sink.clear(place);
            None
        }
    }
}

// Makes calls in turn, and answers whether each was taken or refused as expected.
pub fn answers<S: Sink>(sink: &mut S, acts: &[(Act, Option<(u8, u8)>)]) -> bool {
    acts.iter()
        .all(|(act, refused)| make(sink, *act) == *refused)
}
