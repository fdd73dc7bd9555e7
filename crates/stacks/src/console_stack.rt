ghost use Rattle.std.specs.Prelude.{◌≡◌, ◌≤◌, take, vec_len};
ghost use Rattle.sink.specs.Ends.{Each, clean, complete};
ghost use Rattle.sink.specs.Meaning.{Idle};
ghost use Rattle.byte_writer.specs.Receiver.{Clean, Complete};
ghost use Rattle.stacks.specs.Consoles.{NewConsole, console_kind, writer_of};

use byte_writer::writer::ByteWriter;
use hold::hold::Hold;
use mono::mono::Mono;
use quota::order::ours::Softest;
use quota::quota::Quota;
use sink::fault::{Cause, LayerFault};
use split::split::Split;
use transposer::transposer::Transposer;

// Transposer over split over hold over mono over quota over a byte writer.
pub type ConsoleStack = Transposer<Split<Hold<Mono<Quota<ByteWriter, Softest>>>>>;

// Its fault: that of the sink that refused, carried up whole.
pub type ConsoleFault = LayerFault<LayerFault<LayerFault<LayerFault<LayerFault<Cause>>>>>;

// A new stack over these bytes.
pub fn console_stack(bytes: Vec<u8>) -> ConsoleStack
    ensures new { NewConsole bytes.items result }
    ensures sound { console_kind.sound result }
    ensures idle { Idle (console_kind.meaning result) }
{
    Transposer::new(Split::new(Hold::new(Mono::new(Quota::new(ByteWriter::new(bytes), Softest)))))
}

// Takes the stack apart: the writer's bytes, and how many of them are written. Memory that was handed in goes back whole.
pub fn into_bytes(stack: ConsoleStack) -> (Vec<u8>, usize)
    ensures bytes { result.0 ≡ (writer_of stack).bytes.items }
    ensures written { result.1 ≡ (writer_of stack).bytes.written }
    ensures within { result.1 ≤ vec_len result.0 }
    ensures clean { Each clean (console_kind.ends stack) → Clean (take result.1 result.0.items) }
    ensures complete { Each complete (console_kind.ends stack) → Complete (take result.1 result.0.items) }
{
    stack.finish().finish().finish().finish().finish().finish()
}
