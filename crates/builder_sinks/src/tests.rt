use crate::examples::{first_start, folded, second_start};
use crate::latched::LatchedPipe;
use crate::windless::Windless;
use sink::calls::{ControlChange, NoteOn, Setting};
use sink::fault::refusal::Refusal;
use sink::fault::{Cause, LayerFault};
use sink::sink::Sink;
use std::process::Abort;
use std::test::Fail;
use transposer::transposer::Transposer;
use voice_log::line::Line;
use voice_log::log::VoiceLog;

// The number and the depth of a refusal.
fn refused<T: Copy, F: Refusal>(answer: Result<T, F>) -> Option<(u8, u8)> {
    answer.err().map(|fault| (fault.number(), fault.depth()))
}

fn note(channel: u8, key: u8, velocity: u8) -> NoteOn {
    NoteOn {
        channel,
        key,
        velocity,
    }
}

fn setting(depth: u32, item: u32, value: i32) -> Setting {
    Setting { depth, item, value }
}

// Every refusal that an empty log of one line gives, under some layers.
fn denies<S: Sink>(rt: &impl Abort, sink: &mut S, layers: u8) {
    let local_control = ControlChange {
        channel: 0,
        controller: 122,
        value: 0,
    };
    assert_eq!(rt; refused(sink.start(0, note(16, 60, 100))), Some((1, 0)));
    assert_eq!(rt; refused(sink.start(0, note(0, 60, 0))), Some((1, 0)));
    assert_eq!(rt; refused(sink.start(0, note(0, 60, 100))), Some((3, layers)));
    assert_eq!(rt; refused(sink.ready()), Some((3, layers)));
    assert_eq!(rt; refused(sink.release(0, 5, 128)), Some((1, 0)));
    assert_eq!(rt; refused(sink.release(0, 5, 64)), Some((4, layers)));
    assert_eq!(rt; refused(sink.hush(0, 5)), Some((4, layers)));
    assert_eq!(rt; refused(sink.tell(0, local_control)), Some((5, 0)));
    assert_eq!(rt;
        refused(sink.set(0, setting(u32::from(layers), 0, 0))),
        Some((6, layers))
    );
}

#[test]
fn refusals_grow_deeper(rt: HostRuntime) -> Result<(), Fail> {
    let mut bare = VoiceLog::new(vec![in rt.alloc(); Line::BLANK; 1]?);
    denies(&rt, &mut bare, 0);
    let mut one = Transposer::new(bare);
    denies(&rt, &mut one, 1);
    let mut two = Transposer::new(one);
    denies(&rt, &mut two, 2);
    assert_eq!(rt; refused(two.set(0, setting(0, 1, 0))), Some((7, 0)));
    assert_eq!(rt; refused(two.set(0, setting(1, 0, 49))), Some((8, 1)));
    let _log = two.finish().finish();
    Ok(())
}

#[test]
fn all_tickets_out(rt: HostRuntime) -> Result<(), Fail> {
    let mut sink = Transposer::new(VoiceLog::new(vec![in rt.alloc(); Line::BLANK; 1000]?));
    for key in 0..128u8 {
        let ticket = sink.start(0, note(3, key, 1));
        assert!(rt; matches!(ticket, Ok(t) if t == u16::from(key)));
    }
    assert_eq!(rt; refused(sink.start(0, note(3, 60, 1))), Some((2, 1)));
    assert_eq!(rt; refused(sink.release(0, 9, 1)), None);
    assert_eq!(rt; refused(sink.ready()), None);
    assert!(rt; matches!(sink.start(0, note(3, 60, 1)), Ok(9)));
    assert_eq!(rt; sink.finish().written(), 130);
    Ok(())
}

#[test]
fn lines_of_a_song(rt: HostRuntime) -> Result<(), Fail> {
    let mut sink = Transposer::new(VoiceLog::new(vec![in rt.alloc(); Line::BLANK; 16]?));
    let _ = sink.start(2, note(1, 60, 100));
    let _ = sink.set(3, setting(0, 0, 12));
    let _ = sink.start(5, note(1, 120, 90));
    let _ = sink.hush(6, 0);
    let _ = sink.release(8, 0, 7);
    let _ = sink.release(11, 1, 33);
    assert!(rt; !sink.sounds(1));
    let (lines, written) = sink.finish().finish();
    assert!(rt; written == 4 && lines.len() == 16);
    let text = format!(in rt.alloc(); "{}, {}, {}, {}", lines[0], lines[1], lines[2], lines[3])?;
    assert_eq!(rt;
        text.as_str(),
        "2 1 0 1 60 100, 5 1 1 1 120 90, 6 3 0 1 60 0, 11 2 1 1 120 33"
    );
    Ok(())
}

#[test]
fn builders_sinks(rt: HostRuntime) {
    let mut pipe = Transposer::new(LatchedPipe::new());
    assert!(rt; matches!(pipe.start(0, note(0, 60, 100)), Ok(7)));
    assert_eq!(rt; refused(pipe.release(1, 7, 64)), None);
    assert_eq!(rt; refused(pipe.release(2, 7, 64)), Some((4, 1)));
    assert!(rt; pipe.sounds(7));
    pipe.clear(3);
    assert!(rt; !pipe.sounds(7));
    assert_eq!(rt; refused(pipe.ready()), None);
    let _pipe = pipe.finish();
    let mut windless = Transposer::new(Windless::new());
    assert_eq!(rt;
        refused(windless.start(0, note(0, 60, 100))),
        Some((200, 1))
    );
    let _chest = windless.finish();
}

#[test]
fn worked_examples(rt: HostRuntime) -> Result<(), Fail> {
    assert_eq!(rt; folded(12, 120), Some(120));
    assert_eq!(rt; folded(-12, 5), Some(5));
    assert_eq!(rt; folded(40, 100), Some(116));
    assert_eq!(rt; folded(49, 100), None);
    assert_eq!(rt;
        first_start(vec![in rt.alloc(); Line::BLANK; 1]?),
        Err(Cause::NoSpace)
    );
    assert_eq!(rt; first_start(vec![in rt.alloc(); Line::BLANK; 2]?), Ok(0));
    assert_eq!(rt;
        second_start(vec![in rt.alloc(); Line::BLANK; 3]?),
        Err(Cause::NoSpace)
    );
    assert_eq!(rt; second_start(vec![in rt.alloc(); Line::BLANK; 4]?), Ok(()));
    let fault = LayerFault::Below(LayerFault::<Cause>::Own(Cause::NoSuchItem));
    let shown = format!(in rt.alloc(); "{fault}")?;
    assert_eq!(rt; shown.as_str(), "below: no such item");
    Ok(())
}
