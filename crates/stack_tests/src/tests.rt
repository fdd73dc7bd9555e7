use crate::acts::Act::{Clear, Hush, Release, Set, Start, Tell};
use crate::acts::{Act, answers};
use crate::deep::Deep;
use hold::hold::Hold;
use mono::mono::Mono;
use playing::text::text;
use quota::order::ours::{Oldest, Softest};
use quota::quota::Quota;
use sink::fault::LayerFault;
use sink::fault::refusal::Refusal;
use split::split::Split;
use std::alloc::Global;
use std::process::Abort;
use std::test::Fail;
use transposer::transposer::Transposer;
use voice_log::line::Line;
use voice_log::log::VoiceLog;

// Compares the lines of a log.
fn check_log(rt: &impl Abort, heap: Global, log: VoiceLog, expected: &str) -> Result<(), Fail> {
    let (lines, written) = log.finish();
    assert!(rt; written <= lines.len());
    let shown = text(heap, &lines[0..written])?;
    assert_eq!(rt; shown.as_str(), expected);
    Ok(())
}

// A note is released under the pedal, another started, and the pedal raised.
const PEDAL: [(Act, Option<(u8, u8)>); 6] = [
    (Tell(1, 0, 64, 127), None),
    (Start(2, 0, 60, 100), None),
    (Release(3, 0, 40), None),
    (Start(4, 0, 62, 90), None),
    (Tell(6, 0, 64, 0), None),
    (Release(7, 1, 33), None),
];

const REPLACED: &str = "2 1 0 0 60 100\n4 3 0 0 60 0\n4 1 1 0 62 90\n7 2 1 0 62 33\n";

const TOGETHER: &str = "2 1 0 0 60 100\n4 1 1 0 62 90\n6 2 0 0 60 64\n7 2 1 0 62 33\n";

// What a hold above keeps is still owed to the mono below, which replaces it.
#[test]
fn hold_over_mono(rt: HostRuntime) -> Result<(), Fail> {
    let log = VoiceLog::new(vec![in rt.alloc(); Line::BLANK; 16]?);
    let mut sink = Hold::new(Mono::new(log));
    assert!(rt; answers(&mut sink, &[(Tell(0, 0, 126, 0), None)]));
    assert!(rt; answers(&mut sink, &PEDAL));
    check_log(&rt, rt.alloc(), sink.finish().finish(), REPLACED)
}

// What a hold below keeps is not.
#[test]
fn mono_over_hold(rt: HostRuntime) -> Result<(), Fail> {
    let log = VoiceLog::new(vec![in rt.alloc(); Line::BLANK; 16]?);
    let mut sink = Mono::new(Hold::new(log));
    assert!(rt; answers(&mut sink, &[(Tell(0, 0, 126, 0), None)]));
    assert!(rt; answers(&mut sink, &PEDAL));
    check_log(&rt, rt.alloc(), sink.finish().finish(), TOGETHER)
}

// A limit of one note replaces what the hold above keeps, too.
#[test]
fn hold_over_quota(rt: HostRuntime) -> Result<(), Fail> {
    let log = VoiceLog::new(vec![in rt.alloc(); Line::BLANK; 16]?);
    let mut sink = Hold::new(Quota::new(log, Oldest));
    assert!(rt; answers(&mut sink, &[(Set(0, 1, 0, 1), None)]));
    assert!(rt; answers(&mut sink, &PEDAL));
    check_log(&rt, rt.alloc(), sink.finish().finish(), REPLACED)
}

#[test]
fn quota_over_hold(rt: HostRuntime) -> Result<(), Fail> {
    let log = VoiceLog::new(vec![in rt.alloc(); Line::BLANK; 16]?);
    let mut sink = Quota::new(Hold::new(log), Oldest);
    assert!(rt; answers(&mut sink, &[(Set(0, 0, 0, 1), None)]));
    assert!(rt; answers(&mut sink, &PEDAL));
    check_log(&rt, rt.alloc(), sink.finish().finish(), TOGETHER)
}

// What the upper hold lets go the lower one still keeps, until the split tells it of one channel and then the other.
const SPLIT_PEDALS: [(Act, Option<(u8, u8)>); 16] = [
    (Set(0, 1, 1, 60), None),
    (Set(0, 1, 2, 2), None),
    (Set(0, 1, 3, 1), None),
    (Start(1, 0, 60, 100), None),
    (Start(2, 0, 59, 90), None),
    (Tell(3, 0, 64, 64), None),
    (Release(4, 1, 10), None),
    (Release(5, 0, 20), None),
    (Release(5, 0, 20), Some((4, 0))),
    (Release(5, 9, 20), Some((4, 3))),
    (Tell(6, 0, 64, 63), None),
    (Tell(7, 1, 64, 127), None),
    (Start(8, 0, 72, 80), None),
    (Release(9, 0, 5), None),
    (Hush(10, 0), Some((4, 2))),
    (Clear(11), None),
];

#[test]
fn two_holds_and_a_split(rt: HostRuntime) -> Result<(), Fail> {
    let log = VoiceLog::new(vec![in rt.alloc(); Line::BLANK; 16]?);
    let mut sink = Hold::new(Split::new(Hold::new(log)));
    assert!(rt; answers(&mut sink, &SPLIT_PEDALS));
    check_log(
        &rt,
        rt.alloc(),
        sink.finish().finish().finish(),
        "1 1 0 1 60 100\n2 1 1 2 59 90\n6 2 1 2 59 64\n6 2 0 1 60 64\n8 1 2 1 72 80\n11 2 2 1 72 64\n",
    )
}

// Of level notes the oldest is hushed, and a lower limit hushes at its own place.
#[test]
fn softest_first(rt: HostRuntime) -> Result<(), Fail> {
    let log = VoiceLog::new(vec![in rt.alloc(); Line::BLANK; 16]?);
    let mut sink = Transposer::new(Quota::new(log, Softest));
    let acts = [
        (Set(0, 1, 0, 3), None),
        (Start(1, 2, 50, 50), None),
        (Start(1, 2, 40, 40), None),
        (Start(1, 2, 41, 40), None),
        (Start(2, 2, 70, 30), None),
        (Set(3, 1, 0, 1), None),
    ];
    assert!(rt; answers(&mut sink, &acts));
    check_log(
        &rt,
        rt.alloc(),
        sink.finish().finish(),
        "1 1 0 2 50 50\n1 1 1 2 40 40\n1 1 2 2 41 40\n2 3 1 2 40 0\n2 1 3 2 70 30\n3 3 3 2 70 0\n3 3 2 2 41 0\n",
    )
}

// A start that is not ready hushes nothing, and each layer refuses what it has not.
const REFUSED: [(Act, Option<(u8, u8)>); 13] = [
    (Tell(0, 0, 126, 0), None),
    (Start(1, 0, 60, 100), None),
    (Start(2, 0, 62, 100), Some((3, 3))),
    (Set(3, 0, 0, 1), Some((7, 0))),
    (Set(3, 1, 1, 1), Some((7, 1))),
    (Set(3, 1, 0, 0), Some((8, 1))),
    (Set(3, 1, 0, 65), Some((8, 1))),
    (Set(3, 2, 4, 0), Some((7, 2))),
    (Set(3, 2, 1, 129), Some((8, 2))),
    (Set(3, 2, 1, 128), None),
    (Set(3, 2, 3, 16), Some((8, 2))),
    (Set(3, 3, 0, 0), Some((6, 3))),
    (Hush(4, 5), Some((4, 3))),
];

#[test]
fn refusals(rt: HostRuntime) -> Result<(), Fail> {
    let log = VoiceLog::new(vec![in rt.alloc(); Line::BLANK; 3]?);
    let mut sink = Mono::new(Quota::new(Split::new(log), Oldest));
    assert!(rt; answers(&mut sink, &REFUSED));
    assert!(rt; sink.is_mono(0) && !sink.is_mono(1));
    check_log(
        &rt,
        rt.alloc(),
        sink.finish().finish().finish(),
        "1 1 0 0 60 100\n",
    )
}

// The depth of a fault stops at 255.
#[test]
fn depth_stops(rt: HostRuntime) {
    let fault = LayerFault::Below(Deep { layers: 253 });
    assert_eq!(rt; fault.depth(), 254);
    let fault = LayerFault::Below(fault);
    assert_eq!(rt; fault.depth(), 255);
    let fault = LayerFault::Below(fault);
    assert_eq!(rt; fault.depth(), 255);
    assert_eq!(rt; fault.number(), 3);
}
