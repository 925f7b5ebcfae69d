// Refusals 13 and 14, and which comes first.
use crate::layout::VALUES;
use sinks::{Fault, Packed, Plain, Sink, Split};
use std::process::Abort;
use std::test::Fail;

// What a sink of two blocks refuses.
fn refuses<S: Sink>(rt: &impl Abort, sink: &mut S) -> Result<(), Fail> {
    assert_eq!(rt; sink.get(1, 16), Err(Fault::Lane));
    assert_eq!(rt; sink.get(2, 15), Err(Fault::Place));
    assert_eq!(rt; sink.get(2, 16), Err(Fault::Place));
    assert_eq!(rt; sink.get(usize::MAX, usize::MAX), Err(Fault::Place));
    assert_eq!(rt; sink.get(0, usize::MAX), Err(Fault::Lane));
    assert_eq!(rt; sink.put(2, &VALUES), Err(Fault::Place));
    assert_eq!(rt; sink.put(usize::MAX, &VALUES), Err(Fault::Place));
    for place in 0..2 {
        for lane in 0..16 {
            assert_eq!(rt; sink.get(place, lane)?, 0);
        }
    }
    Ok(())
}

#[test]
fn numbers(rt: HostRuntime) {
    assert_eq!(rt; u32::from(Fault::Place), 13);
    assert_eq!(rt; u32::from(Fault::Lane), 14);
}

#[test]
fn of_each(rt: HostRuntime) -> Result<(), Fail> {
    refuses(&rt, &mut Plain::over(&mut [0u16; 40]))?;
    refuses(&rt, &mut Packed::over(&mut [0u8; 60]))?;
    let mut numbers = [0u16; 31];
    let mut bytes = [0u8; 47];
    refuses(
        &rt,
        &mut Split::of(Plain::over(&mut numbers), Packed::over(&mut bytes)),
    )
}
