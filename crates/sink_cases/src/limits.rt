// No block, the most blocks, and more memory than that.
use crate::layout::VALUES;
use sinks::{Fault, MOST, Packed, Plain, Sink};
use std::process::Abort;
use std::test::Fail;

// Passes where a sink has so many blocks: the last is put and read, and the next place is refused.
fn ends_at<S: Sink>(rt: &impl Abort, sink: &mut S, count: usize) -> Result<(), Fail> {
    assert_eq!(rt; sink.count(), count);
    if count > 0 {
        sink.put(count - 1, &VALUES)?;
        assert_eq!(rt; sink.get(count - 1, 15)?, 0xffe);
    }
    assert_eq!(rt; sink.put(count, &VALUES), Err(Fault::Place));
    assert_eq!(rt; sink.get(count, 0), Err(Fault::Place));
    Ok(())
}

#[test]
fn none(rt: HostRuntime) -> Result<(), Fail> {
    ends_at(&rt, &mut Plain::over(&mut [0u16; 0]), 0)?;
    ends_at(&rt, &mut Plain::over(&mut [0u16; 15]), 0)?;
    ends_at(&rt, &mut Packed::over(&mut [0u8; 0]), 0)?;
    ends_at(&rt, &mut Packed::over(&mut [0u8; 23]), 0)
}

#[test]
fn some(rt: HostRuntime) -> Result<(), Fail> {
    ends_at(&rt, &mut Plain::over(&mut [0u16; 16]), 1)?;
    ends_at(&rt, &mut Plain::over(&mut [0u16; 31]), 1)?;
    ends_at(&rt, &mut Plain::over(&mut [0u16; 32]), 2)?;
    ends_at(&rt, &mut Packed::over(&mut [0u8; 24]), 1)?;
    ends_at(&rt, &mut Packed::over(&mut [0u8; 47]), 1)?;
    ends_at(&rt, &mut Packed::over(&mut [0u8; 48]), 2)
}

// One block fewer than the most, the most, and two blocks of memory more.
#[test]
fn most_plain(rt: HostRuntime) -> Result<(), Fail> {
    let mut memory = vec![in rt.alloc(); 0u16; 16 * 19_202]?;
    let numbers = memory.as_mut_slice();
    ends_at(&rt, &mut Plain::over(&mut numbers[0..307_199]), MOST - 1)?;
    ends_at(&rt, &mut Plain::over(&mut numbers[0..307_200]), MOST)?;
    ends_at(&rt, &mut Plain::over(numbers), MOST)
}

#[test]
fn most_packed(rt: HostRuntime) -> Result<(), Fail> {
    let mut memory = vec![in rt.alloc(); 0u8; 24 * 19_202]?;
    let bytes = memory.as_mut_slice();
    ends_at(&rt, &mut Packed::over(&mut bytes[0..460_799]), MOST - 1)?;
    ends_at(&rt, &mut Packed::over(&mut bytes[0..460_800]), MOST)?;
    ends_at(&rt, &mut Packed::over(bytes), MOST)
}
