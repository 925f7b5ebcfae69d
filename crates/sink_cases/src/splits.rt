// Splits of splits, a split that is cut, and the laws at examples.
use crate::layout::VALUES;
use sinks::{Fault, MOST, Packed, Plain, Sink, Split, put_both, put_twice};
use std::process::Abort;
use std::test::Fail;

// Puts a block of one colour at each place, and reads each back.
fn fills<S: Sink>(rt: &impl Abort, sink: &mut S, count: usize) -> Result<(), Fail> {
    assert!(rt; count < 100);
    assert_eq!(rt; sink.count(), count);
    for place in 0..count {
        sink.put(place, &[place as u16 + 1; 16])?;
    }
    for place in 0..count {
        assert_eq!(rt; sink.get(place, 3)?, place as u16 + 1);
    }
    assert_eq!(rt; sink.get(count, 0), Err(Fault::Place));
    Ok(())
}

// Each memory holds the blocks of its own places.
#[test]
fn nested(rt: HostRuntime) -> Result<(), Fail> {
    let mut a = [0u16; 40];
    let mut b = [0u8; 30];
    let mut c = [0u16; 10];
    let mut d = [0u8; 50];
    let left = Split::of(Plain::over(&mut a), Packed::over(&mut b));
    let right = Split::of(Plain::over(&mut c), Packed::over(&mut d));
    fills(&rt, &mut Split::of(left, right), 5)?;
    assert_eq!(rt; (a[0], a[16], a[32]), (1, 2, 0));
    assert_eq!(rt; (b[0], b[24]), (3, 0));
    assert_eq!(rt; c[0], 0);
    assert_eq!(rt; (d[0], d[24], d[48]), (4, 5, 0));
    Ok(())
}

// Two sinks of 10,000 blocks: the second one's last 800 are out of reach.
#[test]
fn cut(rt: HostRuntime) -> Result<(), Fail> {
    let mut numbers = vec![in rt.alloc(); 0u16; 160_000]?;
    let mut bytes = vec![in rt.alloc(); 0u8; 240_000]?;
    let first = Plain::over(numbers.as_mut_slice());
    let second = Packed::over(bytes.as_mut_slice());
    let mut sink = Split::of(first, second);
    assert_eq!(rt; sink.count(), MOST);
    sink.put(MOST - 1, &VALUES)?;
    assert_eq!(rt; sink.get(MOST - 1, 0)?, 0x123);
    assert_eq!(rt; sink.put(MOST, &VALUES), Err(Fault::Place));
    assert_eq!(rt; sink.get(MOST, 16), Err(Fault::Place));
    Ok(())
}

// A plain and a packed sink after the same puts.
#[test]
fn both(rt: HostRuntime) -> Result<(), Fail> {
    let mut numbers = [0u16; 50];
    let mut bytes = [0u8; 75];
    let mut plain = Plain::over(&mut numbers);
    let mut packed = Packed::over(&mut bytes);
    assert_eq!(rt;
        put_both(&mut plain, &mut packed, 2, &VALUES),
        (Ok(()), Ok(()))
    );
    assert_eq!(rt;
        put_both(&mut plain, &mut packed, 3, &VALUES),
        (Err(Fault::Place), Err(Fault::Place))
    );
    for place in 0..3 {
        for lane in 0..16 {
            assert_eq!(rt; plain.get(place, lane)?, packed.get(place, lane)?);
        }
    }
    Ok(())
}

#[test]
fn twice(rt: HostRuntime) -> Result<(), Fail> {
    let mut bytes = [0u8; 24];
    let mut sink = Packed::over(&mut bytes);
    put_twice(&mut sink, 0, &[0xfff; 16], &VALUES)?;
    assert_eq!(rt; sink.get(0, 8)?, 0);
    assert_eq!(rt;
        put_twice(&mut sink, 1, &[0xfff; 16], &VALUES),
        Err(Fault::Place)
    );
    Ok(())
}
