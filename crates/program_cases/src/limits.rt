// Programs of the greatest length, one more, and the greatest slot limit.
use crate::expect::{DONE, LOOP, NOP, SETX, breaks, broken, takes};

// A branch to 2,047, and one to 2,046.
const TO_LAST: u32 = 0xd_f07f;

const TO_LOOP: u32 = 0xd_f07e;

#[test]
fn lengths(rt: HostRuntime) {
    takes(&rt, &[DONE], 1);
    let mut words = [NOP; 2048];
    breaks(&rt, &words, broken!(3, 2047));
    words[2047] = DONE;
    takes(&rt, &words, 2048);
    words[2046] = DONE;
    breaks(&rt, &words, broken!(3, 2046));
    let mut longer = [NOP; 2049];
    longer[2048] = DONE;
    breaks(&rt, &longer, broken!(1, 0));
    longer[0] = 0x7_0000;
    breaks(&rt, &longer, broken!(1, 0));
}

#[test]
fn greatest(rt: HostRuntime) {
    let mut words = [NOP; 2048];
    words[0] = SETX + 65535;
    words[2046] = LOOP + 1;
    words[2047] = DONE;
    takes(&rt, &words, 134_086_658);
    words[1] = TO_LAST;
    takes(&rt, &words, 134_086_658);
    words[2045] = TO_LOOP;
    breaks(&rt, &words, broken!(7, 2045));
    words[2045] = SETX;
    breaks(&rt, &words, broken!(5, 1));
    words[1] = NOP;
    breaks(&rt, &words, broken!(6, 2046));
}

#[test]
fn farthest(rt: HostRuntime) {
    let mut words = [TO_LAST; 2048];
    words[2047] = DONE;
    takes(&rt, &words, 2048);
    words[2046] = SETX;
    breaks(&rt, &words, broken!(5, 0));
    words[2046] = TO_LOOP;
    breaks(&rt, &words, broken!(4, 2046));
}
