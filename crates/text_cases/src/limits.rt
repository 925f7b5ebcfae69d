// Texts at the end of the places, of the addresses and of the greatest length.
use crate::expect::{Held, Stop, at_line, counts, fits, hold, label, stops};
use crate::wrong::{Wrong, check, noted};
use crate::{answer, numbered};
use std::alloc::Global;
use std::test::Fail;
use text::Label;

const STOPS: [Stop; 22] = [
    Stop {
        text: b"nop",
        room: counts!(0, 0),
        refusal: at_line!(23, 1),
        entered: &[],
    },
    Stop {
        text: b"x:",
        room: counts!(0, 0),
        refusal: at_line!(23, 1),
        entered: &[],
    },
    Stop {
        text: b"x:",
        room: counts!(1, 0),
        refusal: at_line!(23, 1),
        entered: &[],
    },
    Stop {
        text: b"x:nop",
        room: counts!(0, 1),
        refusal: at_line!(23, 1),
        entered: &[],
    },
    Stop {
        text: b"x:nop",
        room: counts!(1, 0),
        refusal: at_line!(23, 1),
        entered: &[],
    },
    Stop {
        text: b"nop\ndone",
        room: counts!(1, 0),
        refusal: at_line!(23, 2),
        entered: &[],
    },
    Stop {
        text: b"x:nop\ny:nop",
        room: counts!(1, 2),
        refusal: at_line!(23, 2),
        entered: &[label!(0, 1, 0)],
    },
    Stop {
        text: b"x:nop\n y:",
        room: counts!(1, 1),
        refusal: at_line!(23, 2),
        entered: &[label!(0, 1, 0)],
    },
    Stop {
        text: b"x:nop\n y:",
        room: counts!(2, 1),
        refusal: at_line!(23, 2),
        entered: &[label!(0, 1, 0)],
    },
    Stop {
        text: b" x:\n\ny:;",
        room: counts!(0, 1),
        refusal: at_line!(23, 3),
        entered: &[label!(1, 1, 0)],
    },
    Stop {
        text: b"nop\nfoo",
        room: counts!(0, 0),
        refusal: at_line!(23, 1),
        entered: &[],
    },
    Stop {
        text: b"x:\ny:\nx:",
        room: counts!(0, 1),
        refusal: at_line!(23, 2),
        entered: &[label!(0, 1, 0)],
    },
    Stop {
        text: b"loop a\nnop",
        room: counts!(1, 0),
        refusal: at_line!(23, 2),
        entered: &[],
    },
    Stop {
        text: b"foo",
        room: counts!(0, 0),
        refusal: at_line!(21, 1),
        entered: &[],
    },
    Stop {
        text: b"x:foo",
        room: counts!(0, 0),
        refusal: at_line!(21, 1),
        entered: &[],
    },
    Stop {
        text: b"x:nop\nx:foo",
        room: counts!(1, 1),
        refusal: at_line!(21, 2),
        entered: &[label!(0, 1, 0)],
    },
    Stop {
        text: b"x:nop\nx:nop",
        room: counts!(1, 1),
        refusal: at_line!(22, 2),
        entered: &[label!(0, 1, 0)],
    },
    Stop {
        text: b"x:nop\nx:",
        room: counts!(1, 1),
        refusal: at_line!(22, 2),
        entered: &[label!(0, 1, 0)],
    },
    Stop {
        text: b"x:nop\n\n foo",
        room: counts!(20, 20),
        refusal: at_line!(21, 3),
        entered: &[label!(0, 1, 0)],
    },
    Stop {
        text: b"x:nop\ny:done\nx:",
        room: counts!(20, 20),
        refusal: at_line!(22, 3),
        entered: &[label!(0, 1, 0), label!(6, 1, 1)],
    },
    Stop {
        text: b"x:nop\nloop a\ny:loop b",
        room: counts!(20, 20),
        refusal: at_line!(24, 2),
        entered: &[label!(0, 1, 0), label!(13, 1, 2)],
    },
    Stop {
        text: b"loop a",
        room: counts!(1, 0),
        refusal: at_line!(24, 1),
        entered: &[],
    },
];

#[test]
fn few_places() -> Result<(), Fail> {
    for (i, case) in STOPS.iter().enumerate() {
        noted(stops(*case), "stop", i)?;
    }
    fits(b";c\n", counts!(0, 0))?;
    fits(b"x:", counts!(0, 1))?;
    fits(b"nop", counts!(1, 0))?;
    Ok(fits(b"x:nop\ny:\nloop y", counts!(2, 2))?)
}

// Passes where a label behind two uses and so many words is found at its address, 2 more.
fn reaches(heap: Global, nops: usize, first: u32, second: u32) -> Result<(), Wrong> {
    let mut text = String::from_str(heap, "bltz $31,t\nloop t\n")?;
    text.push_str("nop\n".repeat(heap, nops)?.as_str())?;
    text.push_str("t:")?;
    let mut words = [u32::OLD; 2100];
    let mut labels = [Label::OLD; 2];
    let count = answer(text.as_bytes(), &mut words, &mut labels)?.words;
    check(count >= 2 && count <= 2100, "room for the words")?;
    check(count - 2 == nops, "as many words")?;
    hold(&words[0..2], &[first, second])
}

#[test]
fn targets(rt: HostRuntime) -> Result<(), Wrong> {
    let heap = rt.alloc();
    reaches(heap, 125, 0xd0fff, 0xf007f)?;
    reaches(heap, 126, 0xd1f80, 0xf0080)?;
    reaches(heap, 254, 0xd2f80, 0xf0100)?;
    reaches(heap, 1363, 0xdafd5, 0xf0555)?;
    reaches(heap, 2045, 0xdffff, 0xf07ff)
}

#[test]
fn far_labels(rt: HostRuntime) -> Result<(), Wrong> {
    let heap = rt.alloc();
    let mut words = [u32::OLD; 2100];
    let mut labels = [Label::OLD; 2];
    let mut text = "nop\n".repeat(heap, 2048)?;
    text.push_str("far:")?;
    assert_eq!(rt;
        answer(text.as_bytes(), &mut words, &mut labels),
        Ok(counts!(2048, 1))
    );
    hold(&words, [0; 2048].as_slice())?;
    hold(&labels, &[label!(8192, 3, 2048)])?;
    text.push_str("loop far")?;
    let mut fresh = [u32::OLD; 2100];
    let got = answer(text.as_bytes(), &mut fresh, &mut labels);
    assert_eq!(rt; got, Err(at_line!(24, 2049)));
    hold(&fresh, &[])
}

#[test]
fn last_word(rt: HostRuntime) -> Result<(), Wrong> {
    let heap = rt.alloc();
    let mut words = [u32::OLD; 2048];
    let mut labels = [Label::OLD; 2];
    let more = "nop\n".repeat(heap, 2049)?;
    let got = answer(more.as_bytes(), &mut words, &mut labels);
    assert_eq!(rt; got, Err(at_line!(23, 2049)));
    hold(&words, &[])?;
    let full = "nop\n".repeat(heap, 2048)?;
    let got = answer(full.as_bytes(), &mut words, &mut labels);
    assert_eq!(rt; got, Ok(counts!(2048, 0)));
    hold(&words, &[0; 2048])?;
    hold(&labels, &[])
}

#[test]
fn last_label(rt: HostRuntime) -> Result<(), Wrong> {
    let heap = rt.alloc();
    let mut words = [u32::OLD; 2];
    let mut labels = [Label::OLD; 2048];
    let more = numbered(heap, 2049)?;
    let got = answer(more.as_bytes(), &mut words, &mut labels);
    assert_eq!(rt; got, Err(at_line!(23, 2049)));
    assert_eq!(rt; labels[2047], label!(13219, 5, 0));
    let full = numbered(heap, 2048)?;
    let mut fresh = [Label::OLD; 2048];
    let got = answer(full.as_bytes(), &mut words, &mut fresh);
    assert_eq!(rt; got, Ok(counts!(0, 2048)));
    assert_eq!(rt; fresh[0], label!(0, 2, 0));
    assert_eq!(rt; fresh[2047], label!(13219, 5, 0));
    hold(&words, &[])
}

#[test]
fn longest_text(rt: HostRuntime) -> Result<(), Wrong> {
    let heap = rt.alloc();
    let mut words = [u32::OLD; 2];
    let mut labels = [Label::OLD; 2];
    let mut text = String::from_str(heap, "x:nop\n;")?;
    text.push_str(".".repeat(heap, 65528)?.as_str())?;
    assert_eq!(rt; text.len(), 65535);
    let mut longer = text.clone()?;
    longer.push_str(".")?;
    let got = answer(longer.as_bytes(), &mut words, &mut labels);
    assert_eq!(rt; got, Err(at_line!(20, 0)));
    hold(&words, &[])?;
    hold(&labels, &[])?;
    let got = answer(text.as_bytes(), &mut words, &mut labels);
    assert_eq!(rt; got, Ok(counts!(1, 1)));
    hold(&words, &[0])?;
    hold(&labels, &[label!(0, 1, 0)])
}

#[test]
fn many_lines(rt: HostRuntime) -> Result<(), Wrong> {
    let heap = rt.alloc();
    let mut text = "\n".repeat(heap, 65534)?;
    let mut words = [u32::OLD; 2];
    let mut labels = [Label::OLD; 2];
    assert_eq!(rt;
        answer(text.as_bytes(), &mut words, &mut labels),
        Ok(counts!(0, 0))
    );
    text.push_str("?")?;
    let got = answer(text.as_bytes(), &mut words, &mut labels);
    assert_eq!(rt; got, Err(at_line!(21, 65535)));
    hold(&words, &[])?;
    hold(&labels, &[])
}
