// Texts that are refused, with the number and the line.
use crate::expect::{at_line, is_foreign, refused};
use crate::wrong::{Wrong, noted};
use listing::Refusal;
use std::alloc::Global;
use std::test::Fail;
use text::Fault;

// Lines with an operand that does not fit.
const OPERANDS: [&[u8]; 40] = [
    b"add $32,$0,$0",
    b"add $16,$32,$0",
    b"add $16,$0,$32",
    b"add $16,$0,$100",
    b"add $017,$16,$0",
    b"add $17,$16,$00",
    b"add $ 17,$16,$0",
    b"add $1 7,$16,$0",
    b"add $,$16,$0",
    b"add $17,$16,$",
    b"add $15,$16,$0",
    b"sub $0,$16,$0",
    b"mul $1,$16,$0",
    b"div $15,$16,$0",
    b"floor $15,$16",
    b"abs $15,$16",
    b"sqrt $15,$16",
    b"cmov $15,$16,$0",
    b"setx 65536",
    b"setx 100000",
    b"setx 18446744073709551617",
    b"setx 01",
    b"setx 00",
    b"setx $1",
    b"setx l",
    b"setx -1",
    b"setx +1",
    b"setx 1x",
    b"setx 1 2",
    b"setx",
    b"loop",
    b"loop 0",
    b"loop $1",
    b"bltz $1",
    b"bltz l",
    b"bltz $32,l",
    b"bltz l,$1",
    b"bltz $1,$2",
    b"bltz $1,0",
    b"bltz 1,l",
];

// Lines with too many or too few operands or commas.
const LISTS: [&[u8]; 38] = [
    b"add $17,$16",
    b"add $17,$16,",
    b"add $17,$16,$0,",
    b"add $17,$16,$0,$1",
    b"add $17,$16,$0 $1",
    b"add $17 $16,$0",
    b"add $17,$16 $0",
    b"add $17,,$16,$0",
    b"add $17,$16,,$0",
    b"add ,$17,$16,$0",
    b"add , $17,$16,$0",
    b"add $17;,$16,$0",
    b"add 17,$16,$0",
    b"add $17,16,$0",
    b"add $17,$16,l",
    b"add $17:$16:$0",
    b"add",
    b"floor $17",
    b"floor $17,$0,$0",
    b"abs $17,$0,",
    b"sqrt $17,1",
    b"cmov $16,$0",
    b"cmov $16,$0,$1,$2",
    b"setx 1,2",
    b"setx 1,",
    b"setx ,1",
    b"loop l,l",
    b"loop l,",
    b"bltz $1 l",
    b"bltz $1,,l",
    b"bltz $1,l,l",
    b"bltz $1,l,",
    b"done 1",
    b"done $1",
    b"done,",
    b"nop ,",
    b"nop nop",
    b"nop l",
];

// Lines that are no label and no instruction.
const LINES: [&[u8]; 41] = [
    b"foo",
    b"foo $17,$16,$0",
    b"ADD $17,$16,$0",
    b"Add $17,$16,$0",
    b"DONE",
    b"Nop",
    b"addx $17,$16,$0",
    b"add_ $17,$16,$0",
    b"setx7",
    b"nop1",
    b"x:y:nop",
    b"x:y:",
    b"x: y : nop",
    b"x::",
    b"x",
    b"x nop",
    b"x y:",
    b"x;:",
    b"17",
    b"17:",
    b"1x:",
    b"$17",
    b"$17:",
    b"_x:",
    b":",
    b": nop",
    b",",
    b"x:17",
    b"x:$17",
    b"x:foo",
    b"x:,",
    b"nop:foo",
    b"nop:nop:",
    b"x-y:",
    b"x.y:",
    b"abcdefghijklmnopq:",
    b"abcdefghijklmnopq",
    b"l:loop abcdefghijklmnopq",
    b"nop # comment",
    b"nop // comment",
    b"\"nop\"",
];

// Lines with a byte that stands only in comments.
const BYTES: [&[u8]; 22] = [
    b"\x00",
    b"\r",
    b"\xff",
    b"nop\x00",
    b"\x00nop",
    b"nop\r",
    b"\rnop",
    b"nop\xff",
    b"\xffnop",
    b"x\x00:nop",
    b"x\r:nop",
    b"x\xff:nop",
    b"x:\r",
    b"setx 1\r",
    b"setx 1\x00;",
    b"add $17,\x00$16,$0",
    b"add $17\xff,$16,$0",
    b"nop\x0b",
    b"nop\x0c",
    b"nop\x7f",
    b"nop\xa0",
    b"nop\x80;",
];

// Passes where each of the lines is outside the grammar.
fn are_foreign(heap: Global, list: &'static str, lines: &[&[u8]]) -> Result<(), Fail> {
    for (i, line) in lines.iter().enumerate() {
        noted(is_foreign(heap, *line), list, i)?;
    }
    Ok(())
}

#[test]
fn operands_outside_the_grammar(rt: HostRuntime) -> Result<(), Fail> {
    are_foreign(rt.alloc(), "operands", &OPERANDS)?;
    are_foreign(rt.alloc(), "lists", &LISTS)
}

#[test]
fn lines_outside_the_grammar(rt: HostRuntime) -> Result<(), Fail> {
    are_foreign(rt.alloc(), "lines", &LINES)?;
    are_foreign(rt.alloc(), "bytes", &BYTES)
}

#[test]
fn labels_twice() -> Result<(), Wrong> {
    refused(b"x:\nx:", at_line!(22, 2))?;
    refused(b"x:nop\n\n;c\n x : done", at_line!(22, 4))?;
    refused(b"a:\nb:\nb:\na:", at_line!(22, 3))?;
    refused(b"x:\nX:\nx:", at_line!(22, 3))?;
    refused(b"abcdefghijklmnop:\nabcdefghijklmnop:", at_line!(22, 2))?;
    refused(b"nop:nop\nnop:nop\nfoo", at_line!(22, 2))
}

#[test]
fn unknown_labels() -> Result<(), Wrong> {
    refused(b"loop x", at_line!(24, 1))?;
    refused(b"nop\nbltz $0,b\nloop a", at_line!(24, 2))?;
    refused(b"x:loop x\n\nbltz $1,X\nloop y", at_line!(24, 3))?;
    refused(b"loop nop\nnop", at_line!(24, 1))?;
    refused(b"loop x;x:\nxx:\nx_:", at_line!(24, 1))?;
    refused(b"loop x\nfoo", at_line!(21, 2))?;
    refused(b"loop x\ny:\ny:", at_line!(22, 3))
}

#[test]
fn numbers_of_the_faults(rt: HostRuntime) {
    assert_eq!(rt; Refusal::from(Fault::TooLong), at_line!(20, 0));
    assert_eq!(rt; Refusal::from(Fault::Grammar(1)), at_line!(21, 1));
    assert_eq!(rt; Refusal::from(Fault::Twice(2)), at_line!(22, 2));
    assert_eq!(rt; Refusal::from(Fault::NoRoom(65536)), at_line!(23, 65536));
    assert_eq!(rt;
        Refusal::from(Fault::Unknown(u32::MAX)),
        at_line!(24, u32::MAX)
    );
}
