// Texts that are good, with their words and their labels.
use crate::expect::{enters, gives, label};
use crate::wrong::{Wrong, noted};
use std::test::Fail;

// A line of one instruction, with its word.
struct Case {
    text: &'static [u8],
    word: u32,
}

const INSTRUCTIONS: [Case; 16] = [
    Case {
        text: b"add $17, $16, $0",
        word: 0x01800,
    },
    Case {
        text: b"sub $18, $1, $2",
        word: 0x12088,
    },
    Case {
        text: b"mul $19, $3, $4",
        word: 0x23190,
    },
    Case {
        text: b"div $20, $5, $6",
        word: 0x34298,
    },
    Case {
        text: b"floor $21, $7",
        word: 0x45380,
    },
    Case {
        text: b"abs $22, $8",
        word: 0x56400,
    },
    Case {
        text: b"sqrt $23, $9",
        word: 0x67480,
    },
    Case {
        text: b"cmov $24, $10, $11",
        word: 0x8852c,
    },
    Case {
        text: b"done",
        word: 0xa0000,
    },
    Case {
        text: b"l: bltz $12, l",
        word: 0xd0600,
    },
    Case {
        text: b"setx 258",
        word: 0xe0102,
    },
    Case {
        text: b"l: loop l",
        word: 0xf0000,
    },
    Case {
        text: b"nop",
        word: 0x00000,
    },
    Case {
        text: b"add $16, $0, $0",
        word: 0x00000,
    },
    Case {
        text: b"setx 0",
        word: 0xe0000,
    },
    Case {
        text: b"l: bltz $0, l",
        word: 0xd0000,
    },
];

const GREATEST: [Case; 10] = [
    Case {
        text: b"add $31,$31,$31",
        word: 0x0fffc,
    },
    Case {
        text: b"sub $31,$31,$31",
        word: 0x1fffc,
    },
    Case {
        text: b"mul $31,$31,$31",
        word: 0x2fffc,
    },
    Case {
        text: b"div $31,$31,$31",
        word: 0x3fffc,
    },
    Case {
        text: b"floor $31,$31",
        word: 0x4ff80,
    },
    Case {
        text: b"abs $31,$31",
        word: 0x5ff80,
    },
    Case {
        text: b"sqrt $31,$31",
        word: 0x6ff80,
    },
    Case {
        text: b"cmov $31,$31,$31",
        word: 0x8fffc,
    },
    Case {
        text: b"setx 65535",
        word: 0xeffff,
    },
    Case {
        text: b"l: bltz $31,l",
        word: 0xd0f80,
    },
];

// Each of these is one instruction with the word 0x01800.
const SPACED: [&[u8]; 12] = [
    b"add$17,$16,$0",
    b"add $17,$16,$0",
    b"   add   $17 ,  $16 ,   $0   ",
    b"\tadd\t$17\t,\t$16\t,\t$0\t",
    b" \t add \t$17, \t$16,\t $0;",
    b"x:add$17,$16,$0",
    b"x :add $17,$16,$0",
    b"x: add $17,$16,$0",
    b" \tx\t : \tadd $17,$16,$0 ; x:",
    b"\n \n\t\nadd $17,$16,$0\n\n",
    b"x:\nadd $17,$16,$0\ny:",
    b"add:add $17,$16,$0",
];

#[test]
fn each_instruction() -> Result<(), Fail> {
    gives(b"add $17, $16, $0\ndone\n", &[0x01800, 0xa0000])?;
    gives(b"add $17, $16, $0\ndone", &[0x01800, 0xa0000])?;
    for case in &INSTRUCTIONS {
        noted(gives(case.text, &[case.word]), "word", case.word)?;
    }
    for case in &GREATEST {
        noted(gives(case.text, &[case.word]), "word", case.word)?;
    }
    Ok(())
}

#[test]
fn spacing() -> Result<(), Fail> {
    for (i, text) in SPACED.iter().enumerate() {
        noted(gives(*text, &[0x01800]), "spacing", i)?;
    }
    Ok(())
}

#[test]
fn comments_and_ends() -> Result<(), Wrong> {
    gives(b"", &[])?;
    gives(b"\n", &[])?;
    gives(b" \t\n\n\t ", &[])?;
    gives(b";", &[])?;
    gives(b"; \x00\r\xff add $99 :, \x80", &[])?;
    gives(b";x:\n ;y:\nx:;x:\n", &[])?;
    gives(b"done;\x00\r\xff\n;;\nnop ;done\n", &[0xa0000, 0])?;
    gives(b"nop\n\nsetx 9;9\n\ndone", &[0, 0xe0009, 0xa0000])
}

#[test]
fn names_and_labels() -> Result<(), Wrong> {
    gives(b"nop:sub $16,$0,$0\nloop:loop loop", &[0x10000, 0xf0001])?;
    gives(
        b"nop\nbltz:bltz $1,bltz\nloop add\nadd:",
        &[0, 0xd0081, 0xf0003],
    )?;
    enters(
        b"sub:\nmul:\ndiv:",
        &[label!(0, 3, 0), label!(5, 3, 0), label!(10, 3, 0)],
    )?;
    enters(
        b"floor:\nabs:\nsqrt:",
        &[label!(0, 5, 0), label!(7, 3, 0), label!(12, 4, 0)],
    )?;
    enters(
        b"cmov:\nsetx:\ndone:",
        &[label!(0, 4, 0), label!(6, 4, 0), label!(12, 4, 0)],
    )?;
    gives(b"a:nop\nA:loop a\nloop A", &[0, 0xf0000, 0xf0001])?;
    gives(
        b"nop\nl_1:nop\nl_2:loop l_1\nloop l_2",
        &[0, 0, 0xf0001, 0xf0002],
    )?;
    gives(
        b"nop\nabcdefghijklm_16:loop abcdefghijklm_16",
        &[0, 0xf0001],
    )?;
    gives(
        b"A23456789012345x:nop\nA23456789012345y:loop A23456789012345x",
        &[0, 0xf0000],
    )?;
    enters(b"nop\ndone;x:", &[])?;
    enters(b"x:", &[label!(0, 1, 0)])?;
    enters(
        b"x:nop\n\n \t y_2 : done\nz:;z:\nz2:\n",
        &[
            label!(0, 1, 0),
            label!(10, 3, 1),
            label!(21, 1, 2),
            label!(27, 2, 2),
        ],
    )
}
