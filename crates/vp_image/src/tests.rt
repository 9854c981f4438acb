use super::*;
use std::test::*;
use vp_isa::{CheckErr, Checked, Code, Instr, Instrs, Mon};
use vp_words::{Counts, Kind, Word};

/// Echo: each choice is chosen. Its digests were worked out by another program.
const ECHO: [u8; 143] = [
    0x56, 0x50, 0x48, 0x59, 0x00, 0x01, 0x00, 0x01, 0x01, 0x00, 0x04, 0x00, 0x00, 0x00, 0x01, 0x00,
    0x00, 0x00, 0x05, 0x0e, 0x00, 0x00, 0x00, 0x00, 0x00, 0x00, 0x00, 0x00, 0x00, 0x00, 0x00, 0x0e,
    0x01, 0x00, 0x00, 0x00, 0x00, 0x00, 0x00, 0x00, 0x00, 0x00, 0x00, 0x0f, 0x00, 0x00, 0x00, 0x00,
    0x00, 0x00, 0x00, 0x00, 0x00, 0x00, 0x00, 0x0e, 0x02, 0x00, 0x00, 0x00, 0x00, 0x00, 0x00, 0x00,
    0x00, 0x00, 0x00, 0x0a, 0x00, 0x00, 0x00, 0x00, 0x00, 0x00, 0x00, 0x00, 0x00, 0x00, 0x01, 0x00,
    0x00, 0x00, 0x00, 0x00, 0x00, 0x00, 0x00, 0x00, 0x00, 0x00, 0x00, 0x00, 0x00, 0x00, 0x00, 0x00,
    0x00, 0x00, 0x00, 0x00, 0x00, 0x00, 0x00, 0x00, 0x00, 0x00, 0x00, 0x00, 0x00, 0x00, 0x00, 0x7e,
    0xa5, 0x34, 0xa1, 0x56, 0x73, 0x70, 0x53, 0xa7, 0xdd, 0xa0, 0xfc, 0x7c, 0x4a, 0x2c, 0xeb, 0x6a,
    0xe7, 0x8c, 0xb6, 0x65, 0xea, 0x10, 0x28, 0x67, 0xda, 0x5b, 0x0d, 0x8a, 0x89, 0xcc, 0x6f,
];

/// Guard: a state below 0 at the start is a violation.
const GUARD: [u8; 179] = [
    0x56, 0x50, 0x48, 0x59, 0x00, 0x01, 0x00, 0x01, 0x01, 0x00, 0x07, 0x00, 0x00, 0x00, 0x04, 0x00,
    0x00, 0x00, 0x08, 0x0e, 0x00, 0x00, 0x00, 0x00, 0x00, 0x00, 0x00, 0x00, 0x00, 0x00, 0x00, 0x01,
    0x00, 0x00, 0x03, 0x00, 0x00, 0x00, 0x00, 0x00, 0x00, 0x00, 0x00, 0x0b, 0x00, 0x00, 0x00, 0x00,
    0x03, 0x00, 0x00, 0x00, 0x00, 0x00, 0x04, 0x10, 0x00, 0x00, 0x01, 0x00, 0x00, 0x00, 0x00, 0x00,
    0x00, 0x00, 0x01, 0x0e, 0x01, 0x00, 0x02, 0x00, 0x00, 0x00, 0x00, 0x00, 0x00, 0x00, 0x00, 0x0f,
    0x00, 0x00, 0x02, 0x00, 0x00, 0x00, 0x00, 0x00, 0x00, 0x00, 0x00, 0x0e, 0x02, 0x00, 0x03, 0x00,
    0x00, 0x00, 0x00, 0x00, 0x00, 0x00, 0x00, 0x0a, 0x00, 0x00, 0x00, 0x00, 0x00, 0x00, 0x00, 0x00,
    0x00, 0x00, 0x04, 0x00, 0x00, 0x00, 0x00, 0x00, 0x00, 0x00, 0x00, 0x00, 0x00, 0x00, 0x00, 0x00,
    0x00, 0x00, 0x00, 0x00, 0x00, 0x00, 0x00, 0x00, 0x00, 0x00, 0x00, 0x00, 0x00, 0x00, 0x00, 0x00,
    0x00, 0x00, 0x00, 0xb6, 0x23, 0xde, 0xd6, 0x60, 0x75, 0xcb, 0x2e, 0xe3, 0xb5, 0xaa, 0xb0, 0xca,
    0xc2, 0xbc, 0x0d, 0x29, 0x9f, 0xe3, 0xc3, 0xeb, 0x7e, 0xc8, 0x08, 0x6e, 0x0f, 0xb7, 0x27, 0xc5,
    0x07, 0xac, 0x3b,
];

/// Echo's digest where its last instruction goes to 5 for 1.
const TARGET_DIGEST: [u8; 32] = [
    0x49, 0x4d, 0x07, 0x45, 0x99, 0x67, 0xd7, 0x3d, 0x35, 0xcd, 0x8e, 0x49, 0xb7, 0x33, 0x73, 0xee,
    0x15, 0x78, 0x54, 0x2d, 0x31, 0xb8, 0x79, 0x86, 0x01, 0x07, 0x7c, 0xc0, 0xc9, 0x5f, 0xdb, 0x32,
];

/// Echo's digest where the instructions with the numbers 2 and 3 are none: op 0, and an ACT with 2 in
/// byte 1.
const INSTR_DIGEST: [u8; 32] = [
    0xcd, 0x14, 0xda, 0xa2, 0xc1, 0x54, 0x05, 0x83, 0x15, 0xa6, 0x31, 0x7c, 0x98, 0x6b, 0x4f, 0x88,
    0xbf, 0xc1, 0xb0, 0xc6, 0x32, 0x31, 0x29, 0xe8, 0xce, 0x99, 0x42, 0xdb, 0x8b, 0xd4, 0x53, 0xe3,
];

const ONE_OF_EACH: Counts = Counts {
    params: 0,
    states: 1,
    controls: 1,
};

fn checked(rt: &HostRuntime, cells: u32, head: u32, instrs: &[Instr]) -> Option<Checked> {
    let instrs = Vec::from_slice(rt.alloc(), instrs).ok()?;
    Checked::of(Code {
        counts: ONE_OF_EACH,
        cells,
        head,
        instrs: Instrs::of(instrs),
    })
    .ok()
}

fn echo(rt: &HostRuntime) -> Option<Checked> {
    let instrs = [
        Instr::Take {
            kind: Kind::Init,
            d: 0,
        },
        Instr::Take {
            kind: Kind::Choice,
            d: 0,
        },
        Instr::Act {
            fallback: false,
            d: 0,
        },
        Instr::Take {
            kind: Kind::Sense,
            d: 0,
        },
        Instr::Jmp { t: 1 },
    ];
    checked(rt, 4, 1, &instrs)
}

fn guard(rt: &HostRuntime) -> Option<Checked> {
    let instrs = [
        Instr::Take {
            kind: Kind::Init,
            d: 0,
        },
        Instr::Const {
            d: 3,
            w: Word::of(0)?,
        },
        Instr::Jge { a: 0, b: 3, t: 4 },
        Instr::Halt {
            mon: Mon::Init {
                k: 1,
                unknown: true,
            },
        },
        Instr::Take {
            kind: Kind::Choice,
            d: 2,
        },
        Instr::Act {
            fallback: false,
            d: 2,
        },
        Instr::Take {
            kind: Kind::Sense,
            d: 3,
        },
        Instr::Jmp { t: 4 },
    ];
    checked(rt, 7, 4, &instrs)
}

#[test]
fn written_bytes(rt: HostRuntime) -> Result<(), Fail> {
    let echo = echo(&rt).ok_or("echo keeps the rules")?;
    let guard = guard(&rt).ok_or("guard keeps the rules")?;
    assert_eq!(rt;
        write_image(rt.alloc(), &echo, &[0; 32])?.as_slice(),
        ECHO.as_slice()
    );
    assert_eq!(rt;
        write_image(rt.alloc(), &guard, &[0; 32])?.as_slice(),
        GUARD.as_slice()
    );
    Ok(())
}

#[test]
fn read_back(rt: HostRuntime) -> Result<(), Fail> {
    let (code, digest) = read_image(rt.alloc(), &GUARD)
        .ok()
        .ok_or("guard is an image")?;
    let guard = guard(&rt).ok_or("guard keeps the rules")?;
    assert_eq!(rt; digest, [0; 32]);
    assert_eq!(rt; code.code().counts, ONE_OF_EACH);
    assert_eq!(rt; code.code().cells, 7);
    assert_eq!(rt; code.code().head, 4);
    assert_eq!(rt; code.code().instrs.get(), guard.code().instrs.get());
    Ok(())
}

#[test]
fn flipped_bits(rt: HostRuntime) -> Result<(), Fail> {
    for at in 0..143usize {
        let mut bytes = ECHO;
        bytes[at] ^= 1;
        let want = match at {
            0..=3 => ImageErr::Magic,
            4 => ImageErr::Version { n: 257 },
            5 => ImageErr::Version { n: 0 },
            15..=18 => ImageErr::Length,
            _ => ImageErr::Digest,
        };
        assert_eq!(rt;
            read_image(rt.alloc(), &bytes).err(),
            Some(want),
            "byte {at}"
        );
    }
    Ok(())
}

#[test]
fn prefixes(rt: HostRuntime) -> Result<(), Fail> {
    for len in 0..143usize {
        let want = if len < 4 {
            ImageErr::Magic
        } else {
            ImageErr::Length
        };
        assert_eq!(rt;
            read_image(rt.alloc(), &ECHO[..len]).err(),
            Some(want),
            "length {len}"
        );
    }
    Ok(())
}

#[test]
fn behind_the_digest(rt: HostRuntime) {
    let mut target = ECHO;
    target[78] = 5;
    target[111..].copy_from_slice(&TARGET_DIGEST);
    let target_err = ImageErr::Check(CheckErr::Target { at: 4 });
    assert_eq!(rt; read_image(rt.alloc(), &target).err(), Some(target_err));

    let mut instr = ECHO;
    instr[43] = 0;
    instr[55] = 15;
    instr[56] = 2;
    instr[111..].copy_from_slice(&INSTR_DIGEST);
    assert_eq!(rt;
        read_image(rt.alloc(), &instr).err(),
        Some(ImageErr::Instr { at: 2 })
    );
}

#[test]
fn texts(rt: HostRuntime) -> Result<(), Fail> {
    for (error, text) in [
        (ImageErr::Magic, "magic"),
        (ImageErr::Version { n: 257 }, "version 257"),
        (ImageErr::Length, "length"),
        (ImageErr::Digest, "digest"),
        (ImageErr::Instr { at: 65_535 }, "instr 65535"),
        (ImageErr::Check(CheckErr::Size), "check size"),
        (ImageErr::Check(CheckErr::Shape { at: 1 }), "check shape 1"),
        (ImageErr::Check(CheckErr::Cell { at: 2 }), "check cell 2"),
        (
            ImageErr::Check(CheckErr::Target { at: 4 }),
            "check target 4",
        ),
        (ImageErr::Check(CheckErr::Back { at: 3 }), "check back 3"),
        (ImageErr::Check(CheckErr::Fall), "check fall"),
    ] {
        assert_eq!(rt; error.to_string(rt.alloc())?.as_str(), text);
    }
    Ok(())
}
