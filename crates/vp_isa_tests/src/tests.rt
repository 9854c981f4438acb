use std::alloc::{AllocError, Global};
use std::test::Fail;
use vp_isa::{CheckErr, Checked, Code, Instr, Instrs, Mon, decode, encode};
use vp_words::{Counts, Kind, Word};

const TAKE: Instr = Instr::Take {
    kind: Kind::Init,
    d: 0,
};

const BACK: Instr = Instr::Jmp { t: 0 };

const COUNTS: Counts = Counts {
    params: 0,
    states: 1,
    controls: 1,
};

#[test]
fn bytes_of_each_op(rt: HostRuntime) -> Result<(), Fail> {
    let w = Word::of(-2).ok_or("no word")?;
    let (d, a, b, t) = (1, 2, 0x0304, 0x0506_0708);
    let init = Mon::Init {
        k: 9,
        unknown: true,
    };
    let plant = Mon::Plant {
        k: 9,
        unknown: false,
    };
    let fallback = Mon::Fallback;
    let kind = Kind::Sense;
    let rows = [
        (
            Instr::Const { d, w },
            [1, 0, 0, 1, 255, 255, 255, 255, 255, 255, 255, 254],
        ),
        (Instr::Copy { d, a }, [2, 0, 0, 1, 0, 2, 0, 0, 0, 0, 0, 0]),
        (Instr::Neg { d, a }, [3, 0, 0, 1, 0, 2, 0, 0, 0, 0, 0, 0]),
        (Instr::Min { d, a, b }, [4, 0, 0, 1, 0, 2, 3, 4, 0, 0, 0, 0]),
        (Instr::Max { d, a, b }, [5, 0, 0, 1, 0, 2, 3, 4, 0, 0, 0, 0]),
        (
            Instr::AddD { d, a, b },
            [6, 0, 0, 1, 0, 2, 3, 4, 0, 0, 0, 0],
        ),
        (
            Instr::AddU { d, a, b },
            [7, 0, 0, 1, 0, 2, 3, 4, 0, 0, 0, 0],
        ),
        (
            Instr::MulD { d, a, b },
            [8, 0, 0, 1, 0, 2, 3, 4, 0, 0, 0, 0],
        ),
        (
            Instr::MulU { d, a, b },
            [9, 0, 0, 1, 0, 2, 3, 4, 0, 0, 0, 0],
        ),
        (Instr::Jmp { t: 1 }, [10, 0, 0, 0, 0, 0, 0, 0, 0, 0, 0, 1]),
        (
            Instr::Jge { a, b, t },
            [11, 0, 0, 2, 3, 4, 0, 0, 5, 6, 7, 8],
        ),
        (
            Instr::Jgt { a, b, t },
            [12, 0, 0, 2, 3, 4, 0, 0, 5, 6, 7, 8],
        ),
        (
            Instr::Jeq { a, b, t },
            [13, 0, 0, 2, 3, 4, 0, 0, 5, 6, 7, 8],
        ),
        (
            Instr::Take { kind, d },
            [14, 2, 0, 1, 0, 0, 0, 0, 0, 0, 0, 0],
        ),
        (
            Instr::Act { fallback: true, d },
            [15, 1, 0, 1, 0, 0, 0, 0, 0, 0, 0, 0],
        ),
        (
            Instr::Halt { mon: init },
            [16, 0, 0, 1, 0, 0, 0, 0, 0, 0, 0, 9],
        ),
        (
            Instr::Halt { mon: plant },
            [16, 1, 0, 0, 0, 0, 0, 0, 0, 0, 0, 9],
        ),
        (
            Instr::Halt { mon: fallback },
            [16, 2, 0, 0, 0, 0, 0, 0, 0, 0, 0, 0],
        ),
    ];
    for (instr, bytes) in rows {
        assert_eq!(rt; encode(&instr), bytes);
        assert_eq!(rt; decode(&bytes), Some(instr));
    }
    Ok(())
}

#[test]
fn bytes_of_no_instruction(rt: HostRuntime) {
    let rows = [
        [0, 0, 0, 0, 0, 0, 0, 0, 0, 0, 0, 0],
        [17, 0, 0, 0, 0, 0, 0, 0, 0, 0, 0, 0],
        [1, 0, 0, 0, 128, 0, 0, 0, 0, 0, 0, 0],
        [1, 1, 0, 0, 0, 0, 0, 0, 0, 0, 0, 0],
        [2, 0, 0, 1, 0, 2, 0, 1, 0, 0, 0, 0],
        [3, 0, 0, 1, 0, 2, 0, 0, 0, 0, 0, 1],
        [4, 1, 0, 1, 0, 2, 3, 4, 0, 0, 0, 0],
        [10, 0, 0, 1, 0, 0, 0, 0, 0, 0, 0, 1],
        [11, 0, 0, 1, 0, 0, 1, 0, 0, 0, 0, 1],
        [14, 3, 0, 0, 0, 0, 0, 0, 0, 0, 0, 0],
        [14, 0, 0, 0, 1, 0, 0, 0, 0, 0, 0, 0],
        [15, 2, 0, 0, 0, 0, 0, 0, 0, 0, 0, 0],
        [16, 3, 0, 0, 0, 0, 0, 0, 0, 0, 0, 0],
        [16, 0, 0, 2, 0, 0, 0, 0, 0, 0, 0, 1],
        [16, 2, 0, 1, 0, 0, 0, 0, 0, 0, 0, 0],
        [16, 2, 0, 0, 0, 0, 0, 0, 0, 0, 0, 1],
    ];
    for bytes in rows {
        assert_eq!(rt; decode(&bytes), None, "{bytes:?}");
    }
}

/// What checking says of code for four cells with these instructions.
fn refusal(alloc: Global, head: u32, instrs: &[Instr]) -> Result<Option<CheckErr>, AllocError> {
    let code = Code {
        counts: COUNTS,
        cells: 4,
        head,
        instrs: Instrs::of(Vec::from_slice(alloc, instrs)?),
    };
    Ok(Checked::of(code).err())
}

#[test]
fn refusals_in_order(rt: HostRuntime) -> Result<(), Fail> {
    let alloc = rt.alloc();
    let copy = |d: u16| -> Instr { Instr::Copy { d, a: 0 } };
    let jump = |t: u32| -> Instr { Instr::Jmp { t } };
    let take = |d: u16| -> Instr {
        Instr::Take {
            kind: Kind::Init,
            d,
        }
    };
    let act = Instr::Act {
        fallback: false,
        d: 4,
    };
    let halt = Instr::Halt { mon: Mon::Fallback };
    let rows = [
        (refusal(alloc, 0, &[])?, Some(CheckErr::Size)),
        (refusal(alloc, 2, &[copy(9), BACK])?, Some(CheckErr::Size)),
        (
            refusal(alloc, 1, &[copy(9), BACK])?,
            Some(CheckErr::Shape { at: 0 }),
        ),
        (
            refusal(alloc, 1, &[TAKE, copy(9)])?,
            Some(CheckErr::Shape { at: 1 }),
        ),
        (
            refusal(alloc, 0, &[TAKE, copy(4), jump(9)])?,
            Some(CheckErr::Cell { at: 1 }),
        ),
        (
            refusal(alloc, 0, &[take(2), BACK])?,
            Some(CheckErr::Cell { at: 0 }),
        ),
        (
            refusal(alloc, 0, &[take(1), act, BACK])?,
            Some(CheckErr::Cell { at: 1 }),
        ),
        (
            refusal(alloc, 0, &[TAKE, jump(4), jump(1), act])?,
            Some(CheckErr::Target { at: 1 }),
        ),
        (
            refusal(alloc, 0, &[TAKE, copy(3), jump(1), act])?,
            Some(CheckErr::Back { at: 2 }),
        ),
        (
            refusal(alloc, 0, &[TAKE, jump(1)])?,
            Some(CheckErr::Back { at: 1 }),
        ),
        (
            refusal(alloc, 0, &[TAKE, BACK, copy(3)])?,
            Some(CheckErr::Fall),
        ),
        (refusal(alloc, 0, &[TAKE])?, Some(CheckErr::Fall)),
        (refusal(alloc, 0, &[TAKE, copy(3), BACK])?, None),
        (refusal(alloc, 2, &[TAKE, jump(3), TAKE, jump(2)])?, None),
        (refusal(alloc, 0, &[TAKE, halt])?, None),
    ];
    for (found, expected) in rows {
        assert_eq!(rt; found, expected);
    }
    Ok(())
}

/// What checking says of sizes: a TAKE, and a jump back to it at each other place.
fn refusal_of_sizes(
    alloc: Global,
    counts: Counts,
    cells: u32,
    count: usize,
) -> Result<Option<CheckErr>, AllocError> {
    let mut instrs = vec![in alloc; BACK; count]?;
    if let Some(first) = instrs.first_mut() {
        *first = TAKE;
    }
    let code = Code {
        counts,
        cells,
        head: 0,
        instrs: Instrs::of(instrs),
    };
    Ok(Checked::of(code).err())
}

#[test]
fn sizes_at_their_limits(rt: HostRuntime) -> Result<(), Fail> {
    let counts = |params: u8, states: u8, controls: u8| -> Counts {
        Counts {
            params,
            states,
            controls,
        }
    };
    let rows = [
        (counts(0, 1, 1), 8_192, 65_536, None),
        (counts(0, 1, 1), 8_193, 2, Some(CheckErr::Size)),
        (counts(0, 1, 1), 4, 65_537, Some(CheckErr::Size)),
        (counts(0, 1, 1), 4, 0, Some(CheckErr::Size)),
        (counts(0, 0, 1), 4, 2, Some(CheckErr::Size)),
        (counts(0, 1, 0), 4, 2, Some(CheckErr::Size)),
        (counts(27, 1, 1), 57, 2, None),
        (counts(28, 1, 1), 60, 2, Some(CheckErr::Size)),
        (counts(255, 255, 255), 8_192, 2, Some(CheckErr::Size)),
    ];
    for (counts, cells, count, expected) in rows {
        let found = refusal_of_sizes(rt.alloc(), counts, cells, count)?;
        assert_eq!(rt;
            found,
            expected,
            "{counts:?}, {cells} cells, {count} instructions"
        );
    }
    Ok(())
}
