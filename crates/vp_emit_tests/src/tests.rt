use std::alloc::Global;
use std::test::Fail;
use vp_emit::{BuildErr, Builder};
use vp_isa::{Code, Instr, Mon};
use vp_words::Counts;

const COUNTS: Counts = Counts {
    params: 0,
    states: 1,
    controls: 1,
};

const HALT: Instr = Instr::Halt { mon: Mon::Fallback };

/// Pushes jumps to these labels.
fn push_jumps(b: &mut Builder, labels: &[u32]) -> Result<(), Fail> {
    for label in labels {
        if b.count() == u32::MAX {
            return Err(Fail::new("no room"));
        }
        b.push(Instr::Jmp { t: *label })?;
    }
    Ok(())
}

/// The code, whose head is its first instruction.
fn finished(alloc: Global, b: Builder) -> Result<Result<Code, BuildErr>, Fail> {
    if b.count() == 0 {
        return Err(Fail::new("no instruction"));
    }
    Ok(b.finish(alloc, 4, 0))
}

#[test]
fn labels_become_places(rt: HostRuntime) -> Result<(), Fail> {
    let mut b = Builder::new(rt.alloc(), COUNTS);
    let start = b.label()?;
    let end = b.label()?;
    b.push(HALT)?;
    b.place(start);
    b.push(Instr::Jge { a: 2, b: 3, t: end })?;
    b.push(Instr::Jgt {
        a: 3,
        b: 2,
        t: start,
    })?;
    b.push(Instr::Jeq { a: 1, b: 2, t: end })?;
    b.push(Instr::Jmp { t: start })?;
    b.place(end);
    b.push(HALT)?;
    let code = finished(rt.alloc(), b)?.map_err(|_| "no code")?;
    assert_eq!(rt; (code.counts, code.cells, code.head), (COUNTS, 4, 0));
    assert_eq!(rt;
        code.instrs.get(),
        [
            HALT,
            Instr::Jge { a: 2, b: 3, t: 5 },
            Instr::Jgt { a: 3, b: 2, t: 1 },
            Instr::Jeq { a: 1, b: 2, t: 5 },
            Instr::Jmp { t: 1 },
            HALT,
        ]
        .as_slice()
    );
    Ok(())
}

/// The label that is told where jumps to these are pushed: label 0 has a place, label 1 has none, and
/// no other was made.
fn told(alloc: Global, labels: &[u32]) -> Result<Option<BuildErr>, Fail> {
    let mut b = Builder::new(alloc, COUNTS);
    let placed = b.label()?;
    b.label()?;
    b.place(placed);
    b.push(HALT)?;
    push_jumps(&mut b, labels)?;
    Ok(finished(alloc, b)?.err())
}

#[test]
fn the_earliest_label_without_a_place_is_told(rt: HostRuntime) -> Result<(), Fail> {
    let rows: [(&[u32], Option<u32>); 6] = [
        (&[], None),
        (&[0, 0], None),
        (&[0, 1], Some(1)),
        (&[1, 7], Some(1)),
        (&[7, 1], Some(7)),
        (&[0, 7, 0, 1], Some(7)),
    ];
    for (labels, wanted) in rows {
        let wanted = wanted.map(|label| BuildErr::Unplaced { label });
        assert_eq!(rt; told(rt.alloc(), labels)?, wanted);
    }
    Ok(())
}
