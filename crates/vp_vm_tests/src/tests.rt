ghost use Rattle.std.specs.Prelude.{◌≡◌, ◌<◌, true};
ghost use Rattle.vp_isa.specs.Machine.{HasDueCount};

use std::alloc::Global;
use std::marker::Brand;
use std::sync::ledger::{Blank, Ledger};
use std::test::Fail;
use vp_isa::{Checked, Code, Instr, Instrs, Mon};
use vp_vm::{Machine, Steps, VmReply};
use vp_words::{Counts, Due, Kind, Reply, Turn, Why, Word, fields};

const FIN: i64 = 9_223_372_036_854_775_806;

const INF: i64 = i64::MAX;

/// A machine for no parameter, one state and one control.
fn machine(alloc: Global, cells: u32, head: u32, instrs: &[Instr]) -> Result<Machine, Fail> {
    let code = Code {
        counts: Counts {
            params: 0,
            states: 1,
            controls: 1,
        },
        cells,
        head,
        instrs: Instrs::of(Vec::from_slice(alloc, instrs)?),
    };
    let checked = Checked::of(code).map_err(|_| "code was refused")?;
    Ok(Machine::new(alloc, checked)?)
}

/// Whether there are as many words as the due record has.
fn are_due(machine: &Machine, words: &[Word]) -> bool
    ensures { result ≡ true → HasDueCount machine.now.code machine.now.state words.now }
{
    let counts = machine.counts();
    match machine.due() {
        Due::Init => words.len() == usize::from(fields(Kind::Init, counts)),
        Due::Choice => words.len() == usize::from(fields(Kind::Choice, counts)),
        Due::Sense => words.len() == usize::from(fields(Kind::Sense, counts)),
        Due::Ended => true,
    }
}

/// The answer to a record of these numbers.
fn give<L: Ledger>(
    alloc: Global,
    machine: &mut Machine,
    numbers: &[i64],
    steps: &mut Steps<L>,
) -> Result<(Turn, VmReply), Fail> {
    let mut words = Vec::new(alloc);
    for number in numbers {
        words.push(Word::of(*number).ok_or("no word")?)?;
    }
    if !are_due(machine, &words) {
        return Err(Fail::from("not the due record"));
    }
    let mut out = VmReply {
        reply: Reply::Ok,
        ran: 0,
    };
    let turn = machine.give(&words, &mut out, steps);
    Ok((turn, out))
}

/// An act with one word.
fn act(number: i64) -> Result<Reply, Fail> {
    let mut words = [Word::ZERO; 16];
    words[0] = Word::of(number).ok_or("no word")?;
    Ok(Reply::Act {
        words,
        len: 1,
        fallback: false,
    })
}

/// The answers to these records, each with what it leaves due.
fn answers<L: Ledger>(
    alloc: Global,
    mut machine: Machine,
    records: &[&[i64]],
    blank: Blank,
) -> Result<Vec<(VmReply, Due)>, Fail>
    requires name { blank.name ≡ L.name }
    requires parts { blank.parts ≡ L.parts }
    requires some { 0 < blank.parts }
{
    let mut steps = Steps::<L>::new(blank);
    let mut answers = Vec::new(alloc);
    for record in records {
        let (turn, out) = give(alloc, &mut machine, record, &mut steps)?;
        if turn == Turn::Ended {
            return Err(Fail::from("nothing was due"));
        }
        answers.push((out, machine.due()))?;
    }
    Ok(answers)
}

#[test]
fn echo(rt: HostRuntime) -> Result<(), Fail> {
    let instrs = [
        Instr::Take {
            kind: Kind::Init,
            d: 0,
        },
        Instr::Take {
            kind: Kind::Choice,
            d: 0,
        },
        Instr::Act {
            fallback: false,
            d: 0,
        },
        Instr::Take {
            kind: Kind::Sense,
            d: 0,
        },
        Instr::Jmp { t: 1 },
    ];
    let machine = machine(rt.alloc(), 4, 1, &instrs)?;
    let records: [&[i64]; 3] = [&[0, 0, 0], &[7], &[1, 1, 0, 0]];
    let found = answers::<Brand>(rt.alloc(), machine, &records, Blank::new(1))?;
    let expected = [
        (
            VmReply {
                reply: Reply::Ok,
                ran: 1,
            },
            Due::Choice,
        ),
        (
            VmReply {
                reply: act(7)?,
                ran: 2,
            },
            Due::Sense,
        ),
        (
            VmReply {
                reply: Reply::Ok,
                ran: 2,
            },
            Due::Choice,
        ),
    ];
    assert_eq!(rt; found.as_slice(), expected.as_slice());
    Ok(())
}

/// Waits for a first record whose state is at least 0, and then answers as `echo`.
fn guard(alloc: Global) -> Result<Machine, Fail> {
    let mon = Mon::Init {
        k: 1,
        unknown: true,
    };
    let instrs = [
        Instr::Take {
            kind: Kind::Init,
            d: 0,
        },
        Instr::Const {
            d: 3,
            w: Word::ZERO,
        },
        Instr::Jge { a: 0, b: 3, t: 4 },
        Instr::Halt { mon },
        Instr::Take {
            kind: Kind::Choice,
            d: 2,
        },
        Instr::Act {
            fallback: false,
            d: 2,
        },
        Instr::Take {
            kind: Kind::Sense,
            d: 3,
        },
        Instr::Jmp { t: 4 },
    ];
    machine(alloc, 7, 4, &instrs)
}

#[test]
fn guard_passes(rt: HostRuntime) -> Result<(), Fail> {
    let records: [&[i64]; 3] = [&[0, 5, 0], &[3], &[1, 1, 0, 0]];
    let machine = guard(rt.alloc())?;
    assert_eq!(rt; machine.due(), Due::Init);
    let found = answers::<Brand>(rt.alloc(), machine, &records, Blank::new(1))?;
    let expected = [
        (
            VmReply {
                reply: Reply::Ok,
                ran: 3,
            },
            Due::Choice,
        ),
        (
            VmReply {
                reply: act(3)?,
                ran: 2,
            },
            Due::Sense,
        ),
        (
            VmReply {
                reply: Reply::Ok,
                ran: 2,
            },
            Due::Choice,
        ),
    ];
    assert_eq!(rt; found.as_slice(), expected.as_slice());
    Ok(())
}

/// The turn after a violation.
fn turn_after<L: Ledger>(
    alloc: Global,
    mut machine: Machine,
    numbers: &[i64],
    blank: Blank,
) -> Result<(VmReply, Turn, VmReply), Fail>
    requires name { blank.name ≡ L.name }
    requires parts { blank.parts ≡ L.parts }
    requires some { 0 < blank.parts }
{
    let mut steps = Steps::<L>::new(blank);
    let (_, violation) = give(alloc, &mut machine, numbers, &mut steps)?;
    let (turn, out) = give(alloc, &mut machine, &[3], &mut steps)?;
    Ok((violation, turn, out))
}

#[test]
fn guard_halts(rt: HostRuntime) -> Result<(), Fail> {
    let machine = guard(rt.alloc())?;
    let (violation, turn, out) = turn_after::<Brand>(
        rt.alloc(),
        machine,
        &[-1, 5, 0],
        Blank::new(1),
    )?;
    let why = Why::Init {
        k: 1,
        unknown: true,
    };
    assert_eq!(rt;
        violation,
        VmReply {
            reply: Reply::Violation(why),
            ran: 4
        }
    );
    assert_eq!(rt; turn, Turn::Ended);
    assert_eq!(rt;
        out,
        VmReply {
            reply: Reply::Ok,
            ran: 0
        }
    );
    Ok(())
}

/// What cell 3 is after an instruction on the cells 0 and 1, where a jump to 3 makes it 1.
fn cell_after(alloc: Global, instr: Instr, a: i64, b: i64) -> Result<VmReply, Fail> {
    let one = Word::of(1).ok_or("no word")?;
    let instrs = [
        Instr::Take {
            kind: Kind::Init,
            d: 0,
        },
        instr,
        Instr::Jmp { t: 4 },
        Instr::Const { d: 3, w: one },
        Instr::Act {
            fallback: false,
            d: 3,
        },
        Instr::Jmp { t: 0 },
    ];
    let machine = machine(alloc, 4, 0, &instrs)?;
    let found = answers::<Brand>(alloc, machine, &[&[a, b, 0]], Blank::new(1))?;
    let (out, _) = found.first().ok_or("no answer")?;
    Ok(*out)
}

#[test]
fn ops_at_edge_words(rt: HostRuntime) -> Result<(), Fail> {
    let (d, a, b, t) = (3, 0, 1, 3);
    let w = Word::MINUS_INF;
    let (copy, neg) = (Instr::Copy { d, a }, Instr::Neg { d, a });
    let (min, max) = (Instr::Min { d, a, b }, Instr::Max { d, a, b });
    let (add_down, add_up) = (Instr::AddD { d, a, b }, Instr::AddU { d, a, b });
    let (mul_down, mul_up) = (Instr::MulD { d, a, b }, Instr::MulU { d, a, b });
    let (jge, jgt, jeq) = (
        Instr::Jge { a, b, t },
        Instr::Jgt { a, b, t },
        Instr::Jeq { a, b, t },
    );
    let rows = [
        (Instr::Const { d, w }, 0, 0, -INF),
        (copy, INF, 0, INF),
        (neg, INF, 0, -INF),
        (neg, -FIN, 0, FIN),
        (min, -INF, -FIN, -INF),
        (min, INF, FIN, FIN),
        (max, -INF, -FIN, -FIN),
        (max, INF, FIN, INF),
        (add_down, INF, -INF, -INF),
        (add_down, INF, -FIN, INF),
        (add_down, FIN, 1, FIN),
        (add_down, -FIN, -1, -INF),
        (add_up, INF, -INF, INF),
        (add_up, FIN, -INF, -INF),
        (add_up, FIN, 1, INF),
        (add_up, -FIN, -1, -FIN),
        (mul_down, 0, -INF, 0),
        (mul_down, -1, INF, -INF),
        (mul_down, FIN, 2, FIN),
        (mul_down, FIN, -2, -INF),
        (mul_up, INF, 0, 0),
        (mul_up, -INF, -INF, INF),
        (mul_up, FIN, 2, INF),
        (mul_up, FIN, -2, -FIN),
        (Instr::Jmp { t }, 0, 0, 1),
        (jge, INF, INF, 1),
        (jge, -INF, -FIN, 0),
        (jgt, FIN, FIN, 0),
        (jgt, INF, FIN, 1),
        (jeq, -INF, -INF, 1),
        (jeq, -INF, INF, 0),
    ];
    for (instr, a, b, expected) in rows {
        let out = cell_after(rt.alloc(), instr, a, b)?;
        assert_eq!(rt; out.reply, act(expected)?, "{instr:?} at {a} and {b}");
    }
    Ok(())
}
