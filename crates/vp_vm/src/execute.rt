//! One instruction at a time, on plain cells.
ghost use Rattle.std.specs.Prelude.{◌≡◌, ◌+◌, ◌<◌, ◌≤◌, ◌||◌, [], List, Some, true, false, length, take, drop, slice_get, slice_set, if◌then◌else◌};
ghost use Rattle.vp_words.specs.declared.record.Counts.{Counts};
ghost use Rattle.vp_words.specs.declared.record.Reply.TheVariants.{Ok};
ghost use Rattle.vp_words.specs.Record.{ActFits, padded};
ghost use Rattle.vp_isa.specs.Valid.{IsValid, cells_used, is_take};
ghost use Rattle.vp_isa.specs.Machine.{cell, why_of, written, effect, step, run_to_stop, steps_to_stop, IsStanding, HasDueCount};
ghost use Rattle.vp_vm.specs.Parts.{going, state};

use crate::steps::Steps;
use std::sync::ledger::Ledger;
use vp_isa::{Code, Instr, Mon};
use vp_words::{Reply, Why, Word};

/// Where the machine stands, and whether a HALT was executed.
#[derive(Clone, Copy, Debug)]
pub(crate) struct Position {
    pub(crate) place: usize,
    pub(crate) ended: bool,
}

/// The words of so many cells from a place on, with zeros behind them.
fn words_at(cells: &[Word], d: usize, count: usize) -> [Word; 16]
    requires count { count ≤ 16 }
    requires within { d + count ≤ length cells.now }
    ensures { result ≡ padded 16 (take count (drop d cells.now)) }
{
    let mut words = [Word::ZERO; 16];
    words[..count].copy_from_slice(&cells[d..d + count]);
    words
}

fn why(mon: Mon) -> Why
    ensures { result ≡ why_of mon }
{
    match mon {
        Mon::Init { k, unknown } => Why::Init { k, unknown },
        Mon::Plant { k, unknown } => Why::Plant { k, unknown },
        Mon::Fallback => Why::Fallback,
    }
}

fn at(cells: &[Word], place: u16) -> Word
    requires { place < length cells.now }
    ensures { result ≡ cell cells.now place }
{
    cells[usize::from(place)]
}

fn put(cells: &mut [Word], place: u16, word: Word)
    requires { place < length cells.old }
    ensures { cells.new ≡ slice_set cells.old place word }
{
    cells[usize::from(place)] = word;
}

fn stands_at(place: usize) -> Position
    ensures { result ≡ record { place = place; ended = false } }
{
    Position {
        place,
        ended: false,
    }
}

/// Where a jump leads: to `t` where its test holds, else to the following place.
fn goes_to(test: bool, t: u32, place: usize) -> Position
    requires { place < 65536 }
    ensures { result ≡ record { place = if test then t else place + 1; ended = false } }
{
    stands_at(if test { t as usize } else { place + 1 })
}

/// Writes the cell of an instruction that writes one.
fn write(instr: Instr, cells: &mut [Word])
    requires { (counts : Counts) × (cells_used counts instr ≤ length cells.old) }
    ensures { cells.new ≡ written instr cells.old }
{
    match instr {
        Instr::Const { d, w } => put(cells, d, w),
        Instr::Copy { d, a } => put(cells, d, at(cells, a)),
        Instr::Neg { d, a } => put(cells, d, vp_words::neg(at(cells, a))),
        Instr::Min { d, a, b } => put(cells, d, vp_words::min(at(cells, a), at(cells, b))),
        Instr::Max { d, a, b } => put(cells, d, vp_words::max(at(cells, a), at(cells, b))),
        Instr::AddD { d, a, b } => put(cells, d, vp_words::add_down(at(cells, a), at(cells, b))),
        Instr::AddU { d, a, b } => put(cells, d, vp_words::add_up(at(cells, a), at(cells, b))),
        Instr::MulD { d, a, b } => put(cells, d, vp_words::mul_down(at(cells, a), at(cells, b))),
        Instr::MulU { d, a, b } => put(cells, d, vp_words::mul_up(at(cells, a), at(cells, b))),
        _ => (),
    }
}

/// Does an instruction that takes no record, and says where the machine then stands.
fn execute(
    code: &Code,
    instr: Instr,
    cells: &mut [Word],
    place: usize,
    reply: &mut Reply,
) -> Position
    requires fits { cells_used code.now.counts instr ≤ length cells.old }
    requires no_take { is_take (Some instr) ≡ false }
    requires controls { code.now.counts.controls ≤ 16 }
    requires place { place < 65536 }
    requires act { ActFits reply.old }
    ensures act { ActFits reply.new }
    ensures state { effect code.now [] (Some instr) (going cells.old place reply.old) ≡ state cells.new result reply.new }
{
    match instr {
        Instr::Jmp { t } => stands_at(t as usize),
        Instr::Jge { a, b, t } => goes_to(vp_words::ge(at(cells, a), at(cells, b)), t, place),
        Instr::Jgt { a, b, t } => goes_to(vp_words::gt(at(cells, a), at(cells, b)), t, place),
        Instr::Jeq { a, b, t } => goes_to(vp_words::same(at(cells, a), at(cells, b)), t, place),
        Instr::Act { fallback, d } => {
            let len = code.counts.controls;
            *reply = Reply::Act {
                words: words_at(cells, usize::from(d), usize::from(len)),
                len,
                fallback,
            };
            stands_at(place + 1)
        }
        Instr::Halt { mon } => {
            *reply = Reply::Violation(why(mon));
            Position {
                place: place + 1,
                ended: true,
            }
        }
        Instr::Take { .. } => unreachable!(),
        _ => {
            write(instr, cells);
            stands_at(place + 1)
        }
    }
}

/// The instruction at a place.
pub(crate) fn instr_at(code: &Code, place: usize) -> Instr
    requires { place < length code.now.instrs }
    ensures { slice_get code.now.instrs place ≡ Some result }
{
    code.instrs.get()[place]
}

/// Whether the machine stands at a TAKE or is ended.
fn has_stopped(code: &Code, at: Position) -> bool
    requires { at.ended ≡ false → at.place < length code.now.instrs }
    ensures { result ≡ (at.ended || is_take (slice_get code.now.instrs at.place)) }
{
    at.ended || instr_at(code, at.place).is_take()
}

/// One step of a machine that has not stopped.
fn advance<L: Ledger>(
    code: &Code,
    cells: &mut [Word],
    place: usize,
    reply: &mut Reply,
    steps: &mut Steps<L>,
) -> Position
    requires valid { IsValid code.now }
    requires cells { length cells.old ≡ code.now.cells }
    requires within { place < length code.now.instrs }
    requires moving { is_take (slice_get code.now.instrs place) ≡ false }
    requires act { ActFits reply.old }
    ensures act { ActFits reply.new }
    ensures state { step code.now [] (going cells.old place reply.old) ≡ state cells.new result reply.new }
    ensures steps { steps.new ≡ steps.old + 1 }
{
    let instr = instr_at(code, place);
    steps.tick();
    execute(code, instr, cells, place, reply)
}

/// Goes on to the next stop. Answers where the machine then stands, and how many instructions were
/// executed.
pub(crate) fn run_to_stop<L: Ledger>(
    code: &Code,
    cells: &mut [Word],
    start: usize,
    reply: &mut Reply,
    steps: &mut Steps<L>,
) -> (Position, u32)
    requires valid { IsValid code.now }
    requires cells { length cells.old ≡ code.now.cells }
    requires start { start < length code.now.instrs }
    requires act { ActFits reply.old }
    ensures act { ActFits reply.new }
    ensures state { run_to_stop code.now (length code.now.instrs) (going cells.old start reply.old) ≡ state cells.new result.0 reply.new }
    ensures ran { steps_to_stop code.now (length code.now.instrs) (going cells.old start reply.old) ≡ result.1 }
    ensures few { result.1 ≤ 65536 }
    ensures steps { steps.new ≡ steps.old + result.1 }
{
    let mut at = stands_at(start);
    let mut ran = 0;
    'steps: while !has_stopped(code, at) {
        at = advance(code, cells, at.place, reply, steps);
        ran += 1;
    }
    (at, ran)
}

/// Puts the words of a record into the cells that the TAKE at a place names.
pub(crate) fn take_words<L: Ledger>(
    code: &Code,
    cells: &mut [Word],
    place: usize,
    words: &[Word],
    steps: &mut Steps<L>,
) -> usize
    requires valid { IsValid code.now }
    requires standing { IsStanding code.now (going cells.old place Ok) }
    requires words { HasDueCount code.now (going cells.old place Ok) words.now }
    ensures state { step code.now words.now (going cells.old place Ok) ≡ going cells.new result Ok }
    ensures within { result < length code.now.instrs }
    ensures cells { length cells.new ≡ code.now.cells }
    ensures steps { steps.new ≡ steps.old + 1 }
{
    let Instr::Take { d, .. } = instr_at(code, place) else {
        unreachable!()
    };
    let d = usize::from(d);
    cells[d..d + words.len()].copy_from_slice(words);
    steps.tick();
    place + 1
}
