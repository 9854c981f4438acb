//! The bytes of instructions (`docs/machine.md`).
ghost use Rattle.std.specs.Prelude.{◌≡◌, ◌+◌, ◌≤◌, ℤ, length, int_lt, MatchOption, None, Some, if◌then◌else◌};
ghost use Rattle.vp_words.specs.Number.{minus_inf};
ghost use Rattle.vp_isa.specs.declared.instr.Instr.{Instr};
ghost use Rattle.vp_isa.specs.Decoding.{decoded};
ghost use Rattle.vp_isa.specs.Encoding.{IsInstr, encoded, operand_bytes, instr_bytes, kind_number, mon_number, truth_number, conjunct_number, flag_number};
ghost use Rattle.vp_isa.specs.Reading.{short_at, long_at, word_at, word_of, kind_of, flag_of, mon_of, write_of, jump_of, turn_of, instr_of};

use crate::instr::{Instr, Mon};
use vp_words::{Kind, Word};

/// Bytes 4 to 11 as two cells and a number.
fn operands(a: u16, b: u16, t: u32) -> [u8; 8]
    ensures { result ≡ operand_bytes a b t }
{
    let mut bytes = [0; 8];
    bytes[..2].copy_from_slice(&a.to_be_bytes());
    bytes[2..4].copy_from_slice(&b.to_be_bytes());
    bytes[4..].copy_from_slice(&t.to_be_bytes());
    bytes
}

/// The op, byte 1, the number of bytes 2 and 3, and bytes 4 to 11.
fn joined(op: u8, one: u8, front: u16, rest: [u8; 8]) -> [u8; 12]
    ensures { result ≡ instr_bytes op one front rest }
{
    let mut bytes = [0; 12];
    bytes[0] = op;
    bytes[1] = one;
    bytes[2..4].copy_from_slice(&front.to_be_bytes());
    bytes[4..].copy_from_slice(&rest);
    bytes
}

fn number_of_kind(kind: Kind) -> u8
    ensures { result ≡ kind_number kind }
{
    match kind {
        Kind::Init => 0,
        Kind::Choice => 1,
        Kind::Sense => 2,
    }
}

fn number_of_flag(flag: bool) -> u8
    ensures { result ≡ flag_number flag }
{
    match flag {
        false => 0,
        true => 1,
    }
}

/// The number, the truth and the conjunct of a monitor.
fn numbers_of_mon(mon: Mon) -> (u8, u8, u32)
    ensures number { result.0 ≡ mon_number mon }
    ensures truth { result.1 ≡ truth_number mon }
    ensures conjunct { result.2 ≡ conjunct_number mon }
{
    match mon {
        Mon::Init { k, unknown } => (0, number_of_flag(unknown), k),
        Mon::Plant { k, unknown } => (1, number_of_flag(unknown), k),
        Mon::Fallback => (2, 0, 0),
    }
}

/// The 12 bytes of an instruction.
pub fn encode(i: &Instr) -> [u8; 12]
    ensures bytes { result ≡ encoded i.now }
    ensures fits { IsInstr i.now }
{
    match *i {
        Instr::Const { d, w } => joined(1, 0, d, w.value().to_be_bytes()),
        Instr::Copy { d, a } => joined(2, 0, d, operands(a, 0, 0)),
        Instr::Neg { d, a } => joined(3, 0, d, operands(a, 0, 0)),
        Instr::Min { d, a, b } => joined(4, 0, d, operands(a, b, 0)),
        Instr::Max { d, a, b } => joined(5, 0, d, operands(a, b, 0)),
        Instr::AddD { d, a, b } => joined(6, 0, d, operands(a, b, 0)),
        Instr::AddU { d, a, b } => joined(7, 0, d, operands(a, b, 0)),
        Instr::MulD { d, a, b } => joined(8, 0, d, operands(a, b, 0)),
        Instr::MulU { d, a, b } => joined(9, 0, d, operands(a, b, 0)),
        Instr::Jmp { t } => joined(10, 0, 0, operands(0, 0, t)),
        Instr::Jge { a, b, t } => joined(11, 0, a, operands(b, 0, t)),
        Instr::Jgt { a, b, t } => joined(12, 0, a, operands(b, 0, t)),
        Instr::Jeq { a, b, t } => joined(13, 0, a, operands(b, 0, t)),
        Instr::Take { kind, d } => joined(14, number_of_kind(kind), d, [0; 8]),
        Instr::Act { fallback, d } => joined(15, number_of_flag(fallback), d, [0; 8]),
        Instr::Halt { mon } => {
            let (number, truth, k) = numbers_of_mon(mon);
            joined(16, number, u16::from(truth), operands(0, 0, k))
        }
    }
}

fn u16_at(bytes: &[u8; 12], at: usize) -> u16
    requires { at + 2 ≤ 12 }
    ensures { result ≡ short_at at bytes.now }
{
    let two = &bytes[at..at + 2];
    u16::from_be_bytes([two[0], two[1]])
}

fn last_u32(bytes: &[u8; 12]) -> u32
    ensures { result ≡ long_at 8 bytes.now }
{
    u32::from_be_bytes([bytes[8], bytes[9], bytes[10], bytes[11]])
}

fn last_i64(bytes: &[u8; 12]) -> i64
    ensures { result ≡ word_at bytes.now }
{
    i64::from_be_bytes([
        bytes[4], bytes[5], bytes[6], bytes[7], bytes[8], bytes[9], bytes[10], bytes[11],
    ])
}

fn word(value: i64) -> Option<Word>
    ensures { result ≡ word_of value }
{
    Word::of(value)
}

fn kind(number: u8) -> Option<Kind>
    ensures { result ≡ kind_of number }
{
    match number {
        0 => Some(Kind::Init),
        1 => Some(Kind::Choice),
        2 => Some(Kind::Sense),
        _ => None,
    }
}

fn flag(number: u16) -> Option<bool>
    ensures { result ≡ flag_of number }
{
    match number {
        0 => Some(false),
        1 => Some(true),
        _ => None,
    }
}

fn mon(number: u8, truth: u16, k: u32) -> Option<Mon>
    ensures { result ≡ mon_of number truth k }
{
    match number {
        0 => Some(Mon::Init {
            k,
            unknown: flag(truth)?,
        }),
        1 => Some(Mon::Plant {
            k,
            unknown: flag(truth)?,
        }),
        2 => Some(Mon::Fallback),
        _ => None,
    }
}

/// The ops 2 to 9.
fn write_instr(op: u8, d: u16, a: u16, b: u16) -> Option<Instr>
    ensures { result ≡ write_of op d a b }
{
    match op {
        2 => Some(Instr::Copy { d, a }),
        3 => Some(Instr::Neg { d, a }),
        4 => Some(Instr::Min { d, a, b }),
        5 => Some(Instr::Max { d, a, b }),
        6 => Some(Instr::AddD { d, a, b }),
        7 => Some(Instr::AddU { d, a, b }),
        8 => Some(Instr::MulD { d, a, b }),
        9 => Some(Instr::MulU { d, a, b }),
        _ => None,
    }
}

/// The ops 10 to 13.
fn jump_instr(op: u8, a: u16, b: u16, t: u32) -> Option<Instr>
    ensures { result ≡ jump_of op a b t }
{
    match op {
        10 => Some(Instr::Jmp { t }),
        11 => Some(Instr::Jge { a, b, t }),
        12 => Some(Instr::Jgt { a, b, t }),
        13 => Some(Instr::Jeq { a, b, t }),
        _ => None,
    }
}

/// The ops 14 to 16.
fn turn_instr(op: u8, one: u8, d: u16, k: u32) -> Option<Instr>
    ensures { result ≡ turn_of op one d k }
{
    match op {
        14 => Some(Instr::Take {
            kind: kind(one)?,
            d,
        }),
        15 => Some(Instr::Act {
            fallback: flag(u16::from(one))?,
            d,
        }),
        16 => Some(Instr::Halt {
            mon: mon(one, d, k)?,
        }),
        _ => None,
    }
}

/// The only instruction that the bytes can be.
fn read(bytes: &[u8; 12]) -> Option<Instr>
    ensures { result ≡ instr_of bytes.now }
{
    let op = bytes[0];
    let front = u16_at(bytes, 2);
    match op {
        1 => Some(Instr::Const {
            d: front,
            w: word(last_i64(bytes))?,
        }),
        0..=9 => write_instr(op, front, u16_at(bytes, 4), u16_at(bytes, 6)),
        10..=13 => jump_instr(op, front, u16_at(bytes, 4), last_u32(bytes)),
        _ => turn_instr(op, bytes[1], front, last_u32(bytes)),
    }
}

/// The instruction that 12 bytes are, if they are one.
pub fn decode(bytes: &[u8; 12]) -> Option<Instr>
    ensures exact { result ≡ decoded bytes.now }
    ensures bytes { MatchOption result ((i : Instr) → IsInstr i → encoded i ≡ bytes.now → ⊥) (λ i. IsInstr i × (encoded i ≡ bytes.now)) }
{
    match read(bytes) {
        Some(instr) if encode(&instr) == *bytes => Some(instr),
        _ => None,
    }
}
