//! The code of a sandbox.
ghost use Rattle.std.specs.Prelude.{◌≡◌, ◌+◌, ◌*◌, ◌<◌, ◌≤◌, ◌^◌, ◌++◌, [], length, map, sum_by, OnOk, IfOk};
ghost use Rattle.vp_words.specs.Record.{IsValid};
ghost use Rattle.vp_logic.specs.Tree.{tree};
ghost use Rattle.vp_sandbox.specs.Fits.{Fits};
ghost use Rattle.vp_sandbox.specs.Sizes.{form_size, poly_size, instruction_bound};
ghost use Rattle.vp_layout.specs.Drafts.{Appends, HasRoom};
ghost use Rattle.vp_layout.specs.Homes.{homes_of};
ghost use Rattle.vp_layout.specs.Truths.{need, IsSmall, AllNeed, AllSmall, SmallPolys};
ghost use Rattle.vp_gen.specs.SandboxCode.{test_code, fallback_code, choice_code, code_of};
ghost use Rattle.vp_gen.specs.Parts.{IsWhole, init_part, sense_part};

use crate::check::{FALLBACK, WORK, emit_checks, emit_words};
use crate::form::emit_form;
use std::alloc::{AllocError, Global};
use vp_emit::{BuildErr, Builder};
use vp_isa::{Code, Instr};
use vp_layout::{Home, Layout, Monitor, TWO, emit_copies, homes, push_act, push_block, push_take};
use vp_sandbox::Sandbox;
use vp_words::Kind;

/// How many cells the code uses.
const CELLS: u32 = 512;

/// Takes and tests an init record.
fn emit_init(alloc: Global, b: &mut Builder, s: &Sandbox, homes: &[Home]) -> Result<(), AllocError>
    requires counts { IsValid s.now.counts }
    requires room { HasRoom b.old (5 + sum_by (λ t. form_size t + 8) (map tree s.now.init)) }
    requires few { length s.now.init < 2 ^ 31 }
    requires homes { homes.now ≡ homes_of s.now.counts }
    requires need { AllNeed 16 (map tree s.now.init) }
    requires small { AllSmall (map tree s.now.init) }
    ensures { OnOk result (Appends b.old b.new (init_part s.now)) }
{
    push_take(b, s.counts, Kind::Init)?;
    emit_checks(alloc, b, s.init.get(), Monitor::Init, homes)
}

/// Takes and tests a sensing; then the next states become the states.
fn emit_sense(alloc: Global, b: &mut Builder, s: &Sandbox, homes: &[Home]) -> Result<(), AllocError>
    requires counts { IsValid s.now.counts }
    requires room { HasRoom b.old (5 + sum_by (λ t. form_size t + 8) (map tree s.now.plant) + 2 * s.now.counts.states) }
    requires few { length s.now.plant < 2 ^ 31 }
    requires homes { homes.now ≡ homes_of s.now.counts }
    requires need { AllNeed 16 (map tree s.now.plant) }
    requires small { AllSmall (map tree s.now.plant) }
    ensures { OnOk result (Appends b.old b.new (sense_part s.now)) }
{
    let cells = Layout::of(s.counts);
    push_take(b, s.counts, Kind::Sense)?;
    emit_checks(alloc, b, s.plant.get(), Monitor::Plant, homes)?;
    let mut block = Vec::new(alloc);
    emit_copies(
        &mut block,
        cells.states,
        cells.next_states,
        2 * s.counts.states,
    )?;
    push_block(b, &block)
}

/// Takes a choice, and works out its truth.
fn emit_test(alloc: Global, b: &mut Builder, s: &Sandbox, homes: &[Home]) -> Result<(), AllocError>
    requires counts { IsValid s.now.counts }
    requires room { HasRoom b.old (form_size (tree s.now.ctrl) + 5) }
    requires need { need (tree s.now.ctrl) ≤ 16 }
    requires small { IsSmall (tree s.now.ctrl) }
    requires homes { homes.now ≡ homes_of s.now.counts }
    ensures { OnOk result (b.new ≡ record b.old { pushed = b.old.pushed ++ test_code s.now }) }
{
    push_take(b, s.counts, Kind::Choice)?;
    let mut block = Vec::new(alloc);
    emit_form(&mut block, WORK, &s.ctrl, homes)?;
    push_block(b, &block)
}

/// Actuates the fallback, or ends where one of its values isn't known to be one word. No word becomes a
/// control before all are known.
fn emit_fallback(
    alloc: Global,
    b: &mut Builder,
    s: &Sandbox,
    homes: &[Home],
) -> Result<(), AllocError>
    requires counts { IsValid s.now.counts }
    requires room { HasRoom b.old (sum_by (λ p. poly_size p + 6) s.now.fallback + 1 + s.now.counts.controls) }
    requires words { length s.now.fallback ≡ s.now.counts.controls }
    requires polys { SmallPolys s.now.fallback }
    requires homes { homes.now ≡ homes_of s.now.counts }
    ensures { OnOk result (Appends b.old b.new (fallback_code s.now)) }
{
    emit_words(alloc, b, s.fallback.get(), homes)?;
    push_act(alloc, b, s.counts, true, FALLBACK)
}

/// Takes and tests a choice; it or the fallback is actuated.
fn emit_choice(
    alloc: Global,
    b: &mut Builder,
    s: &Sandbox,
    homes: &[Home],
) -> Result<(), AllocError>
    requires counts { IsValid s.now.counts }
    requires room { HasRoom b.old (form_size (tree s.now.ctrl) + sum_by (λ p. poly_size p + 6) s.now.fallback + 2 * s.now.counts.controls + 12) }
    requires words { length s.now.fallback ≡ s.now.counts.controls }
    requires need { need (tree s.now.ctrl) ≤ 16 }
    requires small { IsSmall (tree s.now.ctrl) }
    requires polys { SmallPolys s.now.fallback }
    requires homes { homes.now ≡ homes_of s.now.counts }
    ensures { OnOk result (Appends b.old b.new (choice_code s.now)) }
{
    emit_test(alloc, b, s, homes)?;
    let chosen = b.label()?;
    let sense = b.label()?;
    b.push(Instr::Jge {
        a: WORK,
        b: TWO,
        t: chosen,
    })?;
    emit_fallback(alloc, b, s, homes)?;
    b.push(Instr::Jmp { t: sense })?;
    b.place(chosen);
    push_act(
        alloc,
        b,
        s.counts,
        false,
        Layout::of(s.counts).next_controls,
    )?;
    b.place(sense);
    Ok(())
}

/// All instructions of a sandbox. It answers the place where each round begins.
fn emit_rounds(
    alloc: Global,
    b: &mut Builder,
    s: &Sandbox,
    homes: &[Home],
) -> Result<u32, AllocError>
    requires fits { Fits s.now }
    requires short { instruction_bound s.now ≤ 65536 }
    requires homes { homes.now ≡ homes_of s.now.counts }
    requires empty { b.old ≡ record { counts = s.now.counts; pushed = []; places = [] } }
    ensures { IfOk result (λ head. IsWhole s.now head b.new) }
{
    emit_init(alloc, b, s, homes)?;
    let head = b.count();
    let start = b.label()?;
    b.place(start);
    emit_choice(alloc, b, s, homes)?;
    emit_sense(alloc, b, s, homes)?;
    b.push(Instr::Jmp { t: start })?;
    Ok(head)
}

/// The code of a sandbox.
pub(crate) fn build(alloc: Global, s: &Sandbox) -> Result<Code, AllocError>
    requires fits { Fits s.now }
    requires short { instruction_bound s.now ≤ 65536 }
    ensures { IfOk result (λ code. code ≡ code_of s.now) }
{
    let homes = homes(alloc, s.counts)?;
    let mut b = Builder::new(alloc, s.counts);
    let head = emit_rounds(alloc, &mut b, s, &homes)?;
    match b.finish(alloc, CELLS, head) {
        Ok(code) => Ok(code),
        Err(BuildErr::Memory) => Err(AllocError),
        Err(BuildErr::Unplaced { .. }) => unreachable!(),
    }
}
