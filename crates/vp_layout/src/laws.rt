//! Laws of compiled code: the contracts of these functions say them. They speak of any code that has
//! its boxes at their homes and takes each record at its place, however it works out its formulas.
ghost use Rattle.std.specs.Prelude.{◌≡◌, ◌≢◌, ◌+◌, ◌*◌, ◌<◌, ◌≤◌, ◌++◌, ◌∷◌, ℕ, ℤ, Bool, List, [], length, map};
ghost use Rattle.vp_words.specs.declared.record.Kind.{Kind};
ghost use Rattle.vp_words.specs.Exchanges.{Agree};
ghost use Rattle.vp_words.specs.Record.{IsValid as AreCounts, field_count};
ghost use Rattle.vp_isa.specs.declared.code.Code.{Code};
ghost use Rattle.vp_isa.specs.declared.instr.Instr.TheVariants.{Jmp};
ghost use Rattle.vp_isa.specs.Answering.{machine_of};
ghost use Rattle.vp_isa.specs.Block.{HasAt, after};
ghost use Rattle.vp_isa.specs.Machine.{MachineState};
ghost use Rattle.vp_isa.specs.Valid.{IsValid};
ghost use Rattle.vp_interval.specs.Rounding.{Ends, product};
ghost use Rattle.vp_sandbox.specs.declared.sandbox.Sandbox.{Sandbox};
ghost use Rattle.vp_sandbox.specs.Answer.{sandbox_of};
ghost use Rattle.vp_sandbox.specs.Boxes.{boxes_of, first_state, placed};
ghost use Rattle.vp_layout.specs.Blocks.{act_code, copies, product_code, take_code};
ghost use Rattle.vp_layout.specs.Cells.{IsApart, LeavesUsing, StandAt};
ghost use Rattle.vp_layout.specs.declared.home.Home.{Home};
ghost use Rattle.vp_layout.specs.Homes.{box_at, next_control_cell, next_state_cell, state_cell};
ghost use Rattle.vp_layout.specs.Ties.{Acted, Keeping, Replies, RepliesToAll, Stands, Taken, Takes, accepted, standing};

use vp_isa::laws::{block_is_run, blocks_split, machine_stands, run_is_answer, runs_compose};

/// The code of a product leaves the product of the intervals of its two homes, which stand apart from
/// the cells that it writes.
pub fn products_are_computed()
    ensures { (c : List ℤ) (d t : ℕ) (v w : Home) →
        t ≢ d → t ≢ d + 1 → d + 1 < length c → t < length c →
        IsApart d t v → IsApart d t w → IsApart (d + 1) t v → IsApart (d + 1) t w →
        LeavesUsing d t (product (box_at c v) (box_at c w)) c (after (product_code d t v w) c) }
{}

/// Behind the TAKE of a record and the constants, the boxes over which the record is tested are at
/// home, and its words stand in its cells.
pub fn records_are_taken()
    ensures { (code : Code) (p : ℕ) (kind : Kind) (words : List ℤ) (boxes : List Ends) (m : MachineState) →
        AreCounts code.counts → 68 ≤ code.cells → length words ≡ field_count kind code.counts →
        HasAt code p (take_code code.counts kind) → Stands code p boxes m →
        Taken code p kind words boxes m }
{
    runs_compose();
    block_is_run();
    blocks_split();
}

/// The words of an act are reported, and become the controls.
pub fn acts_become_controls()
    ensures { (code : Code) (boxes : List Ends) (cells words : List ℤ) (p d : ℕ) (fallback : Bool) →
        AreCounts code.counts → length words ≡ code.counts.controls →
        next_control_cell code.counts ≤ d → d + code.counts.controls ≤ code.cells → 68 ≤ code.cells →
        Keeping code boxes cells → StandAt cells d words →
        HasAt code p (act_code code.counts fallback d) →
        Acted code boxes words fallback (standing cells p) (p + length (act_code code.counts fallback d)) }
{
    runs_compose();
    block_is_run();
    blocks_split();
}

/// At the end of a round the next states become the states, and a choice is due.
pub fn next_states_become_states()
    ensures { (code : Code) (sense : ℕ) (boxes : List Ends) (cells words : List ℤ) (p : ℕ) →
        AreCounts code.counts → Takes code sense → Keeping code boxes cells → 68 ≤ code.cells →
        length words ≡ 2 * code.counts.states → StandAt cells (next_state_cell code.counts) words →
        HasAt code p (copies (state_cell code.counts) (next_state_cell code.counts) (2 * code.counts.states) ++ Jmp code.head ∷ []) →
        Replies code sense (standing cells p)
        (accepted (placed (first_state code.counts) (boxes_of code.counts.states words) boxes)) }
{
    runs_compose();
    block_is_run();
    blocks_split();
}

/// Valid code that takes each record at its place, and replies to each as a sandbox does, agrees with
/// the sandbox.
pub fn codes_that_reply_agree()
    ensures { (s : Sandbox) (code : Code) (sense : ℕ) → IsValid code → Takes code sense →
        code.counts ≡ s.counts → RepliesToAll s code sense → Agree (machine_of code) (sandbox_of s) }
{
    run_is_answer();
    machine_stands();
}
