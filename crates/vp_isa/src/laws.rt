//! Laws of the machine: the contracts of these functions say them. Nothing that rests on them counts
//! steps.
ghost use Rattle.std.specs.Prelude.{◌≡◌, ◌+◌, ◌≤◌, ◌++◌, ◌&&◌, ◌↔◌, ℕ, ℤ, List, [], length, true, false, IsTrue, None, Some};
ghost use Rattle.vp_isa.specs.declared.instr.Instr.{Instr};
ghost use Rattle.vp_isa.specs.declared.code.Code.{Code};
ghost use Rattle.vp_words.specs.declared.record.Due.TheVariants.{Ended};
ghost use Rattle.vp_words.specs.Exchanges.{AreDue, state_after};
ghost use Rattle.vp_words.specs.Record.{is_violation};
ghost use Rattle.vp_isa.specs.Decoding.{decoded};
ghost use Rattle.vp_isa.specs.Encoding.{IsInstr, encoded};
ghost use Rattle.vp_isa.specs.Valid.{IsValid, refusal};
ghost use Rattle.vp_isa.specs.Machine.{MachineState, step, stopped, run_to_stop, answer, replied, fresh, due_of, HasDueCount, IsReady, IsStanding};
ghost use Rattle.vp_isa.specs.Answering.{machine_of};
ghost use Rattle.vp_isa.specs.Block.{are_plain, after, HasAt};
ghost use Rattle.vp_isa.specs.Runs.{Comes, ComesToStop, IsAtWork, IsWithin};

/// No two instructions have the same bytes, each has 12, and they are read back as that instruction.
pub fn bytes_are_one_instruction()
    ensures same { (i j : Instr) → IsInstr i → IsInstr j → encoded i ≡ encoded j → i ≡ j }
    ensures long { (i : Instr) → length (encoded i) ≡ 12 }
    ensures read { (i : Instr) → IsInstr i → decoded (encoded i) ≡ Some i }
{}

/// Where nothing is executed nothing changes, one step is a run, and a run after a run is a run.
pub fn runs_compose()
    ensures none { (code : Code) (m : MachineState) → Comes code m m }
    ensures one { (code : Code) (m : MachineState) → stopped code m ≡ false → Comes code m (step code [] m) }
    ensures both { (code : Code) (a b c : MachineState) → Comes code a b → Comes code b c → Comes code a c }
{}

/// A block takes the machine from its first place to the one behind it, with its effect on the cells.
pub fn block_is_run()
    ensures { (code : Code) (block : List Instr) (m : MachineState) → m.ended ≡ false →
        HasAt code m.place block → are_plain block ≡ true →
        Comes code m (record m { cells = after block m.cells; place = m.place + length block }) }
{}

/// A piece of the code stands where it is, and a block in two parts is one part after the other.
pub fn blocks_split()
    ensures piece { (code : Code) (before block behind : List Instr) →
        code.instrs ≡ before ++ (block ++ behind) → HasAt code (length before) block }
    ensures front { (code : Code) (p : ℕ) (a b : List Instr) → HasAt code p (a ++ b) → HasAt code p a }
    ensures back { (code : Code) (p : ℕ) (a b : List Instr) → HasAt code p (a ++ b) → HasAt code (p + length a) b }
    ensures after { (a b : List Instr) (c : List ℤ) → after (a ++ b) c ≡ after b (after a c) }
    ensures plain { (a b : List Instr) → are_plain (a ++ b) ≡ (are_plain a && are_plain b) }
{}

/// Code keeps the rules exactly where no rule refuses it.
pub fn rules_are_exact()
    ensures { (code : Code) → IsValid code ↔ (refusal code ≡ None) }
{}

/// Code that keeps the rules has stopped after as many steps as it has instructions.
pub fn run_stops()
    ensures { (code : Code) (m : MachineState) → IsValid code → IsWithin code m →
        stopped code (run_to_stop code (length code.instrs) m) ≡ true }
{}

/// Where a machine comes to a stop after it took a record, that is its answer. It has executed at most
/// as many instructions as its code has.
pub fn run_is_answer()
    ensures reply { (code : Code) (words : List ℤ) (m n : MachineState) → IsReady code m →
        ComesToStop code (step code words m) n → (answer code words m).reply ≡ n.reply }
    ensures next { (code : Code) (words : List ℤ) (m n : MachineState) → IsReady code m →
        ComesToStop code (step code words m) n → (answer code words m).next ≡ replied n }
    ensures ran { (code : Code) (words : List ℤ) (m : MachineState) → IsReady code m →
        (answer code words m).ran ≤ length code.instrs }
{}

/// A new machine stands at its first TAKE, and after each answer it stands again or is ended, and so after
/// any records that were due, each in its turn. Nothing is due exactly where it is ended.
pub fn machine_stands()
    ensures new { (code : Code) → IsValid code → IsStanding code (fresh code) }
    ensures next { (code : Code) (words : List ℤ) (m : MachineState) → IsReady code m →
        HasDueCount code m words → IsStanding code (answer code words m).next }
    ensures after { (code : Code) (records : List (List ℤ)) → IsValid code →
        AreDue (machine_of code) (fresh code) records →
        IsStanding code (state_after (machine_of code) (fresh code) records) }
    ensures ended { (code : Code) (m : MachineState) → IsStanding code m →
        (due_of code m ≡ Ended) ↔ (m.ended ≡ true) }
{}

/// From its TAKE on to its next stop a machine has all its cells, stands in the code until it is ended,
/// and is ended exactly where its reply is a violation: after the TAKE, after any number of steps, and
/// wherever it comes.
pub fn machine_keeps_to_its_code()
    ensures took { (code : Code) (words : List ℤ) (m : MachineState) → IsReady code m →
        HasDueCount code m words → IsAtWork code (step code words m) }
    ensures steps { (code : Code) (count : ℕ) (m : MachineState) → IsValid code → IsAtWork code m →
        IsAtWork code (run_to_stop code count m) }
    ensures comes { (code : Code) (m n : MachineState) → IsValid code → IsAtWork code m →
        Comes code m n → IsAtWork code n }
{}

/// An answer ends the machine exactly where its reply is a violation, and then nothing is due.
pub fn violations_end()
    ensures ended { (code : Code) (words : List ℤ) (m : MachineState) → IsReady code m →
        (answer code words m).next.ended ≡ is_violation (answer code words m).reply }
    ensures due { (code : Code) (words : List ℤ) (m : MachineState) → IsReady code m →
        HasDueCount code m words →
        (due_of code (answer code words m).next ≡ Ended) ↔ IsTrue (is_violation (answer code words m).reply) }
{}
