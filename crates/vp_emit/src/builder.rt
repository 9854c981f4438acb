//! The builder. The rules stand in `docs/generation.md`.
ghost use Rattle.std.specs.Prelude.{◌≡◌, ◌+◌, ◌-◌, ◌<◌, ◌^◌, ◌++◌, ◌∷◌, [], length, map, slice_get, slice_set, None, Some, MatchResult, OnOk};
ghost use Rattle.vp_emit.specs.Targets.{resolved, first_unplaced};
ghost use Rattle.vp_emit.specs.Finished.{Finishes, Fails};

use crate::target::resolve;
use std::alloc::{AllocError, Global};
use std::marker::Model;
use thiserror::Error;
use vp_isa::{Code, Instr, Instrs};
use vp_words::Counts;

/// Why no code was made.
#[derive(Clone, Copy, Debug, PartialEq, Eq, Error)]
pub enum BuildErr {
    /// An instruction uses this label, which has no place. Of several it is the one that the
    /// earliest instruction uses.
    #[error("unplaced {label}")]
    Unplaced { label: u32 },
    /// There was no memory.
    #[error("memory")]
    Memory,
}

/// Code in the making: the instructions that were pushed, and the labels with their places so far. The
/// target of a pushed jump is a label.
#[derive(Drop)]
pub struct Builder {
    counts: Counts,
    instrs: Vec<Instr>,
    places: Vec<Option<u32>>,
}

impl Model for Builder {
    ghost use Rattle.std.specs.Prelude.{◌<◌, ◌^◌, length};
    ghost use Rattle.vp_emit.specs.Draft.{Draft};

    ghost Value = { Draft };

    ghost view = { λ b. record { counts = b.counts; pushed = b.instrs.items; places = b.places.items } };

    ghost invariant = { λ b. (length b.instrs.items < 2 ^ 32) × (length b.places.items < 2 ^ 32) };
}

impl Builder {
    /// A builder of code with these counts, without an instruction or a label. It takes no memory.
    pub fn new(alloc: Global, counts: Counts) -> Builder
        ensures { result ≡ record { counts = counts; pushed = []; places = [] } }
    {
        Builder {
            counts,
            instrs: Vec::new(alloc),
            places: Vec::new(alloc),
        }
    }

    /// How many instructions were pushed, which is the place of the next one.
    pub fn count(&self) -> u32
        ensures { result ≡ length self.now.pushed }
    {
        self.instrs.len() as u32
    }

    /// Appends an instruction. The target of a jump is a label, which may be made later.
    pub fn push(&mut self, i: Instr) -> Result<(), AllocError>
        requires { length self.old.pushed < 2 ^ 32 - 1 }
        ensures { MatchResult result (λ _. self.new ≡ record self.old { pushed = self.old.pushed ++ i ∷ [] }) (λ _. self.new ≡ self.old) }
    {
        self.instrs.push(i)?;
        Ok(())
    }

    /// Makes a label. Labels are numbered from 0, in the order in which they are made.
    pub fn label(&mut self) -> Result<u32, AllocError>
        requires { length self.old.places < 2 ^ 32 - 1 }
        ensures label { MatchResult result (λ l. l ≡ length self.old.places) (λ _. self.new ≡ self.old) }
        ensures state { MatchResult result (λ _. self.new ≡ record self.old { places = self.old.places ++ None ∷ [] }) (λ _. self.new ≡ self.old) }
    {
        let label = self.places.len() as u32;
        self.places.push(None)?;
        Ok(label)
    }

    /// Gives a label the place of the next pushed instruction.
    pub fn place(&mut self, label: u32)
        requires { slice_get self.old.places label ≡ Some None }
        ensures { self.new ≡ record self.old { places = slice_set self.old.places label (Some (length self.old.pushed)) } }
    {
        self.places[label as usize] = Some(self.instrs.len() as u32);
    }

    /// The code of a machine with so many cells, whose head is the instruction at this place: what was
    /// pushed, each label replaced by its place.
    pub fn finish(self, alloc: Global, cells: u32, head: u32) -> Result<Code, BuildErr>
        requires { head < length self.pushed }
        ensures { Finishes self cells head result }
    {
        let instrs = resolve_all(alloc, &self.places, &self.instrs)?;
        Ok(Code {
            counts: self.counts,
            cells,
            head,
            instrs: Instrs::of(instrs),
        })
    }
}

impl From<AllocError> for BuildErr {
    ghost use Rattle.std.specs.Prelude.{◌≡◌};
    ghost use Rattle.vp_emit.specs.declared.builder.BuildErr.TheVariants.{Memory};

    ghost from_gives = { λ _ e. e ≡ Memory };

    fn from(_: AllocError) -> BuildErr {
        BuildErr::Memory
    }
}

/// The instructions with the places of their labels.
fn resolve_all(
    alloc: Global,
    places: &[Option<u32>],
    instrs: &[Instr],
) -> Result<Vec<Instr>, BuildErr>
    ensures { MatchResult result (λ v. (first_unplaced places.now instrs.now ≡ None) × (v.items ≡ map (resolved places.now) instrs.now)) (λ e. Fails (first_unplaced places.now instrs.now) e) }
{
    let mut out = Vec::new(alloc);
    for instr in instrs {
        match resolve(places, instr) {
            Ok(resolved) => append(&mut out, resolved)?,
            Err(label) => return Err(BuildErr::Unplaced { label }),
        }
    }
    Ok(out)
}

/// One more instruction.
fn append(out: &mut Vec<Instr>, instr: Instr) -> Result<(), AllocError>
    ensures { OnOk result (out.new.items ≡ out.old.items ++ instr ∷ []) }
{
    out.push(instr)?;
    Ok(())
}
