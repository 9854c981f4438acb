//! The targets of jumps: labels, and then places.
ghost use Rattle.std.specs.Prelude.{◌≡◌, MatchResult, None, Some};
ghost use Rattle.vp_emit.specs.Targets.{with_target, with_place, place_of, lacking, resolved, unplaced};

use vp_isa::Instr;

/// The jump with another target.
fn retarget(instr: Instr, t: u32) -> Instr
    ensures { result ≡ with_target instr t }
{
    match instr {
        Instr::Jmp { .. } => Instr::Jmp { t },
        Instr::Jge { a, b, .. } => Instr::Jge { a, b, t },
        Instr::Jgt { a, b, .. } => Instr::Jgt { a, b, t },
        Instr::Jeq { a, b, .. } => Instr::Jeq { a, b, t },
        other => other,
    }
}

/// The place of a label, if the label was made and has one.
fn place_of_label(places: &[Option<u32>], label: u32) -> Option<u32>
    ensures { result ≡ place_of places.now label }
{
    places.get(label as usize).copied().flatten()
}

/// The jump to the place of its label, or the label if it has none.
fn resolve_label(places: &[Option<u32>], label: u32, instr: Instr) -> Result<Instr, u32>
    ensures { MatchResult result (λ i. (lacking label (place_of places.now label) ≡ None) × (i ≡ with_place instr (place_of places.now label))) (λ l. lacking label (place_of places.now label) ≡ Some l) }
{
    match place_of_label(places, label) {
        Some(place) => Ok(retarget(instr, place)),
        None => Err(label),
    }
}

/// The instruction with the place of its label, or the label that has none.
pub(crate) fn resolve(places: &[Option<u32>], instr: &Instr) -> Result<Instr, u32>
    ensures { MatchResult result (λ i. (unplaced places.now instr.now ≡ None) × (i ≡ resolved places.now instr.now)) (λ l. unplaced places.now instr.now ≡ Some l) }
{
    match instr.target() {
        None => Ok(*instr),
        Some(label) => resolve_label(places, label, *instr),
    }
}
