//! Laws of jumps and labels: the contracts of these functions say them, and their bodies do nothing.
ghost use Rattle.std.specs.Prelude.{◌≡◌, ◌++◌, ◌∷◌, ℕ, List, Option, None, Some, slice_get};
ghost use Rattle.vp_isa.specs.declared.instr.Instr.{Instr};
ghost use Rattle.vp_isa.specs.Valid.{target_of};
ghost use Rattle.vp_emit.specs.Targets.{with_target, unplaced, first_unplaced};

/// A jump with another target has that target, and is the same but for it.
pub fn only_targets_change()
    ensures target { (i : Instr) (t p : ℕ) → target_of i ≡ Some t → target_of (with_target i p) ≡ Some p }
    ensures own { (i : Instr) (t : ℕ) → target_of i ≡ Some t → with_target i t ≡ i }
    ensures again { (i : Instr) (p q : ℕ) → with_target (with_target i p) q ≡ with_target i q }
{}

/// The label that is told is that of the first instruction whose label has no place. Where none is
/// told, each label that is used has a place.
pub fn first_label_is_told()
    ensures first { (places : List (Option ℕ)) (before behind : List Instr) (i : Instr) (l : ℕ) →
        first_unplaced places before ≡ None → unplaced places i ≡ Some l →
        first_unplaced places (before ++ i ∷ behind) ≡ Some l }
    ensures none { (places : List (Option ℕ)) (before behind : List Instr) (i : Instr) (l : ℕ) →
        first_unplaced places (before ++ i ∷ behind) ≡ None → target_of i ≡ Some l →
        (p : ℕ) × (slice_get places l ≡ Some (Some p)) }
{}
