//! How the obligations of a package are made.
ghost use Rattle.std.specs.Prelude.{◌≡◌, ◌<◌, ◌≤◌, ◌^◌, ◌∷◌, [], All, IfErr, IfOk, IsOk, length, map};
ghost use Rattle.vp_terms.specs.Model.{Claim, IsInductive, model_of};
ghost use Rattle.vp_terms.specs.Places.{place_count};
ghost use Rattle.vp_terms.specs.Plant.{Flow};
ghost use Rattle.vp_terms.specs.WellFormed.{IsWellFormed};
ghost use Rattle.vp_poly.specs.Places.{places_for};
ghost use Rattle.vp_logic.specs.Cases.{AreWithin, lists, part_count};
ghost use Rattle.vp_logic.specs.Sized.{EachIsSized, IsSizedAtom};
ghost use Rattle.vp_logic.specs.Tree.{all_atoms, tree};
ghost use Rattle.vp_monitor.specs.Meaning.{AreSized, Mean};
ghost use Rattle.vp_monitor.specs.Monitors.{AreMonitors};
ghost use Rattle.vp_monitor.specs.Obligations.{AreNeverMet, AreObligations, HasFewCases, HasSmallAtoms, IsObligation, RefusesCases, TellsCases};
ghost use Rattle.vp_monitor.specs.Refusals.{Passes};

use crate::laws::unmet_obligations_make_invariants_inductive;
use crate::parts::{fallback_parts, init_parts, safe_parts, step_parts};
use crate::{MonErr, Monitors, Obligation};
use std::alloc::{AllocError, Global};
use vp_ctrl::laws::{paths_are_bounded, ways_are_counted};
use vp_logic::laws::{cases_split_parts, conjuncts_stay_small, normal_forms_have_few_atoms};
use vp_logic::{CaseErr, Norm, atoms, cases};
use vp_terms::laws::inductive_models_keep_their_claim;
use vp_terms::{Items, Package, Part};

/// The four obligations of a package with these monitors, in the order Init, Safe, Step and Fallback.
/// Where no case of any can be met, the invariant is inductive, and the model keeps its claim. The
/// rules stand in `docs/monitors.md`.
pub fn obligations(alloc: Global, pkg: &Package, m: &Monitors) -> Result<Vec<Obligation>, MonErr>
    requires good { IsWellFormed pkg.now }
    requires monitors { AreMonitors pkg.now m.now }
    requires passes { Passes pkg.now }
    requires sized { AreSized m.now }

    ensures exact { IfOk result (λ v. AreObligations pkg.now m.now v.items) }

    // A refusal comes exactly where an obligation has more than 256 cases.
    ensures few { IfOk result (λ v. All HasFewCases v.items) }
    ensures refused { IfErr result (RefusesCases pkg.now m.now) }

    // Where no case of any obligation can be met, the invariant is inductive, and each sampled run of
    // the model is safe.
    ensures inductive { (flow : Flow) → Mean flow pkg.now m.now →
        IfOk result (λ v. AreNeverMet v.items → IsInductive (model_of flow pkg.now)) }
    ensures claim { (flow : Flow) → Mean flow pkg.now m.now →
        IfOk result (λ v. AreNeverMet v.items → Claim (model_of flow pkg.now)) }

    // Each polynomial is small, and each place in a case is that of an atom.
    ensures atoms { IfOk result (λ v. All (HasSmallAtoms (place_count (places_for m.now.counts))) v.items) }
{
    unmet_obligations_make_invariants_inductive();
    inductive_models_keep_their_claim();
    normal_forms_have_few_atoms();
    paths_are_bounded();
    ways_are_counted();
    cases_split_parts();
    conjuncts_stay_small();
    let of_init = init_parts(alloc, m)?;
    let of_safe = safe_parts(alloc, m)?;
    let of_step = step_parts(alloc, m)?;
    let of_fallback = fallback_parts(alloc, pkg, m)?;
    let init = obligation(alloc, Part::Init, of_init)?;
    let safe = obligation(alloc, Part::Safe, of_safe)?;
    let step = obligation(alloc, Part::Step, of_step)?;
    let fallback = obligation(alloc, Part::Fallback, of_fallback)?;
    let all = in_order(alloc, init, safe, step, fallback)?;
    Ok(all)
}

// The four, in this order.
fn in_order(
    alloc: Global,
    init: Obligation,
    safe: Obligation,
    step: Obligation,
    fallback: Obligation,
) -> Result<Vec<Obligation>, AllocError>
    ensures { IfOk result (λ v. v.items ≡ init ∷ safe ∷ step ∷ fallback ∷ []) }
{
    let mut all = Vec::new(alloc);
    all.push(init)?;
    all.push(safe)?;
    all.push(step)?;
    all.push(fallback)?;
    Ok(all)
}

// The obligation of these parts.
fn obligation(alloc: Global, part: Part, parts: Vec<Norm>) -> Result<Obligation, MonErr>
    requires { length (all_atoms (map tree parts.items)) < 2 ^ 32 }
    ensures exact { IfOk result (IsObligation part (map tree parts.items)) }
    ensures few { IsOk result → part_count (map tree parts.items) ≤ 256 }
    ensures refused { IfErr result (TellsCases part (map tree parts.items)) }
{
    match cases(alloc, &parts) {
        Ok(cases) => {
            let atoms = atoms(alloc, &parts)?;
            Ok(Obligation {
                part,
                atoms: Items::of(atoms),
                cases: Items::of(cases),
            })
        }
        Err(CaseErr::Many { count }) => Err(MonErr::Cases { part, count }),
        Err(CaseErr::Memory) => Err(MonErr::Memory),
    }
}
