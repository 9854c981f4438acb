//! Which texts are accepted.
ghost use Rattle.std.specs.Prelude.{◌≢◌, ◌≤◌, All, IfErr, IfOk, IsOk, length};
ghost use Rattle.vp_terms.specs.Model.{Claim, IsInductive, model_of};
ghost use Rattle.vp_terms.specs.Plant.{Flow};
ghost use Rattle.vp_terms.specs.WellFormed.{IsWellFormed};
ghost use Rattle.vp_history.specs.Means.{Means};
ghost use Rattle.vp_monitor.specs.Flowing.{IsExactFlow};
ghost use Rattle.vp_monitor.specs.Obligations.{AreNeverMet};
ghost use Rattle.vp_poly.specs.Places.{places_for};
ghost use Rattle.vp_read.specs.Reading.{IsPackage};
ghost use Rattle.vp_sandbox.specs.Fits.{Fits};
ghost use Rattle.vp_synth.specs.Accepting.{AreMadeOf};
ghost use Rattle.vp_synth.specs.Going.{IsGoodCert, IsSplit};
ghost use Rattle.vp_synth.specs.Stages.{Certified, IsRefused, Passes, RefusesPackage, Split};

use crate::certifying::certify;
use crate::sandbox::sandbox_from;
use crate::{Prepared, Refusal};
use std::alloc::Global;
use vp_logic::laws::{conjuncts_stay_small, forms_keep_their_meaning};
use vp_monitor::laws::monitors_have_few_conjuncts;
use vp_monitor::{MonErr, Obligation, monitors, obligations};
use vp_read::read_package;
use vp_sandbox::Sandbox;
use vp_terms::laws::inductive_models_keep_their_claim;
use vp_terms::{Items, Package};

// The obligations and the sandbox of a package.
fn parts_of(alloc: Global, pkg: &Package) -> Result<(Items<Obligation>, Sandbox), MonErr>
    requires { IsWellFormed pkg.now }
    ensures made { IfOk result (λ r. AreMadeOf pkg.now r.0 r.1) }
    ensures split { IfOk result (λ r. All IsSplit r.0) }
    ensures refused { IfErr result (RefusesPackage pkg.now) }
    ensures fits { IfOk result (λ r. Fits r.1) }
    ensures flow { IsOk result → (flow : Flow) × IsExactFlow pkg.now flow }
    ensures means { (flow : Flow) → IsExactFlow pkg.now flow → IfOk result (λ r.
        Means r.1 (model_of flow pkg.now)) }
    ensures inductive { (flow : Flow) → IsExactFlow pkg.now flow → IfOk result (λ r.
        AreNeverMet r.0 → IsInductive (model_of flow pkg.now)) }
{
    conjuncts_stay_small();
    forms_keep_their_meaning();
    monitors_have_few_conjuncts();
    let monitors = monitors(alloc, pkg)?;
    let obligations = obligations(alloc, pkg, &monitors)?;
    let sandbox = sandbox_from(alloc, monitors)?;
    Ok((Items::of(obligations), sandbox))
}

// The package that a text is, with what is made of it.
fn made(alloc: Global, text: &[u8]) -> Result<Prepared, Refusal>
    requires { length text.now ≤ 1048576 }
    ensures package { IfOk result (λ p. IsPackage text.now p.package) }
    ensures made { IfOk result (λ p. AreMadeOf p.package p.obligations p.sandbox) }
    ensures split { IfOk result (λ p. All IsSplit p.obligations) }
    ensures certs { IfOk result (λ p. All (IsGoodCert (places_for p.sandbox.counts)) p.package.certs) }
    ensures refused { IfErr result (λ r. r ≢ Refusal.Memory → IsRefused Split text.now r) }
    ensures fits { IfOk result (λ p. Fits p.sandbox) }
    ensures flow { IfOk result (λ p. (flow : Flow) × IsExactFlow p.package flow) }
    ensures means { (flow : Flow) → IfOk result (λ p. IsExactFlow p.package flow →
        Means p.sandbox (model_of flow p.package)) }
    ensures inductive { (flow : Flow) → IfOk result (λ p. IsExactFlow p.package flow →
        AreNeverMet p.obligations → IsInductive (model_of flow p.package)) }
{
    let package = read_package(alloc, text)?;
    let (obligations, sandbox) = parts_of(alloc, &package)?;
    Ok(Prepared {
        package,
        obligations,
        sandbox,
    })
}

/// Reads a text of at most 1,048,576 bytes as a package, and makes its obligations and its sandbox; or tells
/// the first condition that refuses it, up to the number of cases. Its certificates are not asked. The
/// conditions and their order stand in `docs/acceptance.md`.
pub fn prepare(alloc: Global, text: &[u8]) -> Result<Prepared, Refusal>
    requires { length text.now ≤ 1048576 }
    ensures passes { IfOk result (λ p. Passes Split text.now p.package) }
    ensures made { IfOk result (λ p. AreMadeOf p.package p.obligations p.sandbox) }
    ensures refused { IfErr result (λ r. r ≢ Refusal.Memory → IsRefused Split text.now r) }

    // The sandbox can be run, and its parts mean those of the package's model, whose plant has a flow.
    ensures fits { IfOk result (λ p. Fits p.sandbox) }
    ensures flow { IfOk result (λ p. (flow : Flow) × IsExactFlow p.package flow) }
    ensures means { (flow : Flow) → IfOk result (λ p. IsExactFlow p.package flow →
        Means p.sandbox (model_of flow p.package)) }
{
    made(alloc, text)
}

/// Accepts a text of at most 1,048,576 bytes as a package whose certificates stand one for one with the cases
/// of its obligations and refute them; or tells the first condition that refuses it. The invariant of an
/// accepted package is inductive, and its model keeps its claim. The conditions and their order stand in
/// `docs/acceptance.md`.
pub fn accept(alloc: Global, text: &[u8]) -> Result<Prepared, Refusal>
    requires { length text.now ≤ 1048576 }
    ensures passes { IfOk result (λ p. Passes Certified text.now p.package) }
    ensures made { IfOk result (λ p. AreMadeOf p.package p.obligations p.sandbox) }
    ensures refused { IfErr result (λ r. r ≢ Refusal.Memory → IsRefused Certified text.now r) }

    // The sandbox can be run, and its parts mean those of the package's model, whose plant has a flow.
    ensures fits { IfOk result (λ p. Fits p.sandbox) }
    ensures flow { IfOk result (λ p. (flow : Flow) × IsExactFlow p.package flow) }
    ensures means { (flow : Flow) → IfOk result (λ p. IsExactFlow p.package flow →
        Means p.sandbox (model_of flow p.package)) }

    // What the certificates show.
    ensures inductive { (flow : Flow) → IfOk result (λ p. IsExactFlow p.package flow →
        IsInductive (model_of flow p.package)) }
    ensures claim { (flow : Flow) → IfOk result (λ p. IsExactFlow p.package flow →
        Claim (model_of flow p.package)) }
{
    inductive_models_keep_their_claim();
    let prepared = made(alloc, text)?;
    certify(
        alloc,
        prepared.obligations.get(),
        prepared.package.certs.get(),
        prepared.sandbox.counts,
    )?;
    Ok(prepared)
}
