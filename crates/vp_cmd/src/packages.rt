//! What is made of the text of a package: it is accepted, prepared, or compiled to an image.
ghost use Rattle.std.specs.Prelude.{◌≢◌, ◌≤◌, IfErr, IfOk, IsOk, length};
ghost use Rattle.vp_sandbox.specs.Fits.{Fits};
ghost use Rattle.vp_sandbox.specs.declared.sandbox.Sandbox.{Sandbox};
ghost use Rattle.vp_synth.specs.Accepting.{AreMadeOf};
ghost use Rattle.vp_synth.specs.Stages.{Certified, Passes, Split};
ghost use Rattle.vp_terms.specs.declared.package.Package.{Package};
ghost use Rattle.vp_cmd.specs.Clauses.{IsProved, IsProvedText};
ghost use Rattle.vp_cmd.specs.Dues.{IsListed, IsSizeRefusal, OfText, package_limit};
ghost use Rattle.vp_cmd.specs.Images.{HasRoom, IsGuarded, IsImageOf, IsSandboxFor, RunsAs};
ghost use Rattle.vp_cmd.specs.Outcomes.{done};
ghost use Rattle.vp_cmd.specs.Steps.{Halts, IsOversized, IsUnrefused};

use crate::laws::codes_run_as_sandboxes;
use crate::opening::Halt;
use crate::refusal::{bad_package, bad_size};
use sha2::{Digest, Sha256};
use std::alloc::Global;
use vp_gen::{GenErr, compile};
use vp_history::laws::{false_reports_deny_histories, histories_are_allowed, reports_are_right};
use vp_image::write_image;
use vp_isa::Checked;
use vp_sandbox::Sandbox;
use vp_synth::{Prepared, accept, list, prepare};

/// Accepts a package by its text.
fn accepted(alloc: Global, text: &[u8]) -> Result<Prepared, Halt>
    requires { length text.now ≤ package_limit }
    ensures opened { IfOk result (λ p. Passes Certified text.now p.package) }
    ensures made { IfOk result (λ p. AreMadeOf p.package p.obligations p.sandbox) }
    ensures fits { IfOk result (λ p. Fits p.sandbox) }
    ensures proved { IfOk result (λ p. IsProved p.package) }
    ensures guarded { IfOk result (λ p. IsGuarded p.package p.sandbox) }
    ensures halted { IfErr result (Halts (OfText Certified IsUnrefused text.now)) }
    ensures no_load { IfErr result (λ halt. halt ≢ Halt.StoreFault) }
{
    histories_are_allowed();
    false_reports_deny_histories();
    reports_are_right();
    match accept(alloc, text) {
        Ok(prepared) => Ok(prepared),
        Err(why) => Err(Halt::Due(bad_package(alloc, text, why)?)),
    }
}

/// Accepts a package by its text, and lets go of what was made of it.
pub(crate) fn check_text(alloc: Global, text: &[u8]) -> Result<(), Halt>
    requires { length text.now ≤ package_limit }
    ensures proved { IsOk result → IsProvedText text.now }
    ensures halted { IfErr result (Halts (OfText Certified IsUnrefused text.now)) }
    ensures no_load { IfErr result (λ halt. halt ≢ Halt.StoreFault) }
{
    let _prepared = accepted(alloc, text)?;
    Ok(())
}

/// Prepares a package by its text, whose certificates aren't asked.
fn prepared(alloc: Global, text: &[u8]) -> Result<Prepared, Halt>
    requires { length text.now ≤ package_limit }
    ensures opened { IfOk result (λ p. Passes Split text.now p.package) }
    ensures made { IfOk result (λ p. AreMadeOf p.package p.obligations p.sandbox) }
    ensures halted { IfErr result (Halts (OfText Split IsUnrefused text.now)) }
    ensures no_load { IfErr result (λ halt. halt ≢ Halt.StoreFault) }
{
    match prepare(alloc, text) {
        Ok(prepared) => Ok(prepared),
        Err(why) => Err(Halt::Due(bad_package(alloc, text, why)?)),
    }
}

/// The listing of a package, by its text.
pub(crate) fn listed(alloc: Global, text: &[u8]) -> Result<Vec<u8>, Halt>
    requires { length text.now ≤ package_limit }
    ensures listed { IfOk result (λ lines. (pkg : Package) × Passes Split text.now pkg × IsListed text.now pkg (done lines.items)) }
    ensures halted { IfErr result (Halts (OfText Split IsUnrefused text.now)) }
    ensures no_load { IfErr result (λ halt. halt ≢ Halt.StoreFault) }
{
    let prepared = prepared(alloc, text)?;
    Ok(list(alloc, &prepared)?)
}

/// The code of a sandbox, unless one of its sizes passes its limit.
fn code_of(alloc: Global, sandbox: &Sandbox) -> Result<Checked, Halt>
    requires { Fits sandbox.now }
    ensures runs { IfOk result (λ code. RunsAs code sandbox.now) }
    ensures room { IfOk result (λ code. HasRoom sandbox.now) }
    ensures halted { IfErr result (Halts (IsSizeRefusal sandbox.now)) }
    ensures no_load { IfErr result (λ halt. halt ≢ Halt.StoreFault) }
{
    codes_run_as_sandboxes();
    match compile(alloc, sandbox) {
        Ok(code) => Ok(code),
        Err(GenErr::Memory) => Err(Halt::WantOfMemory),
        Err(why) => Err(Halt::Due(bad_size(alloc, why)?)),
    }
}

/// The image of the code of a sandbox, with the digest of its package's text.
fn image_with(alloc: Global, text: &[u8], sandbox: &Sandbox) -> Result<Vec<u8>, Halt>
    requires { Fits sandbox.now }
    ensures made { IfOk result (λ bytes. IsImageOf text.now sandbox.now bytes.items) }
    ensures room { IfOk result (λ bytes. HasRoom sandbox.now) }
    ensures halted { IfErr result (Halts (IsSizeRefusal sandbox.now)) }
    ensures no_load { IfErr result (λ halt. halt ≢ Halt.StoreFault) }
{
    let checked = code_of(alloc, sandbox)?;
    let _code = checked.code();
    let digest = Sha256::digest(text);
    let image = write_image(alloc, &checked, &digest)?;
    Ok(image)
}

/// The image of a package, by its text.
pub(crate) fn image_of(alloc: Global, text: &[u8]) -> Result<Vec<u8>, Halt>
    requires { length text.now ≤ package_limit }
    ensures made { IfOk result (λ bytes. (s : Sandbox) × IsSandboxFor text.now s × IsImageOf text.now s bytes.items) }
    ensures halted { IfErr result (Halts (OfText Certified IsOversized text.now)) }
    ensures no_load { IfErr result (λ halt. halt ≢ Halt.StoreFault) }
{
    let prepared = accepted(alloc, text)?;
    image_with(alloc, text, &prepared.sandbox)
}
