//! The certificates of a package against the cases of its obligations.
ghost use Rattle.std.specs.Prelude.{◌≡◌, ◌≢◌, ◌≤◌, ◌++◌, All, drop, length, IfErr, IfOk, List, OnOk};
ghost use Rattle.vp_words.specs.Record.{IsValid};
ghost use Rattle.vp_poly.specs.Places.{places_for};
ghost use Rattle.vp_poly.specs.Value.{Point};
ghost use Rattle.vp_synth.specs.Certifying.{Certifies, NumberedCase, RefusesCerts, all_cases, cases_of, refused};
ghost use Rattle.vp_synth.specs.Going.{IsGoodCert, IsSplit, LeadsTo, NeverHold};

use crate::Refusal;
use std::alloc::Global;
use vp_cert::{CertErr, CertWhy, refutes};
use vp_monitor::Obligation;
use vp_terms::{Cert, Part};
use vp_words::Counts;

/// Whether the certificates stand one for one with the cases, in order, and refute them.
pub(crate) fn certify(
    alloc: Global,
    obligations: &[Obligation],
    certs: &[Cert],
    counts: Counts,
) -> Result<(), Refusal>
    requires counts { IsValid counts }
    requires split { All IsSplit obligations.now }
    requires certs { All (IsGoodCert (places_for counts)) certs.now }
    ensures certifies { OnOk result (Certifies (places_for counts) (all_cases obligations.now) certs.now) }
    ensures refused { IfErr result (λ r. r ≢ Refusal.Memory →
        RefusesCerts (places_for counts) (all_cases obligations.now) certs.now r) }
    ensures sound { OnOk result ((x : Point) → NeverHold x (all_cases obligations.now)) }
{
    let mut left = certs;
    for obligation in obligations {
        left = certify_cases(alloc, obligation, left, counts)?;
    }
    match left {
        [] => Ok(()),
        [_, ..] => Err(Refusal::Extra),
    }
}

// The certificates behind those of one obligation.
fn certify_cases<'a>(
    alloc: Global,
    obligation: &Obligation,
    certs: &'a [Cert],
    counts: Counts,
) -> Result<&'a [Cert], Refusal>
    requires counts { IsValid counts }
    requires split { IsSplit obligation.now }
    requires certs { All (IsGoodCert (places_for counts)) certs.now }
    ensures leads { (ds : List NumberedCase) → IfOk result (λ left.
        LeadsTo (places_for counts) (cases_of obligation.now ++ ds) certs.now ds left.now) }
    ensures certs { IfOk result (λ left. All (IsGoodCert (places_for counts)) left.now) }
    ensures refused { (ds : List NumberedCase) → IfErr result (λ r. r ≢ Refusal.Memory →
        RefusesCerts (places_for counts) (cases_of obligation.now ++ ds) certs.now r) }
{
    let mut left = certs;
    let mut number: u32 = 1;
    for case in obligation.cases.get() {
        let [cert, ..] = left else {
            return Err(missing(obligation.part, number));
        };
        if cert.part != obligation.part || cert.number != number {
            return Err(missing(obligation.part, number));
        }
        if let Err(error) = refutes(alloc, obligation.atoms.get(), case, cert, counts) {
            return Err(wrong(obligation.part, number, error));
        }
        left = behind(left);
        number += 1;
    }
    Ok(left)
}

// All but the first.
fn behind(certs: &[Cert]) -> &[Cert]
    requires { 1 ≤ length certs.now }
    ensures { result.now ≡ drop 1 certs.now }
{
    &certs[1..]
}

fn missing(part: Part, number: u32) -> Refusal
    ensures { result ≡ Refusal.Cert part number CertWhy.Missing }
{
    Refusal::Cert {
        part,
        number,
        why: CertWhy::Missing,
    }
}

fn wrong(part: Part, number: u32, error: CertErr) -> Refusal
    ensures { result ≡ refused part number error }
{
    match error {
        CertErr::Memory => Refusal::Memory,
        error => Refusal::Cert {
            part,
            number,
            why: CertWhy::Wrong(error),
        },
    }
}
