//! The cases of a list of normal forms that all hold.
ghost use Rattle.std.specs.Prelude.{◌≡◌, ◌+◌, ◌-◌, ◌^◌, ◌<◌, ◌≤◌, ◌++◌, ◌∷◌, [], min, map, length, IfOk, IfErr, IsOk, OnOk};
ghost use Rattle.std.specs.List.{list_any};
ghost use Rattle.vp_poly.specs.Value.{Point};
ghost use Rattle.vp_logic.specs.Tree.{tree, trees, all_atoms, atoms_of, atoms_each};
ghost use Rattle.vp_logic.specs.Truth.{parts_hold};
ghost use Rattle.vp_logic.specs.Cases.{AreWithin, Refuses, all_cases_from, all_count, any_cases_from, any_count, case_count, case_holds, cases_from, joined, part_cases_from, part_count, lists};

use crate::{Norm, Norms};
use std::alloc::{AllocError, Global};

/// Why a list of parts is not split into its cases.
#[derive(Clone, Copy, Debug, PartialEq, Eq)]
pub enum CaseErr {
    /// There are more than 256 cases: their number, or 2^64 - 1 where it is greater.
    Many { count: u64 },
    /// There was too little memory for the cases.
    Memory,
}

impl From<AllocError> for CaseErr {
    ghost use Rattle.std.specs.Prelude.{◌≡◌};
    ghost use Rattle.vp_logic.specs.declared.splitting.CaseErr.TheVariants.{Memory};

    ghost from_gives = { λ _ e. e ≡ Memory };

    fn from(_error: AllocError) -> CaseErr {
        CaseErr::Memory
    }
}

// The most cases that are made.
const MOST_CASES: u64 = 256;

/// The cases of the conjunction of these parts, each as places in [`atoms`](crate::atoms): an atom
/// has one case, itself; an `Or` has those of its members in order; an `And`, and the list, has all
/// combinations, the last member varying fastest. All parts hold at a point exactly where all atoms
/// of some case do.
#[tactic(auto, using(crate::proofs::Choosing::splitting, crate::proofs::Bounding::cases_have_atoms))]
pub fn cases(alloc: Global, parts: &[Norm]) -> Result<Vec<Vec<u32>>, CaseErr>
    requires { length (all_atoms (map tree parts.now)) < 2 ^ 32 }
    ensures exact { IfOk result (λ v. lists v.items ≡ part_cases_from 0 (map tree parts.now)) }
    ensures places { IfOk result (λ v. AreWithin (length (all_atoms (map tree parts.now))) (lists v.items)) }
    ensures few { IsOk result → part_count (map tree parts.now) ≤ 256 }
    ensures many { IfErr result (Refuses (part_count (map tree parts.now))) }
    ensures holds { (x : Point) → IfOk result (λ v.
        list_any (case_holds (all_atoms (map tree parts.now)) x) (lists v.items) ≡
        parts_hold (map tree parts.now) x) }
{
    let count = count_of_parts(parts);
    if count > MOST_CASES {
        return Err(CaseErr::Many { count });
    }
    if count == 0 {
        return Ok(Vec::new(alloc));
    }
    let cases = split_parts(alloc, parts)?;
    Ok(cases)
}

// The number of cases of the parts, at most 2^64 - 1.
#[tactic(auto, using(crate::proofs::Counting::counting))]
fn count_of_parts(parts: &[Norm]) -> u64
    ensures { result ≡ min (part_count (map tree parts.now)) (2 ^ 64 - 1) }
{
    let mut count: u64 = 1;
    for part in parts {
        count = count.saturating_mul(count_of(part));
    }
    count
}

// The number of cases of a form, at most 2^64 - 1.
#[cycle(count)]
#[tactic(auto, using(crate::proofs::Counting::counting))]
fn count_of(norm: &Norm) -> u64
    ensures { result ≡ min (case_count (tree norm.now)) (2 ^ 64 - 1) }
{
    match norm {
        Norm::Atom(_) => 1,
        Norm::And(members) => count_of_all(members),
        Norm::Or(members) => count_of_any(members),
    }
}

#[cycle(count)]
#[tactic(auto, using(crate::proofs::Counting::counting))]
fn count_of_all(norms: &Norms) -> u64
    ensures { result ≡ min (all_count (trees norms.now)) (2 ^ 64 - 1) }
{
    match norms {
        Norms::End => 1,
        Norms::More(first, rest) => count_of(first).saturating_mul(count_of_all(rest)),
    }
}

#[cycle(count)]
#[tactic(auto, using(crate::proofs::Counting::counting))]
fn count_of_any(norms: &Norms) -> u64
    ensures { result ≡ min (any_count (trees norms.now)) (2 ^ 64 - 1) }
{
    match norms {
        Norms::End => 0,
        Norms::More(first, rest) => count_of(first).saturating_add(count_of_any(rest)),
    }
}

// The number of atoms of a form.
#[cycle(atoms)]
fn atom_count(norm: &Norm) -> u32
    requires { length (atoms_of (tree norm.now)) < 2 ^ 32 }
    ensures { result ≡ length (atoms_of (tree norm.now)) }
{
    match norm {
        Norm::Atom(_) => 1,
        Norm::And(members) | Norm::Or(members) => atom_count_of_each(members),
    }
}

#[cycle(atoms)]
fn atom_count_of_each(norms: &Norms) -> u32
    requires { length (atoms_each (trees norms.now)) < 2 ^ 32 }
    ensures { result ≡ length (atoms_each (trees norms.now)) }
{
    match norms {
        Norms::End => 0,
        Norms::More(first, rest) => atom_count(first) + atom_count_of_each(rest),
    }
}

// The cases of the parts.
#[tactic(auto, using(crate::proofs::Joining::parts))]
fn split_parts(alloc: Global, parts: &[Norm]) -> Result<Vec<Vec<u32>>, AllocError>
    requires { length (all_atoms (map tree parts.now)) < 2 ^ 32 }
    ensures { IfOk result (λ v. lists v.items ≡ part_cases_from 0 (map tree parts.now)) }
{
    let mut cases = no_choice(alloc)?;
    let mut first = 0;
    for part in parts {
        let more = split(alloc, part, first)?;
        cases = join(alloc, &cases, &more)?;
        first += atom_count(part);
    }
    Ok(cases)
}

// The cases of a form whose first atom has this place.
#[cycle(split)]
fn split(alloc: Global, norm: &Norm, first: u32) -> Result<Vec<Vec<u32>>, AllocError>
    requires { first + length (atoms_of (tree norm.now)) < 2 ^ 32 }
    ensures { IfOk result (λ v. lists v.items ≡ cases_from first (tree norm.now)) }
{
    match norm {
        Norm::Atom(_) => one_atom(alloc, first),
        Norm::And(members) => split_all(alloc, members, first),
        Norm::Or(members) => split_any(alloc, members, first),
    }
}

#[cycle(split)]
fn split_all(alloc: Global, norms: &Norms, first: u32) -> Result<Vec<Vec<u32>>, AllocError>
    requires { first + length (atoms_each (trees norms.now)) < 2 ^ 32 }
    ensures { IfOk result (λ v. lists v.items ≡ all_cases_from first (trees norms.now)) }
{
    // So no list is made for an `And` of which nothing is kept.
    if count_of_all(norms) == 0 {
        return Ok(Vec::new(alloc));
    }
    match norms {
        Norms::End => no_choice(alloc),
        Norms::More(one, rest) => {
            let heads = split(alloc, one, first)?;
            let tails = split_all(alloc, rest, first + atom_count(one))?;
            join(alloc, &heads, &tails)
        }
    }
}

#[cycle(split)]
fn split_any(alloc: Global, norms: &Norms, first: u32) -> Result<Vec<Vec<u32>>, AllocError>
    requires { first + length (atoms_each (trees norms.now)) < 2 ^ 32 }
    ensures { IfOk result (λ v. lists v.items ≡ any_cases_from first (trees norms.now)) }
{
    match norms {
        Norms::End => Ok(Vec::new(alloc)),
        Norms::More(one, rest) => {
            let mut cases = split(alloc, one, first)?;
            let mut more = split_any(alloc, rest, first + atom_count(one))?;
            cases.append(&mut more)?;
            Ok(cases)
        }
    }
}

// One case without atoms.
fn no_choice(alloc: Global) -> Result<Vec<Vec<u32>>, AllocError>
    ensures { IfOk result (λ v. lists v.items ≡ [] ∷ []) }
{
    let mut cases = Vec::new(alloc);
    cases.push(Vec::new(alloc))?;
    Ok(cases)
}

// One case of one atom.
fn one_atom(alloc: Global, place: u32) -> Result<Vec<Vec<u32>>, AllocError>
    ensures { IfOk result (λ v. lists v.items ≡ (place ∷ []) ∷ []) }
{
    let mut case = Vec::new(alloc);
    case.push(place)?;
    let mut cases = Vec::new(alloc);
    cases.push(case)?;
    Ok(cases)
}

// Each of the first cases with each of the second, the second varying faster.
#[tactic(auto, using(crate::proofs::Joining::joining))]
fn join(alloc: Global, heads: &[Vec<u32>], tails: &[Vec<u32>]) -> Result<Vec<Vec<u32>>, AllocError>
    ensures { IfOk result (λ v. lists v.items ≡ joined (lists heads.now) (lists tails.now)) }
{
    let mut cases = Vec::new(alloc);
    for head in heads {
        push_each(alloc, &mut cases, head, tails)?;
    }
    Ok(cases)
}

// One case with each of these.
#[tactic(auto, using(crate::proofs::Joining::joining))]
fn push_each(
    alloc: Global,
    cases: &mut Vec<Vec<u32>>,
    head: &[u32],
    tails: &[Vec<u32>],
) -> Result<(), AllocError>
    ensures { OnOk result (lists cases.new.items ≡ lists cases.old.items ++ map (λ d. head.now ++ d) (lists tails.now)) }
{
    for tail in tails {
        let mut case = Vec::from_slice(alloc, head)?;
        case.extend_from_slice(tail)?;
        cases.push(case)?;
    }
    Ok(())
}
