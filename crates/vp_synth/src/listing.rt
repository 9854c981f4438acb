//! The listing of a package. Its lines stand in `docs/acceptance.md`.
ghost use Rattle.std.specs.Prelude.{◌≡◌, ◌+◌, ◌≤◌, ◌<◌, ◌^◌, ◌++◌, All, codes, decimal, length, map, string_bytes, IfOk, OnOk};
ghost use Rattle.std.specs.List.{flat_map};
ghost use Rattle.vp_logic.specs.Cases.{AreWithin, lists};
ghost use Rattle.vp_logic.specs.Tree.{tree, trees};
ghost use Rattle.vp_sandbox.specs.Sizes.{cell_bound, instruction_bound, saturated};
ghost use Rattle.vp_synth.specs.Listing.{atom_line, case_lines, disjuncts_of, each_member, fallback_line, fallback_lines, form_line, form_lines, lines_of, listing, part_text, size_line};

use crate::Prepared;
use crate::printing::{push_atom, push_form, push_polynomial};
use crate::variables::variable_names;
use itoa::Buffer;
use std::alloc::{AllocError, Global};
use vp_ctrl::laws::{paths_are_bounded, ways_are_counted};
use vp_logic::laws::cases_split_parts;
use vp_logic::{Atom, Norm, Norms};
use vp_monitor::Obligation;
use vp_poly::Poly;
use vp_sandbox::{Sandbox, sizes};
use vp_terms::Part;

/// The listing of a package: a line for each conjunct of the init monitor, for each path of the controller,
/// for each conjunct of the plant monitor, for each control's fallback and for each atom of each case of the
/// obligations, and the sizes of its sandbox. The lines stand in `docs/acceptance.md`.
pub fn list(alloc: Global, p: &Prepared) -> Result<Vec<u8>, AllocError>
    ensures { IfOk result (λ text. text.items ≡
        listing p.now.package.names p.now.sandbox p.now.obligations) }
{
    ways_are_counted();
    paths_are_bounded();
    cases_split_parts();
    let names = variable_names(alloc, &p.package.names)?;
    let variables = names.get();
    let mut text = Vec::new(alloc);
    push_forms(variables, "init", p.sandbox.init.get(), &mut text)?;
    push_controller(variables, &p.sandbox.ctrl, &mut text)?;
    push_forms(variables, "plant", p.sandbox.plant.get(), &mut text)?;
    let controls = p.package.names.controls.get();
    push_fallback(variables, controls, p.sandbox.fallback.get(), &mut text)?;
    push_obligations(variables, p.obligations.get(), &mut text)?;
    push_sizes(&p.sandbox, &mut text)?;
    Ok(text)
}

// A number between two spaces.
fn push_number(number: usize, text: &mut Vec<u8>) -> Result<(), AllocError>
    ensures { OnOk result (text.new.items ≡ text.old.items ++ codes " " ++ decimal number ++ codes " ") }
{
    text.extend_from_slice(b" ")?;
    text.extend_from_slice(Buffer::new().format(number).as_bytes())?;
    text.extend_from_slice(b" ")
}

// The line of a form.
fn push_line(
    variables: &[String],
    kind: &str,
    number: usize,
    form: &Norm,
    text: &mut Vec<u8>,
) -> Result<(), AllocError>
    ensures { OnOk result (text.new.items ≡
        text.old.items ++ form_line (map string_bytes variables.now) kind.now number (tree form.now)) }
{
    text.extend_from_slice(kind.as_bytes())?;
    push_number(number, text)?;
    push_form(variables, form, text)?;
    text.extend_from_slice(b"\n")
}

// The lines of these forms, with numbers from 1.
fn push_forms(
    variables: &[String],
    kind: &str,
    forms: &[Norm],
    text: &mut Vec<u8>,
) -> Result<(), AllocError>
    ensures { OnOk result (text.new.items ≡
        text.old.items ++ form_lines (map string_bytes variables.now) kind.now 1 (map tree forms.now)) }
{
    for (k, form) in forms.iter().enumerate() {
        push_line(variables, kind, k + 1, form, text)?;
    }
    Ok(())
}

// The lines of the members of an `Or`, or of any other form alone.
fn push_controller(variables: &[String], form: &Norm, text: &mut Vec<u8>) -> Result<(), AllocError>
    requires few { length (disjuncts_of (tree form.now)) < 2 ^ 32 }
    ensures { OnOk result (text.new.items ≡ text.old.items ++
        form_lines (map string_bytes variables.now) (codes "ctrl") 1 (disjuncts_of (tree form.now))) }
{
    match form {
        Norm::Or(members) => push_paths(variables, members, 1, text),
        Norm::Atom(_) | Norm::And(_) => push_line(variables, "ctrl", 1, form, text),
    }
}

// The lines of these paths, with numbers from this one on.
fn push_paths(
    variables: &[String],
    members: &Norms,
    number: usize,
    text: &mut Vec<u8>,
) -> Result<(), AllocError>
    requires few { number + length (each_member (trees members.now)) ≤ 2 ^ 32 }
    ensures { OnOk result (text.new.items ≡ text.old.items ++
        form_lines (map string_bytes variables.now) (codes "ctrl") number (each_member (trees members.now))) }
{
    match members {
        Norms::End => Ok(()),
        Norms::More(first, rest) => {
            push_line(variables, "ctrl", number, first, text)?;
            push_paths(variables, rest, number + 1, text)
        }
    }
}

// The line of a control's fallback.
fn push_value(
    variables: &[String],
    name: &str,
    poly: &Poly,
    text: &mut Vec<u8>,
) -> Result<(), AllocError>
    ensures { OnOk result (text.new.items ≡
        text.old.items ++ fallback_line (map string_bytes variables.now) name.now poly.now) }
{
    text.extend_from_slice(b"fallback ")?;
    text.extend_from_slice(name.as_bytes())?;
    text.extend_from_slice(b" = ")?;
    push_polynomial(variables, poly, text)?;
    text.extend_from_slice(b"\n")
}

// The lines of the fallback.
fn push_fallback(
    variables: &[String],
    controls: &[String],
    polys: &[Poly],
    text: &mut Vec<u8>,
) -> Result<(), AllocError>
    ensures { OnOk result (text.new.items ≡ text.old.items ++
        fallback_lines (map string_bytes variables.now) (map string_bytes controls.now) polys.now) }
{
    for (name, poly) in controls.iter().zip(polys) {
        push_value(variables, name, poly, text)?;
    }
    Ok(())
}

/// The word for a part of the obligations: `init`, `safe`, `step` or `fallback`.
pub fn part_text(part: Part) -> &'static str
    ensures { result.now ≡ part_text part }
{
    match part {
        Part::Init => "init",
        Part::Safe => "safe",
        Part::Step => "step",
        Part::Fallback => "fallback",
    }
}

// The line of an atom of a case.
fn push_case_atom(
    variables: &[String],
    part: Part,
    number: usize,
    label: usize,
    atom: &Atom,
    text: &mut Vec<u8>,
) -> Result<(), AllocError>
    ensures { OnOk result (text.new.items ≡ text.old.items ++
        atom_line (map string_bytes variables.now) part number label atom.now) }
{
    text.extend_from_slice(b"case ")?;
    text.extend_from_slice(part_text(part).as_bytes())?;
    push_number(number, text)?;
    text.extend_from_slice(Buffer::new().format(label).as_bytes())?;
    text.extend_from_slice(b" ")?;
    push_atom(variables, atom, text)?;
    text.extend_from_slice(b"\n")
}

// The lines of a case.
fn push_case(
    variables: &[String],
    obligation: &Obligation,
    number: usize,
    case: &[u32],
    text: &mut Vec<u8>,
) -> Result<(), AllocError>
    requires { All (λ k. k < length obligation.now.atoms) case.now }
    ensures { OnOk result (text.new.items ≡ text.old.items ++ case_lines
        (map string_bytes variables.now) obligation.now.part number obligation.now.atoms 1 case.now) }
{
    let atoms = obligation.atoms.get();
    for (k, place) in case.iter().enumerate() {
        let atom = &atoms[*place as usize];
        push_case_atom(variables, obligation.part, number, k + 1, atom, text)?;
    }
    Ok(())
}

// The lines of the cases of an obligation.
fn push_obligation(
    variables: &[String],
    obligation: &Obligation,
    text: &mut Vec<u8>,
) -> Result<(), AllocError>
    requires { AreWithin (length obligation.now.atoms) (lists obligation.now.cases) }
    ensures { OnOk result (text.new.items ≡
        text.old.items ++ lines_of (map string_bytes variables.now) obligation.now) }
{
    for (k, case) in obligation.cases.get().iter().enumerate() {
        push_case(variables, obligation, k + 1, case, text)?;
    }
    Ok(())
}

// The lines of the cases of these obligations.
fn push_obligations(
    variables: &[String],
    obligations: &[Obligation],
    text: &mut Vec<u8>,
) -> Result<(), AllocError>
    requires { All (λ o. AreWithin (length o.atoms) (lists o.cases)) obligations.now }
    ensures { OnOk result (text.new.items ≡
        text.old.items ++ flat_map (lines_of (map string_bytes variables.now)) obligations.now) }
{
    for obligation in obligations {
        push_obligation(variables, obligation, text)?;
    }
    Ok(())
}

// The line of the sizes.
fn push_sizes(sandbox: &Sandbox, text: &mut Vec<u8>) -> Result<(), AllocError>
    ensures { OnOk result (text.new.items ≡ text.old.items ++ size_line
        (saturated (instruction_bound sandbox.now)) (saturated (cell_bound sandbox.now))) }
{
    let sizes = sizes(sandbox);
    text.extend_from_slice(b"size ")?;
    text.extend_from_slice(Buffer::new().format(sizes.instrs).as_bytes())?;
    text.extend_from_slice(b" ")?;
    text.extend_from_slice(Buffer::new().format(sizes.cells).as_bytes())?;
    text.extend_from_slice(b"\n")
}
