//! The texts of polynomials, atoms and forms. The rules stand in `docs/acceptance.md`.
ghost use Rattle.std.specs.Prelude.{◌≡◌, ◌++◌, pos, int_lt, map, string_bytes, OnOk};
ghost use Rattle.vp_logic.specs.Tree.{tree, trees};
ghost use Rattle.vp_synth.specs.Printing.{atom_text, closing, first_sign, form_text, later_members, later_sign, members_text, monomial_text, opening, polynomial_text, power_text, power_texts, product_text, rel_text, size_text};
ghost use Rattle.vp_synth.specs.Factors.{factors_behind, star_behind};

use itoa::Buffer;
use std::alloc::AllocError;
use vp_logic::{Atom, Norm, Norms, Rel};
use vp_poly::{Mono, Poly, Term};

// A power of a variable.
fn push_power(name: &str, power: u8, text: &mut Vec<u8>) -> Result<(), AllocError>
    ensures { OnOk result (text.new.items ≡ text.old.items ++ power_text name.now power) }
{
    text.extend_from_slice(name.as_bytes())?;
    if power == 1 {
        return Ok(());
    }
    text.extend_from_slice(b"^")?;
    text.extend_from_slice(Buffer::new().format(power).as_bytes())
}

// A `*`, where something stands before it.
fn push_star(follows: bool, text: &mut Vec<u8>) -> Result<(), AllocError>
    ensures { OnOk result (text.new.items ≡ text.old.items ++ star_behind follows) }
{
    if follows {
        text.extend_from_slice(b"*")
    } else {
        Ok(())
    }
}

// The powers of a monomial with `*` between them, and before the first where something stands there.
fn push_powers(
    variables: &[String],
    powers: &[u8],
    follows: bool,
    text: &mut Vec<u8>,
) -> Result<(), AllocError>
    ensures { OnOk result (text.new.items ≡ text.old.items ++ factors_behind follows
        (power_texts (map string_bytes variables.now) powers.now)) }
{
    let mut between = follows;
    for (name, power) in variables.iter().zip(powers) {
        if *power == 0 {
            continue;
        }
        push_star(between, text)?;
        push_power(name, *power, text)?;
        between = true;
    }
    Ok(())
}

// A number times a monomial.
fn push_product(
    variables: &[String],
    number: u128,
    mono: &Mono,
    text: &mut Vec<u8>,
) -> Result<(), AllocError>
    ensures { OnOk result (text.new.items ≡
        text.old.items ++ product_text (map string_bytes variables.now) number mono.now.powers) }
{
    if number == 1 && mono.degree() > 0 {
        return push_powers(variables, &mono.powers, false, text);
    }
    text.extend_from_slice(Buffer::new().format(number).as_bytes())?;
    push_powers(variables, &mono.powers, true, text)
}

/// Appends the text of a monomial over variables with these names, in the order of their places: powers
/// as `x^2` with `*` between them, and `1` where there are none.
pub fn push_monomial(
    variables: &[String],
    mono: &Mono,
    text: &mut Vec<u8>,
) -> Result<(), AllocError>
    ensures { OnOk result (text.new.items ≡
        text.old.items ++ monomial_text (map string_bytes variables.now) mono.now.powers) }
{
    push_product(variables, 1, mono, text)
}

// The sign of a first term, and of a later one.
fn first_sign(term: &Term) -> &'static str
    ensures { result.now ≡ first_sign (int_lt term.now.coef (pos 0)) }
{
    if term.coef < 0 { "-" } else { "" }
}

fn later_sign(term: &Term) -> &'static str
    ensures { result.now ≡ later_sign (int_lt term.now.coef (pos 0)) }
{
    if term.coef < 0 { " - " } else { " + " }
}

// A term behind its sign.
fn push_term(
    variables: &[String],
    sign: &str,
    term: &Term,
    text: &mut Vec<u8>,
) -> Result<(), AllocError>
    ensures { OnOk result (text.new.items ≡
        text.old.items ++ sign.now ++ size_text (map string_bytes variables.now) term.now) }
{
    text.extend_from_slice(sign.as_bytes())?;
    push_product(variables, term.coef.unsigned_abs(), &term.mono, text)
}

// A polynomial.
pub(crate) fn push_polynomial(
    variables: &[String],
    poly: &Poly,
    text: &mut Vec<u8>,
) -> Result<(), AllocError>
    ensures { OnOk result (text.new.items ≡
        text.old.items ++ polynomial_text (map string_bytes variables.now) poly.now) }
{
    if poly.is_zero() {
        return text.extend_from_slice(b"0");
    }
    let first = poly.term(0);
    push_term(variables, first_sign(&first), &first, text)?;
    for k in 1..poly.len() {
        let term = poly.term(k);
        push_term(variables, later_sign(&term), &term, text)?;
    }
    Ok(())
}

// How a polynomial compares to 0.
fn rel_text(rel: Rel) -> &'static str
    ensures { result.now ≡ rel_text rel }
{
    match rel {
        Rel::Ge => " >= 0",
        Rel::Gt => " > 0",
        Rel::Eq => " = 0",
    }
}

// An atom.
pub(crate) fn push_atom(
    variables: &[String],
    atom: &Atom,
    text: &mut Vec<u8>,
) -> Result<(), AllocError>
    ensures { OnOk result (text.new.items ≡
        text.old.items ++ atom_text (map string_bytes variables.now) atom.now) }
{
    push_polynomial(variables, &atom.poly, text)?;
    text.extend_from_slice(rel_text(atom.rel).as_bytes())
}

// What stands before a member, and behind it.
fn opening(member: &Norm) -> &'static str
    ensures { result.now ≡ opening (tree member.now) }
{
    match member {
        Norm::Atom(_) => "",
        Norm::And(_) | Norm::Or(_) => "[",
    }
}

fn closing(member: &Norm) -> &'static str
    ensures { result.now ≡ closing (tree member.now) }
{
    match member {
        Norm::Atom(_) => "",
        Norm::And(_) | Norm::Or(_) => "]",
    }
}

// A form.
#[cycle(form)]
pub(crate) fn push_form(
    variables: &[String],
    form: &Norm,
    text: &mut Vec<u8>,
) -> Result<(), AllocError>
    ensures { OnOk result (text.new.items ≡
        text.old.items ++ form_text (map string_bytes variables.now) (tree form.now)) }
{
    match form {
        Norm::Atom(atom) => push_atom(variables, atom, text),
        Norm::And(members) => push_members(variables, "true", " & ", members, text),
        Norm::Or(members) => push_members(variables, "false", " | ", members, text),
    }
}

// The members of a form, or what a form without members is.
#[cycle(form)]
fn push_members(
    variables: &[String],
    none: &str,
    between: &str,
    members: &Norms,
    text: &mut Vec<u8>,
) -> Result<(), AllocError>
    ensures { OnOk result (text.new.items ≡ text.old.items ++
        members_text (map string_bytes variables.now) none.now between.now (trees members.now)) }
{
    match members {
        Norms::End => text.extend_from_slice(none.as_bytes()),
        Norms::More(first, rest) => {
            text.extend_from_slice(opening(first).as_bytes())?;
            push_form(variables, first, text)?;
            text.extend_from_slice(closing(first).as_bytes())?;
            push_later_members(variables, between, rest, text)
        }
    }
}

// The members behind the first.
#[cycle(form)]
fn push_later_members(
    variables: &[String],
    between: &str,
    members: &Norms,
    text: &mut Vec<u8>,
) -> Result<(), AllocError>
    ensures { OnOk result (text.new.items ≡ text.old.items ++
        later_members (map string_bytes variables.now) between.now (trees members.now)) }
{
    match members {
        Norms::End => Ok(()),
        Norms::More(first, rest) => {
            text.extend_from_slice(between.as_bytes())?;
            text.extend_from_slice(opening(first).as_bytes())?;
            push_form(variables, first, text)?;
            text.extend_from_slice(closing(first).as_bytes())?;
            push_later_members(variables, between, rest, text)
        }
    }
}
