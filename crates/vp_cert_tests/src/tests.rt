//! Worked certificates.
ghost use Rattle.std.specs.Prelude.{◌≡◌, ◌<◌, ◌^◌, All, IsTrue, not};
ghost use Rattle.std.specs.List.{list_all};
ghost use Rattle.vp_terms.specs.Certificates.{IsCertificate, begins_with_one_pos, has_whole_numbers, is_pos, term_has_whole_numbers};
ghost use Rattle.vp_terms.specs.WellFormed.{in_certificate, is_good_cert, is_good_expr, is_good_term};
ghost use Rattle.vp_logic.specs.declared.norm.Atom.{Atom};
ghost use Rattle.vp_poly.specs.Places.{places_for};
ghost use Rattle.vp_poly.specs.Poly.{IsPoly, norm};

use std::alloc::Global;
use std::process::Abort;
use std::test::Fail;
use vp_cert::{CertErr, refutes};
use vp_logic::{Atom, Rel};
use vp_poly::{Mono, Poly, Term};
use vp_terms::{Cert, CertTerm, Expr, Items, Kinds, Part, Places, Ratio, Var};
use vp_words::Counts;

// The tank: a parameter H, a state x, a control f.
const COUNTS: Counts = Counts {
    params: 1,
    states: 1,
    controls: 1,
};

const PLACES: Places = Places {
    params: 1,
    states: 1,
    controls: 1,
};

// The exponents of H, x, f, x@, f@, tau.
type Exponents = [u8; 6];

const ONE: Exponents = [0, 0, 0, 0, 0, 0];

const H: Exponents = [1, 0, 0, 0, 0, 0];

const X: Exponents = [0, 1, 0, 0, 0, 0];

const NEW_X: Exponents = [0, 0, 0, 1, 0, 0];

const NEW_F: Exponents = [0, 0, 0, 0, 1, 0];

const TAU: Exponents = [0, 0, 0, 0, 0, 1];

const FLOW: Exponents = [0, 0, 0, 0, 1, 1];

// Coefficients with their monomials.
type Products = &'static [(i128, Exponents)];

// An expression of a certificate.
#[derive(Clone, Copy)]
enum Sketch {
    Number(i128),
    Negative(i128),
    MinusTau,
    // x^k, and (x + x)^k
    Power(u32),
    Doubled(u32),
    // x^12 * x
    Longer,
    // n + 1, and (x + x)^12 + 1
    Above(i128),
    DoubledAndOne,
}

// A term behind the first.
#[derive(Clone, Copy)]
enum Line {
    Sum(u64, &'static [Sketch], &'static [u32]),
    Eq(u32, Sketch),
}

// What is told of a certificate.
#[derive(Clone, Copy)]
enum Told {
    Taken,
    Label,
    NotStrict,
    Wide,
    Left(Exponents, i128),
}

// A case, the number and the labels of the first term, the other terms, and what is told.
type Row = (&'static [u32], (u64, &'static [u32]), &'static [Line], Told);

fn mono([h, x, f, new_x, new_f, tau]: Exponents) -> Mono {
    let mut powers = [0; 32];
    powers[0] = h;
    powers[1] = x;
    powers[2] = f;
    powers[3] = new_x;
    powers[4] = new_f;
    powers[5] = tau;
    Mono { powers }
}

// The polynomial with one more term.
fn more(
    rt: &impl Abort,
    alloc: Global,
    rest: &Poly,
    coef: i128,
    exponents: Exponents,
) -> Result<Poly, Fail> {
    let mono = mono(exponents);
    assert!(rt; mono.degree() <= 12 && coef < 1 << 62 && coef > -(1 << 62));
    let one = Poly::single(alloc, Term { mono, coef })?;
    assert!(rt; rest.norm() < 1 << 62 && rest.len() < 4096 && one.len() < 2);
    Ok(one.add(alloc, rest)?)
}

fn poly(rt: &impl Abort, alloc: Global, products: Products) -> Result<Poly, Fail> {
    let mut poly = Poly::zero(alloc);
    for (coef, exponents) in products {
        poly = more(rt, alloc, &poly, *coef, *exponents)?;
    }
    Ok(poly)
}

// The 256 monomials of H, x, f and x@ with exponents from 0 to 3.
fn many(rt: &impl Abort, alloc: Global) -> Result<Poly, Fail> {
    let mut poly = Poly::zero(alloc);
    for k in 0..=255u8 {
        let exponents = [k % 4, k / 4 % 4, k / 16 % 4, k / 64 % 4, 0, 0];
        poly = more(rt, alloc, &poly, 1, exponents)?;
    }
    Ok(poly)
}

fn atoms(rt: &impl Abort, alloc: Global, shapes: &[(Rel, Products)]) -> Result<Vec<Atom>, Fail> {
    let mut atoms = Vec::new(alloc);
    for (rel, products) in shapes {
        atoms.push(Atom {
            poly: poly(rt, alloc, *products)?,
            rel: *rel,
        })?;
    }
    Ok(atoms)
}

fn number(value: i128) -> Result<Expr, Fail> {
    Ok(Expr::Num(Ratio::reduced(value, 1).ok_or("no number")?))
}

fn level() -> Expr {
    Expr::Var(Var::State(0))
}

fn added(alloc: Global, l: Expr, r: Expr) -> Result<Expr, Fail> {
    Ok(Expr::Add(Box::new(alloc, l)?, Box::new(alloc, r)?))
}

fn negative(alloc: Global, e: Expr) -> Result<Expr, Fail> {
    let zero = number(0)?;
    Ok(Expr::Sub(Box::new(alloc, zero)?, Box::new(alloc, e)?))
}

fn power(alloc: Global, e: Expr, exponent: u32) -> Result<Expr, Fail> {
    Ok(Expr::Pow(Box::new(alloc, e)?, exponent))
}

fn doubled(alloc: Global, exponent: u32) -> Result<Expr, Fail> {
    let twice = added(alloc, level(), level())?;
    power(alloc, twice, exponent)
}

fn expression(alloc: Global, sketch: Sketch) -> Result<Expr, Fail> {
    match sketch {
        Sketch::Number(value) => number(value),
        Sketch::Negative(value) => negative(alloc, number(value)?),
        Sketch::MinusTau => negative(alloc, Expr::Var(Var::Tau)),
        Sketch::Power(exponent) => power(alloc, level(), exponent),
        Sketch::Doubled(exponent) => doubled(alloc, exponent),
        Sketch::Longer => {
            let twelfth = power(alloc, level(), 12)?;
            Ok(Expr::Mul(Box::new(alloc, twelfth)?, Box::new(alloc, level())?))
        }
        Sketch::Above(value) => added(alloc, number(value)?, number(1)?),
        Sketch::DoubledAndOne => {
            let twelfth = doubled(alloc, 12)?;
            added(alloc, twelfth, number(1)?)
        }
    }
}

fn expressions(alloc: Global, sketches: &[Sketch]) -> Result<Items<Expr>, Fail> {
    let mut squares = Vec::new(alloc);
    for sketch in sketches {
        squares.push(expression(alloc, *sketch)?)?;
    }
    Ok(Items::of(squares))
}

fn labels(alloc: Global, labels: &[u32]) -> Result<Items<u32>, Fail> {
    Ok(Items::of(Vec::from_slice(alloc, labels)?))
}

fn later(alloc: Global, line: Line) -> Result<CertTerm, Fail> {
    match line {
        Line::Sum(times, squares, named) => Ok(CertTerm::Sum {
            times,
            squares: expressions(alloc, squares)?,
            labels: labels(alloc, named)?,
        }),
        Line::Eq(label, times) => Ok(CertTerm::Eq {
            label,
            times: expression(alloc, times)?,
        }),
    }
}

fn certificate(alloc: Global, times: u64, named: &[u32], lines: &[Line]) -> Result<Cert, Fail> {
    let mut terms = Vec::new(alloc);
    terms.push(CertTerm::Pos {
        times,
        labels: labels(alloc, named)?,
    })?;
    for line in lines {
        terms.push(later(alloc, *line)?)?;
    }
    Ok(Cert {
        part: Part::Step,
        number: 1,
        terms: Items::of(terms),
    })
}

// ---- the conditions of `refutes`

fn are_places(places: &[u32], count: usize) -> bool
    ensures { IsTrue result → All (λ k. k < count) places.now }
{
    for place in places {
        if *place as usize >= count {
            return false;
        }
    }
    true
}

fn are_small(atoms: &[Atom]) -> bool
    ensures polynomials { IsTrue result → All (λ (a : Atom). IsPoly a.poly) atoms.now }
    ensures small { IsTrue result → All (λ (a : Atom). norm a.poly < 2 ^ 62) atoms.now }
{
    for atom in atoms {
        if atom.poly.norm() >= 1 << 62 {
            return false;
        }
    }
    true
}

fn has_whole_numbers(e: &Expr) -> bool
    ensures { result ≡ has_whole_numbers e.now }
{
    match e {
        Expr::Num(value) => value.den == 1,
        Expr::Var(_) => true,
        Expr::Add(l, r) | Expr::Sub(l, r) | Expr::Mul(l, r) => {
            has_whole_numbers(l) && has_whole_numbers(r)
        }
        Expr::Pow(base, _) => has_whole_numbers(base),
    }
}

fn is_good(e: &Expr) -> bool
    ensures { result ≡ is_good_expr in_certificate (places_for COUNTS) e.now }
{
    e.is_well_formed(Kinds::CERTIFICATE, PLACES)
}

fn have_whole_numbers(expressions: &[Expr]) -> bool
    ensures { result ≡ list_all has_whole_numbers expressions.now }
{
    expressions.iter().all(|e| has_whole_numbers(e))
}

fn are_good(expressions: &[Expr]) -> bool
    ensures { result ≡ list_all (is_good_expr in_certificate (places_for COUNTS)) expressions.now }
{
    expressions.iter().all(|e| is_good(e))
}

fn term_is_whole(term: &CertTerm) -> bool
    ensures { result ≡ term_has_whole_numbers term.now }
{
    match term {
        CertTerm::Pos { .. } => true,
        CertTerm::Sum { squares, .. } => have_whole_numbers(squares.get()),
        CertTerm::Eq { times, .. } => has_whole_numbers(times),
    }
}

fn term_is_good(term: &CertTerm) -> bool
    ensures { result ≡ is_good_term (places_for COUNTS) term.now }
{
    match term {
        CertTerm::Pos { .. } => true,
        CertTerm::Sum { squares, .. } => are_good(squares.get()),
        CertTerm::Eq { times, .. } => is_good(times),
    }
}

fn is_pos(term: &CertTerm) -> bool
    ensures { result ≡ is_pos term.now }
{
    match term {
        CertTerm::Pos { .. } => true,
        CertTerm::Sum { .. } | CertTerm::Eq { .. } => false,
    }
}

fn have_no_pos(terms: &[CertTerm]) -> bool
    ensures { result ≡ list_all (λ term. not (is_pos term)) terms.now }
{
    terms.iter().all(|term| !is_pos(term))
}

fn begins_with_one_pos(terms: &[CertTerm]) -> bool
    ensures { result ≡ begins_with_one_pos terms.now }
{
    match terms.split_first() {
        Some((first, rest)) => is_pos(first) && have_no_pos(rest),
        None => false,
    }
}

fn terms_are_whole(terms: &[CertTerm]) -> bool
    ensures { result ≡ list_all term_has_whole_numbers terms.now }
{
    terms.iter().all(|term| term_is_whole(term))
}

fn terms_are_good(terms: &[CertTerm]) -> bool
    ensures { result ≡ list_all (is_good_term (places_for COUNTS)) terms.now }
{
    terms.iter().all(|term| term_is_good(term))
}

fn is_certificate(cert: &Cert) -> bool
    ensures form { IsTrue result → IsCertificate cert.now }
    ensures good { IsTrue result → IsTrue (is_good_cert (places_for COUNTS) cert.now) }
{
    let terms = cert.terms.get();
    begins_with_one_pos(terms) && terms_are_whole(terms) && terms_are_good(terms)
}

// ---- the rows

fn answer(
    alloc: Global,
    atoms: &[Atom],
    places: &[u32],
    cert: &Cert,
) -> Result<Option<CertErr>, Fail> {
    if !are_places(places, atoms.len()) || !are_small(atoms) || !is_certificate(cert) {
        return Err(Fail::new("no case and no certificate"));
    }
    Ok(refutes(alloc, atoms, places, cert, COUNTS).err())
}

fn due(told: Told) -> Option<CertErr> {
    match told {
        Told::Taken => None,
        Told::Label => Some(CertErr::Label),
        Told::NotStrict => Some(CertErr::NotStrict),
        Told::Wide => Some(CertErr::Wide),
        Told::Left(exponents, coefficient) => Some(CertErr::NotZero {
            monomial: mono(exponents),
            coefficient,
        }),
    }
}

fn check(rt: &impl Abort, alloc: Global, atoms: &[Atom], rows: &[Row]) -> Result<(), Fail> {
    for (places, (times, named), lines, told) in rows {
        let cert = certificate(alloc, *times, *named, *lines)?;
        assert!(rt; answer(alloc, atoms, *places, &cert)? == due(*told));
    }
    Ok(())
}

fn tank_atoms(rt: &impl Abort, alloc: Global) -> Result<Vec<Atom>, Fail> {
    let shapes: [(Rel, Products); 14] = [
        (Rel::Ge, &[(1, H), (-1, X)]),
        (Rel::Ge, &[(1, NEW_F), (3, ONE)]),
        (Rel::Ge, &[(1, H), (-1, X), (-10, NEW_F), (-10, ONE)]),
        (Rel::Eq, &[(1, NEW_F), (3, ONE)]),
        (Rel::Ge, &[(1, TAU)]),
        (Rel::Ge, &[(-1, TAU), (10, ONE)]),
        (Rel::Ge, &[(-1, FLOW), (-1, X), (1, NEW_X), (1, TAU)]),
        (Rel::Ge, &[(1, FLOW), (1, X), (-1, NEW_X), (1, TAU)]),
        (Rel::Gt, &[(-1, H), (1, NEW_X)]),
        (Rel::Gt, &[(-1, NEW_F), (-3, ONE)]),
        (Rel::Gt, &[(-1, H), (1, X), (10, NEW_F), (10, ONE)]),
        (Rel::Gt, &[(1, NEW_F), (3, ONE)]),
        (Rel::Gt, &[(-1, H), (1, X)]),
        (Rel::Gt, &[]),
    ];
    atoms(rt, alloc, &shapes)
}

const INIT: &[u32] = &[0, 12];

const FIRST_STEP: &[u32] = &[0, 1, 2, 4, 5, 6, 7, 8];

const SECOND_STEP: &[u32] = &[0, 3, 4, 5, 6, 7, 8];

#[test]
fn tank_is_taken(rt: HostRuntime) -> Result<(), Fail> {
    let alloc = rt.alloc();
    let rows: [Row; 7] = [
        (INIT, (1, &[2]), &[Line::Sum(1, &[], &[1])], Told::Taken),
        (
            FIRST_STEP,
            (10, &[8]),
            &[
                Line::Sum(1, &[], &[5, 1]),
                Line::Sum(1, &[], &[4, 3]),
                Line::Sum(10, &[], &[7]),
            ],
            Told::Taken,
        ),
        (
            SECOND_STEP,
            (1, &[7]),
            &[
                Line::Sum(1, &[], &[1]),
                Line::Sum(1, &[], &[6]),
                Line::Sum(2, &[], &[3]),
                Line::Eq(2, Sketch::MinusTau),
            ],
            Told::Taken,
        ),
        (
            &[0, 3, 9, 11],
            (1, &[4]),
            &[Line::Eq(2, Sketch::Negative(1))],
            Told::Taken,
        ),
        (
            &[0, 3, 9, 9],
            (1, &[4]),
            &[Line::Eq(2, Sketch::Number(1))],
            Told::Taken,
        ),
        (
            &[0, 3, 10, 11],
            (1, &[4]),
            &[Line::Eq(2, Sketch::Negative(1))],
            Told::Taken,
        ),
        (
            &[0, 3, 10, 9],
            (1, &[4]),
            &[Line::Eq(2, Sketch::Number(1))],
            Told::Taken,
        ),
    ];
    let atoms = tank_atoms(&rt, alloc)?;
    check(&rt, alloc, &atoms, &rows)
}

#[test]
fn refusals_come_in_order(rt: HostRuntime) -> Result<(), Fail> {
    let alloc = rt.alloc();
    let rows: [Row; 22] = [
        (
            FIRST_STEP,
            (9, &[8]),
            &[
                Line::Sum(1, &[], &[5, 1]),
                Line::Sum(1, &[], &[4, 3]),
                Line::Sum(10, &[], &[7]),
            ],
            Told::Left(H, 1),
        ),
        (INIT, (1, &[1]), &[Line::Sum(1, &[], &[1])], Told::NotStrict),
        (INIT, (1, &[2]), &[Line::Sum(1, &[], &[9])], Told::Label),
        (INIT, (1, &[2]), &[Line::Sum(1, &[], &[3])], Told::Label),
        (INIT, (1, &[2]), &[Line::Sum(1, &[], &[0])], Told::Label),
        (INIT, (1, &[2, 4294967295]), &[], Told::Label),
        (INIT, (1, &[0]), &[Line::Sum(1, &[], &[1])], Told::Label),
        (
            INIT,
            (1, &[2]),
            &[Line::Eq(0, Sketch::Number(1))],
            Told::Label,
        ),
        (
            INIT,
            (1, &[2]),
            &[Line::Eq(1, Sketch::Number(1))],
            Told::Label,
        ),
        (
            SECOND_STEP,
            (1, &[7]),
            &[Line::Sum(1, &[], &[2])],
            Told::Label,
        ),
        (SECOND_STEP, (1, &[2]), &[], Told::NotStrict),
        (INIT, (0, &[2]), &[Line::Sum(1, &[], &[1])], Told::NotStrict),
        (
            INIT,
            (1, &[2]),
            &[Line::Sum(1, &[], &[1]), Line::Sum(0, &[], &[1])],
            Told::Taken,
        ),
        (INIT, (1, &[2]), &[], Told::Left(H, -1)),
        (INIT, (1, &[]), &[Line::Sum(1, &[], &[1])], Told::Left(H, 1)),
        // a case of 0 > 0 alone needs no other term, and one without atoms has no certificate
        (&[13], (1, &[1]), &[], Told::Taken),
        (&[], (1, &[]), &[], Told::Left(ONE, 1)),
        (
            &[],
            (7, &[]),
            &[Line::Sum(2, &[Sketch::Number(3)], &[])],
            Told::Left(ONE, 25),
        ),
        (&[], (1, &[1]), &[], Told::Label),
        // two causes
        (INIT, (0, &[9]), &[], Told::Label),
        (
            INIT,
            (0, &[2]),
            &[Line::Sum(1, &[Sketch::Longer], &[])],
            Told::NotStrict,
        ),
        (
            INIT,
            (1, &[2]),
            &[Line::Sum(1, &[Sketch::Longer], &[1])],
            Told::Wide,
        ),
    ];
    let atoms = tank_atoms(&rt, alloc)?;
    check(&rt, alloc, &atoms, &rows)
}

#[test]
fn level_below_a_number(rt: HostRuntime) -> Result<(), Fail> {
    let alloc = rt.alloc();
    // x <= 4611686018427387902 doesn't give x <= H
    let shapes: [(Rel, Products); 2] = [
        (Rel::Ge, &[(-1, X), (4611686018427387902, ONE)]),
        (Rel::Gt, &[(-1, H), (1, X)]),
    ];
    let rows: [Row; 1] = [(
        &[0, 1],
        (1, &[2]),
        &[Line::Sum(1, &[], &[1])],
        Told::Left(H, -1),
    )];
    let atoms = atoms(&rt, alloc, &shapes)?;
    check(&rt, alloc, &atoms, &rows)
}

const ALL: &[u32] = &[0, 1, 2, 3, 4, 5, 6, 7];

#[test]
fn bounds_are_exact(rt: HostRuntime) -> Result<(), Fail> {
    let alloc = rt.alloc();
    let shapes: [(Rel, Products); 7] = [
        (Rel::Gt, &[(1 << 61, X)]),
        (Rel::Ge, &[((1 << 61) - 1, ONE)]),
        (Rel::Ge, &[((1 << 61) + 1, ONE)]),
        (Rel::Ge, &[]),
        (Rel::Gt, &[(1, [0, 12, 0, 0, 0, 0])]),
        (Rel::Gt, &[(1, X)]),
        (Rel::Eq, &[(1, X)]),
    ];
    let rows: [Row; 24] = [
        // norms: 15 * 2^122 + (2^122 - 1)
        (
            ALL,
            (15, &[1, 1]),
            &[Line::Sum(1, &[], &[2, 3])],
            Told::Left([0, 2, 0, 0, 0, 0], 15 << 122),
        ),
        (
            ALL,
            (15, &[1, 1]),
            &[Line::Sum(1, &[], &[2, 3]), Line::Sum(1, &[], &[])],
            Told::Wide,
        ),
        (
            ALL,
            (15, &[1, 1]),
            &[Line::Sum(1, &[], &[2, 3]), Line::Sum(0, &[], &[])],
            Told::Wide,
        ),
        (
            ALL,
            (15, &[1, 1]),
            &[Line::Sum(1, &[], &[2, 3]), Line::Sum(1, &[], &[4])],
            Told::Wide,
        ),
        (
            ALL,
            (15, &[1, 1]),
            &[
                Line::Sum(1, &[], &[2, 3]),
                Line::Sum(1, &[Sketch::Number(0)], &[]),
            ],
            Told::Wide,
        ),
        (ALL, (16, &[1, 1]), &[], Told::Wide),
        // the products alone pass 2^127
        (ALL, (18446744073709551615, &[1, 1, 1]), &[], Told::Wide),
        // terms: 256 * 256
        (ALL, (1, &[8, 8]), &[], Told::Left([6, 6, 6, 6, 0, 0], 1)),
        (ALL, (1, &[8, 8]), &[Line::Sum(1, &[], &[])], Told::Wide),
        (ALL, (1, &[8, 8]), &[Line::Sum(0, &[], &[4])], Told::Wide),
        // degrees, of each term alone
        (
            ALL,
            (1, &[5, 5, 5, 5]),
            &[],
            Told::Left([0, 48, 0, 0, 0, 0], 1),
        ),
        (
            ALL,
            (1, &[5, 5, 5, 5]),
            &[Line::Sum(1, &[], &[5, 5, 5, 5])],
            Told::Left([0, 48, 0, 0, 0, 0], 2),
        ),
        (ALL, (1, &[5, 5, 5, 5, 6]), &[], Told::Wide),
        (
            ALL,
            (1, &[6]),
            &[Line::Sum(0, &[], &[5, 5, 5, 5, 6])],
            Told::Wide,
        ),
        // expressions: their norm, their degree, their terms
        (
            ALL,
            (1, &[]),
            &[Line::Sum(1, &[Sketch::Number(4611686018427387903)], &[])],
            Told::Left(ONE, (1 << 124) - (1 << 63) + 2),
        ),
        (
            ALL,
            (1, &[]),
            &[Line::Sum(1, &[Sketch::Above(4611686018427387903)], &[])],
            Told::Wide,
        ),
        (ALL, (1, &[]), &[Line::Eq(7, Sketch::Longer)], Told::Wide),
        (
            ALL,
            (1, &[]),
            &[Line::Eq(7, Sketch::Doubled(12))],
            Told::Left([0, 13, 0, 0, 0, 0], 4096),
        ),
        (
            ALL,
            (1, &[]),
            &[Line::Eq(7, Sketch::DoubledAndOne)],
            Told::Wide,
        ),
        // squares count twice
        (
            ALL,
            (1, &[]),
            &[Line::Sum(1, &[Sketch::Power(1)], &[])],
            Told::Left([0, 2, 0, 0, 0, 0], 1),
        ),
        (
            ALL,
            (1, &[]),
            &[Line::Sum(1, &[Sketch::Power(12), Sketch::Power(12)], &[])],
            Told::Left([0, 48, 0, 0, 0, 0], 1),
        ),
        (
            ALL,
            (1, &[]),
            &[Line::Sum(1, &[Sketch::Power(12), Sketch::Power(12)], &[6])],
            Told::Wide,
        ),
        (
            ALL,
            (1, &[]),
            &[Line::Sum(1, &[Sketch::Doubled(7)], &[])],
            Told::Left([0, 14, 0, 0, 0, 0], 16384),
        ),
        (
            ALL,
            (1, &[]),
            &[Line::Sum(1, &[Sketch::Doubled(8)], &[])],
            Told::Wide,
        ),
    ];
    let mut atoms = atoms(&rt, alloc, &shapes)?;
    atoms.push(Atom {
        poly: many(&rt, alloc)?,
        rel: Rel::Gt,
    })?;
    check(&rt, alloc, &atoms, &rows)
}
