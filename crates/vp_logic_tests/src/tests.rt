ghost use Rattle.vp_poly.specs.Places.{IsRenaming};

use std::alloc::Global;
use std::process::Abort;
use std::test::Fail;
use vp_logic::{
    Atom, CaseErr, Norm, Rel, all_of, any_of, atoms, cases, conjuncts, negate, normal, rename,
};
use vp_poly::{PolyErr, Term, plain};
use vp_terms::{Cmp, Expr, Formula, Places, Ratio, Var};
use vp_words::Counts;

// One parameter H, one state x, one control: H has place 0 and x place 1.
const COUNTS: Counts = Counts {
    params: 1,
    states: 1,
    controls: 1,
};

const PLACES: Places = Places {
    params: 1,
    states: 1,
    controls: 1,
};

fn height() -> Expr {
    Expr::Var(Var::Param(0))
}

fn level() -> Expr {
    Expr::Var(Var::State(0))
}

fn not(alloc: Global, f: Formula) -> Result<Formula, Fail> {
    Ok(Formula::Not(Box::new(alloc, f)?))
}

fn either(alloc: Global, one: Formula, other: Formula) -> Result<Formula, Fail> {
    Ok(Formula::Or(Box::new(alloc, one)?, Box::new(alloc, other)?))
}

// The normal form of a formula whose variables stand for themselves.
fn form(alloc: Global, f: &Formula) -> Result<Norm, Fail> {
    let env = plain(alloc, COUNTS)?;
    if !f.has_places_below(PLACES, 6) {
        return Err(Fail::new("no such variable"));
    }
    Ok(normal(alloc, f, COUNTS, &env)?)
}

// The coefficients of H and of x, and the relation, of an atom with two terms.
fn shown(atom: &Atom) -> Option<(i128, i128, Rel)> {
    if atom.poly.len() != 2 {
        return None;
    }
    Some((atom.poly.term(0).coef, atom.poly.term(1).coef, atom.rel))
}

// The atoms of the parts, as `shown`.
fn all_shown(alloc: Global, parts: &[Norm]) -> Result<Vec<Option<(i128, i128, Rel)>>, Fail> {
    let mut rows = Vec::new(alloc);
    for atom in &atoms(alloc, parts)? {
        rows.push(shown(atom))?;
    }
    Ok(rows)
}

#[test]
fn comparisons(rt: HostRuntime) -> Result<(), Fail> {
    let alloc = rt.alloc();
    let rows = [
        (Cmp::Le, 1, -1, Rel::Ge),
        (Cmp::Lt, 1, -1, Rel::Gt),
        (Cmp::Ge, -1, 1, Rel::Ge),
        (Cmp::Gt, -1, 1, Rel::Gt),
        (Cmp::Eq, -1, 1, Rel::Eq),
    ];
    for (cmp, of_height, of_level, rel) in rows {
        let n = form(alloc, &Formula::Cmp(cmp, level(), height()))?;
        let found = all_shown(alloc, &[n])?;
        assert_eq!(rt;
            found.as_slice(),
            [Some((of_height, of_level, rel))].as_slice()
        );
    }
    Ok(())
}

// The two atoms of `x != H`.
const BESIDE: [Option<(i128, i128, Rel)>; 2] = [Some((-1, 1, Rel::Gt)), Some((1, -1, Rel::Gt))];

fn is_or(n: &Norm) -> bool {
    matches!(n, Norm::Or(_))
}

#[test]
fn differences(rt: HostRuntime) -> Result<(), Fail> {
    let alloc = rt.alloc();
    let equal = Formula::Cmp(Cmp::Eq, level(), height());
    let denied = form(alloc, &not(alloc, equal)?)?;
    let unequal = form(alloc, &Formula::Cmp(Cmp::Ne, level(), height()))?;
    for n in [denied, unequal] {
        assert!(rt; is_or(&n));
        let parts = [n];
        assert_eq!(rt; all_shown(alloc, &parts)?.as_slice(), BESIDE.as_slice());
        assert_eq!(rt; listed(&rt, alloc, &parts)?, Ok(2));
    }
    Ok(())
}

// How many cases there are, or why they aren't made.
fn listed(rt: &impl Abort, alloc: Global, parts: &[Norm]) -> Result<Result<usize, CaseErr>, Fail> {
    let found = atoms(alloc, parts)?;
    assert!(rt; found.len() < 1000);
    Ok(cases(alloc, parts).map(|made| made.len()))
}

#[test]
fn counts_of_cases(rt: HostRuntime) -> Result<(), Fail> {
    let alloc = rt.alloc();
    let unequal = form(alloc, &Formula::Cmp(Cmp::Ne, level(), height()))?;
    let mut parts = Vec::new(alloc);
    for _ in 0..9 {
        parts.push(negate(alloc, &negate(alloc, &unequal)?)?)?;
    }
    assert_eq!(rt;
        listed(&rt, alloc, &parts)?,
        Err(CaseErr::Many { count: 512 })
    );
    for _ in 9..63 {
        parts.push(negate(alloc, &negate(alloc, &unequal)?)?)?;
    }
    parts.push(form(alloc, &not(alloc, Formula::True)?)?)?;
    assert_eq!(rt; listed(&rt, alloc, &parts)?, Ok(0));
    assert_eq!(rt; listed(&rt, alloc, &[form(alloc, &Formula::True)?])?, Ok(1));
    assert_eq!(rt; listed(&rt, alloc, &[])?, Ok(1));
    Ok(())
}

#[test]
fn order_of_cases(rt: HostRuntime) -> Result<(), Fail> {
    let alloc = rt.alloc();
    let one = form(alloc, &Formula::Cmp(Cmp::Ne, level(), height()))?;
    let other = form(alloc, &Formula::Cmp(Cmp::Ne, height(), level()))?;
    let parts = [one, other];
    assert!(rt; atoms(alloc, &parts)?.len() < 1000);
    let rows = [[0, 2], [0, 3], [1, 2], [1, 3]];
    let made = cases(alloc, &parts)?;
    assert_eq!(rt; made.len(), rows.len());
    for (case, row) in made.iter().zip(rows.iter()) {
        assert_eq!(rt; case.as_slice(), row.as_slice());
    }
    Ok(())
}

#[test]
fn conjuncts_of_a_conjunction(rt: HostRuntime) -> Result<(), Fail> {
    let alloc = rt.alloc();
    let above = Formula::Cmp(Cmp::Gt, level(), height());
    let below = Formula::Cmp(Cmp::Lt, level(), height());
    let neither = not(alloc, either(alloc, above, below)?)?;
    let parts = conjuncts(alloc, form(alloc, &neither)?)?;
    assert_eq!(rt; parts.len(), 2);
    let rows = [Some((1, -1, Rel::Ge)), Some((-1, 1, Rel::Ge))];
    assert_eq!(rt; all_shown(alloc, &parts)?.as_slice(), rows.as_slice());
    Ok(())
}

// Whether the power of x in `x^k <= 1` makes the comparison too wide.
fn is_wide(alloc: Global, exponent: u32) -> Result<bool, Fail> {
    let one = Expr::Num(Ratio::of_text(b"1").ok_or("no number")?);
    let power = Expr::Pow(Box::new(alloc, level())?, exponent);
    let f = Formula::Cmp(Cmp::Le, power, one);
    let env = plain(alloc, COUNTS)?;
    if !f.has_places_below(PLACES, 6) {
        return Err(Fail::new("no such variable"));
    }
    match normal(alloc, &f, COUNTS, &env) {
        Ok(_) => Ok(false),
        Err(PolyErr::Wide) => Ok(true),
        Err(PolyErr::Memory) => Err(Fail::new("out of memory")),
    }
}

#[test]
fn wide_comparisons(rt: HostRuntime) -> Result<(), Fail> {
    assert_eq!(rt; is_wide(rt.alloc(), 12)?, false);
    assert_eq!(rt; is_wide(rt.alloc(), 13)?, true);
    Ok(())
}

// The places that stay, each at its own place.
const PLACES_AS_THEY_ARE: [u8; 32] = [
    0, 1, 2, 3, 4, 5, 6, 7, 8, 9, 10, 11, 12, 13, 14, 15, 16, 17, 18, 19, 20, 21, 22, 23, 24, 25,
    26, 27, 28, 29, 30, 31,
];

// Two places exchanged.
fn exchanged(i: u8, j: u8) -> [u8; 32]
    ensures { IsRenaming result }
{
    let mut to = PLACES_AS_THEY_ARE;
    to.swap(usize::from(i % 32), usize::from(j % 32));
    to
}

// The exponents of H, x and the control, and the coefficient.
fn first_powers(term: &Term) -> ([u8; 3], i128) {
    let powers = term.mono.powers;
    ([powers[0], powers[1], powers[2]], term.coef)
}

// The two terms of an atom.
fn terms(atom: &Atom) -> Option<[([u8; 3], i128); 2]> {
    if atom.poly.len() != 2 {
        return None;
    }
    Some([
        first_powers(&atom.poly.term(0)),
        first_powers(&atom.poly.term(1)),
    ])
}

#[test]
fn renamed_forms(rt: HostRuntime) -> Result<(), Fail> {
    let alloc = rt.alloc();
    let n = form(alloc, &Formula::Cmp(Cmp::Le, level(), height()))?;
    let rows = [
        (0, 0, [([1, 0, 0], 1), ([0, 1, 0], -1)]),
        (0, 1, [([1, 0, 0], -1), ([0, 1, 0], 1)]),
        (1, 2, [([1, 0, 0], 1), ([0, 0, 1], -1)]),
        (0, 2, [([0, 1, 0], -1), ([0, 0, 1], 1)]),
    ];
    for (i, j, wanted) in rows {
        let found = atoms(alloc, &[rename(alloc, &n, &exchanged(i, j))?])?;
        assert_eq!(rt; found.len(), 1);
        for atom in &found {
            assert_eq!(rt; terms(atom), Some(wanted));
        }
    }
    Ok(())
}

// Without the count inside, 2^63 lists would be made for the part that never holds.
#[test]
fn count_inside_a_form(rt: HostRuntime) -> Result<(), Fail> {
    let alloc = rt.alloc();
    let mut never = Formula::Cmp(Cmp::Ne, level(), height());
    for _ in 1..63 {
        let beside = Formula::Cmp(Cmp::Ne, level(), height());
        never = Formula::And(Box::new(alloc, never)?, Box::new(alloc, beside)?);
    }
    let denied = not(alloc, Formula::True)?;
    never = Formula::And(Box::new(alloc, never)?, Box::new(alloc, denied)?);
    let above = Formula::Cmp(Cmp::Le, level(), height());
    let n = form(alloc, &either(alloc, never, above)?)?;
    assert_eq!(rt; listed(&rt, alloc, &[n])?, Ok(1));
    Ok(())
}

#[test]
fn lists_as_forms(rt: HostRuntime) -> Result<(), Fail> {
    let alloc = rt.alloc();
    for joined_by_or in [false, true] {
        let mut forms = Vec::new(alloc);
        for cmp in [Cmp::Gt, Cmp::Lt, Cmp::Ge] {
            forms.push(form(alloc, &Formula::Cmp(cmp, level(), height()))?)?;
        }
        let n = if joined_by_or {
            any_of(alloc, forms)?
        } else {
            all_of(alloc, forms)?
        };
        assert_eq!(rt; is_or(&n), joined_by_or);
        let rows = [
            Some((-1, 1, Rel::Gt)),
            Some((1, -1, Rel::Gt)),
            Some((-1, 1, Rel::Ge)),
        ];
        assert_eq!(rt; all_shown(alloc, &[n])?.as_slice(), rows.as_slice());
    }
    Ok(())
}
