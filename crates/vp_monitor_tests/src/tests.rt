//! Worked packages.
ghost use Rattle.std.specs.Prelude.{IfOk, IsOk};
ghost use Rattle.vp_terms.specs.WellFormed.{IsWellFormed};
ghost use Rattle.vp_monitor.specs.Meaning.{AreSized};
ghost use Rattle.vp_monitor.specs.Monitors.{AreMonitors};
ghost use Rattle.vp_monitor.specs.Refusals.{Passes};

use std::alloc::Global;
use std::process::Abort;
use std::test::Fail;
use vp_logic::{Atom, Norm, Rel, atoms};
use vp_monitor::{MonErr, Monitors, Obligation, Place, monitors, obligations};
use vp_poly::Poly;
use vp_terms::{
    Cmp, Expr, Formula, Items, NameList, NameText, Names, Package, Part, Plant, Prog, Ratio, Slack,
    Var,
};

// ---- making packages

// 2^62 - 1
const GREATEST: &str = "4611686018427387903";

// 2^61
const HALF: &str = "2305843009213693952";

fn number(text: &str) -> Result<Expr, Fail> {
    Ok(Expr::Num(Ratio::of_text(text.as_bytes()).ok_or("no number")?))
}

fn state(k: u32) -> Expr {
    Expr::Var(Var::State(k))
}

fn control(k: u32) -> Expr {
    Expr::Var(Var::Control(k))
}

fn sum(alloc: Global, a: Expr, b: Expr) -> Result<Expr, Fail> {
    Ok(Expr::Add(Box::new(alloc, a)?, Box::new(alloc, b)?))
}

fn less(alloc: Global, a: Expr, b: Expr) -> Result<Expr, Fail> {
    Ok(Expr::Sub(Box::new(alloc, a)?, Box::new(alloc, b)?))
}

fn product(alloc: Global, a: Expr, b: Expr) -> Result<Expr, Fail> {
    Ok(Expr::Mul(Box::new(alloc, a)?, Box::new(alloc, b)?))
}

fn negative(alloc: Global, a: Expr) -> Result<Expr, Fail> {
    less(alloc, number("0")?, a)
}

fn and(alloc: Global, a: Formula, b: Formula) -> Result<Formula, Fail> {
    Ok(Formula::And(Box::new(alloc, a)?, Box::new(alloc, b)?))
}

fn seq(alloc: Global, a: Prog, b: Prog) -> Result<Prog, Fail> {
    Ok(Prog::Seq(Box::new(alloc, a)?, Box::new(alloc, b)?))
}

fn choice(alloc: Global, a: Prog, b: Prog) -> Result<Prog, Fail> {
    Ok(Prog::Choice(Box::new(alloc, a)?, Box::new(alloc, b)?))
}

fn names(alloc: Global, texts: &[&str]) -> Result<NameList, Fail> {
    let mut list = Vec::new(alloc);
    for text in texts {
        list.push(text.to_string(alloc)?)?;
    }
    Ok(NameList::of(list))
}

// x <= H
fn full() -> Formula {
    Formula::Cmp(Cmp::Le, state(0), Expr::Var(Var::Param(0)))
}

// {f := *; ?f >= -3 & x + 10*f + 10 <= H;} ++ {f := -3;}
fn tank_controller(alloc: Global) -> Result<Prog, Fail> {
    let low = Formula::Cmp(Cmp::Ge, control(0), negative(alloc, number("3")?)?);
    let reach = sum(
        alloc,
        sum(alloc, state(0), product(alloc, number("10")?, control(0))?)?,
        number("10")?,
    )?;
    let below = Formula::Cmp(Cmp::Le, reach, Expr::Var(Var::Param(0)));
    let chosen = seq(alloc, Prog::Any(0), Prog::Test(and(alloc, low, below)?))?;
    choice(
        alloc,
        chosen,
        Prog::Assign(0, negative(alloc, number("3")?)?),
    )
}

// The tank: x' = f for a time from 0 to 10, and the level drifts by at most tau.
fn tank(alloc: Global) -> Result<Package, Fail> {
    let slack = Slack {
        low: negative(alloc, Expr::Var(Var::Tau))?,
        high: Expr::Var(Var::Tau),
    };
    Ok(Package {
        names: Names {
            params: names(alloc, &["H"])?,
            states: names(alloc, &["x"])?,
            controls: names(alloc, &["f"])?,
        },
        init: full(),
        inv: full(),
        safe: full(),
        ctrl: tank_controller(alloc)?,
        plant: Plant {
            low: number("0")?,
            high: number("10")?,
            rates: Items::of(vec![in alloc; control(0)]?),
            slack: Items::of(vec![in alloc; slack]?),
            domain: Formula::True,
        },
        fallback: Items::of(vec![in alloc; negative(alloc, number("3")?)?]?),
        certs: Items::of(Vec::new(alloc)),
    })
}

fn no_slack() -> Result<Slack, Fail> {
    Ok(Slack {
        low: number("0")?,
        high: number("0")?,
    })
}

// The double integrator: x' = v and v' = a without slack, and any a.
fn double(alloc: Global) -> Result<Package, Fail> {
    Ok(Package {
        names: Names {
            params: names(alloc, &[])?,
            states: names(alloc, &["x", "v"])?,
            controls: names(alloc, &["a"])?,
        },
        init: Formula::True,
        inv: Formula::True,
        safe: Formula::True,
        ctrl: Prog::Any(0),
        plant: Plant {
            low: number("0")?,
            high: number("10")?,
            rates: Items::of(vec![in alloc; state(1), control(0)]?),
            slack: Items::of(vec![in alloc; no_slack()?, no_slack()?]?),
            domain: Formula::True,
        },
        fallback: Items::of(vec![in alloc; number("0")?]?),
        certs: Items::of(Vec::new(alloc)),
    })
}

fn monitors_of(alloc: Global, pkg: &Package) -> Result<Monitors, Fail>
    ensures good { IsOk result → IsWellFormed pkg.now }
    ensures exact { IfOk result (AreMonitors pkg.now) }
    ensures passes { IsOk result → Passes pkg.now }
    ensures sized { IfOk result AreSized }
{
    if !pkg.is_well_formed() {
        return Err(Fail::new("not well formed"));
    }
    match monitors(alloc, pkg) {
        Ok(m) => Ok(m),
        Err(_) => Err(Fail::new("no monitors")),
    }
}

// ---- comparing

// The terms of a polynomial: coefficients, and places as often as their exponents say.
type Terms<'a> = &'a [(i128, &'a [usize])];

// The atoms of a list.
type Atoms<'a> = &'a [(Terms<'a>, Rel)];

fn powers_of(places: &[usize]) -> [u8; 32] {
    let mut powers: [u8; 32] = [0; 32];
    for place in places {
        if *place < 32 {
            powers[*place] = powers[*place].saturating_add(1);
        }
    }
    powers
}

fn check_poly(rt: &impl Abort, poly: &Poly, terms: Terms<'_>) -> Result<(), Fail> {
    assert_eq!(rt; poly.len() as usize, terms.len());
    for k in 0..poly.len() {
        let (coef, places) = terms.get(k as usize).ok_or("too many terms")?;
        let term = poly.term(k);
        assert_eq!(rt; term.coef, *coef);
        assert_eq!(rt; term.mono.powers, powers_of(places));
    }
    Ok(())
}

fn check_atoms(rt: &impl Abort, found: &[Atom], expected: Atoms<'_>) -> Result<(), Fail> {
    assert_eq!(rt; found.len(), expected.len());
    for (atom, (terms, rel)) in found.iter().zip(expected) {
        assert_eq!(rt; atom.rel, *rel);
        check_poly(rt, &atom.poly, terms)?;
    }
    Ok(())
}

// The parts of a list, and its atoms.
fn check_parts(
    rt: &impl Abort,
    alloc: Global,
    parts: &[Norm],
    count: usize,
    expected: Atoms<'_>,
) -> Result<(), Fail> {
    assert_eq!(rt; parts.len(), count);
    check_atoms(rt, &atoms(alloc, parts)?, expected)
}

fn check_cases(rt: &impl Abort, o: &Obligation, expected: &[&[u32]]) -> Result<(), Fail> {
    let found = o.cases.get();
    assert_eq!(rt; found.len(), expected.len());
    for (case, places) in found.iter().zip(expected) {
        assert_eq!(rt; case.as_slice(), *places);
    }
    Ok(())
}

// ---- the tank, with H at place 0, x at 1, f at 2, x@ at 3, f@ at 4 and tau at 5

// H - x
const ROOM: Terms<'static> = &[(1, &[0]), (-1, &[1])];

// f@ + 3
const ABOVE: Terms<'static> = &[(1, &[4]), (3, &[])];

// H - x - 10*f@ - 10
const REACH: Terms<'static> = &[(1, &[0]), (-1, &[1]), (-10, &[4]), (-10, &[])];

// tau, and 10 - tau
const PASSED: Terms<'static> = &[(1, &[5])];

const LEFT: Terms<'static> = &[(-1, &[5]), (10, &[])];

// x - H
const OVER: Terms<'static> = &[(-1, &[0]), (1, &[1])];

#[test]
fn the_tank(rt: HostRuntime) -> Result<(), Fail> {
    let alloc = rt.alloc();
    let pkg = tank(alloc)?;
    let m = monitors_of(alloc, &pkg)?;
    for form in [&m.init, &m.inv, &m.safe] {
        assert!(&rt; matches!(form, Norm::Atom(_)));
    }
    let [first, second] = m.paths.get() else {
        return Err(Fail::new("not two paths"));
    };
    let guard: Atoms<'_> = &[(ABOVE, Rel::Ge), (REACH, Rel::Ge)];
    check_parts(&rt, alloc, first.parts.get(), 1, guard)?;
    check_parts(&rt, alloc, second.parts.get(), 1, &[(ABOVE, Rel::Eq)])?;
    let low: Terms<'_> = &[(-1, &[2, 5]), (-1, &[1]), (1, &[3]), (1, &[5])];
    let high: Terms<'_> = &[(1, &[2, 5]), (1, &[1]), (-1, &[3]), (1, &[5])];
    let plant: Atoms<'_> = &[
        (PASSED, Rel::Ge),
        (LEFT, Rel::Ge),
        (low, Rel::Ge),
        (high, Rel::Ge),
    ];
    check_parts(&rt, alloc, m.plant.get(), 4, plant)?;
    let [fallback] = m.fallback.get() else {
        return Err(Fail::new("not one polynomial"));
    };
    check_poly(&rt, fallback, &[(-3, &[])])?;
    let all = obligations(alloc, &pkg, &m).ok().ok_or("no obligations")?;
    let [init, safe, step, fallback] = all.as_slice() else {
        return Err(Fail::new("not four"));
    };
    for (o, part) in [(init, Part::Init), (safe, Part::Safe)] {
        assert_eq!(&rt; o.part, part);
        check_atoms(&rt, o.atoms.get(), &[(ROOM, Rel::Ge), (OVER, Rel::Gt)])?;
        check_cases(&rt, o, &[&[0, 1]])?;
    }
    assert_eq!(&rt; step.part, Part::Step);
    let next_low: Terms<'_> = &[(-1, &[4, 5]), (-1, &[1]), (1, &[3]), (1, &[5])];
    let next_high: Terms<'_> = &[(1, &[4, 5]), (1, &[1]), (-1, &[3]), (1, &[5])];
    let next_over: Terms<'_> = &[(-1, &[0]), (1, &[3])];
    let of_step: Atoms<'_> = &[
        (ROOM, Rel::Ge),
        (ABOVE, Rel::Ge),
        (REACH, Rel::Ge),
        (ABOVE, Rel::Eq),
        (PASSED, Rel::Ge),
        (LEFT, Rel::Ge),
        (next_low, Rel::Ge),
        (next_high, Rel::Ge),
        (next_over, Rel::Gt),
    ];
    check_atoms(&rt, step.atoms.get(), of_step)?;
    check_cases(
        &rt,
        step,
        &[&[0, 1, 2, 4, 5, 6, 7, 8], &[0, 3, 4, 5, 6, 7, 8]],
    )?;
    assert_eq!(&rt; fallback.part, Part::Fallback);
    let below: Terms<'_> = &[(-1, &[4]), (-3, &[])];
    let beyond: Terms<'_> = &[(-1, &[0]), (1, &[1]), (10, &[4]), (10, &[])];
    let of_fallback: Atoms<'_> = &[
        (ROOM, Rel::Ge),
        (ABOVE, Rel::Eq),
        (below, Rel::Gt),
        (beyond, Rel::Gt),
        (ABOVE, Rel::Gt),
        (below, Rel::Gt),
    ];
    check_atoms(&rt, fallback.atoms.get(), of_fallback)?;
    check_cases(
        &rt,
        fallback,
        &[&[0, 1, 2, 4], &[0, 1, 2, 5], &[0, 1, 3, 4], &[0, 1, 3, 5]],
    )
}

// ---- the double integrator, with x at place 0, v at 1, a at 2, x@ at 3, v@ at 4, a@ at 5 and tau at 6

fn check_double(
    rt: &impl Abort,
    alloc: Global,
    pkg: &Package,
    equation: Atoms<'_>,
    fallback: Terms<'_>,
) -> Result<Vec<Obligation>, Fail> {
    let m = monitors_of(alloc, pkg)?;
    let [path] = m.paths.get() else {
        return Err(Fail::new("not one path"));
    };
    check_parts(rt, alloc, path.parts.get(), equation.len(), equation)?;
    let position: Terms<'_> = &[(-1, &[2, 6, 6]), (-2, &[1, 6]), (-2, &[0]), (2, &[3])];
    let speed: Terms<'_> = &[(-1, &[2, 6]), (-1, &[1]), (1, &[4])];
    let plant: Atoms<'_> = &[
        (&[(1, &[6])], Rel::Ge),
        (&[(-1, &[6]), (10, &[])], Rel::Ge),
        (position, Rel::Eq),
        (speed, Rel::Eq),
    ];
    check_parts(rt, alloc, m.plant.get(), 4, plant)?;
    let [poly] = m.fallback.get() else {
        return Err(Fail::new("not one polynomial"));
    };
    check_poly(rt, poly, fallback)?;
    let all = obligations(alloc, pkg, &m).ok().ok_or("no obligations")?;
    let [init, safe, step, _fallback] = all.as_slice() else {
        return Err(Fail::new("not four"));
    };
    for o in [init, safe, step] {
        check_cases(rt, o, &[])?;
    }
    Ok(all)
}

// Any choice leaves no case; the brake's `a := -v` leaves two of its fallback.
#[test]
fn the_double_and_the_brake(rt: HostRuntime) -> Result<(), Fail> {
    let alloc = rt.alloc();
    let mut pkg = double(alloc)?;
    let all = check_double(&rt, alloc, &pkg, &[], &[])?;
    let last = all.last().ok_or("none")?;
    check_cases(&rt, last, &[])?;
    pkg.ctrl = Prog::Assign(0, negative(alloc, state(1))?);
    pkg.fallback = Items::of(vec![in alloc; negative(alloc, state(1))?]?);
    let back: Terms<'_> = &[(1, &[1]), (1, &[5])];
    let forth: Terms<'_> = &[(-1, &[1]), (-1, &[5])];
    let all = check_double(&rt, alloc, &pkg, &[(back, Rel::Eq)], &[(-1, &[1])])?;
    let last = all.last().ok_or("none")?;
    let expected: Atoms<'_> = &[(back, Rel::Eq), (back, Rel::Gt), (forth, Rel::Gt)];
    check_atoms(&rt, last.atoms.get(), expected)?;
    check_cases(&rt, last, &[&[0, 1], &[0, 2]])
}

// The domain is read at the new states, `f*tau - (tau*f + 1 - 1)` is no room, and a fallback of 1 is
// no fraction though it is written as 2/2.
#[test]
fn bounds_written_differently(rt: HostRuntime) -> Result<(), Fail> {
    let alloc = rt.alloc();
    let mut pkg = tank(alloc)?;
    let tau = Expr::Var(Var::Tau);
    let turned = product(alloc, Expr::Var(Var::Tau), control(0))?;
    let high = less(alloc, sum(alloc, turned, number("1")?)?, number("1")?)?;
    let slack = Slack {
        low: product(alloc, control(0), tau)?,
        high,
    };
    pkg.plant.slack = Items::of(vec![in alloc; slack]?);
    pkg.plant.domain = and(
        alloc,
        full(),
        Formula::Cmp(Cmp::Ge, control(0), Expr::Var(Var::Tau)),
    )?;
    pkg.fallback = Items::of(vec![in alloc; number("2/2")?]?);
    let m = monitors_of(alloc, &pkg)?;
    let drift: Terms<'_> = &[(-2, &[2, 5]), (-1, &[1]), (1, &[3])];
    let room: Terms<'_> = &[(1, &[0]), (-1, &[3])];
    let slow: Terms<'_> = &[(1, &[2]), (-1, &[5])];
    let plant: Atoms<'_> = &[
        (PASSED, Rel::Ge),
        (LEFT, Rel::Ge),
        (drift, Rel::Eq),
        (room, Rel::Ge),
        (slow, Rel::Ge),
    ];
    check_parts(&rt, alloc, m.plant.get(), 5, plant)?;
    let [fallback] = m.fallback.get() else {
        return Err(Fail::new("not one polynomial"));
    };
    check_poly(&rt, fallback, &[(1, &[])])
}

// ---- refusals

fn refusal(alloc: Global, pkg: &Package) -> Result<MonErr, Fail> {
    if !pkg.is_well_formed() {
        return Err(Fail::new("not well formed"));
    }
    let refusal = monitors(alloc, pkg).err().ok_or("not refused")?;
    Ok(refusal)
}

// x <= 2^62 - 1, whose difference has the norm 2^62
fn over() -> Result<Formula, Fail> {
    Ok(Formula::Cmp(Cmp::Le, state(0), number(GREATEST)?))
}

// Each place once, and what comes before what.
#[test]
fn wide(rt: HostRuntime) -> Result<(), Fail> {
    let alloc = rt.alloc();
    let mut expected = Vec::new(alloc);
    let mut found = Vec::new(alloc);
    // From the last place to the first, each before those that are wide already.
    let mut pkg = double(alloc)?;
    pkg.fallback = Items::of(vec![in alloc; number(GREATEST)?]?);
    expected.push(Place::Fallback(0))?;
    found.push(refusal(alloc, &pkg)?)?;
    pkg.plant.domain = over()?;
    expected.push(Place::Domain)?;
    found.push(refusal(alloc, &pkg)?)?;
    let room = Slack {
        low: negative(alloc, number(HALF)?)?,
        high: number(HALF)?,
    };
    pkg.plant.slack = Items::of(vec![in alloc; no_slack()?, room]?);
    expected.push(Place::Slack(1))?;
    found.push(refusal(alloc, &pkg)?)?;
    pkg.plant.high = number(GREATEST)?;
    expected.push(Place::Time)?;
    found.push(refusal(alloc, &pkg)?)?;
    pkg.plant.rates = Items::of(vec![in alloc; number("0")?, number(GREATEST)?]?);
    expected.push(Place::Flow(1))?;
    found.push(refusal(alloc, &pkg)?)?;
    pkg.ctrl = Prog::Assign(0, number(GREATEST)?);
    expected.push(Place::Ctrl)?;
    found.push(refusal(alloc, &pkg)?)?;
    pkg.safe = over()?;
    expected.push(Place::Safe)?;
    found.push(refusal(alloc, &pkg)?)?;
    pkg.inv = over()?;
    expected.push(Place::Inv)?;
    found.push(refusal(alloc, &pkg)?)?;
    pkg.init = over()?;
    expected.push(Place::Init)?;
    found.push(refusal(alloc, &pkg)?)?;
    assert_eq!(&rt; found.len(), 9);
    for (error, place) in found.iter().zip(&expected) {
        assert!(&rt; matches!(error, MonErr::Wide { place: at } if *at == *place));
    }
    Ok(())
}

fn is_named(name: &NameText, text: &str) -> bool {
    name.get() == text
}

#[test]
fn refusals(rt: HostRuntime) -> Result<(), Fail> {
    let alloc = rt.alloc();
    // fallback f = 1/2*x
    let mut pkg = tank(alloc)?;
    let half = product(alloc, number("1/2")?, state(0))?;
    pkg.fallback = Items::of(vec![in alloc; half]?);
    let found = refusal(alloc, &pkg)?;
    assert!(&rt; matches!(&found, MonErr::Fraction { name } if is_named(name, "f")));
    // A fraction that is over is wide.
    let wide = product(alloc, number("1/2")?, number(GREATEST)?)?;
    pkg.fallback = Items::of(vec![in alloc; wide]?);
    let found = refusal(alloc, &pkg)?;
    assert!(&rt;
        matches!(
            &found,
            MonErr::Wide {
                place: Place::Fallback(0)
            }
        )
    );
    // {f := *; f := -3;}
    let again = Prog::Assign(0, negative(alloc, number("3")?)?);
    pkg.ctrl = seq(alloc, Prog::Any(0), again)?;
    let found = refusal(alloc, &pkg)?;
    assert!(&rt; matches!(&found, MonErr::Hidden { name } if is_named(name, "f")));
    // x' = x*x
    let mut pkg = tank(alloc)?;
    let square = product(alloc, state(0), state(0))?;
    pkg.plant.rates = Items::of(vec![in alloc; square]?);
    let found = refusal(alloc, &pkg)?;
    assert!(&rt; matches!(&found, MonErr::NotLinear { name } if is_named(name, "x")));
    // Nine times {f := 1;} ++ {f := 2;}
    pkg.ctrl = Prog::Skip;
    for _ in 0..9 {
        let one = Prog::Assign(0, number("1")?);
        let either = choice(alloc, one, Prog::Assign(0, number("2")?))?;
        pkg.ctrl = seq(alloc, either, pkg.ctrl)?;
    }
    let found = refusal(alloc, &pkg)?;
    assert!(&rt; matches!(&found, MonErr::Paths { count: 512 }));
    // x' = v, v' = x
    let mut pkg = double(alloc)?;
    pkg.plant.rates = Items::of(vec![in alloc; state(1), state(0)]?);
    let found = refusal(alloc, &pkg)?;
    let MonErr::Cycle { names } = &found else {
        return Err(Fail::new("no cycle"));
    };
    let [x, v] = names.get() else {
        return Err(Fail::new("not two"));
    };
    assert_eq!(&rt; x.as_str(), "x");
    assert_eq!(&rt; v.as_str(), "v");
    Ok(())
}

// ---- cases

// So many copies of x <= H.
fn copies(alloc: Global, count: u32) -> Result<Formula, Fail> {
    let mut all = full();
    for _ in 1..count {
        all = and(alloc, all, full())?;
    }
    Ok(all)
}

// 256 cases are given and 257 are refused; the part with too many that comes first is told.
#[test]
fn many_cases(rt: HostRuntime) -> Result<(), Fail> {
    let alloc = rt.alloc();
    let mut pkg = tank(alloc)?;
    pkg.safe = copies(alloc, 256)?;
    let m = monitors_of(alloc, &pkg)?;
    let all = obligations(alloc, &pkg, &m).ok().ok_or("no obligations")?;
    let [_init, safe, _step, _fallback] = all.as_slice() else {
        return Err(Fail::new("not four"));
    };
    assert_eq!(&rt; safe.cases.get().len(), 256);
    pkg.safe = copies(alloc, 257)?;
    let m = monitors_of(alloc, &pkg)?;
    let refused = obligations(alloc, &pkg, &m).err().ok_or("not refused")?;
    assert!(&rt;
        matches!(
            refused,
            MonErr::Cases {
                part: Part::Safe,
                count: 257
            }
        )
    );
    pkg.inv = copies(alloc, 258)?;
    let m = monitors_of(alloc, &pkg)?;
    let refused = obligations(alloc, &pkg, &m).err().ok_or("not refused")?;
    assert!(&rt;
        matches!(
            refused,
            MonErr::Cases {
                part: Part::Init,
                count: 258
            }
        )
    );
    // Init is true and the invariant false: one case, without atoms.
    let mut pkg = tank(alloc)?;
    pkg.init = Formula::True;
    pkg.inv = Formula::Not(Box::new(alloc, Formula::True)?);
    let m = monitors_of(alloc, &pkg)?;
    let all = obligations(alloc, &pkg, &m).ok().ok_or("no obligations")?;
    let init = all.first().ok_or("none")?;
    assert!(&rt; init.atoms.get().is_empty());
    check_cases(&rt, init, &[&[]])
}
