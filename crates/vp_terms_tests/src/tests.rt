use std::alloc::Global;
use std::test::Fail;
use vp_terms::{
    Cmp, Expr, Formula, Items, NameList, Names, Package, Places, Plant, Prog, Ratio, Slack, Var,
    holds_at, leads_to, value_at,
};

// Texts, and the parts of the number that each writes, if it writes one.
const NUMBERS: [(&str, Option<(i128, i128)>); 31] = [
    ("0", Some((0, 1))),
    ("7", Some((7, 1))),
    ("007", Some((7, 1))),
    ("4611686018427387903", Some((4_611_686_018_427_387_903, 1))),
    (
        "0004611686018427387903",
        Some((4_611_686_018_427_387_903, 1)),
    ),
    ("4611686018427387904", None),
    ("99999999999999999999999999", None),
    ("0.5", Some((1, 2))),
    ("6/4", Some((3, 2))),
    ("06/004", Some((3, 2))),
    ("1/2", Some((1, 2))),
    ("0/9", Some((0, 1))),
    ("4611686018427387903/4611686018427387903", Some((1, 1))),
    ("4611686018427387904/4611686018427387904", None),
    ("1/4611686018427387904", None),
    ("1/0", None),
    ("0/0", None),
    ("2.50", Some((5, 2))),
    ("0.000000000000000001", Some((1, 1_000_000_000_000_000_000))),
    ("0.0000000000000000000", None),
    (
        "4.611686018427387903",
        Some((4_611_686_018_427_387_903, 1_000_000_000_000_000_000)),
    ),
    ("4.611686018427387904", None),
    ("", None),
    ("1.", None),
    (".5", None),
    ("1/2/3", None),
    ("1 / 2", None),
    ("-1", None),
    ("12x", None),
    ("1.2.3", None),
    ("x", None),
];

#[test]
fn numbers(rt: HostRuntime) -> Result<(), Fail> {
    for (text, parts) in NUMBERS {
        let number = Ratio::of_text(text.as_bytes());
        assert_eq!(rt; number.map(|r| (r.num, r.den)), parts, "{text}");
    }
    Ok(())
}

fn number(text: &str) -> Result<Ratio, Fail> {
    Ok(Ratio::of_text(text.as_bytes()).ok_or("no number")?)
}

fn whole(value: i128) -> Result<Ratio, Fail> {
    Ok(Ratio::reduced(value, 1).ok_or("too large")?)
}

fn constant(text: &str) -> Result<Expr, Fail> {
    Ok(Expr::Num(number(text)?))
}

fn sum(alloc: Global, l: Expr, r: Expr) -> Result<Expr, Fail> {
    Ok(Expr::Add(Box::new(alloc, l)?, Box::new(alloc, r)?))
}

fn difference(alloc: Global, l: &str, r: &str) -> Result<Expr, Fail> {
    Ok(Expr::Sub(
        Box::new(alloc, constant(l)?)?,
        Box::new(alloc, constant(r)?)?,
    ))
}

fn product(alloc: Global, l: Expr, r: Expr) -> Result<Expr, Fail> {
    Ok(Expr::Mul(Box::new(alloc, l)?, Box::new(alloc, r)?))
}

fn power(alloc: Global, base: Expr, exponent: u32) -> Result<Expr, Fail> {
    Ok(Expr::Pow(Box::new(alloc, base)?, exponent))
}

// A tank: the height H, the level x and the flow f.
const TANK: Places = Places {
    params: 1,
    states: 1,
    controls: 1,
};

// x + 10 f + 10, of this flow.
fn level_after(alloc: Global, flow: Var) -> Result<Expr, Fail> {
    let moved = product(alloc, constant("10")?, Expr::Var(flow))?;
    let level = sum(alloc, Expr::Var(Var::State(0)), moved)?;
    sum(alloc, level, constant("10")?)
}

// f >= -3 and x + 10 f + 10 <= H, of this flow.
fn guard(alloc: Global, flow: Var) -> Result<Formula, Fail> {
    let least = difference(alloc, "0", "3")?;
    let above = Box::new(alloc, Formula::Cmp(Cmp::Ge, Expr::Var(flow), least))?;
    let level = level_after(alloc, flow)?;
    let below = Formula::Cmp(Cmp::Le, level, Expr::Var(Var::Param(0)));
    Ok(Formula::And(above, Box::new(alloc, below)?))
}

// The guard of the next flow, where the tank is 1000 high.
fn guard_at(alloc: Global, level: &str, flow: &str) -> Result<Option<bool>, Fail> {
    let zero = whole(0)?;
    let values = [
        whole(1000)?,
        number(level)?,
        zero,
        zero,
        number(flow)?,
        zero,
    ];
    Ok(holds_at(&guard(alloc, Var::NextControl(0))?, TANK, &values))
}

#[test]
fn guard_of_the_tank(rt: HostRuntime) -> Result<(), Fail> {
    let rows = [
        ("500", "5", Some(true)),
        ("930", "7", Some(false)),
        ("920", "7", Some(true)),
        ("920.1", "7", Some(false)),
        ("4611686018427387903", "0", None),
    ];
    for (level, flow, expected) in rows {
        assert_eq!(rt; guard_at(rt.alloc(), level, flow)?, expected);
    }
    let guard = guard(rt.alloc(), Var::NextControl(0))?;
    assert_eq!(rt; holds_at(&guard, TANK, &[whole(1000)?]), None);
    Ok(())
}

// The parts of the value of an expression without variables, if it has one.
fn parts_of(expr: &Expr) -> Option<(i128, i128)> {
    let value = value_at(expr, TANK, &[])?;
    Some((value.num, value.den))
}

#[test]
fn values(rt: HostRuntime) -> Result<(), Fail> {
    let alloc = rt.alloc();
    let less = difference(alloc, "1/3", "1/2")?;
    assert_eq!(rt; parts_of(&less), Some((-1, 6)));
    let less = power(alloc, less, 3)?;
    assert_eq!(rt; parts_of(&less), Some((-1, 216)));
    for (text, exponent, expected) in [("1/2", 62, None), ("1/3", 0, Some((1, 1)))] {
        let expr = power(alloc, constant(text)?, exponent)?;
        assert_eq!(rt; parts_of(&expr), expected);
    }
    Ok(())
}

#[test]
fn comparisons(rt: HostRuntime) -> Result<(), Fail> {
    let half = number("1/2")?;
    let same = number("2/4")?;
    let more = number("2/3")?;
    let rows = [
        (Cmp::Le, true, true, false),
        (Cmp::Lt, true, false, false),
        (Cmp::Ge, false, true, true),
        (Cmp::Gt, false, false, true),
        (Cmp::Eq, false, true, false),
        (Cmp::Ne, true, false, true),
    ];
    for (cmp, less, equal, greater) in rows {
        assert_eq!(rt; half.compares(cmp, more), less);
        assert_eq!(rt; half.compares(cmp, same), equal);
        assert_eq!(rt; more.compares(cmp, half), greater);
    }
    Ok(())
}

#[test]
fn places(rt: HostRuntime) -> Result<(), Fail> {
    let places = Places {
        params: 2,
        states: 3,
        controls: 4,
    };
    let rows = [
        (Var::Param(1), 1),
        (Var::State(0), 2),
        (Var::Control(0), 5),
        (Var::NextState(0), 9),
        (Var::NextControl(0), 12),
        (Var::Tau, 16),
    ];
    for (var, place) in rows {
        assert_eq!(rt; var.place(places), place);
    }
    Ok(())
}

// A statement, and then the test of the guard.
fn tested(alloc: Global, first: Prog) -> Result<Prog, Fail> {
    let first = Box::new(alloc, first)?;
    let test = Prog::Test(guard(alloc, Var::Control(0))?);
    Ok(Prog::Seq(first, Box::new(alloc, test)?))
}

// The tank's controller: any flow that the guard allows, or the flow -3.
fn controller(alloc: Global) -> Result<Prog, Fail> {
    let chosen = Box::new(alloc, tested(alloc, Prog::Any(0))?)?;
    let least = Prog::Assign(0, difference(alloc, "0", "3")?);
    Ok(Prog::Choice(chosen, Box::new(alloc, least)?))
}

// If the guard holds the flow becomes 1, and else 2.
fn switch(alloc: Global) -> Result<Prog, Fail> {
    let high = Box::new(alloc, Prog::Assign(0, constant("1")?))?;
    let low = Box::new(alloc, Prog::Assign(0, constant("2")?))?;
    Ok(Prog::If(guard(alloc, Var::Control(0))?, high, low))
}

#[derive(Clone, Copy)]
enum Program {
    // The tank's controller.
    Tank,
    // The flow becomes 7, and the guard is tested.
    Tested,
    // The guard decides on the flow.
    Switch,
}

fn make_program(alloc: Global, which: Program) -> Result<Prog, Fail> {
    match which {
        Program::Tank => controller(alloc),
        Program::Tested => tested(alloc, Prog::Assign(0, constant("7")?)),
        Program::Switch => switch(alloc),
    }
}

// Whether the program leads from one flow to another, where the tank is 1000 high.
fn leads(prog: &Prog, level: i128, flow: i128, after: i128) -> Result<Option<bool>, Fail> {
    let mut values = [whole(1000)?, whole(level)?, whole(flow)?];
    if !prog.is_well_formed(TANK) {
        return Err(Fail::new("not well formed"));
    }
    Ok(leads_to(prog, TANK, &mut values, &[whole(after)?]))
}

#[test]
fn controllers(rt: HostRuntime) -> Result<(), Fail> {
    let rows = [
        (Program::Tank, 500, 0, 5, Some(true)),
        (Program::Tank, 930, 0, 6, Some(true)),
        (Program::Tank, 930, 0, 7, Some(false)),
        (Program::Tank, 930, 0, -3, Some(true)),
        (Program::Tank, 4_611_686_018_427_387_903, 0, 7, None),
        (Program::Tested, 900, 0, 7, Some(true)),
        (Program::Tested, 930, 0, 7, Some(false)),
        (Program::Switch, 900, 9, 1, Some(true)),
        (Program::Switch, 900, 9, 2, Some(false)),
        (Program::Switch, 930, 9, 2, Some(true)),
        (Program::Switch, 930, 9, 1, Some(false)),
    ];
    for (which, level, flow, after, expected) in rows {
        let prog = make_program(rt.alloc(), which)?;
        assert_eq!(rt; leads(&prog, level, flow, after)?, expected);
    }
    Ok(())
}

fn names(alloc: Global, state: &str) -> Result<Names, Fail> {
    let states = vec![in alloc; String::from_str(alloc, state)?]?;
    let controls = vec![in alloc; String::from_str(alloc, "a")?]?;
    Ok(Names {
        params: NameList::of(Vec::new(alloc)),
        states: NameList::of(states),
        controls: NameList::of(controls),
    })
}

// A plant with this rate, if any, and the domain that this variable is at most 9.
fn plant(alloc: Global, rate: Option<Var>, domain: Var) -> Result<Plant, Fail> {
    let mut rates = Vec::new(alloc);
    if let Some(rate) = rate {
        rates.push(Expr::Var(rate))?;
    }
    let slack = Slack {
        low: constant("0")?,
        high: constant("0")?,
    };
    Ok(Plant {
        low: constant("0")?,
        high: constant("10")?,
        rates: Items::of(rates),
        slack: Items::of(vec![in alloc; slack]?),
        domain: Formula::Cmp(Cmp::Le, Expr::Var(domain), constant("9")?),
    })
}

// A package with one state, whose name is `state`, and one control `a`.
fn package(alloc: Global, state: &str, rate: Option<Var>, domain: Var) -> Result<Package, Fail> {
    Ok(Package {
        names: names(alloc, state)?,
        init: Formula::True,
        inv: Formula::True,
        safe: Formula::True,
        ctrl: Prog::Any(0),
        plant: plant(alloc, rate, domain)?,
        fallback: Items::of(vec![in alloc; constant("0")?]?),
        certs: Items::of(Vec::new(alloc)),
    })
}

// Not well formed are a name that stands twice, a state without a rate, a rate with `tau`, a domain
// with a next state, and a control that isn't declared.
#[test]
fn packages(rt: HostRuntime) -> Result<(), Fail> {
    let rows = [
        ("x", Some(Var::Control(0)), Var::Tau, true),
        ("a", Some(Var::Control(0)), Var::Tau, false),
        ("x", None, Var::Tau, false),
        ("x", Some(Var::Tau), Var::Tau, false),
        ("x", Some(Var::Control(0)), Var::NextState(0), false),
        ("x", Some(Var::Control(1)), Var::Tau, false),
    ];
    for (state, rate, domain, expected) in rows {
        let pkg = package(rt.alloc(), state, rate, domain)?;
        assert_eq!(rt; pkg.is_well_formed(), expected);
    }
    Ok(())
}
