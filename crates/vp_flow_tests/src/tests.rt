//! Worked flows.
use std::alloc::Global;
use std::process::Abort;
use std::test::Fail;
use vp_flow::{FlowErr, flow};
use vp_poly::Scaled;
use vp_terms::{
    Expr, Formula, Items, NameList, NameText, Names, Package, Plant, Prog, Ratio, Slack, Var,
};

const A: Var = Var::Control(0);

// A number times a product of variables.
type Product = ((i128, i128), &'static [Var]);

// The terms of a right side.
type Rate = &'static [Product];

fn number((num, den): (i128, i128)) -> Result<Expr, Fail> {
    if den < 1 {
        return Err(Fail::new("no denominator"));
    }
    Ok(Expr::Num(Ratio::reduced(num, den).ok_or("no number")?))
}

fn state(k: u32) -> Expr {
    Expr::Var(Var::State(k))
}

fn sum_of(alloc: Global, l: Expr, r: Expr) -> Result<Expr, Fail> {
    Ok(Expr::Add(Box::new(alloc, l)?, Box::new(alloc, r)?))
}

fn difference_of(alloc: Global, l: Expr, r: Expr) -> Result<Expr, Fail> {
    Ok(Expr::Sub(Box::new(alloc, l)?, Box::new(alloc, r)?))
}

fn product_of(alloc: Global, l: Expr, r: Expr) -> Result<Expr, Fail> {
    Ok(Expr::Mul(Box::new(alloc, l)?, Box::new(alloc, r)?))
}

fn power_of(alloc: Global, base: Expr, exponent: u32) -> Result<Expr, Fail> {
    Ok(Expr::Pow(Box::new(alloc, base)?, exponent))
}

fn product(alloc: Global, (coefficient, factors): Product) -> Result<Expr, Fail> {
    let mut product = number(coefficient)?;
    for factor in factors {
        product = product_of(alloc, product, Expr::Var(*factor))?;
    }
    Ok(product)
}

fn rate(alloc: Global, products: Rate) -> Result<Expr, Fail> {
    let [first, rest @ ..] = products else {
        return number((0, 1));
    };
    let mut sum = product(alloc, *first)?;
    for one in rest {
        sum = sum_of(alloc, sum, product(alloc, *one)?)?;
    }
    Ok(sum)
}

fn names(alloc: Global, texts: &[&str]) -> Result<NameList, Fail> {
    let mut names = Vec::new(alloc);
    for text in texts {
        names.push(text.to_string(alloc)?)?;
    }
    Ok(NameList::of(names))
}

// A package of these states with these right sides, and a control `a`.
fn package(alloc: Global, states: &[&str], rates: Vec<Expr>) -> Result<Package, Fail> {
    let mut slack = Vec::new(alloc);
    for _state in states {
        slack.push(Slack {
            low: number((0, 1))?,
            high: number((0, 1))?,
        })?;
    }
    let mut fallback = Vec::new(alloc);
    fallback.push(number((0, 1))?)?;
    Ok(Package {
        names: Names {
            params: names(alloc, &[])?,
            states: names(alloc, states)?,
            controls: names(alloc, &["a"])?,
        },
        init: Formula::True,
        inv: Formula::True,
        safe: Formula::True,
        ctrl: Prog::Any(0),
        plant: Plant {
            low: number((0, 1))?,
            high: number((10, 1))?,
            rates: Items::of(rates),
            slack: Items::of(slack),
            domain: Formula::True,
        },
        fallback: Items::of(fallback),
        certs: Items::of(Vec::new(alloc)),
    })
}

// The same, from sums of products.
fn model(alloc: Global, states: &[&str], sums: &[Rate]) -> Result<Package, Fail> {
    let mut rates = Vec::new(alloc);
    for one in sums {
        rates.push(rate(alloc, one)?)?;
    }
    package(alloc, states, rates)
}

fn flows_of(rt: &impl Abort, alloc: Global, pkg: &Package) -> Result<Vec<Scaled>, Fail> {
    assert!(rt; pkg.is_well_formed());
    let flows = flow(alloc, pkg).ok().ok_or("no flow")?;
    Ok(flows)
}

// What refuses the flow, in the order of the refusals, and the names.
fn refusal(alloc: Global, err: &FlowErr) -> Result<(u8, Vec<String>), Fail> {
    let mut names = Vec::new(alloc);
    let kind = match err {
        FlowErr::Rate { name } => {
            names.push(text_of(alloc, name)?)?;
            1
        }
        FlowErr::NotLinear { name } => {
            names.push(text_of(alloc, name)?)?;
            2
        }
        FlowErr::Cycle { names: all } => {
            for name in all.get() {
                names.push(name.to_string(alloc)?)?;
            }
            3
        }
        FlowErr::Wide { name } => {
            names.push(text_of(alloc, name)?)?;
            4
        }
        FlowErr::Memory => 5,
    };
    Ok((kind, names))
}

fn text_of(alloc: Global, name: &NameText) -> Result<String, Fail> {
    let text = name.get();
    Ok(text.to_string(alloc)?)
}

fn is_refused(
    rt: &impl Abort,
    alloc: Global,
    pkg: &Package,
    kind: u8,
    names: &[&str],
) -> Result<(), Fail> {
    assert!(rt; pkg.is_well_formed());
    let err = flow(alloc, pkg).err().ok_or("a flow")?;
    let (found, said) = refusal(alloc, &err)?;
    assert_eq!(rt; found, kind);
    assert_eq!(rt; said.len(), names.len());
    for (k, name) in names.iter().enumerate() {
        assert!(rt; k < said.len());
        assert_eq!(rt; said[k].as_str(), *name);
    }
    Ok(())
}

// A coefficient and the places of its factors.
type Listed = (i128, &'static [usize]);

fn is_flow(rt: &impl Abort, flow: &Scaled, den: i128, terms: &[Listed]) -> Result<(), Fail> {
    assert_eq!(rt; flow.weight.den, den);
    assert_eq!(rt; flow.poly.len() as usize, terms.len());
    for (k, (coefficient, factors)) in terms.iter().enumerate() {
        assert!(rt; k < flow.poly.len() as usize);
        let term = flow.poly.term(k as u32);
        let mut powers = [0; 32];
        for factor in *factors {
            assert!(rt; *factor < 32 && powers[*factor] < 12);
            powers[*factor] += 1;
        }
        assert_eq!(rt; term.coef, *coefficient);
        assert_eq!(rt; term.mono.powers.as_slice(), powers.as_slice());
    }
    Ok(())
}

#[test]
fn a_double_integrator(rt: HostRuntime) -> Result<(), Fail> {
    let alloc = rt.alloc();
    let pkg = model(
        alloc,
        &["x", "v"],
        &[&[((1, 1), &[Var::State(1)])], &[((1, 1), &[A])]],
    )?;
    let flows = flows_of(&rt, alloc, &pkg)?;
    assert!(&rt; flows.len() == 2);
    is_flow(
        &rt,
        &flows[0],
        2,
        &[(1, &[2, 6, 6]), (2, &[1, 6]), (2, &[0])],
    )?;
    is_flow(&rt, &flows[1], 1, &[(1, &[2, 6]), (1, &[1])])?;
    // The same states in the other order.
    let pkg = model(
        alloc,
        &["v", "x"],
        &[&[((1, 1), &[A])], &[((1, 1), &[Var::State(0)])]],
    )?;
    let flows = flows_of(&rt, alloc, &pkg)?;
    assert!(&rt; flows.len() == 2);
    is_flow(&rt, &flows[0], 1, &[(1, &[2, 6]), (1, &[0])])?;
    is_flow(
        &rt,
        &flows[1],
        2,
        &[(1, &[2, 6, 6]), (2, &[0, 6]), (2, &[1])],
    )?;
    Ok(())
}

// w' = 1/2*x, x' = 1/3*y + 1, y' = z and z' = 3/5, solved by hand.
#[test]
fn a_chain_of_four(rt: HostRuntime) -> Result<(), Fail> {
    let alloc = rt.alloc();
    let pkg = model(
        alloc,
        &["w", "x", "y", "z"],
        &[
            &[((1, 2), &[Var::State(1)])],
            &[((1, 3), &[Var::State(2)]), ((1, 1), &[])],
            &[((1, 1), &[Var::State(3)])],
            &[((3, 5), &[])],
        ],
    )?;
    let flows = flows_of(&rt, alloc, &pkg)?;
    assert!(&rt; flows.len() == 4);
    is_flow(
        &rt,
        &flows[0],
        19440000,
        &[
            (540000, &[3, 10, 10, 10]),
            (81000, &[10, 10, 10, 10]),
            (1620000, &[2, 10, 10]),
            (9720000, &[1, 10]),
            (4860000, &[10, 10]),
            (19440000, &[0]),
        ],
    )?;
    is_flow(
        &rt,
        &flows[1],
        162000,
        &[
            (27000, &[3, 10, 10]),
            (5400, &[10, 10, 10]),
            (54000, &[2, 10]),
            (162000, &[1]),
            (162000, &[10]),
        ],
    )?;
    is_flow(
        &rt,
        &flows[2],
        1800,
        &[(1800, &[3, 10]), (540, &[10, 10]), (1800, &[2])],
    )?;
    is_flow(&rt, &flows[3], 30, &[(30, &[3]), (18, &[10])])?;
    Ok(())
}

#[test]
fn right_sides_that_are_zero(rt: HostRuntime) -> Result<(), Fail> {
    let alloc = rt.alloc();
    let half = product(alloc, ((1, 2), &[Var::State(1)]))?;
    let other = product(alloc, ((1, 2), &[Var::State(1)]))?;
    let mut rates = Vec::new(alloc);
    rates.push(difference_of(alloc, half, other)?)?;
    rates.push(number((1, 1))?)?;
    let pkg = package(alloc, &["x", "y"], rates)?;
    let flows = flows_of(&rt, alloc, &pkg)?;
    assert!(&rt; flows.len() == 2);
    is_flow(&rt, &flows[0], 1, &[(1, &[0])])?;
    is_flow(&rt, &flows[1], 2, &[(2, &[1]), (2, &[6])])?;
    // Squares that cancel leave a right side linear.
    let square = product(alloc, ((1, 1), &[Var::State(0), Var::State(0)]))?;
    let again = product(alloc, ((1, 1), &[Var::State(0), Var::State(0)]))?;
    let mut rates = Vec::new(alloc);
    rates.push(sum_of(alloc, difference_of(alloc, square, again)?, state(1))?)?;
    rates.push(number((0, 1))?)?;
    let pkg = package(alloc, &["x", "y"], rates)?;
    let flows = flows_of(&rt, alloc, &pkg)?;
    assert!(&rt; flows.len() == 2);
    is_flow(&rt, &flows[0], 1, &[(1, &[1, 6]), (1, &[0])])?;
    is_flow(&rt, &flows[1], 1, &[(1, &[1])])?;
    Ok(())
}

#[test]
fn refusals(rt: HostRuntime) -> Result<(), Fail> {
    let alloc = rt.alloc();
    let pkg = model(
        alloc,
        &["x", "v"],
        &[&[((1, 1), &[Var::State(1)])], &[((1, 1), &[Var::State(0)])]],
    )?;
    is_refused(&rt, alloc, &pkg, 3, &["x", "v"])?;
    let pkg = model(
        alloc,
        &["x"],
        &[&[((1, 1), &[Var::State(0), Var::State(0)])]],
    )?;
    is_refused(&rt, alloc, &pkg, 2, &["x"])?;
    let pkg = model(alloc, &["x"], &[&[((1, 1), &[Var::State(0)])]])?;
    is_refused(&rt, alloc, &pkg, 3, &["x"])?;
    // u uses a cycle without being in it.
    let pkg = model(
        alloc,
        &["u", "v", "w"],
        &[
            &[((1, 1), &[Var::State(1)])],
            &[((1, 1), &[Var::State(2)])],
            &[((1, 1), &[A, Var::State(1)])],
        ],
    )?;
    is_refused(&rt, alloc, &pkg, 3, &["v", "w"])?;
    // Each before those behind it.
    let pkg = model(
        alloc,
        &["x", "v"],
        &[
            &[((1, 1), &[Var::State(1), Var::State(1)])],
            &[((4611686018427387903, 1), &[]), ((1, 1), &[])],
        ],
    )?;
    is_refused(&rt, alloc, &pkg, 1, &["v"])?;
    let pkg = model(
        alloc,
        &["x", "v"],
        &[
            &[((1, 1), &[Var::State(0)])],
            &[((1, 1), &[Var::State(0), Var::State(1)])],
        ],
    )?;
    is_refused(&rt, alloc, &pkg, 2, &["v"])?;
    Ok(())
}

fn sum_of_controls(alloc: Global, count: u32) -> Result<Expr, Fail> {
    let mut sum = Expr::Var(A);
    for _k in 1..count {
        sum = sum_of(alloc, sum, Expr::Var(A))?;
    }
    Ok(sum)
}

fn of_one(alloc: Global, rate: Expr) -> Result<Package, Fail> {
    let mut rates = Vec::new(alloc);
    rates.push(rate)?;
    package(alloc, &["x"], rates)
}

#[test]
fn limits(rt: HostRuntime) -> Result<(), Fail> {
    let alloc = rt.alloc();
    // The norm is 1 and that of the right side.
    let pkg = of_one(alloc, number((4611686018427387902, 1))?)?;
    assert!(&rt; flows_of(&rt, alloc, &pkg)?.len() == 1);
    let pkg = of_one(alloc, number((4611686018427387903, 1))?)?;
    is_refused(&rt, alloc, &pkg, 4, &["x"])?;
    // The degree is 1 and that of the right side.
    let pkg = of_one(alloc, power_of(alloc, Expr::Var(A), 11)?)?;
    assert!(&rt; flows_of(&rt, alloc, &pkg)?.len() == 1);
    let pkg = of_one(alloc, power_of(alloc, Expr::Var(A), 12)?)?;
    is_refused(&rt, alloc, &pkg, 4, &["x"])?;
    // The number of terms is 1 and that of the right side.
    let few = product_of(
        alloc,
        sum_of_controls(alloc, 63)?,
        sum_of_controls(alloc, 65)?,
    )?;
    assert!(&rt; flows_of(&rt, alloc, &of_one(alloc, few)?)?.len() == 1);
    let many = product_of(
        alloc,
        sum_of_controls(alloc, 64)?,
        sum_of_controls(alloc, 64)?,
    )?;
    is_refused(&rt, alloc, &of_one(alloc, many)?, 4, &["x"])?;
    Ok(())
}

// 1/den*a - 1/den*a
fn nothing_over(alloc: Global, den: i128) -> Result<Expr, Fail> {
    let first = product_of(alloc, number((1, den))?, Expr::Var(A))?;
    let second = product_of(alloc, number((1, den))?, Expr::Var(A))?;
    difference_of(alloc, first, second)
}

#[test]
fn a_common_denominator_that_is_over(rt: HostRuntime) -> Result<(), Fail> {
    let alloc = rt.alloc();
    let mut rates = Vec::new(alloc);
    rates.push(nothing_over(alloc, 2305843009213693952)?)?;
    rates.push(nothing_over(alloc, 2305843009213693951)?)?;
    let pkg = package(alloc, &["x", "y"], rates)?;
    let flows = flows_of(&rt, alloc, &pkg)?;
    assert!(&rt; flows.len() == 2);
    is_flow(&rt, &flows[0], 1, &[(1, &[0])])?;
    is_flow(&rt, &flows[1], 1, &[(1, &[1])])?;
    let mut rates = Vec::new(alloc);
    rates.push(nothing_over(alloc, 2305843009213693952)?)?;
    rates.push(nothing_over(alloc, 2305843009213693951)?)?;
    rates.push(number((1, 1))?)?;
    let pkg = package(alloc, &["x", "y", "z"], rates)?;
    is_refused(&rt, alloc, &pkg, 4, &["z"])?;
    Ok(())
}
