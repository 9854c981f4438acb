use std::alloc::Global;
use std::process::Abort;
use std::test::Fail;
use vp_ctrl::{Path, PathErr, paths};
use vp_logic::{Atom, Rel, atoms};
use vp_terms::{
    Cmp, Expr, Formula, Items, NameList, Names, Package, Plant, Prog, Ratio, Slack, Var,
};

fn constant(text: &str) -> Result<Expr, Fail> {
    Ok(Expr::Num(Ratio::of_text(text.as_bytes()).ok_or("no number")?))
}

fn flow() -> Expr {
    Expr::Var(Var::Control(0))
}

fn sum(alloc: Global, a: Expr, b: Expr) -> Result<Expr, Fail> {
    Ok(Expr::Add(Box::new(alloc, a)?, Box::new(alloc, b)?))
}

fn product(alloc: Global, a: Expr, b: Expr) -> Result<Expr, Fail> {
    Ok(Expr::Mul(Box::new(alloc, a)?, Box::new(alloc, b)?))
}

fn power(alloc: Global, base: Expr, exponent: u32) -> Result<Expr, Fail> {
    Ok(Expr::Pow(Box::new(alloc, base)?, exponent))
}

fn negative(alloc: Global, text: &str) -> Result<Expr, Fail> {
    let zero = Box::new(alloc, constant("0")?)?;
    Ok(Expr::Sub(zero, Box::new(alloc, constant(text)?)?))
}

// f to the power 12, times f, to the power 0: over by the degree of a part.
fn over(alloc: Global) -> Result<Expr, Fail> {
    let high = power(alloc, flow(), 12)?;
    power(alloc, product(alloc, high, flow())?, 0)
}

// (x + H)^12, of 2^12 terms
fn broad(alloc: Global) -> Result<Expr, Fail> {
    let base = sum(alloc, Expr::Var(Var::State(0)), Expr::Var(Var::Param(0)))?;
    power(alloc, base, 12)
}

// f >= -3
fn at_least(alloc: Global) -> Result<Formula, Fail> {
    Ok(Formula::Cmp(Cmp::Ge, flow(), negative(alloc, "3")?))
}

fn not_negative(expr: Expr) -> Result<Prog, Fail> {
    Ok(Prog::Test(Formula::Cmp(Cmp::Ge, expr, constant("0")?)))
}

// A statement. Those that don't say of which control are of the first, f.
#[derive(Clone, Copy)]
enum Step<'a> {
    // The control becomes any number.
    Any(u32),
    // The control becomes this number.
    Set(u32, &'a str),
    // The control becomes another.
    Copy(u32, u32),
    // f := f + this number
    Raise(&'a str),
    // f := 2*f
    Double,
    // f := -3
    Lower,
    // f becomes what is too wide.
    Widen,
    // ?f >= -3
    Least,
    // ?x >= 0, of one term
    Level,
    // ?(x + H)^12 >= 0, of 2^12 terms
    Broad,
    // A test that is too wide.
    Over,
}

fn statement(alloc: Global, step: Step<'_>) -> Result<Prog, Fail> {
    match step {
        Step::Any(control) => Ok(Prog::Any(control)),
        Step::Set(control, text) => Ok(Prog::Assign(control, constant(text)?)),
        Step::Copy(control, other) => Ok(Prog::Assign(control, Expr::Var(Var::Control(other)))),
        Step::Raise(text) => Ok(Prog::Assign(0, sum(alloc, flow(), constant(text)?)?)),
        Step::Double => Ok(Prog::Assign(0, product(alloc, constant("2")?, flow())?)),
        Step::Lower => Ok(Prog::Assign(0, negative(alloc, "3")?)),
        Step::Widen => Ok(Prog::Assign(0, over(alloc)?)),
        Step::Least => Ok(Prog::Test(at_least(alloc)?)),
        Step::Level => not_negative(Expr::Var(Var::State(0))),
        Step::Broad => not_negative(broad(alloc)?),
        Step::Over => not_negative(over(alloc)?),
    }
}

fn seq(alloc: Global, a: Prog, b: Prog) -> Result<Prog, Fail> {
    Ok(Prog::Seq(Box::new(alloc, a)?, Box::new(alloc, b)?))
}

fn choice(alloc: Global, a: Prog, b: Prog) -> Result<Prog, Fail> {
    Ok(Prog::Choice(Box::new(alloc, a)?, Box::new(alloc, b)?))
}

// One after the other, nested to the right as in a text.
fn row(alloc: Global, steps: &[Step<'_>]) -> Result<Prog, Fail> {
    let Some((last, front)) = steps.split_last() else {
        return Ok(Prog::Skip);
    };
    let mut prog = statement(alloc, *last)?;
    for step in front.iter().rev() {
        prog = seq(alloc, statement(alloc, *step)?, prog)?;
    }
    Ok(prog)
}

// One row or the other.
fn either(alloc: Global, a: &[Step<'_>], b: &[Step<'_>]) -> Result<Prog, Fail> {
    choice(alloc, row(alloc, a)?, row(alloc, b)?)
}

fn texts(alloc: Global, names: &[&str]) -> Result<NameList, Fail> {
    let mut list = Vec::new(alloc);
    for name in names {
        list.push(name.to_string(alloc)?)?;
    }
    Ok(NameList::of(list))
}

fn names(alloc: Global, controls: &[&str]) -> Result<Names, Fail> {
    Ok(Names {
        params: texts(alloc, &["H"])?,
        states: texts(alloc, &["x"])?,
        controls: texts(alloc, controls)?,
    })
}

fn slack() -> Result<Slack, Fail> {
    Ok(Slack {
        low: constant("0")?,
        high: constant("0")?,
    })
}

fn plant(alloc: Global) -> Result<Plant, Fail> {
    Ok(Plant {
        low: constant("0")?,
        high: constant("10")?,
        rates: Items::of(vec![in alloc; flow()]?),
        slack: Items::of(vec![in alloc; slack()?]?),
        domain: Formula::True,
    })
}

// So many zeros.
fn zeros(alloc: Global, count: usize) -> Result<Items<Expr>, Fail> {
    let mut zeros = Vec::new(alloc);
    for _ in 0..count {
        zeros.push(constant("0")?)?;
    }
    Ok(Items::of(zeros))
}

// A package with the parameter H, the state x, these controls and this controller.
fn package(alloc: Global, controls: &[&str], ctrl: Prog) -> Result<Package, Fail> {
    Ok(Package {
        names: names(alloc, controls)?,
        init: Formula::True,
        inv: Formula::True,
        safe: Formula::True,
        ctrl,
        plant: plant(alloc)?,
        fallback: zeros(alloc, controls.len())?,
        certs: Items::of(Vec::new(alloc)),
    })
}

// The paths of a controller of these controls.
fn paths_over(
    alloc: Global,
    controls: &[&str],
    ctrl: Prog,
) -> Result<Result<Vec<Path>, PathErr>, Fail> {
    let pkg = package(alloc, controls, ctrl)?;
    if !pkg.is_well_formed() {
        return Err(Fail::new("not well formed"));
    }
    Ok(paths(alloc, &pkg))
}

// The terms of a polynomial: coefficients, and places as often as their exponents say.
type Terms<'a> = &'a [(i128, &'a [usize])];

// The number of parts of a path, and its atoms.
type Shown<'a> = (usize, &'a [(Terms<'a>, Rel)]);

// With the parameter H, the state x and the control f: H has place 0, x place 1.
const F: usize = 2;

const NEXT_F: usize = 4;

// The exponents of all places, where each place stands as often as its exponent says.
fn powers_of(places: &[usize]) -> [u8; 32] {
    let mut powers: [u8; 32] = [0; 32];
    for place in places {
        if *place < 32 {
            powers[*place] = powers[*place].saturating_add(1);
        }
    }
    powers
}

fn check_atom(rt: &impl Abort, atom: &Atom, terms: Terms<'_>, rel: Rel) -> Result<(), Fail> {
    assert_eq!(rt; atom.rel, rel);
    assert_eq!(rt; atom.poly.len() as usize, terms.len());
    for k in 0..atom.poly.len() {
        let (coef, places) = terms.get(k as usize).ok_or("too many terms")?;
        let term = atom.poly.term(k);
        assert_eq!(rt; term.coef, *coef);
        assert_eq!(rt; term.mono.powers, powers_of(places));
    }
    Ok(())
}

fn check_path(rt: &impl Abort, alloc: Global, path: &Path, shown: &Shown<'_>) -> Result<(), Fail> {
    let (parts, expected) = shown;
    let found = atoms(alloc, path.parts.get())?;
    assert_eq!(rt; path.parts.get().len(), *parts);
    assert_eq!(rt; found.len(), expected.len());
    for (atom, (terms, rel)) in found.iter().zip(expected.iter()) {
        check_atom(rt, atom, terms, *rel)?;
    }
    Ok(())
}

// The controller has exactly these paths.
fn check(
    rt: &impl Abort,
    alloc: Global,
    controls: &[&str],
    ctrl: Prog,
    expected: &[Shown<'_>],
) -> Result<(), Fail> {
    let Ok(found) = paths_over(alloc, controls, ctrl)? else {
        return Err(Fail::new("refused"));
    };
    assert_eq!(rt; found.len(), expected.len());
    for (path, shown) in found.iter().zip(expected) {
        check_path(rt, alloc, path, shown)?;
    }
    Ok(())
}

// x + 10*f + 10
fn reach(alloc: Global) -> Result<Expr, Fail> {
    let moved = product(alloc, constant("10")?, flow())?;
    let level = sum(alloc, Expr::Var(Var::State(0)), moved)?;
    sum(alloc, level, constant("10")?)
}

// {f := *; ?f >= -3 & x + 10*f + 10 <= H;} ++ {f := -3;}
fn tank(alloc: Global) -> Result<Prog, Fail> {
    let above = Box::new(alloc, at_least(alloc)?)?;
    let below = Formula::Cmp(Cmp::Le, reach(alloc)?, Expr::Var(Var::Param(0)));
    let guard = Prog::Test(Formula::And(above, Box::new(alloc, below)?));
    let chosen = seq(alloc, Prog::Any(0), guard)?;
    choice(alloc, chosen, statement(alloc, Step::Lower)?)
}

// One path is `f@ + 3 >= 0 & H - x - 10*f@ - 10 >= 0`, one part, and the other `f@ + 3 = 0`.
#[test]
fn paths_of_the_tank(rt: HostRuntime) -> Result<(), Fail> {
    let alloc = rt.alloc();
    let reach: Terms<'_> = &[(1, &[0]), (-1, &[1]), (-10, &[NEXT_F]), (-10, &[])];
    let high: Terms<'_> = &[(1, &[NEXT_F]), (3, &[])];
    check(
        &rt,
        alloc,
        &["f"],
        tank(alloc)?,
        &[
            (1, &[(high, Rel::Ge), (reach, Rel::Ge)]),
            (1, &[(high, Rel::Eq)]),
        ],
    )
}

// Statements in a row, and the number of parts and the atoms of their one path.
type Row<'a> = (&'a [Step<'a>], Shown<'a>);

#[test]
fn statements_in_a_row(rt: HostRuntime) -> Result<(), Fail> {
    let rows: [Row<'_>; 6] = [
        // `f@ - f = 0`
        (&[], (1, &[(&[(-1, &[F]), (1, &[NEXT_F])], Rel::Eq)])),
        // `5 >= 0` and `f@ - 2 = 0`
        (
            &[Step::Set(0, "2"), Step::Least],
            (
                2,
                &[
                    (&[(5, &[])], Rel::Ge),
                    (&[(1, &[NEXT_F]), (-2, &[])], Rel::Eq),
                ],
            ),
        ),
        // `-2*f + f@ - 2 = 0`
        (
            &[Step::Raise("1"), Step::Double],
            (1, &[(&[(-2, &[F]), (1, &[NEXT_F]), (-2, &[])], Rel::Eq)]),
        ),
        // The first test reads `f` and the second `f@`.
        (
            &[Step::Least, Step::Any(0), Step::Least],
            (
                2,
                &[
                    (&[(1, &[F]), (3, &[])], Rel::Ge),
                    (&[(1, &[NEXT_F]), (3, &[])], Rel::Ge),
                ],
            ),
        ),
        // What `:= *` gave last is not hidden.
        (&[Step::Set(0, "1"), Step::Any(0)], (0, &[])),
        // What is too wide as an equation at the end is none where a later statement changes the control.
        (
            &[Step::Set(0, GREATEST), Step::Set(0, "1")],
            (1, &[(&[(1, &[NEXT_F]), (-1, &[])], Rel::Eq)]),
        ),
    ];
    for (steps, shown) in rows {
        let ctrl = row(rt.alloc(), steps)?;
        check(&rt, rt.alloc(), &["f"], ctrl, &[shown])?;
    }
    Ok(())
}

// With controls a and b: {a := b; b := a;} leaves `a@ - b = 0` and `b@ - b = 0`.
#[test]
fn two_controls(rt: HostRuntime) -> Result<(), Fail> {
    let both = row(rt.alloc(), &[Step::Copy(0, 1), Step::Copy(1, 0)])?;
    let first: Terms<'_> = &[(-1, &[3]), (1, &[5])];
    let second: Terms<'_> = &[(-1, &[3]), (1, &[6])];
    check(
        &rt,
        rt.alloc(),
        &["a", "b"],
        both,
        &[(2, &[(first, Rel::Eq), (second, Rel::Eq)])],
    )
}

// if (f >= -3) {f := 1;}
fn guarded(alloc: Global) -> Result<Prog, Fail> {
    let held = Box::new(alloc, statement(alloc, Step::Set(0, "1"))?)?;
    let failed = Box::new(alloc, Prog::Skip)?;
    Ok(Prog::If(at_least(alloc)?, held, failed))
}

// `if` is a choice of the test and the denied test, and nothing changes without an `else`.
#[test]
fn conditions(rt: HostRuntime) -> Result<(), Fail> {
    let held: Terms<'_> = &[(1, &[F]), (3, &[])];
    let one: Terms<'_> = &[(1, &[NEXT_F]), (-1, &[])];
    let failed: Terms<'_> = &[(-1, &[F]), (-3, &[])];
    let same: Terms<'_> = &[(-1, &[F]), (1, &[NEXT_F])];
    check(
        &rt,
        rt.alloc(),
        &["f"],
        guarded(rt.alloc())?,
        &[
            (2, &[(held, Rel::Ge), (one, Rel::Eq)]),
            (2, &[(failed, Rel::Gt), (same, Rel::Eq)]),
        ],
    )
}

// {f := 1;} ++ {f := 2;}, and then {f := f + 10;} ++ {f := f + 20;}
fn choices(alloc: Global) -> Result<Prog, Fail> {
    let first = either(alloc, &[Step::Set(0, "1")], &[Step::Set(0, "2")])?;
    let second = either(alloc, &[Step::Raise("10")], &[Step::Raise("20")])?;
    seq(alloc, first, second)
}

// Two choices in a row: the second varies faster, so f becomes 11, 21, 12 and 22.
#[test]
fn pairs_of_choices(rt: HostRuntime) -> Result<(), Fail> {
    let alloc = rt.alloc();
    let Ok(found) = paths_over(alloc, &["f"], choices(alloc)?)? else {
        return Err(Fail::new("refused"));
    };
    assert_eq!(rt; found.len(), 4);
    for (path, end) in found.iter().zip([-11, -21, -12, -22]) {
        let becomes: Terms<'_> = &[(1, &[NEXT_F]), (end, &[])];
        check_path(&rt, alloc, path, &(1, &[(becomes, Rel::Eq)]))?;
    }
    Ok(())
}

// The control that is hidden.
fn hidden_of(alloc: Global, controls: &[&str], ctrl: Prog) -> Result<String, Fail> {
    match paths_over(alloc, controls, ctrl)? {
        Err(PathErr::Hidden { name }) => Ok(name.get().to_string(alloc)?),
        _ => Err(Fail::new("not hidden")),
    }
}

#[test]
fn hidden(rt: HostRuntime) -> Result<(), Fail> {
    let alloc = rt.alloc();
    let rows: [(&[&str], &[Step<'_>], &str); 4] = [
        (&["f"], &[Step::Any(0), Step::Lower], "f"),
        (&["f"], &[Step::Any(0), Step::Any(0)], "f"),
        // The first along the path, and not in the order of controls.
        (
            &["a", "b"],
            &[
                Step::Any(1),
                Step::Set(1, "1"),
                Step::Any(0),
                Step::Set(0, "1"),
            ],
            "b",
        ),
        // A hidden control comes before what is too wide.
        (&["f"], &[Step::Widen, Step::Any(0), Step::Set(0, "1")], "f"),
    ];
    for (controls, steps, name) in rows {
        assert_eq!(rt;
            hidden_of(alloc, controls, row(alloc, steps)?)?.as_str(),
            name
        );
    }
    // That of the first path.
    let paths = either(
        alloc,
        &[Step::Any(0), Step::Set(0, "1")],
        &[Step::Any(1), Step::Set(1, "1")],
    )?;
    assert_eq!(rt; hidden_of(alloc, &["a", "b"], paths)?.as_str(), "a");
    Ok(())
}

// So many blocks of two choices in a row.
fn blocks(alloc: Global, count: u32) -> Result<Prog, Fail> {
    let mut prog = Prog::Skip;
    for _ in 0..count {
        let block = either(alloc, &[Step::Set(0, "1")], &[Step::Set(0, "2")])?;
        prog = seq(alloc, block, prog)?;
    }
    Ok(prog)
}

// How many paths there are, if too many.
fn refused_count(alloc: Global, ctrl: Prog) -> Result<u64, Fail> {
    match paths_over(alloc, &["f"], ctrl)? {
        Err(PathErr::Paths { count }) => Ok(count),
        _ => Err(Fail::new("not too many")),
    }
}

// How many paths there are, if they were given, and whether they are too wide, if not.
fn given_count(alloc: Global, ctrl: Prog) -> Result<Option<usize>, Fail> {
    match paths_over(alloc, &["f"], ctrl)? {
        Ok(found) => Ok(Some(found.len())),
        Err(PathErr::Wide) => Ok(None),
        Err(_) => Err(Fail::new("refused")),
    }
}

// 256 paths are given and 257 are refused. Paths are counted before any is made: 2^200 would not end.
#[test]
fn many(rt: HostRuntime) -> Result<(), Fail> {
    let alloc = rt.alloc();
    for (count, expected) in [(9, 512), (63, 1 << 63), (64, u64::MAX), (200, u64::MAX)] {
        assert_eq!(rt; refused_count(alloc, blocks(alloc, count)?)?, expected);
    }
    assert_eq!(rt; given_count(alloc, blocks(alloc, 8)?)?, Some(256));
    let third = statement(alloc, Step::Set(0, "3"))?;
    let more = choice(alloc, blocks(alloc, 8)?, third)?;
    assert_eq!(rt; refused_count(alloc, more)?, 257);
    // The number of paths comes before a hidden control.
    let twice = row(alloc, &[Step::Any(0), Step::Any(0)])?;
    let hidden = seq(alloc, blocks(alloc, 9)?, twice)?;
    assert_eq!(rt; refused_count(alloc, hidden)?, 512);
    Ok(())
}

// As an equation at the end, `f := 2^62 - 1` has the norm 2^62.
const GREATEST: &str = "4611686018427387903";

// Too wide are a right side that nothing reads, a comparison, and an equation at the end.
#[test]
fn wide(rt: HostRuntime) -> Result<(), Fail> {
    let alloc = rt.alloc();
    let rows: [&[Step<'_>]; 3] = [
        &[Step::Widen, Step::Set(0, "1")],
        &[Step::Over],
        &[Step::Set(0, GREATEST)],
    ];
    for steps in rows {
        assert_eq!(rt; given_count(alloc, row(alloc, steps)?)?, None);
    }
    Ok(())
}

// {f := *; ?(x + H)^12 >= 0; ..} with so many tests, each of 2^12 terms.
fn broad_row(alloc: Global, tests: u32) -> Result<Prog, Fail> {
    let mut steps = Vec::new(alloc);
    steps.push(Step::Any(0))?;
    for _ in 0..tests {
        steps.push(Step::Broad)?;
    }
    row(alloc, &steps)
}

// The same, and then the test of one more term.
fn broader(alloc: Global, tests: u32) -> Result<Prog, Fail> {
    let broad = broad_row(alloc, tests)?;
    seq(alloc, broad, statement(alloc, Step::Level)?)
}

// All comparisons of all paths may have 65,536 terms together: 16 * 4096. One more is too many, on the
// same path or on another.
#[test]
fn terms_of_all_paths(rt: HostRuntime) -> Result<(), Fail> {
    let alloc = rt.alloc();
    assert_eq!(rt; given_count(alloc, broad_row(alloc, 16)?)?, Some(1));
    assert_eq!(rt; given_count(alloc, broader(alloc, 16)?)?, None);
    let two = choice(alloc, broad_row(alloc, 8)?, broad_row(alloc, 8)?)?;
    assert_eq!(rt; given_count(alloc, two)?, Some(2));
    let more = choice(alloc, broad_row(alloc, 8)?, broader(alloc, 8)?)?;
    assert_eq!(rt; given_count(alloc, more)?, None);
    Ok(())
}

// f rises by 1 so often.
fn rising(alloc: Global, count: u16) -> Result<Prog, Fail> {
    let mut steps = Vec::new(alloc);
    for _ in 0..count {
        steps.push(Step::Raise("1"))?;
    }
    row(alloc, &steps)
}

// More statements in a row than a package's text can hold, on the stack that a shell gives.
#[test]
fn long_rows(rt: HostRuntime) -> Result<(), Fail> {
    let alloc = rt.alloc();
    let raised: Terms<'_> = &[(-1, &[F]), (1, &[NEXT_F]), (-1024, &[])];
    let shown: Shown<'_> = (1, &[(raised, Rel::Eq)]);
    check(&rt, alloc, &["f"], rising(alloc, 1024)?, &[shown])
}
