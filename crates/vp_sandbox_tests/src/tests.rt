ghost use Rattle.std.specs.Prelude.{◌≡◌, ◌<◌, IfOk};
ghost use Rattle.vp_words.specs.Record.{IsRecord, IsValid, place_count};
ghost use Rattle.vp_poly.specs.Places.{places_for};
ghost use Rattle.vp_sandbox.specs.Fits.{Fits};

use std::alloc::Global;
use std::process::Abort;
use std::test::Fail;
use vp_logic::{Norm, Norms, normal};
use vp_poly::{Mono, Poly, Term, of_expr, plain};
use vp_sandbox::{Sandbox, Sizes, answer, sizes};
use vp_terms::{Cmp, Expr, Formula, Items, Places, Ratio, Var};
use vp_words::{Counts, Kind, Record, Reply, Why, Word, fields};

// A parameter H, a state x and a control f.
const TANK: Counts = Counts {
    params: 1,
    states: 1,
    controls: 1,
};

const H: Var = Var::Param(0);

const X: Var = Var::State(0);

const F: Var = Var::Control(0);

const NEXT_X: Var = Var::NextState(0);

const NEXT_F: Var = Var::NextControl(0);

const TAU: Var = Var::Tau;

// States x and v, and a control a.
const DOUBLE: Counts = Counts {
    params: 0,
    states: 2,
    controls: 1,
};

const V: Var = Var::State(1);

const A: Var = Var::Control(0);

const NEXT_V: Var = Var::NextState(1);

// A coefficient and the factors that are multiplied.
type Product = (i128, &'static [Var]);

fn number(value: i128) -> Result<Expr, Fail> {
    Ok(Expr::Num(Ratio::reduced(value, 1).ok_or("no number")?))
}

fn product(alloc: Global, (coefficient, factors): Product) -> Result<Expr, Fail> {
    let mut product = number(coefficient)?;
    for factor in factors {
        product = Expr::Mul(
            Box::new(alloc, product)?,
            Box::new(alloc, Expr::Var(*factor))?,
        );
    }
    Ok(product)
}

fn sum(alloc: Global, products: &[Product]) -> Result<Expr, Fail> {
    let mut sum = number(0)?;
    for one in products {
        sum = Expr::Add(
            Box::new(alloc, sum)?,
            Box::new(alloc, product(alloc, *one)?)?,
        );
    }
    Ok(sum)
}

fn places(counts: Counts) -> Places
    ensures { result ≡ places_for counts }
{
    Places {
        params: counts.params.into(),
        states: counts.states.into(),
        controls: counts.controls.into(),
    }
}

fn limit(counts: Counts) -> u64
    ensures { result ≡ place_count counts }
{
    counts.place_count().into()
}

// How the sum of these compares to 0.
fn form(alloc: Global, counts: Counts, cmp: Cmp, products: &[Product]) -> Result<Norm, Fail>
    requires { IsValid counts }
{
    let f = Formula::Cmp(cmp, sum(alloc, products)?, number(0)?);
    if !f.has_places_below(places(counts), limit(counts)) {
        return Err(Fail::new("no such variable"));
    }
    let env = plain(alloc, counts)?;
    Ok(normal(alloc, &f, counts, &env)?)
}

fn poly(alloc: Global, counts: Counts, products: &[Product]) -> Result<Poly, Fail>
    requires { IsValid counts }
{
    let e = sum(alloc, products)?;
    if !e.has_places_below(places(counts), limit(counts)) {
        return Err(Fail::new("no such variable"));
    }
    let env = plain(alloc, counts)?;
    let made = of_expr(alloc, &e, counts, &env)?;
    Ok(made.poly)
}

fn then(alloc: Global, first: Norm, rest: Norms) -> Result<Norms, Fail> {
    Ok(Norms::More(first, Box::new(alloc, rest)?))
}

fn all(alloc: Global, members: Norms) -> Result<Norm, Fail> {
    Ok(Norm::And(Box::new(alloc, members)?))
}

fn any(alloc: Global, members: Norms) -> Result<Norm, Fail> {
    Ok(Norm::Or(Box::new(alloc, members)?))
}

// Either the flow is at least -3 and ten more seconds leave room for one unit more each, or it is -3.
fn tank_ctrl(alloc: Global) -> Result<Norm, Fail> {
    let least = form(alloc, TANK, Cmp::Ge, &[(1, &[NEXT_F]), (3, &[])])?;
    let room = form(
        alloc,
        TANK,
        Cmp::Ge,
        &[(1, &[H]), (-1, &[X]), (-10, &[NEXT_F]), (-10, &[])],
    )?;
    let drain = form(alloc, TANK, Cmp::Eq, &[(1, &[NEXT_F]), (3, &[])])?;
    let guard = all(alloc, then(alloc, least, then(alloc, room, Norms::End)?)?)?;
    let first = all(alloc, then(alloc, guard, Norms::End)?)?;
    let second = all(alloc, then(alloc, drain, Norms::End)?)?;
    any(alloc, then(alloc, first, then(alloc, second, Norms::End)?)?)
}

fn tank(alloc: Global) -> Result<Sandbox, Fail> {
    let mut init = Vec::new(alloc);
    init.push(form(alloc, TANK, Cmp::Ge, &[(1, &[H]), (-1, &[X])])?)?;
    let conjuncts: [&[Product]; 4] = [
        &[(1, &[TAU])],
        &[(-1, &[TAU]), (10, &[])],
        &[(-1, &[F, TAU]), (-1, &[X]), (1, &[NEXT_X]), (1, &[TAU])],
        &[(1, &[F, TAU]), (1, &[X]), (-1, &[NEXT_X]), (1, &[TAU])],
    ];
    let mut plant = Vec::new(alloc);
    for products in conjuncts {
        plant.push(form(alloc, TANK, Cmp::Ge, products)?)?;
    }
    let mut fallback = Vec::new(alloc);
    fallback.push(poly(alloc, TANK, &[(-3, &[])])?)?;
    Ok(Sandbox {
        counts: TANK,
        init: Items::of(init),
        ctrl: tank_ctrl(alloc)?,
        plant: Items::of(plant),
        fallback: Items::of(fallback),
    })
}

fn double(alloc: Global) -> Result<Sandbox, Fail> {
    let conjuncts: [(Cmp, &[Product]); 4] = [
        (Cmp::Ge, &[(1, &[TAU])]),
        (Cmp::Ge, &[(-1, &[TAU]), (10, &[])]),
        (
            Cmp::Eq,
            &[
                (-1, &[A, TAU, TAU]),
                (-2, &[V, TAU]),
                (-2, &[X]),
                (2, &[NEXT_X]),
            ],
        ),
        (Cmp::Eq, &[(-1, &[A, TAU]), (-1, &[V]), (1, &[NEXT_V])]),
    ];
    let mut plant = Vec::new(alloc);
    for (cmp, products) in conjuncts {
        plant.push(form(alloc, DOUBLE, cmp, products)?)?;
    }
    let mut fallback = Vec::new(alloc);
    fallback.push(poly(alloc, DOUBLE, &[])?)?;
    let path = all(alloc, Norms::End)?;
    Ok(Sandbox {
        counts: DOUBLE,
        init: Items::of(Vec::new(alloc)),
        ctrl: any(alloc, then(alloc, path, Norms::End)?)?,
        plant: Items::of(plant),
        fallback: Items::of(fallback),
    })
}

#[test]
fn size_numbers(rt: HostRuntime) -> Result<(), Fail> {
    let alloc = rt.alloc();
    assert_eq!(rt;
        sizes(&tank(alloc)?),
        Sizes {
            instrs: 668,
            cells: 550
        }
    );
    assert_eq!(rt;
        sizes(&double(alloc)?),
        Sizes {
            instrs: 466,
            cells: 538
        }
    );
    Ok(())
}

// A polynomial of one term.
fn single(alloc: Global, place: usize, power: u8, coef: i64) -> Result<Poly, Fail>
    requires { place < 32 }
{
    let mut powers = [0; 32];
    powers[place] = power;
    let mono = Mono { powers };
    if mono.degree() > 48 {
        return Err(Fail::new("the degree is too great"));
    }
    let coef = coef.into();
    Ok(Poly::single(alloc, Term { mono, coef })?)
}

#[test]
fn fitting(rt: HostRuntime) -> Result<(), Fail> {
    let alloc = rt.alloc();
    assert!(rt; double(alloc)?.fits());
    let mut s = tank(alloc)?;
    assert!(rt; s.fits());
    // The places are H, x, f, the next x, the next f and `tau`.
    let rows = [
        (2, 12, (1 << 62) - 1, true),
        (2, 12, 1 << 62, false),
        (2, 13, 1, false),
        (3, 1, 1, false),
        (4, 1, 1, false),
        (5, 1, 1, false),
        (6, 1, 1, false),
    ];
    for (place, power, coef, fits) in rows {
        let mut fallback = Vec::new(alloc);
        fallback.push(single(alloc, place, power, coef)?)?;
        s.fallback = Items::of(fallback);
        assert_eq!(rt; s.fits(), fits, "{place} {power} {coef}");
    }
    s.fallback = Items::of(Vec::new(alloc));
    assert!(rt; !s.fits());
    Ok(())
}

fn record(counts: Counts, kind: Kind, values: &[i64]) -> Result<Record, Fail>
    requires { IsValid counts }
    ensures record { IfOk result (IsRecord counts) }
    ensures kind { IfOk result (λ r. r.kind ≡ kind) }
{
    let mut words = [Word::ZERO; 64];
    for (word, value) in words.iter_mut().zip(values) {
        *word = Word::of(*value).ok_or("no word")?;
    }
    let len = values.len().min(255) as u8;
    let record = Record { kind, words, len };
    if !record.is_valid(counts) {
        return Err(Fail::new("no record"));
    }
    Ok(record)
}

// The reply to the last of some records, whose words stand one behind the other.
fn last_reply(s: &Sandbox, values: &[i64]) -> Result<Reply, Fail>
    requires { Fits s.now }
{
    let mut state = s.start();
    let mut reply = Reply::Ok;
    let mut rest = values;
    for _ in 0..values.len() {
        if rest.is_empty() {
            break;
        }
        let due = state.due.kind().ok_or("nothing is due")?;
        let count = usize::from(fields(due, s.counts));
        if count > rest.len() {
            return Err(Fail::new("too few words"));
        }
        let record = record(s.counts, due, &rest[..count])?;
        answer(s, &mut state, &record, &mut reply);
        rest = &rest[count..];
    }
    Ok(reply)
}

fn act(value: i64, fallback: bool) -> Reply {
    let mut words = [Word::ZERO; 16];
    words[0] = Word::of(value).unwrap_or(Word::ZERO);
    Reply::Act {
        words,
        len: 1,
        fallback,
    }
}

fn plant(k: u32, unknown: bool) -> Reply {
    Reply::Violation(Why::Plant { k, unknown })
}

fn init(k: u32, unknown: bool) -> Reply {
    Reply::Violation(Why::Init { k, unknown })
}

// `-inf`
const UNBOUNDED: i64 = -i64::MAX;

// The greatest finite word.
const MOST: i64 = i64::MAX - 1;

#[test]
fn replies_of_the_tank(rt: HostRuntime) -> Result<(), Fail> {
    let s = tank(rt.alloc())?;
    if !s.fits() {
        return Err(Fail::new("the tank doesn't fit"));
    }
    let rows: [(&[i64], Reply); 16] = [
        (&[1000, 1000, 500, 502, 0], Reply::Ok),
        (&[1000, 1000, 500, 502, 0, 5], act(5, false)),
        (&[1000, 1000, 500, 502, 0, 5, 10, 10, 551, 553], Reply::Ok),
        (
            &[1000, 1000, 500, 502, 0, 5, 10, 10, 551, 553, 60],
            act(-3, true),
        ),
        (&[1000, 1000, 930, 930, 0], Reply::Ok),
        (&[1000, 1000, 930, 930, 0, 6], act(6, false)),
        (&[1000, 1000, 929, 931, 0], Reply::Ok),
        (&[1000, 1000, 929, 931, 0, 6], act(-3, true)),
        (
            &[1000, 1000, 500, 502, 0, 5, 10, 10, 540, 553],
            plant(3, true),
        ),
        (
            &[1000, 1000, 500, 502, 0, 5, 10, 10, 600, 601],
            plant(4, false),
        ),
        (
            &[1000, 1000, 500, 502, 0, 5, 11, 11, 551, 553],
            plant(2, false),
        ),
        (&[1000, 1000, UNBOUNDED, 502, 0], Reply::Ok),
        (&[1000, 1000, UNBOUNDED, 502, 0, 5], act(5, false)),
        (
            &[1000, 1000, UNBOUNDED, 502, 0, 5, 10, 10, 551, 553],
            plant(4, true),
        ),
        (&[MOST, MOST, -MOST, 0, 0], Reply::Ok),
        (&[1000, 1000, 999, 1001, 0], init(1, true)),
    ];
    for (values, wanted) in rows {
        assert_eq!(rt; last_reply(&s, values)?, wanted);
    }
    Ok(())
}
