ghost use Rattle.std.specs.Prelude.{◌≡◌, ◌<◌, true};
ghost use Rattle.vp_words.specs.Record.{IsValid, place_count};
ghost use Rattle.vp_poly.specs.Places.{places_for};
ghost use Rattle.vp_isa.specs.Machine.{HasDueCount};

use std::alloc::Global;
use std::marker::Brand;
use std::sync::ledger::{Blank, Ledger};
use std::test::Fail;
use vp_gen::{GenErr, compile};
use vp_logic::{Atom, Norm, Norms, Rel, normal};
use vp_poly::{Poly, of_expr, plain};
use vp_sandbox::{Sandbox, sizes};
use vp_terms::{Cmp, Expr, Formula, Items, Places, Ratio, Var};
use vp_vm::{Machine, Steps, VmReply};
use vp_words::{Counts, Due, Kind, Reply, Turn, Why, Word, fields};

// A parameter H, a state x and a control f.
const TANK: Counts = Counts {
    params: 1,
    states: 1,
    controls: 1,
};

const H: Var = Var::Param(0);

const X: Var = Var::State(0);

const F: Var = Var::Control(0);

const NEXT_X: Var = Var::NextState(0);

const NEXT_F: Var = Var::NextControl(0);

const TAU: Var = Var::Tau;

// States x and v, and a control a.
const DOUBLE: Counts = Counts {
    params: 0,
    states: 2,
    controls: 1,
};

const V: Var = Var::State(1);

const A: Var = Var::Control(0);

const NEXT_V: Var = Var::NextState(1);

const NEXT_A: Var = Var::NextControl(0);

// Two states and two controls.
const PAIR: Counts = Counts {
    params: 0,
    states: 2,
    controls: 2,
};

const NEXT_B: Var = Var::NextControl(1);

// A coefficient and the factors that are multiplied.
type Product = (i128, &'static [Var]);

fn number(value: i128) -> Result<Expr, Fail> {
    Ok(Expr::Num(Ratio::reduced(value, 1).ok_or("no number")?))
}

fn product(alloc: Global, (coefficient, factors): Product) -> Result<Expr, Fail> {
    let mut product = number(coefficient)?;
    for factor in factors {
        product = Expr::Mul(
            Box::new(alloc, product)?,
            Box::new(alloc, Expr::Var(*factor))?,
        );
    }
    Ok(product)
}

fn sum(alloc: Global, products: &[Product]) -> Result<Expr, Fail> {
    let mut sum = number(0)?;
    for one in products {
        sum = Expr::Add(
            Box::new(alloc, sum)?,
            Box::new(alloc, product(alloc, *one)?)?,
        );
    }
    Ok(sum)
}

fn places(counts: Counts) -> Places
    ensures { result ≡ places_for counts }
{
    Places {
        params: counts.params.into(),
        states: counts.states.into(),
        controls: counts.controls.into(),
    }
}

fn limit(counts: Counts) -> u64
    ensures { result ≡ place_count counts }
{
    counts.place_count().into()
}

// How the sum of these compares to 0.
fn form(alloc: Global, counts: Counts, cmp: Cmp, products: &[Product]) -> Result<Norm, Fail>
    requires { IsValid counts }
{
    let f = Formula::Cmp(cmp, sum(alloc, products)?, number(0)?);
    if !f.has_places_below(places(counts), limit(counts)) {
        return Err(Fail::new("no such variable"));
    }
    let env = plain(alloc, counts)?;
    Ok(normal(alloc, &f, counts, &env)?)
}

fn poly(alloc: Global, counts: Counts, products: &[Product]) -> Result<Poly, Fail>
    requires { IsValid counts }
{
    let e = sum(alloc, products)?;
    if !e.has_places_below(places(counts), limit(counts)) {
        return Err(Fail::new("no such variable"));
    }
    let env = plain(alloc, counts)?;
    let made = of_expr(alloc, &e, counts, &env)?;
    Ok(made.poly)
}

fn then(alloc: Global, first: Norm, rest: Norms) -> Result<Norms, Fail> {
    Ok(Norms::More(first, Box::new(alloc, rest)?))
}

fn all(alloc: Global, members: Norms) -> Result<Norm, Fail> {
    Ok(Norm::And(Box::new(alloc, members)?))
}

fn any(alloc: Global, members: Norms) -> Result<Norm, Fail> {
    Ok(Norm::Or(Box::new(alloc, members)?))
}

// Either the flow is at least -3 and ten more seconds leave room for one unit more each, or it is -3.
fn tank_ctrl(alloc: Global) -> Result<Norm, Fail> {
    let least = form(alloc, TANK, Cmp::Ge, &[(1, &[NEXT_F]), (3, &[])])?;
    let room = form(
        alloc,
        TANK,
        Cmp::Ge,
        &[(1, &[H]), (-1, &[X]), (-10, &[NEXT_F]), (-10, &[])],
    )?;
    let drain = form(alloc, TANK, Cmp::Eq, &[(1, &[NEXT_F]), (3, &[])])?;
    let guard = all(alloc, then(alloc, least, then(alloc, room, Norms::End)?)?)?;
    let first = all(alloc, then(alloc, guard, Norms::End)?)?;
    let second = all(alloc, then(alloc, drain, Norms::End)?)?;
    any(alloc, then(alloc, first, then(alloc, second, Norms::End)?)?)
}

fn tank(alloc: Global) -> Result<Sandbox, Fail> {
    let mut init = Vec::new(alloc);
    init.push(form(alloc, TANK, Cmp::Ge, &[(1, &[H]), (-1, &[X])])?)?;
    let conjuncts: [&[Product]; 4] = [
        &[(1, &[TAU])],
        &[(-1, &[TAU]), (10, &[])],
        &[(-1, &[F, TAU]), (-1, &[X]), (1, &[NEXT_X]), (1, &[TAU])],
        &[(1, &[F, TAU]), (1, &[X]), (-1, &[NEXT_X]), (1, &[TAU])],
    ];
    let mut plant = Vec::new(alloc);
    for products in conjuncts {
        plant.push(form(alloc, TANK, Cmp::Ge, products)?)?;
    }
    let mut fallback = Vec::new(alloc);
    fallback.push(poly(alloc, TANK, &[(-3, &[])])?)?;
    Ok(Sandbox {
        counts: TANK,
        init: Items::of(init),
        ctrl: tank_ctrl(alloc)?,
        plant: Items::of(plant),
        fallback: Items::of(fallback),
    })
}

fn double(alloc: Global) -> Result<Sandbox, Fail> {
    let conjuncts: [(Cmp, &[Product]); 4] = [
        (Cmp::Ge, &[(1, &[TAU])]),
        (Cmp::Ge, &[(-1, &[TAU]), (10, &[])]),
        (
            Cmp::Eq,
            &[
                (-1, &[A, TAU, TAU]),
                (-2, &[V, TAU]),
                (-2, &[X]),
                (2, &[NEXT_X]),
            ],
        ),
        (Cmp::Eq, &[(-1, &[A, TAU]), (-1, &[V]), (1, &[NEXT_V])]),
    ];
    let mut plant = Vec::new(alloc);
    for (cmp, products) in conjuncts {
        plant.push(form(alloc, DOUBLE, cmp, products)?)?;
    }
    let mut fallback = Vec::new(alloc);
    fallback.push(poly(alloc, DOUBLE, &[])?)?;
    let path = all(alloc, Norms::End)?;
    Ok(Sandbox {
        counts: DOUBLE,
        init: Items::of(Vec::new(alloc)),
        ctrl: any(alloc, then(alloc, path, Norms::End)?)?,
        plant: Items::of(plant),
        fallback: Items::of(fallback),
    })
}

// `double` that only slows down: the next a is -v, and so is the fallback.
fn brake(alloc: Global) -> Result<Sandbox, Fail> {
    let mut s = double(alloc)?;
    let slows = form(alloc, DOUBLE, Cmp::Eq, &[(1, &[NEXT_A]), (1, &[V])])?;
    let path = all(alloc, then(alloc, slows, Norms::End)?)?;
    s.ctrl = any(alloc, then(alloc, path, Norms::End)?)?;
    let mut fallback = Vec::new(alloc);
    fallback.push(poly(alloc, DOUBLE, &[(-1, &[V])])?)?;
    s.fallback = Items::of(fallback);
    Ok(s)
}

// Two states x and y and two controls, no init and no plant conjunct: the next controls are at least the
// states, and the fallback is the states.
fn pair(alloc: Global) -> Result<Sandbox, Fail> {
    let first = form(alloc, PAIR, Cmp::Ge, &[(1, &[NEXT_A]), (-1, &[X])])?;
    let second = form(alloc, PAIR, Cmp::Ge, &[(1, &[NEXT_B]), (-1, &[V])])?;
    let mut fallback = Vec::new(alloc);
    fallback.push(poly(alloc, PAIR, &[(1, &[X])])?)?;
    fallback.push(poly(alloc, PAIR, &[(1, &[V])])?)?;
    Ok(Sandbox {
        counts: PAIR,
        init: Items::of(Vec::new(alloc)),
        ctrl: all(alloc, then(alloc, first, then(alloc, second, Norms::End)?)?)?,
        plant: Items::of(Vec::new(alloc)),
        fallback: Items::of(fallback),
    })
}

/// Whether there are as many words as the due record has.
fn are_due(machine: &Machine, words: &[Word]) -> bool
    ensures { result ≡ true → HasDueCount machine.now.code machine.now.state words.now }
{
    let counts = machine.counts();
    match machine.due() {
        Due::Init => words.len() == usize::from(fields(Kind::Init, counts)),
        Due::Choice => words.len() == usize::from(fields(Kind::Choice, counts)),
        Due::Sense => words.len() == usize::from(fields(Kind::Sense, counts)),
        Due::Ended => true,
    }
}

/// The answer to a record of these numbers.
fn give<L: Ledger>(
    alloc: Global,
    machine: &mut Machine,
    numbers: &[i64],
    steps: &mut Steps<L>,
) -> Result<Reply, Fail> {
    let mut words = Vec::new(alloc);
    for number in numbers {
        words.push(Word::of(*number).ok_or("no word")?)?;
    }
    if !are_due(machine, &words) {
        return Err(Fail::from("not the due record"));
    }
    let mut out = VmReply {
        reply: Reply::Ok,
        ran: 0,
    };
    machine.give(&words, &mut out, steps);
    Ok(out.reply)
}

/// The last reply of the code of a sandbox to records whose words stand one behind the other.
fn last_reply<L: Ledger>(
    alloc: Global,
    s: &Sandbox,
    values: &[i64],
    blank: Blank,
) -> Result<Reply, Fail>
    requires name { blank.name ≡ L.name }
    requires parts { blank.parts ≡ L.parts }
    requires some { 0 < blank.parts }
{
    if !s.fits() {
        return Err(Fail::new("it doesn't fit"));
    }
    let code = compile(alloc, s).map_err(|_| "no code")?;
    let mut machine = Machine::new(alloc, code)?;
    let mut steps = Steps::<L>::new(blank);
    let mut reply = Reply::Ok;
    let mut rest = values;
    for _ in 0..values.len() {
        if rest.is_empty() {
            break;
        }
        let due = machine.due().kind().ok_or("nothing is due")?;
        let count = usize::from(fields(due, machine.counts()));
        if count > rest.len() {
            return Err(Fail::new("too few words"));
        }
        reply = give(alloc, &mut machine, &rest[..count], &mut steps)?;
        rest = &rest[count..];
    }
    Ok(reply)
}

/// The same, with a counter of its own.
fn reply_of(alloc: Global, s: &Sandbox, values: &[i64]) -> Result<Reply, Fail> {
    last_reply::<Brand>(alloc, s, values, Blank::new(1))
}

/// Which row is the first whose reply is another than wanted.
fn first_wrong(
    alloc: Global,
    s: &Sandbox,
    rows: &[(&[i64], Reply)],
) -> Result<Option<usize>, Fail> {
    for (k, (values, wanted)) in rows.iter().enumerate() {
        if reply_of(alloc, s, values)? != *wanted {
            return Ok(Some(k));
        }
    }
    Ok(None)
}

fn acts(values: &[i64], fallback: bool) -> Reply {
    let mut words = [Word::ZERO; 16];
    for (word, value) in words.iter_mut().zip(values) {
        *word = Word::of(*value).unwrap_or(Word::ZERO);
    }
    let len = values.len().min(16) as u8;
    Reply::Act {
        words,
        len,
        fallback,
    }
}

fn act(value: i64, fallback: bool) -> Reply {
    acts(&[value], fallback)
}

fn plant(k: u32, unknown: bool) -> Reply {
    Reply::Violation(Why::Plant { k, unknown })
}

fn init(k: u32, unknown: bool) -> Reply {
    Reply::Violation(Why::Init { k, unknown })
}

const INF: i64 = i64::MAX;

// The greatest finite word.
const MOST: i64 = i64::MAX - 1;

#[test]
fn replies_of_the_tank(rt: HostRuntime) -> Result<(), Fail> {
    let s = tank(rt.alloc())?;
    let rows: [(&[i64], Reply); 25] = [
        (&[1000, 1000, 500, 502, 0], Reply::Ok),
        (&[1000, 1000, 500, 502, 0, 5], act(5, false)),
        (&[1000, 1000, 500, 502, 0, 5, 10, 10, 551, 553], Reply::Ok),
        (
            &[1000, 1000, 500, 502, 0, 5, 10, 10, 551, 553, 60],
            act(-3, true),
        ),
        (&[1000, 1000, 930, 930, 0, 6], act(6, false)),
        (&[1000, 1000, 929, 931, 0, 6], act(-3, true)),
        (&[1000, 1000, 500, 502, 0, -3], act(-3, false)),
        (&[1000, 1000, 500, 502, 0, -4], act(-3, true)),
        (
            &[1000, 1000, 500, 502, 0, 5, 10, 10, 540, 553],
            plant(3, true),
        ),
        (
            &[1000, 1000, 500, 502, 0, 5, 10, 10, 530, 531],
            plant(3, false),
        ),
        (
            &[1000, 1000, 500, 502, 0, 5, 10, 10, 600, 601],
            plant(4, false),
        ),
        (
            &[1000, 1000, 500, 502, 0, 5, 11, 11, 551, 553],
            plant(2, false),
        ),
        (
            &[1000, 1000, 500, 502, 0, 5, 9, 11, 551, 553],
            plant(2, true),
        ),
        (
            &[1000, 1000, 500, 502, 0, 5, -1, -1, 500, 502],
            plant(1, false),
        ),
        (
            &[1000, 1000, 500, 502, 0, 5, -1, 1, 500, 502],
            plant(1, true),
        ),
        // The fallback's word is the control of the sensing, and the new states are those of the next
        // choice.
        (&[1000, 1000, 500, 502, 0, 60, 10, 10, 465, 470], Reply::Ok),
        (
            &[1000, 1000, 500, 502, 0, 60, 10, 10, 465, 470, 50],
            act(50, false),
        ),
        (&[1000, 1000, -INF, 502, 0], Reply::Ok),
        (
            &[1000, 1000, -INF, 502, 0, 5, 10, 10, 551, 553],
            plant(4, true),
        ),
        (&[1000, INF, -INF, 502, 0], Reply::Ok),
        (&[-INF, INF, -INF, INF, 0], init(1, true)),
        (&[MOST, MOST, -MOST, 0, 0], Reply::Ok),
        (&[1000, 1000, 999, 1001, 0], init(1, true)),
        (&[1000, 1000, 1001, 1002, 0], init(1, false)),
        (&[1000, 1000, 1001, INF, 0], init(1, false)),
    ];
    assert_eq!(rt; first_wrong(rt.alloc(), &s, &rows)?, None);
    Ok(())
}

#[test]
fn replies_of_two_states(rt: HostRuntime) -> Result<(), Fail> {
    let s = double(rt.alloc())?;
    let rows: [(&[i64], Reply); 6] = [
        (&[0, 0, 2, 2, 0, 4], act(4, false)),
        (&[0, 0, 2, 2, 0, 4, 3, 3, 24, 24, 14, 14], Reply::Ok),
        (&[0, 0, 2, 2, 0, 4, 3, 3, 24, 25, 14, 14], plant(3, true)),
        (&[0, 0, 2, 2, 0, 4, 3, 3, 25, 25, 14, 14], plant(3, false)),
        (&[0, 0, 2, 2, 0, 4, 3, 3, 24, 24, 14, 15], plant(4, true)),
        (&[0, 0, 2, 2, 0, 4, 3, 3, 24, 24, 15, 15], plant(4, false)),
    ];
    assert_eq!(rt; first_wrong(rt.alloc(), &s, &rows)?, None);
    let s = brake(rt.alloc())?;
    let rows: [(&[i64], Reply); 5] = [
        (&[0, 0, 2, 2, 0, 5], act(-2, true)),
        (&[0, 0, 2, 2, 0, -2], act(-2, false)),
        (&[0, 0, 2, 3, 0, -2], Reply::Violation(Why::Fallback)),
        (&[0, 0, -INF, INF, 0, 0], Reply::Violation(Why::Fallback)),
        (&[0, 0, 2, 2, 0, 5, 3, 3, -3, -3, -4, -4], Reply::Ok),
    ];
    assert_eq!(rt; first_wrong(rt.alloc(), &s, &rows)?, None);
    Ok(())
}

#[test]
fn replies_of_two_controls(rt: HostRuntime) -> Result<(), Fail> {
    let s = pair(rt.alloc())?;
    let rows: [(&[i64], Reply); 6] = [
        (&[1, 1, 2, 3, 0, 0], Reply::Ok),
        (&[1, 1, 2, 3, 0, 0, 5, 6], acts(&[5, 6], false)),
        (&[1, 1, 2, 2, 0, 0, 0, 6], acts(&[1, 2], true)),
        (&[1, 1, 2, 3, 0, 0, 0, 6], Reply::Violation(Why::Fallback)),
        (&[1, 4, 2, 2, 0, 0, 0, 6], Reply::Violation(Why::Fallback)),
        (
            &[1, 1, 2, 2, 0, 0, 5, 6, 0, 9, 7, 7, 8, 8, 0, 0],
            acts(&[7, 8], true),
        ),
    ];
    assert_eq!(rt; first_wrong(rt.alloc(), &s, &rows)?, None);
    Ok(())
}

// `x <= v` with so many others round it, each within the one before or each behind it.
fn nested(alloc: Global, depth: u32, within: bool) -> Result<Norm, Fail> {
    let mut test = form(alloc, DOUBLE, Cmp::Ge, &[(1, &[V]), (-1, &[X])])?;
    for _ in 0..depth {
        let other = form(alloc, DOUBLE, Cmp::Ge, &[(1, &[V]), (-1, &[X])])?;
        let (first, second) = if within { (test, other) } else { (other, test) };
        let last = then(alloc, second, Norms::End)?;
        test = all(alloc, then(alloc, first, last)?)?;
    }
    Ok(test)
}

#[test]
fn deep_formulas(rt: HostRuntime) -> Result<(), Fail> {
    let alloc = rt.alloc();
    let rows: [(&[i64], Reply); 2] = [
        (&[0, 1, 1, 2, 0, 7], act(7, false)),
        (&[0, 1, 0, 2, 0, 7], act(0, true)),
    ];
    for within in [true, false] {
        let mut s = double(alloc)?;
        s.ctrl = nested(alloc, 300, within)?;
        assert_eq!(rt; first_wrong(alloc, &s, &rows)?, None);
    }
    Ok(())
}

// Any choice is allowed, nothing else is asked, and the fallback is 0.
fn free(alloc: Global, counts: Counts) -> Result<Sandbox, Fail>
    requires { IsValid counts }
{
    let mut fallback = Vec::new(alloc);
    for _ in 0..counts.controls {
        fallback.push(poly(alloc, counts, &[])?)?;
    }
    Ok(Sandbox {
        counts,
        init: Items::of(Vec::new(alloc)),
        ctrl: all(alloc, Norms::End)?,
        plant: Items::of(Vec::new(alloc)),
        fallback: Items::of(fallback),
    })
}

// The words of a first record, a choice, a sensing and a choice, all of which are 0 but the last.
fn zeros_and_nine(alloc: Global, counts: Counts) -> Result<Vec<i64>, Fail>
    requires { IsValid counts }
{
    let first = usize::from(fields(Kind::Init, counts));
    let choice = usize::from(fields(Kind::Choice, counts));
    let sensing = usize::from(fields(Kind::Sense, counts));
    let mut values = Vec::new(alloc);
    for _ in 0..first + choice + sensing + choice - 1 {
        values.push(0)?;
    }
    values.push(9)?;
    Ok(values)
}

// The act of so many controls, of which the last alone isn't 0.
fn last_act(controls: u8) -> Reply {
    let mut values = [0; 16];
    let count = usize::from(controls).min(16);
    if let Some(last) = values[..count].last_mut() {
        *last = 9;
    }
    acts(&values[..count], false)
}

#[test]
fn counts_at_their_limits(rt: HostRuntime) -> Result<(), Fail> {
    let alloc = rt.alloc();
    let rows: [(u8, u8, u8, Reply); 3] = [
        (27, 1, 1, last_act(1)),
        (1, 14, 1, last_act(1)),
        (1, 1, 14, last_act(14)),
    ];
    for (params, states, controls, wanted) in rows {
        let counts = Counts {
            params,
            states,
            controls,
        };
        if !counts.is_valid() {
            return Err(Fail::new("no counts"));
        }
        assert_eq!(rt; counts.place_count(), 32);
        let values = zeros_and_nine(alloc, counts)?;
        let s = free(alloc, counts)?;
        assert_eq!(rt; first_wrong(alloc, &s, &[(&values, wanted)])?, None);
    }
    Ok(())
}

// Copies of `x <= v`.
fn ordered(alloc: Global, count: u32, forms: &mut Vec<Norm>) -> Result<(), Fail> {
    for _ in 0..count {
        forms.push(form(alloc, DOUBLE, Cmp::Ge, &[(1, &[V]), (-1, &[X])])?)?;
    }
    Ok(())
}

// `double` with so many copies of `x <= v` as init, 303 as domain and 495 as a test of a second path.
fn large(alloc: Global, init: u32) -> Result<Sandbox, Fail> {
    let mut s = double(alloc)?;
    let mut forms = Vec::new(alloc);
    ordered(alloc, init, &mut forms)?;
    s.init = Items::of(forms);
    let mut plant = Vec::new(alloc);
    plant.push(form(alloc, DOUBLE, Cmp::Ge, &[(1, &[TAU])])?)?;
    plant.push(form(alloc, DOUBLE, Cmp::Ge, &[(-1, &[TAU]), (10, &[])])?)?;
    plant.push(form(
        alloc,
        DOUBLE,
        Cmp::Eq,
        &[
            (-1, &[A, TAU, TAU]),
            (-2, &[V, TAU]),
            (-2, &[X]),
            (2, &[NEXT_X]),
        ],
    )?)?;
    plant.push(form(
        alloc,
        DOUBLE,
        Cmp::Eq,
        &[(-1, &[A, TAU]), (-1, &[V]), (1, &[NEXT_V])],
    )?)?;
    ordered(alloc, 303, &mut plant)?;
    s.plant = Items::of(plant);
    let test = nested(alloc, 494, true)?;
    let first = all(alloc, Norms::End)?;
    let second = all(alloc, then(alloc, test, Norms::End)?)?;
    s.ctrl = any(alloc, then(alloc, first, then(alloc, second, Norms::End)?)?)?;
    Ok(s)
}

// `double` with so many copies of `x^12 <= 0` as init.
fn wide(alloc: Global, init: u32) -> Result<Sandbox, Fail> {
    let mut s = double(alloc)?;
    let mut forms = Vec::new(alloc);
    for _ in 0..init {
        forms.push(form(
            alloc,
            DOUBLE,
            Cmp::Le,
            &[(1, &[X, X, X, X, X, X, X, X, X, X, X, X])],
        )?)?;
    }
    s.init = Items::of(forms);
    Ok(s)
}

// The sizes of the code, or why there is none.
fn compiled(alloc: Global, s: &Sandbox) -> Result<Result<(usize, u32), GenErr>, Fail> {
    if !s.fits() {
        return Err(Fail::new("it doesn't fit"));
    }
    match compile(alloc, s) {
        Ok(code) => Ok(Ok((code.code().instrs.get().len(), code.code().cells))),
        Err(e) => Ok(Err(e)),
    }
}

#[test]
fn limits(rt: HostRuntime) -> Result<(), Fail> {
    let alloc = rt.alloc();
    assert_eq!(rt; compiled(alloc, &tank(alloc)?)?, Ok((466, 512)));
    let s = large(alloc, 303)?;
    assert_eq!(rt; (sizes(&s).instrs, sizes(&s).cells), (65_536, 4_942));
    assert!(rt; compiled(alloc, &s)?.is_ok());
    let count = 65_596;
    assert_eq!(rt;
        compiled(alloc, &large(alloc, 304)?)?,
        Err(GenErr::Long { count })
    );
    assert_eq!(rt; sizes(&wide(alloc, 318)?).cells, 8_170);
    assert!(rt; compiled(alloc, &wide(alloc, 318)?)?.is_ok());
    let count = 8_194;
    assert_eq!(rt;
        compiled(alloc, &wide(alloc, 319)?)?,
        Err(GenErr::Cells { count })
    );
    Ok(())
}

// `0 >= 0` at each end of a tree of `And`s of two members.
fn balanced(alloc: Global, depth: u8) -> Result<Norm, Fail> {
    if depth == 0 {
        let poly = Poly::zero(alloc);
        return Ok(Norm::Atom(Atom { rel: Rel::Ge, poly }));
    }
    let first = balanced(alloc, depth - 1)?;
    let last = then(alloc, balanced(alloc, depth - 1)?, Norms::End)?;
    all(alloc, then(alloc, first, last)?)
}

#[test]
fn broad_formulas(rt: HostRuntime) -> Result<(), Fail> {
    let alloc = rt.alloc();
    let mut s = double(alloc)?;
    s.ctrl = balanced(alloc, 11)?;
    let rows: [(&[i64], Reply); 1] = [(&[0, 1, 1, 2, 0, 7], act(7, false))];
    assert_eq!(rt; first_wrong(alloc, &s, &rows)?, None);
    s.ctrl = balanced(alloc, 14)?;
    let count = 295_366;
    assert_eq!(rt; compiled(alloc, &s)?, Err(GenErr::Long { count }));
    Ok(())
}
