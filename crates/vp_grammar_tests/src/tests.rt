use std::alloc::Global;
use std::fmt::Debug;
use std::test::Fail;
use vp_grammar::{
    Operator, ParseErr, ReservedWord, Span, Symbol, Terminal, formula_piece, whole_expression,
    whole_formula,
};
use vp_terms::{Cmp, Ratio, Var};

fn operator(token: &str) -> Option<Operator> {
    match token {
        "+" => Some(Operator::Plus),
        "-" => Some(Operator::Minus),
        "*" => Some(Operator::Star),
        "^" => Some(Operator::Caret),
        "&" => Some(Operator::Ampersand),
        "|" => Some(Operator::Bar),
        _ => None,
    }
}

fn symbol(token: &str) -> Option<Symbol> {
    match token {
        "(" => Some(Symbol::Open),
        ")" => Some(Symbol::Close),
        "[" => Some(Symbol::SquareOpen),
        "]" => Some(Symbol::SquareClose),
        "!" => Some(Symbol::Bang),
        ";" => Some(Symbol::Semicolon),
        _ => None,
    }
}

fn word(token: &str) -> Option<ReservedWord> {
    match token {
        "init" => Some(ReservedWord::Init),
        "true" => Some(ReservedWord::True),
        "false" => Some(ReservedWord::False),
        _ => None,
    }
}

fn compare(token: &str) -> Option<Cmp> {
    match token {
        "<" => Some(Cmp::Lt),
        "<=" => Some(Cmp::Le),
        "=" => Some(Cmp::Eq),
        _ => None,
    }
}

// The terminal of a token: `a`, `b` and `c` are states, `a@` is the next value of `a`, and `z` isn't
// declared.
fn terminal(token: &str) -> Option<Terminal> {
    let span = Span { from: 0, to: 0 };
    if let Some(operator) = operator(token) {
        return Some(Terminal::Operator(operator));
    }
    if let Some(symbol) = symbol(token) {
        return Some(Terminal::Symbol(symbol));
    }
    if let Some(word) = word(token) {
        return Some(Terminal::Word(word));
    }
    if let Some(cmp) = compare(token) {
        return Some(Terminal::Compare(cmp));
    }
    match token {
        "a" => Some(Terminal::Name(span, Some(Var::State(0)))),
        "b" => Some(Terminal::Name(span, Some(Var::State(1)))),
        "c" => Some(Terminal::Name(span, Some(Var::State(2)))),
        "a@" => Some(Terminal::Variable(span, Some(Var::NextState(0)))),
        "z" => Some(Terminal::Name(span, None)),
        _ => Some(Terminal::Number(Ratio::of_text(token.as_bytes())?, !token.contains('/'))),
    }
}

// The terminals of a line of tokens with a space between each two.
fn terminals(alloc: Global, line: &str) -> Result<Vec<Terminal>, Fail> {
    let mut found = Vec::new(alloc);
    for token in line.split(' ') {
        found.push(terminal(token).ok_or("no terminal")?)?;
    }
    Ok(found)
}

fn shown<T: Debug + Drop>(alloc: Global, read: Result<T, ParseErr>) -> Result<String, Fail> {
    match read {
        Ok(tree) => Ok(format!(in alloc; "{tree:?}")?),
        Err(ParseErr::Form) => Ok(format!(in alloc; "form")?),
        Err(ParseErr::Memory) => Ok(format!(in alloc; "memory")?),
    }
}

#[test]
fn expressions(rt: HostRuntime) -> Result<(), Fail> {
    let alloc = rt.alloc();
    for (line, expected) in [
        (
            "a - b - c",
            "Sub(Sub(Var(State(0)), Var(State(1))), Var(State(2)))",
        ),
        (
            "- a + b",
            "Add(Sub(Num(Ratio { num: 0, den: 1 }), Var(State(0))), Var(State(1)))",
        ),
        (
            "a * b ^ 2 * c",
            "Mul(Mul(Var(State(0)), Pow(Var(State(1)), 2)), Var(State(2)))",
        ),
        (
            "( a - 1/2 ) ^ 0",
            "Pow(Sub(Var(State(0)), Num(Ratio { num: 1, den: 2 })), 0)",
        ),
        ("a ^ 12", "Pow(Var(State(0)), 12)"),
        ("a ^ 13", "form"),
        ("a ^ 1/2", "form"),
        ("a ^ 2 ^ 2", "form"),
        ("- - a", "form"),
        ("a - - b", "form"),
        ("a b", "form"),
        ("( a", "form"),
        ("a +", "form"),
        ("a@ * z", "Mul(Var(NextState(0)), Var(Tau))"),
    ] {
        let read = whole_expression(alloc, terminals(alloc, line)?.as_slice());
        assert_eq!(rt; shown(alloc, read)?.as_str(), expected, "of {line}");
    }
    Ok(())
}

#[test]
fn formulas(rt: HostRuntime) -> Result<(), Fail> {
    let alloc = rt.alloc();
    for (line, expected) in [
        ("a < b", "Cmp(Lt, Var(State(0)), Var(State(1)))"),
        ("a < b < c", "form"),
        ("! a <= 1", "form"),
        ("false", "Not(True)"),
        ("true & true & false", "And(And(True, True), Not(True))"),
        ("true | false & true", "Or(True, And(Not(True), True))"),
        (
            "true & [ a = b ] | false",
            "Or(And(True, Cmp(Eq, Var(State(0)), Var(State(1)))), Not(True))",
        ),
        ("! [ true | true ]", "Not(Or(True, True))"),
        ("true + 1", "form"),
        ("[ true", "form"),
        ("true |", "form"),
        ("a", "form"),
    ] {
        let read = whole_formula(alloc, terminals(alloc, line)?.as_slice());
        assert_eq!(rt; shown(alloc, read)?.as_str(), expected, "of {line}");
    }
    Ok(())
}

#[test]
fn pieces(rt: HostRuntime) -> Result<(), Fail> {
    let alloc = rt.alloc();
    for (line, expected) in [
        ("init true ;", "True"),
        ("init true", "form"),
        ("init true ; ;", "form"),
        ("true ;", "form"),
        ("init ;", "form"),
    ] {
        let read = formula_piece(
            alloc,
            ReservedWord::Init,
            terminals(alloc, line)?.as_slice(),
        );
        assert_eq!(rt; shown(alloc, read)?.as_str(), expected, "of {line}");
    }
    Ok(())
}
