ghost use Rattle.std.specs.Prelude.{◌≤◌, IfOk};
ghost use Rattle.vp_terms.specs.Places.{place_count};
ghost use Rattle.vp_terms.specs.WellFormed.{places_of};

use std::alloc::{AllocError, Global};
use std::test::Fail;
use vp_grammar::Rule;
use vp_lex::tokens;
use vp_read::{
    ReadErr, check_variables, known_pieces, read_cert, read_expr, read_formula, read_package,
    read_pieces,
};
use vp_terms::{Kinds, NameList, Names};

const TANK: &str = "package 1;
params H;
states x;
controls f;
init x <= H;
inv x <= H;
safe x <= H;
ctrl {f := *; ?f >= -3 & x + 10*f + 10 <= H;} ++ {f := -3;};
time 0 to 10;
flow x' = f;
slack x from -tau to tau;
domain true;
fallback f = -3;
cert init 1 {pos 1 of 2; sum 1 of 1;};
cert step 4611686018427387903 {pos 10 of 8; sum 10 sq(x@) of 5*1; eq 2 times (-tau);};
";

// How a text is read: as a package, shown, or why it is none.
fn shown(alloc: Global, text: &str) -> Result<String, Fail> {
    if text.len() > 1_048_576 {
        return Ok(format!(in alloc; "too long")?);
    }
    match read_package(alloc, text.as_bytes()) {
        Ok(pkg) => Ok(format!(in alloc; "{:?} {:?} {:?}", pkg.ctrl, pkg.plant.slack, pkg.certs)?),
        Err(why) => Ok(format!(in alloc; "{why:?}")?),
    }
}

#[test]
fn packages(rt: HostRuntime) -> Result<(), Fail> {
    let alloc = rt.alloc();
    for (text, expected) in [
        ("", "Section { piece: 1 }"),
        ("$", "Lex { at: 0 }"),
        ("package 4611686018427387904;", "Number { at: 8 }"),
        ("package 01;", "Section { piece: 1 }"),
        (
            "package 1; params H, H; states x; controls f;",
            "Section { piece: 5 }",
        ),
    ] {
        assert_eq!(rt; shown(alloc, text)?.as_str(), expected, "of {text}");
    }
    let tank = shown(alloc, TANK)?;
    assert!(rt; tank.contains("number: 4294967295"), "{tank}");
    assert!(rt;
        tank.contains("Seq(Any(0), Test(And(Cmp(Ge, Var(Control(0)), "),
        "{tank}"
    );
    assert!(rt; tank.contains("NextState(0)"), "{tank}");
    Ok(())
}

// One parameter `H`, one state `x` and one control `f`.
fn names(alloc: Global) -> Result<Names, AllocError>
    ensures { IfOk result (λ n. place_count (places_of n) ≤ 32) }
{
    Ok(Names {
        params: NameList::of(vec![in alloc; "H".to_string(alloc)?]?),
        states: NameList::of(vec![in alloc; "x".to_string(alloc)?]?),
        controls: NameList::of(vec![in alloc; "f".to_string(alloc)?]?),
    })
}

// A whole text read as a formula, an expression and a certificate.
fn parts(alloc: Global, text: &str) -> Result<String, Fail> {
    let text = text.as_bytes();
    if text.len() > 1_048_576 {
        return Ok(format!(in alloc; "too long")?);
    }
    let names = names(alloc)?;
    let Ok(found) = tokens(alloc, text) else {
        return Ok(format!(in alloc; "no tokens")?);
    };
    let formula = read_formula(alloc, text, &found, &names);
    let expr = read_expr(alloc, text, &found, &names);
    let cert = read_cert(alloc, text, &found, &names);
    Ok(format!(in alloc; "{formula:?} / {expr:?} / {cert:?}")?)
}

#[test]
fn single_parts(rt: HostRuntime) -> Result<(), Fail> {
    let alloc = rt.alloc();
    let none = "Err(Section { piece: 0 })";
    for (text, formula, expr, cert) in [
        ("", none, none, none),
        ("true", "Ok(True)", none, none),
        ("x@", none, "Ok(Var(NextState(0)))", none),
        (
            "x + y@",
            none,
            "Err(Undeclared { name: NameText { name: \"y@\" }, piece: 0 })",
            none,
        ),
        (
            "cert safe 2 {pos 3;};",
            none,
            none,
            "Ok(Cert { part: Safe, number: 2, terms: Items { items: [Pos { times: 3, labels: Items { items: [] } }] } })",
        ),
        ("cert safe 2 {pos 3; pos 1;};", none, none, none),
        ("cert safe 2 {sum 1;};", none, none, none),
        ("cert safe 2 {pos 1; sum 1 sq(1/2);};", none, none, none),
        (
            "H + 5/0",
            "Err(Number { at: 4 })",
            "Err(Number { at: 4 })",
            "Err(Number { at: 4 })",
        ),
    ] {
        let expected = format!(in alloc; "{formula} / {expr} / {cert}")?;
        assert_eq!(rt;
            parts(alloc, text)?.as_str(),
            expected.as_str(),
            "of {text}"
        );
    }
    Ok(())
}

// `open` n times, `inner`, and `close` n times, between `front` and `back`.
fn nested(
    alloc: Global,
    front: &str,
    open: &str,
    n: usize,
    inner: &str,
    close: &str,
    back: &str,
) -> Result<String, Fail> {
    let mut text = front.to_string(alloc)?;
    for _ in 0..n {
        text.push_str(open)?;
    }
    text.push_str(inner)?;
    for _ in 0..n {
        text.push_str(close)?;
    }
    text.push_str(back)?;
    Ok(text)
}

// How a part is read: well, or why it is none.
fn told<T: Drop>(alloc: Global, read: Result<T, ReadErr>) -> Result<String, Fail> {
    match read {
        Ok(_) => Ok(format!(in alloc; "ok")?),
        Err(ReadErr::Deep { piece: 0 }) => Ok(format!(in alloc; "deep")?),
        Err(ReadErr::Section { piece: 0 }) => Ok(format!(in alloc; "form")?),
        Err(why) => Ok(format!(in alloc; "{why:?}")?),
    }
}

// How a whole text is read as a formula, an expression and a certificate.
fn outcomes(alloc: Global, text: &str) -> Result<String, Fail> {
    let text = text.as_bytes();
    if text.len() > 1_048_576 {
        return Ok(format!(in alloc; "too long")?);
    }
    let names = names(alloc)?;
    let Ok(found) = tokens(alloc, text) else {
        return Ok(format!(in alloc; "no tokens")?);
    };
    let formula = read_formula(alloc, text, &found, &names);
    let expr = read_expr(alloc, text, &found, &names);
    let cert = read_cert(alloc, text, &found, &names);
    let formula = told(alloc, formula)?;
    let expr = told(alloc, expr)?;
    let cert = told(alloc, cert)?;
    Ok(format!(in alloc; "{formula} / {expr} / {cert}")?)
}

// The limits of depth: 32 open brackets and 2,048 tokens are read, 33 and 2,049 are not. A refused
// number comes before depth, and depth before a wrong form and an undeclared name.
#[test]
fn depth(rt: HostRuntime) -> Result<(), Fail> {
    let alloc = rt.alloc();
    let deep = "deep / deep / deep";
    for (front, open, n, inner, close, back, expected) in [
        ("", "(", 32, "x", ")", "", "form / ok / form"),
        ("", "(", 33, "x", ")", "", deep),
        ("", "[", 32, "true", "]", "", "ok / form / form"),
        ("", "[", 33, "true", "]", "", deep),
        (
            "cert init 1 {pos 1; sum 1 sq",
            "(",
            31,
            "x",
            ")",
            ";};",
            "form / form / ok",
        ),
        (
            "cert init 1 {pos 1; sum 1 sq",
            "(",
            32,
            "x",
            ")",
            ";};",
            deep,
        ),
        ("-x", "+x", 1023, "", "", "", "form / ok / form"),
        ("x", "+x", 1024, "", "", "", deep),
        (
            "",
            "(",
            33,
            "5/0",
            "",
            "",
            "Number { at: 33 } / Number { at: 33 } / Number { at: 33 }",
        ),
        ("", "(", 33, "y", "", "", deep),
        ("", "(", 32, "y", "", "", "form / form / form"),
    ] {
        let text = nested(alloc, front, open, n, inner, close, back)?;
        assert_eq!(rt;
            outcomes(alloc, text.as_str())?.as_str(),
            expected,
            "of {text}"
        );
    }
    Ok(())
}

// How a text whose pieces may name what a domain may is read: with so many pieces, or why not.
fn companion(alloc: Global, text: &str) -> Result<String, Fail> {
    let text = text.as_bytes();
    if text.len() > 1_048_576 {
        return Ok(format!(in alloc; "too long")?);
    }
    let names = names(alloc)?;
    let pieces = match read_pieces(alloc, text) {
        Ok((_, pieces)) => pieces,
        Err(why) => return Ok(format!(in alloc; "{why:?}")?),
    };
    let known = known_pieces(alloc, text, &names, &pieces)?;
    for (i, piece) in known.iter().enumerate() {
        let rule = Rule::Plain(Kinds::DOMAIN);
        let checked = check_variables(alloc, text, rule, names.places(), i as u32 + 1, piece);
        if let Err(why) = checked {
            return Ok(format!(in alloc; "{why:?}")?);
        }
    }
    Ok(format!(in alloc; "{} pieces", known.len())?)
}

#[test]
fn companions(rt: HostRuntime) -> Result<(), Fail> {
    let alloc = rt.alloc();
    for (text, expected) in [
        ("", "0 pieces"),
        ("safe x <= H;", "1 pieces"),
        ("safe x + tau*f <= H; cert step 1 {pos 1;}; x", "3 pieces"),
        (
            "safe x@ <= H;",
            "Undeclared { name: NameText { name: \"x@\" }, piece: 1 }",
        ),
        (
            "safe x <= H; cert step 1 {pos 1; eq 2 times (x - f@);};",
            "Undeclared { name: NameText { name: \"f@\" }, piece: 2 }",
        ),
        ("safe 1/0 <= $", "Lex { at: 12 }"),
        ("safe 1/0 <= H;", "Number { at: 5 }"),
    ] {
        assert_eq!(rt; companion(alloc, text)?.as_str(), expected, "of {text}");
    }
    Ok(())
}
