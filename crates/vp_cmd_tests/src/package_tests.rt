//! Packages that are checked and listed.
use crate::tests::{Answer, Setting, answer_to, padded_line, unfailing};
use std::alloc::{AllocError, Global};
use std::process::Abort;
use std::test::Fail;
use vp_cmd::Status;

/// A package: a tank that a flow fills and empties.
pub(crate) const TANK: &str = "package 1;
params H;
states x;
controls f;
init x <= H;
inv x <= H;
safe x <= H;
ctrl {f := *; ?f >= -3 & x + 10*f + 10 <= H;} ++ {f := -3;};
time 0 to 10;
flow x' = f;
slack x from -tau to tau;
domain true;
fallback f = -3;
cert init 1 {pos 1 of 2; sum 1 of 1;};
cert safe 1 {pos 1 of 2; sum 1 of 1;};
cert step 1 {pos 10 of 8; sum 1 of 5*1; sum 1 of 4*3; sum 10 of 7;};
cert step 2 {pos 1 of 7; sum 1 of 1; sum 1 of 6; sum 2 of 3; eq 2 times (-tau);};
cert fallback 1 {pos 1 of 4; eq 2 times (-1);};
cert fallback 2 {pos 1 of 4; eq 2 times (1);};
cert fallback 3 {pos 1 of 4; eq 2 times (-1);};
cert fallback 4 {pos 1 of 4; eq 2 times (1);};
";

/// A package with a place and a speed, of which nothing is asked.
pub(crate) const DOUBLE: &str = "package 1;
params ;
states x, v;
controls a;
init true;
inv true;
safe true;
ctrl {a := *;};
time 0 to 10;
flow x' = v, v' = a;
slack x from 0 to 0, v from 0 to 0;
domain true;
fallback a = 0;
";

/// The same where the controller and the fallback brake.
pub(crate) const BRAKE: &str = "package 1;
params ;
states x, v;
controls a;
init true;
inv true;
safe true;
ctrl {a := -v;};
time 0 to 10;
flow x' = v, v' = a;
slack x from 0 to 0, v from 0 to 0;
domain true;
fallback a = -v;
cert fallback 1 {pos 1 of 2; eq 1 times (-1);};
cert fallback 2 {pos 1 of 2; eq 1 times (1);};
";

/// The file `p`, and nothing else.
pub(crate) fn package<'a>(text: &'a [u8]) -> Setting<'a> {
    package_over(text, b"")
}

/// The file `p`, and an input.
pub(crate) fn package_over<'a>(text: &'a [u8], input: &'a [u8]) -> Setting<'a> {
    let mut setting = unfailing(text, input);
    setting.name = "p";
    setting
}

/// What a command says of a package.
pub(crate) fn say(alloc: Global, command: &str, text: &[u8]) -> Result<Answer, AllocError> {
    answer_to(alloc, &[command, "p"], &package(text))
}

/// A text with one part of it replaced.
pub(crate) fn edited(alloc: Global, text: &str, old: &str, new: &str) -> Result<String, Fail> {
    let (front, back) = text.split_once(old).ok_or("no such part")?;
    let mut found = front.to_string(alloc)?;
    found.push_str(new)?;
    found.push_str(back)?;
    Ok(found)
}

/// So many of these parts, with another between each two.
pub(crate) fn repeated(
    alloc: Global,
    part: &str,
    between: &str,
    count: usize,
) -> Result<String, AllocError> {
    let mut all = part.to_string(alloc)?;
    for _ in 1..count {
        all.push_str(between)?;
        all.push_str(part)?;
    }
    Ok(all)
}

/// The tank with so many copies of `x <= H` in this piece.
fn with_copies(alloc: Global, piece: &str, count: usize) -> Result<String, Fail> {
    let copies = repeated(alloc, "x <= H", " & ", count)?;
    let old = format!(in alloc; "{piece} x <= H;")?;
    let new = format!(in alloc; "{piece} {copies};")?;
    edited(alloc, TANK, &old, &new)
}

/// The check of a text prints this line.
fn checks(rt: &impl Abort, alloc: Global, text: &[u8], line: &str) -> Result<(), Fail> {
    let (status, printed) = say(alloc, "check", text)?;
    assert_eq!(rt; printed.as_slice(), line.as_bytes());
    let expected = if line == "accepted\n" {
        Status::Done
    } else {
        Status::Refused
    };
    assert_eq!(rt; status, expected, "of {line}");
    Ok(())
}

/// The check of a text with one part replaced prints this line: of the part, what stands in its place,
/// and the line.
fn each_checks(
    rt: &impl Abort,
    alloc: Global,
    text: &str,
    rows: &[(&str, &str, &str)],
) -> Result<(), Fail> {
    for (old, new, line) in rows {
        checks(rt, alloc, edited(alloc, text, old, new)?.as_bytes(), line)?;
    }
    Ok(())
}

#[test]
fn packages_are_accepted(rt: HostRuntime) -> Result<(), Fail> {
    let alloc = rt.alloc();
    let full = padded_line(alloc, TANK.as_bytes(), b' ', 1_048_576)?;
    let full = &full[..full.len().min(1_048_576)];
    for text in [TANK.as_bytes(), DOUBLE.as_bytes(), BRAKE.as_bytes(), full] {
        checks(&rt, alloc, text, "accepted\n")?;
    }
    Ok(())
}

#[test]
fn texts_are_refused(rt: HostRuntime) -> Result<(), Fail> {
    let alloc = rt.alloc();
    let (bare, _) = TANK.split_once("cert").ok_or("no certificate")?;
    let spaces = padded_line(alloc, b"", b' ', 1_048_577)?;
    let rows: [(&[u8], &str); 5] = [
        (b"", "refused section 1\n"),
        (b"$", "refused lex 0\n"),
        (b"package 4611686018427387904;", "refused number 8\n"),
        (&spaces[..spaces.len().min(1_048_577)], "refused length\n"),
        (bare.as_bytes(), "refused cert init 1 missing\n"),
    ];
    for (text, line) in rows {
        checks(&rt, alloc, text, line)?;
    }
    Ok(())
}

/// The tank with one part replaced: what is wrong with its text.
#[test]
fn changed_texts_are_checked(rt: HostRuntime) -> Result<(), Fail> {
    each_checks(
        &rt,
        rt.alloc(),
        TANK,
        &[
            ("params H;", "params H, H;", "refused twice H\n"),
            ("init x <= H;", "init z <= H;", "refused undeclared z 5\n"),
            (
                "flow x' = f;",
                "flow x' = f, x' = f;",
                "refused entries 10 2\n",
            ),
            (
                "params H;",
                "params H, a1, a2, a3, a4, a5, a6, a7, a8, a9, a10, a11, a12, a13, a14, a15, a16, a17, a18, a19, a20, a21, a22, a23, a24, a25, a26;",
                "accepted\n",
            ),
            (
                "params H;",
                "params a1, a2, a3, a4, a5, a6, a7, a8, a9, a10, a11, a12, a13, a14, a15, a16, a17, a18, a19, a20, a21, a22, a23, a24, a25, a26, a27, H;",
                "refused names 33\n",
            ),
            (
                "init x <= H;",
                "init [[[[[[[[[[[[[[[[[[[[[[[[[[[[[[[[[x <= H]]]]]]]]]]]]]]]]]]]]]]]]]]]]]]]]];",
                "refused deep 5\n",
            ),
            (
                "init x <= H;",
                "init [[[[[[[[[[[[[[[[[[[[[[[[[[[[[[[[x <= H]]]]]]]]]]]]]]]]]]]]]]]]]]]]]]]];",
                "accepted\n",
            ),
            ("package 1;", "package 01;", "refused section 1\n"),
            (
                "cert fallback 4 {pos 1 of 4; eq 2 times (1);};\n",
                "cert fallback 4 {pos 1 of 4; eq 2 times (1);};\nx\n",
                "refused section 22\n",
            ),
            ("init x <= H;", "init x^013 <= H;", "refused section 5\n"),
            (
                "init x <= H;",
                "init x^012 <= H;",
                "refused cert init 1 notzero x^12 -1\n",
            ),
            ("init x <= H;", "init a < b < c;", "refused section 5\n"),
            ("init x <= H;", "init - -x <= H;", "refused section 5\n"),
            ("init x <= H;", "init !x <= 1;", "refused section 5\n"),
            ("++ {f := -3;}", "else {f := -3;}", "refused section 8\n"),
            ("controls f;", "controls f", "refused section 4\n"),
            ("domain true;", "domain tau@ <= 1;", "refused lex 205\n"),
            (
                "init x <= H;",
                "init tau <= 1;",
                "refused undeclared tau 5\n",
            ),
            ("init x <= H;", "init x@ <= H;", "refused undeclared x@ 5\n"),
            (
                "init x <= H;\ninv x <= H;",
                "init z <= H;\ninv;",
                "refused section 6\n",
            ),
            ("domain true;", "domain;", "refused section 12\n"),
            (
                "fallback f = -3;",
                "fallback f = 5/0;",
                "refused number 221\n",
            ),
        ],
    )
}

/// The tank with one part replaced: what is wrong with its model or its certificates.
#[test]
fn changed_models_are_checked(rt: HostRuntime) -> Result<(), Fail> {
    each_checks(
        &rt,
        rt.alloc(),
        TANK,
        &[
            (
                "pos 10 of 8",
                "pos 9 of 8",
                "refused cert step 1 notzero H 1\n",
            ),
            (
                "{f := *; ?f >= -3 & x + 10*f + 10 <= H;} ++ {f := -3;}",
                "{f := *; f := -3;}",
                "refused hidden f\n",
            ),
            ("x' = f", "x' = x", "refused cycle x\n"),
            ("x' = f", "x' = x*x", "refused notlinear x\n"),
            (
                "init x <= H",
                "init x <= 4611686018427387902",
                "refused cert init 1 notzero H -1\n",
            ),
            (
                "init x <= H",
                "init x <= 4611686018427387903",
                "refused wide init\n",
            ),
            (
                "inv x <= H",
                "inv x <= 4611686018427387903",
                "refused wide inv\n",
            ),
            (
                "safe x <= H",
                "safe x <= 4611686018427387903",
                "refused wide safe\n",
            ),
            (
                "?f >= -3",
                "?f >= -4611686018427387903",
                "refused wide ctrl\n",
            ),
            (
                "x' = f",
                "x' = f + 4611686018427387903",
                "refused wide flow x\n",
            ),
            ("0 to 10", "0 to 4611686018427387903", "refused wide time\n"),
            (
                "-tau to tau",
                "-tau to 4611686018427387903",
                "refused wide slack x\n",
            ),
            (
                "domain true",
                "domain x <= 4611686018427387903",
                "refused wide domain\n",
            ),
            (
                "fallback f = -3",
                "fallback f = 4611686018427387903",
                "refused wide fallback f\n",
            ),
            (
                "fallback f = -3",
                "fallback f = 1/2*x",
                "refused fraction f\n",
            ),
            (
                "pos 1 of 2",
                "pos 1 of 1",
                "refused cert init 1 notstrict\n",
            ),
            ("sum 1 of 1", "sum 1 of 9", "refused cert init 1 label\n"),
            (
                "pos 1 of 2; sum 1 of 1",
                "pos 1 of 2; sum 1 of 1; eq 1 times (1)",
                "refused cert init 1 label\n",
            ),
            (
                "eq 2 times (-tau)",
                "eq 2 times (4611686018427387903*tau + tau)",
                "refused cert step 2 wide\n",
            ),
            // Certificates stand in the order of the cases, and a wrong one comes before one too many.
            (
                "cert init 1",
                "cert init 2",
                "refused cert init 1 missing\n",
            ),
            (
                "cert safe 1",
                "cert init 2",
                "refused cert safe 1 missing\n",
            ),
            (
                "cert fallback 4",
                "cert fallback 5",
                "refused cert fallback 4 missing\n",
            ),
            (
                "cert fallback 4 {pos 1 of 4; eq 2 times (1);};",
                "cert fallback 4 {pos 1 of 4; eq 2 times (1);};\ncert fallback 5 {pos 1;};",
                "refused cert extra\n",
            ),
            (
                "cert fallback 4 {pos 1 of 4; eq 2 times (1);};",
                "cert fallback 4 {pos 1 of 4; eq 2 times (2);};\ncert fallback 5 {pos 1;};",
                "refused cert fallback 4 notzero f@ 1\n",
            ),
        ],
    )
}

/// A place and a speed with one part replaced.
#[test]
fn changed_doubles_are_checked(rt: HostRuntime) -> Result<(), Fail> {
    each_checks(
        &rt,
        rt.alloc(),
        DOUBLE,
        &[
            ("v' = a", "v' = x", "refused cycle x v\n"),
            (
                "v from 0 to 0",
                "v from 0 to 4611686018427387903",
                "refused wide slack v\n",
            ),
            ("inv true", "inv false", "refused cert init 1 missing\n"),
        ],
    )
}

/// Texts with as many parts as may be, and one more.
#[test]
fn large_packages_are_checked(rt: HostRuntime) -> Result<(), Fail> {
    let alloc = rt.alloc();
    for (piece, count, line) in [
        ("safe", 256, "refused cert safe 2 missing\n"),
        ("safe", 257, "refused cases safe 257\n"),
        ("init", 511, "refused cert init 1 notstrict\n"),
        ("init", 512, "refused deep 5\n"),
    ] {
        let text = with_copies(alloc, piece, count)?;
        checks(&rt, alloc, text.as_bytes(), line)?;
    }
    let nine = repeated(alloc, "{f := 1;} ++ {f := 2;}", " ", 9)?;
    let paths = edited(
        alloc,
        TANK,
        "{f := *; ?f >= -3 & x + 10*f + 10 <= H;} ++ {f := -3;}",
        &format!(in alloc; "{{{nine}}}")?,
    )?;
    checks(&rt, alloc, paths.as_bytes(), "refused paths 512\n")?;
    // Too many cases are told behind what is wrong with the fallback.
    let many = with_copies(alloc, "safe", 257)?;
    let both = edited(alloc, &many, "fallback f = -3", "fallback f = 1/2*x")?;
    checks(&rt, alloc, both.as_bytes(), "refused fraction f\n")
}

const LISTED_TANK: &str = "init 1 H - x >= 0
ctrl 1 [f@ + 3 >= 0 & H - x - 10*f@ - 10 >= 0]
ctrl 2 f@ + 3 = 0
plant 1 tau >= 0
plant 2 -tau + 10 >= 0
plant 3 -f*tau - x + x@ + tau >= 0
plant 4 f*tau + x - x@ + tau >= 0
fallback f = -3
case init 1 1 H - x >= 0
case init 1 2 -H + x > 0
case safe 1 1 H - x >= 0
case safe 1 2 -H + x > 0
case step 1 1 H - x >= 0
case step 1 2 f@ + 3 >= 0
case step 1 3 H - x - 10*f@ - 10 >= 0
case step 1 4 tau >= 0
case step 1 5 -tau + 10 >= 0
case step 1 6 -f@*tau - x + x@ + tau >= 0
case step 1 7 f@*tau + x - x@ + tau >= 0
case step 1 8 -H + x@ > 0
case step 2 1 H - x >= 0
case step 2 2 f@ + 3 = 0
case step 2 3 tau >= 0
case step 2 4 -tau + 10 >= 0
case step 2 5 -f@*tau - x + x@ + tau >= 0
case step 2 6 f@*tau + x - x@ + tau >= 0
case step 2 7 -H + x@ > 0
case fallback 1 1 H - x >= 0
case fallback 1 2 f@ + 3 = 0
case fallback 1 3 -f@ - 3 > 0
case fallback 1 4 f@ + 3 > 0
case fallback 2 1 H - x >= 0
case fallback 2 2 f@ + 3 = 0
case fallback 2 3 -f@ - 3 > 0
case fallback 2 4 -f@ - 3 > 0
case fallback 3 1 H - x >= 0
case fallback 3 2 f@ + 3 = 0
case fallback 3 3 -H + x + 10*f@ + 10 > 0
case fallback 3 4 f@ + 3 > 0
case fallback 4 1 H - x >= 0
case fallback 4 2 f@ + 3 = 0
case fallback 4 3 -H + x + 10*f@ + 10 > 0
case fallback 4 4 -f@ - 3 > 0
size 668 550
";

const LISTED_DOUBLE: &str = "ctrl 1 true
plant 1 tau >= 0
plant 2 -tau + 10 >= 0
plant 3 -a*tau^2 - 2*v*tau - 2*x + 2*x@ = 0
plant 4 -a*tau - v + v@ = 0
fallback a = 0
size 466 538
";

/// The listing of a package, whose certificates aren't asked.
#[test]
fn packages_are_listed(rt: HostRuntime) -> Result<(), Fail> {
    let alloc = rt.alloc();
    let (bare, _) = TANK.split_once("cert").ok_or("no certificate")?;
    for (text, expected) in [
        (TANK, LISTED_TANK),
        (bare, LISTED_TANK),
        (DOUBLE, LISTED_DOUBLE),
    ] {
        let (status, printed) = say(alloc, "list", text.as_bytes())?;
        assert_eq!(&rt; status, Status::Done);
        assert_eq!(&rt; printed.as_slice(), expected.as_bytes());
    }
    let cases = with_copies(alloc, "safe", 257)?;
    for (text, expected) in [
        ("", "refused section 1\n"),
        (cases.as_str(), "refused cases safe 257\n"),
    ] {
        let (status, printed) = say(alloc, "list", text.as_bytes())?;
        assert_eq!(&rt; status, Status::Refused);
        assert_eq!(&rt; printed.as_slice(), expected.as_bytes());
    }
    Ok(())
}

/// What a check leaves where something outside fails.
#[test]
fn failed_checks_leave_a_front(rt: HostRuntime) -> Result<(), Fail> {
    let alloc = rt.alloc();
    let line = b"accepted\n";
    for call in 0..line.len() {
        let fails = [call as u64];
        let mut failing = package(TANK.as_bytes());
        failing.takes = 1;
        failing.sink_fails = &fails;
        let (answered, printed) = answer_to(alloc, &["check", "p"], &failing)?;
        assert_eq!(rt; answered, Status::WriteFault);
        assert_eq!(rt; printed.as_slice(), &line[..call]);
    }
    let mut failing = package(b"");
    failing.store_fails = &[0];
    let rows: [(&str, Setting); 2] = [("q", package(b"")), ("p", failing)];
    for (name, setting) in rows {
        let (answered, printed) = answer_to(alloc, &["check", name], &setting)?;
        assert_eq!(rt; answered, Status::StoreFault);
        assert_eq!(rt; printed.len(), 0);
    }
    Ok(())
}
