//! The listing of a package with forms of every kind.
use std::test::Fail;
use vp_synth::{list, prepare};

/// A package with forms in forms, one that never holds, and numbers alone. As its invariant never holds,
/// no obligation has a case.
const PACKAGE: &[u8] = b"package 1;
params ;
states x, v;
controls a;
init [x < v | [v^2*x != 1 & x >= 0]] & false & 2 >= 1 & 0 >= 0;
inv false;
safe true;
ctrl {?[a > 0 | x = v];} ++ {a := -v;};
time 0 to 10;
flow x' = v, v' = a;
slack x from 0 to 0, v from 0 to 0;
domain true;
fallback a = 0;
";

const LISTED: &str = "init 1 -x + v > 0 | [[x*v^2 - 1 > 0 | -x*v^2 + 1 > 0] & x >= 0]
init 2 false
init 3 1 >= 0
init 4 0 >= 0
ctrl 1 [a > 0 | x - v = 0] & -a + a@ = 0
ctrl 2 v + a@ = 0
plant 1 tau >= 0
plant 2 -tau + 10 >= 0
plant 3 -a*tau^2 - 2*v*tau - 2*x + 2*x@ = 0
plant 4 -a*tau - v + v@ = 0
fallback a = 0
size 978 570
";

#[test]
fn forms_are_listed(rt: HostRuntime) -> Result<(), Fail> {
    let alloc = rt.alloc();
    let prepared = prepare(alloc, PACKAGE).map_err(|_| "refused")?;
    let text = list(alloc, &prepared)?;
    let text = String::from_utf8(text).map_err(|_| "no text")?;
    assert_eq!(rt; text.as_str(), LISTED);
    Ok(())
}
