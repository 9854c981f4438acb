//! Packages that are compiled and run.
use crate::package_tests::{BRAKE, DOUBLE, TANK, edited, package, package_over, repeated, say};
use crate::tests::{Answer, answer_to, exec, unfailing};
use std::alloc::{AllocError, Global};
use std::process::Abort;
use std::test::Fail;
use vp_cmd::Status;

const START: &str = "i 1000 1000 500 502 0\nc 5\n";

/// What `run` says of a package over an input.
fn run(alloc: Global, text: &str, input: &str) -> Result<Answer, AllocError> {
    let setting = package_over(text.as_bytes(), input.as_bytes());
    answer_to(alloc, &["run", "p"], &setting)
}

/// The image that `compile` writes of a package.
fn compiled(alloc: Global, text: &str) -> Result<Vec<u8>, Fail> {
    match say(alloc, "compile", text.as_bytes())? {
        (Status::Done, image) => Ok(image),
        _ => Err(Fail::new("refused")),
    }
}

/// The package prints this under this status over each input, both by `run` and by `exec` of its image:
/// what follows what is printed of the front, which the inputs have in common.
fn each_runs(
    rt: &impl Abort,
    alloc: Global,
    text: &str,
    rows: &[(&str, Status, &str)],
) -> Result<(), Fail> {
    let image = compiled(alloc, text)?;
    for (input, status, expected) in rows {
        let (answered, printed) = run(alloc, text, input)?;
        assert_eq!(rt; answered, *status, "of {input}");
        assert_eq!(rt; printed.as_slice(), expected.as_bytes());
        let (answered, printed) = exec(alloc, &unfailing(&image, input.as_bytes()))?;
        assert_eq!(rt; answered, *status, "of {input}");
        assert_eq!(rt; printed.as_slice(), expected.as_bytes());
    }
    Ok(())
}

#[test]
fn tanks_are_run(rt: HostRuntime) -> Result<(), Fail> {
    each_runs(
        &rt,
        rt.alloc(),
        TANK,
        &[
            ("", Status::Done, "end 0\n"),
            (
                "i 1000 1000 500 502 0\nc 5\ns 10 10 551 553\n",
                Status::Done,
                "ok\nact chosen 5\nok\nend 1\n",
            ),
            (
                "# x\n\ni 1000 1000 500 502 0\nc 5\n# y\ns 10 10 551 553\nc 60",
                Status::Done,
                "ok\nact chosen 5\nok\nact fallback -3\nend 1\n",
            ),
            (
                "i 1000 1000 930 930 0\nc 6\n",
                Status::Done,
                "ok\nact chosen 6\nend 0\n",
            ),
            (
                "i 1000 1000 929 931 0\nc 6\n",
                Status::Done,
                "ok\nact fallback -3\nend 0\n",
            ),
            (
                "i 1000 1000 500 502 0\nc 5\ns 10 10 540 553\n",
                Status::Violation,
                "ok\nact chosen 5\nviolation plant 3 unknown\n",
            ),
            (
                "i 1000 1000 500 502 0\nc 5\ns 10 10 600 601\n",
                Status::Violation,
                "ok\nact chosen 5\nviolation plant 4 false\n",
            ),
            (
                "i 1000 1000 500 502 0\nc 5\ns 11 11 551 553\n",
                Status::Violation,
                "ok\nact chosen 5\nviolation plant 2 false\n",
            ),
            (
                "i 1000 1000 -inf 502 0\nc 5\ns 10 10 551 553\n",
                Status::Violation,
                "ok\nact chosen 5\nviolation plant 4 unknown\n",
            ),
            (
                "i 9223372036854775806 9223372036854775806 -9223372036854775806 0 0\n",
                Status::Done,
                "ok\nend 0\n",
            ),
            (
                "i 1000 1000 999 1001 0\n",
                Status::Violation,
                "violation init 1 unknown\n",
            ),
            ("i 1000 1000 502 500 0\n", Status::BadLine, "bad line 1\n"),
            ("i 1000 1000 inf inf 0\n", Status::BadLine, "bad line 1\n"),
            ("i 1000 1000 500 502 inf\n", Status::BadLine, "bad line 1\n"),
            ("c 5\n", Status::BadLine, "bad line 1\n"),
        ],
    )
}

#[test]
fn doubles_are_run(rt: HostRuntime) -> Result<(), Fail> {
    each_runs(
        &rt,
        rt.alloc(),
        DOUBLE,
        &[
            (
                "i 0 0 2 2 0\nc 4\ns 3 3 24 24 14 14\n",
                Status::Done,
                "ok\nact chosen 4\nok\nend 1\n",
            ),
            (
                "i 0 0 2 2 0\nc 4\ns 3 3 24 25 14 14\n",
                Status::Violation,
                "ok\nact chosen 4\nviolation plant 3 unknown\n",
            ),
        ],
    )
}

#[test]
fn brakes_are_run(rt: HostRuntime) -> Result<(), Fail> {
    each_runs(
        &rt,
        rt.alloc(),
        BRAKE,
        &[
            (
                "i 0 0 2 2 0\nc 5\n",
                Status::Done,
                "ok\nact fallback -2\nend 0\n",
            ),
            (
                "i 0 0 2 3 0\nc -2\n",
                Status::Violation,
                "ok\nviolation fallback\n",
            ),
        ],
    )
}

/// A place and a speed with so many copies of a comparison as its init.
fn with_init(alloc: Global, text: &str, part: &str, count: usize) -> Result<String, Fail> {
    let copies = repeated(alloc, part, " & ", count)?;
    edited(
        alloc,
        text,
        "init true",
        &format!(in alloc; "init {copies}")?,
    )
}

/// A place and a speed with 303 comparisons as its domain, and 495 in its controller.
fn with_many(alloc: Global) -> Result<String, Fail> {
    let domain = repeated(alloc, "x <= v", " & ", 303)?;
    let tested = repeated(alloc, "x <= v", " & ", 495)?;
    let wide = edited(
        alloc,
        DOUBLE,
        "domain true",
        &format!(in alloc; "domain {domain}")?,
    )?;
    edited(
        alloc,
        &wide,
        "{a := *;}",
        &format!(in alloc; "{{a := *;}} ++ {{?{tested}; a := *;}}")?,
    )
}

#[test]
fn sizes_are_refused(rt: HostRuntime) -> Result<(), Fail> {
    let alloc = rt.alloc();
    let many = with_many(alloc)?;
    for (text, part, count, expected) in [
        (many.as_str(), "x <= v", 303, ""),
        (many.as_str(), "x <= v", 304, "refused long 65596\n"),
        (DOUBLE, "x^12 <= 0", 318, ""),
        (DOUBLE, "x^12 <= 0", 319, "refused cells 8194\n"),
    ] {
        let text = with_init(alloc, text, part, count)?;
        let (answered, printed) = say(alloc, "compile", text.as_bytes())?;
        if expected.is_empty() {
            assert_eq!(&rt; answered, Status::Done);
            continue;
        }
        assert_eq!(&rt; answered, Status::Refused);
        assert_eq!(&rt; printed.as_slice(), expected.as_bytes());
        let (answered, printed) = run(alloc, &text, "i 0 0 0 0 0\n")?;
        assert_eq!(&rt; answered, Status::Refused);
        assert_eq!(&rt; printed.as_slice(), expected.as_bytes());
    }
    Ok(())
}

#[test]
fn the_demo_is_the_tank(rt: HostRuntime) -> Result<(), Fail> {
    let alloc = rt.alloc();
    let image = compiled(alloc, TANK)?;
    for _ in 0..2 {
        let (answered, printed) = answer_to(alloc, &["demo"], &package(b""))?;
        assert_eq!(&rt; answered, Status::Done);
        assert_eq!(&rt; printed.as_slice(), image.as_slice());
    }
    Ok(())
}

#[test]
fn a_failed_write_of_a_run_leaves_a_front(rt: HostRuntime) -> Result<(), Fail> {
    let alloc = rt.alloc();
    let second = [1];
    let mut failing = package_over(TANK.as_bytes(), START.as_bytes());
    failing.sink_fails = &second;
    let (answered, printed) = answer_to(alloc, &["run", "p"], &failing)?;
    assert_eq!(&rt; answered, Status::WriteFault);
    assert_eq!(&rt; printed.as_slice(), b"ok\n".as_slice());
    Ok(())
}

#[test]
fn a_failed_read_of_a_run_leaves_two_lines(rt: HostRuntime) -> Result<(), Fail> {
    let alloc = rt.alloc();
    let ones = [1; 40];
    let late = [26];
    let mut failing = package_over(TANK.as_bytes(), START.as_bytes());
    failing.cuts = &ones;
    failing.source_fails = &late;
    let (answered, printed) = answer_to(alloc, &["run", "p"], &failing)?;
    assert_eq!(&rt; answered, Status::ReadFault);
    assert_eq!(&rt; printed.as_slice(), b"ok\nact chosen 5\n".as_slice());
    Ok(())
}
