ghost use Rattle.std.specs.Prelude.{◌≤◌};
ghost use Rattle.vp_words.specs.Record.{ActFits};

use vp_stream::{
    Ending, LineErr, Verdict, content, is_skipped, read_record, write_bad_line, write_end_line,
    write_reply,
};
use vp_words::{Counts, Kind, Record, Reply, Why, Word};

// An init record has 6 words, a choice 2, a sensing 4.
const COUNTS: Counts = Counts {
    params: 1,
    states: 1,
    controls: 2,
};

const INF: i64 = i64::MAX;

const FIN: i64 = 9_223_372_036_854_775_806;

fn word(value: i64) -> Word {
    Word::of(value).unwrap_or(Word::ZERO)
}

// What stands in `out` before a line is read.
fn stale() -> Record {
    Record {
        kind: Kind::Init,
        words: [Word::ONE; 64],
        len: 64,
    }
}

// The words of these values, with zeros behind them.
fn words(values: &[i64]) -> [Word; 64] {
    let mut words = [Word::ZERO; 64];
    for (place, value) in words.iter_mut().zip(values) {
        *place = word(*value);
    }
    words
}

#[test]
fn records_are_read(rt: HostRuntime) {
    for (due, line, values) in [
        (
            Kind::Init,
            "i 1000 1000 500 502 0 7",
            [1000, 1000, 500, 502, 0, 7].as_slice(),
        ),
        (
            Kind::Init,
            "i -inf inf -inf 5 -0 -007",
            [-INF, INF, -INF, 5, 0, -7].as_slice(),
        ),
        (
            Kind::Init,
            " \t i\t1  1\t \t2 2 3 4\t ",
            [1, 1, 2, 2, 3, 4].as_slice(),
        ),
        (
            Kind::Init,
            "i 1 1 2 2 9223372036854775806 -9223372036854775806",
            [1, 1, 2, 2, FIN, -FIN].as_slice(),
        ),
        (
            Kind::Choice,
            "c 1000000000000000000 -00000000000000000012",
            [1_000_000_000_000_000_000, -12].as_slice(),
        ),
        (
            Kind::Choice,
            "\tc 09223372036854775806 00000000000000000000",
            [FIN, 0].as_slice(),
        ),
        (Kind::Sense, "s 0 1 2 inf", [0, 1, 2, INF].as_slice()),
        (
            Kind::Sense,
            "s -inf -5 -3 -3",
            [-INF, -5, -3, -3].as_slice(),
        ),
    ] {
        let mut out = stale();
        assert_eq!(rt;
            read_record(line.as_bytes(), due, COUNTS, &mut out),
            Ok(()),
            "{line}"
        );
        assert_eq!(rt; out.kind, due, "{line}");
        assert_eq!(rt; usize::from(out.len), values.len(), "{line}");
        assert_eq!(rt; out.words, words(values), "{line}");
    }
}

#[test]
fn lines_are_refused(rt: HostRuntime) {
    for (due, line, error) in [
        (Kind::Init, "", LineErr::Tag),
        (Kind::Init, " \t ", LineErr::Tag),
        (Kind::Init, "c", LineErr::Tag),
        (Kind::Init, "c 1 1 2 2 3 4", LineErr::Tag),
        (Kind::Init, "I 1 1 2 2 3 4", LineErr::Tag),
        (Kind::Init, "i1 1 2 2 3 4", LineErr::Tag),
        (Kind::Init, "# i 1 1 2 2 3 4", LineErr::Tag),
        (Kind::Choice, "s 3 4", LineErr::Tag),
        (Kind::Sense, "c x", LineErr::Tag),
        (Kind::Init, "i", LineErr::Count),
        (Kind::Init, "i 1 1 2 2 3", LineErr::Count),
        (Kind::Init, "i 1 1 2 2 3 4 5", LineErr::Count),
        (Kind::Init, "i x", LineErr::Count),
        (Kind::Init, "i 2 1 2 2 inf", LineErr::Count),
        (Kind::Choice, "c", LineErr::Count),
        (Kind::Choice, "c 3", LineErr::Count),
        (Kind::Choice, "c 3 4 5", LineErr::Count),
        (Kind::Sense, "s 0 1 2", LineErr::Count),
        (Kind::Sense, "s 0 1 2 3 4", LineErr::Count),
        (Kind::Init, "i x 1 2 2 3 4", LineErr::Word { field: 1 }),
        (Kind::Init, "i 1 - 2 2 3 4", LineErr::Word { field: 2 }),
        (Kind::Init, "i 1 1 +2 2 3 4", LineErr::Word { field: 3 }),
        (Kind::Init, "i 1 1 2 2.0 3 4", LineErr::Word { field: 4 }),
        (
            Kind::Init,
            "i 1 1 2 2 9223372036854775807 4",
            LineErr::Word { field: 5 },
        ),
        (
            Kind::Init,
            "i 1 1 2 2 3 -9223372036854775807",
            LineErr::Word { field: 6 },
        ),
        (
            Kind::Init,
            "i 1 1 2 2 3 10000000000000000000",
            LineErr::Word { field: 6 },
        ),
        (Kind::Init, "i 1 1 x 2 y 4", LineErr::Word { field: 3 }),
        (Kind::Init, "i 2 1 2 2 inf x", LineErr::Word { field: 6 }),
        (Kind::Init, "i 1 1 2 2 3 4\r", LineErr::Word { field: 6 }),
        (Kind::Choice, "c Inf 4", LineErr::Word { field: 1 }),
        (Kind::Choice, "c 3 0x4", LineErr::Word { field: 2 }),
        (Kind::Sense, "s 0 1 2 --3", LineErr::Word { field: 4 }),
        (Kind::Init, "i 2 1 2 2 3 4", LineErr::Empty { field: 1 }),
        (Kind::Init, "i 1 1 3 2 3 4", LineErr::Empty { field: 3 }),
        (Kind::Init, "i inf inf 2 2 3 4", LineErr::Empty { field: 1 }),
        (
            Kind::Init,
            "i -inf -inf 2 2 3 4",
            LineErr::Empty { field: 1 },
        ),
        (Kind::Init, "i 1 1 inf inf 3 4", LineErr::Empty { field: 3 }),
        (
            Kind::Init,
            "i 1 1 -inf -inf 3 4",
            LineErr::Empty { field: 3 },
        ),
        (
            Kind::Init,
            "i inf -inf 2 2 3 4",
            LineErr::Empty { field: 1 },
        ),
        (Kind::Init, "i 1 1 2 2 inf 4", LineErr::Empty { field: 5 }),
        (Kind::Init, "i 1 1 2 2 3 -inf", LineErr::Empty { field: 6 }),
        (Kind::Init, "i 2 1 3 2 inf inf", LineErr::Empty { field: 1 }),
        (Kind::Init, "i 1 1 3 2 inf 4", LineErr::Empty { field: 3 }),
        (Kind::Choice, "c inf 4", LineErr::Empty { field: 1 }),
        (Kind::Choice, "c 3 -inf", LineErr::Empty { field: 2 }),
        (Kind::Sense, "s 1 0 2 3", LineErr::Empty { field: 1 }),
        (Kind::Sense, "s 0 1 3 2", LineErr::Empty { field: 3 }),
        (Kind::Sense, "s inf inf 2 3", LineErr::Empty { field: 1 }),
        (Kind::Sense, "s 0 1 -inf -inf", LineErr::Empty { field: 3 }),
    ] {
        let mut out = stale();
        assert_eq!(rt;
            read_record(line.as_bytes(), due, COUNTS, &mut out),
            Err(error),
            "{line}"
        );
        assert_eq!(rt; out, stale(), "{line}");
    }
}

#[test]
fn returns_and_comments(rt: HostRuntime) {
    for (line, read) in [
        ("c 5", "c 5"),
        ("c 5\r", "c 5"),
        ("c 5\r\r", "c 5\r"),
        ("c\r5", "c\r5"),
        ("c 5\r ", "c 5\r "),
        ("\r", ""),
        ("", ""),
    ] {
        assert_eq!(rt; content(line.as_bytes()), read.as_bytes(), "{line}");
    }
    for line in ["", " ", "\t", " \t ", "#", "# x", " \t# c 5", "##"] {
        assert!(rt; is_skipped(line.as_bytes()), "{line}");
    }
    for line in ["i", " c 5", "c # 5", "\t x#", "\r", "\x0b", "\0"] {
        assert!(rt; !is_skipped(line.as_bytes()), "{line}");
    }
}

fn act(values: &[i64], len: u8, fallback: bool) -> Reply
    requires { len ≤ 16 }
    ensures { ActFits result }
{
    let mut words = [Word::ZERO; 16];
    for (place, value) in words.iter_mut().zip(values) {
        *place = word(*value);
    }
    Reply::Act {
        words,
        len,
        fallback,
    }
}

fn prints(reply: Reply, line: &str) -> bool
    requires { ActFits reply }
{
    let mut out = [0; 1024];
    let len = write_reply(&reply, &mut out);
    &out[..len] == line.as_bytes()
}

#[test]
fn replies_are_written(rt: HostRuntime) {
    assert!(rt; prints(Reply::Ok, "ok\n"));
    assert!(rt; prints(act(&[5], 1, false), "act chosen 5\n"));
    assert!(rt;
        prints(
            act(&[-1, 0, FIN], 3, true),
            "act fallback -1 0 9223372036854775806\n"
        )
    );
    for (why, line) in [
        (
            Why::Init {
                k: 1,
                unknown: true,
            },
            "violation init 1 unknown\n",
        ),
        (
            Why::Init {
                k: 20,
                unknown: false,
            },
            "violation init 20 false\n",
        ),
        (
            Why::Plant {
                k: 3,
                unknown: true,
            },
            "violation plant 3 unknown\n",
        ),
        (
            Why::Plant {
                k: 4_294_967_295,
                unknown: false,
            },
            "violation plant 4294967295 false\n",
        ),
        (Why::Fallback, "violation fallback\n"),
    ] {
        assert!(rt; prints(Reply::Violation(why), line), "{line}");
    }
}

#[test]
fn longest_reply(rt: HostRuntime) {
    let mut out = [0; 1024];
    let len = write_reply(&act(&[-FIN; 16], 16, true), &mut out);
    assert_eq!(rt; len, 349);
    assert_eq!(rt; &out[..12], b"act fallback".as_slice());
    for piece in out[12..348].chunks(21) {
        assert_eq!(rt; piece, b" -9223372036854775806".as_slice());
    }
    assert_eq!(rt; out[348], b'\n');
}

#[test]
fn ends_are_written(rt: HostRuntime) {
    let mut out = [0; 1024];
    let rows: [(u64, &str, &str); 3] = [
        (0, "bad line 0\n", "end 0\n"),
        (4097, "bad line 4097\n", "end 4097\n"),
        (
            u64::MAX,
            "bad line 18446744073709551615\n",
            "end 18446744073709551615\n",
        ),
    ];
    for (number, bad, end) in rows {
        let len = write_bad_line(number, &mut out);
        assert_eq!(rt; &out[..len], bad.as_bytes());
        let len = write_end_line(number, &mut out);
        assert_eq!(rt; &out[..len], end.as_bytes());
    }
}

#[test]
fn lines_end_a_run(rt: HostRuntime) {
    assert_eq!(rt; Verdict::from(Ending::Violated), Verdict::Violated);
    assert_eq!(rt;
        Verdict::from(Ending::BadLine { line: 3 }),
        Verdict::BadLine
    );
}
