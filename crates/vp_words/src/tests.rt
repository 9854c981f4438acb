use crate::edges::{ADD_DOWN, ADD_UP, MUL_DOWN, MUL_UP, WORDS};
use crate::{
    Counts, Kind, Record, Word, WordErr, add_down, add_up, fields, ge, gt, max, min, mul_down,
    mul_up, neg, read_word, same, write_word,
};
use std::str::SplitWhitespace;
use std::test::Fail;

fn word(value: i64) -> Result<Word, Fail> {
    Ok(Word::of(value).ok_or("no word")?)
}

// The next word of a table.
fn next_word(table: &mut SplitWhitespace<'_>) -> Result<Word, Fail> {
    match table.next().ok_or("short")? {
        "inf" => Ok(Word::INF),
        "-inf" => Ok(Word::MINUS_INF),
        "fin" => Ok(Word::GREATEST),
        "-fin" => Ok(Word::LEAST),
        number => word(number.parse()?),
    }
}

#[test]
fn directed_calls_on_edge_words(rt: HostRuntime) -> Result<(), Fail> {
    let mut sums_down = ADD_DOWN.split_whitespace();
    let mut sums_up = ADD_UP.split_whitespace();
    let mut products_down = MUL_DOWN.split_whitespace();
    let mut products_up = MUL_UP.split_whitespace();
    let mut lefts = WORDS.split_whitespace();
    for row in 0..30 {
        let a = next_word(&mut lefts)?;
        let mut rights = WORDS.split_whitespace();
        for _ in 0..row + 1 {
            let b = next_word(&mut rights)?;
            let sum_down = next_word(&mut sums_down)?;
            let sum_up = next_word(&mut sums_up)?;
            let product_down = next_word(&mut products_down)?;
            let product_up = next_word(&mut products_up)?;
            assert_eq!(rt;
                (add_down(a, b), add_down(b, a)),
                (sum_down, sum_down),
                "{a:?} {b:?}"
            );
            assert_eq!(rt;
                (add_up(a, b), add_up(b, a)),
                (sum_up, sum_up),
                "{a:?} {b:?}"
            );
            assert_eq!(rt;
                (mul_down(a, b), mul_down(b, a)),
                (product_down, product_down),
                "{a:?} {b:?}"
            );
            assert_eq!(rt;
                (mul_up(a, b), mul_up(b, a)),
                (product_up, product_up),
                "{a:?} {b:?}"
            );
        }
    }
    assert_eq!(rt; products_up.next(), None);
    Ok(())
}

// The ends of the product of two intervals.
fn product(left: (Word, Word), right: (Word, Word)) -> (Word, Word) {
    let ((a, b), (c, d)) = (left, right);
    (
        min(
            min(mul_down(a, c), mul_down(a, d)),
            min(mul_down(b, c), mul_down(b, d)),
        ),
        max(
            max(mul_up(a, c), mul_up(a, d)),
            max(mul_up(b, c), mul_up(b, d)),
        ),
    )
}

#[test]
fn products_of_intervals(rt: HostRuntime) -> Result<(), Fail> {
    let (greatest, least) = (Word::GREATEST, Word::LEAST);
    let (inf, minus_inf) = (Word::INF, Word::MINUS_INF);
    let (zero, one, minus_one, two) = (Word::ZERO, Word::ONE, word(-1)?, word(2)?);
    for (left, right, want) in [
        ((greatest, greatest), (two, two), (greatest, inf)),
        ((least, least), (two, two), (minus_inf, least)),
        ((one, inf), (minus_inf, minus_one), (minus_inf, minus_one)),
        ((zero, zero), (minus_inf, inf), (zero, zero)),
    ] {
        assert_eq!(rt; product(left, right), want);
    }
    assert_eq!(rt; add_down(inf, minus_inf), minus_inf);
    assert_eq!(rt; add_up(inf, minus_inf), inf);
    assert_eq!(rt; neg(inf), minus_inf);
    assert!(rt; ge(inf, inf) && gt(inf, greatest) && same(neg(least), greatest));
    assert_eq!(rt; Word::of(i64::MIN), None);
    assert_eq!(rt; Word::of(9_223_372_036_854_775_807), Some(inf));
    assert_eq!(rt; Word::of(-9_223_372_036_854_775_806), Some(least));
    Ok(())
}

#[test]
fn words_are_read(rt: HostRuntime) -> Result<(), Fail> {
    for (text, value) in [
        ("0", 0),
        ("-0", 0),
        ("0000000000000000000000000000012", 12),
        ("-0012", -12),
        ("1000000000000000000", 1_000_000_000_000_000_000),
        ("9223372036854775806", 9_223_372_036_854_775_806),
        ("-9223372036854775806", -9_223_372_036_854_775_806),
        ("inf", i64::MAX),
        ("-inf", -i64::MAX),
    ] {
        assert_eq!(rt; read_word(text.as_bytes()), Ok(word(value)?), "{text}");
    }
    for text in [
        "9223372036854775807",
        "-9223372036854775807",
        "10000000000000000000",
    ] {
        assert_eq!(rt; read_word(text.as_bytes()), Err(WordErr::Range), "{text}");
    }
    for text in [
        "",
        "-",
        "+1",
        "--1",
        "1 ",
        "Inf",
        "+inf",
        "99999999999999999999x",
    ] {
        assert_eq!(rt;
            read_word(text.as_bytes()),
            Err(WordErr::Spelling),
            "{text}"
        );
    }
    Ok(())
}

#[test]
fn words_are_written(rt: HostRuntime) -> Result<(), Fail> {
    for (word, want) in [
        (Word::ZERO, b"0".as_slice()),
        (word(-120)?, b"-120".as_slice()),
        (Word::GREATEST, b"9223372036854775806".as_slice()),
        (Word::LEAST, b"-9223372036854775806".as_slice()),
        (Word::INF, b"inf".as_slice()),
        (Word::MINUS_INF, b"-inf".as_slice()),
    ] {
        let mut out = [0; 20];
        let len = write_word(word, &mut out);
        assert_eq!(rt; &out[..len], want);
    }
    Ok(())
}

#[test]
fn records(rt: HostRuntime) -> Result<(), Fail> {
    let counts = Counts {
        params: 1,
        states: 2,
        controls: 3,
    };
    assert_eq!(rt; fields(Kind::Init, counts), 9);
    assert_eq!(rt; fields(Kind::Choice, counts), 3);
    assert_eq!(rt; fields(Kind::Sense, counts), 6);
    let mut record = Record {
        kind: Kind::Sense,
        words: [Word::ZERO; 64],
        len: 6,
    };
    assert!(rt; record.is_valid(counts));
    record.words[1] = Word::INF;
    assert!(rt; record.is_valid(counts));
    record.words[2] = Word::INF;
    assert!(rt; !record.is_valid(counts));
    record.words[2] = Word::ZERO;
    record.words[3] = word(-1)?;
    assert!(rt; !record.is_valid(counts));
    record.words[3] = Word::ONE;
    record.words[6] = Word::ONE;
    assert!(rt; !record.is_valid(counts));
    record.kind = Kind::Choice;
    assert!(rt; !record.is_valid(counts));
    Ok(())
}
