//! Sessions over pieces, and runs over objects in memory.
use std::alloc::{AllocError, Global};
use std::test::Fail;
use vp_image::ImageErr;
use vp_outside::{Listed, MemSink, MemSource};
use vp_runner::{Cause, End, Fed, RunEnd, Session, run_stream};

/// The image of a code that acts as it is told.
const ECHO: &str =
    "565048590001000101000400000001000000050e00000000000000000000000e01000000000000000000000f00000000000000000000000e02000000000000000000000a000000000000000000000100000000000000000000000000000000000000000000000000000000000000007ea534a156737053a7dda0fc7c4a2ceb6ae78cb665ea102867da5b0d8a89cc6f";

/// The image of a code that asks for a first state of at least 0.
const GUARD: &str =
    "565048590001000101000700000004000000080e00000000000000000000000100000300000000000000000b00000000030000000000041000000100000000000000010e01000200000000000000000f00000200000000000000000e02000300000000000000000a00000000000000000000040000000000000000000000000000000000000000000000000000000000000000b623ded66075cb2ee3b5aab0cac2bc0d299fe3c3eb7ec8086e0fb727c507ac3b";

const EXAMPLE: &[u8] = b"i 0 0 0\nc 7\ns 1 1 0 0\n";

const PRINTED: &[u8] = b"ok\nact chosen 7\nok\nend 1\n";

const VIOLATION: &[u8] = b"violation init 1 unknown\n";

fn bytes_of(alloc: Global, digits: &str) -> Result<Vec<u8>, Fail> {
    Ok(hex::decode(alloc, digits.as_bytes()).map_err(|_| "no hexadecimal digits")?)
}

/// A sink with room for 1,000 bytes, which takes each piece whole.
fn sink_of(alloc: Global, fails: &[u64]) -> Result<MemSink, AllocError> {
    MemSink::of(alloc, 1000, 1000, fails.to_vec(alloc)?)
}

/// A source that gives one byte at a time.
fn source_of(alloc: Global, bytes: &[u8], fails: &[u64]) -> Result<MemSource, AllocError> {
    Ok(MemSource {
        bytes: Listed::of(bytes.to_vec(alloc)?),
        at: 0,
        cuts: Listed::of([1; 40].to_vec(alloc)?),
        fails: Listed::of(fails.to_vec(alloc)?),
        calls: 0,
        faults: 0,
    })
}

/// What `feed` answers, where that many bytes may be fed.
fn feed(session: &mut Session, piece: &[u8], sink: &mut MemSink) -> Option<Fed> {
    if session.fed() < 1 << 20 && piece.len() < 1 << 20 {
        Some(session.feed(piece, sink))
    } else {
        None
    }
}

/// What `finish` answers, where so few bytes were fed.
fn finish(session: &mut Session, sink: &mut MemSink) -> Option<End> {
    if session.fed() < 1 << 20 {
        Some(session.finish(sink))
    } else {
        None
    }
}

/// How the run of a new session ends.
fn run(
    alloc: Global,
    image: &[u8],
    source: &mut MemSource,
    sink: &mut MemSink,
) -> Result<RunEnd, ImageErr> {
    let mut session = Session::start(alloc, image)?;
    Ok(run_stream(&mut session, source, sink))
}

/// What a new session prints for pieces and their end, and what `finish` answers.
fn answer_to(
    alloc: Global,
    image: &[u8],
    pieces: &[&[u8]],
) -> Result<(Option<End>, Vec<u8>), ImageErr> {
    let mut session = Session::start(alloc, image)?;
    let mut sink = sink_of(alloc, &[])?;
    for piece in pieces {
        feed(&mut session, piece, &mut sink);
    }
    let end = finish(&mut session, &mut sink);
    Ok((end, sink.bytes.get().to_vec(alloc)?))
}

#[test]
fn each_line_is_answered_at_its_lf(rt: HostRuntime) -> Result<(), Fail> {
    let alloc = rt.alloc();
    let echo = bytes_of(alloc, ECHO)?;
    let mut session = Session::start(alloc, &echo)?;
    let mut sink = sink_of(alloc, &[])?;
    for (i, byte) in EXAMPLE.iter().enumerate() {
        let due: &[u8] = match i {
            0..7 => b"",
            7..11 => b"ok\n",
            11..21 => b"ok\nact chosen 7\n",
            _ => b"ok\nact chosen 7\nok\n",
        };
        assert_eq!(rt; feed(&mut session, &[*byte], &mut sink), Some(Fed::Going));
        assert_eq!(rt; session.fed(), i as u64 + 1);
        assert_eq!(rt; sink.bytes.get(), due, "at {i}");
    }
    assert_eq!(rt;
        finish(&mut session, &mut sink),
        Some(End::Done { rounds: 1 })
    );
    assert_eq!(rt; sink.bytes.get(), PRINTED);
    Ok(())
}

#[test]
fn a_line_is_bad_at_its_byte_4097(rt: HostRuntime) -> Result<(), Fail> {
    let alloc = rt.alloc();
    let echo = bytes_of(alloc, ECHO)?;
    let mut comment = [b'x'; 4096];
    comment[0] = b'#';
    let rows: [(&[u8], Fed, &[u8]); 2] = [
        (b"\n", Fed::Going, b"end 0\n"),
        (b"x", Fed::BadLine { line: 1 }, b"bad line 1\n"),
    ];
    for (last, answer, text) in rows {
        let mut session = Session::start(alloc, &echo)?;
        let mut sink = sink_of(alloc, &[])?;
        assert_eq!(rt; feed(&mut session, &comment, &mut sink), Some(Fed::Going));
        assert_eq!(rt; sink.calls, 0);
        assert_eq!(rt; feed(&mut session, last, &mut sink), Some(answer));
        finish(&mut session, &mut sink);
        assert_eq!(rt; sink.bytes.get(), text);
    }
    Ok(())
}

/// How a session ends, and that each later call answers that end and writes nothing.
#[test]
fn an_ended_session_writes_nothing(rt: HostRuntime) -> Result<(), Fail> {
    let alloc = rt.alloc();
    let echo = bytes_of(alloc, ECHO)?;
    let guard = bytes_of(alloc, GUARD)?;
    let bad = Fed::BadLine { line: 2 };
    let rows: [(&[u8], &[u8], &[u64], Fed, Cause, &[u8]); 4] = [
        (
            &guard,
            b"i -1 5 0\nc 3\n",
            &[],
            Fed::Violated,
            Cause::Violated,
            VIOLATION,
        ),
        (
            &echo,
            b"\ns 1 1 0 0\ni 0 0 0\n",
            &[],
            bad,
            Cause::BadLine { line: 2 },
            b"bad line 2\n",
        ),
        (
            &echo,
            b"i 0 0 0\nc 7\ns 1 1 0 0\n",
            &[1],
            Fed::Failed,
            Cause::Failed,
            b"ok\n",
        ),
        (&echo, EXAMPLE, &[], Fed::Going, Cause::Finished, PRINTED),
    ];
    for (image, input, fails, answer, cause, text) in rows {
        let mut session = Session::start(alloc, image)?;
        let mut sink = sink_of(alloc, fails)?;
        assert_eq!(rt; feed(&mut session, input, &mut sink), Some(answer));
        if answer == Fed::Going {
            assert_eq!(rt;
                finish(&mut session, &mut sink),
                Some(End::Done { rounds: 1 })
            );
        }
        let calls = sink.calls;
        for more in [EXAMPLE, b"", b"not a record\n"] {
            assert_eq!(rt;
                feed(&mut session, more, &mut sink),
                Some(Fed::Ended(cause))
            );
        }
        assert_eq!(rt; finish(&mut session, &mut sink), Some(End::Ended(cause)));
        assert_eq!(rt; sink.calls, calls, "no write");
        assert_eq!(rt; sink.bytes.get(), text);
    }
    Ok(())
}

/// A line of `len` bytes and its LF: `front`, and then one byte as often as needed.
fn padded_line(alloc: Global, front: &[u8], byte: u8, len: usize) -> Result<Vec<u8>, AllocError> {
    let mut line = front.to_vec(alloc)?;
    for _ in front.len()..len {
        line.push(byte)?;
    }
    line.push(b'\n')?;
    Ok(line)
}

/// Each stream in one piece, in two at every place, and byte by byte. A long line is the same byte all
/// through its middle, and is cut near its two borders.
#[test]
fn cuts_change_nothing(rt: HostRuntime) -> Result<(), Fail> {
    let alloc = rt.alloc();
    let echo = bytes_of(alloc, ECHO)?;
    let guard = bytes_of(alloc, GUARD)?;
    let longest_record = padded_line(alloc, b"i 0 0 0", b' ', 4096)?;
    let long_record = padded_line(alloc, b"i 0 0 0", b' ', 4097)?;
    let longest_comment = padded_line(alloc, b"# ", b'x', 4096)?;
    let long_comment = padded_line(alloc, b"# ", b'x', 4097)?;
    let long_blank = padded_line(alloc, b"", b' ', 4097)?;
    let bad_first = End::Ended(Cause::BadLine { line: 1 });
    let bad_third = End::Ended(Cause::BadLine { line: 3 });
    let rows: [(&[u8], &[u8], End, &[u8]); 27] = [
        (&echo, EXAMPLE, End::Done { rounds: 1 }, PRINTED),
        (
            &echo,
            b"i 0 0 0\r\n\n#\n\tc 7\n s 1 1 0 0",
            End::Done { rounds: 1 },
            PRINTED,
        ),
        (
            &echo,
            b"i 0 0 0\nc 7\nc 8\ns 1 1 0 0\n",
            bad_third,
            b"ok\nact chosen 7\nbad line 3\n",
        ),
        (
            &guard,
            b"i 0 5 0\nc 3\n#\nx",
            End::BadLine { line: 4 },
            b"ok\nact chosen 3\nbad line 4\n",
        ),
        (
            &guard,
            b"# x\ni -1 5 0\nc 3\n",
            End::Ended(Cause::Violated),
            VIOLATION,
        ),
        (&guard, b"i -1 5 0", End::Violated, VIOLATION),
        (
            &guard,
            b"i 0 5 0\nc 3\ns 1 1 0 0\n",
            End::Done { rounds: 1 },
            b"ok\nact chosen 3\nok\nend 1\n",
        ),
        (
            &guard,
            b"i -1 5 0\nnot a record",
            End::Ended(Cause::Violated),
            VIOLATION,
        ),
        (&echo, b"", End::Done { rounds: 0 }, b"end 0\n"),
        (&echo, b"i 1 0 0\n", bad_first, b"bad line 1\n"),
        (&echo, b"i 0 0 0", End::Done { rounds: 0 }, b"ok\nend 0\n"),
        (
            &echo,
            b"i\t0  0 \t0\r\n\n# x\r\n \t\r\n\t c\t7 \n#\n   # c 8\ns 1\t1 0 0\r",
            End::Done { rounds: 1 },
            PRINTED,
        ),
        (&echo, b"# x\n\nc 5\n", bad_third, b"bad line 3\n"),
        (
            &echo,
            b"i 0 0 0\n\r\n \nc 7\n# c\nc 8\n",
            End::Ended(Cause::BadLine { line: 6 }),
            b"ok\nact chosen 7\nbad line 6\n",
        ),
        (&echo, b"i 0 0 0\r\r\n", bad_first, b"bad line 1\n"),
        (&echo, b"i 0 0 0 0\n", bad_first, b"bad line 1\n"),
        (&echo, b"i inf inf 0\n", bad_first, b"bad line 1\n"),
        (
            &echo,
            b"i -inf inf 0\nc -9223372036854775806\n",
            End::Done { rounds: 0 },
            b"ok\nact chosen -9223372036854775806\nend 0\n",
        ),
        (&echo, b"i 0 0 inf\n", bad_first, b"bad line 1\n"),
        (
            &echo,
            b"i 0 0 9223372036854775807\n",
            bad_first,
            b"bad line 1\n",
        ),
        (&echo, b"i 00 -0 +0\n", bad_first, b"bad line 1\n"),
        (
            &echo,
            &longest_record,
            End::Done { rounds: 0 },
            b"ok\nend 0\n",
        ),
        (&echo, &long_record, bad_first, b"bad line 1\n"),
        (&echo, &longest_comment, End::Done { rounds: 0 }, b"end 0\n"),
        (&echo, &long_comment, bad_first, b"bad line 1\n"),
        (&echo, &long_blank, bad_first, b"bad line 1\n"),
        (
            &echo,
            b"i 0 0 0\nc 7\nc 8\n",
            bad_third,
            b"ok\nact chosen 7\nbad line 3\n",
        ),
    ];
    for (image, input, end, text) in rows {
        for place in 0..input.len() {
            if place > 70 && place.saturating_add(8) < input.len() {
                continue;
            }
            let (front, back) = input.split_at(place);
            let (answered, printed) = answer_to(alloc, image, &[front, back])?;
            assert_eq!(rt; answered, Some(end), "cut at {place}");
            assert_eq!(rt; printed.as_slice(), text, "cut at {place}");
        }
        let mut bytes = Vec::new(alloc);
        for byte in input.chunks(1) {
            bytes.push(byte)?;
        }
        let (answered, printed) = answer_to(alloc, image, &bytes)?;
        assert_eq!(rt; answered, Some(end));
        assert_eq!(rt; printed.as_slice(), text);
    }
    Ok(())
}

/// Runs over a source that gives one byte a call: how they end, and what was printed.
#[test]
fn runs_end(rt: HostRuntime) -> Result<(), Fail> {
    let alloc = rt.alloc();
    let echo = bytes_of(alloc, ECHO)?;
    let guard = bytes_of(alloc, GUARD)?;
    let rows: [(&[u8], &[u8], RunEnd, usize, &[u8]); 5] = [
        (&echo, EXAMPLE, RunEnd::Done, 22, PRINTED),
        (&echo, b"", RunEnd::Done, 0, b"end 0\n"),
        (
            &echo,
            b"i 0 0 0\nx\nc 7\n",
            RunEnd::BadLine,
            10,
            b"ok\nbad line 2\n",
        ),
        (&guard, b"i -1 5 0\nc 3\n", RunEnd::Violated, 9, VIOLATION),
        (&guard, b"i -1 5 0", RunEnd::Violated, 8, VIOLATION),
    ];
    for (image, input, end, taken, text) in rows {
        let mut source = source_of(alloc, input, &[])?;
        let mut sink = sink_of(alloc, &[])?;
        assert_eq!(rt; run(alloc, image, &mut source, &mut sink)?, end);
        assert_eq!(rt; source.at, taken);
        assert_eq!(rt; sink.bytes.get(), text);
    }
    Ok(())
}

/// A source that fails at each call, and a sink at each of its calls.
#[test]
fn failing_objects_end_a_run(rt: HostRuntime) -> Result<(), Fail> {
    let alloc = rt.alloc();
    let echo = bytes_of(alloc, ECHO)?;
    let lines: [(u64, u64, &[u8]); 4] = [
        (0, 8, b""),
        (8, 12, b"ok\n"),
        (12, 22, b"ok\nact chosen 7\n"),
        (22, 23, b"ok\nact chosen 7\nok\n"),
    ];
    for (first, end, text) in lines {
        for call in first..end {
            let mut source = source_of(alloc, EXAMPLE, &[call])?;
            let mut sink = sink_of(alloc, &[])?;
            let ended = run(alloc, &echo, &mut source, &mut sink)?;
            assert_eq!(rt; ended, RunEnd::ReadFault, "call {call}");
            assert_eq!(rt; sink.bytes.get(), text, "call {call}");
        }
    }
    let writes: [(u64, usize, &[u8]); 4] = [
        (0, 8, b""),
        (1, 12, b"ok\n"),
        (2, 22, b"ok\nact chosen 7\n"),
        (3, 22, b"ok\nact chosen 7\nok\n"),
    ];
    for (call, taken, text) in writes {
        let mut source = source_of(alloc, EXAMPLE, &[])?;
        let mut sink = sink_of(alloc, &[call])?;
        let ended = run(alloc, &echo, &mut source, &mut sink)?;
        assert_eq!(rt; ended, RunEnd::WriteFault, "call {call}");
        assert_eq!(rt; source.at, taken, "call {call}");
        assert_eq!(rt; sink.bytes.get(), text, "call {call}");
    }
    Ok(())
}
