//! Commands over objects in memory.
use std::alloc::{AllocError, Global};
use std::test::Fail;
use vp_cmd::{Status, vphy};
use vp_outside::{Files, Listed, MemSink, MemSource, MemStore, Text};

/// The image of a code that acts as it is told.
const ECHO: &str =
    "565048590001000101000400000001000000050e00000000000000000000000e01000000000000000000000f00000000000000000000000e02000000000000000000000a000000000000000000000100000000000000000000000000000000000000000000000000000000000000007ea534a156737053a7dda0fc7c4a2ceb6ae78cb665ea102867da5b0d8a89cc6f";

/// The image of a code that asks for a first state of at least 0.
const GUARD: &str =
    "565048590001000101000700000004000000080e00000000000000000000000100000300000000000000000b00000000030000000000041000000100000000000000010e01000200000000000000000f00000200000000000000000e02000300000000000000000a00000000000000000000040000000000000000000000000000000000000000000000000000000000000000b623ded66075cb2ee3b5aab0cac2bc0d299fe3c3eb7ec8086e0fb727c507ac3b";

/// Echo whose last instruction goes to 5, where there is none, with a digest that fits.
const TARGET: &str =
    "565048590001000101000400000001000000050e00000000000000000000000e01000000000000000000000f00000000000000000000000e02000000000000000000000a00000000000000000000050000000000000000000000000000000000000000000000000000000000000000494d07459967d73d35cd8e49b73373ee1578542d31b8798601077cc0c95fdb32";

/// Echo whose instruction 2 has the op 0, with a digest that fits.
const INSTR: &str =
    "565048590001000101000400000001000000050e00000000000000000000000e01000000000000000000000000000000000000000000000e02000000000000000000000a000000000000000000000100000000000000000000000000000000000000000000000000000000000000001d011c8e1a4dfee07bd8f0826446d8b673e66662822085433c3e5e0e037d2977";

const EXAMPLE: &[u8] = b"i 0 0 0\nc 7\ns 1 1 0 0\n";

const PRINTED: &[u8] = b"ok\nact chosen 7\nok\nend 1\n";

/// What a command prints, and its status.
pub(crate) type Answer = (Status, Vec<u8>);

/// What is given to a command: the one file, the input, and by what plan the objects give and take.
/// The sink has room for 1,000,000 bytes.
#[derive(Clone, Copy)]
pub(crate) struct Setting<'a> {
    pub(crate) name: &'a str,
    file: &'a [u8],
    pub(crate) input: &'a [u8],
    pub(crate) cuts: &'a [u32],
    pub(crate) source_fails: &'a [u64],
    pub(crate) takes: u32,
    pub(crate) sink_fails: &'a [u64],
    pub(crate) store_fails: &'a [u64],
}

/// No object fails, and each gives and takes what it can.
pub(crate) fn unfailing<'a>(image: &'a [u8], input: &'a [u8]) -> Setting<'a> {
    Setting {
        name: "image",
        file: image,
        input,
        cuts: &[],
        source_fails: &[],
        takes: 1_000_000,
        sink_fails: &[],
        store_fails: &[],
    }
}

fn bytes_of(alloc: Global, digits: &str) -> Result<Vec<u8>, Fail> {
    Ok(hex::decode(alloc, digits.as_bytes()).map_err(|_| "no hexadecimal digits")?)
}

fn words_of(alloc: Global, words: &[&str]) -> Result<Vec<String>, AllocError> {
    let mut found = Vec::new(alloc);
    for word in words {
        found.push(String::from_str(alloc, word)?)?;
    }
    Ok(found)
}

/// The answer to words.
pub(crate) fn answer_to(
    alloc: Global,
    words: &[&str],
    setting: &Setting,
) -> Result<Answer, AllocError> {
    let mut files = Vec::new(alloc);
    files.push((
        String::from_str(alloc, setting.name)?,
        setting.file.to_vec(alloc)?,
    ))?;
    let mut store = MemStore {
        files: Files::of(files),
        fails: Listed::of(setting.store_fails.to_vec(alloc)?),
        calls: 0,
        faults: 0,
        failed: Text::of(String::new(alloc)),
    };
    let mut source = MemSource {
        bytes: Listed::of(setting.input.to_vec(alloc)?),
        at: 0,
        cuts: Listed::of(setting.cuts.to_vec(alloc)?),
        fails: Listed::of(setting.source_fails.to_vec(alloc)?),
        calls: 0,
        faults: 0,
    };
    let mut sink = MemSink::of(
        alloc,
        1_000_000,
        setting.takes,
        setting.sink_fails.to_vec(alloc)?,
    )?;
    let words = words_of(alloc, words)?;
    let status = vphy(alloc, &words, &mut store, &mut source, &mut sink);
    Ok((status, sink.bytes.get().to_vec(alloc)?))
}

pub(crate) fn exec(alloc: Global, setting: &Setting) -> Result<Answer, AllocError> {
    answer_to(alloc, &["exec", "image"], setting)
}

#[test]
fn lines_are_answered(rt: HostRuntime) -> Result<(), Fail> {
    let alloc = rt.alloc();
    let echo = bytes_of(alloc, ECHO)?;
    let rows: [(&[u8], Status, &[u8]); 15] = [
        (EXAMPLE, Status::Done, PRINTED),
        (b"", Status::Done, b"end 0\n"),
        (b"i 1 0 0\n", Status::BadLine, b"bad line 1\n"),
        (
            b"i 0 0 0\nc 7\nc 8\n",
            Status::BadLine,
            b"ok\nact chosen 7\nbad line 3\n",
        ),
        (b"i 0 0 0", Status::Done, b"ok\nend 0\n"),
        (
            b"i\t0  0 \t0\r\n\n# x\r\n \t\r\n\t c\t7 \n#\n   # c 8\ns 1\t1 0 0\r",
            Status::Done,
            PRINTED,
        ),
        (b"# x\n\nc 5\n", Status::BadLine, b"bad line 3\n"),
        (
            b"i 0 0 0\n\r\n \nc 7\n# c\nc 8\n",
            Status::BadLine,
            b"ok\nact chosen 7\nbad line 6\n",
        ),
        (b"i 0 0 0\r\r\n", Status::BadLine, b"bad line 1\n"),
        (b"i 0 0 0 0\n", Status::BadLine, b"bad line 1\n"),
        (b"i inf inf 0\n", Status::BadLine, b"bad line 1\n"),
        (
            b"i -inf inf 0\nc -9223372036854775806\n",
            Status::Done,
            b"ok\nact chosen -9223372036854775806\nend 0\n",
        ),
        (b"i 0 0 inf\n", Status::BadLine, b"bad line 1\n"),
        (
            b"i 0 0 9223372036854775807\n",
            Status::BadLine,
            b"bad line 1\n",
        ),
        (b"i 00 -0 +0\n", Status::BadLine, b"bad line 1\n"),
    ];
    for (input, status, text) in rows {
        let (answered, printed) = exec(alloc, &unfailing(&echo, input))?;
        assert_eq!(rt; answered, status);
        assert_eq!(rt; printed.as_slice(), text);
    }
    Ok(())
}

/// A line of so many bytes before its LF: `front`, and then one byte as often as needed.
pub(crate) fn padded_line(
    alloc: Global,
    front: &[u8],
    byte: u8,
    len: usize,
) -> Result<Vec<u8>, AllocError> {
    let mut line = front.to_vec(alloc)?;
    for _ in front.len()..len {
        line.push(byte)?;
    }
    line.push(b'\n')?;
    Ok(line)
}

#[test]
fn long_lines_are_bad(rt: HostRuntime) -> Result<(), Fail> {
    let alloc = rt.alloc();
    let echo = bytes_of(alloc, ECHO)?;
    let rows: [(&[u8], u8, usize, Status, &[u8]); 5] = [
        (b"i 0 0 0", b' ', 4096, Status::Done, b"ok\nend 0\n"),
        (b"i 0 0 0", b' ', 4097, Status::BadLine, b"bad line 1\n"),
        (b"# ", b'x', 4096, Status::Done, b"end 0\n"),
        (b"# ", b'x', 4097, Status::BadLine, b"bad line 1\n"),
        (b"", b' ', 4097, Status::BadLine, b"bad line 1\n"),
    ];
    for (front, byte, len, status, text) in rows {
        let line = padded_line(alloc, front, byte, len)?;
        let (answered, printed) = exec(alloc, &unfailing(&echo, &line))?;
        assert_eq!(rt; answered, status);
        assert_eq!(rt; printed.as_slice(), text);
        let (answered, printed) = exec(alloc, &unfailing(&echo, &line[..line.len().min(len)]))?;
        assert_eq!(rt; answered, status);
        assert_eq!(rt; printed.as_slice(), text);
        for place in [1, 4095, 4096] {
            let cuts = [place];
            let mut cut = unfailing(&echo, &line);
            cut.cuts = &cuts;
            let (answered, printed) = exec(alloc, &cut)?;
            assert_eq!(rt; answered, status);
            assert_eq!(rt; printed.as_slice(), text);
        }
    }
    let returned = padded_line(alloc, b"i 0 0 0", b' ', 4096)?;
    let mut long = returned[..4096.min(returned.len())].to_vec(alloc)?;
    long.extend_from_slice(b"\r\n")?;
    let (answered, _) = exec(alloc, &unfailing(&echo, &long))?;
    assert_eq!(rt; answered, Status::BadLine, "the CR counts");
    Ok(())
}

#[test]
fn violations_end_a_run(rt: HostRuntime) -> Result<(), Fail> {
    let alloc = rt.alloc();
    let guard = bytes_of(alloc, GUARD)?;
    let rows: [(&[u8], Status, &[u8]); 3] = [
        (
            b"i 0 5 0\nc 3\ns 1 1 0 0\n",
            Status::Done,
            b"ok\nact chosen 3\nok\nend 1\n",
        ),
        (
            b"i -1 5 0\nc 3\n",
            Status::Violation,
            b"violation init 1 unknown\n",
        ),
        (
            b"i -1 5 0\nnot a record",
            Status::Violation,
            b"violation init 1 unknown\n",
        ),
    ];
    for (input, status, text) in rows {
        let (answered, printed) = exec(alloc, &unfailing(&guard, input))?;
        assert_eq!(rt; answered, status);
        assert_eq!(rt; printed.as_slice(), text);
    }
    Ok(())
}

#[test]
fn damaged_images_are_named(rt: HostRuntime) -> Result<(), Fail> {
    let alloc = rt.alloc();
    let echo = bytes_of(alloc, ECHO)?;
    let mut magic = echo.as_slice().to_vec(alloc)?;
    let mut version = echo.as_slice().to_vec(alloc)?;
    let mut digest = echo.as_slice().to_vec(alloc)?;
    if let Some(byte) = magic.get_mut(0) {
        *byte = b'v';
    }
    if let Some(byte) = version.get_mut(4) {
        *byte = 2;
    }
    if let Some(byte) = digest.get_mut(19) {
        *byte = 1;
    }
    let target = bytes_of(alloc, TARGET)?;
    let instr = bytes_of(alloc, INSTR)?;
    let whole = echo.as_slice();
    let long = padded_line(alloc, b"", 0, 2_097_152)?;
    let rows: [(&[u8], &[u8]); 8] = [
        (&whole[..whole.len().min(142)], b"bad image length\n"),
        (&whole[..whole.len().min(5)], b"bad image length\n"),
        (&magic, b"bad image magic\n"),
        (&version, b"bad image version 513\n"),
        (&digest, b"bad image digest\n"),
        (&instr, b"bad image instr 2\n"),
        (&target, b"bad image check target 4\n"),
        (&long, b"bad image size\n"),
    ];
    for (image, text) in rows {
        let (answered, printed) = exec(alloc, &unfailing(image, EXAMPLE))?;
        assert_eq!(rt; answered, Status::BadImage);
        assert_eq!(rt; printed.as_slice(), text);
    }
    Ok(())
}

#[test]
fn other_words_are_usage(rt: HostRuntime) -> Result<(), Fail> {
    let alloc = rt.alloc();
    let echo = bytes_of(alloc, ECHO)?;
    let rows: [&[&str]; 11] = [
        &[],
        &["compile"],
        &["log", "image", "image"],
        &["selftest", "7", "0"],
        &["selftest", "+7", "100001"],
        &["exec"],
        &["exec", "a", "b"],
        &["check"],
        &["check", "a", "b"],
        &["Check", "image"],
        &["Exec", "image"],
    ];
    for words in rows {
        let (answered, printed) = answer_to(alloc, words, &unfailing(&echo, EXAMPLE))?;
        assert_eq!(rt; answered, Status::Usage);
        assert_eq!(rt;
            printed.as_slice(),
            b"usage: vphy check P | compile P | exec I | run P | list P | log P C | selftest SEED N | demo\n".as_slice()
        );
    }
    let (answered, printed) = answer_to(alloc, &["exec", "other"], &unfailing(&echo, EXAMPLE))?;
    assert_eq!(rt; answered, Status::StoreFault);
    assert_eq!(rt; printed.len(), 0);
    Ok(())
}

/// The reads give one byte each, and the writes take one.
#[test]
fn pieces_change_nothing(rt: HostRuntime) -> Result<(), Fail> {
    let alloc = rt.alloc();
    let echo = bytes_of(alloc, ECHO)?;
    let ones = [1; 40];
    let mut pieces = unfailing(&echo, EXAMPLE);
    pieces.cuts = &ones;
    pieces.takes = 1;
    let (answered, printed) = exec(alloc, &pieces)?;
    assert_eq!(rt; answered, Status::Done);
    assert_eq!(rt; printed.as_slice(), PRINTED);
    Ok(())
}

#[test]
fn a_failed_write_leaves_a_front(rt: HostRuntime) -> Result<(), Fail> {
    let alloc = rt.alloc();
    let echo = bytes_of(alloc, ECHO)?;
    for call in 0..PRINTED.len() {
        let fails = [call as u64];
        let mut failing = unfailing(&echo, EXAMPLE);
        failing.takes = 1;
        failing.sink_fails = &fails;
        let (answered, printed) = exec(alloc, &failing)?;
        assert_eq!(rt; answered, Status::WriteFault);
        assert_eq!(rt; printed.as_slice(), &PRINTED[..call]);
    }
    Ok(())
}

#[test]
fn a_failed_read_leaves_what_was_taken(rt: HostRuntime) -> Result<(), Fail> {
    let alloc = rt.alloc();
    let echo = bytes_of(alloc, ECHO)?;
    let ones = [1; 20];
    let rows: [(u64, u64, Status, &[u8]); 4] = [
        (0, 8, Status::ReadFault, b""),
        (8, 12, Status::ReadFault, b"ok\n"),
        (12, 16, Status::ReadFault, b"ok\nact chosen 7\n"),
        (16, 17, Status::BadLine, b"ok\nact chosen 7\nbad line 3\n"),
    ];
    for (first, end, status, text) in rows {
        for taken in first..end {
            let fails = [taken];
            let mut failing = unfailing(&echo, b"i 0 0 0\nc 7\nc 8\n");
            failing.cuts = &ones;
            failing.source_fails = &fails;
            let (answered, printed) = exec(alloc, &failing)?;
            assert_eq!(rt; answered, status);
            assert_eq!(rt; printed.as_slice(), text);
        }
    }
    Ok(())
}

#[test]
fn a_failed_load_prints_nothing(rt: HostRuntime) -> Result<(), Fail> {
    let alloc = rt.alloc();
    let echo = bytes_of(alloc, ECHO)?;
    let mut failing = unfailing(&echo, EXAMPLE);
    failing.store_fails = &[0];
    let (answered, printed) = exec(alloc, &failing)?;
    assert_eq!(rt; answered, Status::StoreFault);
    assert_eq!(rt; printed.len(), 0);
    Ok(())
}
