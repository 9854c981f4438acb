//! Calls of the objects in memory, and whole writes over them.
use std::alloc::{AllocError, Global};
use std::test::Fail;
use vp_outside::{
    Failed, Files, Listed, LoadErr, Loaded, MemSink, MemSource, MemStore, Sink, Source, Store,
    Text, write_all,
};

fn numbers(alloc: Global, numbers: &[u64]) -> Result<Listed<u64>, AllocError> {
    Ok(Listed::of(numbers.to_vec(alloc)?))
}

fn source(
    alloc: Global,
    bytes: &[u8],
    cuts: &[u32],
    fails: &[u64],
) -> Result<MemSource, AllocError> {
    Ok(MemSource {
        bytes: Listed::of(bytes.to_vec(alloc)?),
        at: 0,
        cuts: Listed::of(cuts.to_vec(alloc)?),
        fails: numbers(alloc, fails)?,
        calls: 0,
        faults: 0,
    })
}

/// A store with the files `a`, `empty` and a second `a`.
fn store(alloc: Global, fails: &[u64]) -> Result<MemStore, AllocError> {
    let mut files = Vec::new(alloc);
    let rows: [(&str, &[u8]); 3] = [("a", b"first"), ("empty", b""), ("a", b"other")];
    for (name, content) in rows {
        files.push((String::from_str(alloc, name)?, content.to_vec(alloc)?))?;
    }
    Ok(MemStore {
        files: Files::of(files),
        fails: numbers(alloc, fails)?,
        calls: 0,
        faults: 0,
        failed: Text::of(String::new(alloc)),
    })
}

#[test]
fn a_source_gives_by_its_cuts_and_fails_by_its_plan(rt: HostRuntime) -> Result<(), Fail> {
    let alloc = rt.alloc();
    let mut source = source(alloc, b"abcdefgh", &[1, 0, 9, 2], &[2])?;
    let calls: [(Result<usize, Failed>, &[u8]); 7] = [
        (Ok(1), b"a"),
        (Ok(1), b"b"),
        (Err(Failed), b""),
        (Ok(2), b"cd"),
        (Ok(3), b"efg"),
        (Ok(1), b"h"),
        (Ok(0), b""),
    ];
    for (answer, given) in calls {
        let mut buf = [0; 3];
        let got = source.read(&mut buf);
        assert_eq!(rt; got, answer);
        assert!(rt; buf.starts_with(given), "{given:?}");
    }
    assert_eq!(rt; (source.at, source.calls, source.faults), (8, 7, 1));
    Ok(())
}

#[test]
fn a_sink_takes_a_whole_piece_byte_by_byte(rt: HostRuntime) -> Result<(), Fail> {
    let alloc = rt.alloc();
    let mut sink = MemSink::of(alloc, 10, 1, Vec::new(alloc))?;
    assert_eq!(rt; write_all(&mut sink, b"whole"), Ok(()));
    assert_eq!(rt; write_all(&mut sink, b""), Ok(()));
    assert_eq!(rt; sink.bytes.get(), b"whole".as_slice());
    assert_eq!(rt; (sink.calls, sink.faults), (5, 0));
    Ok(())
}

#[test]
fn a_failed_write_leaves_a_front(rt: HostRuntime) -> Result<(), Fail> {
    let alloc = rt.alloc();
    let rows: [(u32, u32, &[u64], &[u8], u64); 4] = [
        (10, 2, &[2], b"abcd", 3),
        (10, 9, &[0], b"", 1),
        (3, 2, &[], b"abc", 3),
        (0, 0, &[], b"", 1),
    ];
    for (room, takes, fails, left, calls) in rows {
        let mut sink = MemSink::of(alloc, room, takes, fails.to_vec(alloc)?)?;
        assert_eq!(rt; write_all(&mut sink, b"abcdef"), Err(Failed));
        assert_eq!(rt; sink.bytes.get(), left);
        assert_eq!(rt; (sink.calls, sink.faults), (calls, 1));
    }
    Ok(())
}

#[test]
fn a_store_loads_the_first_file_with_the_name(rt: HostRuntime) -> Result<(), Fail> {
    let alloc = rt.alloc();
    let mut store = store(alloc, &[4])?;
    let calls: [(&str, u32, Result<Loaded, LoadErr>, &[u8], &str); 6] = [
        ("a", 5, Ok(Loaded::Whole), b"first", ""),
        ("a", 4, Ok(Loaded::TooLong), b"", ""),
        ("empty", 0, Ok(Loaded::Whole), b"", ""),
        ("b", 9, Err(LoadErr::Failed), b"", "b"),
        ("a", 9, Err(LoadErr::Failed), b"", "a"),
        ("a", 9, Ok(Loaded::Whole), b"first", "a"),
    ];
    let mut into = Vec::new(alloc);
    for (name, max, answer, content, failed) in calls {
        let loaded = store.load(alloc, name, max, &mut into);
        assert_eq!(rt; loaded, answer);
        assert_eq!(rt; into.as_slice(), content);
        assert_eq!(rt; store.failed.get(), failed);
    }
    assert_eq!(rt; (store.calls, store.faults), (6, 2));
    Ok(())
}

#[test]
fn counts_stay_at_their_last_value(rt: HostRuntime) -> Result<(), Fail> {
    let alloc = rt.alloc();
    let last = [u64::MAX];
    let mut source = source(alloc, b"a", &[], &last)?;
    source.calls = u64::MAX;
    source.faults = u64::MAX;
    assert_eq!(rt; source.read(&mut [0]), Err(Failed));
    assert_eq!(rt; (source.calls, source.faults), (u64::MAX, u64::MAX));

    let mut sink = MemSink::of(alloc, 1, 1, last.to_vec(alloc)?)?;
    sink.calls = u64::MAX;
    sink.faults = u64::MAX;
    assert_eq!(rt; sink.write(b"a"), Err(Failed));
    assert_eq!(rt; (sink.calls, sink.faults), (u64::MAX, u64::MAX));

    let mut store = store(alloc, &last)?;
    store.calls = u64::MAX;
    store.faults = u64::MAX;
    let loaded = store.load(alloc, "a", 9, &mut Vec::new(alloc));
    assert_eq!(rt; loaded, Err(LoadErr::Failed));
    assert_eq!(rt; (store.calls, store.faults), (u64::MAX, u64::MAX));
    Ok(())
}
