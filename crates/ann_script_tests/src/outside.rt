use ann_script::{MemorySink, Source, StdSink, StdSource, write_all};
use std::alloc::{AllocError, Global};
use std::test::Fail;

/// Whether a sink of which this write fails takes a text, and whether it then holds these bytes.
fn writes(alloc: Global, failing: u64, bytes: &[u8]) -> Result<(bool, bool), AllocError> {
    let mut out = MemorySink::new(alloc, 5, &[failing])?;
    let all = write_all(&mut out, b"a 1 inserted 7 at 1\n").is_ok();
    Ok((all, out.bytes() == bytes))
}

#[test]
fn writes_all_or_a_front(rt: HostRuntime) -> Result<(), Fail> {
    let alloc = rt.alloc();
    let answers = (
        writes(alloc, 2, b"a 1 i")?,
        writes(alloc, 0, b"a 1 inserted 7 at 1\n")?,
    );
    assert_eq!(rt; answers, ((false, true), (true, true)));
    Ok(())
}

#[test]
fn reads_standard_input(rt: HostRuntime) {
    // A read without room takes nothing, so that the test waits for nobody's input.
    let mut input = StdSource::new(rt.stdin());
    assert!(rt; matches!(input.read(&mut []), Ok(0)));
}

#[test]
fn writes_standard_output(rt: HostRuntime) {
    let mut out = StdSink::new(rt.stdout());
    assert!(rt; write_all(&mut out, b"written by a test\n").is_ok());
}
