//! Each call of a `Watched`, over ends that fail or do not.

use crate::ends::{Calls, Sink, Source, same};
use speedate_stream::{Failed, Watched};
use std::process::Abort;

const INPUT: &[u8] = b"date 2020-01-01";

#[test]
fn a_read_is_one_call(rt: HostRuntime) {
    for (fails, pauses, want) in [
        (Calls::None, Calls::None, Ok(4)),
        (Calls::One(0), Calls::None, Err(Failed)),
        (Calls::None, Calls::One(0), Ok(0)),
    ] {
        let mut source = Source::new(INPUT, 4);
        source.fails = fails;
        source.pauses = pauses;
        let mut input = Watched::new(source);
        let mut buffer = [0; 8];
        let found = (input.read(&mut buffer), input.failed());
        let row = (fails, pauses);
        same(&rt, found, (want, want.is_err()), &row);
        same(&rt, input.into_inner().calls, 1, &row);
    }
}

#[test]
fn a_write_is_one_call(rt: HostRuntime) {
    expect_write(&rt, Calls::None, Calls::None, Ok(4));
    expect_write(&rt, Calls::One(0), Calls::None, Err(Failed));
    expect_write(&rt, Calls::None, Calls::One(0), Err(Failed));
}

/// A write whose calls fail so, or take nothing, is to answer this, by one call of the writer.
fn expect_write<R: AllocGlobal + Abort>(
    rt: &R,
    fails: Calls,
    refuses: Calls,
    want: Result<usize, Failed>,
) {
    let mut sink = Sink::new(rt.alloc(), 4);
    sink.fails = fails;
    sink.refuses = refuses;
    let mut output = Watched::new(sink);
    let found = (output.write(INPUT), output.failed());
    let row = (fails, refuses);
    same(rt, found, (want, want.is_err()), &row);
    let sink = output.into_inner();
    same(rt, (sink.calls, sink.flushes), (1, 0), &row);
}

#[test]
fn a_flush_is_one_call(rt: HostRuntime) {
    for (flush_fails, want) in [(false, Ok(())), (true, Err(Failed))] {
        let mut sink = Sink::new(rt.alloc(), 4);
        sink.flush_fails = flush_fails;
        let mut output = Watched::new(sink);
        let found = (output.flush(), output.failed());
        same(&rt, found, (want, want.is_err()), &flush_fails);
        let sink = output.into_inner();
        same(&rt, (sink.calls, sink.flushes), (0, 1), &flush_fails);
    }
}
