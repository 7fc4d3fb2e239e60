//! How deep an expression may be. These texts take more stack than the system gives a program of cases that Rattle's own compiler built.
use analysis_sources::Refusal;
use da_shelf::{MemShelf, MemSink, OpenGate};
use dialyze_command::{Status, dialyze};
use std::alloc::Global;
use std::sync::Wait;
use std::test::Fail;
use std::thread::Threads;
use type_kinds::{Bytes, List, Memory};

// What a check answers of a function whose body is a tuple in a tuple, to this depth.
fn status_at<R: Threads + Wait + Sync>(
    rt: &R,
    alloc: Global,
    depth: u32,
) -> Result<Status, Memory> {
    let mut text = List::from_slice(
        alloc,
        b"module 'm' ['f'/0] attributes [] 'f'/0 = fun () -> ",
    )?;
    append_braces(b'{', depth, &mut text)?;
    text.add(b'1')?;
    append_braces(b'}', depth, &mut text)?;
    text.append(b" end")?;
    let mut shelf = MemShelf::new(alloc, List::new(alloc), List::new(alloc));
    shelf.put("m.core", text.as_slice())?;
    let mut sink = MemSink::new(alloc, 4096, 4096, List::new(alloc))?;
    Ok(dialyze(
        rt,
        alloc,
        &["check", "m.core"],
        &mut shelf,
        &mut sink,
        &OpenGate,
    ))
}

// The braces of one side: the integer is at the depth itself.
fn append_braces(brace: u8, depth: u32, text: &mut Bytes) -> Result<(), Memory> {
    for _ in 1..depth {
        text.add(brace)?;
    }
    Ok(())
}

// The deepest expression that is read.
#[test]
fn reads_the_deepest(rt: HostRuntime) -> Result<(), Fail> {
    let status = status_at(&rt, rt.alloc(), 400)?;
    assert_eq!(rt; status, Status::Clean);
    Ok(())
}

// One deeper.
#[test]
fn refuses_one_deeper(rt: HostRuntime) -> Result<(), Fail> {
    let status = status_at(&rt, rt.alloc(), 401)?;
    let too_deep = Refusal {
        number: 6,
        word: 1,
        line: 1,
        other: 0,
    };
    assert_eq!(rt; status, Status::Refused(too_deep));
    Ok(())
}
