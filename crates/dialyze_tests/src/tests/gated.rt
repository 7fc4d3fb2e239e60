//! What workers do at the gate.
use da_shelf::{Gate, MemShelf, MemSink};
use dialyze_command::{Status, dialyze};
use std::alloc::Global;
use std::sync::Wait;
use std::thread::Threads;
use type_kinds::{List, Memory};
use worker_crew_tests::{MeetingGate, WatchingGate};

// Nine functions in three chains: nine components.
const CHAINS: &str = "module 'm' ['a'/0,'d'/0,'g'/0] attributes []
'a'/0 = fun () -> {apply 'b'/0()}
'b'/0 = fun () -> {apply 'c'/0()}
'c'/0 = fun () -> 1
'd'/0 = fun () -> {apply 'e'/0()}
'e'/0 = fun () -> {apply 'f'/0()}
'f'/0 = fun () -> 2
'g'/0 = fun () -> {apply 'h'/0()}
'h'/0 = fun () -> {apply 'i'/0()}
'i'/0 = fun () -> 3
end
";

// What a run of these words answers on the chains.
fn status_of<R: Threads + Wait + Sync, G: Gate + Sync>(
    rt: &R,
    alloc: Global,
    words: &[&str],
    gate: &G,
) -> Result<Status, Memory> {
    let mut shelf = MemShelf::new(alloc, List::new(alloc), List::new(alloc));
    let mut sink = MemSink::new(alloc, 4096, 4096, List::new(alloc))?;
    shelf.put("m.core", CHAINS.as_bytes())?;
    Ok(dialyze(rt, alloc, words, &mut shelf, &mut sink, gate))
}

const BY_UP_TO_FOUR: &[&[&str]] = &[
    &["check", "m.core"],
    &["check", "--workers", "2", "m.core"],
    &["check", "--workers", "3", "m.core"],
    &["check", "--workers", "4", "m.core"],
];

// Each component is entered with and left once, by the seat that solves it.
#[test]
fn each_component_once(rt: HostRuntime) -> Result<(), Memory> {
    for words in BY_UP_TO_FOUR {
        let gate = WatchingGate::new();
        let status = status_of(&rt, rt.alloc(), words, &gate)?;
        assert_eq!(rt; status, Status::Clean);
        assert!(rt; gate.saw(0b1_1111_1111));
    }
    Ok(())
}

const BY_TWO: &[&str] = &["check", "--workers", "2", "m.core"];

// Two workers are in the gate at once.
#[test]
fn two_at_once(rt: HostRuntime) -> Result<(), Memory> {
    let gate = MeetingGate::new();
    let status = status_of(&rt, rt.alloc(), BY_TWO, &gate)?;
    assert_eq!(rt; status, Status::Clean);
    assert!(rt; gate.met());
    Ok(())
}
