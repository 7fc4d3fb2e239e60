ghost use Rattle.std.specs.Prelude.{◌<◌, ◌≤◌, IfOk, length};

use da_shelf::{
    FileShelf, Gate, MemShelf, MemSink, OpenGate, Shelf, ShelfFault, Sink, SinkFault, StdoutSink,
    give,
};
use std::alloc::{AllocError, Global};
use std::cell::{Cell, RefCell};
use std::fmt::Display;
use std::fs::Permissions;
use std::io::ErrorKind;
use std::os::unix::fs::PermissionsExt;
use std::path::PathBuf;
use std::test::Fail;
use std::{env, fs, io};
use type_kinds::{Bytes, List, Memory};

fn numbers(alloc: Global, these: &[u32]) -> Result<List<u32>, Memory> {
    List::from_slice(alloc, these)
}

fn read_by_bound<F: Shelf>(shelf: &mut F, name: &str) -> Result<Vec<u8>, ShelfFault> {
    shelf.read(name)
}

fn replace_by_bound<F: Shelf>(shelf: &mut F, name: &str, bytes: &[u8]) -> Result<(), ShelfFault> {
    shelf.replace(name, bytes)
}

fn pass<G: Gate + Sync>(gate: &G) {
    gate.enter(0, 1);
    gate.leave(0, 1);
}

// Whether a name is read as these bytes.
fn reads_as<F: Shelf>(shelf: &mut F, name: &str, bytes: &[u8]) -> bool {
    match shelf.read(name) {
        Ok(read) => read.as_slice() == bytes,
        Err(_) => false,
    }
}

// A shelf of two names, one of which is put twice.
fn filled(alloc: Global, fail_reads: &[u32]) -> Result<MemShelf, Memory> {
    let fail_reads = numbers(alloc, fail_reads)?;
    let mut shelf = MemShelf::new(alloc, fail_reads, List::new(alloc));
    put_three(&mut shelf)?;
    Ok(shelf)
}

fn put_three(shelf: &mut MemShelf) -> Result<(), Memory> {
    shelf.put("a", b"first")?;
    shelf.put("b", b"")?;
    shelf.put("a", b"second")
}

// The reads in order, and the fault of each.
const READS: &[(&str, Option<ShelfFault>)] = &[
    ("a", None),
    ("a", Some(ShelfFault::Failed)),
    ("c", Some(ShelfFault::Missing)),
    ("b", None),
    ("c", Some(ShelfFault::Failed)),
];

#[test]
fn a_shelf_in_memory_fails_at_the_listed_reads(rt: HostRuntime) -> Result<(), Memory> {
    let mut shelf = filled(rt.alloc(), &[2, 5])?;
    assert!(rt; shelf.look("a") == Some(b"second".as_slice()));
    assert!(rt; shelf.look("b") == Some(b"".as_slice()));
    assert!(rt; shelf.look("") == None);
    for (name, fault) in READS {
        assert!(rt;
            read_by_bound(&mut shelf, name).err() == *fault,
            "read of {name}, {fault:?}"
        );
    }
    assert!(rt; reads_as(&mut shelf, "a", b"second"));
    drop(shelf);
    Ok(())
}

// The replaces of `a` in order, whether each is taken, and what is held then.
const REPLACES: &[(&[u8], bool, &[u8])] = &[
    (b"second", true, b"second"),
    (b"third", false, b"second"),
    (b"", false, b"second"),
    (b"", true, b""),
];

// A shelf of one name.
fn first(alloc: Global, fail_replaces: &[u32]) -> Result<MemShelf, Memory> {
    let fail_replaces = numbers(alloc, fail_replaces)?;
    let mut shelf = MemShelf::new(alloc, List::new(alloc), fail_replaces);
    shelf.put("a", b"first")?;
    Ok(shelf)
}

#[test]
fn a_shelf_in_memory_fails_at_the_listed_replaces(rt: HostRuntime) -> Result<(), Memory> {
    let mut shelf = first(rt.alloc(), &[2, 3])?;
    for (bytes, taken, held) in REPLACES {
        let answer = replace_by_bound(&mut shelf, "a", bytes);
        assert!(rt; answer.is_ok() == *taken);
        assert!(rt; *taken || answer == Err(ShelfFault::Failed));
        assert!(rt; shelf.look("a") == Some(*held));
    }
    assert!(rt; replace_by_bound(&mut shelf, "b", b"new").is_ok());
    assert!(rt; reads_as(&mut shelf, "b", b"new"));
    assert!(rt; shelf.look("a") == Some(b"".as_slice()));
    drop(shelf);
    Ok(())
}

const GIVEN: &[u8] = b"in pieces of ten bytes.";

// The room of a sink, the writes that fail, and how many of 23 bytes are taken.
const SINKS: &[(u32, &[u32], usize)] = &[
    (100, &[], 23),
    (23, &[4], 23),
    (100, &[3], 20),
    (100, &[1], 0),
    (7, &[], 7),
];

fn sink(alloc: Global, piece: u32, room: u32, fail_writes: &[u32]) -> Result<MemSink, Memory>
    requires { 0 < piece }
{
    let fail_writes = numbers(alloc, fail_writes)?;
    MemSink::new(alloc, piece, room, fail_writes)
}

#[test]
fn a_sink_in_memory_takes_what_is_given(rt: HostRuntime) -> Result<(), Memory> {
    assert!(rt; GIVEN.len() == 23);
    for (room, fail_writes, taken) in SINKS {
        let mut sink = sink(rt.alloc(), 10, *room, fail_writes)?;
        let answer = give(&mut sink, GIVEN);
        assert!(rt; answer.is_ok() == (*taken == 23), "room {room}");
        assert!(rt; Some(sink.bytes()) == GIVEN.get(..*taken), "room {room}");
        drop(sink);
    }
    Ok(())
}

#[test]
fn nothing_is_given_without_a_write(rt: HostRuntime) -> Result<(), Memory> {
    let mut sink = sink(rt.alloc(), 1, 0, &[1])?;
    assert!(rt; give(&mut sink, b"") == Ok(()));
    assert!(rt; sink.bytes().is_empty());
    drop(sink);
    pass(&OpenGate);
    Ok(())
}

// A path in the folder for what doesn't last.
fn temporary(rt: &HostRuntime, name: &str) -> Result<PathBuf, Fail> {
    let mut path = env::temp_dir(rt)?;
    path.push(name)?;
    Ok(path)
}

// Writes a file, reads it by the shelf, and removes it.
fn is_read_whole(
    rt: &HostRuntime,
    shelf: &mut FileShelf<&HostRuntime>,
    name: &str,
) -> Result<bool, Fail> {
    fs::write(rt, name, "module")?;
    let whole = reads_as(shelf, name, b"module");
    fs::remove_file(rt, name)?;
    Ok(whole)
}

#[test]
fn files_are_read_whole_or_missing(rt: HostRuntime) -> Result<(), Fail> {
    let path = temporary(&rt, "da_shelf_reads_this.core")?;
    let name = path
        .as_path()
        .to_str()
        .ok_or("the folder's name is no text")?;
    let mut shelf = FileShelf::new(&rt, rt.alloc())?;
    assert!(rt; is_read_whole(&rt, &mut shelf, name)?);
    assert!(rt; read_by_bound(&mut shelf, name).err() == Some(ShelfFault::Missing));
    assert!(rt; read_by_bound(&mut shelf, "/").err() == Some(ShelfFault::Failed));
    Ok(())
}

// Whether the host says that there is such a file or folder.
fn is_there(rt: &HostRuntime, name: &str) -> bool {
    fs::metadata(rt, name).is_ok()
}

// Whether nobody but a file's owner and its group may read it.
fn is_closed(rt: &HostRuntime, name: &str) -> bool {
    match fs::metadata(rt, name) {
        Ok(data) => data.permissions().mode() & 0o777 == 0o640,
        Err(_) => false,
    }
}

// The first replace makes the file, the second keeps its permissions, and neither leaves the second
// file. What isn't in a folder can't be replaced.
fn replaced_whole(
    rt: &HostRuntime,
    shelf: &mut FileShelf<&HostRuntime>,
    names: [&str; 3],
) -> [bool; 4] {
    let [name, second, below] = names;
    let first = replace_by_bound(shelf, name, b"first").is_ok();
    let closed = fs::set_permissions(rt, name, Permissions::from_mode(0o640)).is_ok();
    let again = replace_by_bound(shelf, name, b"second").is_ok();
    [
        first && closed && again,
        reads_as(shelf, name, b"second") && is_closed(rt, name),
        !is_there(rt, second),
        replace_by_bound(shelf, below, b"") == Err(ShelfFault::Failed),
    ]
}

// A name behind a folder's.
fn behind(alloc: Global, folder: &str, name: &str) -> Result<String, AllocError> {
    format!(in alloc; "{folder}{name}")
}

// The same of a file in the folder.
fn replaced_in(
    rt: &HostRuntime,
    shelf: &mut FileShelf<&HostRuntime>,
    folder: &str,
    name: &str,
) -> Result<[bool; 4], AllocError> {
    let second = behind(rt.alloc(), folder, "/table.new0")?;
    let below = behind(rt.alloc(), folder, "/table/below")?;
    let whole = replaced_whole(rt, shelf, [name, second.as_str(), below.as_str()]);
    drop(second);
    drop(below);
    Ok(whole)
}

// Whether the folder itself isn't replaced, and what was tried is removed.
fn folder_stays(
    rt: &HostRuntime,
    shelf: &mut FileShelf<&HostRuntime>,
    folder: &str,
) -> Result<bool, AllocError> {
    let beside = behind(rt.alloc(), folder, ".new0")?;
    let answer = replace_by_bound(shelf, folder, b"third");
    let left = is_there(rt, beside.as_str());
    drop(beside);
    Ok(answer == Err(ShelfFault::Failed) && !left)
}

// Makes the folder, and takes it away again: whether it was made and is gone, what is replaced in it,
// and whether the folder itself stays.
fn replaced_and_cleared(
    rt: &HostRuntime,
    shelf: &mut FileShelf<&HostRuntime>,
    folder: &str,
    name: &str,
) -> Result<(bool, [bool; 4], bool), AllocError> {
    let made = fs::create_dir(rt, folder).is_ok();
    let whole = replaced_in(rt, shelf, folder, name);
    let stays = folder_stays(rt, shelf, folder);
    let cleared = fs::remove_file(rt, name).is_ok() && fs::remove_dir(rt, folder).is_ok();
    Ok((made && cleared, whole?, stays?))
}

#[test]
fn files_are_replaced_whole(rt: HostRuntime) -> Result<(), Fail> {
    let path = temporary(&rt, "da_shelf_replaces_here")?;
    let folder = path
        .as_path()
        .to_str()
        .ok_or("the folder's name is no text")?;
    let name = behind(rt.alloc(), folder, "/table")?;
    let mut shelf = FileShelf::new(&rt, rt.alloc())?;
    let answer = replaced_and_cleared(&rt, &mut shelf, folder, name.as_str());
    drop(shelf);
    drop(name);
    let (cleared, whole, stays) = answer?;
    assert!(rt; cleared);
    assert!(rt; whole == [true; 4]);
    assert!(rt; stays);
    Ok(())
}

// A standard output that is interrupted, then takes at most three bytes a call, and after four such
// calls takes none, and then is closed. It records the bytes that it takes.
#[derive(Drop)]
struct Worn {
    calls: Cell<u8>,
    taken: RefCell<Bytes>,
}

impl Worn {
    fn new(alloc: Global) -> Worn {
        Worn {
            calls: Cell::new(0),
            taken: RefCell::new(List::new(alloc)),
        }
    }

    fn take(&self, bytes: &[u8]) -> io::Result<usize>
        ensures { IfOk result (λ n. n ≤ length bytes.now) }
    {
        let front = &bytes[..bytes.len().min(3)];
        let Ok(mut taken) = self.taken.try_borrow_mut() else {
            return Err(io::Error::from(ErrorKind::Other));
        };
        match taken.append(front) {
            Ok(()) => Ok(front.len()),
            Err(Memory) => Err(io::Error::from(ErrorKind::OutOfMemory)),
        }
    }
}

impl Print for Worn {
    fn print<D: Display + Drop>(&self, _value: D) -> io::Result<()> {
        Ok(())
    }

    fn println<D: Display + Drop>(&self, _value: D) -> io::Result<()> {
        Ok(())
    }

    fn write_all(&self, _bytes: &[u8]) -> io::Result<()> {
        Ok(())
    }

    fn write_some(&self, bytes: &[u8]) -> io::Result<usize> {
        let call = self.calls.get();
        self.calls.set(call.wrapping_add(1));
        match call {
            0 => Err(io::Error::from(ErrorKind::Interrupted)),
            1..=4 => self.take(bytes),
            5 => Ok(0),
            _ => Err(io::Error::from(ErrorKind::BrokenPipe)),
        }
    }
}

#[test]
fn the_output_takes_the_bytes_that_are_written_until_it_fails(rt: HostRuntime) -> Result<(), Fail> {
    let worn = Worn::new(rt.alloc());
    let mut sink = StdoutSink::new(&worn)?;
    assert!(rt; sink.write(b"abcde") == Ok(3));
    assert!(rt; worn.calls.get() == 2);
    assert!(rt; give(&mut sink, b"defgh\xff\x00") == Ok(()));
    assert!(rt; worn.calls.get() == 5);
    assert!(rt; sink.write(b"more") == Err(SinkFault::Failed));
    assert!(rt; give(&mut sink, b"more") == Err(SinkFault::Failed));
    assert!(rt; worn.calls.get() == 7);
    let taken = worn.taken.try_borrow()?;
    assert!(rt; taken.as_slice() == b"abcdefgh\xff\x00".as_slice());
    Ok(())
}

#[test]
fn the_standard_output_takes_all(rt: HostRuntime) -> Result<(), Fail> {
    let mut sink = StdoutSink::new(&rt)?;
    assert!(rt; give(&mut sink, b"all of this\n") == Ok(()));
    Ok(())
}
