ghost use Rattle.std.specs.Prelude.{◌≡◌, ◌↔◌, ◌^◌, ◌≤◌, List, ◌++◌, None, IfOk, IfSome, IsErrOf, vec_len};
ghost use Rattle.std.specs.IoError.{error_kind};
ghost use Rattle.da_shelf.specs.Counts.{no_counts, after_one_read, after_failed_read, after_failed_replace};
ghost use Rattle.da_shelf.specs.Reads.{IsFileRead};

use crate::second_file::replace_file;
use crate::shelf::{Shelf, ShelfFault};
use std::alloc::Global;
use std::fs;
use std::io::{ErrorKind, Read};
use std::marker::Model;
use std::rt::Files;
use type_kinds::Memory;

// A file longer than this, 1 GiB, is a failed read.
const LONGEST_FILE: usize = 1 << 30;

/// The files of the host, where a name is a path. Contracts see the counts of reads, of failed reads
/// and of failed replaces, and not what the files hold. It keeps the runtime and the allocator that it
/// is made with.
#[derive(Drop)]
pub struct FileShelf<R> {
    rt: R,
    alloc: Global,
    reads: u64,
    read_faults: u64,
    replace_faults: u64,
}

impl<R> Model for FileShelf<R> {
    ghost use Rattle.da_shelf.specs.Counts.{FileCounts};

    ghost Value = { FileCounts };

    ghost view = { λ it. record { reads = it.reads; read_faults = it.read_faults; replace_faults = it.replace_faults } };
}

impl<R> FileShelf<R> {
    /// The files, of which none is read yet, and no replace has failed.
    pub fn new(rt: R, alloc: Global) -> Result<FileShelf<R>, Memory>
        ensures { IfOk result (λ shelf. shelf ≡ no_counts) }
    {
        Ok(FileShelf {
            rt,
            alloc,
            reads: 0,
            read_faults: 0,
            replace_faults: 0,
        })
    }
}

impl<R: Files> Shelf for FileShelf<R> {
    ghost held = { λ _. None };

    ghost told = { λ before now read. IsFileRead before now read };

    ghost reads = { λ shelf. shelf.reads };

    ghost read_faults = { λ shelf. shelf.read_faults };

    ghost replace_faults = { λ shelf. shelf.replace_faults };

    /// Reads a file to its end.
    ///
    /// `Missing`: the host says that there is no such file. `Memory`: there is no memory left for its
    /// bytes. `Failed`, counted: any other error of the host, or a file longer than 1 GiB.
    fn read(&mut self, name: &str) -> Result<Vec<u8>, ShelfFault>
        ensures length { IfOk result (λ bytes. vec_len bytes ≤ 2 ^ 30) }
        ensures failed { IsErrOf result ShelfFault.Failed → self.new ≡ after_failed_read self.old }
        ensures working { ¬ (IsErrOf result ShelfFault.Failed) → self.new ≡ after_one_read self.old }
        ensures replaces { self.new.replace_faults ≡ self.old.replace_faults }
        ensures counted { self.old.read_faults ≤ self.new.read_faults }
    {
        self.reads = self.reads.saturating_add(1);
        let answer = read_file(&self.rt, self.alloc, name);
        if let Err(ShelfFault::Failed) = &answer {
            self.read_faults = self.read_faults.saturating_add(1);
        }
        answer
    }

    /// Writes the bytes into a second file beside the file, and renames it to the file's name: so a
    /// reader, of another process too, sees the old file or the new one, whole. A file that was there
    /// leaves its permissions to the new one.
    ///
    /// `Memory`: there is no memory left. `Failed`, counted: any other error of the host. After both
    /// the second file is removed, if the host lets it be.
    fn replace(&mut self, name: &str, bytes: &[u8]) -> Result<(), ShelfFault>
        ensures failed { IsErrOf result ShelfFault.Failed → self.new ≡ after_failed_replace self.old }
        ensures working { ¬ (IsErrOf result ShelfFault.Failed) → self.new ≡ self.old }
        ensures present { ¬ (IsErrOf result ShelfFault.Missing) }
        ensures reads { self.new.read_faults ≡ self.old.read_faults }
        ensures counted { self.old.replace_faults ≤ self.new.replace_faults }
    {
        let answer = replace_file(&self.rt, self.alloc, name, bytes);
        if let Err(ShelfFault::Failed) = &answer {
            self.replace_faults = self.replace_faults.saturating_add(1);
        }
        answer
    }
}

fn read_file<R: Files>(rt: &R, alloc: Global, name: &str) -> Result<Vec<u8>, ShelfFault>
    ensures { IfOk result (λ bytes. vec_len bytes ≤ 2 ^ 30) }
{
    match fs::open(rt, name) {
        Ok(file) => read_whole(alloc, file.take(LONGEST_FILE as u64 + 1)),
        Err(error) => Err(fault_of_open(error.kind())),
    }
}

/// All bytes that a reader has left, which are 1 GiB at most.
///
/// `Memory`: the reader says so. `Failed`: any other error of the reader, or more bytes.
pub(crate) fn read_whole<T: Read + Drop>(alloc: Global, reader: T) -> Result<Vec<u8>, ShelfFault>
    ensures short { IfOk result (λ bytes. vec_len bytes ≤ 2 ^ 30) }
    ensures whole { IfOk result (λ bytes. IfSome (T.remaining reader) (λ left. bytes.items ≡ left)) }
    ensures present { ¬ (IsErrOf result ShelfFault.Missing) }
{
    let mut reader = reader;
    let mut bytes = Vec::new(alloc);
    // one byte past the limit, to see whether there is more
    if let Err(error) = reader.read_to_end(&mut bytes) {
        return Err(fault_of(error.kind()));
    }
    if bytes.len() > LONGEST_FILE {
        return Err(ShelfFault::Failed);
    }
    Ok(bytes)
}

// The fault of a file that couldn't be opened to be read.
fn fault_of_open(kind: ErrorKind) -> ShelfFault
    ensures missing { (result ≡ ShelfFault.Missing) ↔ (kind ≡ ErrorKind.NotFound) }
    ensures memory { (result ≡ ShelfFault.Memory) ↔ (kind ≡ ErrorKind.OutOfMemory) }
{
    match kind {
        ErrorKind::NotFound => ShelfFault::Missing,
        _ => fault_of(kind),
    }
}

/// The fault of any other call of the host that failed.
pub(crate) fn fault_of(kind: ErrorKind) -> ShelfFault
    ensures memory { (result ≡ ShelfFault.Memory) ↔ (kind ≡ ErrorKind.OutOfMemory) }
    ensures present { ¬ (result ≡ ShelfFault.Missing) }
{
    match kind {
        ErrorKind::OutOfMemory => ShelfFault::Memory,
        _ => ShelfFault::Failed,
    }
}
