ghost use Rattle.std.specs.Prelude.{◌≡◌, ◌++◌, OnOk, IfSome, IsErrOf, Some};

use crate::file_shelf::fault_of;
use crate::shelf::ShelfFault;
use std::alloc::Global;
use std::fs::{self, OpenFile, OpenOptions};
use std::io::{self, ErrorKind, Write};
use std::rt::Files;

// How many names of a second file are tried: one that is there may be that of a run which goes on
// beside this one, or which was ended.
const MOST_TRIES: u32 = 1000;

/// Puts bytes into the file of a name: writes them into a second file in its folder, makes sure that
/// they are on the device, and renames it. Where this fails the second file is removed, if the host
/// lets it be, and the first isn't touched.
///
/// `Memory`: there is no memory left. `Failed`: any other error of the host.
pub(crate) fn replace_file<R: Files>(
    rt: &R,
    alloc: Global,
    name: &str,
    bytes: &[u8],
) -> Result<(), ShelfFault>
    ensures { ¬ (IsErrOf result ShelfFault.Missing) }
{
    for number in 0..MOST_TRIES {
        let second = match format!(in alloc; "{name}.new{number}") {
            Ok(second) => second,
            Err(_) => return Err(ShelfFault::Memory),
        };
        match OpenOptions::new()
            .write(true)
            .create_new(true)
            .open(rt, second.as_str())
        {
            Ok(file) => return fill_and_rename(rt, file, second.as_str(), name, bytes),
            Err(error) => {
                if error.kind() != ErrorKind::AlreadyExists {
                    return Err(fault_of(error.kind()));
                }
            }
        }
    }
    Err(ShelfFault::Failed)
}

// Fills the second file and renames it to the first, or removes it.
fn fill_and_rename<R: Files>(
    rt: &R,
    file: R::File,
    second: &str,
    name: &str,
    bytes: &[u8],
) -> Result<(), ShelfFault>
    ensures { ¬ (IsErrOf result ShelfFault.Missing) }
{
    let filled = fill(rt, file, name, bytes);
    let renamed = match filled {
        Ok(()) => fs::rename(rt, second, name),
        Err(error) => Err(error),
    };
    match renamed {
        Ok(()) => Ok(()),
        Err(error) => {
            // what the fault was is told by the first error
            let _ = fs::remove_file(rt, second);
            Err(fault_of(error.kind()))
        }
    }
}

// Gives the second file the permissions of the first, if that is there, and all bytes.
fn fill<R: Files>(rt: &R, file: R::File, name: &str, bytes: &[u8]) -> io::Result<()> {
    let mut file = file;
    match fs::metadata(rt, name) {
        Ok(old) => file.set_permissions(old.permissions())?,
        Err(error) => {
            if error.kind() != ErrorKind::NotFound {
                return Err(error);
            }
        }
    }
    write_whole(&mut file, bytes)?;
    file.sync_all()
}

/// Writes all bytes behind what a writer has.
pub(crate) fn write_whole<W: Write>(out: &mut W, bytes: &[u8]) -> io::Result<()>
    ensures { OnOk result (IfSome (W.contents out.old) (λ before. W.contents out.new ≡ Some (before ++ bytes.now))) }
{
    out.write_all(bytes)
}
