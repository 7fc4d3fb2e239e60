//! What a run answered, in words.
use analysis_answers::RunStatus;
use analysis_sources::{Device, Refusal};
use dialyze_command::Status;
use type_kinds::{Bytes, Memory};

/// Appends a line that says what a run answered.
pub fn append_answer(status: Status, out: &mut Bytes) -> Result<(), Memory> {
    match status {
        Status::Clean => out.append(b"-- clean\n"),
        Status::Refused(refusal) => append_refusal(refusal, out),
        Status::Warnings => out.append(b"-- warnings\n"),
        Status::TableFault(number) => append_number(b"-- table fault ", u64::from(number), out),
        Status::DeviceFault(device) => append_device(device, out),
        Status::Memory => out.append(b"-- no memory\n"),
        Status::Usage => out.append(b"-- usage\n"),
    }
}

/// The same of a run of another program.
pub fn append_run_answer(status: RunStatus, out: &mut Bytes) -> Result<(), Memory> {
    match status {
        RunStatus::Done => out.append(b"-- done\n"),
        RunStatus::Refused(refusal) => append_refusal(refusal, out),
        RunStatus::TableFault(number) => append_number(b"-- table fault ", u64::from(number), out),
        RunStatus::DeviceFault(device) => append_device(device, out),
        RunStatus::Memory => out.append(b"-- no memory\n"),
        RunStatus::Usage => out.append(b"-- usage\n"),
    }
}

/// Appends a line that ends with a number.
pub fn append_number(front: &[u8], number: u64, out: &mut Bytes) -> Result<(), Memory> {
    out.append(front)?;
    out.append_decimal(number)?;
    out.append(b"\n")
}

// The number of a refusal, the word that it is about, its line, and the other word.
fn append_refusal(refusal: Refusal, out: &mut Bytes) -> Result<(), Memory> {
    out.append(b"-- refused ")?;
    out.append_decimal(u64::from(refusal.number))?;
    out.append(b", word ")?;
    out.append_decimal(u64::from(refusal.word))?;
    out.append(b", line ")?;
    out.append_decimal(u64::from(refusal.line))?;
    append_number(b", other word ", u64::from(refusal.other), out)
}

// The device that failed, and the word that names the file; in a session the line that does, unless the script isn't read.
fn append_device(device: Device, out: &mut Bytes) -> Result<(), Memory> {
    match device {
        Device::Read(word) => append_number(b"-- no read of word ", u64::from(word), out),
        Device::Replace(word) => append_number(b"-- no replace of word ", u64::from(word), out),
        Device::Write => out.append(b"-- no write\n"),
    }
}
