//! The clients of `serve`: their pipes, and what is told of them at the end.

ghost use Rattle.std.specs.Prelude.{◌≡◌, ◌⊎◌, OnOk, IfOk, IfErr, vec_len};
ghost use Rattle.std.specs.Io.KnownBytes.{Appends};
ghost use Rattle.filing_core.specs.Commands.{served_line};
ghost use Rattle.filing_core.specs.Complaints.{IsUnserved, served_fault};

use files_core::FileFault;
use flush_core::FlushFault;
use sentences::{Complaint, Role};
use serve_core::{Pipes, ServeFault};
use std::alloc::Global;
use std::fs::{self, File, OpenOptions};
use std::io;
use std::io::Write;
use std::rt::Files;
use text_core::{Refusal, write_line, write_numbered};
use vault_core::VaultFault;

/// The descriptor of the first client's requests. That of its answers is the next one, and those of the next client follow.
const FIRST_PIPE: u32 = 3;

/// The name of a descriptor that the program was started with.
fn name_of(alloc: Global, descriptor: u32) -> Result<String, Complaint>
    ensures { IfErr result IsUnserved }
{
    match format!(in alloc; "/dev/fd/{descriptor}") {
        Ok(name) => Ok(name),
        Err(_) => Err(Complaint::Fault(FileFault::Input(Refusal::Memory))),
    }
}

/// Opens a pipe to read, or to write. A named one whose other end is closed already would wait for another end: it has one
/// meanwhile, which is let go then.
fn pipe<F: Files<File = File>>(
    alloc: Global,
    files: &F,
    descriptor: u32,
    writes: bool,
) -> Result<File, Complaint>
    ensures { IfErr result IsUnserved }
{
    let name = name_of(alloc, descriptor)?;
    let other = OpenOptions::new()
        .read(true)
        .write(true)
        .open(files, name.as_str());
    let opened = OpenOptions::new()
        .read(!writes)
        .write(writes)
        .open(files, name.as_str());
    drop(other);
    match opened {
        Ok(file) => Ok(file),
        Err(error) => Err(Complaint::NotOpened(Role::Pipe, error)),
    }
}

/// Refused where a pipe of so many clients isn't there. It is asked before anything is opened, for that gets the first
/// descriptor that is free, and would pass for a pipe.
fn check_pipes<F: Files<File = File>>(
    alloc: Global,
    files: &F,
    clients: u16,
) -> Result<(), Complaint>
    ensures { IfErr result IsUnserved }
{
    let end = FIRST_PIPE.saturating_add(u32::from(clients).saturating_mul(2));
    for descriptor in FIRST_PIPE..end {
        let name = name_of(alloc, descriptor)?;
        if let Err(error) = fs::metadata(files, name.as_str()) {
            return Err(Complaint::NotOpened(Role::Pipe, error));
        }
    }
    Ok(())
}

/// The pipes of so many clients. To be called before another file is opened.
pub fn pipes_of<F: Files<File = File>>(
    alloc: Global,
    files: &F,
    clients: u16,
) -> Result<Vec<Pipes<File, File>>, Complaint>
    ensures pipes { IfOk result (λ pipes. vec_len pipes ≡ clients) }
    ensures unserved { IfErr result IsUnserved }
{
    check_pipes(alloc, files, clients)?;
    let mut pipes = Vec::new(alloc);
    for client in 0..u32::from(clients) {
        let first = FIRST_PIPE.saturating_add(client.saturating_mul(2));
        let pair = Pipes {
            requests: pipe(alloc, files, first, false)?,
            answers: pipe(alloc, files, first.saturating_add(1), true)?,
        };
        if pipes.push(pair).is_err() {
            return Err(Complaint::Fault(FileFault::Input(Refusal::Memory)));
        }
    }
    Ok(pipes)
}

/// Why not all was served, as a command over a file names it.
pub fn fault_of(fault: ServeFault) -> FileFault
    ensures { result ≡ served_fault fault }
{
    match fault {
        ServeFault::Open(fault) => FileFault::Open(fault),
        ServeFault::Share(fault) => FileFault::Vault(fault),
        ServeFault::Flush(FlushFault::Pen(fault)) => FileFault::Vault(VaultFault::Pen(fault)),
        ServeFault::Flush(FlushFault::Strayed(number)) => FileFault::Vault(VaultFault::Unsettled(
            number,
        )),
        ServeFault::Thread => FileFault::Input(Refusal::Memory),
    }
}

/// Writes how many growths of clients stand in the file.
pub fn write_served<W: Write>(growths: u64, writer: &mut W) -> io::Result<()>
    ensures { OnOk result (Appends (W.contents writer.old) (W.contents writer.new) (served_line growths)) }
{
    write_numbered(writer, b"served ", growths)?;
    write_line(b" growths", writer)
}
