//! The program: it runs the script of standard input over the folder that the words name, and prints the replies to standard output.
#![tactic(auto)]

use disk_real::{OpenGate, RealDisk, StandardNumbers, StdSink, StdSource, hold_standard_numbers};
use mt_outside::DiskError;
use mt_program::{Status, run};
use mt_values::CountedAnnals;
use std::alloc::{AllocGlobal, Global};
use std::env::{self, Env};
use std::io::ErrorKind;
use std::process::ExitCode;

/// The words of the command line, or the status where they can't be had.
fn words<R: Env + AllocGlobal>(rt: &R) -> Result<Vec<String>, Status> {
    let args = match env::args(rt) {
        Ok(args) => args,
        Err(error) if error.kind() == ErrorKind::OutOfMemory => return Err(Status::NoMemory),
        Err(_) => return Err(Status::NotWords),
    };
    match args.collect::<Vec<String>>(rt.alloc()) {
        Ok(words) => Ok(words),
        Err(_) => Err(Status::NoMemory),
    }
}

/// Keeps the files of the folder from the numbers of the standard streams, or gives the status where that can't be had.
fn standard_numbers(rt: &HostRuntime) -> Result<StandardNumbers, Status> {
    match hold_standard_numbers(rt) {
        Ok(held) => Ok(held),
        Err(DiskError::NoMemory) => Err(Status::NoMemory),
        Err(DiskError::Fault) => Err(Status::DiskFault),
    }
}

/// What comes before a run: the numbers of the standard streams, before all else, and the words.
fn begin(rt: &HostRuntime) -> Result<(StandardNumbers, Vec<String>), Status> {
    let held = standard_numbers(rt)?;
    Ok((held, words(rt)?))
}

fn main(rt: HostRuntime) -> ExitCode {
    let alloc = rt.alloc();
    let (_held, words) = match begin(&rt) {
        Ok(begun) => begun,
        Err(status) => return ExitCode::from(status.number()),
    };
    let disk = RealDisk::new(rt, alloc);
    let mut source = StdSource::new(rt.stdin());
    let mut sink = StdSink::new(rt.stdout());
    let annals = CountedAnnals::new();
    let done = run(
        &rt,
        alloc,
        &words,
        &mut source,
        &mut sink,
        disk,
        annals,
        &mut OpenGate,
    );
    ExitCode::from(done.status)
}
