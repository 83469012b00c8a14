//! The program over the real devices: the directory of `--root`, standard input and output, and the
//! system's clock.
use crate::devices::{ReaderSource, SystemClock, SystemIds, WriterSink};
use depot_files::FileDepot;
use reg_replies::write_all;
use reg_run::{Ran, Status, USAGE, root, run_plain};
use std::alloc::Global;
use std::io::{self, ErrorKind};
use std::os::fd::AsRawFd;
use std::random::RandomSource;
use std::rt::{Clock, Files, Runtime};
use std::{env, fs};

/// Runs the program, and gives its exit status.
pub fn run<R: Runtime + AllocGlobal + RandomSource>(rt: &R) -> u8
where
    R::File: AsRawFd,
{
    match arguments_of(rt) {
        Ok(arguments) => match root(&arguments) {
            Some(root) => over_directory(rt, &arguments, root),
            None => tell(rt, USAGE, Status::Usage),
        },
        Err(error) if error.kind() == ErrorKind::OutOfMemory => tell(
            rt,
            NO_MEMORY,
            Status::NoMemory,
        ),
        Err(_) => tell(rt, USAGE, Status::Usage),
    }
}

const DEVICE_FAULT: &str = "device fault\n";

const NO_MEMORY: &str = "no memory\n";

// The arguments behind the program's name. One that is no UTF-8 is an error.
fn arguments_of<R: Runtime + AllocGlobal>(rt: &R) -> io::Result<Vec<String>> {
    let mut arguments = Vec::new(rt.alloc());
    for argument in env::args(rt)?.skip(1) {
        arguments.push(argument)?;
    }
    Ok(arguments)
}

fn over_directory<R: Runtime + AllocGlobal + RandomSource>(
    rt: &R,
    arguments: &[String],
    root: &str,
) -> u8
where
    R::File: AsRawFd,
{
    match open_behind_streams(rt, root) {
        Ok((_streams, depot)) => over_depot(rt, arguments, depot),
        Err(error) if error.kind() == ErrorKind::OutOfMemory => tell(
            rt,
            NO_MEMORY,
            Status::NoMemory,
        ),
        Err(_) => tell(rt, DEVICE_FAULT, Status::Fault),
    }
}

fn over_depot<R: Runtime + AllocGlobal + RandomSource>(
    rt: &R,
    arguments: &[String],
    depot: FileDepot<&R>,
) -> u8 {
    let mut input = ReaderSource::new(rt.reader());
    let mut out = WriterSink::new(io::writer(rt));
    let Ran { status, .. } = run_plain(
        rt.alloc(),
        arguments,
        depot,
        (),
        &mut SystemClock { rt },
        &mut SystemIds { rt },
        &mut input,
        &mut out,
    );
    status
}

// The depot of a directory, and what holds the descriptors of the standard streams for it.
fn open_behind_streams<'a, R: Files + AllocGlobal + Clock + RandomSource>(
    rt: &'a R,
    root: &str,
) -> io::Result<(Vec<R::File>, FileDepot<&'a R>)>
where
    R::File: AsRawFd,
{
    let streams = hold_streams(rt)?;
    Ok((streams, FileDepot::open(rt, root)?))
}

// Holds those of the descriptors 0 to 2 that are closed, so that no file of the depot gets one: what
// is written to standard output would go there. A folder gives no bytes and takes none, so that the
// stream still fails.
fn hold_streams<R: Files + AllocGlobal>(rt: &R) -> io::Result<Vec<R::File>>
where
    R::File: AsRawFd,
{
    let mut held = Vec::new(rt.alloc());
    for _ in 0..3 {
        let folder = fs::open(rt, "/")?;
        if folder.as_raw_fd() > LAST_STREAM {
            break;
        }
        held.push(folder)?;
    }
    Ok(held)
}

// The descriptor of standard error.
const LAST_STREAM: i32 = 2;

// Writes a line, and gives the exit status of a run that ends with it.
fn tell(rt: &impl Print, line: &str, status: Status) -> u8 {
    let _ = write_all(&mut WriterSink::new(io::writer(rt)), line.as_bytes());
    status.code()
}
