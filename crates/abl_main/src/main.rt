//! The program `abl DATABASE COMMAND...`: gives the top call the arguments, the real files, the disk of
//! the three files of DATABASE and the real streams, and ends with its status.
#![tactic(auto)]

mod arguments;
mod database_files;
mod explain;
mod real_files;
mod real_out;

use abl_cli::run_abl;
use arguments::{arguments, database_in};
use command_help::HELP;
use database_files::explain_files;
use disk_files::DiskFiles;
use explain::{explain, list_pages, print};
use host_io::OpenGate;
use real_files::RealFiles;
use real_out::RealOut;
use std::io;
use std::process::ExitCode;

/// The line on standard error where there is no memory for the arguments.
const NO_MEMORY: &str = "abl: no memory\n";

const VERSION: &str = "abl 0.1.0\n";

fn main(rt: HostRuntime) -> io::Result<ExitCode> {
    let Ok(arguments) = arguments(&rt) else {
        let _ = rt.stderr().write_all(NO_MEMORY.as_bytes());
        return Ok(ExitCode::from(7));
    };
    match arguments.as_slice() {
        [argument] if argument.as_slice() == b"--help".as_slice() => {
            return Ok(ExitCode::from(print(&mut rt.stdout(), &mut rt.stderr(), HELP)));
        }
        [argument] if argument.as_slice() == b"--version".as_slice() => {
            return Ok(ExitCode::from(print(&mut rt.stdout(), &mut rt.stderr(), VERSION)));
        }
        [argument] if argument.as_slice() == b"--explain".as_slice() => {
            return Ok(ExitCode::from(list_pages(&mut rt.stdout(), &mut rt.stderr())));
        }
        [argument, name] if argument.as_slice() == b"--explain".as_slice() => {
            return Ok(ExitCode::from(explain(&mut rt.stdout(), &mut rt.stderr(), name.as_slice())));
        }
        _ => {}
    }
    let Ok(disk) = DiskFiles::new(&rt, rt.alloc(), database_in(&arguments)) else {
        let _ = rt.stderr().write_all(NO_MEMORY.as_bytes());
        return Ok(ExitCode::from(7));
    };
    let mut files = RealFiles::new(&rt, rt.alloc());
    let mut out = RealOut::new(rt.stdout(), rt.stderr());
    let after_database = arguments.get(1..).unwrap_or(&[]);
    let outcome = run_abl(
        &rt,
        rt.alloc(),
        after_database,
        &mut files,
        disk,
        &mut out,
        &OpenGate,
    );
    let status = outcome.report.status;
    explain_files(
        rt.alloc(),
        &mut rt.stderr(),
        status,
        after_database,
        &outcome.disk,
    );
    Ok(ExitCode::from(status))
}
