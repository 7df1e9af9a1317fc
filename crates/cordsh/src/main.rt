//! Runs scripts of cord statements: `cordsh [--unplanned] [--show-plan] SCRIPT`.
#![tactic(auto)]

ghost use Rattle.std.specs.Prelude.{◌≡◌, ◌⊎◌, IfErr};
ghost use Rattle.cord_shell.specs.declared.outcome.Outcome.TheVariants.{BadCommandLine, NoMemory};

use cord_io::StdSink;
use cord_shell::{Outcome, report, run_on_machine};
use std::env;
use std::io::{BufWriter, ErrorKind};
use std::process::ExitCode;

// The bytes of output that are kept before they are written.
const OUTPUT_BUFFER: usize = 65_536;

// The words after the program's name.
fn words_of(rt: &HostRuntime) -> Result<Vec<String>, Outcome>
    ensures refused { IfErr result (λ outcome. (outcome ≡ BadCommandLine) ⊎ (outcome ≡ NoMemory)) }
{
    let mut words = match env::args(rt) {
        Ok(words) => words,
        Err(error) => {
            return Err(match error.kind() {
                ErrorKind::OutOfMemory => Outcome::NoMemory,
                _ => Outcome::BadCommandLine,
            });
        }
    };
    let _ = words.next();
    match words.collect(rt.alloc()) {
        Ok(words) => Ok(words),
        Err(_) => Err(Outcome::NoMemory),
    }
}

// Runs the program over the machine's files and streams.
fn run(rt: &HostRuntime) -> Result<u8, Outcome> {
    let alloc = rt.alloc();
    let words = words_of(rt)?;
    let Ok(runtime) = rt.clone() else {
        return Err(Outcome::NoMemory);
    };
    let Ok(buffered) = BufWriter::with_capacity(alloc, OUTPUT_BUFFER, rt.stdout()) else {
        return Err(Outcome::NoMemory);
    };
    let ran = run_on_machine(runtime, alloc, &words, buffered, rt.stderr());
    Ok(ran.status)
}

fn main(rt: HostRuntime) -> ExitCode {
    match run(&rt) {
        Ok(status) => ExitCode::from(status),
        Err(outcome) => {
            report(&outcome, &mut StdSink::new(rt.stderr()));
            ExitCode::from(outcome.status())
        }
    }
}
