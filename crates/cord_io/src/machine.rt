// The machine that opens files.
ghost use Rattle.std.specs.Prelude.{◌≡◌, ◌≢◌, ◌↔◌, ◌∷◌, [], IfErr, OnOk};
ghost use Rattle.std.specs.IoError.{error_kind};
ghost use Rattle.cord_io.specs.Reported.{is_missing};
ghost use Rattle.cord_io.specs.inner.Missing.{after_finding};

use crate::OpenFault;
use crate::trace::{Answer, Trace};
use std::io::{self, ErrorKind};
use std::{fs, rt};

// The machine, and the paths at which it reported that no file is, which only proofs read.
#[derive(Drop)]
pub(crate) struct Machine<R> {
    runtime: R,
    pub(crate) trace: Trace,
}

// Why a file wasn't opened: only the machine's "no such file" is `NotFound`.
fn fault_of(error: &io::Error) -> OpenFault
    ensures { (result ≡ OpenFault.NotFound) ↔ (error_kind error.now ≡ ErrorKind.NotFound) }
{
    match error.kind() {
        ErrorKind::NotFound => OpenFault::NotFound,
        _ => OpenFault::Failed,
    }
}

impl<R: rt::Files> Machine<R> {
    // A machine that was asked nothing.
    pub(crate) fn new(runtime: R) -> Self
        ensures { result.trace.reported ≡ [] }
    {
        Machine {
            runtime,
            trace: Trace::new(),
        }
    }

    // Asks the machine for the file at a path.
    fn ask(&mut self, path: &str) -> io::Result<R::File>
        ensures found { OnOk result (self.new.trace.reported ≡ self.old.trace.reported) }
        ensures missing { IfErr result (λ e. error_kind e ≡ ErrorKind.NotFound →
            self.new.trace.reported ≡ is_missing path.now ∷ self.old.trace.reported) }
        ensures failed { IfErr result (λ e. error_kind e ≢ ErrorKind.NotFound →
            self.new.trace.reported ≡ self.old.trace.reported) }
    {
        let answer = fs::open(&self.runtime, path);
        if let Err(error) = &answer {
            match error.kind() {
                ErrorKind::NotFound => self.trace = self.trace.then(&Answer::Missing(path)),
                _ => {}
            }
        }
        answer
    }

    // Opens the file at a path.
    pub(crate) fn open(&mut self, path: &str) -> Result<R::File, OpenFault>
        ensures { self.new.trace.reported ≡ after_finding path.now result self.old.trace.reported }
    {
        match self.ask(path) {
            Ok(file) => Ok(file),
            Err(error) => Err(fault_of(&error)),
        }
    }
}
