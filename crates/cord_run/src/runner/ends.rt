// The end of a run: what it is, how the output is ended, and which end is reported.
ghost use Rattle.std.specs.Prelude.{◌≡◌};
ghost use Rattle.cord_io.specs.SinkCounts.{sink_counts};
ghost use Rattle.cord_run.specs.inner.{Closes, end_of_run};

use crate::stops::{Stop, StopAt};
use cord_io::Sink;
use cord_meaning::End;

/// The end that a run of operations is.
pub(crate) fn end_of_run(run: Result<(), StopAt>) -> End
    ensures { result ≡ end_of_run run }
{
    match run {
        Ok(()) => End::Done,
        Err(stop_at) => match stop_at.reason {
            Stop::Fault(kind) => End::Fault(stop_at.line, kind),
            Stop::NoMemory => End::NoMemory(stop_at.line),
            Stop::ReadFailed => End::ReadFailed(stop_at.line),
            Stop::WriteFailed => End::WriteFailed(stop_at.line),
        },
    }
}

/// Ends the output of a run by one `finish`, unless writing failed, and answers the end that is reported: the run's
/// own, or `WriteFailed(0)` where all was put and the sink couldn't finish.
pub(crate) fn close_output<S: Sink>(own: End, sink: &mut S) -> End
    ensures taken { S.taken sink.new ≡ S.taken sink.old }
    ensures puts { S.failed_puts sink.new ≡ S.failed_puts sink.old }
    ensures closes { Closes (sink_counts ⟦<S as Sink>⟧ sink.old sink.new) own result }
{
    match own {
        End::WriteFailed(_) => own,
        End::ReadFailed(_) | End::NoMemory(_) => {
            let _ = sink.finish();
            own
        }
        End::Done | End::Fault(_, _) => match sink.finish() {
            Ok(()) => own,
            Err(_) => End::WriteFailed(0),
        },
    }
}
