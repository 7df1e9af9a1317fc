//! What a script came to, and what the program reports of it.
ghost use Rattle.std.specs.Prelude.{◌≡◌, ◌≤◌, ◌∷◌, ◌++◌, [], codes, decimal, length, OnOk, OnErr};
ghost use Rattle.cord_io.specs.SinkCounts.{sink_counts};
ghost use Rattle.cord_shell.specs.Outcomes.{line_text, message_of, message_of_end, status_of_end};
ghost use Rattle.cord_shell.specs.inner.Outcomes.{outcome_of};
ghost use Rattle.cord_shell.specs.Outcomes.{status_of_outcome};
ghost use Rattle.cord_shell.specs.Reports.{IsCut, IsWritten, SaysMessage, Reports};

use arrayvec::ArrayString;
use cord_io::{Sink, WriteFault};
use cord_iter::put_all;
use cord_meaning::{End, FaultKind};
use cord_script::{Refusal, RefusalKind};
use itoa::Buffer;

/// What the program's words came to.
#[derive(Drop)]
pub enum Outcome {
    /// The script was read and run.
    Ended(End),
    /// The script was refused.
    Refused(Refusal),
    /// The script is not there.
    NoScript,
    /// The script could not be opened or read.
    Unreadable,
    /// Memory was refused before the run.
    NoMemory,
    /// The script was read, and its plan printed.
    PlanPrinted,
    /// The plan could not be written.
    PlanUnwritten,
    /// The help was printed.
    HelpPrinted,
    /// The help could not be written.
    HelpUnwritten,
    /// The words are not the program's.
    BadCommandLine,
}

impl Outcome {
    /// What a run of the script came to.
    pub(crate) fn of_run(answer: Result<End, Refusal>) -> Outcome
        ensures { result ≡ outcome_of answer }
    {
        match answer {
            Ok(end) => Outcome::Ended(end),
            Err(refusal) => Outcome::Refused(refusal),
        }
    }

    /// The exit status.
    pub fn status(&self) -> u8
        ensures { result ≡ status_of_outcome self.now }
    {
        match self {
            Outcome::Ended(end) => status_of_end(*end),
            Outcome::Refused(refusal) => match refusal.kind {
                RefusalKind::NoMemory => 3,
                _ => 2,
            },
            Outcome::NoScript => 2,
            Outcome::Unreadable => 4,
            Outcome::NoMemory => 3,
            Outcome::PlanPrinted | Outcome::HelpPrinted => 0,
            Outcome::PlanUnwritten | Outcome::HelpUnwritten => 5,
            Outcome::BadCommandLine => 2,
        }
    }
}

// The status of a run's end.
fn status_of_end(end: End) -> u8
    ensures { result ≡ status_of_end end }
{
    match end {
        End::Done => 0,
        End::Fault(_, _) => 1,
        End::NoMemory(_) => 3,
        End::ReadFailed(_) => 4,
        End::WriteFailed(_) => 5,
    }
}

// The greatest length of a message's text.
const MAX_TEXT: usize = 32;

// A line on `err`: at most 13 bytes, a number of at most 20 digits, 2 bytes, the text and byte 10.
type Message = ArrayString<68>;

// The message that names a line and what happened there.
fn message_at(line: u32, text: &str) -> Message
    requires { length text.now ≤ MAX_TEXT }
    ensures { result.bytes ≡ line_text line text.now }
{
    let mut digits = Buffer::new();
    let mut message = Message::new();
    message.push_str("cordsh: line ");
    message.push_str(digits.format(line));
    message.push_str(": ");
    message.push_str(text);
    message.push_str("\n");
    message
}

/// Hands a text over, and ends it. After a fault the sink has taken a prefix.
pub fn write_text<S: Sink>(text: &str, sink: &mut S) -> Result<(), WriteFault>
    ensures ok { OnOk result (IsWritten text.now (S.taken sink.old) (S.taken sink.new)
        (sink_counts ⟦<S as Sink>⟧ sink.old sink.new)) }
    ensures err { OnErr result (IsCut text.now (S.taken sink.old) (S.taken sink.new)
        (sink_counts ⟦<S as Sink>⟧ sink.old sink.new)) }
{
    put_all(text.as_bytes(), sink)?;
    sink.finish()
}

// Hands a message over. A fault changes nothing else.
fn put_message<T: Sink>(message: &str, err: &mut T)
    ensures { SaysMessage (T.taken err.old) (T.taken err.new)
        (sink_counts ⟦<T as Sink>⟧ err.old err.new) message.now }
{
    let _ = write_text(message, err);
}

fn put_message_at<T: Sink>(line: u32, text: &str, err: &mut T)
    requires { length text.now ≤ MAX_TEXT }
    ensures { SaysMessage (T.taken err.old) (T.taken err.new)
        (sink_counts ⟦<T as Sink>⟧ err.old err.new) (line_text line text.now) }
{
    let message = message_at(line, text);
    put_message(message.as_str(), err);
}

// Tells how a run went wrong.
fn report_end<T: Sink>(end: &End, err: &mut T)
    ensures { Reports (T.taken err.old) (T.taken err.new)
        (sink_counts ⟦<T as Sink>⟧ err.old err.new) (message_of_end end.now) }
{
    match end {
        End::Done => {}
        End::Fault(line, kind) => put_message_at(*line, kind.text(), err),
        End::NoMemory(line) => put_message_at(*line, "no memory", err),
        End::ReadFailed(line) => put_message_at(*line, "read failed", err),
        End::WriteFailed(line) => put_message_at(*line, "write failed", err),
    }
}

/// Tells what went wrong; where nothing did, nothing. A fault of `err` stops the message.
pub fn report<T: Sink>(outcome: &Outcome, err: &mut T)
    ensures { Reports (T.taken err.old) (T.taken err.new)
        (sink_counts ⟦<T as Sink>⟧ err.old err.new) (message_of outcome.now) }
{
    match outcome {
        Outcome::Ended(end) => report_end(end, err),
        Outcome::Refused(refusal) => put_message_at(refusal.line, refusal.kind.text(), err),
        Outcome::NoScript => put_message_at(0, FaultKind::NoFile.text(), err),
        Outcome::Unreadable => put_message_at(0, "read failed", err),
        Outcome::NoMemory => put_message_at(0, "no memory", err),
        Outcome::PlanPrinted | Outcome::HelpPrinted => {}
        Outcome::PlanUnwritten | Outcome::HelpUnwritten => put_message_at(0, "write failed", err),
        Outcome::BadCommandLine => put_message("cordsh: bad command line\n", err),
    }
}
