//! The command line.
ghost use Rattle.std.specs.Prelude.{◌≡◌, codes, map, is_some, true, false, Some, None, IfOk, IfErr, IfSome, IfNone};
ghost use Rattle.std.specs.String.{string_bytes};
ghost use Rattle.clap.specs.declared.parser.matches.ArgMatches.{ArgMatches};
ghost use Rattle.clap.specs.Words.{IsParsedFrom, IsPlainArg, app_of, first_value, found_of, kind_of, one_text, rule_of};
ghost use Rattle.clap.specs.Built.{TakesValue};
ghost use Rattle.cord_shell.specs.CommandLine.{command, flag_rule, is_given};
ghost use Rattle.cord_shell.specs.inner.CommandLine.{IsNoRequest, IsRequest};
ghost use Rattle.cord_shell.specs.inner.CommandLine.{IsKindOf};
ghost use Rattle.cord_shell.specs.CommandLine.{script_rule};

use clap::error::ErrorKind;
use clap::{Arg, ArgAction, ArgMatches, Command, Error};
use std::alloc::{AllocError, Global};

/// What is asked of the program.
#[derive(Drop)]
pub struct Request<'a> {
    /// The path of the script.
    pub script: &'a str,
    /// The plan is the trivial one.
    pub unplanned: bool,
    /// The plan is printed, and nothing is run.
    pub show_plan: bool,
}

/// Why the words are no request.
#[derive(Drop)]
pub enum NoRequest {
    /// They ask for help, which is this text.
    Help(String),
    /// They are not the program's.
    Refused,
    /// Memory was refused.
    NoMemory,
}

// What the help ends with.
const AFTER_HELP: &str = "\
Status: 0 the script ran to its end, 1 a fault, 2 the script or the command line is refused,
        3 no memory, 4 a file can't be read, 5 the output can't be written.
Manual: man cordsh, and share/doc/zomtsje/docs/SCRIPTS.md where it was installed.";

// A flag, with a text on what it does.
fn flag<'a>(alloc: Global, name: &'a str, help: &'a str) -> Arg<'a>
    ensures rule { rule_of result ≡ flag_rule name.now }
    ensures plain { IsPlainArg result }
    ensures local { result.global ≡ false }
{
    Arg::new(alloc, name)
        .long(name)
        .action(ArgAction::SetTrue)
        .help(help)
}

// The word that has to be there.
fn script_word<'a>(alloc: Global) -> Arg<'a>
    ensures rule { rule_of result ≡ script_rule }
    ensures plain { IsPlainArg result }
    ensures local { result.global ≡ false }
    ensures value { TakesValue result }
{
    Arg::new(alloc, "SCRIPT")
        .action(ArgAction::Set)
        .required(true)
        .help("The path of the script")
}

// The program's command.
fn program_command<'a>(alloc: Global) -> Result<Command<'a>, AllocError>
    ensures command { IfOk result (λ c. app_of c ≡ command) }
    // Where it takes the words, it finds the script's path.
    ensures required { IfOk result (λ c. (m : ArgMatches) → IsParsedFrom c m →
        is_some (first_value (found_of m) (codes "SCRIPT")) ≡ true) }
{
    let unplanned = flag(alloc, "unplanned", "Run the statements as they stand");
    let show_plan = flag(alloc, "show-plan", "Write the plan, and run nothing");
    let script = script_word(alloc);
    let bare = Command::new(alloc, "cordsh")
        .no_binary_name(true)
        .after_help(AFTER_HELP);
    bare.arg(unplanned)?.arg(show_plan)?.arg(script)
}

// Whether a flag was given.
fn is_set(matches: &ArgMatches<'_>, flag: &str) -> bool
    ensures { result ≡ is_given (one_text (found_of matches.now) flag.now) }
{
    matches.get_one::<bool>(flag).unwrap_or(false)
}

// The request that clap's matches are.
fn request_of<'a>(matches: &ArgMatches<'a>) -> Option<Request<'a>>
    ensures script { IfSome result (λ r. first_value (found_of matches.now) (codes "SCRIPT") ≡ Some r.script.now) }
    ensures unplanned { IfSome result (λ r. r.unplanned
        ≡ is_given (one_text (found_of matches.now) (codes "unplanned"))) }
    ensures show_plan { IfSome result (λ r. r.show_plan
        ≡ is_given (one_text (found_of matches.now) (codes "show-plan"))) }
    ensures none { IfNone result (first_value (found_of matches.now) (codes "SCRIPT") ≡ None) }
{
    Some(Request {
        script: matches.get_str("SCRIPT")?,
        unplanned: is_set(matches, "unplanned"),
        show_plan: is_set(matches, "show-plan"),
    })
}

// What clap's error comes to.
fn no_request(alloc: Global, error: &Error) -> NoRequest
    ensures { IsKindOf (kind_of error.now) result }
{
    match error.kind() {
        ErrorKind::OutOfMemory => NoRequest::NoMemory,
        ErrorKind::DisplayHelp => match format!(in alloc; "{error}") {
            Ok(text) => NoRequest::Help(text),
            Err(_) => NoRequest::NoMemory,
        },
        _ => NoRequest::Refused,
    }
}

/// What the words after the program's name ask for, as clap reads them.
pub fn read_words<'a>(alloc: Global, words: &'a [String]) -> Result<Request<'a>, NoRequest>
    ensures request { IfOk result (IsRequest (map string_bytes words.now)) }
    ensures none { IfErr result (IsNoRequest (map string_bytes words.now)) }
{
    let Ok(command) = program_command(alloc) else {
        return Err(NoRequest::NoMemory);
    };
    match command.try_get_matches_from(words) {
        Ok(matches) => request_of(&matches).ok_or(NoRequest::Refused),
        Err(error) => Err(no_request(alloc, &error)),
    }
}
