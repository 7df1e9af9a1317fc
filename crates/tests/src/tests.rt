//! What each call answers, case by case; what is read, planned and run; and calls of all crates that are refused
//! memory.

// The value of a call, which is made again where it was refused memory.
macro_rules! again {
    ($rt:expr, $call:expr) => {
        match $call {
            Ok(value) => value,
            Err(_) => $call.expect($rt, "memory"),
        }
    };
}

mod balance;
mod byte_source;
mod calls;
mod cases;
mod cords;
mod depths;
mod devices;
mod extensible;
mod faults;
mod files;
mod formats;
mod gaps;
mod iteration;
mod lines;
mod made;
mod marks;
mod nodes;
mod plans;
mod positions;
mod puts;
mod raw;
mod refused;
mod runs;
mod search;
mod sharing;
mod shell;
mod texts;
mod trees;
