//! Extensible cords, after `ec.h` of the Boehm collector's distribution: texts that grow at their end, by bytes that
//! are gathered to leaves and by cords that are shared.
#![tactic(auto)]

mod ext;

pub use ext::ExtCord;
