//! Explanations of a configuration, for people: its faults and where they are, or its risks.
//!
//! It opens no file and prints nothing: the bytes of the configuration are an argument, and texts are those of values
//! (`Display`). `srt_config` decides whether it is valid, and lists its faults with their parts; here each gets its value, what is
//! allowed instead, and a hint.
//!
//! Types: `Explained`, a valid configuration and its `Warning`s; `Faults`, an `Explanation` for each fault, with its place
//! (`Part`, `RouteAt`, `TextPlace`), its value and a `Hint`; `WarningText`, a warning with what it is printed with.
//!
//! Calls: `explain` on the bytes of a configuration's file, and `Explained::warn_of_mode` with the file's mode. `srtgw` prints the
//! result, a line each.
//!
//! Files: `explaining.rt` joins the others; `others.rt` explains the faults after the first, and `misspelled.rt` leaves those out that
//! a misspelled key tells already; `hints.rt` and `resemblance.rt` find what may have been meant; `values.rt` reads the table at the
//! fault; `places.rt` counts lines and columns, and `lines.rt` finds the lines of keys; `fault_texts.rt` has the words of faults and
//! `fault_lines.rt` their lines, `texts.rt` the words of warnings; `warnings.rt` the risks, `grouping.rt` which of them are told, and
//! `file_mode.rt` the one of the file; `laws.rt` relates the definitions to `srt_route`, and states that warnings tell no secret.
#![tactic(auto)]

mod explaining;
mod explanation;
mod fault_lines;
mod fault_texts;
mod file_mode;
mod grouping;
mod hints;
pub mod laws;
mod lines;
mod misspelled;
mod others;
mod places;
mod resemblance;
#[cfg(test)]
mod tests;
mod texts;
mod values;
mod warnings;

pub use explaining::{Explained, explain};
pub use explanation::{Explanation, Faults, Hint, Part, RouteAt};
pub use fault_lines::FaultLines;
pub use grouping::RouteRisk;
pub use places::TextPlace;
pub use warnings::{Warning, WarningText};
