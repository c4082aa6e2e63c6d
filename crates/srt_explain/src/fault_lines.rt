//! The lines of a configuration's faults, as a command prints them.

ghost use Rattle.std.specs.Prelude.{Some};
ghost use Rattle.std.specs.Fmt.{DisplaysOnOk};
ghost use Rattle.srt_explain.specs.FaultLines.{fault_line, fault_lines, more_line, all_lines};

use crate::explanation::{Explanation, Faults};
use std::fmt;

/// The lines of a configuration's faults, with the path of its file. Their text is a line for each fault that is explained, and
/// one more if there are others, each with its end.
#[derive(Clone, Copy)]
pub struct FaultLines<'a> {
    /// The path.
    pub path: &'a str,
    /// The faults.
    pub faults: &'a Faults,
}

/// The line of one fault.
#[derive(Clone, Copy)]
struct FaultLine<'a> {
    path: &'a str,
    fault: &'a Explanation,
}

impl fmt::Display for FaultLine<'_> {
    ghost output = { λ x. fault_line x.path.now x.fault.now };

    fn fmt<W: fmt::Write>(&self, f: &mut fmt::Formatter<W>) -> fmt::Result {
        let (path, fault) = (self.path, self.fault);
        write!(f, "srtgw: {path}: {fault}\n")
    }
}

/// The lines of several faults.
#[derive(Clone, Copy)]
struct NextLines<'a> {
    path: &'a str,
    faults: &'a [Explanation],
}

impl fmt::Display for NextLines<'_> {
    ghost output = { λ x. fault_lines x.path.now x.faults.now };

    fn fmt<W: fmt::Write>(&self, f: &mut fmt::Formatter<W>) -> fmt::Result {
        let (path, faults) = (self.path, self.faults);
        for fault in faults {
            let line = FaultLine { path, fault };
            write!(f, "{line}")?;
        }
        Ok(())
    }
}

/// The line that counts the faults that aren't explained.
#[derive(Clone, Copy)]
struct MoreLine<'a> {
    path: &'a str,
    more: usize,
}

impl fmt::Display for MoreLine<'_> {
    ghost output = { λ x. Some (more_line x.path.now x.more) };

    fn fmt<W: fmt::Write>(&self, f: &mut fmt::Formatter<W>) -> fmt::Result {
        let (path, more) = (self.path, self.more);
        if more == 0 {
            return f.write_str("");
        }
        write!(f, "srtgw: {path}: and {more} more\n")
    }
}

impl fmt::Display for FaultLines<'_> {
    ghost output = { λ x. all_lines x.path.now x.faults.now };

    fn fmt<W: fmt::Write>(&self, f: &mut fmt::Formatter<W>) -> fmt::Result {
        let (path, faults) = (self.path, self.faults);
        let first = FaultLine {
            path,
            fault: &faults.first,
        };
        let next = NextLines {
            path,
            faults: faults.others.as_slice(),
        };
        let more = MoreLine {
            path,
            more: faults.more,
        };
        write!(f, "{first}{next}{more}")
    }
}
