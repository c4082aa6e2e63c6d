//! What the program prints at the end of a run: the report, and the account of each route (docs/PROTOCOL.md).

ghost use Rattle.std.specs.Prelude.{◌≡◌, OnOk};
ghost use Rattle.std.specs.Io.KnownBytes.{Appends};
ghost use Rattle.srt_watch.specs.Routes.{name_of};
ghost use Rattle.srtgw.specs.Reports.{report_front, report_middle, report_rest, report_line};
ghost use Rattle.srtgw.specs.Reports.{account_front, account_rest, account_line, account_lines, end_lines};

use srt_host::HostWatcher;
use srt_mailbox::Account;
use srt_poller::Report;
use std::io::{self, Write};

/// Writes the first counts of a report: of what was read.
#[tactic(auto, unfolding(crate::specs::Reports::report_front))]
fn write_report_front<W: Write>(out: &mut W, report: &Report) -> io::Result<()>
    ensures { OnOk result (Appends (W.contents out.old) (W.contents out.new) (report_front report.now)) }
{
    let read = report.read;
    let answered = report.answered;
    let accepted = report.accepted;
    write!(out, "read {read} answered {answered} accepted {accepted}")
}

/// Writes the next ones: of what wasn't accepted. What was dropped is one count.
#[tactic(auto, unfolding(crate::specs::Reports::report_middle))]
fn write_report_middle<W: Write>(out: &mut W, report: &Report) -> io::Result<()>
    ensures { OnOk result (Appends (W.contents out.old) (W.contents out.new) (report_middle report.now)) }
{
    let full = report.full;
    let dropped = report.dropped;
    let memory = report.memory;
    write!(out, " full {full} dropped {dropped} memory {memory}")
}

/// Writes the last ones: of what was sent.
#[tactic(auto, unfolding(crate::specs::Reports::report_rest))]
fn write_report_rest<W: Write>(out: &mut W, report: &Report) -> io::Result<()>
    ensures { OnOk result (Appends (W.contents out.old) (W.contents out.new) (report_rest report.now)) }
{
    let sent = report.sent;
    let lost = report.lost;
    let faults = report.faults;
    writeln!(out, " sent {sent} lost {lost} faults {faults}")
}

/// Writes a report as one line: each count after its name.
#[tactic(auto, using(srt_offline::proofs::Written::appends_both))]
pub fn write_report<W: Write>(out: &mut W, report: &Report) -> io::Result<()>
    ensures { OnOk result (Appends (W.contents out.old) (W.contents out.new) (report_line report.now)) }
{
    write_report_front(out, report)?;
    write_report_middle(out, report)?;
    write_report_rest(out, report)
}

/// Writes the first counts of a route: of its inbox.
#[tactic(auto, unfolding(crate::specs::Reports::account_front))]
fn write_account_front<W: Write>(out: &mut W, name: &str, account: Account) -> io::Result<()>
    ensures { OnOk result (Appends (W.contents out.old) (W.contents out.new) (account_front name.now account)) }
{
    let taken = account.taken;
    let left = account.left;
    write!(out, "route {name} taken {taken} left {left}")
}

/// Writes the last ones: of its replies.
#[tactic(auto, unfolding(crate::specs::Reports::account_rest))]
fn write_account_rest<W: Write>(out: &mut W, account: Account) -> io::Result<()>
    ensures { OnOk result (Appends (W.contents out.old) (W.contents out.new) (account_rest account)) }
{
    let waiting = account.waiting;
    let queued = account.queued;
    let drained = account.drained;
    writeln!(out, " waiting {waiting} queued {queued} drained {drained}")
}

/// Writes the account of a route as one line, with its name.
#[tactic(auto, using(srt_offline::proofs::Written::appends_both))]
fn write_account<W: Write>(out: &mut W, name: &str, account: Account) -> io::Result<()>
    ensures { OnOk result (Appends (W.contents out.old) (W.contents out.new) (account_line name.now account)) }
{
    write_account_front(out, name, account)?;
    write_account_rest(out, account)
}

/// Writes the account of each route, a line each, in the order of the routes' indexes, with the names that the watcher has.
#[tactic(auto, using(srt_offline::proofs::Written::appends_none, crate::proofs::Lines::one_more_line))]
fn write_accounts<W: Write>(
    out: &mut W,
    watcher: &HostWatcher<'_>,
    accounts: &[Account],
) -> io::Result<()>
    ensures { OnOk result (Appends (W.contents out.old) (W.contents out.new) (account_lines (name_of watcher.now.routes) 0 accounts.now)) }
{
    for index in 0..accounts.len() {
        write_account(out, watcher.name_of(index), accounts[index])?;
    }
    Ok(())
}

/// Writes the report of a run and the account of each route.
#[tactic(auto, using(srt_offline::proofs::Written::appends_both))]
pub fn write_end<W: Write>(
    out: &mut W,
    watcher: &HostWatcher<'_>,
    report: &Report,
    accounts: &[Account],
) -> io::Result<()>
    ensures { OnOk result (Appends (W.contents out.old) (W.contents out.new) (end_lines (name_of watcher.now.routes) report.now accounts.now)) }
{
    write_report(out, report)?;
    write_accounts(out, watcher, accounts)
}
