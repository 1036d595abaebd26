// Logs of schedule files (document 02, Card 7: the old books): the numbers and the report of a log held against the unbounded table, which is fed with them.
// The report comes part by part.
#![tactic(auto)]

ghost use Rattle.std.specs.Prelude.{◌≡◌, ◌≤◌, length, take, drop};
ghost use Rattle.simulation.specs.Calls.{Buffer};
ghost use Rattle.transition.specs.Forms.{over};
ghost use Rattle.transition.specs.Logs.{at_front};
ghost use Rattle.moves.specs.Moves.{told_number, call_of};
ghost use Rattle.schedule.specs.Files.{printed};
ghost use Rattle.unbounded.specs.Tables.{numbers_in, Runnableᵘ};
ghost use Rattle.logs.specs.Clauses.{RunsCall, placed_at, Checking, FeedsReport, Finishes, Begins, BeginsFile};
ghost use Rattle.logs.specs.Files.{ChecksLog, told_yes, answer_bytes};

use arrays::OrderedTable;
use moves::{Refusal, Request};
use unbounded::NumberParts;

// The most bytes that a step writes: 32 report lines of 29.
pub const ROOM: usize = 928;

// Whether these bytes stand in a part of the report from a place on.
fn comes_next(part: &[u8], at: usize, bytes: &[u8]) -> bool
    requires { at ≤ length part.now }
    ensures { result ≡ at_front bytes.now (drop at part.now) }
{
    let k = bytes.len();
    if part.len() - at < k {
        return false;
    }
    let mut same = true;
    for i in 0..k {
        same &= bytes[i] == part[at + i];
    }
    same
}

// What a step line comes to whose number fits: how many numbers are used up then, and how many bytes the line writes.
#[derive(Clone, Copy)]
struct Ran {
    used: usize,
    written: usize,
}

// Serves a step line on the unbounded table with the next number of the log, if that fits, and writes its report lines to the front of a buffer.
fn run_line(
    request: Request,
    log: &[u64],
    used: usize,
    table: &mut OrderedTable<NumberParts>,
    lines: &mut [u8],
) -> Option<Ran>
    requires fact { Runnableᵘ (numbers_in table.old) table.old.order }
    requires used_in_bounds { used ≤ length log.now }
    requires lines_len { length lines.old ≡ 928 }
    ensures runs_call { RunsCall (numbers_in table.old) (call_of request (Buffer 928)) log.now used (numbers_in table.new) lines.new result }
    ensures fact_2 { Runnableᵘ (numbers_in table.new) table.new.order }
{
    let turn = unbounded::take_turn(request, log, used, table)?;
    let used = turn.used;
    match turn.handed {
        Err(_) => Some(Ran { used, written: 0 }),
        Ok(handed) => {
            let rows = &table.parts.results[handed.place];
            let written = engine::write_result(rows, handed.entries, request.line, lines);
            Some(Ran { used, written })
        }
    }
}

// How far the check of a log is, beside the table that is run: whether all is right so far; how many numbers there are, and how many of them are used up; the
// place in the schedule, behind so many lines; and how many bytes the last step wrote to a buffer, and how many of these the report has shown.
// All else is kept true whether the log is right so far or not, so `right` stands beside it.
#[derive(Clone, Copy)]
pub struct Progress {
    pub right: bool,
    pub count: usize,
    pub used: usize,
    pub lines: u32,
    pub at: usize,
    pub written: usize,
    pub shown: usize,
}

// The check of a log goes on from a place.
fn place(
    check: Progress,
    right: bool,
    used: usize,
    lines: u32,
    at: usize,
    written: usize,
    shown: usize,
) -> Progress
    ensures { result ≡ placed_at check right used lines at written shown }
{
    Progress {
        right,
        used,
        lines,
        at,
        written,
        shown,
        ..check
    }
}

// Holds the next part of the report against what the steps write: those of the schedule are run as far as the part shows what they write, and on to the next
// that writes something.
pub fn feed(
    check: Progress,
    file: &[u8],
    list: &[u64],
    part: &[u8],
    table: &mut OrderedTable<NumberParts>,
    lines: &mut [u8],
) -> Progress
    requires { Checking check (numbers_in table.old) table.old.order file.now list.now lines.old }
    ensures feeds_report { FeedsReport check (numbers_in table.old) file.now list.now lines.old part.now result (numbers_in table.new) lines.new }
    ensures checking { Checking result (numbers_in table.new) table.new.order file.now list.now lines.new }
{
    if !check.right {
        return check;
    }
    let log = &list[..check.count];
    let mut used = check.used;
    let mut counted = check.lines;
    let mut at = check.at;
    let mut written = check.written;
    let mut shown = check.shown;
    let mut read = 0;
    // The steps decide how far each turn goes, so no range counts the places.
    loop {
        if shown < written {
            let k = (written - shown).min(part.len() - read);
            if k == 0 {
                return place(check, true, used, counted, at, written, shown);
            }
            if !comes_next(part, read, &lines[shown..shown + k]) {
                return place(check, false, used, counted, at, written, shown);
            }
            shown += k;
            read += k;
        } else {
            match schedule::next_call(counted, file, at) {
                Ok(None) => {
                    let all = read == part.len();
                    return place(check, all, used, counted, at, written, shown);
                }
                Err(_) => {
                    let all = read == part.len();
                    return place(check, all, used, counted, at, written, shown);
                }
                Ok(Some(request)) => match run_line(request, log, used, table, lines) {
                    None => return place(check, false, used, counted, at, written, shown),
                    Some(ran) => {
                        used = ran.used;
                        counted += 1;
                        at += 18;
                        written = ran.written;
                        shown = 0;
                    }
                },
            }
        }
    }
}

// Whether a log is right whose report ends here.
pub fn finish(check: Progress) -> bool
    ensures { Finishes check result }
{
    check.right & (check.used == check.count) & (check.shown == check.written)
}

// Starts the check of the log of a schedule file with the first `count` numbers of a list; if they are not whole, the log is not right. The schedule is refused
// before any step is run.
fn begin(
    file: &[u8],
    list: &[u64],
    count: usize,
    whole: bool,
) -> Result<(Progress, OrderedTable<NumberParts>), Refusal>
    requires { count ≤ length list.now }
    ensures { Begins file.now (take count list.now) whole list.now result }
{
    let header = schedule::line_at(file, 0);
    let n = schedule::read_header(header)?;
    let rest = schedule::from(file, header.len());
    if let Some(refusal) = schedule::refusal_of(schedule::survey_lines(1, rest)) {
        return Err(refusal);
    }
    let check = Progress {
        right: whole,
        count,
        used: 0,
        lines: 1,
        at: header.len(),
        written: 0,
        shown: 0,
    };
    Ok((check, unbounded::fresh(n)))
}

// Starts the check of a log in files: a schedule, and numbers that are printed each on a line of its own.
pub fn start(
    file: &[u8],
    bytes: &[u8],
    list: &mut [u64; 4096],
) -> Result<(Progress, OrderedTable<NumberParts>), Refusal>
    ensures { BeginsFile file.now bytes.now list.new result }
{
    let count = number_lines::read_numbers(bytes, list);
    let whole = count * 12 == bytes.len();
    begin(file, list, count, whole)
}

// Checks the log of a schedule file: its numbers, one for each accepted snap for a label, and its report. What is refused is refused before any step is run;
// else the answer is whether the log is right.
pub fn check(file: &[u8], log: &[u64], report: &[u8]) -> Result<bool, Refusal>
    ensures { ChecksLog file.now log.now report.now (told_number result) (told_yes result) }
{
    let (check, mut table) = begin(file, log, log.len(), true)?;
    let mut lines = [0u8; ROOM];
    let last = feed(check, file, log, report, &mut table, &mut lines);
    Ok(finish(last))
}

// Writes what is printed of a log to the front of `out`: yes or no on a line, or the refusal of its schedule; hands back its bytes.
pub fn print_verdict(verdict: Result<bool, Refusal>, out: &mut [u8]) -> usize
    requires { 29 ≤ length out.old }
    ensures value { result ≡ length (printed 0 (told_number verdict) (answer_bytes (told_yes verdict))) }
    ensures out_after { out.new ≡ over (printed 0 (told_number verdict) (answer_bytes (told_yes verdict))) out.old }
{
    match verdict {
        Err(refusal) => file::print_refusal(0, Some(refusal), out),
        Ok(true) => {
            out[0..4].copy_from_slice(b"yes\n");
            4
        }
        Ok(false) => {
            out[0..3].copy_from_slice(b"no\n");
            3
        }
    }
}
