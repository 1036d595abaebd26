// The functions that programs in C and Rust get: step calls on a table in four arrays, which its owner lends, a question to it, and whole schedule files,
// their reports, their numbers and their logs. `exports_c` exports them.
#![tactic(auto)]

ghost use Rattle.std.specs.Prelude.{◌≡◌, cond, map, length};
ghost use Rattle.simulation.specs.Calls.{Buffer, Panel, Bytes, Records};
ghost use Rattle.transition.specs.Questions.{Tells};
ghost use Rattle.transition.specs.Sequences.{Steps};
ghost use Rattle.moves.specs.Moves.{called, final_number, told_number, told_count};
ghost use Rattle.arrays.specs.Arrays.{arrays};
ghost use Rattle.arrays.specs.Form.{lent};
ghost use Rattle.engine.specs.Clauses.{record_of};
ghost use Rattle.file.specs.Clauses.{ReportsFile};
ghost use Rattle.logs.specs.Files.{told_yes};
ghost use Rattle.numbering.specs.Files.{NumbersFile};
ghost use Rattle.exports.specs.Clauses.{Starts, TellsOfLog};

use arrays::{Control, Jobs, Labels, Results};
use file::FileReply;
use moves::{Refusal, number_of};

// What a caller is told: the documents' number, 0 if the call is served, and how many bytes or records of report, or numbers, were written.
#[repr(C)]
#[derive(Clone, Copy)]
pub struct Answer {
    pub refusal: u64,
    pub written: u64,
}

impl From<Result<usize, Refusal>> for Answer {
    ghost from_gives = { λ reply answer. (answer.refusal ≡ told_number reply) × (answer.written ≡ told_count reply) };

    fn from(reply: Result<usize, Refusal>) -> Answer {
        Answer {
            refusal: number_of(reply.err()),
            written: reply.unwrap_or(0) as u64,
        }
    }
}

// Writes the fresh table of n stations over what is lent. 1 is returned for a number of stations that is not 2 to 32, and nothing changes.
pub fn tickets_fresh(
    n: u64,
    labels: &mut Labels,
    jobs: &mut Jobs,
    control: &mut Control,
    results: &mut Results,
) -> u64
    ensures { Starts n (arrays n labels.old jobs.old control.old results.old)
        (arrays n labels.new jobs.new control.new results.new) result }
{
    if !(2..=32).contains(&n) {
        return Refusal::StationCount.into();
    }
    arrays::refresh(n as usize, labels, jobs, control, results);
    0
}

// A step call. 13 is judged first, on all that is lent; a refused call changes nothing.
pub fn tickets_step(
    count: u64,
    labels: &mut Labels,
    jobs: &mut Jobs,
    control: &mut Control,
    results: &mut Results,
    code: u64,
    station: u64,
    job: u64,
    report: &mut [u8],
) -> Answer
    ensures { Steps lent (arrays count labels.old jobs.old control.old results.old)
        (called 0 code station job (Buffer (length report.old))) (Bytes report.old)
        (arrays count labels.new jobs.new control.new results.new)
        result.refusal result.written (Bytes report.new) }
{
    let request = moves::direct(code, station, job);
    engine::step(count, request, labels, jobs, control, results, report).into()
}

// A step call with a panel in place of the report buffer; a record is place, station and job. `written` counts records.
pub fn tickets_step_panel(
    count: u64,
    labels: &mut Labels,
    jobs: &mut Jobs,
    control: &mut Control,
    results: &mut Results,
    code: u64,
    station: u64,
    job: u64,
    panel: &mut [[u32; 3]],
) -> Answer
    ensures { Steps lent (arrays count labels.old jobs.old control.old results.old)
        (called 0 code station job (Panel (length panel.old))) (Records (map record_of panel.old))
        (arrays count labels.new jobs.new control.new results.new)
        result.refusal result.written (Records (map record_of panel.new)) }
{
    let request = moves::direct(code, station, job);
    engine::step_shown(count, request, labels, jobs, control, results, panel).into()
}

// What is told of a table: the documents' number, 0 if it is well-formed, and how many stations have the newest's label. The C interface has a struct of its
// own for it.
#[repr(C)]
#[derive(Clone, Copy)]
pub struct Holders {
    pub refusal: u64,
    pub stations: u64,
}

impl From<Result<usize, Refusal>> for Holders {
    ghost from_gives = { λ told holders. (holders.refusal ≡ told_number told) × (holders.stations ≡ told_count told) };

    fn from(told: Result<usize, Refusal>) -> Holders {
        Holders {
            refusal: number_of(told.err()),
            stations: told.unwrap_or(0) as u64,
        }
    }
}

// How many stations have the newest's label: a question, which changes nothing. 13 is judged on all that is lent, and counts none.
pub fn tickets_top_holders(
    count: u64,
    labels: &Labels,
    jobs: &Jobs,
    control: &Control,
    results: &Results,
) -> Holders
    ensures tells { Tells lent (arrays count labels.now jobs.now control.now results.now)
        result.refusal result.stations }
    ensures results_value { arrays count labels.exit.now jobs.exit.now control.exit.now results.exit.now
        ≡ arrays count labels.entry.now jobs.entry.now control.entry.now results.entry.now }
{
    engine::top_holders(count, labels, jobs, control, results).into()
}

// What is told of the report of a file: 7 if it does not fit, else 0; the final refusal of the file, 0 if it has none; how many bytes were written, none with
// 7; and how long the report is.
#[repr(C)]
#[derive(Clone, Copy)]
pub struct Reported {
    pub refusal: u64,
    pub ended: u64,
    pub written: u64,
    pub length: u64,
}

impl From<FileReply> for Reported {
    ghost from_gives = { λ whole told. (told.refusal ≡ told_number whole.reply) × (told.ended ≡ final_number whole.ended)
        × (told.written ≡ told_count whole.reply) × (told.length ≡ whole.length) };

    fn from(whole: FileReply) -> Reported {
        Reported {
            refusal: number_of(whole.reply.err()),
            ended: number_of(whole.ended),
            written: whole.reply.unwrap_or(0) as u64,
            length: whole.length as u64,
        }
    }
}

// Writes the report of a whole schedule file; 7, and nothing is written, if it does not fit.
pub fn tickets_report(schedule: &[u8], report: &mut [u8]) -> Reported
    ensures { ReportsFile schedule.now report.old result.refusal result.ended result.written result.length report.new }
{
    file::report(schedule, report).into()
}

// Writes the numbers of a whole schedule file to the front of a list, one for each accepted snap for a label; `written` counts them. A refusal is answered
// before any step is run, and the list is whole then.
pub fn tickets_numbers(schedule: &[u8], numbers: &mut [u32]) -> Answer
    ensures { NumbersFile schedule.now numbers.old result.refusal result.written numbers.new }
{
    numbering::numbers(schedule, numbers).into()
}

// What is told of a log: the documents' number, 0 if its schedule is served; and 1 if the log is right, else 0.
#[repr(C)]
#[derive(Clone, Copy)]
pub struct Verdict {
    pub refusal: u64,
    pub right: u64,
}

impl From<Result<bool, Refusal>> for Verdict {
    ghost from_gives = { λ told verdict. (verdict.refusal ≡ told_number told) × (verdict.right ≡ cond (told_yes told) 1 0) };

    fn from(told: Result<bool, Refusal>) -> Verdict {
        Verdict {
            refusal: number_of(told.err()),
            right: u64::from(told.unwrap_or(false)),
        }
    }
}

// Checks the log of a whole schedule file, its numbers and its report, against the unbounded table. A refusal is answered before any step is run.
pub fn tickets_check_log(schedule: &[u8], numbers: &[u64], report: &[u8]) -> Verdict
    ensures { TellsOfLog schedule.now numbers.now report.now result.refusal result.right }
{
    logs::check(schedule, numbers, report).into()
}
