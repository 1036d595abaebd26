// The static library: the functions of `exports` for programs in C and Rust, under the same names and with the same promises. A crate is a library or a static
// library, so that these stand in one of their own.
#![tactic(auto)]

ghost use Rattle.std.specs.Prelude.{◌≡◌, map, length};
ghost use Rattle.simulation.specs.Calls.{Buffer, Panel, Bytes, Records};
ghost use Rattle.transition.specs.Questions.{Tells};
ghost use Rattle.transition.specs.Sequences.{Steps};
ghost use Rattle.moves.specs.Moves.{called};
ghost use Rattle.arrays.specs.Arrays.{arrays};
ghost use Rattle.arrays.specs.Form.{lent};
ghost use Rattle.engine.specs.Clauses.{record_of};
ghost use Rattle.file.specs.Clauses.{ReportsFile};
ghost use Rattle.numbering.specs.Files.{NumbersFile};
ghost use Rattle.exports.specs.Clauses.{Starts, TellsOfLog};

use arrays::{Control, Jobs, Labels, Results};
use exports::{Answer, Holders, Reported, Verdict};

// Writes the fresh table of n stations over what is lent. 1 is returned for a number of stations that is not 2 to 32, and nothing changes.
#[unsafe(no_mangle)]
pub extern "C" fn tickets_fresh(
    n: u64,
    labels: &mut Labels,
    jobs: &mut Jobs,
    control: &mut Control,
    results: &mut Results,
) -> u64
    ensures { Starts n (arrays n labels.old jobs.old control.old results.old)
        (arrays n labels.new jobs.new control.new results.new) result }
{
    exports::tickets_fresh(n, labels, jobs, control, results)
}

// A step call. 13 is judged first, on all that is lent; a refused call changes nothing.
#[unsafe(no_mangle)]
pub extern "C" fn tickets_step(
    count: u64,
    labels: &mut Labels,
    jobs: &mut Jobs,
    control: &mut Control,
    results: &mut Results,
    code: u64,
    station: u64,
    job: u64,
    report: &mut [u8],
) -> Answer
    ensures { Steps lent (arrays count labels.old jobs.old control.old results.old)
        (called 0 code station job (Buffer (length report.old))) (Bytes report.old)
        (arrays count labels.new jobs.new control.new results.new)
        result.refusal result.written (Bytes report.new) }
{
    exports::tickets_step(
        count, labels, jobs, control, results, code, station, job, report,
    )
}

// A step call with a panel in place of the report buffer; a record is place, station and job. `written` counts records.
#[unsafe(no_mangle)]
pub extern "C" fn tickets_step_panel(
    count: u64,
    labels: &mut Labels,
    jobs: &mut Jobs,
    control: &mut Control,
    results: &mut Results,
    code: u64,
    station: u64,
    job: u64,
    panel: &mut [[u32; 3]],
) -> Answer
    ensures { Steps lent (arrays count labels.old jobs.old control.old results.old)
        (called 0 code station job (Panel (length panel.old))) (Records (map record_of panel.old))
        (arrays count labels.new jobs.new control.new results.new)
        result.refusal result.written (Records (map record_of panel.new)) }
{
    exports::tickets_step_panel(
        count, labels, jobs, control, results, code, station, job, panel,
    )
}

// How many stations have the newest's label: a question, which changes nothing. 13 is judged on all that is lent, and counts none.
#[unsafe(no_mangle)]
pub extern "C" fn tickets_top_holders(
    count: u64,
    labels: &Labels,
    jobs: &Jobs,
    control: &Control,
    results: &Results,
) -> Holders
    ensures tells { Tells lent (arrays count labels.now jobs.now control.now results.now)
        result.refusal result.stations }
    ensures results_value { arrays count labels.exit.now jobs.exit.now control.exit.now results.exit.now
        ≡ arrays count labels.entry.now jobs.entry.now control.entry.now results.entry.now }
{
    exports::tickets_top_holders(count, labels, jobs, control, results)
}

// Writes the report of a whole schedule file; 7, and nothing is written, if it does not fit.
#[unsafe(no_mangle)]
pub extern "C" fn tickets_report(schedule: &[u8], report: &mut [u8]) -> Reported
    ensures { ReportsFile schedule.now report.old result.refusal result.ended result.written result.length report.new }
{
    exports::tickets_report(schedule, report)
}

// Writes the numbers of a whole schedule file to the front of a list, one for each accepted snap for a label; `written` counts them. A refusal is answered
// before any step is run, and the list is whole then.
#[unsafe(no_mangle)]
pub extern "C" fn tickets_numbers(schedule: &[u8], numbers: &mut [u32]) -> Answer
    ensures { NumbersFile schedule.now numbers.old result.refusal result.written numbers.new }
{
    exports::tickets_numbers(schedule, numbers)
}

// Checks the log of a whole schedule file, its numbers and its report, against the unbounded table. A refusal is answered before any step is run.
#[unsafe(no_mangle)]
pub extern "C" fn tickets_check_log(schedule: &[u8], numbers: &[u64], report: &[u8]) -> Verdict
    ensures { TellsOfLog schedule.now numbers.now report.now result.refusal result.right }
{
    exports::tickets_check_log(schedule, numbers, report)
}
