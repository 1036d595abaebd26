// The step calls on a table that its owner lends, and a question to it. Each is a call on the table by value; two owners come last.
#![tactic(auto)]

ghost use Rattle.std.specs.Prelude.{◌≡◌, []};
ghost use Rattle.transition.specs.Questions.{Tells};
ghost use Rattle.moves.specs.Moves.{told_number, told_count, step_code, directly};
ghost use Rattle.table.specs.Tables.{declared};
ghost use Rattle.step.specs.Clauses.{Reports};

use moves::{Refusal, Step};
use step::Outcome;
use table::Table;

// A step call.
pub fn step(
    t: &mut Table,
    code: u64,
    station: u64,
    job: u64,
    report: &mut [u8],
) -> Result<usize, Refusal>
    ensures { Reports t.old (directly code station job) report.old t.new result report.new }
{
    let next = step::step(*t, code, station, job, report);
    *t = next.table;
    next.reply
}

// A step call without a report buffer.
fn without_report(t: &mut Table, code: Step, station: u64, job: u64) -> Result<usize, Refusal>
    ensures { Reports t.old (directly (step_code code) station job) [] t.new result [] }
{
    step(t, code as u64, station, job, &mut [])
}

// A station begins to take a label for a job.
pub fn begin_label(t: &mut Table, station: u64, job: u64) -> Result<usize, Refusal>
    ensures { Reports t.old (directly 1 station job) [] t.new result [] }
{
    without_report(t, Step::BeginLabel, station, job)
}

// A station scans: it begins, and takes its snapshot.
pub fn scan(t: &mut Table, station: u64) -> Result<usize, Refusal>
    ensures { Reports t.old (directly 2 station 0) [] t.new result [] }
{
    without_report(t, Step::Scan, station, 0)
}

// A station takes its snapshot for a label.
pub fn snap(t: &mut Table, station: u64) -> Result<usize, Refusal>
    ensures { Reports t.old (directly 3 station 0) [] t.new result [] }
{
    without_report(t, Step::Snap, station, 0)
}

// A station writes its pending label and job.
pub fn update(t: &mut Table, station: u64) -> Result<usize, Refusal>
    ensures { Reports t.old (directly 4 station 0) [] t.new result [] }
{
    without_report(t, Step::Update, station, 0)
}

// A station ends its operation; a scan is reported.
pub fn end(t: &mut Table, station: u64, report: &mut [u8]) -> Result<usize, Refusal>
    ensures { Reports t.old (directly 5 station 0) report.old t.new result report.new }
{
    step(t, Step::End as u64, station, 0, report)
}

// A station leaves service.
pub fn leave_service(t: &mut Table, station: u64) -> Result<usize, Refusal>
    ensures { Reports t.old (directly 6 station 0) [] t.new result [] }
{
    without_report(t, Step::LeaveService, station, 0)
}

// A station returns to service.
pub fn return_to_service(t: &mut Table, station: u64) -> Result<usize, Refusal>
    ensures { Reports t.old (directly 7 station 0) [] t.new result [] }
{
    without_report(t, Step::ReturnToService, station, 0)
}

// How many stations have the newest's label: a question, for which the table is lent and not changed.
pub fn top_holders(t: &Table) -> Result<usize, Refusal>
    ensures { Tells declared t.now (told_number result) (told_count result) × (t.exit.now ≡ t.entry.now) }
{
    step::top_holders(*t)
}

// The owner of a table lends it for a step call, and hands it back: whoever calls this has no reference to a table.
pub fn step_owned(t: Table, code: u64, station: u64, job: u64, report: &mut [u8]) -> Outcome
    ensures { Reports t (directly code station job) report.old result.table result.reply report.new }
{
    let mut own = t;
    let reply = step(&mut own, code, station, job, report);
    Outcome { table: own, reply }
}

// The owner of a table lends it for the question how many stations have the newest's label.
pub fn top_holders_owned(t: Table) -> Result<usize, Refusal>
    ensures { Tells declared t (told_number result) (told_count result) }
{
    let own = t;
    top_holders(&own)
}
