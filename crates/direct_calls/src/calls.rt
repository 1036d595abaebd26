// The step calls, by code and by name, and the question, in a form: what each of them promises, whichever form it has.
ghost use Rattle.std.specs.Prelude.{[]};
ghost use Rattle.transition.specs.Questions.{Tells};
ghost use Rattle.moves.specs.Moves.{told_number, told_count, directly};
ghost use Rattle.table.specs.Tables.{declared};
ghost use Rattle.step.specs.Clauses.{Reports};

use moves::Refusal;
use step::Outcome;
use table::Table;

pub trait Calls {
    // A step call.
    fn step(t: Table, code: u64, station: u64, job: u64, report: &mut [u8]) -> Outcome
        ensures { Reports t (directly code station job) report.old result.table result.reply report.new };

    // A station begins to take a label for a job.
    fn begin_label(t: Table, station: u64, job: u64) -> Outcome
        ensures { Reports t (directly 1 station job) [] result.table result.reply [] };

    // A station scans.
    fn scan(t: Table, station: u64) -> Outcome
        ensures { Reports t (directly 2 station 0) [] result.table result.reply [] };

    // A station takes its snapshot for a label.
    fn snap(t: Table, station: u64) -> Outcome
        ensures { Reports t (directly 3 station 0) [] result.table result.reply [] };

    // A station writes its pending label and job.
    fn update(t: Table, station: u64) -> Outcome
        ensures { Reports t (directly 4 station 0) [] result.table result.reply [] };

    // A station ends its operation; a scan is reported.
    fn end(t: Table, station: u64, report: &mut [u8]) -> Outcome
        ensures { Reports t (directly 5 station 0) report.old result.table result.reply report.new };

    // A station leaves service.
    fn leave_service(t: Table, station: u64) -> Outcome
        ensures { Reports t (directly 6 station 0) [] result.table result.reply [] };

    // A station returns to service.
    fn return_to_service(t: Table, station: u64) -> Outcome
        ensures { Reports t (directly 7 station 0) [] result.table result.reply [] };

    // How many stations have the newest's label.
    fn top_holders(t: Table) -> Result<usize, Refusal>
        ensures { Tells declared t (told_number result) (told_count result) };
}

// The calls on a table that is passed and returned whole.
pub struct ByValue;

impl Calls for ByValue {
    fn step(t: Table, code: u64, station: u64, job: u64, report: &mut [u8]) -> Outcome {
        step::step(t, code, station, job, report)
    }

    fn begin_label(t: Table, station: u64, job: u64) -> Outcome {
        step::begin_label(t, station, job)
    }

    fn scan(t: Table, station: u64) -> Outcome {
        step::scan(t, station)
    }

    fn snap(t: Table, station: u64) -> Outcome {
        step::snap(t, station)
    }

    fn update(t: Table, station: u64) -> Outcome {
        step::update(t, station)
    }

    fn end(t: Table, station: u64, report: &mut [u8]) -> Outcome {
        step::end(t, station, report)
    }

    fn leave_service(t: Table, station: u64) -> Outcome {
        step::leave_service(t, station)
    }

    fn return_to_service(t: Table, station: u64) -> Outcome {
        step::return_to_service(t, station)
    }

    fn top_holders(t: Table) -> Result<usize, Refusal> {
        step::top_holders(t)
    }
}
