// Owners of a table: each lends it to the call on a lent table that has its name, and hands it back. Whoever calls these has no reference to a table.
ghost use Rattle.std.specs.Fn.{FnOnceReturnsAtMut};

use crate::calls::Calls;
use moves::Refusal;
use step::Outcome;
use table::Table;

// The owner of a table lends it to a call, and hands it back.
fn owned<F: FnOnce(&mut Table) -> Result<usize, Refusal>>(t: Table, call: F) -> Outcome
    requires { F.IsAlwaysCallable call }
    ensures { FnOnceReturnsAtMut F.FnOnce call t result.reply result.table }
{
    let mut own = t;
    let reply = call(&mut own);
    Outcome { table: own, reply }
}

// The calls on a table that its owner lends.
pub struct Lent;

impl Calls for Lent {
    fn step(t: Table, code: u64, station: u64, job: u64, report: &mut [u8]) -> Outcome {
        lent_table::step_owned(t, code, station, job, report)
    }

    fn begin_label(t: Table, station: u64, job: u64) -> Outcome {
        owned(t, |own| lent_table::begin_label(own, station, job))
    }

    fn scan(t: Table, station: u64) -> Outcome {
        owned(t, |own| lent_table::scan(own, station))
    }

    fn snap(t: Table, station: u64) -> Outcome {
        owned(t, |own| lent_table::snap(own, station))
    }

    fn update(t: Table, station: u64) -> Outcome {
        owned(t, |own| lent_table::update(own, station))
    }

    fn end(t: Table, station: u64, report: &mut [u8]) -> Outcome {
        // A closure that holds the report buffer doesn't say what it leaves in it.
        let mut own = t;
        let reply = lent_table::end(&mut own, station, report);
        Outcome { table: own, reply }
    }

    fn leave_service(t: Table, station: u64) -> Outcome {
        owned(t, |own| lent_table::leave_service(own, station))
    }

    fn return_to_service(t: Table, station: u64) -> Outcome {
        owned(t, |own| lent_table::return_to_service(own, station))
    }

    fn top_holders(t: Table) -> Result<usize, Refusal> {
        lent_table::top_holders_owned(t)
    }
}
