// Calls with a panel. Its owner has 32 records and lends the first so many of them.
use panel::Record;
use table::Table;

// What each field of a record has before a call; no call writes such a place.
const OLD: u32 = 99999;

// Shows a record: a dot if it is as before the call.
fn show(rt: &HostRuntime, r: Record) {
    match r {
        Record {
            place: OLD,
            station: OLD,
            job: OLD,
        } => crate::text(rt, b"."),
        Record {
            place,
            station,
            job,
        } => {
            let _ = print!(rt; " {place}:{station}:{job}");
        }
    }
}

// Makes a step call that lends so many records, and shows all records, those that were not lent too, and the reply.
pub fn call(rt: &HostRuntime, t: Table, code: u64, station: u64, job: u64, lent: usize) -> Table {
    let old = Record {
        place: OLD,
        station: OLD,
        job: OLD,
    };
    let o = panel::step_owned(t, code, station, job, [old; Table::MAX_STATIONS], lent);
    for r in o.panel {
        show(rt, r);
    }
    crate::show(rt, b"", o.reply);
    o.table
}
