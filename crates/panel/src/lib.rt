// The step calls whose report goes to a panel: a slice of records that is lent, one for each place of a scan result.
#![tactic(auto)]

ghost use Rattle.std.specs.Prelude.{◌≡◌, ◌≤◌, length, take, drop};
ghost use Rattle.panel.specs.Panels.{filled, Shows};

use moves::Refusal;
use step::Outcome;
use table::{Entry, Table};

// A place of a scan result, from 1, with its station and job.
#[derive(Clone, Copy)]
pub struct Record {
    pub place: u32,
    pub station: u32,
    pub job: u32,
}

// Fills a record for each entry; the others stay.
#[tactic(auto, using(crate::proofs::PanelLaws::filled_none, crate::proofs::PanelLaws::filled_more))]
fn fill(panel: &mut [Record], entries: &[Entry])
    requires few { length entries.now ≤ 32 }
    requires room { length entries.now ≤ length panel.old }
    ensures { panel.new ≡ filled entries.now (length entries.now) panel.old }
{
    for (i, entry) in entries.iter().enumerate() {
        panel[i] = Record {
            place: i as u32 + 1,
            station: entry.station,
            job: entry.job,
        };
    }
}

// A step call on a table that is passed and returned whole.
pub fn step(t: Table, code: u64, station: u64, job: u64, panel: &mut [Record]) -> Outcome
    ensures { Shows t code station job panel.old result.table result.reply panel.new }
{
    let mut own = t;
    let reply = step_lent(&mut own, code, station, job, panel);
    Outcome { table: own, reply }
}

// A step call on a table that its owner lends.
pub fn step_lent(
    t: &mut Table,
    code: u64,
    station: u64,
    job: u64,
    panel: &mut [Record],
) -> Result<usize, Refusal>
    ensures { Shows t.old code station job panel.old t.new result panel.new }
{
    let next = step::with_panel(*t, code, station, job, panel.len())?;
    *t = next.table;
    fill(panel, &next.entries[..next.count]);
    Ok(next.count)
}

// What an owner has after a call: the table, the reply and its records.
#[derive(Clone, Copy)]
pub struct Shown {
    pub table: Table,
    pub reply: Result<usize, Refusal>,
    pub panel: [Record; Table::MAX_STATIONS],
}

// The owner of a table and of 32 records lends the table and the first `lent` records, and hands all back: whoever calls this has no reference to either. The
// other records stay.
pub fn step_owned(
    t: Table,
    code: u64,
    station: u64,
    job: u64,
    panel: [Record; Table::MAX_STATIONS],
    lent: usize,
) -> Shown
    ensures { Shows t code station job (take lent panel) result.table result.reply (take lent result.panel) × (drop lent result.panel ≡ drop lent panel) }
{
    let mut own = t;
    let mut records = panel;
    let k = lent.min(Table::MAX_STATIONS);
    let reply = step_lent(&mut own, code, station, job, &mut records[..k]);
    Shown {
        table: own,
        reply,
        panel: records,
    }
}
