// Tables that no call leads to: one record of a table is changed.
use crate::commands::{Edit, Place};
use table::Table;

// Shows the first two digits of a label.
pub fn show_label(rt: &HostRuntime, t: Table, place: Place) {
    let label = t.stations[place.value].label;
    let first = label[0];
    let second = label[1];
    let _ = print!(rt; " {first}.{second}");
}

// Changes one record of a table.
pub fn edit(t: &mut Table, place: Place, edit: Edit) {
    let mut s = t.stations[place.value];
    match edit {
        Edit::Digit(position, digit) => s.label[position.value] = digit,
        Edit::PendingDigit(position, digit) => s.pending_label[position.value] = digit,
        Edit::Entry(entry, value) => s.scan_result[entry.value] = value,
        Edit::Job(job) => s.job = job,
        Edit::PendingJob(job) => s.pending_job = job,
        Edit::OutOfService(out) => s.out_of_service = out,
        Edit::CopyOf(other) => s = t.stations[other.value],
    }
    t.stations[place.value] = s;
}
