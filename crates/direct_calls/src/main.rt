// Direct calls of the steps, and questions, as the command file on standard input asks for them. The file is run twice: step calls, by code and by name, and
// questions get their tables by value, and then from an owner that lends them. Sessions get them by value both times, and calls with a panel from an owner
// both times. A call shows the buffer or the panel, its refusal number and its count, of bytes or of records. The file `stdout` beside this folder has what
// document 01 asks with Cards 1, 2, 4 and 5.
//
// A line that starts with # or is empty is shown as it is. Any other is a command: a letter and four columns of 12 bytes, with 0 in those that it
// does not use; or one of `o` and `v`, which end with a line of a schedule file. Places and positions count from 0. A bad line ends the run.
//
//     f n                        makes a fresh table of n stations
//     s code station job room    makes a step call that lends so many bytes, each a dot
//     n code station job room    makes the call that has the step's name; only a begin takes the job, and only an end the room
//     r code station job records makes a step call that lends so many of a panel's 32 records, and shows all of these, each a dot if it stayed
//     a                          asks how many stations have the newest's label, and shows the refusal number and the count
//     l place                    shows the first two digits of the label
//     d place position digit     changes a digit of the label
//     p place position digit     changes a digit of the pending label
//     e place entry station job  changes an entry of the scan result
//     j place 0 0 job            changes the job
//     w place 0 0 job            changes the pending job
//     u place 0 out              changes whether the station is out of service: 1 if it is, 0 if not
//     c place other              changes the record to the one at another place
//     o, a line                  opens a session with this header, and shows the number of its refusal
//     v bytes, a line            serves the line, and shows so many bytes of its buffer, which were dots
//     t                          puts the table into the session
//     x lines                    makes it so many lines that the session has counted, the header among them
#![tactic(auto)]

mod calls;
mod commands;
mod edits;
mod owners;
mod panels;
mod sessions;

use calls::{ByValue, Calls};
use commands::{Call, Command, Function};
use moves::{Refusal, Step};
use owners::Lent;
use session::Session;
use std::io::{self, Cursor, Print, Read};
use step::Outcome;
use table::Table;

// What cannot be written is lost.
fn text(rt: &HostRuntime, bytes: &[u8]) {
    let _ = rt.write_all(bytes);
}

// The number of a reply's refusal, and its count.
fn told(reply: Result<usize, Refusal>) -> (u64, usize) {
    (moves::number_of(reply.err()), reply.unwrap_or(0))
}

// Shows the buffer that a call has lent, and its reply.
pub fn show(rt: &HostRuntime, report: &[u8], reply: Result<usize, Refusal>) {
    let (number, count) = told(reply);
    text(rt, report);
    let _ = print!(rt; " {number}/{count}");
}

// Makes a step call.
fn make<C: Calls>(t: Table, c: Call, report: &mut [u8]) -> Outcome {
    match c.function {
        Function::Coded(code) => C::step(t, code, c.station, c.job, report),
        Function::Named(Step::BeginLabel) => C::begin_label(t, c.station, c.job),
        Function::Named(Step::Scan) => C::scan(t, c.station),
        Function::Named(Step::Snap) => C::snap(t, c.station),
        Function::Named(Step::Update) => C::update(t, c.station),
        Function::Named(Step::End) => C::end(t, c.station, report),
        Function::Named(Step::LeaveService) => C::leave_service(t, c.station),
        Function::Named(Step::ReturnToService) => C::return_to_service(t, c.station),
    }
}

// Lends a buffer for a step call, and shows it and the reply.
fn call<C: Calls>(rt: &HostRuntime, t: Table, c: Call) -> Table {
    let mut buffer = [b'.'; 929];
    let report = &mut buffer[..c.room.value];
    let o = make::<C>(t, c, report);
    show(rt, report, o.reply);
    o.table
}

// Asks how many stations have the newest's label, and shows the answer.
fn ask<C: Calls>(rt: &HostRuntime, t: Table) {
    let (number, count) = told(C::top_holders(t));
    let _ = print!(rt; " {number}:{count}");
}

// Obeys a command on the table or the session.
fn obey<C: Calls>(rt: &HostRuntime, t: &mut Table, s: &mut Session, c: Command<'_>) {
    match c {
        Command::Title(line) => text(rt, line),
        Command::Fresh(n) => *t = Table::fresh(n as usize),
        Command::Call(c) => *t = call::<C>(rt, *t, c),
        Command::Panel {
            code,
            station,
            job,
            records,
        } => *t = panels::call(rt, *t, code, station, job, records),
        Command::Ask => ask::<C>(rt, *t),
        Command::Label(place) => edits::show_label(rt, *t, place),
        Command::Edit(place, edit) => edits::edit(t, place, edit),
        Command::Open(header) => *s = sessions::open(rt, header),
        Command::Serve { shown, line } => *s = sessions::serve(rt, *s, line, shown),
        Command::Put => s.table = *t,
        Command::Count(lines) => s.lines = lines,
    }
}

// Obeys the lines of a file, up to a bad one.
fn run<C: Calls>(rt: &HostRuntime, file: &[u8]) {
    let mut t = Table::fresh(2);
    let mut s = session::open(b"");
    for line in file.split_inclusive(|b| *b == b'\n') {
        let Some(c) = commands::read(line) else {
            return text(rt, b"\nbad command\n");
        };
        obey::<C>(rt, &mut t, &mut s, c);
    }
}

// Reads the input, at most as many bytes as there is room for; what cannot be read ends it.
fn main(rt: HostRuntime) {
    let mut buffer = [0; 262144];
    let mut file = Cursor::new(&mut buffer[..]);
    let _ = io::copy(&mut rt.stdin().take(262144), &mut file);
    let n = (file.position() as usize).min(262144);
    run::<ByValue>(&rt, &buffer[..n]);
    run::<Lent>(&rt, &buffer[..n]);
}
