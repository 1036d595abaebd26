// check_log SCHEDULE NUMBERS REPORT: reads a log from the files of these names, and writes yes or no, or the refusal of its schedule, to standard output. If
// one of them cannot be read, or the output cannot be written, it says so on standard error and stops; all three are opened before one is read, and none is
// read further than its answer needs.
#![tactic(auto)]

use intake::Unread;
use std::io::{Read, Write};
use streams::{Failed, Stream};

// A right log has at most 4,096 numbers, of 12 bytes each; the buffer holds one byte more, and what fills it is no lines of numbers, whatever was cut off
// (`numbers_long` in logs/proofs/Files.antt).
const NUMBERS: usize = 49153;

// The report is read in parts of so many bytes.
const PART: usize = 32768;

// Checks a log whose schedule is not too long, with the bytes of its numbers: reads the report part by part, until it ends or the log is known not to be
// right, and answers whether it is right.
fn check_log<R: Read, E: Write>(
    file: &[u8],
    bytes: &[u8],
    report: &mut Stream<'_, R, E>,
) -> Result<bool, Unread> {
    let mut list = [0u64; 4096];
    let mut lines = [0u8; logs::ROOM];
    let mut part = [0u8; PART];
    let (mut check, mut table) = logs::start(file, bytes, &mut list)?;
    loop {
        let k = report.read_full(&mut part)?;
        check = logs::feed(check, file, &list, &part[..k], &mut table, &mut lines);
        if k < part.len() || !check.right {
            return Ok(logs::finish(check));
        }
    }
}

// Reads the schedule, which may be refused, then the numbers, and the report.
fn check_files<S: Read, N: Read, R: Read, E: Write>(
    schedule: &mut Stream<'_, S, E>,
    numbers: &mut Stream<'_, N, E>,
    report: &mut Stream<'_, R, E>,
) -> Result<bool, Unread> {
    let mut part = [0u8; intake::ROOM];
    let mut bytes = [0u8; NUMBERS];
    let count = intake::read_schedule(schedule, &mut part)?;
    let k = numbers.read_full(&mut bytes)?;
    check_log(&part[..count], &bytes[..k], report)
}

// Opens the files, checks the log, and writes the answer.
fn run(rt: &HostRuntime) -> Result<(), Failed> {
    let mut schedule = streams::open_argument(
        rt,
        1,
        b"check_log: the schedule could not be read\n",
    )?;
    let mut numbers = streams::open_argument(rt, 2, b"check_log: the numbers could not be read\n")?;
    let mut report = streams::open_argument(rt, 3, b"check_log: the report could not be read\n")?;
    let mut output = Stream {
        stream: rt.stdout(),
        errors: rt.stderr(),
        complaint: b"check_log: the answer could not be written\n",
    };
    let verdict = match check_files(&mut schedule, &mut numbers, &mut report) {
        Ok(right) => Ok(right),
        Err(Unread::Refused(refusal)) => Err(refusal),
        Err(Unread::Failed) => return Err(Failed),
    };
    let mut out = [0u8; 29];
    let k = logs::print_verdict(verdict, &mut out);
    output.write_all(&out[..k])
}

fn main(rt: HostRuntime) {
    let _ = run(&rt);
}
