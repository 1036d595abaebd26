// Reading a schedule, for programs that serve at most 4,096 step lines and refuse a longer file before any step is run. What is told of a file is decided by
// functions of its bytes, and `read_schedule` tells that of the bytes of its reader, where they are known.
#![tactic(auto)]

ghost use Rattle.std.specs.Prelude.{◌≡◌, [], ◌++◌, length, Some, None, Ok, IfSome};
ghost use Rattle.intake.specs.Clauses.{ahead_read, Within, ReadsPart, Taken, Tells};
ghost use Rattle.intake.specs.declared.Unread.TheVariants.{Failed, Refused};

use moves::Refusal;
use std::io::{Read, Write};
use streams::Stream;

// The bytes of a header and 4,097 step lines, one more than are served: a file that leaves some of them is whole there, and any other is too long.
pub const ROOM: usize = 73764;

// Reads a part of a file behind `lines` lines.
fn read_lines(lines: u32, part: &[u8]) -> Result<Option<u32>, Refusal>
    requires { Within (Ok (Some lines)) }
    ensures { ReadsPart (Ok (Some lines)) part.now result }
{
    let s = schedule::survey_lines(lines, part);
    if let Some(refusal) = s.refusal {
        return Err(refusal);
    }
    let read = lines + s.steps;
    Ok(Some(read))
}

// Reads the first part of a file.
fn read_first(part: &[u8]) -> Result<Option<u32>, Refusal>
    ensures { ReadsPart (Ok None) part.now result }
{
    if part.is_empty() {
        return Ok(None);
    }
    let header = schedule::line_at(part, 0);
    schedule::read_header(header)?;
    read_lines(1, schedule::from(part, header.len()))
}

// Reads one part more of a file, of which no line is run: whole lines, or all that is left of it. So many lines are read before it and behind it, the header
// among them, or the header is still to come. A refusal is what is told of the file, whatever follows, and stays.
pub fn read_part(reading: Result<Option<u32>, Refusal>, part: &[u8]) -> Result<Option<u32>, Refusal>
    requires { Within reading }
    ensures { ReadsPart reading part.now result }
{
    match reading? {
        None => read_first(part),
        Some(lines) => read_lines(lines, part),
    }
}

// What is told of a file that ends here.
#[tactic(auto, using(crate::proofs::Parts::told_start, crate::proofs::Parts::told_lines))]
pub fn told(reading: Result<Option<u32>, Refusal>) -> Option<Refusal>
    ensures { result ≡ ahead_read reading [] }
{
    match reading {
        Ok(None) => Some(Refusal::IncompleteLine),
        Ok(Some(lines)) => (4097 < lines).then_some(Refusal::TooManySteps),
        Err(refusal) => Some(refusal),
    }
}

// Why a schedule is not there to be served: it could not be read, or it is refused.
#[derive(Clone, Copy)]
pub enum Unread {
    Failed,
    Refused(Refusal),
}

impl From<streams::Failed> for Unread {
    ghost from_gives = { λ _ e. e ≡ Failed };

    fn from(_e: streams::Failed) -> Unread {
        Unread::Failed
    }
}

impl From<Refusal> for Unread {
    ghost from_gives = { λ refusal e. e ≡ Refused refusal };

    fn from(refusal: Refusal) -> Unread {
        Unread::Refused(refusal)
    }
}

// Reads on behind a full buffer, part after part, until the input ends or nothing that follows can change what is told.
fn read_on<R: Read, E: Write>(
    input: &mut R,
    part: &mut [u8],
    errors: &mut E,
    complaint: &[u8],
) -> Result<usize, Unread>
    requires { length part.old ≡ 73764 }
    ensures taken { Taken part.new result }
    ensures told { IfSome (R.remaining input.old) (λ bs. Tells (part.old ++ bs) part.new result) }
{
    let mut lines = read_part(Ok(None), part)?;
    // It ends with the input, or with a refusal; no range counts the parts.
    loop {
        let k = streams::read_input(input, part, errors, complaint)?;
        lines = read_part(Ok(lines), &part[..k])?;
        if k < part.len() {
            return Err(told(Ok(lines)).unwrap().into());
        }
    }
}

// Reads a schedule, and hands back how many bytes at the front of the buffer are all of it. If it is longer than the buffer, it is read no further than the
// part by which its refusal is known. Complains if it cannot be read.
pub fn read_schedule_from<R: Read, E: Write>(
    input: &mut R,
    part: &mut [u8; ROOM],
    errors: &mut E,
    complaint: &[u8],
) -> Result<usize, Unread>
    ensures taken { Taken part.new result }
    ensures told { IfSome (R.remaining input.old) (λ bs. Tells bs part.new result) }
{
    let count = streams::read_input(input, part, errors, complaint)?;
    if count < part.len() {
        return Ok(count);
    }
    read_on(input, part, errors, complaint)
}

// Reads a schedule from the stream as `read_schedule_from` does.
pub fn read_schedule<R: Read, E: Write>(
    input: &mut Stream<'_, R, E>,
    part: &mut [u8; ROOM],
) -> Result<usize, Unread>
    ensures taken { Taken part.new result }
    ensures told { IfSome (R.remaining input.old.stream) (λ bs. Tells bs part.new result) }
    ensures kept { input.new.complaint ≡ input.old.complaint }
{
    read_schedule_from(&mut input.stream, part, &mut input.errors, input.complaint)
}
