// The lines of a schedule file: the header, and the step lines after it. Nothing here runs a step.
#![tactic(auto)]

ghost use Rattle.std.specs.Prelude.{◌≡◌, ◌≤◌, length, take, drop};
ghost use Rattle.simulation.specs.Calls.{original};
ghost use Rattle.schedule.specs.Lines.{line_read, next_line, next_call, header_read};
ghost use Rattle.schedule.specs.Numbers.{surveyed, Surveys};

use columns::{read_column, read_three};
use moves::{Refusal, Request};

// What a step line says. The header is written like one.
#[derive(Clone, Copy)]
pub struct Line {
    pub station: u64,
    pub code: u64,
    pub job: u64,
}

// Reads a line: its columns from left to right, and the first malformed one ends the reading.
#[tactic(auto, using(columns::proofs::Scans::three_from), unfolding(crate::specs::Lines::line_read))]
pub fn read_line(s: &[u8]) -> Result<Line, Refusal>
    ensures { result ≡ line_read s.now }
{
    if s.len() != 18 || s[17] != 10 {
        return Err(Refusal::IncompleteLine);
    }
    let Some(station) = read_three(s[0], s[1], s[2]) else {
        return Err(Refusal::MalformedColumn);
    };
    let Some(code) = read_three(s[3], s[4], s[5]) else {
        return Err(Refusal::MalformedColumn);
    };
    let Some(job) = read_column(&s[6..17]) else {
        return Err(Refusal::MalformedColumn);
    };
    Ok(Line { station, code, job })
}

// What a line says after so many counted ones, the header among them: past 1,000,000 step lines it is one too many, whatever it says.
pub fn next_line(lines: u32, line: &[u8]) -> Result<Line, Refusal>
    ensures { result ≡ next_line lines line.now }
{
    if 1000000 < lines {
        return Err(Refusal::TooManyLines);
    }
    read_line(line)
}

// Reads the header: the number of stations, code 0 and job 0.
#[tactic(auto, unfolding(crate::specs::Lines::header_read))]
pub fn read_header(line: &[u8]) -> Result<usize, Refusal>
    ensures { result ≡ header_read original line.now }
{
    let Line { station, code, job } = read_line(line)?;
    if code != 0 {
        return Err(Refusal::UnknownStep);
    }
    if !(2..=32).contains(&station) {
        return Err(Refusal::StationCount);
    }
    if job != 0 {
        return Err(Refusal::JobOutOfRange);
    }
    Ok(station as usize)
}

// The line that starts at a place: 18 bytes, or what is left.
pub fn line_at(chunk: &[u8], at: usize) -> &[u8]
    requires { at ≤ length chunk.now }
    ensures { result.now ≡ take 18 (drop at chunk.now) }
{
    &chunk[at..at + (chunk.len() - at).min(18)]
}

// What stands at a place of a part of a file, behind `lines` lines: a step call, none at the end, or the refusal that ends the reading. A call takes up 18
// bytes.
#[tactic(auto, using(crate::proofs::Places::told_end, crate::proofs::Places::told_line), unfolding(crate::specs::Lines::next_call))]
pub fn next_call(lines: u32, chunk: &[u8], at: usize) -> Result<Option<Request>, Refusal>
    requires { at ≤ length chunk.now }
    ensures { result ≡ next_call lines (drop at chunk.now) }
{
    if at == chunk.len() {
        return Ok(None);
    }
    let Line { station, code, job } = next_line(lines, line_at(chunk, at))?;
    Ok(Some(Request {
        code,
        station,
        job,
        line: u64::from(lines) + 1,
    }))
}

// What stands from a place on.
pub fn from(file: &[u8], at: usize) -> &[u8]
    requires { at ≤ length file.now }
    ensures { result.now ≡ drop at file.now }
{
    &file[at..]
}

// What the lines of a part of a file come to, up to the refusal that ends the reading, if there is one: that refusal, how many lines are steps, and how
// many of these are of step 3.
#[derive(Clone, Copy)]
pub struct Survey {
    pub refusal: Option<Refusal>,
    pub steps: u32,
    pub snaps: u32,
}

// Reads the lines of a part of a file behind `lines` others, and runs none of them.
pub fn survey_lines(lines: u32, chunk: &[u8]) -> Survey
    ensures { Surveys lines chunk.now result }
{
    let mut steps: u32 = 0;
    let mut snaps: u32 = 0;
    for line in chunk.chunks(18) {
        match next_line(lines + steps, line) {
            Ok(step) => {
                snaps += u32::from(step.code == 3);
                steps += 1;
            }
            Err(refusal) => {
                return Survey {
                    refusal: Some(refusal),
                    steps,
                    snaps,
                };
            }
        }
    }
    Survey {
        refusal: None,
        steps,
        snaps,
    }
}

// The refusal of a file whose lines after the header come to this: their final one, or 16 for more than 4,096 steps.
pub fn refusal_of(s: Survey) -> Option<Refusal>
    ensures { result ≡ surveyed s.refusal s.steps None }
{
    if s.refusal.is_none() && 4096 < s.steps {
        return Some(Refusal::TooManySteps);
    }
    s.refusal
}
