// The lines of the command file.
ghost use Rattle.std.specs.Prelude.{◌<◌};

use moves::Step;
use table::Entry;

// A number below N.
#[derive(Clone, Copy)]
pub struct Below<const N: usize> {
    pub value: usize,
    ghost below: { value < N },
}

impl<const N: usize> Below<N> {
    fn new(v: u64) -> Option<Self> {
        let value = v as usize;
        if value < N {
            Some(Below { value })
        } else {
            None
        }
    }
}

// A place in a table or a scan result.
pub type Place = Below<32>;

// A position in a label.
pub type Position = Below<31>;

// How many bytes a call lends.
pub type Room = Below<930>;

// Which function makes a step call: the one for all codes, or the one that has the step's name.
#[derive(Clone, Copy)]
pub enum Function {
    Coded(u64),
    Named(Step),
}

// A step call.
#[derive(Clone, Copy)]
pub struct Call {
    pub function: Function,
    pub station: u64,
    pub job: u64,
    pub room: Room,
}

// A change of one record of a table.
#[derive(Clone, Copy)]
pub enum Edit {
    Digit(Position, u8),
    PendingDigit(Position, u8),
    Entry(Place, Entry),
    Job(u32),
    PendingJob(u32),
    OutOfService(bool),
    CopyOf(Place),
}

// What a line asks for.
#[derive(Clone, Copy)]
pub enum Command<'a> {
    Title(&'a [u8]),
    Fresh(u64),
    Call(Call),
    Panel {
        code: u64,
        station: u64,
        job: u64,
        records: usize,
    },
    Ask,
    Label(Place),
    Edit(Place, Edit),
    Open(&'a [u8]),
    Serve {
        shown: usize,
        line: &'a [u8],
    },
    Put,
    Count(u32),
}

// The command with this letter and these numbers.
fn from_numbers(letter: u8, a: u64, b: u64, c: u64, d: u64) -> Option<Command<'static>> {
    Some(match (letter, a, b, c, d) {
        (b'f', n, 0, 0, 0) => Command::Fresh(n),
        (b's', code, station, job, room) => Command::Call(Call {
            function: Function::Coded(code),
            station,
            job,
            room: Room::new(room)?,
        }),
        // No step has the code 0.
        (b'n', 0, station, job, room) => Command::Call(Call {
            function: Function::Coded(0),
            station,
            job,
            room: Room::new(room)?,
        }),
        (b'n', code, station, job, room) => Command::Call(Call {
            function: Function::Named(Step::try_from(code).ok()?),
            station,
            job,
            room: Room::new(room)?,
        }),
        (b'r', code, station, job, records) if records < 34 => Command::Panel {
            code,
            station,
            job,
            records: records as usize,
        },
        (b'a', 0, 0, 0, 0) => Command::Ask,
        (b'l', place, 0, 0, 0) => Command::Label(Place::new(place)?),
        (b'd', place, position, digit, 0) => Command::Edit(
            Place::new(place)?,
            Edit::Digit(Position::new(position)?, u8::try_from(digit).ok()?),
        ),
        (b'p', place, position, digit, 0) => Command::Edit(
            Place::new(place)?,
            Edit::PendingDigit(Position::new(position)?, u8::try_from(digit).ok()?),
        ),
        (b'e', place, entry, station, job) => Command::Edit(
            Place::new(place)?,
            Edit::Entry(
                Place::new(entry)?,
                Entry {
                    station: u32::from(u8::try_from(station).ok()?),
                    job: u32::try_from(job).ok()?,
                },
            ),
        ),
        (b'j', place, 0, 0, job) => {
            Command::Edit(Place::new(place)?, Edit::Job(u32::try_from(job).ok()?))
        }
        (b'w', place, 0, 0, job) => Command::Edit(
            Place::new(place)?,
            Edit::PendingJob(u32::try_from(job).ok()?),
        ),
        (b'u', place, 0, out, 0) if out < 2 => {
            Command::Edit(Place::new(place)?, Edit::OutOfService(out == 1))
        }
        (b'c', place, other, 0, 0) => {
            Command::Edit(Place::new(place)?, Edit::CopyOf(Place::new(other)?))
        }
        (b't', 0, 0, 0, 0) => Command::Put,
        (b'x', lines, 0, 0, 0) => Command::Count(u32::try_from(lines).ok()?),
        _ => return None,
    })
}

// Reads four columns, behind the letter; the byte 10 stands behind them.
fn read_columns(letter: u8, rest: &[u8]) -> Option<Command<'static>> {
    if rest.len() != 49 {
        return None;
    }
    let a = columns::read_column(&rest[..12])?;
    let b = columns::read_column(&rest[12..24])?;
    let c = columns::read_column(&rest[24..36])?;
    let d = columns::read_column(&rest[36..48])?;
    from_numbers(letter, a, b, c, d)
}

// Reads how many bytes are shown of the buffer of a line of a schedule file, which stands behind them.
fn read_served(rest: &[u8]) -> Option<Command<'_>> {
    if rest.len() < 13 {
        return None;
    }
    let shown = columns::read_column(&rest[..12])?;
    if 929 < shown {
        return None;
    }
    Some(Command::Serve {
        shown: shown as usize,
        line: &rest[12..],
    })
}

// Reads a line with the byte 10 at its end.
pub fn read(line: &[u8]) -> Option<Command<'_>> {
    if line.last() != Some(&b'\n') {
        return None;
    }
    let (letter, rest) = line.split_first()?;
    match *letter {
        b'#' | b'\n' => Some(Command::Title(line)),
        b'o' => Some(Command::Open(rest)),
        b'v' => read_served(rest),
        other => read_columns(other, rest),
    }
}
