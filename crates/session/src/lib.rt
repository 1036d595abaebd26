// A reading session on a table that is passed and returned whole: its header opens it, and each later line is served by it.
#![tactic(auto)]

ghost use Rattle.std.specs.Prelude.{◌≡◌, ℕ, cond, ◌≤◌, length, Ok};
ghost use mathlib.Core.List as Lists;
ghost use Rattle.schedule.specs.Tables.{tables};
ghost use Rattle.schedule.specs.Sessions.{stopped, ill_formed, header_of, step_line, serve_of};
ghost use Rattle.table.specs.Tables.{declared};
ghost use Rattle.session.specs.Clauses.{session_of, ServedAs, Keeps};

use moves::{Refusal, Request};
use schedule::Line;
use table::Table;

// How many lines were counted, the header among them; the final refusal, if there is one; the table.
#[derive(Clone, Copy)]
pub struct Session {
    pub lines: u32,
    pub refusal: Option<Refusal>,
    pub table: Table,
}

// What a line leaves: the session, and the reply to the line.
#[derive(Clone, Copy)]
pub struct Served {
    pub session: Session,
    pub reply: Result<usize, Refusal>,
}

// Opens a session by its header. Behind a refused one stands the fresh table of 2 stations.
pub fn open(header: &[u8]) -> Session
    ensures { session_of result ≡ header_of (tables declared) header.now }
{
    match schedule::read_header(header) {
        Ok(n) => Session {
            lines: 1,
            refusal: None,
            table: Table::fresh(n),
        },
        Err(r) => Session {
            lines: 0,
            refusal: Some(r),
            table: Table::fresh(2),
        },
    }
}

// A line that does not read, or is one too many: its refusal is final, unless the table is ill-formed. The line then counts, but for those past the last.
fn unread(s: Session, r: Refusal) -> Served
    ensures { (buffer : Lists.List ℕ)
        → ServedAs (cond (declared.well_formed s.table) (stopped (session_of s) r) (ill_formed (session_of s))) result buffer buffer }
{
    if step::well_formed(s.table) {
        return Served {
            session: Session {
                refusal: Some(r),
                ..s
            },
            reply: Err(r),
        };
    }
    let lines = s.lines + u32::from(s.lines < 1000001);
    Served {
        session: Session { lines, ..s },
        reply: Err(Refusal::IllFormedTable),
    }
}

// A line that is a step: its call judges the table, and its report bears the number of the line.
fn step_line(s: Session, line: Line, report: &mut [u8]) -> Served
    requires lines_bound { s.lines ≤ 1000000 }
    requires report_len { length report.old ≡ 928 }
    ensures served_as { ServedAs (step_line (tables declared) (session_of s) (Ok line)) result report.old report.new }
    ensures keeps { Keeps s result report.old report.new }
{
    let Line { station, code, job } = line;
    let request = Request {
        code,
        station,
        job,
        line: u64::from(s.lines) + 1,
    };
    let made = step::call(s.table, request, report);
    Served {
        session: Session {
            lines: s.lines + 1,
            table: made.table,
            ..s
        },
        reply: made.reply,
    }
}

// Serves a line after the header: a final refusal comes first, then an ill-formed table, and then what the line says. The report buffer has room for the
// longest scan result, so no line is refused by 7.
pub fn serve(s: Session, line: &[u8], report: &mut [u8; 928]) -> Served
    ensures served_as { ServedAs (serve_of (tables declared) (session_of s) line.now) result report.old report.new }
    ensures keeps { Keeps s result report.old report.new }
{
    if let Some(r) = s.refusal {
        return Served {
            session: s,
            reply: Err(r),
        };
    }
    match schedule::next_line(s.lines, line) {
        Ok(line) => step_line(s, line, report),
        Err(r) => unread(s, r),
    }
}
