// Schedule files on the engine: the lines of a part of a file, and a whole file with its report.
#![tactic(auto)]

ghost use Rattle.std.specs.Prelude.{◌≡◌, ◌≢◌, cond, [], ◌++◌, ◌+◌, ◌*◌, ◌/◌, ◌≤◌, ◌<◌, length, take};
ghost use Rattle.rows.specs.Held.{Orderly, OrderedBefore};
ghost use Rattle.simulation.specs.Calls.{Buffer};
ghost use Rattle.transition.specs.Forms.{over, fresh_table};
ghost use Rattle.moves.specs.Moves.{final_number, told_number, told_count, call_of};
ghost use Rattle.moves.specs.declared.Move.TheVariants.{Update};
ghost use Rattle.arrays.specs.Form.{lent};
ghost use Rattle.engine.specs.Scans.{order_of};
ghost use Rattle.schedule.specs.Sessions.{session};
ghost use Rattle.schedule.specs.Files.{printed};
ghost use Rattle.file.specs.Tables.{arrays_in};
ghost use Rattle.file.specs.Clauses.{Runnable, Turns, Prints, Reports, RunsFile, ReportsFile};
ghost use Rattle.file.specs.Feeds.{Underway, Feeds, fed_of, Opens};

use arrays::{CURRENT, LabelParts, OrderedTable};
use engine::Handed;
use moves::{Move, Refusal, Request, Room};

// The most bytes that a line prints: 32 report lines of 29.
const ROOM: usize = 928;

// What lines leave beside the table and the output buffer: how many lines are counted, the final refusal if there is one, the
// bytes of the part that were read, and the bytes that were printed.
#[derive(Clone, Copy)]
struct Progress {
    lines: u32,
    refusal: Option<Refusal>,
    read: usize,
    written: usize,
}

// Writes the refusal line that bears the number `line` to the front of `out`, and nothing for no refusal; hands back its bytes.
#[tactic(auto, using(schedule::proofs::Runs::printed_accepted, schedule::proofs::Runs::printed_refused))]
pub fn print_refusal(line: u64, refusal: Option<Refusal>, out: &mut [u8]) -> usize
    requires { 29 ≤ length out.old }
    ensures value { result ≡ length (printed line (final_number refusal) []) }
    ensures out_after { out.new ≡ over (printed line (final_number refusal) []) out.old }
{
    let Some(refusal) = refusal else {
        return 0;
    };
    columns::write_report_line(&mut out[0..29], line, u64::from(refusal), 0, 0, 0);
    29
}

// Brings the scan order up to date after a move of the station at a place. Only an update can change it. `unbounded` has the same over numbers, where `reorder`
// is another, as is said there.
fn refresh_order(m: Move, place: usize, rows: &[[u8; 31]; 32], n: usize, order: &mut [usize; 32])
    requires orderly { Orderly n rows.now }
    requires place_lt_n { place < n }
    requires ordered_before { OrderedBefore n rows.now place order.old }
    requires order_value { m ≢ Update → order.old ≡ order_of n rows.now }
    ensures { order.new ≡ order_of n rows.now }
{
    match m {
        Move::Update => {
            rows::order::reorder(rows, n, order, place);
        }
        _ => {}
    }
}

// A step call that was accepted: what it amounts to, the newest station before it, and what it hands out.
#[derive(Clone, Copy)]
pub struct Turn {
    pub action: Move,
    pub newest: usize,
    pub handed: Handed,
}

// Serves a step call, up to what is written of it, and brings the scan order up to date.
pub fn take_turn(request: Request, table: &mut OrderedTable<LabelParts>) -> Result<Turn, Refusal>
    requires { Runnable (arrays_in table.old) table.old.order }
    ensures turns { Turns (arrays_in table.old) (call_of request (Buffer 928)) (arrays_in table.new) result }
    ensures runnable { Runnable (arrays_in table.new) table.new.order }
{
    let n = table.count;
    let newest = table.order[n - 1];
    let judged = engine::judge(
        n,
        request,
        &table.parts.control,
        &table.parts.results,
        Room::Buffer(ROOM),
        newest,
    );
    let handed = engine::carry_out(
        n,
        judged,
        &table.order,
        &mut table.parts.labels,
        &mut table.parts.jobs,
        &mut table.parts.control,
        &mut table.parts.results,
    )?;
    let task = judged?;
    let parts = &table.parts;
    refresh_order(
        task.action,
        task.place,
        &parts.labels[CURRENT],
        n,
        &mut table.order,
    );
    Ok(Turn {
        action: task.action,
        newest,
        handed,
    })
}

// Serves a step line: prints its report or its refusal to the front of `out`, and hands back its bytes.
fn serve_line(request: Request, table: &mut OrderedTable<LabelParts>, out: &mut [u8]) -> usize
    requires runnable { Runnable (arrays_in table.old) table.old.order }
    requires out_len { length out.old ≡ 928 }
    ensures prints { Prints (arrays_in table.old) (call_of request (Buffer 928)) out.old (arrays_in table.new) result out.new }
    ensures runnable_2 { Runnable (arrays_in table.new) table.new.order }
{
    match take_turn(request, table) {
        Ok(turn) => {
            let Handed { place, entries } = turn.handed;
            engine::write_result(&table.parts.results[place], entries, request.line, out)
        }
        Err(refusal) => print_refusal(request.line, Some(refusal), out),
    }
}

// Serves the lines of a part of the file after `lines` others, and writes what they print: up to a final refusal, or until there is no room for the report
// of another line.
fn report_lines(
    lines: u32,
    table: &mut OrderedTable<LabelParts>,
    chunk: &[u8],
    out: &mut [u8],
) -> Progress
    requires { Runnable (arrays_in table.old) table.old.order }
    ensures reports { Reports
        (session lines None (arrays_in table.old)) chunk.now
        (arrays_in table.new) result out.old out.new }
    ensures runnable { Runnable (arrays_in table.new) table.new.order }
{
    let mut count = lines;
    let mut written = 0;
    let mut at = 0;
    // The place is handed back, as the reading may end before any line: for want of room, or with one that is refused.
    loop {
        if out.len() - written < ROOM {
            return Progress {
                lines: count,
                refusal: None,
                read: at,
                written,
            };
        }
        match schedule::next_call(count, chunk, at) {
            Ok(None) => {
                return Progress {
                    lines: count,
                    refusal: None,
                    read: at,
                    written,
                };
            }
            Err(refusal) => {
                let line = schedule::line_at(chunk, at);
                let k = print_refusal(
                    u64::from(count) + 1,
                    Some(refusal),
                    &mut out[written..written + ROOM],
                );
                return Progress {
                    lines: count,
                    refusal: Some(refusal),
                    read: at + line.len(),
                    written: written + k,
                };
            }
            Ok(Some(request)) => {
                let k = serve_line(request, table, &mut out[written..written + ROOM]);
                count += 1;
                written += k;
                at += 18;
            }
        }
    }
}

// A file in its run: how many lines are counted, 0 before the header; and its final refusal, if there is one.
#[derive(Clone, Copy)]
pub struct Run {
    pub lines: u32,
    pub refusal: Option<Refusal>,
}

// What a part of the file leaves beside the table and the output buffer: the run, the bytes of the part that were read, the bytes that were printed, and
// whether more can be served of the part, for which there is no room.
#[derive(Clone, Copy)]
pub struct Fed {
    pub run: Run,
    pub read: usize,
    pub written: usize,
    pub more: bool,
}

// A table of n stations with nothing in it, to be written over: a value that is all zeros but for this number is made where it stands, and copied nowhere.
pub fn blank(n: usize) -> OrderedTable<LabelParts>
    ensures { result.count ≡ n }
{
    OrderedTable {
        count: n,
        order: [0; 32],
        parts: arrays::fresh_beside([[[0; 31]; 32]; 2]),
    }
}

// Writes the fresh table of n stations, with its scan order, over what is lent.
pub fn refresh(n: usize, table: &mut OrderedTable<LabelParts>)
    requires { (2 ≤ n) × (n ≤ 32) }
    ensures count_value { table.new.count ≡ n }
    ensures value { arrays_in table.new ≡ fresh_table lent n }
    ensures runnable { Runnable (arrays_in table.new) table.new.order }
{
    let parts = &mut table.parts;
    arrays::refresh(
        n,
        &mut parts.labels,
        &mut parts.jobs,
        &mut parts.control,
        &mut parts.results,
    );
    table.order = rows::order::order(&table.parts.labels[CURRENT], n);
    table.count = n;
}

// The fresh table of n stations, with its scan order.
pub fn fresh(n: usize) -> OrderedTable<LabelParts>
    requires { (2 ≤ n) × (n ≤ 32) }
    ensures count_value { result.count ≡ n }
    ensures value { arrays_in result ≡ fresh_table lent n }
    ensures runnable { Runnable (arrays_in result) result.order }
{
    let mut table = blank(n);
    refresh(n, &mut table);
    table
}

// A run before its first line, for whose table the fresh one of 2 stations is written over what is lent.
fn start_on(table: &mut OrderedTable<LabelParts>) -> Run
    ensures run_value { result ≡ record { lines = 0; refusal = None } }
    ensures table_value { arrays_in table.new ≡ fresh_table lent 2 }
    ensures underway { Underway result (arrays_in table.new) table.new.order }
{
    refresh(2, table);
    Run {
        lines: 0,
        refusal: None,
    }
}

// A run before its first line, and its table.
pub fn start() -> (Run, OrderedTable<LabelParts>)
    ensures run_value { result.0 ≡ record { lines = 0; refusal = None } }
    ensures table_value { arrays_in result.1 ≡ fresh_table lent 2 }
    ensures underway { Underway result.0 (arrays_in result.1) result.1.order }
{
    let mut table = blank(2);
    let run = start_on(&mut table);
    (run, table)
}

// Where the lines of a part end that can be served: behind the whole ones, and at the end of the last part.
fn end_of(len: usize, last: bool) -> usize
    ensures { result ≡ cond last len (18 * (len / 18)) }
{
    if last { len } else { len / 18 * 18 }
}

// What a part leaves whose lines were served from one place up to another.
fn fed_by(at: usize, r: Progress, end: usize) -> Fed
    requires { at + r.read ≤ end }
    ensures { result ≡ fed_of at r end }
{
    Fed {
        run: Run {
            lines: r.lines,
            refusal: r.refusal,
        },
        read: at + r.read,
        written: r.written,
        more: r.refusal.is_none() & (at + r.read < end),
    }
}

// Lines that can be served of a part: from a place on, behind `lines` others.
#[derive(Clone, Copy)]
struct Opening {
    lines: u32,
    at: usize,
}

// Reads the header where it is still to come, and writes the fresh table of its stations. What can be served then, if anything can; or the header is refused.
fn open_part(
    run: Run,
    last: bool,
    table: &mut OrderedTable<LabelParts>,
    part: &[u8],
) -> Result<Option<Opening>, Refusal>
    requires { Underway run (arrays_in table.old) table.old.order }
    ensures { Opens run (arrays_in table.old) last part.now (arrays_in table.new) table.new.order result }
{
    if run.refusal.is_some() {
        return Ok(None);
    }
    if run.lines != 0 {
        return Ok(Some(Opening {
            lines: run.lines,
            at: 0,
        }));
    }
    if (part.len() < 18) & !last {
        return Ok(None);
    }
    let n = schedule::read_header(schedule::line_at(part, 0))?;
    refresh(n, table);
    Ok(Some(Opening { lines: 1, at: 18 }))
}

// Serves a part of the file, the header first where it is still to come, and writes what the lines print. What is left unread of the part, a line that is
// not whole or lines for whose report there is no room, stands at the front of the next one.
pub fn feed(
    run: Run,
    last: bool,
    table: &mut OrderedTable<LabelParts>,
    part: &[u8],
    out: &mut [u8],
) -> Fed
    requires underway { Underway run (arrays_in table.old) table.old.order }
    requires in_bounds { 928 ≤ length out.old }
    ensures feeds { Feeds run (arrays_in table.old) last
        part.now result (arrays_in table.new)
        out.old out.new }
    ensures underway_2 { Underway result.run (arrays_in table.new)
        table.new.order }
{
    let end = end_of(part.len(), last);
    match open_part(run, last, table, part) {
        Ok(None) => Fed {
            run,
            read: 0,
            written: 0,
            more: false,
        },
        Err(refusal) => {
            let header = schedule::line_at(part, 0);
            let written = print_refusal(1, Some(refusal), out);
            Fed {
                run: Run {
                    lines: 0,
                    refusal: Some(refusal),
                },
                read: header.len(),
                written,
                more: false,
            }
        }
        Ok(Some(Opening { lines, at })) => {
            let r = report_lines(lines, table, &part[at..end], out);
            fed_by(at, r, end)
        }
    }
}

// Writes bytes to `out` from a place on, if they fit; hands back the place behind them.
fn put(bytes: &[u8], out: &mut [u8], at: usize) -> usize
    requires { at + length bytes.now ≤ 1000000000 }
    ensures value { result ≡ at + length bytes.now }
    ensures out_after { result ≤ length out.old → out.new ≡ over (take at out.old ++ bytes.now) out.old }
{
    let end = at + bytes.len();
    if end <= out.len() {
        out[at..end].copy_from_slice(bytes);
    }
    end
}

// The final refusal of a file, and the length of its report.
#[derive(Clone, Copy)]
struct Ending {
    refusal: Option<Refusal>,
    length: usize,
}

// Runs a whole file, and hands back how it ends; its report is written if it fits.
fn run_file(file: &[u8], out: &mut [u8]) -> Ending
    ensures { RunsFile file.now result out.old out.new }
{
    let mut table = blank(2);
    let mut run = start_on(&mut table);
    let mut scratch = [0u8; 4096];
    let mut length = 0;
    let mut at = 0;
    // How far a part is served is known only then, so no range counts the places.
    loop {
        let part = schedule::from(file, at);
        let fed = feed(run, true, &mut table, part, &mut scratch);
        length = put(&scratch[..fed.written], out, length);
        run = fed.run;
        if !fed.more {
            return Ending {
                refusal: run.refusal,
                length,
            };
        }
        at += fed.read;
    }
}

// What the call that reports a file tells: how many bytes were written, or its own refusal, 7 if the report does not fit; the final refusal of the file; and
// how long the report is.
#[derive(Clone, Copy)]
pub struct FileReply {
    pub reply: Result<usize, Refusal>,
    pub ended: Option<Refusal>,
    pub length: usize,
}

// What is told of a report that is written.
fn reported(whole: Ending) -> FileReply
    ensures { result ≡ record { reply = Ok whole.length; ended = whole.refusal; length = whole.length } }
{
    FileReply {
        reply: Ok(whole.length),
        ended: whole.refusal,
        length: whole.length,
    }
}

// Writes the report of a whole file; 7, and nothing is written, if it does not fit. Where there is no room for 928 bytes for each line, a first run tells how
// long the report is.
pub fn report(file: &[u8], out: &mut [u8]) -> FileReply
    ensures { ReportsFile file.now out.old (told_number result.reply) (final_number result.ended) (told_count result.reply) result.length
        out.new }
{
    if file.len() / 18 < out.len() / ROOM {
        return reported(run_file(file, out));
    }
    let mut scratch = [0u8; 29];
    let first = run_file(file, &mut scratch);
    if out.len() < first.length {
        return FileReply {
            reply: Err(Refusal::NoRoom),
            ended: first.refusal,
            length: first.length,
        };
    }
    reported(run_file(file, out))
}
