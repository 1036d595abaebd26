// Reads a schedule file from standard input and writes its report to standard output. If either cannot be done, it says so on standard error and stops.
#![tactic(auto)]

ghost use Rattle.std.specs.Prelude.{◌≡◌, false, ◌+◌, ◌*◌, ◌≤◌, ◌<◌, length, IfOk, IfSome};
ghost use Rattle.file.specs.Tables.{arrays_in};
ghost use Rattle.file.specs.Feeds.{Underway};

use arrays::{LabelParts, OrderedTable};
use file::Run;
use std::io::{Read, Write};
use streams::{Failed, Stream};

// The run and its table are no struct of their own: what joins them, `Underway`, tells of a list of calls, and a ghost field may not.

// Serves a part of the file, and prints its report: whenever the output buffer has no room for another line, and at the end. If there is more to read, since
// the part is not the last and no line is refused for good, it hands back how many bytes of the part were served.
fn serve_part<W: Write, E: Write>(
    run: &mut Run,
    last: bool,
    table: &mut OrderedTable<LabelParts>,
    part: &[u8],
    out: &mut [u8],
    output: &mut Stream<'_, W, E>,
) -> Result<Option<usize>, Failed>
    requires underway { Underway run.old (arrays_in table.old) table.old.order }
    requires in_bounds { 928 ≤ length out.old }
    ensures underway_2 { Underway run.new (arrays_in table.new) table.new.order }
    ensures served { IfOk result (λ more. IfSome more (λ count. (last ≡ false) × (count ≤ length part.now) × (length part.now < count + 18)
        × (18 * run.new.lines ≡ 18 * run.old.lines + count) × (run.new.lines ≤ 1000001))) }
{
    let mut at = 0;
    // How far the part is served is known only then, so no range counts the places.
    loop {
        let fed = file::feed(*run, last, table, &part[at..], out);
        *run = fed.run;
        output.write_all(&out[..fed.written])?;
        at += fed.read;
        if !fed.more {
            return Ok((run.refusal.is_none() && !last).then_some(at));
        }
    }
}

// Reads a part of the file behind the bytes that are kept, and serves it. A part that is not full is the last. If there is more to read, it hands back how many
// bytes are kept at the front of the buffer for the next part.
fn read_part<R: Read, W: Write, E: Write>(
    run: &mut Run,
    kept: usize,
    table: &mut OrderedTable<LabelParts>,
    buf: &mut [u8],
    out: &mut [u8],
    input: &mut Stream<'_, R, E>,
    output: &mut Stream<'_, W, E>,
) -> Result<Option<usize>, Failed>
    requires underway { Underway run.old (arrays_in table.old) table.old.order }
    requires kept_bound { (kept < 18) × (36 ≤ length buf.old) }
    requires in_bounds { 928 ≤ length out.old }
    ensures underway_2 { Underway run.new (arrays_in table.new) table.new.order }
    ensures kept_bound_2 { IfOk result (λ more. IfSome more (λ count. (count < 18) × (run.old.lines < run.new.lines) × (run.new.lines ≤ 1000001))) }
    ensures all_read { IfOk result (λ more. IfSome more (λ count. 18 * run.new.lines + count ≡ 18 * run.old.lines + length buf.old)) }
{
    let count = input.read_full(&mut buf[kept..])?;
    let end = kept + count;
    let more = serve_part(run, end < buf.len(), table, &buf[..end], out, output)?;
    let Some(served) = more else {
        return Ok(None);
    };
    buf.copy_within(served..end, 0);
    Ok(Some(end - served))
}

// Serves part after part. Each that is not the last counts its lines, which end with the 1,000,001st.
fn serve<R: Read, W: Write, E: Write>(
    input: &mut Stream<'_, R, E>,
    output: &mut Stream<'_, W, E>,
) -> Result<(), Failed> {
    let mut buf = [0u8; 73728];
    let mut out = [0u8; 65536];
    let (mut run, mut table) = file::start();
    let mut kept = 0;
    while let Some(next) = read_part(
        &mut run, kept, &mut table, &mut buf, &mut out, input, output,
    )? {
        kept = next;
    }
    Ok(())
}

fn main(rt: HostRuntime) {
    let mut input = Stream {
        stream: rt.stdin(),
        errors: rt.stderr(),
        complaint: b"tickets: the schedule could not be read\n",
    };
    let mut output = Stream {
        stream: rt.stdout(),
        errors: rt.stderr(),
        complaint: b"tickets: the report could not be written\n",
    };
    let _ = serve(&mut input, &mut output);
}
