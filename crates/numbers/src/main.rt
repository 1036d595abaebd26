// Reads a schedule file from standard input and writes its numbers, or its refusal, to standard output. It reads no further than the part of the file by
// which the answer is known. If it cannot read or write, it says so on standard error and stops.
#![tactic(auto)]

ghost use Rattle.std.specs.Prelude.{◌≡◌, length, IfSome, OnOk};
ghost use Rattle.std.specs.Io.KnownBytes.{Appends};
ghost use Rattle.transition.specs.Forms.{over};
ghost use Rattle.numbers.specs.Clauses.{printed_file};

use intake::Unread;
use std::io::{Read, Write};
use streams::{Failed, Stream};

// Writes what is printed for a whole file to the front of `out`, its numbers or its refusal, and hands back its bytes. The list has an entry for each line that
// is served.
fn print_file(file: &[u8], list: &mut [u32], out: &mut [u8]) -> usize
    requires list_len { length list.old ≡ 4096 }
    requires out_len { length out.old ≡ 49152 }
    ensures value { result ≡ length (printed_file file.now) }
    ensures out_after { out.new ≡ over (printed_file file.now) out.old }
{
    match numbering::numbers(file, list) {
        Ok(count) => number_lines::print_numbers(&list[..count], out),
        Err(refusal) => file::print_refusal(0, Some(refusal), out),
    }
}

// Reads a schedule file and writes what is printed for it.
fn answer<R: Read, W: Write, E: Write>(
    input: &mut Stream<'_, R, E>,
    output: &mut Stream<'_, W, E>,
) -> Result<(), Failed>
    ensures { OnOk result (IfSome (R.remaining input.old.stream) (λ bs. Appends (W.contents output.old.stream) (W.contents output.new.stream) (printed_file bs))) }
{
    let mut part = [0u8; intake::ROOM];
    let mut out = [0u8; 49152];
    match intake::read_schedule(input, &mut part) {
        Ok(count) => {
            let mut list = [0u32; 4096];
            let k = print_file(&part[..count], &mut list, &mut out);
            output.write_all(&out[..k])
        }
        Err(Unread::Refused(refusal)) => {
            let k = file::print_refusal(0, Some(refusal), &mut out);
            output.write_all(&out[..k])
        }
        Err(Unread::Failed) => Err(Failed),
    }
}

fn main(rt: HostRuntime) {
    let mut input = Stream {
        stream: rt.stdin(),
        errors: rt.stderr(),
        complaint: b"numbers: the schedule could not be read\n",
    };
    let mut output = Stream {
        stream: rt.stdout(),
        errors: rt.stderr(),
        complaint: b"numbers: the numbers could not be written\n",
    };
    let _ = answer(&mut input, &mut output);
}
