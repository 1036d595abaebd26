// Input and output for programs that end with a line on standard error where one of them fails.
#![tactic(auto)]

ghost use Rattle.std.specs.Prelude.{◌≡◌, ◌<◌, take, length, IfOk, IfSome, OnOk};
ghost use Rattle.std.specs.Io.KnownBytes.{Appends, Consumes, IsAtEnd};
ghost use Rattle.streams.specs.Clauses.{Descriptor, IsPrefixLen};

use std::env::Env;
use std::fs::File;
use std::io::{Read, Stderr, Write};
use std::os::fd::AsRawFd;
use std::str;

// A stream failed, and that was said.
#[derive(Clone, Copy)]
pub struct Failed;

// A stream, and what is written to `errors` where it fails.
#[derive(Drop)]
pub struct Stream<'a, S, E> {
    pub stream: S,
    pub errors: E,
    pub complaint: &'a [u8],
}

// Says what failed; where that cannot be written either, nothing is left to do.
fn complain<E: Write>(errors: &mut E, complaint: &[u8]) -> Failed {
    let _ = errors.write_all(complaint);
    Failed
}

// Reads until `buf` is full or the input ends, and hands back how many bytes were read; complains if it cannot be read.
pub fn read_input<R: Read, E: Write>(
    input: &mut R,
    buf: &mut [u8],
    errors: &mut E,
    complaint: &[u8],
) -> Result<usize, Failed>
    ensures prefix_len { IfOk result (λ n. IsPrefixLen n buf.new) }
    ensures bytes { IfOk result (λ n. Consumes (R.remaining input.old) (R.remaining input.new) (take n buf.new)) }
    ensures end { IfOk result (λ n. n < length buf.new → IsAtEnd (R.remaining input.new)) }
{
    let mut count = 0;
    // A read may give any number of bytes, so no range counts them.
    while count < buf.len() {
        let k = input
            .read(&mut buf[count..])
            .map_err(|_| complain(errors, complaint))?;
        if k == 0 {
            return Ok(count);
        }
        count += k;
    }
    Ok(count)
}

// Writes all bytes; complains if they cannot be written.
pub fn write_output<W: Write, E: Write>(
    output: &mut W,
    bytes: &[u8],
    errors: &mut E,
    complaint: &[u8],
) -> Result<(), Failed>
    ensures { OnOk result (Appends (W.contents output.old) (W.contents output.new) bytes.now) }
{
    output
        .write_all(bytes)
        .map_err(|_| complain(errors, complaint))
}

impl<R: Read, E: Write> Stream<'_, R, E> {
    // Reads from the stream as `read_input` does.
    pub fn read_full(&mut self, buf: &mut [u8]) -> Result<usize, Failed>
        ensures prefix_len { IfOk result (λ n. IsPrefixLen n buf.new) }
        ensures bytes { IfOk result (λ n. Consumes (R.remaining self.old.stream) (R.remaining self.new.stream) (take n buf.new)) }
        ensures end { IfOk result (λ n. n < length buf.new → IsAtEnd (R.remaining self.new.stream)) }
        ensures kept { self.new.complaint ≡ self.old.complaint }
    {
        read_input(&mut self.stream, buf, &mut self.errors, self.complaint)
    }
}

impl<W: Write, E: Write> Stream<'_, W, E> {
    // Writes to the stream as `write_output` does.
    pub fn write_all(&mut self, bytes: &[u8]) -> Result<(), Failed>
        ensures written { OnOk result (Appends (W.contents self.old.stream) (W.contents self.new.stream) bytes.now) }
        ensures kept { self.new.complaint ≡ self.old.complaint }
    {
        write_output(&mut self.stream, bytes, &mut self.errors, self.complaint)
    }
}

// The file, if its descriptor is not negative.
fn with_descriptor(file: File) -> Option<File>
    ensures { IfSome result Descriptor }
{
    if file.as_raw_fd() < 0 {
        return None;
    }
    Some(file)
}

// Opens the file of this name for reading; a name that is not UTF-8 names none.
fn open_named(rt: &HostRuntime, name: &[u8]) -> Option<File>
    ensures { IfSome result Descriptor }
{
    let path = str::from_utf8(name).ok()?;
    let file = File::open(rt, path).ok()?;
    with_descriptor(file)
}

// Opens the file that argument i names for reading; complains if there is no such argument, or it names no file that can be opened.
pub fn open_argument<'a>(
    rt: &HostRuntime,
    i: usize,
    complaint: &'a [u8],
) -> Result<Stream<'a, File, Stderr>, Failed>
    ensures { IfOk result (λ opened. Descriptor opened.stream) }
{
    let mut path = [0u8; 4096];
    let named = rt.arg(i, &mut path).ok();
    let stream = named
        .and_then(|k| open_named(rt, &path[..k]))
        .ok_or_else(|| complain(&mut rt.stderr(), complaint))?;
    Ok(Stream {
        stream,
        errors: rt.stderr(),
        complaint,
    })
}
