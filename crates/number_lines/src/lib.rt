// Numbers on lines of 12 bytes each (document 02, Cards 6 and 7): printed, and read back.
#![tactic(auto)]

ghost use Rattle.std.specs.Prelude.{◌≡◌, ◌==◌, ◌++◌, ◌*◌, ◌≤◌, length, drop};
ghost use Rattle.number_lines.specs.Lines.{number_line, number_lines, number_read, NumbersRead};

// Fills the 12 bytes of a line with a number.
#[tactic(auto, unfolding(crate::specs::Lines::number_line))]
fn print_number(out: &mut [u8], v: u32)
    requires { length out.old ≡ 12 }
    ensures { out.new ≡ number_line v }
{
    let (digits, end) = out.split_at_mut(11);
    columns::write_column(digits, u64::from(v));
    end.copy_from_slice(b"\n");
}

// Writes numbers to the front of `out`, each on a line of its own, and hands back their bytes.
pub fn print_numbers(list: &[u32], out: &mut [u8]) -> usize
    requires { length list.now * 12 ≤ length out.old }
    ensures value { result ≡ length list.now * 12 }
    ensures out_after { out.new ≡ number_lines list.now ++ drop (length (number_lines list.now)) out.old }
{
    for (i, v) in list.iter().enumerate() {
        let at = i * 12;
        print_number(&mut out[at..at + 12], *v);
    }
    list.len() * 12
}

// Reads the line at the front of some bytes: a number in 11 columns, and the line's end.
#[tactic(auto, using(crate::proofs::Reading::line_short, crate::proofs::Reading::line_no_end, crate::proofs::Reading::line_end))]
fn read_number(bytes: &[u8]) -> Option<u64>
    ensures { result ≡ number_read bytes.now }
{
    if bytes.len() < 12 {
        return None;
    }
    if bytes[11] != b'\n' {
        return None;
    }
    columns::read_column(&bytes[..11])
}

// Reads numbers that are printed each on a line of its own, and writes them to the front of the list, as far as it has room and up to the first line that is
// that of no number. It hands back how many these are; their lines are all that there is if they have all the bytes.
pub fn read_numbers(bytes: &[u8], list: &mut [u64]) -> usize
    ensures { NumbersRead bytes.now list.old (result * 12 == length bytes.now) result list.new }
{
    for i in 0..list.len() {
        let Some(v) = read_number(&bytes[i * 12..]) else {
            return i;
        };
        list[i] = v;
    }
    list.len()
}
