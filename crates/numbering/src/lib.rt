// Numbers for the unbounded table, kept beside a table of labels (document 02, Card 6): what a step of the labels does to them, and the numbers of a whole
// schedule file.
#![tactic(auto)]

ghost use Rattle.std.specs.Prelude.{◌≡◌, Bool, cond, ◌++◌, map, ℕ, ◌+◌, ◌-◌, ◌≤◌, ◌<◌, max, length, get_or, take, drop, set};
ghost use Rattle.label.specs.Labels.{below};
ghost use Rattle.label.specs.Rows.{digit};
ghost use Rattle.label.specs.Valid.{Digit, Valid};
ghost use Rattle.rows.specs.Held.{held};
ghost use Rattle.simulation.specs.Calls.{Buffer, original};
ghost use Rattle.simulation.specs.Machine.{put, label_step, label_snap, snap};
ghost use Rattle.simulation.specs.Numbering.{through, bump, number, placed, numbers_of};
ghost use Rattle.transition.specs.Forms.{over};
ghost use Rattle.moves.specs.Moves.{told_number, told_count, move_of, call_of};
ghost use Rattle.moves.specs.declared.Move.TheVariants.{SnapLabel};
ghost use Rattle.arrays.specs.Planes.{beside};
ghost use Rattle.schedule.specs.Demand.{step_calls};
ghost use Rattle.schedule.specs.Files.{lines_of};
ghost use Rattle.schedule.specs.Numbers.{snap_calls};
ghost use Rattle.file.specs.Tables.{arrays_in};
ghost use Rattle.file.specs.Clauses.{Runnable};
ghost use Rattle.numbering.specs.Clauses.{slot_for, slot_in, renumber_in, Renumbered, Counted, NumbersCall};
ghost use Rattle.numbering.specs.Files.{refused_by, NumbersFile};

use arrays::{CURRENT, LabelParts, OrderedTable, PENDING};
use moves::{Move, Refusal, Request};
use schedule::Survey;

// Where the number of a new label goes among those in use: it is one of them, or it comes right after one. Neither is a failure.
#[derive(Clone, Copy)]
enum Slot {
    Shared(u32),
    After(u32),
}

// Makes room behind c: what is higher goes up by one.
fn bumped(x: u32, c: u32) -> u32
    requires { x < 4294967295 }
    ensures { result ≡ bump c x }
{
    if x <= c { x } else { x + 1 }
}

// Makes room behind c in the first n of a list.
fn bump(list: &mut [u32], n: usize, c: u32)
    requires n_in_bounds { n ≤ length list.old }
    requires by_index { (i : ℕ) → i < n → get_or list.old i 0 < 4294967295 }
    ensures { list.new ≡ map (bump c) (take n list.old) ++ drop n list.old }
{
    for i in 0..n {
        list[i] = bumped(list[i], c);
    }
}

// What is highest so far, with one number more: it counts if its label is below the new one, by the digits at position p, where the two first differ.
fn higher(h: u32, number: u32, row: [u8; 31], new: [u8; 31], p: usize) -> u32
    requires p_bound { p < 31 }
    requires digit { Digit (digit row p) × Digit (digit new p) }
    ensures { result ≡ cond (below (digit row p) (digit new p)) (max number h) h }
{
    if number <= h {
        return h;
    }
    if label::below_at(row, new, p) {
        return number;
    }
    h
}

// The slot of the label of station k of n among the pending labels and their numbers, in one pass: if another station has this very label, the slot is
// shared with it; else it comes after the top number and the numbers of all labels below.
fn slot_of(rows: &[[u8; 31]; 32], n: usize, k: usize, pending: &[u32; 32], top: u32) -> Slot
    requires k_lt_n { (k < n) × (n ≤ 32) }
    requires by_index { (i : ℕ) → i < n → Valid (n - 1) (held rows.now i) }
    ensures { slot_for result ≡ slot_in n rows.now (λ i. get_or pending.now i 0) top k }
{
    let m = n - 1;
    let new = rows[k];
    let mut highest = top;
    for i in 0..n {
        if i != k {
            let p = label::first_difference(rows[i], new, m);
            if p == m {
                return Slot::Shared(pending[i]);
            }
            highest = higher(highest, pending[i], rows[i], new, p);
        }
    }
    Slot::After(highest)
}

// The numbers of all stations make room after c.
fn bump_planes(numbers: &mut [[u32; 32]; 2], c: u32)
    requires { (x : Bool) (i : ℕ) → beside numbers.old x i < 4294967295 }
    ensures { beside numbers.new ≡ through (bump c) (beside numbers.old) }
{
    arrays::sized(*numbers);
    bump(&mut numbers[CURRENT], 32, c);
    bump(&mut numbers[PENDING], 32, c);
}

// The pending label of station k gets the number v, which is given behind `count` others.
// The caller lends the list for all numbers that may come, so the count of those given stands beside it.
fn put_number(k: usize, v: u32, numbers: &mut [[u32; 32]; 2], given: &mut [u32], count: usize)
    requires { (k < 32) × (count < length given.old) }
    ensures numbers_after { beside numbers.new ≡ put (beside numbers.old) k v }
    ensures given_after { given.new ≡ set given.old count v }
{
    arrays::sized(*numbers);
    numbers[PENDING][k] = v;
    given[count] = v;
}

// The pending label of station k gets the number of this slot.
fn place_number(s: Slot, k: usize, numbers: &mut [[u32; 32]; 2], given: &mut [u32], count: usize)
    requires k_bound { (k < 32) × (count < length given.old) × (count ≤ 1000000) }
    requires counted { Counted count numbers.old given.old }
    requires s_bound { number (slot_for s) ≤ count + 1 }
    ensures { Renumbered (placed (beside numbers.old) k (slot_for s)) 1 count given.old
        numbers.new (count + 1) given.new }
{
    match s {
        Slot::Shared(v) => put_number(k, v, numbers, given, count),
        Slot::After(c) => {
            let v = c + 1;
            bump_planes(numbers, c);
            bump(given, count, c);
            put_number(k, v, numbers, given, count);
        }
    }
}

// Station k of n snaps for a label, where z is the newest, and the rows hold the pending labels after the snap.
fn number_snap(
    rows: &[[u8; 31]; 32],
    n: usize,
    z: usize,
    k: usize,
    numbers: &mut [[u32; 32]; 2],
    given: &mut [u32],
    count: usize,
)
    requires k_lt_n { (k < n) × (z < n) × (n ≤ 32) × (count < length given.old) × (count ≤ 1000000) }
    requires by_index { (i : ℕ) → i < n → Valid (n - 1) (held rows.now i) }
    requires counted { Counted count numbers.old given.old }
    ensures { Renumbered (renumber_in n rows.now z (beside numbers.old) (snap k)) 1 count given.old
        numbers.new (count + 1) given.new }
{
    if k == z {
        given[count] = 0;
        return;
    }
    let top = numbers[CURRENT][z];
    let s = slot_of(rows, n, k, &numbers[PENDING], top);
    place_number(s, k, numbers, given, count);
}

// The numbers after a move of the station at this place of n, where z is the newest, and the rows hold the pending labels after the move: those of the
// stations, and at the front of `given` those given so far, of which there were `count`. How many there are then is handed back.
fn renumber(
    m: Move,
    place: usize,
    z: usize,
    rows: &[[u8; 31]; 32],
    n: usize,
    numbers: &mut [[u32; 32]; 2],
    given: &mut [u32],
    count: usize,
) -> usize
    requires place_lt_n { (place < n) × (z < n) × (n ≤ 32) }
    requires by_index { (i : ℕ) → i < n → Valid (n - 1) (held rows.now i) }
    requires count_in_bounds { m ≡ SnapLabel → count < length given.old }
    requires count_bound { count ≤ 1000000 }
    requires counted { Counted count numbers.old given.old }
    ensures { Renumbered (renumber_in n rows.now z (beside numbers.old) (label_step (move_of place 0 m)))
        (label_snap (label_step (move_of place 0 m))) count given.old numbers.new result given.new }
{
    match m {
        Move::SnapLabel => {
            number_snap(rows, n, z, place, numbers, given, count);
            count + 1
        }
        Move::Update => {
            arrays::sized(*numbers);
            numbers[CURRENT][place] = numbers[PENDING][place];
            count
        }
        _ => count,
    }
}

// Serves a step line, and keeps the numbers beside the table; hands back how many are given then.
fn number_line(
    request: Request,
    table: &mut OrderedTable<LabelParts>,
    numbers: &mut [[u32; 32]; 2],
    given: &mut [u32],
    count: usize,
) -> usize
    requires runnable { Runnable (arrays_in table.old) table.old.order }
    requires count_in_bounds { request.code ≡ 3 → count < length given.old }
    requires count_in_bounds_2 { (count ≤ length given.old) × (count ≤ 1000000) }
    requires counted { Counted count numbers.old given.old }
    ensures numbers_call { NumbersCall (arrays_in table.old)
        (call_of request (Buffer 928)) numbers.old count given.old
        (arrays_in table.new)
        numbers.new result given.new }
    ensures runnable_2 { Runnable (arrays_in table.new) table.new.order }
{
    let n = table.count;
    match file::take_turn(request, table) {
        Err(_) => count,
        Ok(turn) => {
            let parts = &table.parts;
            renumber(
                turn.action,
                turn.handed.place,
                turn.newest,
                &parts.labels[PENDING],
                n,
                numbers,
                given,
                count,
            )
        }
    }
}

// Runs the lines after a header of n stations, up to one that ends the reading, from the fresh table; the numbers are written to the front of the list.
fn number_lines(n: usize, rest: &[u8], list: &mut [u32]) -> usize
    requires le_n { (2 ≤ n) × (n ≤ 32) }
    requires rest_in_bounds { snap_calls (step_calls original 1 (lines_of rest.now)) ≤ length list.old }
    ensures value { result ≡ length (numbers_of original n (step_calls original 1 (lines_of rest.now))) }
    ensures list_after { list.new ≡ over (numbers_of original n (step_calls original 1 (lines_of rest.now))) list.old }
{
    let mut table = file::blank(n);
    file::refresh(n, &mut table);
    let mut numbers = [[0u32; 32]; 2];
    let mut count = 0;
    let mut lines: u32 = 1;
    let mut at = 0;
    // A call stands at a place of the file: the last line may have fewer bytes than 18, and one that is refused ends the reading.
    loop {
        match schedule::next_call(lines, rest, at) {
            Ok(Some(request)) => {
                count = number_line(request, &mut table, &mut numbers, list, count);
                lines += 1;
                at += 18;
            }
            Ok(None) => return count,
            Err(_) => return count,
        }
    }
}

// The refusal of a schedule whose lines after the header come to this, for a list of so many entries.
fn refusal_of(s: Survey, entries: usize) -> Option<Refusal>
    ensures { result ≡ refused_by s.refusal s.steps s.snaps entries }
{
    let short = (entries < s.snaps as usize).then_some(Refusal::ListTooShort);
    schedule::refusal_of(s).or(short)
}

// The numbers of a whole file: one for each accepted snap for a label, in their order, at the front of the list; how many there are is handed back. What is
// refused is refused before any step is run.
pub fn numbers(file: &[u8], list: &mut [u32]) -> Result<usize, Refusal>
    ensures { NumbersFile file.now list.old (told_number result) (told_count result) list.new }
{
    let header = schedule::line_at(file, 0);
    let n = schedule::read_header(header)?;
    let rest = schedule::from(file, header.len());
    let survey = schedule::survey_lines(1, rest);
    if let Some(refusal) = refusal_of(survey, list.len()) {
        return Err(refusal);
    }
    Ok(number_lines(n, rest, list))
}
