// The one engine: step calls on a table in four arrays, which are lent and changed in place, and a question to it, which changes nothing. They are four
// parameters, as the C interface lends four arrays.
#![tactic(auto)]

ghost use Rattle.std.specs.Prelude.{◌≡◌, ◌≢◌, true, map, ℕ, ◌*◌, ◌≤◌, ◌<◌, length, get_or, replicate};
ghost use Rattle.basics.specs.Tests.{newest};
ghost use Rattle.rows.specs.Held.{stands_in, Orderly};
ghost use Rattle.simulation.specs.Calls.{Buffer, Panel, report_lines, panel_records, Bytes, Records, original};
ghost use Rattle.simulation.specs.Machine.{digits, label_step, relabelled};
ghost use Rattle.transition.specs.Forms.{over};
ghost use Rattle.transition.specs.Questions.{Tells};
ghost use Rattle.transition.specs.Sequences.{Steps};
ghost use Rattle.moves.specs.Moves.{room_of, told_number, told_count, move_of, call_of};
ghost use Rattle.moves.specs.declared.Move.TheVariants.{SnapLabel, SnapScan};
ghost use Rattle.arrays.specs.Arrays.{arrays, entries_in, labels_in, labels_of};
ghost use Rattle.arrays.specs.WellFormed.{well_formed};
ghost use Rattle.arrays.specs.Form.{lent};
ghost use Rattle.engine.specs.Scans.{order_of, found, scan_rows};
ghost use Rattle.engine.specs.Clauses.{Prepared, PreparedRest, PreparedLabels, rest_after, CarriesRest};
ghost use Rattle.engine.specs.Clauses.{Named, Carries, Judges, Hands, row_of, record_of};

use arrays::{
    CURRENT, Control, END_LABEL, END_SCAN, IDLE, IN_SERVICE, Jobs, Labels, OUT_OF_SERVICE, PENDING,
    Results, SNAP, UPDATE,
};
use moves::{Move, Refusal, Request, Room, Standing};

// The planes of control bytes.
const PHASE: usize = 0;

const SERVICE: usize = 1;

// A call that has been judged: its move, the place of its station, its job, the newest station, and how many entries the end of a scan hands out.
#[derive(Clone, Copy)]
pub struct Task {
    pub action: Move,
    pub place: usize,
    pub job: u64,
    pub newest: usize,
    pub shown: usize,
}

// What an accepted call hands out, before it is written anywhere: so many entries of the scan result at a place.
#[derive(Clone, Copy)]
pub struct Handed {
    pub place: usize,
    pub entries: usize,
}

// Writes the result of a scan of the first n stations of an order to `rows`: those that have a job and are in service.
fn scan_result(
    order: &[usize; 32],
    jobs: &[u32; 32],
    service: &[u8; 32],
    n: usize,
    rows: &mut [[u32; 32]; 2],
)
    requires n_bound { (n ≤ 32) × (n ≤ length order.now) }
    requires by_index { (p : ℕ) → p < n → get_or order.now p 0 < 32 }
    ensures { rows.new ≡ scan_rows n order.now (found jobs.now service.now) }
{
    *rows = [[0u32; 32]; 2];
    let mut k = 0;
    for &i in &order[..n] {
        let job = jobs[i];
        if job != 0 && service[i] == IN_SERVICE {
            rows[0][k] = (i + 1) as u32;
            rows[1][k] = job;
            k += 1;
        }
    }
}

// Writes the report lines of the first k entries of a scan result to the front of `out`, and hands back their bytes. The head is read anew for each line:
// kept in a local it is stored byte by byte.
pub fn write_result(rows: &[[u32; 32]; 2], k: usize, line: u64, out: &mut [u8]) -> usize
    requires k_bound { k ≤ 32 }
    requires named { Named k rows.now }
    requires k_in_bounds { k * 29 ≤ length out.old }
    ensures value { result ≡ k * 29 }
    ensures out_after { out.new ≡ over (report_lines line 1 (entries_in k rows.now)) out.old }
{
    if k == 0 {
        return 0;
    }
    columns::write_head(&mut out[0..11], line, 0);
    for p in 0..k {
        let at = p * 29;
        let head = columns::head_of(out);
        columns::write_scan_line(
            &mut out[at..at + 29],
            head,
            (p + 1) as u32,
            rows[0][p],
            rows[1][p],
        );
    }
    k * 29
}

// Writes the first k entries of a scan result to the first records of a panel; a record is place, station and job.
#[tactic(auto, using(crate::proofs::Reports::one_record_more), unfolding(simulation::specs::Calls::panel_records, basics::specs::Tests::tabulate))]
fn fill(rows: &[[u32; 32]; 2], k: usize, panel: &mut [[u32; 3]])
    requires k_bound { k ≤ 32 }
    requires k_in_bounds { k ≤ length panel.old }
    ensures { panel.new ≡ over (map row_of (panel_records 1 (entries_in k rows.now))) panel.old }
{
    for i in 0..k {
        panel[i] = [(i + 1) as u32, rows[0][i], rows[1][i]];
    }
}

// What a move of the station at a place makes of the labels of n stations; z is the newest of them, where the move asks for it.
fn relabel(m: Move, place: usize, z: usize, n: usize, labels: &mut Labels)
    requires { PreparedLabels n labels.old m place z }
    ensures { (job : ℕ) → labels.new ≡ labels_of (relabelled n (digits original n) (labels_in labels.old) (label_step (move_of place job m))) }
{
    match m {
        Move::SnapLabel => {
            let own = labels[PENDING][place];
            labels[PENDING][place] = rows::choice::pending_by(&labels[CURRENT], n, z, place, own);
        }
        Move::Update => {
            labels[CURRENT][place] = labels[PENDING][place];
        }
        _ => {}
    }
}

// Carries out a judged call on what a table of n stations holds beside its labels, whatever these are; the stations stand in this order. A refused one is
// passed on, and changes nothing.
pub fn carry_rest(
    n: usize,
    task: Result<Task, Refusal>,
    order: &[usize; 32],
    jobs: &mut Jobs,
    control: &mut Control,
    results: &mut Results,
) -> Result<Handed, Refusal>
    requires { PreparedRest n jobs.old control.old results.old task order.now }
    ensures { CarriesRest (rest_after n jobs.old control.old results.old task order.now) task
        jobs.new control.new results.new result }
{
    let task = task?;
    let place = task.place;
    match task.action {
        Move::BeginLabel => {
            jobs[PENDING][place] = task.job as u32;
            control[PHASE][place] = SNAP;
            Ok(Handed { place, entries: 0 })
        }
        Move::SnapLabel => {
            control[PHASE][place] = UPDATE;
            Ok(Handed { place, entries: 0 })
        }
        Move::SnapScan => {
            scan_result(
                order,
                &jobs[CURRENT],
                &control[SERVICE],
                n,
                &mut results[place],
            );
            control[PHASE][place] = END_SCAN;
            Ok(Handed { place, entries: 0 })
        }
        Move::Update => {
            jobs[CURRENT][place] = jobs[PENDING][place];
            control[PHASE][place] = END_LABEL;
            Ok(Handed { place, entries: 0 })
        }
        Move::EndLabel => {
            control[PHASE][place] = IDLE; // pending label and job stay
            Ok(Handed { place, entries: 0 })
        }
        Move::EndScan => {
            control[PHASE][place] = IDLE; // the result stays
            Ok(Handed {
                place,
                entries: task.shown,
            })
        }
        Move::LeaveService => {
            control[SERVICE][place] = OUT_OF_SERVICE;
            Ok(Handed { place, entries: 0 })
        }
        Move::ReturnToService => {
            control[SERVICE][place] = IN_SERVICE;
            Ok(Handed { place, entries: 0 })
        }
    }
}

// Carries out a judged call on a well-formed table of n stations with this scan order.
pub fn carry_out(
    n: usize,
    task: Result<Task, Refusal>,
    order: &[usize; 32],
    labels: &mut Labels,
    jobs: &mut Jobs,
    control: &mut Control,
    results: &mut Results,
) -> Result<Handed, Refusal>
    requires { Prepared (arrays n labels.old jobs.old control.old results.old) task order.now }
    ensures { Carries (arrays n labels.old jobs.old control.old results.old) task
        (arrays n labels.new jobs.new control.new results.new) result }
{
    arrays::shaped(*labels, *jobs, *control, *results);
    let accepted = task?;
    let handed = carry_rest(n, task, order, jobs, control, results);
    relabel(accepted.action, accepted.place, accepted.newest, n, labels);
    handed
}

// Judges a call on a table of n stations with what is lent for its report; `top` is the newest station, as far as it is known.
pub fn judge(
    n: usize,
    q: Request,
    control: &Control,
    results: &Results,
    room: Room,
    top: usize,
) -> Result<Task, Refusal>
    requires { (2 ≤ n) × (n ≤ 32) }
    ensures { Judges n control.now results.now q (room_of room) top result }
{
    let place = moves::place_of(q.station, n);
    let number = control[PHASE][place];
    let shown = if number == END_SCAN {
        arrays::shown_in(n, &results[place][0])
    } else {
        0
    };
    let phase = arrays::phase_of(number);
    let out = arrays::is_out(control[SERVICE][place]);
    let own = Standing { phase, out, shown };
    let action = moves::judge(n, own, q.code, q.station, q.job, room)?;
    Ok(Task {
        action,
        place,
        job: q.job,
        newest: top,
        shown,
    })
}

// The newest station, for a move that asks for it; else 0.
fn newest_for(m: Move, rows: &[[u8; 31]; 32], n: usize) -> usize
    requires { Orderly n rows.now }
    ensures value { m ≡ SnapLabel → result ≡ newest n (stands_in n rows.now) }
    ensures value_2 { m ≢ SnapLabel → result ≡ 0 }
{
    match m {
        Move::SnapLabel => rows::order::newest(rows, n).station,
        _ => 0,
    }
}

// The scan order, for a move that asks for it; else 0s.
fn order_for(m: Move, rows: &[[u8; 31]; 32], n: usize) -> [usize; 32]
    requires { Orderly n rows.now }
    ensures value { m ≡ SnapScan → result ≡ order_of n rows.now }
    ensures value_2 { m ≢ SnapScan → result ≡ replicate 32 0 }
{
    match m {
        Move::SnapScan => rows::order::order(rows, n),
        _ => [0usize; 32],
    }
}

// A step call on a well-formed table of n stations.
fn serve(
    n: usize,
    request: Request,
    room: Room,
    labels: &mut Labels,
    jobs: &mut Jobs,
    control: &mut Control,
    results: &mut Results,
) -> Result<Handed, Refusal>
    requires { well_formed (arrays n labels.old jobs.old control.old results.old) ≡ true }
    ensures { Hands (arrays n labels.old jobs.old control.old results.old)
        (call_of request (room_of room)) (arrays n labels.new jobs.new control.new results.new) result }
{
    arrays::shaped(*labels, *jobs, *control, *results);
    let mut task = judge(n, request, control, results, room, 0)?;
    task.newest = newest_for(task.action, &labels[CURRENT], n);
    let order = order_for(task.action, &labels[CURRENT], n);
    carry_out(n, Ok(task), &order, labels, jobs, control, results)
}

// A step call on a table of unknown content, up to what is written of it: 13 is judged first, on all that is lent. A refused call changes nothing.
pub fn perform(
    count: u64,
    request: Request,
    room: Room,
    labels: &mut Labels,
    jobs: &mut Jobs,
    control: &mut Control,
    results: &mut Results,
) -> Result<Handed, Refusal>
    ensures { Hands (arrays count labels.old jobs.old control.old results.old)
        (call_of request (room_of room)) (arrays count labels.new jobs.new control.new results.new) result }
{
    if !well_formed::well_formed(count, labels, jobs, control, results) {
        return Err(Refusal::IllFormedTable);
    }
    serve(
        count as usize,
        request,
        room,
        labels,
        jobs,
        control,
        results,
    )
}

// A step call with a report buffer: how many bytes of it are written.
pub fn step(
    count: u64,
    request: Request,
    labels: &mut Labels,
    jobs: &mut Jobs,
    control: &mut Control,
    results: &mut Results,
    report: &mut [u8],
) -> Result<usize, Refusal>
    ensures { Steps lent (arrays count labels.old jobs.old control.old results.old)
        (call_of request (Buffer (length report.old))) (Bytes report.old)
        (arrays count labels.new jobs.new control.new results.new)
        (told_number result) (told_count result) (Bytes report.new) }
{
    let room = Room::Buffer(report.len());
    let handed = perform(count, request, room, labels, jobs, control, results)?;
    let rows = &results[handed.place];
    Ok(write_result(rows, handed.entries, request.line, report))
}

// A step call with a panel: how many records of it are written.
pub fn step_shown(
    count: u64,
    request: Request,
    labels: &mut Labels,
    jobs: &mut Jobs,
    control: &mut Control,
    results: &mut Results,
    panel: &mut [[u32; 3]],
) -> Result<usize, Refusal>
    ensures { Steps lent (arrays count labels.old jobs.old control.old results.old)
        (call_of request (Panel (length panel.old))) (Records (map record_of panel.old))
        (arrays count labels.new jobs.new control.new results.new)
        (told_number result) (told_count result) (Records (map record_of panel.new)) }
{
    let room = Room::Panel(panel.len());
    let handed = perform(count, request, room, labels, jobs, control, results)?;
    fill(&results[handed.place], handed.entries, panel);
    Ok(handed.entries)
}

// How many stations of a table of unknown content have the newest's label. 13 is judged first, on all that is lent.
pub fn top_holders(
    count: u64,
    labels: &Labels,
    jobs: &Jobs,
    control: &Control,
    results: &Results,
) -> Result<usize, Refusal>
    ensures { Tells lent (arrays count labels.now jobs.now control.now results.now)
        (told_number result) (told_count result) }
{
    if well_formed::well_formed(count, labels, jobs, control, results) {
        let top = rows::order::newest(&labels[CURRENT], count as usize);
        Ok(top.holders)
    } else {
        Err(Refusal::IllFormedTable)
    }
}
