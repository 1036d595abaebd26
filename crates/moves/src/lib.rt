// What a step call amounts to, and its refusal.
#![tactic(auto)]

ghost use Rattle.std.specs.Prelude.{◌≡◌, true, ℕ, ◌-◌, ◌≤◌};
ghost use Rattle.simulation.specs.Calls.{unless, job_fits, not_due, needs_service, by_service, holds, original, by_phase, judge_in};
ghost use Rattle.moves.specs.Moves.{phase_of, room_of, standing_of, refusal_number, final_number, step_code, Decodes, judged_of, called, directly, place_of};

mod standing;

pub use standing::Standing;

// What a process is doing: it takes a label, or it scans (document 01: mark, list).
#[derive(Clone, Copy)]
pub enum Operation {
    Label,
    Scan,
}

// What a process is due to do next (document 01: idle; due to look, write, end). The paper's pc with its op. A scan snaps as it begins, so a snap that is
// due is for a label.
#[derive(Clone, Copy)]
pub enum Phase {
    Idle,
    Snap,
    Update,
    End(Operation),
}

// What a caller lends for the report of a scan: a buffer of so many bytes, or a panel of so many records.
#[derive(Clone, Copy)]
pub enum Room {
    Buffer(usize),
    Panel(usize),
}

// Why a call is turned down, by the documents' number, of which those from 14 on are document 02's. Document 01's trade words stand beside the names.
#[derive(Clone, Copy, PartialEq, Eq)]
pub enum Refusal {
    StationCount = 1, // bad crew
    UnknownStation = 2, // stranger
    Busy = 3,
    NoSnapDue = 4, // no look due
    NoUpdateDue = 5, // no write due
    NothingToEnd = 6,
    NoRoom = 7, // short paper
    IncompleteLine = 8, // torn line
    MalformedColumn = 9, // bad column
    UnknownStep = 10,
    JobOutOfRange = 11, // bad job
    TooManyLines = 12, // full sheet
    IllFormedTable = 13, // spoiled table
    OutOfService = 14,
    InService = 15,
    TooManySteps = 16,
    ListTooShort = 17,
}

// The documents' number.
impl From<Refusal> for u64 {
    ghost from_gives = { λ refusal n. n ≡ refusal_number refusal };

    fn from(refusal: Refusal) -> u64 {
        refusal as u64
    }
}

// The documents' number, 0 where there is none.
pub fn number_of(refusal: Option<Refusal>) -> u64
    ensures { result ≡ final_number refusal }
{
    refusal.map_or(0, u64::from)
}

// What a station may be told to do, in the order of the documents' codes, from 1.
#[derive(Clone, Copy, PartialEq, Eq)]
pub enum Step {
    BeginLabel = 1,
    Scan = 2,
    Snap = 3,
    Update = 4,
    End = 5,
    LeaveService = 6,
    ReturnToService = 7,
}

impl TryFrom<u64> for Step {
    type Error = Refusal;

    ghost try_from_gives = { Decodes };

    fn try_from(code: u64) -> Result<Self, Refusal> {
        match code {
            1 => Ok(Step::BeginLabel),
            2 => Ok(Step::Scan),
            3 => Ok(Step::Snap),
            4 => Ok(Step::Update),
            5 => Ok(Step::End),
            6 => Ok(Step::LeaveService),
            7 => Ok(Step::ReturnToService),
            _ => Err(Refusal::UnknownStep),
        }
    }
}

// A step call as its caller makes it; report lines bear the number `line`.
#[derive(Clone, Copy)]
pub struct Request {
    pub code: u64,
    pub station: u64,
    pub job: u64,
    pub line: u64,
}

// A direct call: its report lines bear the number 0.
pub fn direct(code: u64, station: u64, job: u64) -> Request
    ensures { result ≡ directly code station job }
{
    Request {
        code,
        station,
        job,
        line: 0,
    }
}

// What an accepted call amounts to; a scan's begin is part of its snap.
#[derive(Clone, Copy, PartialEq, Eq)]
pub enum Move {
    BeginLabel,
    SnapLabel,
    SnapScan,
    Update,
    EndLabel,
    EndScan,
    LeaveService,
    ReturnToService,
}

// Whether there is room for what its scan result shows.
fn room_for(own: Standing, room: Room) -> bool
    ensures { result ≡ holds (room_of room) own.shown }
{
    match room {
        Room::Buffer(bytes) => own.shown * 29 <= bytes,
        Room::Panel(records) => own.shown <= records,
    }
}

// The refusal of a step that is not due.
fn not_due(step: Step) -> Refusal
    ensures { refusal_number result ≡ not_due (step_code step) }
{
    match step {
        Step::Snap => Refusal::NoSnapDue,
        Step::Update => Refusal::NoUpdateDue,
        Step::End => Refusal::NothingToEnd,
        _ => Refusal::Busy,
    }
}

// What a step with a fitting job amounts to, by the phase of its station and what its scan result shows.
#[tactic(auto, unfolding(simulation::specs::Calls::unless))]
fn by_phase(own: Standing, step: Step, room: Room) -> Result<Move, Refusal>
    ensures { (line station job : ℕ) → judged_of (station - 1) job result
        ≡ by_phase original true own.shown (called line (step_code step) station job (room_of room)) (phase_of own.phase) }
{
    match (own.phase, step) {
        (Phase::Idle, Step::BeginLabel) => Ok(Move::BeginLabel),
        (Phase::Idle, Step::Scan) => Ok(Move::SnapScan),
        (Phase::Idle, Step::LeaveService) => Ok(Move::LeaveService),
        (Phase::Idle, Step::ReturnToService) => Ok(Move::ReturnToService),
        (Phase::Snap, Step::Snap) => Ok(Move::SnapLabel),
        (Phase::Update, Step::Update) => Ok(Move::Update),
        (Phase::End(Operation::Label), Step::End) => Ok(Move::EndLabel),
        (Phase::End(Operation::Scan), Step::End) => {
            if room_for(own, room) {
                Ok(Move::EndScan)
            } else {
                Err(Refusal::NoRoom)
            }
        }
        _ => Err(not_due(step)),
    }
}

// Whether a step is one that only a station in service takes.
fn needs_service(step: Step) -> bool
    ensures { result ≡ needs_service (step_code step) }
{
    matches!(step, Step::BeginLabel | Step::Scan | Step::LeaveService)
}

// What a step with a fitting job amounts to: whether its station is out of service is judged first, and then the phase.
#[tactic(auto, unfolding(simulation::specs::Calls::unless))]
fn by_service(own: Standing, step: Step, room: Room) -> Result<Move, Refusal>
    ensures { (line station job : ℕ) → judged_of (station - 1) job result ≡ by_service own.out (step_code step)
        (by_phase original true own.shown (called line (step_code step) station job (room_of room)) (phase_of own.phase)) }
{
    if own.out && needs_service(step) {
        return Err(Refusal::OutOfService);
    }
    if !own.out && step == Step::ReturnToService {
        return Err(Refusal::InService);
    }
    by_phase(own, step, room)
}

// Whether a step takes this job.
fn job_fits(step: Step, job: u64) -> bool
    ensures { result ≡ job_fits (step_code step) job }
{
    match step {
        Step::BeginLabel => (1..=4294967295).contains(&job),
        _ => job == 0,
    }
}

// What a step of one of n stations amounts to: its job is judged first.
#[tactic(auto, unfolding(simulation::specs::Calls::unless))]
fn by_code(own: Standing, step: Step, job: u64, room: Room) -> Result<Move, Refusal>
    ensures { (line station : ℕ) → judged_of (station - 1) job result ≡ unless (job_fits (step_code step) job) 11 (by_service own.out (step_code step)
        (by_phase original true own.shown (called line (step_code step) station job (room_of room)) (phase_of own.phase))) }
{
    if !job_fits(step, job) {
        return Err(Refusal::JobOutOfRange);
    }
    by_service(own, step, room)
}

// What a call amounts to for a station of n with this standing.
#[tactic(auto, unfolding(simulation::specs::Calls::unless, simulation::specs::Calls::judge_in))]
pub fn judge(
    n: usize,
    own: Standing,
    code: u64,
    station: u64,
    job: u64,
    room: Room,
) -> Result<Move, Refusal>
    ensures { (line : ℕ) → judged_of (place_of n station) job result
        ≡ judge_in original n (standing_of own) (called line code station job (room_of room)) }
{
    let step = Step::try_from(code)?;
    if !(1..=n as u64).contains(&station) {
        return Err(Refusal::UnknownStation);
    }
    by_code(own, step, job, room)
}

// The place of a station of n, from 0; that of the first if there is no such station.
pub fn place_of(station: u64, n: usize) -> usize
    requires { 1 ≤ n }
    ensures { result ≡ place_of n station }
{
    if (1..=n as u64).contains(&station) {
        (station - 1) as usize
    } else {
        0
    }
}
