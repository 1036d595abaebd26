// A table in four arrays, which are lent: their types, the fresh table, and how far a scan result goes. C lends four arrays, so functions on its way take four.
#![tactic(auto)]

ghost use Rattle.std.specs.Prelude.{◌≡◌, ℕ, ◌≤◌};
ghost use Rattle.moves.specs.Moves.{phase_of};
ghost use Rattle.simulation.specs.Machine.{fresh_rest};
ghost use Rattle.transition.specs.Forms.{fresh_table};
ghost use Rattle.arrays.specs.Arrays.{arrays, phase_for, out_for, shown_in, Holds};
ghost use Rattle.arrays.specs.Form.{lent};
ghost use Rattle.arrays.specs.Sizes.{Sized, Shaped};

use moves::{Operation, Phase};

// Current and pending labels.
pub type Labels = [[[u8; 31]; 32]; 2];

// Current and pending jobs.
pub type Jobs = [[u32; 32]; 2];

// What each station is due to do, its phase, as a number; and whether it is out of service.
pub type Control = [[u8; 32]; 2];

// The stations, from 1, and the jobs of each station's scan result.
pub type Results = [[[u32; 32]; 2]; 32];

// The four arrays of a table in one value, with labels or with numbers. Their types are parameters, since the prover does not follow a literal with arrays of
// arrays in its fields.
#[derive(Clone, Copy)]
pub struct Parts<L, J, C, R> {
    pub labels: L,
    pub jobs: J,
    pub control: C,
    pub results: R,
}

// The four arrays of a table of labels.
pub type LabelParts = Parts<Labels, Jobs, Control, Results>;

// A table that calls are served on one after the other: how many stations it has, their scan order, and its arrays.
#[derive(Clone, Copy)]
pub struct OrderedTable<P> {
    pub count: usize,
    pub order: [usize; 32],
    pub parts: P,
}

// The planes of what is current and of what is pending.
pub const CURRENT: usize = 0;

pub const PENDING: usize = 1;

// The numbers of the phases, in the control bytes that C lends.
pub const IDLE: u8 = 0;

pub const SNAP: u8 = 1;

pub const UPDATE: u8 = 2;

pub const END_LABEL: u8 = 3;

pub const END_SCAN: u8 = 4;

// The numbers of a station in service, and of one that is out of it.
pub const IN_SERVICE: u8 = 0;

pub const OUT_OF_SERVICE: u8 = 1;

// The phase that a number stands for. `Phase` is declared in `moves`, so an impl of `From` cannot stand here.
pub fn phase_of(b: u8) -> Phase
    ensures { phase_of result ≡ phase_for b }
{
    match b {
        IDLE => Phase::Idle,
        SNAP => Phase::Snap,
        UPDATE => Phase::Update,
        END_LABEL => Phase::End(Operation::Label),
        _ => Phase::End(Operation::Scan),
    }
}

// Whether a number stands for out of service; every number but 0 is read so.
pub fn is_out(b: u8) -> bool
    ensures { result ≡ out_for b }
{
    b != IN_SERVICE
}

// The lengths of two planes of numbers, which are known of an array passed by value. Of a lent array the prover knows its own length, and none of its rows'.
pub fn sized(numbers: [[u32; 32]; 2])
    ensures { Sized 2 32 numbers }
{}

// The lengths of lent arrays, which are known of arrays passed by value. Nothing is left of the copies when this is compiled.
pub fn shaped(labels: Labels, jobs: Jobs, control: Control, results: Results)
    ensures { (n : ℕ) → Shaped (arrays n labels jobs control results) }
{}

// How many places of a row of n stations are shown: up to the last that has a station.
pub fn shown_in(n: usize, stations: &[u32; 32]) -> usize
    requires { n ≤ 32 }
    ensures { result ≡ shown_in n stations.now }
{
    match stations[..n].iter().rposition(|s| *s != 0) {
        Some(last) => last + 1,
        None => 0,
    }
}

// Writes what a fresh table holds beside its labels over what is lent: no jobs, all idle and in service, empty results.
pub fn refresh_rest(jobs: &mut Jobs, control: &mut Control, results: &mut Results)
    ensures { Holds fresh_rest jobs.new control.new results.new }
{
    *jobs = [[0; 32]; 2];
    *control = [[IDLE; 32], [IN_SERVICE; 32]];
    *results = [[[0; 32]; 2]; 32];
}

// Writes the fresh table of n stations over what is lent.
pub fn refresh(
    n: usize,
    labels: &mut Labels,
    jobs: &mut Jobs,
    control: &mut Control,
    results: &mut Results,
)
    ensures { arrays n labels.new jobs.new control.new results.new ≡ fresh_table lent n }
{
    *labels = [[[1; 31]; 32]; 2];
    refresh_rest(jobs, control, results);
}

// These four in one value.
fn together<L: Copy + Drop, J: Copy + Drop, C: Copy + Drop, R: Copy + Drop>(
    labels: L,
    jobs: J,
    control: C,
    results: R,
) -> Parts<L, J, C, R>
    ensures { result ≡ record { labels = labels; jobs = jobs; control = control; results = results } }
{
    Parts {
        labels,
        jobs,
        control,
        results,
    }
}

// These labels or numbers, and what a fresh table holds beside its labels.
pub fn fresh_beside<L: Copy + Drop>(labels: L) -> Parts<L, Jobs, Control, Results>
    ensures labels_value { result.labels ≡ labels }
    ensures rest { Holds fresh_rest result.jobs result.control result.results }
{
    together(
        labels,
        [[0; 32]; 2],
        [[IDLE; 32], [IN_SERVICE; 32]],
        [[[0; 32]; 2]; 32],
    )
}

// The fresh table, of any number of stations.
pub fn fresh_parts() -> LabelParts
    ensures { (n : ℕ) → arrays n result.labels result.jobs result.control result.results ≡ fresh_table lent n }
{
    fresh_beside([[[1; 31]; 32]; 2])
}
