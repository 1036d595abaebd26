// The test of refusal 13 on a table in four arrays. A row is read to its end, fault or no fault: such loops compile to vector instructions. Tests that
// are joined by `&` are all made: there is one way through them.
#![tactic(auto)]

ghost use Rattle.std.specs.Prelude.{◌≡◌, ℕ, ◌+◌, ◌-◌, ◌<◌, ◌≤◌, [], length, nat_eq, nat_le, slice_index, slice_index_or};
ghost use Rattle.basics.specs.Tests.{within, every, count};
ghost use Rattle.arrays.specs.Arrays.{arrays, cell};
ghost use Rattle.arrays.specs.WellFormed.{entry_fits, result_fits, result_fresh, well_formed};
ghost use Rattle.well_formed.specs.Loops.{tops, half_fits, both_fit, control_at, none_from};

use arrays::{Control, Jobs, Labels, Results};

// The greatest digits: read from place 32 - m on, those of a label of m digits and the 1s past them.
fn tops() -> [u8; 64]
    ensures { result ≡ tops }
{
    let mut r = [1u8; 64];
    r[..32].fill(5);
    r
}

// Whether a digit is from 1 to `top`, by one comparison: 0 less 1 is the greatest byte.
fn digit_fits(d: u8, top: u8) -> bool
    ensures { result ≡ within 1 top d }
{
    d.wrapping_sub(1) < top
}

// Whether each of the 16 digits from position h on fits in two labels of m digits.
#[tactic(auto, unfolding(basics::specs::Tests::every))]
fn half_fits(m: usize, current: &[u8; 31], pending: &[u8; 31], most: &[u8; 64], h: usize) -> bool
    requires m_bound { (m ≤ 31) × (h ≤ 15) }
    requires most_value { most.now ≡ tops }
    ensures { result ≡ half_fits m current.now pending.now h }
{
    let mut r = true;
    for p in 0..16 {
        let q = h + p;
        let top = most[32 - m + q];
        r &= digit_fits(current[q], top) & digit_fits(pending[q], top);
    }
    r
}

// Whether these digits fit in the labels of k stations, from the one at `from` on.
fn halves_fit(m: usize, labels: &Labels, from: usize, k: usize, most: &[u8; 64], h: usize) -> bool
    requires m_bound { (m ≤ 31) × (from + k ≤ 32) × (h ≤ 15) }
    requires most_value { most.now ≡ tops }
    ensures { result ≡ every k (λ i. half_fits m (cell labels.now 0 (from + i) []) (cell labels.now 1 (from + i) []) h) }
{
    (from..from + k).all(|i| half_fits(m, &labels[0][i], &labels[1][i], most, h))
}

// Whether both labels of k stations, from the one at `from` on, fit as labels of m digits. First one half of all of them is read, then the other: the
// halves, as long as a vector each, share position 15, and no byte is read for both at once.
fn labels_fit(m: usize, labels: &Labels, from: usize, k: usize) -> bool
    requires { (m ≤ 31) × (from + k ≤ 32) }
    ensures { result ≡ every k (λ i. both_fit m labels.now (from + i)) }
{
    let most = tops();
    halves_fit(m, labels, from, k, &most, 0) & halves_fit(m, labels, from, k, &most, 15)
}

// Whether the control bytes of n stations fit, and those past them are fresh. All 32 places are read, and counted by bytes, as they are compared.
#[tactic(auto, unfolding(basics::specs::Tests::every))]
fn control_fits(n: usize, control: &Control) -> bool
    requires { n ≤ 32 }
    ensures { result ≡ every 32 (control_at n control.now) }
{
    let end = n as u8;
    let mut r = true;
    for i in 0..32 {
        let phase = control[0][i];
        let out = control[1][i];
        r &= (phase <= 4)
            & (out <= 1)
            & ((out == 0) | (phase == 0))
            & (((i as u8) < end) | ((phase == 0) & (out == 0)));
    }
    r
}

// Whether a row has nothing from place n on.
#[tactic(auto, unfolding(basics::specs::Tests::every))]
fn none_from(n: usize, row: &[u32; 32]) -> bool
    requires { n ≤ 32 }
    ensures { result ≡ none_from n row.now }
{
    let mut r = true;
    for x in &row[n..] {
        r &= *x == 0;
    }
    r
}

// Whether each of the first k entries of a result is that of a station up to `most`, with a job.
#[tactic(auto, using(basics::proofs::Loops::flag_more, basics::proofs::Loops::flag_up))]
fn entries_fit(k: usize, most: u32, stations: &[u32; 32], jobs: &[u32; 32]) -> bool
    requires { k ≤ 32 }
    ensures { result ≡ every k (λ p. entry_fits most (slice_index stations.now p) (slice_index jobs.now p)) }
{
    let mut r = true;
    for (station, job) in stations[..k].iter().zip(&jobs[..k]) {
        r &= (1 <= *station) & (*station <= most) & (*job != 0);
    }
    r
}

// How often each station stands in the first k places.
fn tally(k: usize, stations: &[u32; 32]) -> [u8; 33]
    requires k_bound { k ≤ 32 }
    requires by_index { (p : ℕ) → p < k → slice_index stations.now p ≤ 32 }
    ensures { (i : ℕ) → i < 33 → slice_index result i ≡ count k (λ p. nat_eq (slice_index stations.now p) i) }
{
    let mut r = [0u8; 33];
    for station in &stations[..k] {
        r[*station as usize] += 1;
    }
    r
}

// Whether none of n stations is counted twice.
#[tactic(auto, unfolding(basics::specs::Tests::every))]
fn none_twice(n: usize, counts: [u8; 33]) -> bool
    requires { n ≤ 32 }
    ensures { result ≡ every n (λ i. nat_le (slice_index counts (i + 1)) 1) }
{
    let mut r = true;
    for c in &counts[1..n + 1] {
        r &= *c <= 1;
    }
    r
}

// Whether a result fits a table of n stations.
fn result_fits(n: usize, rows: &[[u32; 32]; 2]) -> bool
    requires { n ≤ 32 }
    ensures { result ≡ result_fits n rows.now }
{
    let k = arrays::shown_in(n, &rows[0]);
    if !entries_fit(k, n as u32, &rows[0], &rows[1]) {
        return false;
    }
    none_twice(n, tally(k, &rows[0])) & none_from(n, &rows[0]) & none_from(k, &rows[1])
}

// Whether the results of n stations fit.
fn results_fit(n: usize, results: &Results) -> bool
    requires { n ≤ 32 }
    ensures { result ≡ every n (λ i. result_fits n (slice_index_or results.now i [])) }
{
    results[..n].iter().all(|rows| result_fits(n, rows))
}

// Whether the results past the n stations are empty.
fn rest_is_fresh(n: usize, results: &Results) -> bool
    requires { n ≤ 32 }
    ensures { result ≡ every (32 - n) (λ i. result_fresh (slice_index_or results.now (n + i) [])) }
{
    results[n..]
        .iter()
        .all(|rows| none_from(0, &rows[0]) & none_from(0, &rows[1]))
}

// Whether the arrays hold a well-formed table.
pub fn well_formed(
    count: u64,
    labels: &Labels,
    jobs: &Jobs,
    control: &Control,
    results: &Results,
) -> bool
    ensures { result ≡ well_formed (arrays count labels.now jobs.now control.now results.now) }
{
    if count < 2 {
        return false;
    }
    if 32 < count {
        return false;
    }
    let n = count as usize;
    let stations = labels_fit(n - 1, labels, 0, n) & results_fit(n, results);
    let places = labels_fit(0, labels, n, 32 - n)
        & none_from(n, &jobs[0])
        & none_from(n, &jobs[1])
        & rest_is_fresh(n, results);
    stations & places & control_fits(n, control) & rows::ring::no_ring(&labels[0], n)
}
