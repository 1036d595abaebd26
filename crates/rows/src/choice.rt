// The choice of a new label (document 01, "The new label").
ghost use Rattle.std.specs.Prelude.{◌≡◌, ◌≢◌, not, ◌&&◌, cond, ℕ, suc, ◌-◌, ◌≤◌, ◌<◌, length, get_or, eqb, leb, ltb};
ghost use Rattle.basics.specs.Tests.{count, first_from, newest, tabulate};
ghost use Rattle.label.specs.Labels.{first_difference, new_label};
ghost use Rattle.label.specs.Rows.{digit, row};
ghost use Rattle.rows.specs.Held.{held, Orderly, pending_in, stands_in};

// How many leading digits each of the n stations shares with the label `top`.
#[tactic(auto, using(basics::proofs::Filled::filled_none, basics::proofs::Filled::filled_more))]
fn shared_prefixes(rows: &[[u8; 31]; 32], n: usize, top: [u8; 31]) -> [usize; 32]
    requires { (1 ≤ n) × (n ≤ 32) }
    ensures { result ≡ tabulate 32 0 (λ j. cond (ltb j n) (first_difference (n - 1) (held rows.now j) (digit top)) 0) }
{
    let m = n - 1;
    let mut shared = [0usize; 32];
    for j in 0..n {
        shared[j] = label::first_difference(rows[j], top, m);
    }
    shared
}

// How many stations other than k share exactly q digits, for each q.
fn histogram(shared: &[usize], k: usize) -> [usize; 32]
    requires high { length shared.now ≤ 32 }
    requires by_index { (j : ℕ) → j < length shared.now → get_or shared.now j 0 < 32 }
    ensures { (q : ℕ) → q < 32 → get_or result q 0 ≡ count (length shared.now) (λ j. not (eqb j k) && eqb (get_or shared.now j 0) q) }
{
    let mut r = [0usize; 32];
    for (j, q) in shared.iter().enumerate() {
        if j != k {
            r[*q] += 1;
        }
    }
    r
}

// The position h - 1 of the new label, h the smallest at which at least n - h stations other than k share h digits, n the number of stations.
// As there are n - 1 of them, that is the first p at which at most p of them share at most p digits.
fn level(shared: &[usize], k: usize) -> usize
    requires k_lt_n { (k < length shared.now) × (length shared.now ≤ 32) }
    requires by_index { (j : ℕ) → j < length shared.now → get_or shared.now j 0 < 32 }
    ensures { let n = length shared.now in
        result ≡ first_from (n - 1) 0 (λ p. leb (n - 1 - p) (count n (λ j. not (eqb j k) && leb (suc p) (get_or shared.now j 0)))) }
{
    let exact = histogram(shared, k);
    let m = shared.len() - 1;
    let mut few: usize = 0;
    for p in 0..m {
        few += exact[p];
        if few <= p {
            return p;
        }
    }
    m
}

// The new label of station k, where station z is the newest.
fn new_label(rows: &[[u8; 31]; 32], n: usize, z: usize, k: usize) -> [u8; 31]
    requires orderly { Orderly n rows.now }
    requires z_lt_n { (z < n) × (k < n) × (z ≢ k) }
    ensures { result ≡ row 31 (new_label (n - 1) 1 (held rows.now) z k) }
{
    let top = rows[z];
    let shared = shared_prefixes(rows, n, top);
    let p = level(&shared[..n], k);
    label::next_label(top, p)
}

// The pending label that a snap for a label leaves at place k, where station z is the newest: that station keeps its own.
#[tactic(auto, using(crate::proofs::OrderLaws::orderly_total, label::proofs::Total::newest_inside, crate::proofs::ChoiceLaws::pending_kept, crate::proofs::ChoiceLaws::pending_new))]
pub fn pending_by(rows: &[[u8; 31]; 32], n: usize, z: usize, k: usize, own: [u8; 31]) -> [u8; 31]
    requires orderly { Orderly n rows.now }
    requires z_value { z ≡ newest n (stands_in n rows.now) }
    requires k_lt_n { k < n }
    ensures { result ≡ pending_in n rows.now k own }
{
    if k == z {
        return own;
    }
    new_label(rows, n, z, k)
}
