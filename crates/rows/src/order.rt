// The newest station and the scan order (document 01, "The digits and the labels", "The steps").
// The C interface lends the rows of all 32 stations: how many of them count is a parameter beside them.
ghost use Rattle.std.specs.Prelude.{◌≡◌, ◌≢◌, true, ◌∷◌, ◌++◌, ℕ, ◌+◌, ◌-◌, ◌≤◌, ◌<◌, length, get_or, take, drop, replicate};
ghost use Rattle.basics.specs.Tests.{newest, inserted, ordered, All};
ghost use Rattle.label.specs.Labels.{holders};
ghost use Rattle.rows.specs.Held.{held, stands_in, Orderly, OrderedBefore, place_among, taken_out, Leads};

// The newest station, and how many stations have its label, the newest itself among them.
#[derive(Clone, Copy)]
pub struct Top {
    pub station: usize,
    pub holders: usize,
}

// The newest so far, where no other so far has its label.
fn alone(station: usize) -> Top
    ensures { result ≡ record { station = station; holders = 1 } }
{
    Top {
        station,
        holders: 1,
    }
}

// The newest of the first j stations, and how many of them have its label, are known: the same of these and station j.
#[tactic(auto, using(label::proofs::Holders::holders_few))]
fn with_next(rows: &[[u8; 31]; 32], n: usize, top: Top, j: usize) -> Top
    requires orderly { Orderly n rows.now }
    requires j_lt_n { j < n }
    requires leads { Leads n rows.now j top.station top.holders }
    ensures { Leads n rows.now (j + 1) result.station result.holders }
{
    let m = n - 1;
    let z = top.station;
    let p = label::first_difference(rows[z], rows[j], m);
    if p < m {
        if label::below_at(rows[z], rows[j], p) {
            return alone(j);
        }
        return top;
    }
    Top {
        station: j,
        holders: top.holders + 1,
    }
}

// The newest of n stations, the one that all others stand before, and how many of them have its label: in one pass.
#[tactic(auto, using(crate::proofs::NewestLaws::leads_all))]
pub fn newest(rows: &[[u8; 31]; 32], n: usize) -> Top
    requires { Orderly n rows.now }
    ensures station_value { result.station ≡ newest n (stands_in n rows.now) }
    ensures holders_value { result.holders ≡ holders n (n - 1) (held rows.now) result.station }
{
    let mut top = alone(0);
    for j in 1..n {
        top = with_next(rows, n, top, j);
    }
    top
}

// Where station k is put in among others that stand oldest first: how many of them stand before it, by binary search.
fn position(rows: &[[u8; 31]; 32], n: usize, order: &[usize], k: usize) -> usize
    requires orderly { Orderly n rows.now }
    requires k_lt_n { k < n }
    requires others { All (λ i. (i < n) × (i ≢ k)) order.now }
    requires by_index { (p q : ℕ) → p < q → q < length order.now → stands_in n rows.now (get_or order.now p 0) (get_or order.now q 0) ≡ true }
    ensures upper_bound { result ≤ length order.now }
    ensures placed { inserted (stands_in n rows.now) k order.now ≡ take result order.now ++ k ∷ drop result order.now }
{
    // `partition_point` asks that its closure takes any number, and only the n stations have labels.
    let row = rows[k];
    let mut low: usize = 0;
    let mut high = order.len();
    while low < high {
        let middle = (low + high) / 2;
        let i = order[middle];
        if label::label_before(rows[i], i, row, k, n - 1) {
            low = middle + 1;
        } else {
            high = middle;
        }
    }
    low
}

// The first k of `order` get x put in among them at place q; what stands past them stays.
#[tactic(auto, using(crate::proofs::OrderLaws::inserted_moves))]
pub fn insert_at(order: &mut [usize], k: usize, q: usize, x: usize)
    requires { (q ≤ k) × (k < length order.old) }
    ensures { order.new ≡ take q (take k order.old) ++ x ∷ drop q (take k order.old) ++ drop (k + 1)
        order.old }
{
    order.copy_within(q..k, q + 1);
    order[q] = x;
}

// The n stations, oldest first, and 0s past them: each is put in at its position among those before it.
pub fn order(rows: &[[u8; 31]; 32], n: usize) -> [usize; 32]
    requires { Orderly n rows.now }
    ensures { result ≡ ordered n (stands_in n rows.now) ++ replicate (32 - n) 0 }
{
    let mut r = [0usize; 32];
    for k in 0..n {
        let q = position(rows, n, &r[..k], k);
        insert_at(&mut r, k, q, k);
    }
    r
}

// Station k, one of the first n of `order`, is taken out, and those behind it move up: place n - 1 is then free.
pub fn take_out(order: &mut [usize], n: usize, k: usize)
    requires { (place_among n order.old k < n) × (n ≤ length order.old) }
    ensures { order.new ≡ taken_out (n - 1) (place_among n order.old k) order.old }
{
    let q = order[..n].iter().position(|i| *i == k).unwrap();
    order.copy_within(q + 1..n, q);
}

// Brings the order up to date after station k alone got another label: it is taken out, and put in where it stands now.
pub fn reorder(rows: &[[u8; 31]; 32], n: usize, order: &mut [usize], k: usize)
    requires orderly { Orderly n rows.now }
    requires k_lt_n { k < n }
    requires ordered_before { OrderedBefore n rows.now k order.old }
    ensures { order.new ≡ ordered n (stands_in n rows.now) ++ replicate (32 - n) 0 }
{
    let m = n - 1;
    take_out(order, n, k);
    let q = position(rows, n, &order[..m], k);
    insert_at(order, m, q, k);
}
