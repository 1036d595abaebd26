// Numbers in place of labels: the scan order that they give, which of them fit a snap, and what a move does to them.
ghost use Rattle.std.specs.Prelude.{◌≡◌, ◌≢◌, true, ◌&&◌, cond, ◌++◌, ℕ, ◌-◌, ◌≤◌, ◌<◌, length, get_or, replicate, eqb, ltb, leb};
ghost use Rattle.basics.specs.Tests.{ordered};
ghost use Rattle.simulation.specs.Machine.{number_before, label_step};
ghost use Rattle.moves.specs.Moves.{judged_of};
ghost use Rattle.arrays.specs.Planes.{beside};
ghost use Rattle.unbounded.specs.Numbers.{stands_by, order_by, NumberedBefore, stepped_by};

use arrays::{CURRENT, PENDING};
use moves::{Move, Refusal};

// Whether station i with the number u stands before station j with the number v.
fn before(u: u32, i: usize, v: u32, j: usize) -> bool
    ensures { result ≡ number_before u i v j }
{
    (u, i) < (v, j)
}

// The order of n stations that all have the number 0, and 0s past them: the lower station is the older.
pub fn first_order(n: usize) -> [usize; 32]
    requires { n ≤ 32 }
    ensures { result ≡ ordered n (λ i j. number_before 0 i 0 j) ++ replicate (32 - n) 0 }
{
    let mut r = [0usize; 32];
    for k in 0..n {
        r[k] = k;
    }
    r
}

// How many of the stations in the first m places of `order`, which stand there oldest first, stand before station k: a new number mostly makes it the newest,
// so the search begins at the back.
fn position(numbers: &[u32; 32], order: &[usize], m: usize, k: usize) -> usize
    requires k_bound { (k < 32) × (m ≤ length order.now) }
    requires by_index { (p : ℕ) → p < m → (get_or order.now p 0 < 32) × (get_or order.now p 0 ≢ k) }
    requires by_index_2 { (p q : ℕ) → p < q → q < m → stands_by numbers.now (get_or order.now p 0) (get_or order.now q 0) ≡ true }
    ensures upper_bound { result ≤ m }
    ensures by_index_3 { (p : ℕ) → p < result → stands_by numbers.now (get_or order.now p 0) k ≡ true }
    ensures by_index_4 { (p : ℕ) → result ≤ p → p < m → stands_by numbers.now k (get_or order.now p 0) ≡ true }
{
    let v = numbers[k];
    for q in (0..m).rev() {
        let i = order[q];
        if before(numbers[i], i, v, k) {
            return q + 1;
        }
    }
    0
}

// Brings the order of n stations up to date after station k alone got another number: it is taken out, and put in where it stands now.
// `rows::order::reorder` does this by labels: the two have only the search apart, and what a search tells is the longer part of either contract.
pub fn reorder(numbers: &[u32; 32], n: usize, order: &mut [usize], k: usize)
    requires k_lt_n { (k < n) × (n ≤ 32) }
    requires numbered_before { NumberedBefore n numbers.now k order.old }
    ensures { order.new ≡ order_by n numbers.now }
{
    let m = n - 1;
    rows::order::take_out(order, n, k);
    let q = position(numbers, order, m, k);
    rows::order::insert_at(order, m, q, k);
}

// Whether the number v can be given to a snap for a label by station k, where z is the newest: 0 to the newest itself, to another one above the top number.
pub fn fits(numbers: &[u32; 32], z: usize, k: usize, v: u64) -> bool
    requires { z < 32 }
    ensures { result ≡ cond (eqb k z) (eqb v 0) (ltb (get_or numbers.now z 0) v && leb v 4294967295) }
{
    if k == z {
        return v == 0;
    }
    u64::from(numbers[z]) < v && v <= 4294967295
}

// What a judged call of the station at this place makes of the numbers, where v is the number that a snap is given, unless by station z, the newest. A refused
// one leaves them.
pub fn renumber(
    action: Result<Move, Refusal>,
    place: usize,
    z: usize,
    v: u32,
    numbers: &mut [[u32; 32]; 2],
)
    requires { place < 32 }
    ensures { beside numbers.new ≡ stepped_by z v (beside numbers.old) (label_step (judged_of place 0 action)) }
{
    arrays::sized(*numbers);
    match action {
        Ok(Move::SnapLabel) if place != z => {
            numbers[PENDING][place] = v;
        }
        Ok(Move::Update) => {
            numbers[CURRENT][place] = numbers[PENDING][place];
        }
        _ => {}
    }
}
