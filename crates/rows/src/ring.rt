// The test for rings of labels (document 01, refusal 13).
ghost use Rattle.std.specs.Prelude.{◌≡◌, ◌-◌, ◌≤◌, ◌<◌, length};
ghost use Rattle.basics.specs.Tests.{every};
ghost use Rattle.label.specs.Rows.{digit, no_ring};
ghost use Rattle.rows.specs.Held.{held, has_digit, has_all, parts_with, closes_ring, no_ring_at};

// Whether one of the labels has the digit d, not 1, at position p.
fn has_digit(d: u8, rows: &[[u8; 31]], p: usize) -> bool
    requires { (1 < d) × (p < 31) }
    ensures { result ≡ has_digit (length rows.now) (held rows.now) p d }
{
    rows.iter().any(|row| row[p] == d)
}

// Whether all digits of a ring stand at position p.
fn has_all(rows: &[[u8; 31]], p: usize) -> bool
    requires { p < 31 }
    ensures { result ≡ has_all (length rows.now) (held rows.now) p }
{
    has_digit(3, rows, p) && has_digit(4, rows, p) && has_digit(5, rows, p)
}

// Whether one of the labels agrees with the label a before position p and has the digit d, not 1, there.
fn parts_with(d: u8, rows: &[[u8; 31]], a: [u8; 31], p: usize) -> bool
    requires { (1 < d) × (p < 31) }
    ensures { result ≡ parts_with (length rows.now) (held rows.now) (digit a) p d }
{
    rows.iter()
        .any(|row| row[p] == d && label::agree(a, *row, p))
}

// Whether the label a has the 3 of a ring of 3, 4, 5 at position p.
fn closes_ring(rows: &[[u8; 31]], a: [u8; 31], p: usize) -> bool
    requires { p < 31 }
    ensures { result ≡ closes_ring (length rows.now) (held rows.now) p (digit a) }
{
    a[p] == 3 && parts_with(4, rows, a, p) && parts_with(5, rows, a, p)
}

// Whether no three of the labels agree before position p and have the digits 3, 4, 5 there.
fn no_ring_at(rows: &[[u8; 31]], p: usize) -> bool
    requires { p < 31 }
    ensures { result ≡ every (length rows.now) (no_ring_at (length rows.now) (held rows.now) p) }
{
    if !has_all(rows, p) {
        return true;
    }
    !rows.iter().any(|row| closes_ring(rows, *row, p))
}

// Whether no three of the n labels agree before some position and have the digits 3, 4, 5 there.
pub fn no_ring(rows: &[[u8; 31]; 32], n: usize) -> bool
    requires { (1 ≤ n) × (n ≤ 32) }
    ensures { result ≡ no_ring (n - 1) (held rows.now) }
{
    let rows = &rows[..n];
    (0..n - 1).all(|p| no_ring_at(rows, p))
}
