// The inverse of a 4x4 matrix: pbrt's Gauss-Jordan elimination with full pivoting, in its order of operations.
#![tactic(auto)]

ghost use Rattle.std.specs.Prelude.{◌≡◌, ◌<◌};
ghost use Rattle.matrix_inverse.specs.Pivot.{consider, search_row, Pivot-search};
ghost use Rattle.matrix_inverse.specs.Eliminate.{swap_rows, replace, scale_row, clear_row, clear_at, eliminate};
ghost use Rattle.matrix_inverse.specs.RestoreColumns.{swap_entries, swap_columns, restore_at, restore_columns};
ghost use Rattle.matrix_inverse.specs.Inverse.{InverseAnswer-of_result, InverseAnswer-judged, Matrix4x4-inverse, AllBelow};

use float32::select;
use refusal::Refusal;

// The best candidate for a pivot so far: its absolute value, row and column.
#[derive(Clone, Copy)]
pub struct Pivot {
    pub big: f32,
    pub irow: usize,
    pub icol: usize,
}

fn consider(row: [f32; 4], ipiv: [u32; 4], j: usize, k: usize, p: Pivot) -> Pivot
    requires { k < 4 }
    ensures value { result ≡ consider row ipiv j k p }
{
    // Two tests: the first, which goes by columns alone, is foreseen by the processor, and their conjunction is not.
    if ipiv[k] == 0 {
        let abs = float32::abs(row[k]);
        if abs >= p.big {
            return Pivot {
                big: abs,
                irow: j,
                icol: k,
            };
        }
    }
    p
}

fn search_row(m: [[f32; 4]; 4], ipiv: [u32; 4], j: usize, p: Pivot) -> Pivot
    requires { j < 4 }
    ensures value { result ≡ search_row m ipiv j p }
{
    if ipiv[j] == 1 {
        return p;
    }
    let row = m[j];
    let mut best = p;
    for k in 0..4 {
        best = consider(row, ipiv, j, k, best);
    }
    best
}

fn search(m: [[f32; 4]; 4], ipiv: [u32; 4]) -> Pivot
    ensures value { result ≡ Pivot-search m ipiv }
    ensures in_range { (result.irow < 4) × (result.icol < 4) }
{
    let mut best = Pivot {
        big: 0.0,
        irow: 0,
        icol: 0,
    };
    for j in 0..4 {
        best = search_row(m, ipiv, j, best);
    }
    best
}

// The test stands round the stores alone: with a return of its own the compiler would store entries one by one, and each load of a row would wait for them.
fn swap_rows(m: [[f32; 4]; 4], i: usize, k: usize) -> [[f32; 4]; 4]
    requires { (i < 4) × (k < 4) }
    ensures value { result ≡ swap_rows m i k }
{
    let mut r = m;
    if i != k {
        r[i] = m[k];
        r[k] = m[i];
    }
    r
}

// Selected entry by entry: after a store to one entry, a load of the whole row would have to wait for it.
fn replace(r: [f32; 4], k: usize, x: f32) -> [f32; 4]
    ensures value { result ≡ replace r k x }
{
    [
        select(k == 0, x, r[0]),
        select(k == 1, x, r[1]),
        select(k == 2, x, r[2]),
        select(k == 3, x, r[3]),
    ]
}

fn scale_row(r: [f32; 4], k: usize) -> [f32; 4]
    requires { k < 4 }
    ensures value { result ≡ scale_row r k }
{
    let pivinv = 1.0 / r[k];
    let s = replace(r, k, 1.0);
    [s[0] * pivinv, s[1] * pivinv, s[2] * pivinv, s[3] * pivinv]
}

fn clear_row(r: [f32; 4], p: [f32; 4], k: usize) -> [f32; 4]
    requires { k < 4 }
    ensures value { result ≡ clear_row r p k }
{
    let save = r[k];
    let s = replace(r, k, 0.0);
    [
        s[0] - p[0] * save,
        s[1] - p[1] * save,
        s[2] - p[2] * save,
        s[3] - p[3] * save,
    ]
}

fn eliminate(m: [[f32; 4]; 4], k: usize) -> [[f32; 4]; 4]
    requires { k < 4 }
    ensures value { result ≡ eliminate m k }
{
    let mut r = m;
    r[k] = scale_row(m[k], k);
    for j in 0..4 {
        if j != k {
            r[j] = clear_row(r[j], r[k], k);
        }
    }
    r
}

fn swap_entries(r: [f32; 4], a: usize, b: usize) -> [f32; 4]
    requires { (a < 4) × (b < 4) }
    ensures value { result ≡ swap_entries r a b }
{
    let mut s = r;
    let swap = s[a];
    s[a] = s[b];
    s[b] = swap;
    s
}

fn swap_columns(m: [[f32; 4]; 4], a: usize, b: usize) -> [[f32; 4]; 4]
    requires { (a < 4) × (b < 4) }
    ensures value { result ≡ swap_columns m a b }
{
    let r0 = m[0];
    let r1 = m[1];
    let r2 = m[2];
    let r3 = m[3];
    [
        swap_entries(r0, a, b),
        swap_entries(r1, a, b),
        swap_entries(r2, a, b),
        swap_entries(r3, a, b),
    ]
}

fn restore_at(m: [[f32; 4]; 4], indxr: [usize; 4], indxc: [usize; 4], i: usize) -> [[f32; 4]; 4]
    requires { (i < 4) × AllBelow 4 indxr × AllBelow 4 indxc }
    ensures value { result ≡ restore_at indxr indxc i m }
{
    let j = 3 - i;
    let a = indxr[j];
    let b = indxc[j];
    if a == b {
        return m;
    }
    swap_columns(m, a, b)
}

fn restore_columns(m: [[f32; 4]; 4], indxr: [usize; 4], indxc: [usize; 4]) -> [[f32; 4]; 4]
    requires { AllBelow 4 indxr × AllBelow 4 indxc }
    ensures value { result ≡ restore_columns m indxr indxc }
{
    let mut r = m;
    for i in 0..4 {
        let s = restore_at(r, indxr, indxc, i);
        r = s;
    }
    r
}

fn judged(m: [[f32; 4]; 4]) -> Result<[[f32; 4]; 4], Refusal>
    ensures value { InverseAnswer-of_result result ≡ InverseAnswer-judged m }
{
    if matrix4x4::is_finite(m) {
        Ok(m)
    } else {
        Err(Refusal::NotFinite)
    }
}

// pbrt's `Matrix4x4::inverse`: the inverse by Gauss-Jordan elimination; pbrt logs where this refuses: 4 at a zero pivot, 5 where an entry of the result is not
// finite. Accuracy: each operation is correctly rounded.
pub fn inverse(m: [[f32; 4]; 4]) -> Result<[[f32; 4]; 4], Refusal>
    ensures value { InverseAnswer-of_result result ≡ Matrix4x4-inverse m }
{
    let mut minv = m;
    let mut ipiv = [0u32; 4];
    let mut indxr = [0usize; 4];
    let mut indxc = [0usize; 4];
    for i in 0..4 {
        let p = search(minv, ipiv);
        let irow = p.irow;
        let icol = p.icol;
        let s = swap_rows(minv, irow, icol);
        // Departs from pbrt: a zero pivot is refused, before the division (docs/DECISIONS.md, 1).
        if s[icol][icol] == 0.0 {
            return Err(Refusal::ZeroPivot);
        }
        ipiv[icol] += 1;
        indxr[i] = irow;
        indxc[i] = icol;
        let e = eliminate(s, icol);
        minv = e;
    }
    judged(restore_columns(minv, indxr, indxc))
}
