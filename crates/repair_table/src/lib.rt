// Optimal's pairs, by a table over sets of odd nodes.
#![tactic(auto)]

ghost use Rattle.std.specs.Prelude.{◌≡◌, ℕ, ◌+◌, ◌*◌, ◌^◌, ◌-◌, ◌%◌, ◌/◌, ◌<◌, ◌≤◌, length};
ghost use Rattle.std.specs.Int.Count.{ones};
ghost use Rattle.limits.specs.Limits.{most_odd};
ghost use Rattle.repair_masks.specs.Table.{least, lesser, low, tried, entry};
ghost use Rattle.repair_table.specs.Tables.{costs, matrix, row_at, Lowest, is_due, filled_costs, filled_partners, Filled, Next};

// The lowest place of the mask m, of n places.
pub fn lowest(m: usize, n: usize) -> usize
    requires { (0 < m) × (m < 2 ^ n) × (n ≤ most_odd) }
    ensures { Lowest n m result }
{
    usize::trailing_zeros(m) as usize
}

pub fn power(i: usize) -> usize
    requires { i < 64 }
    ensures { (result ≡ 2 ^ i) × (0 < result) }
{
    1 << i
}

// Where the distances from the place i start.
pub fn row_of(n: usize, i: usize) -> usize
    requires { (i < n) × (n ≤ most_odd) }
    ensures { (result ≡ 2 ^ n + i * n) × (result + n ≤ 2 ^ n + n * n) }
{
    power(n) + i * n
}

// The least cost so far, and what it is the cost of: a partner, or a mask.
#[derive(Clone, Copy)]
pub struct Least {
    pub cost: f64,
    pub at: usize,
}

// `at` at the cost c, where that is less.
pub fn take_lesser(b: Least, c: f64, at: usize) -> Least
    ensures { least result.cost result.at ≡ lesser (least b.cost b.at) c at }
{
    if c < b.cost {
        return Least { cost: c, at };
    }
    b
}

// Each place of the mask `others` in turn as the partner; its distances start at `row`.
fn try_partners(table: &[f64], n: usize, row: usize, others: usize) -> Least
    requires others_nonzero { (0 < others) × (others < 2 ^ n) × (n ≤ most_odd) }
    requires n_in_bounds { (2 ^ n ≤ length table.now) × (row + n ≤ length table.now) }
    ensures { (least result.cost result.at ≡ tried (costs table.now) (row_at table.now row) others) × (result.at < n) }
{
    let first = lowest(others, n);
    let mut rest = others - power(first);
    let mut b = Least {
        cost: table[rest] + table[row + first],
        at: first,
    };
    while rest != 0 {
        let j = lowest(rest, n);
        let q = power(j);
        b = take_lesser(b, table[others - q] + table[row + j], j);
        rest -= q;
    }
    b
}

// The entry for the mask m, from those of smaller masks.
fn choose(table: &[f64], n: usize, m: usize) -> Least
    requires m_nonzero { (0 < m) × (m < 2 ^ n) × (n ≤ most_odd) × (ones m % 2 ≡ 0) }
    requires n_in_bounds { 2 ^ n + n * n ≤ length table.now }
    ensures { (least result.cost result.at ≡ entry (matrix n table.now) (costs table.now) m) × (result.at < n) }
{
    let i = lowest(m, n);
    let others = m - power(i);
    let row = row_of(n, i);
    try_partners(table, n, row, others)
}

// Whether the mask m is asked for. It must have an even number of places. Two places are left out first; each pair taken
// out later has its lower place below all that stay. So of the others that m is without, at least half are below its lowest.
fn is_due(m: usize, n: usize) -> bool
    requires { (0 < m) × (m < 2 ^ n) × (n ≤ most_odd) }
    ensures { result ≡ is_due n m }
{
    let places = usize::count_ones(m) as usize;
    if places + 2 * lowest(m, n) + 2 < n {
        return false;
    }
    places % 2 == 0
}

// The entry for the mask m, written, where m is asked for.
fn fill_mask(table: &mut [f64], partners: &mut [u8], n: usize, m: usize)
    requires m_nonzero { (0 < m) × (m < 2 ^ n) × (n ≤ most_odd) }
    requires n_in_bounds { (2 ^ n + n * n ≤ length table.old) × (2 ^ n ≤ length partners.old) }
    ensures { (table.new ≡ filled_costs n m table.old) × (partners.new ≡ filled_partners n m table.old partners.old) }
{
    if !is_due(m, n) {
        return;
    }
    let b = choose(table, n, m);
    table[m] = b.cost;
    partners[m] = b.at as u8;
}

// The next mask to look at. A mask between m and m + 2^e, where e is no higher than the lowest place of m, has at
// most e places more than m, and the lowest of those is below e. Where m has too few places for such a mask to be
// asked for, it is passed over. This e is the largest one: of 20 places, 46,354 masks are looked at, of which 9 have
// more than half of what they are without above their lowest.
fn next_mask(m: usize, n: usize) -> usize
    requires { (0 < m) × (m < 2 ^ n) × (n ≤ most_odd) }
    ensures { Next n m result }
{
    let places = usize::count_ones(m) as usize;
    let half = (n - places) / 2;
    let i = lowest(m, n);
    if i + 1 < half {
        return m + power(i);
    }
    if half == 0 {
        return m + 1;
    }
    m + power(half - 1)
}

// The entries for all masks of n places that are asked for, from the distances between the places: those with an even
// number of places that are `Needed` (repair_masks/specs/Table). What the entries of other masks are is left open.
pub fn fill(table: &mut [f64], partners: &mut [u8], n: usize)
    requires n_nonzero { (0 < n) × (n ≤ most_odd) }
    requires n_in_bounds { (2 ^ n + n * n ≤ length table.old) × (2 ^ n ≤ length partners.old) }
    ensures { Filled n (2 ^ n) table.old table.new partners.new }
{
    table[0] = 0.0;
    let states = power(n);
    let mut m = 1;
    while m < states {
        fill_mask(table, partners, n, m);
        m = next_mask(m, n);
    }
}
