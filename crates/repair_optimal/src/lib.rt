// Optimal's pairs, from a table over sets of odd nodes.
#![tactic(auto)]

ghost use Rattle.std.specs.Prelude.{◌≡◌, map, ℕ, ◌+◌, ◌*◌, ◌^◌, ◌-◌, ◌%◌, ◌<◌, ◌≤◌, length};
ghost use Rattle.std.specs.Int.Count.{ones};
ghost use Rattle.limits.specs.Limits.{most_odd, most_pairs};
ghost use Rattle.repair_spec.specs.PairsIn.{listed, PairRoom};
ghost use Rattle.repair_masks.specs.Places.{node_at, pair_of, optimal_places};
ghost use Rattle.repair_masks.specs.Masks.{Bit};
ghost use Rattle.repair_masks.specs.Table.{least, low, Needed};
ghost use Rattle.repair_masks.specs.Left.{leave_from, left_out};
ghost use Rattle.repair_masks.specs.Follow.{follow};
ghost use Rattle.repair_table.specs.Tables.{costs, matrix, partner_in};
ghost use Rattle.repair_optimal.specs.Partners.{Partnered};

use limits::MOST_NODES;
use repair_spec::PairList;
use repair_table::Least;

// Each place from `start` on left out, with the one that `mask` is without.
fn leave_from(table: &[f64], n: usize, mask: usize, start: usize, b: Least) -> Least
    requires n_le_most_odd { (n ≤ most_odd) × (mask < 2 ^ n) × (2 ^ n ≤ length table.now) }
    requires by_index { (v : ℕ) → start ≤ v → v < n → 2 ^ v ≤ mask }
    ensures { least result.cost result.at ≡ leave_from (n - start) (costs table.now) mask start (least b.cost b.at) }
{
    let mut best = b;
    for v in start..n {
        let m = mask - repair_table::power(v);
        best = repair_table::take_lesser(best, table[m], m);
    }
    best
}

// The mask of all places but the two that are left out.
fn left_out(table: &[f64], n: usize) -> usize
    requires { (2 ≤ n) × (n ≤ most_odd) × (2 ^ n ≤ length table.now) }
    ensures { result ≡ (left_out n (costs table.now)).at }
{
    let full = repair_table::power(n) - 1;
    let first = full - 3;
    let none = Least {
        cost: table[first],
        at: first,
    };
    let mut best = leave_from(table, n, full - 1, 2, none);
    for u in 1..n {
        let mask = full - repair_table::power(u);
        best = leave_from(table, n, mask, u + 1, best);
    }
    best.at
}

// The partner of the lowest place of m.
fn partner_of(partners: &[u8], n: usize, m: usize) -> usize
    requires m_nonzero { (0 < m) × (m < 2 ^ n) × (ones m % 2 ≡ 0) × Needed n m × (2 ^ n ≤ length partners.now) }
    requires partnered { Partnered n partners.now }
    ensures { (result ≡ partner_in partners.now m) × (result < n) × Bit result (m - 2 ^ low m) }
{
    usize::from(partners[m])
}

// The pairs of the mask, `count` in number, read back from the partners and written as nodes, into an empty list.
fn read_pairs(
    partners: &[u8],
    odd: &[u16; MOST_NODES],
    n: usize,
    mask: usize,
    count: usize,
    pairs: &mut PairList,
)
    requires n_le_most_odd { (n ≤ most_odd) × (mask < 2 ^ n) × (2 ^ n ≤ length partners.now) × (count ≤ most_pairs) × (ones mask ≡ 2 * count) × Needed n mask }
    requires partnered { Partnered n partners.now × PairRoom pairs.old.firsts pairs.old.seconds × (pairs.old.count ≡ 0) }
    ensures { listed pairs.new ≡ map (pair_of (node_at odd.now)) (follow count (partner_in partners.now) mask) }
{
    let mut m = mask;
    for _ in 0..count {
        let i = repair_table::lowest(m, n);
        let j = partner_of(partners, n, m);
        pairs.push(odd[i], odd[j]);
        m = m - repair_table::power(i) - repair_table::power(j);
    }
}

// Optimal's pairs of the first n nodes of `odd`, whose distances are in the table behind the room for 2^n costs, in the list
// afterwards, whatever it had before. What the tables hold then is left open: whoever lent them clears them once, at the end.
pub fn optimal_pairs(
    table: &mut [f64],
    partners: &mut [u8],
    odd: &[u16; MOST_NODES],
    n: usize,
    pairs: &mut PairList,
)
    requires le_n { (2 ≤ n) × (n ≤ most_odd) × (n % 2 ≡ 0) × PairRoom pairs.old.firsts pairs.old.seconds }
    requires n_in_bounds { (2 ^ n + n * n ≤ length table.old) × (2 ^ n ≤ length partners.old) }
    ensures { listed pairs.new ≡ map (pair_of (node_at odd.now)) (optimal_places n (matrix n table.old)) }
{
    repair_table::fill(table, partners, n);
    let mask = left_out(table, n);
    pairs.count = 0;
    read_pairs(partners, odd, n, mask, n / 2 - 1, pairs);
}
