// The nearest two nodes of a working list, until two are left, by one of two costs: the squared distance of two nodes
// (Greedy), or the bits of an f64 in a table of distances between the nodes, which are in the order of the floats.
// Row i of the list has the places after i, and `lows` has a lower bound of the costs in each row. A round finds the
// least cost first, and then looks only at the rows whose bound does not rule them out.
#![tactic(auto)]

ghost use Rattle.std.specs.Prelude.{◌≡◌, refl, ℕ, ◌+◌, ◌-◌, ◌^◌, ◌<◌, ◌≤◌, length, get_or, take, drop, set, ltb};
ghost use Rattle.limits.specs.Limits.{most_nodes, most_pairs};
ghost use Rattle.graph_arrays.specs.Arrays.{nodes_in, NodesHeld};
ghost use Rattle.graph_arrays.specs.NodeList.{NodeList};
ghost use Rattle.repair_spec.specs.Pairing.{nothing, between, closer, closest_to, closest, nearest_pairs, greedy_pairs};
ghost use Rattle.repair_spec.specs.PairsIn.{listed, PairRoom};
ghost use Rattle.repair_greedy.specs.Costs.{PointsHeld, point_of, OnPlane, distance_from, distance_of, DistancesHeld, row_of, InTable, bits_from, bits_of};
ghost use Rattle.repair_greedy.specs.Rows.{AtMost};
ghost use Rattle.repair_greedy.specs.Bounds.{Bounds};
ghost use Rattle.repair_greedy.specs.Rounds.{Round, Paired};

use graph_nodes::Table;
use grid::Point;
use limits::{MOST_NODES, MOST_PAIRS};
use repair_spec::PairList;

// The cost of two nodes by which the nearest are found. What is read of the first is read once, for all its costs.
pub trait Cost {
    type Start: Copy;

    // What can be read without going past an end.
    ghost Held: { Self → Type 0 };

    ghost start_of: { Self → ℕ → Self.Start };

    ghost Starts: { Self → Self.Start → Type 0 };

    ghost cost_from: { Self → Self.Start → ℕ → ℕ };

    ghost cost: { Self → ℕ → ℕ → ℕ };

    // What is read of the node u.
    fn start(&self, u: u16) -> Self::Start
        requires { Held self.now × (u < most_nodes) }
        ensures { (result ≡ start_of self.now u) × Starts self.now result };

    // The cost to the node v. That it is at most 2^63 leaves room for the one more that `find_closest` adds.
    fn cost_to(&self, start: Self::Start, v: u16) -> u64
        requires { Held self.now × Starts self.now start × (v < most_nodes) }
        ensures cost { result ≡ cost_from self.now start v }
        ensures small { result ≤ 2 ^ 63 };

    ghost by_start: { (s : Self) (u v : ℕ) → cost_from s (start_of s u) v ≡ cost s u v };
}

// By the squared distance.
impl Cost for Table {
    type Start = Point;

    ghost Held = { PointsHeld };

    ghost start_of = { point_of };

    ghost Starts = { OnPlane };

    ghost cost_from = { distance_from };

    ghost cost = { distance_of };

    fn start(&self, u: u16) -> Point {
        Point {
            x: self.xs[usize::from(u)],
            y: self.ys[usize::from(u)],
        }
    }

    fn cost_to(&self, start: Point, v: u16) -> u64 {
        let to = Point {
            x: self.xs[usize::from(v)],
            y: self.ys[usize::from(v)],
        };
        length::squared(start, to)
    }

    ghost by_start = { λ s u v. refl };
}

// A table of distances: that from the node u to the node v stands at places[u] * size + places[v].
#[derive(Clone, Copy)]
pub struct Distances<'a> {
    pub table: &'a [f64],
    pub places: [u16; MOST_NODES],
    pub size: usize,
}

// By the bits of the distance in the table.
impl<'a> Cost for Distances<'a> {
    type Start = usize;

    ghost Held = { DistancesHeld };

    ghost start_of = { row_of };

    ghost Starts = { InTable };

    ghost cost_from = { bits_from };

    ghost cost = { bits_of };

    fn start(&self, u: u16) -> usize {
        usize::from(self.places[usize::from(u)]) * self.size
    }

    fn cost_to(&self, start: usize, v: u16) -> u64 {
        let at = start + usize::from(self.places[usize::from(v)]);
        f64::to_bits(self.table[at])
    }

    ghost by_start = { λ s u v. refl };
}

// Two places of the working list, and their cost.
#[derive(Clone, Copy)]
struct Nearest {
    from: usize,
    to: usize,
    cost: u64,
}

// The nearer of the two: the second only where it is nearer.
fn nearer(best: Nearest, from: usize, to: usize, cost: u64) -> Nearest
    ensures { between result.from result.to result.cost ≡ closer ltb (between best.from best.to best.cost) from to cost }
{
    if cost < best.cost {
        return Nearest { from, to, cost };
    }
    best
}

// A row, and its bound.
#[derive(Clone, Copy)]
struct Low {
    at: usize,
    low: u64,
}

// The lower of two rows, of `left` places: the second only where its bound is lower.
fn lower(best: Low, at: usize, low: u64, left: usize) -> Low
    requires { (best.at + 1 < left) × (at + 1 < left) }
    ensures { result.at + 1 < left }
{
    if low < best.low {
        return Low { at, low };
    }
    best
}

// A row whose bound is the least, of `left` places. Which row it is decides the time, and no answer. Two rows are looked at in
// a turn, each with a row in hand of its own: a processor then compares them at once.
fn least_row(lows: &[u64; MOST_NODES], left: usize) -> usize
    requires { (2 ≤ left) × (left ≤ most_nodes) }
    ensures { result + 1 < left }
{
    let rows = left - 1;
    let first = lows[0];
    let mut one = Low { at: 0, low: first };
    let mut other = Low { at: 0, low: first };
    let mut i = rows % 2;
    for _ in 0..rows / 2 {
        one = lower(one, i, lows[i], left);
        other = lower(other, i + 1, lows[i + 1], left);
        i += 2;
    }
    lower(one, other.at, other.low, left).at
}

// The nodes that are left to be paired, in the front of an array.
#[derive(Clone, Copy)]
struct Working {
    nodes: [u16; MOST_NODES],
    left: usize,
}

impl Working {
    // The nearest place after i.
    fn scan_row<C: Cost>(&self, costs: &C, i: usize) -> Nearest
        requires { (i + 1 < self.now.left) × C.Held costs.now × NodeList most_nodes most_nodes self.now.nodes self.now.left }
        ensures nearest { closest_to ltb (C.cost costs.now) (get_or self.now.nodes i 0) i (drop (i + 1) (take self.now.left self.now.nodes)) (i + 1) nothing ≡ between result.from result.to result.cost }
        ensures small { result.cost ≤ 2 ^ 63 }
    {
        let start = costs.start(self.nodes[i]);
        let first = i + 1;
        let mut near = Nearest {
            from: i,
            to: first,
            cost: costs.cost_to(start, self.nodes[first]),
        };
        for j in first + 1..self.left {
            near = nearer(near, i, j, costs.cost_to(start, self.nodes[j]));
        }
        near
    }

    // The search goes on with row i: the nearest with those after i. The row is looked at only where its bound is below
    // what is in hand, and then its bound is its least cost.
    fn with_row<C: Cost>(
        &self,
        costs: &C,
        lows: &mut [u64; MOST_NODES],
        i: usize,
        best: Nearest,
    ) -> Nearest
        requires { (i + 1 < self.now.left) × C.Held costs.now × NodeList most_nodes most_nodes self.now.nodes self.now.left × Bounds (C.cost costs.now) self.now.nodes self.now.left lows.old }
        ensures { (closest_to ltb (C.cost costs.now) (get_or self.now.nodes i 0) i (drop (i + 1) (take self.now.left self.now.nodes)) (i + 1) (between best.from best.to best.cost) ≡ between result.from result.to result.cost) × Bounds (C.cost costs.now) self.now.nodes self.now.left lows.new }
    {
        if best.cost <= lows[i] {
            return best;
        }
        let row = self.scan_row(costs, i);
        lows[i] = row.cost;
        nearer(best, row.from, row.to, row.cost)
    }

    // Looks at row i: its bound is then its least cost, which is the answer.
    fn look_at<C: Cost>(&self, costs: &C, lows: &mut [u64; MOST_NODES], i: usize) -> u64
        requires { (i + 1 < self.now.left) × C.Held costs.now × NodeList most_nodes most_nodes self.now.nodes self.now.left × Bounds (C.cost costs.now) self.now.nodes self.now.left lows.old }
        ensures { AtMost (closest ltb (C.cost costs.now) (take self.now.left self.now.nodes) 0 nothing) result × (result ≤ 2 ^ 63) × Bounds (C.cost costs.now) self.now.nodes self.now.left lows.new }
    {
        let row = self.scan_row(costs, i);
        lows[i] = row.cost;
        row.cost
    }

    // A cost that two places have: that of a row whose bound is right and the least of all, so that it is the least cost.
    // Until there is one, the row of the least bound is looked at, which makes it right.
    // The proof uses only that two places have the cost: how low it is decides the time, and no answer.
    fn least_cost<C: Cost>(&self, costs: &C, lows: &mut [u64; MOST_NODES]) -> u64
        requires { (2 ≤ self.now.left) × C.Held costs.now × NodeList most_nodes most_nodes self.now.nodes self.now.left × Bounds (C.cost costs.now) self.now.nodes self.now.left lows.old }
        ensures { AtMost (closest ltb (C.cost costs.now) (take self.now.left self.now.nodes) 0 nothing) result × (result ≤ 2 ^ 63) × Bounds (C.cost costs.now) self.now.nodes self.now.left lows.new }
    {
        let mut i = least_row(lows, self.left);
        let mut cost = self.look_at(costs, lows, i);
        for _ in 0..self.left {
            let least = least_row(lows, self.left);
            if least == i {
                return cost;
            }
            i = least;
            cost = self.look_at(costs, lows, i);
        }
        cost
    }

    // The nearest two. What is in hand at the start is farther than the least cost, by one.
    fn find_closest<C: Cost>(&self, costs: &C, lows: &mut [u64; MOST_NODES]) -> Nearest
        requires { (2 ≤ self.now.left) × C.Held costs.now × NodeList most_nodes most_nodes self.now.nodes self.now.left × Bounds (C.cost costs.now) self.now.nodes self.now.left lows.old }
        ensures { (closest ltb (C.cost costs.now) (take self.now.left self.now.nodes) 0 nothing ≡ between result.from result.to result.cost) × (result.from < result.to) × (result.to < self.now.left) × Bounds (C.cost costs.now) self.now.nodes self.now.left lows.new }
    {
        let farther = self.least_cost(costs, lows) + 1;
        let mut best = Nearest {
            from: 0,
            to: 1,
            cost: farther,
        };
        for i in 0..self.left - 1 {
            best = self.with_row(costs, lows, i, best);
        }
        best
    }

    // The node at place i goes, and the last one takes its place.
    fn remove_place(&mut self, lows: &mut [u64; MOST_NODES], i: usize)
        requires { (0 < self.old.left) × (self.old.left ≤ most_nodes) × (i < most_nodes) }
        ensures { (self.new.nodes ≡ set self.old.nodes i (get_or self.old.nodes (self.old.left - 1) 0)) × (self.new.left ≡ self.old.left - 1) × (lows.new ≡ set lows.old i 0) }
    {
        let last = self.left - 1;
        self.nodes[i] = self.nodes[last];
        self.left = last;
        lows[i] = 0;
    }

    // One round: the nearest two are written as the next pair, and go.
    fn pair_nearest<C: Cost>(
        &mut self,
        costs: &C,
        lows: &mut [u64; MOST_NODES],
        pairs: &mut PairList,
    )
        requires { (2 < self.old.left) × (pairs.old.count < most_pairs) × C.Held costs.now × NodeList most_nodes most_nodes self.old.nodes self.old.left × Bounds (C.cost costs.now) self.old.nodes self.old.left lows.old }
        ensures { (self.new.left ≡ self.old.left - 2) × Bounds (C.cost costs.now) self.new.nodes self.new.left lows.new × Round (C.cost costs.now) self.old.left self.old.nodes self.new.nodes pairs.old pairs.new }
    {
        let near = self.find_closest(costs, lows);
        pairs.push(self.nodes[near.from], self.nodes[near.to]);
        self.remove_place(lows, near.to);
        self.remove_place(lows, near.from);
    }
}

// The nearest two of the first `count` of `nodes`, until two are left, are the pairs in the list afterwards, whatever it had before.
// What stands behind them there is left open.
pub fn nearest_pairs<C: Cost>(
    costs: &C,
    nodes: &[u16; MOST_NODES],
    count: usize,
    pairs: &mut PairList,
)
    requires { C.Held costs.now × NodeList most_nodes most_nodes nodes.now count × PairRoom pairs.old.firsts pairs.old.seconds }
    ensures { (listed pairs.new ≡ nearest_pairs ltb count (C.cost costs.now) (take count nodes.now)) × Paired pairs.new }
{
    pairs.count = 0;
    let mut lows = [0; MOST_NODES];
    let mut working = Working {
        nodes: *nodes,
        left: count,
    };
    while 2 < working.left {
        working.pair_nearest(costs, &mut lows, pairs);
    }
}

// Greedy's pairs of the first `count` nodes of `odd`, of n nodes, in the list afterwards; two nodes are left over. What stands
// behind the pairs there is left open.
pub fn greedy_pairs(
    nodes: &Table,
    n: usize,
    odd: &[u16; MOST_NODES],
    count: usize,
    pairs: &mut PairList,
)
    requires { NodesHeld n nodes.now.xs nodes.now.ys × NodeList n most_nodes odd.now count × PairRoom pairs.old.firsts pairs.old.seconds }
    ensures { (listed pairs.new ≡ greedy_pairs count (nodes_in n nodes.now.xs nodes.now.ys) (take count odd.now)) × Paired pairs.new }
{
    nearest_pairs(nodes, odd, count, pairs);
}
