// Least distances from one node to all, along the edges of a graph in flat arrays (crates/graph_adjacency), by sweeps: go
// through the nodes in the order in which they were reached, and look along the edges of each that has come nearer since
// its edges were last looked along; again, until no node is left that has. On most graphs a few sweeps are enough, and
// each is a pass over plain arrays, which is several times faster than a tournament (crates/repair_search). On some many would
// be needed: then the caller is told, and searches otherwise. Whoever finds them, the least distances are the same.
#![tactic(auto)]

ghost use Rattle.std.specs.Prelude.{◌≡◌, true, ◌<◌, ◌≤◌};
ghost use Rattle.std.specs.Float.{binary64};
ghost use Rattle.limits.specs.Limits.{most_nodes};
ghost use Rattle.sums.specs.Key.{Nonneg};
ghost use Rattle.graph_spec.specs.Graph.{edges_at};
ghost use Rattle.graph_arrays.specs.Arrays.{edges_in, EdgesHeld};
ghost use Rattle.repair_spec.specs.Distance.{improve};
ghost use Rattle.repair_search.specs.Touched.{Listed};
ghost use Rattle.repair_search.specs.Relaxing.{relax_arcs};
ghost use Rattle.repair_search.specs.Search.{Found};
ghost use Rattle.repair_sweep.specs.Sweeps.{Reached, Looked, GoesOn, Settled, Unswept};

use graph_adjacency::{Adjacency, edge_number};
use limits::MOST_NODES;
use repair_search::touch;

// After so many a search by a tournament costs less than going on.
const MOST_SWEEPS: usize = 32;

// The distances so far, infinity where none is known; with each node the distance at which its edges were last looked along,
// infinity where they never were; and a list of the nodes of which a distance is known.
#[derive(Clone, Copy)]
pub struct Sweep {
    pub dist: [f64; MOST_NODES],
    pub done: [f64; MOST_NODES],
    pub touched: [u16; MOST_NODES],
}

// How many nodes were reached, and whether the distances are the least.
#[derive(Clone, Copy)]
pub struct Swept {
    pub count: usize,
    pub settled: bool,
}

impl Sweep {
    // No node is reached yet. The arrays are filled where they stand: made apart they would be copied.
    pub fn new() -> Self
        ensures { Unswept result }
    {
        let mut sweep = Sweep {
            dist: [0.0; MOST_NODES],
            done: [0.0; MOST_NODES],
            touched: [0; MOST_NODES],
        };
        sweep.dist.fill(f64::INFINITY);
        sweep.done.fill(f64::INFINITY);
        sweep
    }

    // The way to v that costs `cost`, where that is less; the answer is how many nodes are listed.
    fn offer(&mut self, n: usize, v: usize, cost: f64, count: usize) -> usize
        requires { (n ≤ most_nodes) × (v < n) × Nonneg binary64 cost × Reached n self.old.dist self.old.touched count }
        ensures dist_after { self.new.dist ≡ improve self.old.dist v cost }
        ensures done_after { self.new.done ≡ self.old.done }
        ensures listed { Listed n self.new.dist self.new.touched result }
    {
        if cost < self.dist[v] {
            let more = touch(&self.dist, &mut self.touched, n, v, count);
            self.dist[v] = cost;
            return more;
        }
        count
    }

    // Looks along the edges of u, which is at the distance d.
    // A twin of `relax` (crates/repair_search), which keeps a tournament too: one function would need a trait with both contracts.
    fn look_along(
        &mut self,
        edges: &Adjacency,
        n: usize,
        m: usize,
        u: usize,
        d: f64,
        count: usize,
    ) -> usize
        requires u_lt_n { (u < n) × Nonneg binary64 d × Reached n self.old.dist self.old.touched count }
        requires edges_held { EdgesHeld n m edges.now }
        ensures dist_after { self.new.dist ≡ relax_arcs d (edges_at (edges_in m edges.now) u) self.old.dist }
        ensures done_after { self.new.done ≡ self.old.done }
        ensures reached { Reached n self.new.dist self.new.touched result }
    {
        let mut listed = count;
        let mut k = edges.first_arc(u);
        while k != 0 {
            let cost = d + edges.weights[edge_number(k)];
            let v = usize::from(edges.ends[k - 1]);
            listed = self.offer(n, v, cost, listed);
            k = edges.next_arc(u, k);
        }
        listed
    }

    // Looks along the edges of u, if it has come nearer since that was last done.
    fn visit(&mut self, edges: &Adjacency, n: usize, m: usize, u: usize, count: usize) -> usize
        requires u_lt_n { (u < n) × Looked n self.old count }
        requires edges_held { EdgesHeld n m edges.now }
        ensures goes_on { GoesOn (edges_in m edges.now) self.old self.new }
        ensures looked { Looked n self.new result }
    {
        let d = self.dist[u];
        if d < self.done[u] {
            self.done[u] = d;
            return self.look_along(edges, n, m, u, d, count);
        }
        count
    }

    // One sweep over the nodes that were reached, those that it reaches itself too.
    fn sweep(&mut self, edges: &Adjacency, n: usize, m: usize, count: usize) -> usize
        requires looked { Looked n self.old count }
        requires edges_held { EdgesHeld n m edges.now }
        ensures goes_on { GoesOn (edges_in m edges.now) self.old self.new }
        ensures looked_2 { Looked n self.new result }
    {
        let mut listed = count;
        let mut j: usize = 0;
        while j < listed {
            let u = usize::from(self.touched[j]);
            listed = self.visit(edges, n, m, u, listed);
            j += 1;
        }
        listed
    }

    // Whether no node has come nearer since its edges were last looked along.
    fn settled(&self, n: usize, count: usize) -> bool
        requires { (n ≤ most_nodes) × Looked n self.now count }
        ensures { result ≡ true → Settled self.now }
    {
        for j in 0..count {
            let u = usize::from(self.touched[j]);
            if self.dist[u] < self.done[u] {
                return false;
            }
        }
        true
    }

    // At most MOST_SWEEPS sweeps from s. Where the answer says that they settled, the distances are the least from s to each of n
    // nodes; where it does not, they are left open.
    // `Unswept`: every distance is infinity, and no node's edges were looked along.
    // `Found`, with a goal that is no node: every distance is the least.
    // `Looked`: the nodes that were reached are listed in `touched`, `count` of them, for `clear`.
    // The order of the nodes in `touched`, what stands behind them, and when each node's edges were last looked along is left open.
    pub fn sweep_from(&mut self, edges: &Adjacency, n: usize, m: usize, s: usize) -> Swept
        requires s_lt_n { (s < n) × Unswept self.old }
        requires edges_held { EdgesHeld n m edges.now }
        ensures distances { result.settled ≡ true → Found (edges_in m edges.now) s most_nodes self.new.dist }
        ensures reached { Looked n self.new result.count }
    {
        let mut count = touch(&self.dist, &mut self.touched, n, s, 0);
        self.dist[s] = 0.0;
        for _ in 0..MOST_SWEEPS {
            count = self.sweep(edges, n, m, count);
            if self.settled(n, count) {
                return Swept {
                    count,
                    settled: true,
                };
            }
        }
        Swept {
            count,
            settled: false,
        }
    }

    // Clears what sweeps changed: no node is reached, and none looked along, as before them.
    pub fn clear(&mut self, n: usize, count: usize)
        requires { (n ≤ most_nodes) × Looked n self.old count }
        ensures { Unswept self.new }
    {
        for j in 0..count {
            let v = usize::from(self.touched[j]);
            self.dist[v] = f64::INFINITY;
            self.done[v] = f64::INFINITY;
        }
    }
}
