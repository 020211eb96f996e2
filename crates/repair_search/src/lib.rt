// Least distances from one node to all, along the edges of a graph in flat arrays (crates/graph_adjacency), by
// Dijkstra's algorithm of 1959: of the nodes that are not yet done take a nearest, and see whether its edges
// lead to a nearer way. A tournament (crates/repair_tournament) has the distance of each node that was reached and
// is not done, and infinity for every other.
#![tactic(auto)]

ghost use Rattle.std.specs.Prelude.{◌≡◌, ℕ, ◌<◌, ◌≤◌, length};
ghost use Rattle.std.specs.Float.{binary64};
ghost use Rattle.limits.specs.Limits.{most_nodes};
ghost use Rattle.sums.specs.Key.{Nonneg};
ghost use Rattle.graph_spec.specs.Graph.{edges_at};
ghost use Rattle.graph_arrays.specs.Arrays.{edges_in, EdgesHeld};
ghost use Rattle.repair_spec.specs.Distance.{distance_at};
ghost use Rattle.repair_search.specs.Offer.{Held, Offered};
ghost use Rattle.repair_search.specs.Relaxing.{Relaxed};
ghost use Rattle.repair_search.specs.Touched.{Listed, ListedWith, Touched, Unreached};
ghost use Rattle.repair_search.specs.Search.{Found};

use graph_adjacency::{Adjacency, edge_number};
use limits::MOST_NODES;
use repair_tournament::Tournament;

// The distances so far, infinity where none is known; the nodes of which one is known that are not done; and a list of all of
// which one is known.
#[derive(Clone, Copy)]
pub struct Search {
    pub dist: [f64; MOST_NODES],
    pub tree: Tournament,
    pub touched: [u16; MOST_NODES],
}

// Lists v, of which a distance is known now, where none was known before; the answer is how many nodes are listed.
pub fn touch(
    dist: &[f64; MOST_NODES],
    touched: &mut [u16; MOST_NODES],
    n: usize,
    v: usize,
    count: usize,
) -> usize
    requires { (n ≤ most_nodes) × (v < n) × (length dist.now ≡ most_nodes) × Listed n dist.now touched.old count }
    ensures { ListedWith n v dist.now touched.new result }
{
    if dist[v] < f64::INFINITY {
        return count;
    }
    touched[count] = v as u16;
    count + 1
}

impl Search {
    // No node is reached yet. The arrays are filled where they stand: made apart they would be copied.
    pub fn new() -> Self
        ensures { (n : ℕ) → n ≤ most_nodes → Unreached n result }
    {
        let mut search = Search {
            dist: [0.0; MOST_NODES],
            tree: Tournament {
                values: [0.0; 2 * MOST_NODES],
            },
            touched: [0; MOST_NODES],
        };
        search.dist.fill(f64::INFINITY);
        search.tree.clear();
        search
    }

    // The way to v that costs `cost`, where that is less.
    fn offer(&mut self, n: usize, v: usize, cost: f64, count: usize) -> usize
        requires n_le_most_nodes { (n ≤ most_nodes) × (v < n) × Held n self.old.dist self.old.tree.values × Nonneg binary64 cost }
        requires listed { Listed n self.old.dist self.old.touched count }
        ensures offered { Offered n v cost self.old.dist self.old.tree.values self.new.dist self.new.tree.values }
        ensures listed_2 { Listed n self.new.dist self.new.touched result }
    {
        if cost < self.dist[v] {
            let more = touch(&self.dist, &mut self.touched, n, v, count);
            self.dist[v] = cost;
            self.tree.store(n, v, cost);
            return more;
        }
        count
    }

    // Looks along the edges of u, which is at the distance d.
    fn relax(
        &mut self,
        edges: &Adjacency,
        n: usize,
        m: usize,
        u: usize,
        d: f64,
        count: usize,
    ) -> usize
        requires u_lt_n { (u < n) × Nonneg binary64 d × Held n self.old.dist self.old.tree.values × Listed n self.old.dist self.old.touched count }
        requires edges_held { EdgesHeld n m edges.now }
        ensures relaxed { Relaxed n (edges_at (edges_in m edges.now) u) d self.old.dist self.old.tree.values self.new.dist self.new.tree.values }
        ensures listed { Listed n self.new.dist self.new.touched result }
    {
        let mut listed = count;
        let mut k = edges.first_arc(u);
        while k != 0 {
            let cost = d + edges.weights[edge_number(k)];
            let v = usize::from(edges.ends[k - 1]);
            listed = self.offer(n, v, cost, listed);
            k = edges.next_arc(u, k);
        }
        listed
    }

    // The distance of the goal; infinity where it is no node.
    fn distance_of(&self, goal: usize) -> f64
        requires { length self.now.dist ≡ most_nodes }
        ensures { result ≡ distance_at self.now.dist goal }
    {
        if goal < MOST_NODES {
            return self.dist[goal];
        }
        f64::INFINITY
    }

    // The node that was listed last; s where none is.
    fn last_listed(&self, n: usize, count: usize, s: usize) -> usize
        requires { (s < n) × (length self.now.dist ≡ most_nodes) × Listed n self.now.dist self.now.touched count }
        ensures { result < n }
    {
        if count == 0 {
            return s;
        }
        usize::from(self.touched[count - 1])
    }

    // The least distances from s to each of n nodes, up to that of the goal: one that is lower than the goal's or
    // equal to it is the least, and no node with a higher one is nearer than the goal. With a goal that is no
    // node, as MOST_NODES, all are least. The answer is how many nodes were reached, which are listed in `touched`.
    // `Unreached`: every distance is infinity, in the tournament too, so that no node is reached yet.
    // `Found`, by `UpTo`: a distance within the goal's is the least; to a node beyond it no way costs less than the goal's.
    // `Touched`, by `Listed`: the first r of `touched` are nodes, every node with a distance among them, and none of the
    // others has a value in the tournament.
    // Which distance a node beyond the goal has, which value a reached node has in the tournament, the order of the nodes in
    // `touched` and what stands behind them is left open.
    // The goal is a plain number and no Option, since the distance of a number that is no node is infinity anyway (`distance_at`).
    pub fn search_from(
        &mut self,
        edges: &Adjacency,
        n: usize,
        m: usize,
        s: usize,
        goal: usize,
    ) -> usize
        requires s_lt_n { (s < n) × Unreached n self.old }
        requires edges_held { EdgesHeld n m edges.now }
        ensures distances { Found (edges_in m edges.now) s goal self.new.dist }
        ensures reached { Touched n self.new result }
    {
        let mut count = touch(&self.dist, &mut self.touched, n, s, 0);
        self.dist[s] = 0.0;
        self.tree.store(n, s, 0.0);
        for round in 0..MOST_NODES {
            let d = self.tree.values[1];
            let limit = self.distance_of(goal);
            let nearer = d < limit;
            if !nearer {
                break;
            }
            let last = self.last_listed(n, count, s);
            let u = self.tree.least_at(n, last);
            count = self.relax(edges, n, m, u, d, count);
            self.tree.store(n, u, f64::INFINITY);
        }
        count
    }

    // Clears what a search changed: no node is reached, as before it.
    pub fn clear(&mut self, n: usize, count: usize)
        requires { (n ≤ most_nodes) × Touched n self.old count }
        ensures { Unreached n self.new }
    {
        for j in 0..count {
            let v = usize::from(self.touched[j]);
            self.dist[v] = f64::INFINITY;
            self.tree.store(n, v, f64::INFINITY);
        }
    }
}
