// The edges of a graph in flat arrays, with a list of each node's edges.
//
// An arc is an edge seen from one of its ends: edge e has the arc e + 1 from its second end and the arc
// e + FIRST_END from its first; 0 is no arc. `ends` has at k - 1 the node that arc k leads to, `next` at k - 1
// the arc of the next older edge that has the same node as the same end. `heads` has the newest arc of
// each node v: at v by first ends, at v + MOST_NODES by second ends.
#![tactic(auto)]

ghost use Rattle.std.specs.Prelude.{◌≡◌, ◌<◌, ◌≤◌, get_or};
ghost use Rattle.std.specs.Float.{nan};
ghost use Rattle.limits.specs.Limits.{most_nodes, edge_room, arc_room};
ghost use Rattle.graph_adjacency.specs.Lists.{no_edges, push, first_arc, next_arc, edge_number};

use limits::{ARC_ROOM, EDGE_ROOM, MOST_NODES};

// The arc of edge 0 from its first end.
const FIRST_END: usize = EDGE_ROOM + 1;

// The edges of a graph, and the lists of each node's edges.
#[derive(Clone, Copy)]
pub struct Adjacency {
    pub ends: [u16; ARC_ROOM],
    pub weights: [f64; EDGE_ROOM],
    pub next: [u16; ARC_ROOM],
    pub heads: [u16; 2 * MOST_NODES],
}

// No edges yet.
const NO_EDGES: Adjacency = Adjacency {
    ends: [0; ARC_ROOM],
    weights: [0.0; EDGE_ROOM],
    next: [0; ARC_ROOM],
    heads: [0; 2 * MOST_NODES],
};

impl Adjacency {
    // No edges yet.
    pub fn new() -> Self
        ensures { result ≡ no_edges }
    {
        NO_EDGES
    }

    // The edge number e, from u to v.
    pub fn push_edge(&mut self, e: usize, u: usize, v: usize, weight: f64)
        requires { (e < edge_room) × (u < most_nodes) × (v < most_nodes) }
        ensures { self.new ≡ push e u v weight self.old }
    {
        let first = e + EDGE_ROOM;
        let second = v + MOST_NODES;
        self.ends[e] = u as u16;
        self.ends[first] = v as u16;
        self.weights[e] = weight;
        self.next[first] = self.heads[u];
        self.next[e] = self.heads[second];
        self.heads[u] = (e + FIRST_END) as u16;
        self.heads[second] = (e + 1) as u16;
    }

    // The first arc of a node, in the order in which its edges are looked at; 0 where it has none.
    pub fn first_arc(&self, v: usize) -> usize
        requires { v < most_nodes }
        ensures { result ≡ first_arc self.now.heads v }
    {
        let head = usize::from(self.heads[v]);
        let none = head == 0;
        if none {
            return usize::from(self.heads[v + MOST_NODES]);
        }
        head
    }

    // The arc of the node v after its arc k; 0 after the last.
    pub fn next_arc(&self, v: usize, k: usize) -> usize
        requires { (0 < k) × (k ≤ arc_room) × (v < most_nodes) }
        ensures { result ≡ next_arc self.now.next self.now.heads v k }
    {
        let older = usize::from(self.next[k - 1]);
        if k <= EDGE_ROOM {
            return older;
        }
        let last = older == 0;
        if last {
            return usize::from(self.heads[v + MOST_NODES]);
        }
        older
    }
}

// The number of an arc's edge.
pub fn edge_number(k: usize) -> usize
    requires { 0 < k }
    ensures { result ≡ edge_number k }
{
    if k <= EDGE_ROOM {
        return k - 1;
    }
    k - FIRST_END
}
