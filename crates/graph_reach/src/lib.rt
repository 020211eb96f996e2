// Check 9: whether every node can be reached from node 0. Nodes are marked and wait in a queue; each is
// looked at once, and so is each of its edges.
#![tactic(auto)]

ghost use Rattle.std.specs.Prelude.{◌≡◌, ◌<◌, ◌≤◌};
ghost use Rattle.limits.specs.Limits.{most_nodes};
ghost use Rattle.graph_spec.specs.Reach.{all_reached};
ghost use Rattle.graph_arrays.specs.Arrays.{edges_in, EdgesLinked};
ghost use Rattle.graph_reach.specs.Marks.{Tidy, marking, mark_all, targets_of};
ghost use Rattle.graph_reach.specs.Tells.{Tells};

use graph_adjacency::Adjacency;
use limits::MOST_NODES;

// Which nodes are marked, and the `tail` of them that are, in the order in which they were marked.
#[derive(Drop)]
struct Marks {
    marked: [bool; MOST_NODES],
    queue: [u16; MOST_NODES],
    tail: usize,
}

impl Marks {
    // Marks v, and puts it last in the queue, unless it is marked already.
    fn mark(&mut self, v: usize)
        requires node { v < most_nodes }
        requires tidy { Tidy self.old }
        ensures { self.new ≡ marking v self.old }
    {
        if self.marked[v] {
            return;
        }
        self.marked[v] = true;
        self.queue[self.tail] = v as u16;
        self.tail += 1;
    }

    // Marks the nodes that v is joined with.
    fn mark_neighbours(&mut self, edges: &Adjacency, n: usize, m: usize, v: usize)
        requires edges { EdgesLinked n m edges.now }
        requires node { v < most_nodes }
        requires tidy { Tidy self.old }
        ensures { self.new ≡ mark_all (targets_of (edges_in m edges.now) v) self.old }
    {
        let mut k = edges.first_arc(v);
        while 0 < k {
            let w = usize::from(edges.ends[k - 1]);
            self.mark(w);
            k = edges.next_arc(v, k);
        }
    }

    // Whether the first n nodes are marked.
    fn all_marked(&self, n: usize) -> bool
        requires { n ≤ most_nodes }
        ensures { Tells n self.now.marked result }
    {
        for v in 0..n {
            if !self.marked[v] {
                return false;
            }
        }
        true
    }
}

// Check 9: whether every one of n nodes can be reached from node 0 by the first m edges.
pub fn all_reached(edges: &Adjacency, n: usize, m: usize) -> bool
    requires { EdgesLinked n m edges.now }
    ensures { result ≡ all_reached n (edges_in m edges.now) }
{
    let mut marks = Marks {
        marked: [false; MOST_NODES],
        queue: [0; MOST_NODES],
        tail: 1,
    };
    marks.marked[0] = true;
    let mut head: usize = 0;
    while head < marks.tail {
        let v = usize::from(marks.queue[head]);
        marks.mark_neighbours(edges, n, m, v);
        head += 1;
    }
    marks.all_marked(n)
}
