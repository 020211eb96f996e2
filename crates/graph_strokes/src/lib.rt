// A stroke of a drawing, from one point to another: its edge, unless the two are one point.
#![tactic(auto)]

ghost use Rattle.std.specs.Prelude.{◌≡◌, ◌<◌};
ghost use Rattle.limits.specs.Limits.{most_nodes, edge_room};
ghost use Rattle.graph_splits.specs.Next.{at};
ghost use Rattle.graph_splits.specs.Points.{Measurable};
ghost use Rattle.graph_strokes.specs.Trace.{with_stroke, drawn_as};
ghost use Rattle.graph_strokes.specs.Step.{NodeReady, zeroed, begun, stepped, StepReady};

use graph_adjacency::Adjacency;
use graph_nodes::{BUCKETS, Table};
use grid::Point;
use limits::MOST_NODES;

// Pushes the edge from node u at p to node v at q, as long as the way between them; nothing where p is q.
// The answer is the number of edges, of which there were m.
pub fn draw(edges: &mut Adjacency, m: usize, u: usize, v: usize, p: Point, q: Point) -> usize
    requires room { (m < edge_room) × (u < most_nodes) × (v < most_nodes) }
    requires places { Measurable (at p.x p.y) × Measurable (at q.x q.y) }
    ensures { drawn_as result edges.new ≡ with_stroke m u v (at p.x p.y) (at q.x q.y) edges.old }
{
    if p == q {
        return m;
    }
    let weight = length::length(length::squared(p, q));
    edges.push_edge(m, u, v, weight);
    m + 1
}

// The nodes and the edges so far, how many there are, and the node last come to.
#[derive(Clone, Copy)]
pub struct Traced {
    pub table: Table,
    pub edges: Adjacency,
    pub node_count: usize,
    pub edge_count: usize,
    pub node: usize,
}

impl Traced {
    // No edges, and zeros for the nodes, whose table `build_graph` clears where it stands: cleared here, all 90 KB would be copied on the way out.
    pub fn new() -> Self
        ensures { result ≡ zeroed }
    {
        Traced {
            table: Table {
                xs: [0; MOST_NODES],
                ys: [0; MOST_NODES],
                next: [0; MOST_NODES],
                buckets: [0; BUCKETS],
            },
            edges: Adjacency::new(),
            node_count: 0,
            edge_count: 0,
            node: 0,
        }
    }

    // To q, with nothing drawn: q's node, which is added, and counted in, where it is new.
    pub fn begin(&mut self, q: Point)
        requires { NodeReady (at q.x q.y) self.old.node_count self.old.table }
        ensures { self.new ≡ begun (at q.x q.y) self.old }
    {
        let node = self.table.get_or_insert(q, self.node_count);
        self.node_count = graph_nodes::count_with(self.node_count, node);
        self.node = node;
    }

    // On from p, whose node is the last, to q: q's node, which is added where it is new, and the edge to it.
    pub fn step(&mut self, p: Point, q: Point)
        requires { StepReady (at p.x p.y) (at q.x q.y) self.old }
        ensures { self.new ≡ stepped (at p.x p.y) (at q.x q.y) self.old }
    {
        let from = self.node;
        self.begin(q);
        self.edge_count = draw(&mut self.edges, self.edge_count, from, self.node, p, q);
    }
}
