// Hierholzer's walk over the edges in flat arrays, in time linear in the edges: each node has a cursor, an
// arc of its list before which every edge is used.
#![tactic(auto)]

ghost use Rattle.std.specs.Prelude.{◌≡◌, ◌<◌};
ghost use Rattle.limits.specs.Limits.{line_room};
ghost use Rattle.graph_arrays.specs.Arrays.{EdgesLinked, edges_in};
ghost use Rattle.walk_spec.specs.Walk as definition;
ghost use Rattle.walk_circuit.specs.Entries.{EntriesIn, entries_from};
ghost use Rattle.walk_circuit.specs.FirstArcs.{FirstArcs};

use graph_adjacency::{Adjacency, edge_number};
use limits::{LINE_ROOM, MOST_NODES};
use walk_marks::Marks;

// An arc, as the walk keeps it for each node.
type Cursor = u16;

// The entries of a circuit, from the place `first` to the end of two arrays of 8,004 bytes each: the nodes, and how each was
// entered, 0 for the first and i + 1 by the edge i. The front of the arrays is the stack of the walk, which never meets
// them; what stands there afterwards is left open.
#[derive(Drop)]
pub struct Entries {
    pub nodes: [u16; LINE_ROOM],
    pub bys: [u16; LINE_ROOM],
    pub first: usize,
}

impl Entries {
    // No entries yet.
    pub fn new() -> Self
        ensures { result.first ≡ line_room }
    {
        Entries {
            nodes: [0; LINE_ROOM],
            bys: [0; LINE_ROOM],
            first: LINE_ROOM,
        }
    }
}

// The first arc of each of the n nodes.
fn first_arcs(edges: &Adjacency, n: usize, m: usize) -> [Cursor; MOST_NODES]
    requires { EdgesLinked n m edges.now }
    ensures { FirstArcs edges.now.heads n result }
{
    let mut arcs = [0; MOST_NODES];
    for v in 0..n {
        arcs[v] = edges.first_arc(v) as Cursor;
    }
    arcs
}

// The circuit from the node s over m edges between n nodes.
pub fn circuit(edges: &Adjacency, n: usize, m: usize, s: usize, entries: &mut Entries)
    requires start { s < n }
    requires edges { EdgesLinked n m edges.now }
    ensures bys_after { entries_from entries.new.first entries.new.nodes entries.new.bys ≡ definition.circuit (edges_in m edges.now) s }
    ensures entries_in { EntriesIn n entries.new.first entries.new.nodes }
{
    // Beside the entries the walk's state is 504 and 3,068 bytes.
    let mut used = Marks::new();
    let mut cursors = first_arcs(edges, n, m);
    let mut depth: usize = 0;
    let mut node = s;
    let mut by: u16 = 0;
    let mut place: usize = LINE_ROOM;
    // Each edge is gone along once, and each entry taken off once.
    'walk: for _ in 0..2 * m + 1 {
        let mut k = usize::from(cursors[node]);
        while 0 < k {
            let i = edge_number(k);
            let after = edges.next_arc(node, k);
            let unused = !used.is_used(i);
            if unused {
                used.mark_used(i);
                cursors[node] = after as Cursor;
                entries.nodes[depth] = node as u16;
                entries.bys[depth] = by;
                depth += 1;
                node = usize::from(edges.ends[k - 1]);
                by = (i + 1) as u16;
                continue 'walk;
            }
            k = after;
        }
        if depth == 0 {
            break 'walk;
        }
        cursors[node] = 0;
        place -= 1;
        depth -= 1;
        let below = usize::from(entries.nodes[depth]);
        let entered = entries.bys[depth];
        entries.nodes[place] = node as u16;
        entries.bys[place] = by;
        node = below;
        by = entered;
    }
    place -= 1;
    entries.nodes[place] = node as u16;
    entries.bys[place] = by;
    entries.first = place;
}
