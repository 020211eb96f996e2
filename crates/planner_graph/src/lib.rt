// The plan of a graph: check 9, repair with checks 11 to 13, and the line with check 14.
#![tactic(auto)]

ghost use Rattle.std.specs.Prelude.{◌≡◌};
ghost use Rattle.file_records.specs.Meaning.{settings_of};
ghost use Rattle.graph_arrays.specs.Arrays.{graph_in};
ghost use Rattle.planner_spec.specs.Plan.{plan_graph};
ghost use Rattle.planner_graph.specs.Answer.{outcome_of, RetraceNonneg, lent, Plannable};

use file_records::Settings;
use graph_adjacency::Adjacency;
use graph_nodes::Table;
use limits::{MOST_EDGES, REFUSED_APART, REFUSED_EDGES, REFUSED_OUTPUT};
use repair::Parity;

// The number of a refusal; or the retrace's length, the odd nodes before and after, and the points of the line. No `Result`, since
// the documents and the programs name its cases.
#[derive(Clone, Copy)]
pub enum Answer {
    Refused(u8),
    Planned(f64, usize, usize, usize),
}

// Plans the graph of n nodes and m edges. What the edges and the tables are afterwards is left open: the caller made the ones
// and clears the others.
pub fn plan_graph(
    nodes: &Table,
    edges: &mut Adjacency,
    n: usize,
    m: usize,
    settings: Settings,
    floats: &mut [f64],
    bytes: &mut [u8],
    output: &mut [u8],
) -> Answer
    requires graph { Plannable settings n m nodes.now.xs nodes.now.ys edges.old }
    ensures outcome { outcome_of result output.new ≡ plan_graph (graph_in n m nodes.now.xs nodes.now.ys edges.old) (settings_of settings) (lent floats.old bytes.old output.old) }
    ensures retrace { RetraceNonneg result }
{
    let reached = graph_reach::all_reached(edges, n, m);
    let apart = !reached;
    if apart {
        return Answer::Refused(REFUSED_APART);
    }
    let repair = repair::fix_parity(
        nodes,
        edges,
        n,
        m,
        settings,
        floats,
        bytes,
        MOST_EDGES,
        REFUSED_EDGES,
    );
    match repair.parity {
        Parity::Refused(number) => Answer::Refused(number),
        Parity::Repaired(retrace, before, after) => {
            match planner_output::emit_line(nodes, edges, n, repair.edges, settings, output) {
                None => Answer::Refused(REFUSED_OUTPUT),
                Some(count) => Answer::Planned(retrace, before, after, count),
            }
        }
    }
}
