// The planner up to the end of one of its phases, for timing in other languages: the time of a phase is what a call up to
// its end takes more than one up to the phase before. All phases are in one function, as in `plan`, so that what a phase
// makes is there for the next one and nothing of it is left out where a call stops early.
#![tactic(auto)]

ghost use Rattle.std.specs.Prelude.{◌≡◌, true, length, replicate};
ghost use Rattle.drawing_spec.specs.Drawing.{linking};
ghost use Rattle.links_spec.specs.Made.{to_plan};
ghost use Rattle.file_records.specs.Meaning.{settings_of};
ghost use Rattle.file_drawing.specs.Back.{drawing_from};
ghost use Rattle.graph_arrays.specs.Arrays.{graph_in};
ghost use Rattle.repair_spec.specs.Distance.{zero_length};
ghost use Rattle.planner_graph.specs.Answer.{Plannable};
ghost use Rattle.planner.specs.Drawn.{Drawable};
ghost use Rattle.phases_c.specs.Phases.{graph_phase, drawing_phase, phase_of};

use file_drawing::Drawing;
use file_records::Settings;
use graph_adjacency::Adjacency;
use graph_nodes::Table;
use graph_strokes::Traced;
use limits::REFUSED_APART;
use phases::{GRAPH, ODD, Phase, READ, REPAIR};

// Of the graph of n nodes and m edges.
fn phase_of_graph(
    nodes: &Table,
    edges: &mut Adjacency,
    n: usize,
    m: usize,
    settings: Settings,
    floats: &mut [f64],
    bytes: &mut [u8],
    last: u32,
) -> Phase
    requires { Plannable settings n m nodes.now.xs nodes.now.ys edges.old }
    ensures { result ≡ graph_phase (graph_in n m nodes.now.xs nodes.now.ys edges.old) (settings_of settings) (length floats.old) (length bytes.old) last }
{
    if last == GRAPH {
        return phases::made(n, m);
    }
    let reached = graph_reach::all_reached(edges, n, m);
    if !reached {
        return phases::refused(REFUSED_APART);
    }
    if last == ODD {
        return phases::end_of_odd(edges, n, m);
    }
    let before_repair = last < REPAIR;
    if before_repair {
        return phases::end_of_pairs(nodes, edges, n, m, settings, floats, bytes, last);
    }
    phases::end_of_repair(nodes, edges, n, m, settings, floats, bytes, last)
}

// Of a drawing: the number of its lines and of its links, or what a later phase made of its graph.
fn phase_of_drawing(drawing: &Drawing, floats: &mut [f64], bytes: &mut [u8], last: u32) -> Phase
    requires { Drawable drawing.now }
    ensures { result ≡ drawing_phase (drawing_from drawing.now) (length floats.old) (length bytes.old) last }
{
    if last == READ {
        return phases::made(drawing.lines, drawing.link_count);
    }
    let mut made = Traced::new();
    let traced = &mut made;
    graph::build_graph(traced, drawing);
    phase_of_graph(
        &traced.table,
        &mut traced.edges,
        traced.node_count,
        traced.edge_count,
        drawing.settings,
        floats,
        bytes,
        last,
    )
}

// The same of a drawing with flag 4, with the links that are made for it, as in `planner`.
#[inline(never)]
fn phase_of_linked(drawing: &Drawing, floats: &mut [f64], bytes: &mut [u8], last: u32) -> Phase
    requires sound { Drawable drawing.now }
    requires asked { linking (settings_of drawing.now.settings) ≡ true }
    ensures { result ≡ drawing_phase (to_plan (drawing_from drawing.now)) (length floats.old) (length bytes.old) last }
{
    let linked = links_made::link_ends(*drawing);
    phase_of_drawing(&linked, floats, bytes, last)
}

// Of a file: the first of conditions 1 to 8 and 15 that holds, or else what a phase made of its drawing.
fn phase_of_bytes(file: &[u8], floats: &mut [f64], bytes: &mut [u8], last: u32) -> Phase
    ensures { result ≡ phase_of file.now (length floats.old) (length bytes.old) last }
{
    let mut drawing = Drawing::new();
    match file::read_into(file, &mut drawing) {
        Err(refusal) => phases::refused(refusal.number()),
        Ok(()) => {
            let linking = links_made::asked(drawing.settings);
            if !linking {
                return phase_of_drawing(&drawing, floats, bytes, last);
            }
            phase_of_linked(&drawing, floats, bytes, last)
        }
    }
}

// What the phase `last` of the planner makes of a file, whatever bytes it holds, with all phases before it. Both tables
// are all zeros afterwards.
#[unsafe(no_mangle)]
pub extern "C" fn plan_up_to(file: &[u8], floats: &mut [f64], bytes: &mut [u8], last: u32) -> Phase
    ensures answer { result ≡ phase_of file.now (length floats.old) (length bytes.old) last }
    ensures tables { (floats.new ≡ replicate (length floats.old) zero_length) × (bytes.new ≡ replicate (length bytes.old) 0) }
{
    let answer = phase_of_bytes(file, floats, bytes, last);
    tables::clear_floats(floats);
    tables::clear_bytes(bytes);
    answer
}
