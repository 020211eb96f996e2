// The line written as a record of kind 4: a 4-byte body length, a 2-byte kind, then 16 bytes for each point,
// every number with its lowest byte first.
#![tactic(auto)]

ghost use Rattle.std.specs.Prelude.{◌≡◌, ◌+◌, ◌*◌, ◌≤◌, ◌<◌, length};
ghost use Rattle.std.proofs.lemmas.List.Edits.{sets};
ghost use Rattle.planner_spec.specs.LineRecord.{line_record};
ghost use Rattle.limits.specs.Limits.{head_size, point_size, most_nodes, line_room};
ghost use Rattle.drawing_spec.specs.Bytes.{in_front};
ghost use Rattle.graph_arrays.specs.NodeList.{NodeList};
ghost use Rattle.record.specs.Written.{place_bytes, points_in};

use graph_nodes::Table;
use grid::Point;
use limits::{HEAD_SIZE, KIND_ANSWER, LINE_ROOM, POINT_SIZE};

// Puts a point into 16 bytes.
fn write_point(output: &mut [u8], at: usize, p: Point)
    requires { at + point_size ≤ length output.old }
    ensures { output.new ≡ sets output.old at (place_bytes p.x p.y) }
{
    number_bytes::write_number(output, at, 8, grid::write_place(p.x));
    number_bytes::write_number(output, at + 8, 8, grid::write_place(p.y));
}

// Writes the record of a line of `count` nodes into an output that has room for it. Later bytes keep their value.
pub fn write_line(nodes: &Table, line: &[u16; LINE_ROOM], count: usize, output: &mut [u8])
    requires nodes { NodeList most_nodes line_room line.now count }
    requires room { head_size + point_size * count ≤ length output.old }
    ensures { output.new ≡ in_front (line_record (points_in nodes.now.xs nodes.now.ys line.now count)) output.old }
{
    number_bytes::write_number(output, 0, 4, (POINT_SIZE * count) as u64);
    number_bytes::write_number(output, 4, 2, u64::from(KIND_ANSWER));
    for i in 0..count {
        let v = usize::from(line[i]);
        let p = Point {
            x: nodes.xs[v],
            y: nodes.ys[v],
        };
        write_point(output, HEAD_SIZE + POINT_SIZE * i, p);
    }
}
