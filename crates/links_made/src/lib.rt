// The links that are made for a drawing in flat arrays: the ends of its lines are taken out, `links_tree` chooses among the candidates,
// and each that is chosen is written as a link.
#![tactic(auto)]

ghost use Rattle.std.specs.Prelude.{◌≡◌, map, ◌<◌, ◌≤◌, length, take, replicate};
ghost use Rattle.std.proofs.lemmas.List.Edits.{sets};
ghost use Rattle.limits.specs.Limits.{most_lines, most_links, most_points};
ghost use Rattle.drawing_spec.specs.Drawing.{linking};
ghost use Rattle.file_records.specs.Body.{point_from, edge_from};
ghost use Rattle.file_records.specs.Meaning.{settings_of};
ghost use Rattle.file_drawing.specs.Back.{lines_back, drawing_from};
ghost use Rattle.file_drawing.specs.Held.{no_link, drawing_held};
ghost use Rattle.links_spec.specs.Made.{made_links, linked, to_plan};
ghost use Rattle.links_tree.specs.Packed.{EndsOn, codes, AreCodes, end_of};
ghost use Rattle.links_made.specs.Filled.{StartsIn, PlacesOn, place_in, line_ends, mark_at, ends_at, Marked, Ended, segment_in, edge_in};
ghost use Rattle.links_made.specs.Linkable.{Linkable};

use file_drawing::{Drawing, arrays};
use file_records::{MstEdge, Point, Settings};
use grid::Point as Place;
use limits::{MOST_LINES, MOST_LINKS};
use links_tree::{BETWEEN, Ends, Found, NUMBERS, Ranked};

// What stands where a line has no points.
const NO_ENDS: Ends = Ends {
    start: Place { x: 0, y: 0 },
    end: Place { x: 0, y: 0 },
};

// The lines that have points are marked, and these have their ends.
#[derive(Clone, Copy)]
struct LineEnds {
    has: [u8; MOST_LINES],
    ends: [Ends; MOST_LINES],
}

// The place of the point i.
fn place_at(drawing: &Drawing, i: usize) -> Place
    requires { i < most_points }
    ensures { result ≡ place_in drawing.now.xs drawing.now.ys i }
{
    Place {
        x: drawing.xs[i],
        y: drawing.ys[i],
    }
}

impl LineEnds {
    // Marks the line l where it has points.
    fn mark(&mut self, drawing: &Drawing, l: usize)
        requires { l < most_lines }
        ensures { self.new ≡ line_ends (mark_at drawing.now.starts self.old.has l) self.old.ends }
    {
        let first = drawing.starts[l];
        let next = drawing.starts[l + 1];
        if first < next {
            self.has[l] = 1;
        }
    }

    // Takes the ends of the line l where it has points.
    fn take_ends(&mut self, drawing: &Drawing, l: usize)
        requires { (l < most_lines) × StartsIn drawing.now.starts }
        ensures { self.new ≡ line_ends self.old.has (ends_at drawing.now.starts drawing.now.xs drawing.now.ys self.old.ends l) }
    {
        let first = usize::from(drawing.starts[l]);
        let end = usize::from(drawing.starts[l + 1]);
        if first < end {
            self.ends[l] = Ends {
                start: place_at(drawing, first),
                end: place_at(drawing, end - 1),
            };
        }
    }
}

// The segment that a link names at an end of the line l.
fn segment(drawing: &Drawing, l: usize, end: usize) -> u16
    requires { (l < most_lines) × (end < 2) × StartsIn drawing.now.starts }
    ensures { result ≡ segment_in drawing.now.starts l end }
{
    if end == 0 {
        return 0;
    }
    let points = drawing.starts[l + 1].saturating_sub(drawing.starts[l]);
    points.saturating_sub(2)
}

// The point at an end of a line.
fn end_point(ends: Ends, end: usize) -> Point
    ensures { result ≡ point_from (end_of ends end) }
{
    let place = if end == 0 { ends.start } else { ends.end };
    Point {
        x: grid::coordinate(place.x),
        y: grid::coordinate(place.y),
    }
}

// The candidate c as a link.
fn edge_of(drawing: &Drawing, ends: &[Ends; MOST_LINES], c: Ranked) -> MstEdge
    requires { (c.code < codes) × StartsIn drawing.now.starts }
    ensures { result ≡ edge_in drawing.now.starts ends.now c }
{
    let code = c.code as usize;
    let low = code / NUMBERS;
    let high = code / BETWEEN % MOST_LINES;
    let low_end = code / 2 % 2;
    let high_end = code % 2;
    MstEdge {
        poly_a: low as u16,
        seg_a: segment(drawing, low, low_end),
        poly_b: high as u16,
        seg_b: segment(drawing, high, high_end),
        point_a: end_point(ends[low], low_end),
        point_b: end_point(ends[high], high_end),
    }
}

// The links made, and how many they are.
#[derive(Clone, Copy)]
pub struct Made {
    pub count: usize,
    pub links: [MstEdge; MOST_LINKS],
}

// The links that are made for a drawing. Not compiled into its callers, whose room would then hold what the links are made of while the
// drawing is planned.
#[inline(never)]
pub fn make_links(drawing: &Drawing) -> Made
    requires { (drawing.now.lines ≤ most_lines) × StartsIn drawing.now.starts × PlacesOn drawing.now.xs × PlacesOn drawing.now.ys }
    ensures { (result.count ≡ length (made_links (lines_back drawing.now.lines 0 drawing.now.starts drawing.now.xs drawing.now.ys))) × (result.links ≡ sets (replicate most_links no_link) 0 (map edge_from (made_links (lines_back drawing.now.lines 0 drawing.now.starts drawing.now.xs drawing.now.ys)))) }
{
    let mut taken = LineEnds {
        has: [0; MOST_LINES],
        ends: [NO_ENDS; MOST_LINES],
    };
    for l in 0..drawing.lines {
        taken.mark(drawing, l);
        taken.take_ends(drawing, l);
    }
    let found = links_tree::grow(&taken.ends, &taken.has, drawing.lines);
    let mut links = [arrays::no_link(); MOST_LINKS];
    for j in 0..found.count {
        links[j] = edge_of(drawing, &taken.ends, found.candidates[j]);
    }
    Made {
        count: found.count,
        links,
    }
}

// A drawing with the links that are made for it.
pub fn link_ends(drawing: Drawing) -> Drawing
    requires { Linkable drawing }
    ensures { result ≡ drawing_held (linked (drawing_from drawing)) }
{
    let Made { count, links } = make_links(&drawing);
    Drawing {
        link_count: count,
        links,
        ..drawing
    }
}

// Whether flag 4 asks for links.
pub fn asked(s: Settings) -> bool
    ensures { result ≡ linking (settings_of s) }
{
    s.flags / 4 % 2 == 1
}

// The drawing that is planned: with the links that are made for it where flag 4 asks for them, and else as it is.
pub fn to_plan(drawing: Drawing) -> Drawing
    requires { Linkable drawing }
    ensures { result ≡ drawing_held (to_plan (drawing_from drawing)) }
{
    if asked(drawing.settings) {
        link_ends(drawing)
    } else {
        drawing
    }
}
