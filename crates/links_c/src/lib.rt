// The links of the drawing that is planned, for comparison and timing in other languages: of a file with flag 4 they are those that are made.
#![tactic(auto)]

ghost use Rattle.std.specs.Prelude.{◌≡◌};
ghost use Rattle.file_drawing.specs.Back.{drawing_from};
ghost use Rattle.links_spec.specs.Made.{to_plan};
ghost use Rattle.links_made.specs.Linkable.{Linkable};
ghost use Rattle.file_drawing.specs.Held.{no_link};
ghost use Rattle.links_c.specs.MadeLinks.{with_link, link_of, made_link_of};

use file_drawing::Drawing;

// The number of a refusal and zeros; or 0 with the number of links, and of one of them both ends: line, segment and place. Zeros where there is no such link.
#[repr(C)]
#[derive(Clone, Copy)]
pub struct MadeLink {
    pub refusal: u32,
    pub links: u32,
    pub first_line: u32,
    pub first_segment: u32,
    pub second_line: u32,
    pub second_segment: u32,
    pub first_x: f64,
    pub first_y: f64,
    pub second_x: f64,
    pub second_y: f64,
}

// No link, of `links`, or of a refused file.
fn no_link(refusal: u32, links: u32) -> MadeLink
    ensures { result ≡ with_link refusal links no_link }
{
    MadeLink {
        refusal,
        links,
        first_line: 0,
        first_segment: 0,
        second_line: 0,
        second_segment: 0,
        first_x: 0.0,
        first_y: 0.0,
        second_x: 0.0,
        second_y: 0.0,
    }
}

// The j-th link of the drawing that is planned.
fn link_of(drawing: Drawing, j: u32) -> MadeLink
    requires { Linkable drawing }
    ensures { result ≡ link_of (to_plan (drawing_from drawing)) j }
{
    let planned = links_made::to_plan(drawing);
    let links = planned.link_count as u32;
    if links <= j {
        return no_link(0, links);
    }
    let edge = planned.links[j as usize];
    MadeLink {
        refusal: 0,
        links,
        first_line: u32::from(edge.poly_a),
        first_segment: u32::from(edge.seg_a),
        second_line: u32::from(edge.poly_b),
        second_segment: u32::from(edge.seg_b),
        first_x: edge.point_a.x,
        first_y: edge.point_a.y,
        second_x: edge.point_b.x,
        second_y: edge.point_b.y,
    }
}

// The j-th link of the drawing that is planned of a file, whatever bytes it holds.
#[unsafe(no_mangle)]
pub extern "C" fn made_link(file: &[u8], j: u32) -> MadeLink
    ensures { result ≡ made_link_of file.now j }
{
    let mut drawing = Drawing::new();
    match file::read_into(file, &mut drawing) {
        Ok(()) => link_of(drawing, j),
        Err(refusal) => no_link(u32::from(refusal.number()), 0),
    }
}
