// The reader of drawing files: for every slice of bytes the number of the first of conditions 1 to 8 and 15 that holds, or
// the drawing.
//
// Check 1 is made here, checks 2 to 7 and 15 are in `file_checks`, and check 8 and the arrays in `file_drawing`. This crate has the
// checks in their order and what the reader answers.
#![tactic(auto)]

ghost use Rattle.std.specs.Prelude.{◌≡◌, MatchResult};
ghost use Rattle.drawing_spec.specs.Read.{records_of, drawing_of};
ghost use Rattle.drawing_spec.specs.Accepted.{Passed};
ghost use Rattle.file.specs.Reading.{Accepted, Refused, NoneEarly, RefusedEarly};
ghost use Rattle.file_drawing.specs.Held.{drawing_held, nothing};

use file_checks::{coordinates, heads, settings};
use file_drawing::{Drawing, arrays, links};
use limits::{MOST_BYTES, Refusal};

// The first condition before 8 that holds. Each covers the whole file.
fn first_refusal(file: &[u8]) -> Result<(), Refusal>
    ensures { MatchResult result (λ _. NoneEarly file.now) (λ r. RefusedEarly file.now r) }
{
    let many_bytes = MOST_BYTES < file.len();
    if many_bytes {
        return Err(Refusal::Bytes);
    }
    if heads::is_cut(file) {
        return Err(Refusal::Cut);
    }
    let t = heads::tally_of(file);
    if !heads::order_fits(t.order) {
        return Err(Refusal::Kinds);
    }
    if !t.lengths {
        return Err(Refusal::Lengths);
    }
    let settings = settings::settings_of(file, 0);
    if !settings::settings_fit(settings) {
        return Err(Refusal::Settings);
    }
    if !heads::counts_fit(t.lines, t.points, t.links) {
        return Err(Refusal::Counts);
    }
    if !settings::own_links_fit(settings, t.links) {
        return Err(Refusal::OwnLinks);
    }
    if !coordinates::coordinates_fit(file) {
        return Err(Refusal::Coordinates);
    }
    Ok(())
}

// Reads the drawing of a file that none of the checks before check 8 refuses: the settings come first, and the lines start
// behind them.
fn fill(file: &[u8], drawing: &mut Drawing)
    requires passed { Passed file.now }
    requires empty { drawing.old ≡ nothing }
    ensures { drawing.new ≡ drawing_held (drawing_of (records_of file.now)) }
{
    let t = heads::tally_of(file);
    drawing.settings = settings::settings_of(file, 0);
    drawing.lines = t.lines;
    drawing.points = t.points;
    drawing.link_count = t.links;
    let start = file_reader::place_behind(file, 0);
    let end = arrays::fill_lines(
        file,
        start,
        t.lines,
        &mut drawing.starts,
        &mut drawing.xs,
        &mut drawing.ys,
    );
    drawing.links = arrays::read_links(file, end, t.links);
}

// Reads a drawing file, whatever its bytes are, into a drawing with nothing in it: a drawing is 19 KB, and one that is handed out is
// copied on the way. Where the file is refused, what stands in the drawing is left open.
pub fn read_into(file: &[u8], drawing: &mut Drawing) -> Result<(), Refusal>
    requires { drawing.old ≡ nothing }
    ensures { MatchResult result (λ _. Accepted file.now drawing.new) (λ r. Refused file.now r) }
{
    first_refusal(file)?;
    fill(file, drawing);
    if !links::links_fit(drawing) {
        return Err(Refusal::Links);
    }
    Ok(())
}

// The same, with the drawing handed out.
pub fn read(file: &[u8]) -> Result<Drawing, Refusal>
    ensures { MatchResult result (λ d. Accepted file.now d) (λ r. Refused file.now r) }
{
    let mut drawing = Drawing::new();
    read_into(file, &mut drawing)?;
    Ok(drawing)
}
