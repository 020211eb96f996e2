// The writer of drawing files: for every drawing that is handed to it the number of the first condition that holds, or the one file
// without minus zero that reads back as it. The checks are in `file_checks` and `writer_checks`, the records in `writer_records`;
// this crate has the checks in their order and what the writer answers.
#![tactic(auto)]

ghost use Rattle.std.specs.Prelude.{◌≡◌, ℕ, ◌^◌, ◌<◌, ◌≤◌, ◌&&◌, slice_index};
ghost use Rattle.limits.specs.Limits.{file_size, most_lines, most_points, most_links};
ghost use Rattle.drawing_spec.specs.Refusal.{verdict, refusal_of};
ghost use Rattle.writer_spec.specs.Given.{fitting, sketch_given, given_conditions, save_given};
ghost use Rattle.writer_checks.specs.Checked.{all_on};
ghost use Rattle.writer_records.specs.Handed.{handed};
ghost use Rattle.writer.specs.Saved.{number_or_none, saved_from, WritesOne};

use file_checks::{heads, settings};
use limits::{HEAD_SIZE, LINK_SIZE, POINT_SIZE, Refusal, SETTINGS_SIZE};
use writer_records::Given;

// The bytes of a file with so many lines, points and links.
fn file_size(lines: usize, points: usize, links: usize) -> usize
    requires { (lines ≤ most_lines) × (points ≤ most_points) × (links ≤ most_links) }
    ensures { result ≡ file_size lines points links }
{
    HEAD_SIZE
        + SETTINGS_SIZE
        + HEAD_SIZE * lines
        + POINT_SIZE * points
        + (HEAD_SIZE + LINK_SIZE) * links
}

// Whether there are two coordinates for each point, and four numbers and four coordinates for each link.
fn slices_fit(drawing: &Given) -> bool
    ensures { result ≡ fitting drawing.now.sizes.now drawing.now.coordinates.now drawing.now.segments.now drawing.now.ends.now }
{
    writer_checks::points_fit(drawing.sizes, drawing.coordinates)
        && drawing.segments.len() % 4 == 0
        && drawing.segments.len() == drawing.ends.len()
}

// Check 7: the coordinates of the lines, and of the links' ends.
fn coordinates_fit(drawing: &Given) -> bool
    ensures { result ≡ (all_on drawing.now.coordinates.now && all_on drawing.now.ends.now) }
{
    writer_checks::all_on(drawing.coordinates) && writer_checks::all_on(drawing.ends)
}

// The first condition that holds, if one does. Each covers the whole drawing.
fn first_refusal(drawing: &Given, room: usize) -> Result<(), Refusal>
    ensures { number_or_none result ≡ refusal_of (verdict (given_conditions (handed drawing.now) room)) }
{
    if !slices_fit(drawing) {
        return Err(Refusal::Lengths);
    }
    if !settings::settings_fit(drawing.settings) {
        return Err(Refusal::Settings);
    }
    let lines = drawing.sizes.len();
    let points = drawing.coordinates.len() / 2;
    let links = drawing.segments.len() / 4;
    if !heads::counts_fit(lines, points, links) {
        return Err(Refusal::Counts);
    }
    if !settings::own_links_fit(drawing.settings, links) {
        return Err(Refusal::OwnLinks);
    }
    if !coordinates_fit(drawing) {
        return Err(Refusal::Coordinates);
    }
    if !writer_checks::links_in(drawing.sizes, drawing.segments) {
        return Err(Refusal::Links);
    }
    if room < file_size(lines, points, links) {
        return Err(Refusal::Destination);
    }
    Ok(())
}

// For the proof alone, and empty: the numbers of a slice fit its type, which is not known of a slice that is a struct's field.
fn have_64_bits(words: &[u64])
    ensures { (j : ℕ) → slice_index words.now j < 2 ^ 64 }
{}

// Saves a drawing, whatever it holds, and says how many bytes its file has. Refused, the destination keeps its bytes; otherwise those
// past the file do, and what stands before them is the one file without minus zero that reads back as the drawing.
pub fn save(destination: &mut [u8], drawing: &Given) -> Result<usize, Refusal>
    ensures saved { saved_from result destination.new ≡ save_given (handed drawing.now) destination.old }
    ensures one_file { WritesOne result (sketch_given (handed drawing.now)) destination.new }
{
    first_refusal(drawing, destination.len())?;
    writer_records::write_file(destination, drawing);
    have_64_bits(drawing.coordinates);
    have_64_bits(drawing.ends);
    Ok(file_size(
        drawing.sizes.len(),
        drawing.coordinates.len() / 2,
        drawing.segments.len() / 4,
    ))
}
