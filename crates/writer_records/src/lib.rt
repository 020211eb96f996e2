// The records of a drawing that is handed in as slices, put into a destination that has room for them: settings, lines, links.
#![tactic(auto)]

ghost use Rattle.std.specs.Prelude.{◌≡◌, ◌+◌, ◌*◌, ◌/◌, ◌≤◌, length, map};
ghost use Rattle.std.proofs.lemmas.List.Edits.{sets};
ghost use Rattle.grid.specs.Grid.{clean};
ghost use Rattle.limits.specs.Limits.{head_size, settings_size, point_size, link_size};
ghost use Rattle.file_records.specs.Meaning.{settings_of};
ghost use Rattle.writer_spec.specs.File.{record_bytes, settings_as_record};
ghost use Rattle.writer_spec.specs.Save.{saved_file};
ghost use Rattle.writer_spec.specs.Given.{sketch_given};
ghost use Rattle.writer_records.specs.Handed.{handed};
ghost use Rattle.writer_records.specs.Stored.{numbers_bytes, head_bytes, line_stored, link_stored, LinesRoom, LinesPut, LinksRoom, links_stored, FileRoom};

use file_records::Settings;
use limits::{
    HEAD_SIZE, KIND_LINE, KIND_LINK, KIND_SETTINGS, LINK_SIZE, POINT_SIZE, SETTINGS_SIZE,
};

const SETTINGS: u64 = KIND_SETTINGS as u64;

const LINE: u64 = KIND_LINE as u64;

const LINK: u64 = KIND_LINK as u64;

// The bytes of the records of the settings and of a link.
const SETTINGS_RECORD: usize = HEAD_SIZE + SETTINGS_SIZE;

const LINK_RECORD: usize = HEAD_SIZE + LINK_SIZE;

// Where the coordinates stand in a link's record: behind its head and four numbers of two bytes.
const LINK_COORDINATES: usize = HEAD_SIZE + 8;

// A drawing as a caller hands it to the writer: settings; of each line how many points it has; x and y of each point, by their bits; of
// each end of each link the line and the segment that it names; and x and y of that end. The slices may have any lengths.
#[derive(Clone, Copy)]
pub struct Given<'a> {
    pub settings: Settings,
    pub sizes: &'a [u32],
    pub coordinates: &'a [u64],
    pub segments: &'a [u32],
    pub ends: &'a [u64],
}

// Puts coordinates from a place on, 8 bytes each: plain zero for minus zero.
fn write_coordinates(destination: &mut [u8], at: usize, words: &[u64])
    requires { at + 8 * length words.now ≤ length destination.old }
    ensures { destination.new ≡ sets destination.old at (numbers_bytes 8 (map clean words.now)) }
{
    for (k, word) in words.iter().enumerate() {
        number_bytes::write_number(destination, at + 8 * k, 8, grid::clean(*word));
    }
}

// Puts numbers of lines and segments from a place on, 2 bytes each. (One function for both would take a closure for the conversion, and
// its contract would speak of that closure's results: not plainer.)
fn write_segments(destination: &mut [u8], at: usize, segments: &[u32])
    requires { at + 2 * length segments.now ≤ length destination.old }
    ensures { destination.new ≡ sets destination.old at (numbers_bytes 2 segments.now) }
{
    for (k, number) in segments.iter().enumerate() {
        number_bytes::write_number(destination, at + 2 * k, 2, u64::from(*number));
    }
}

// Puts a record's head.
fn write_head(destination: &mut [u8], at: usize, size: u64, kind: u64)
    requires { at + head_size ≤ length destination.old }
    ensures { destination.new ≡ sets destination.old at (head_bytes size kind) }
{
    number_bytes::write_number(destination, at, 4, size);
    number_bytes::write_number(destination, at + 4, 2, kind);
}

// Puts the record of a line of so many points, whose coordinates stand in a slice from an index on.
fn write_line(destination: &mut [u8], at: usize, coordinates: &[u64], from: usize, points: usize)
    requires { (at + (head_size + point_size * points) ≤ length destination.old) × (from + 2 * points ≤ length coordinates.now) }
    ensures { destination.new ≡ sets destination.old at (line_stored coordinates.now from points) }
{
    write_head(destination, at, (POINT_SIZE * points) as u64, LINE);
    write_coordinates(
        destination,
        at + HEAD_SIZE,
        &coordinates[from..from + 2 * points],
    );
}

// Puts the record of a link, whose four numbers and four coordinates stand in two slices from an index on.
fn write_link(destination: &mut [u8], at: usize, segments: &[u32], ends: &[u64], from: usize)
    requires { (at + (head_size + link_size) ≤ length destination.old) × (from + 4 ≤ length segments.now) × (from + 4 ≤ length ends.now) }
    ensures { destination.new ≡ sets destination.old at (link_stored segments.now ends.now from) }
{
    write_head(destination, at, LINK_SIZE as u64, LINK);
    write_segments(destination, at + HEAD_SIZE, &segments[from..from + 4]);
    write_coordinates(destination, at + LINK_COORDINATES, &ends[from..from + 4]);
}

// Puts the records of all lines, from a place on; the answer is the place behind them.
fn write_lines(destination: &mut [u8], at: usize, sizes: &[u32], coordinates: &[u64]) -> usize
    requires { LinesRoom destination.old at sizes.now coordinates.now }
    ensures { LinesPut destination.old at sizes.now coordinates.now destination.new result }
{
    let mut place = at;
    let mut from = 0;
    for &points in sizes {
        let points = points as usize;
        write_line(destination, place, coordinates, from, points);
        place += HEAD_SIZE + POINT_SIZE * points;
        from += 2 * points;
    }
    place
}

// Puts the records of all links, from a place on.
fn write_links(destination: &mut [u8], at: usize, segments: &[u32], ends: &[u64])
    requires { LinksRoom destination.old at segments.now ends.now }
    ensures { destination.new ≡ sets destination.old at (links_stored (length segments.now / 4) segments.now ends.now 0) }
{
    for link in 0..segments.len() / 4 {
        write_link(
            destination,
            at + LINK_RECORD * link,
            segments,
            ends,
            4 * link,
        );
    }
}

// Puts the record of the settings at the front.
fn write_settings(destination: &mut [u8], s: Settings)
    requires { head_size + settings_size ≤ length destination.old }
    ensures { destination.new ≡ sets destination.old 0 (record_bytes (settings_as_record (settings_of s))) }
{
    write_head(destination, 0, SETTINGS_SIZE as u64, SETTINGS);
    number_bytes::write_number(destination, 6, 4, u64::from(s.width));
    number_bytes::write_number(destination, 10, 4, u64::from(s.height));
    number_bytes::write_number(destination, 14, 1, u64::from(s.pairing));
    number_bytes::write_number(destination, 15, 1, u64::from(s.flags));
}

// Puts the file at the front of a destination that has room for it.
pub fn write_file(destination: &mut [u8], drawing: &Given)
    requires { FileRoom destination.old (handed drawing.now) }
    ensures { destination.new ≡ sets destination.old 0 (saved_file (sketch_given (handed drawing.now))) }
{
    write_settings(destination, drawing.settings);
    let end = write_lines(
        destination,
        SETTINGS_RECORD,
        drawing.sizes,
        drawing.coordinates,
    );
    write_links(destination, end, drawing.segments, drawing.ends);
}
