// The writer of drawing files for programs in other languages.
ghost use Rattle.std.specs.Prelude.{◌≡◌, take};
ghost use Rattle.writer_spec.specs.Given.{given, sketch_given, save_given};
ghost use Rattle.writer_spec.specs.OneFile.{OneFile};
ghost use Rattle.planner_c.specs.Saved.{saved_as, settings_given};

use super::Saved;
use file_records::Settings;
use writer_records::Given;

// Saves a drawing, whatever is handed in: `save` of crates/writer, with its answer and its destination, and that the bytes in front are the one
// file without minus zero that reads back as the drawing. A coordinate is the 64 bits of an f64. Slices of any lengths may be given; 4
// says that they do not fit one another. The one equation of `save` stands here as two clauses, since a struct is answered and the
// destination is lent.
#[unsafe(no_mangle)]
pub extern "C" fn save_drawing(
    width: u32,
    height: u32,
    pairing: u8,
    flags: u8,
    sizes: &[u32],
    coordinates: &[u64],
    segments: &[u32],
    ends: &[u64],
    destination: &mut [u8],
) -> Saved
    ensures answer { result ≡ saved_as (save_given (given (settings_given width height pairing flags) sizes.now coordinates.now segments.now ends.now) destination.old).answer }
    ensures destination { destination.new ≡ (save_given (given (settings_given width height pairing flags) sizes.now coordinates.now segments.now ends.now) destination.old).destination }
    ensures one_file { result.refusal ≡ 0 → OneFile (sketch_given (given (settings_given width height pairing flags) sizes.now coordinates.now segments.now ends.now)) (take result.bytes destination.new) }
{
    let settings = Settings {
        width,
        height,
        pairing,
        flags,
    };
    let drawing = Given {
        settings,
        sizes,
        coordinates,
        segments,
        ends,
    };
    match writer::save(destination, &drawing) {
        Ok(bytes) => Saved { refusal: 0, bytes },
        Err(refusal) => Saved {
            refusal: u32::from(refusal.number()),
            bytes: 0,
        },
    }
}
