// The reader for programs in other languages: the number of the refusal, and 0 for an accepted file.
#![tactic(auto)]

ghost use Rattle.std.specs.Prelude.{◌≡◌};
ghost use Rattle.drawing_spec.specs.Refusal.{verdict, refusal_of};
ghost use Rattle.drawing_spec.specs.Read.{read_conditions};

use file_drawing::Drawing;

#[unsafe(no_mangle)]
pub extern "C" fn reader_refusal(file: &[u8]) -> u32
    ensures { result ≡ refusal_of (verdict (read_conditions file.now)) }
{
    let mut drawing = Drawing::new();
    match file::read_into(file, &mut drawing) {
        Ok(()) => 0,
        Err(refusal) => u32::from(refusal.number()),
    }
}
