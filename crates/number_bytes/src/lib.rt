// A number put into bytes, the lowest first: for the line's record and for a file's. A crate of its own, so that the writer of files
// needs nothing of the planner.
#![tactic(auto)]

ghost use Rattle.std.specs.Prelude.{◌≡◌, ◌+◌, ◌≤◌, length};
ghost use Rattle.std.proofs.lemmas.List.Edits.{sets};
ghost use Rattle.drawing_spec.specs.Bytes.{bytes};

// Puts a number into `size` bytes from a place on.
pub fn write_number(output: &mut [u8], at: usize, size: usize, n: u64)
    requires { at + size ≤ length output.old }
    ensures { output.new ≡ sets output.old at (bytes size n) }
{
    let mut rest = n;
    for place in at..at + size {
        output[place] = (rest % 256) as u8;
        rest /= 256;
    }
}
