// The numbers for a program in another language, which can then hold them against its own.
#![tactic(auto)]

ghost use Rattle.std.specs.Prelude.{◌≡◌, ◌<◌};
ghost use Rattle.std.specs.Float.{binary64};
ghost use Rattle.grid.specs.Grid.{grid_exponent, read_place, write_place, place_at};
ghost use Rattle.length.specs.Root.{length_of};
ghost use Rattle.length.specs.Nearest.{NearestRoot};

// The f64 nearest to the root of n squared grid steps, in pixels.
//
// `value`: the float that the definition computes.
// `nearest`: of every u64 above 0 that is the f64 nearest to the exact root of n divided by 1,024, by squared whole numbers. The length of 0 is
// 0, by `value`.
#[unsafe(no_mangle)]
pub extern "C" fn numbers_c_length(n: u64) -> f64
    ensures value { result ≡ length_of n }
    ensures nearest { 0 < n → NearestRoot binary64 grid_exponent n result }
{
    length::length(n)
}

// The place of a coordinate's bits, or the largest u32 for bits that are off the grid.
#[unsafe(no_mangle)]
pub extern "C" fn numbers_c_read_place(bits: u64) -> u32
    ensures { result ≡ place_at (read_place bits) }
{
    grid::place_number(grid::read_place(bits))
}

// The bits of the coordinate at a place.
#[unsafe(no_mangle)]
pub extern "C" fn numbers_c_write_place(place: u32) -> u64
    ensures { result ≡ write_place place }
{
    grid::write_place(place)
}
