// Coordinates: from the 64 bits that a file holds to a place on the grid, and back.
#![tactic(auto)]

ghost use Rattle.std.specs.Prelude.{◌≡◌};
ghost use Rattle.grid.specs.Grid.{read_place, place_at, on_grid, clean, coordinate, write_place};

// A point by its places: so many grid steps from -4,096, along and across.
#[derive(Clone, Copy, PartialEq, Eq)]
pub struct Point {
    pub x: u32,
    pub y: u32,
}

// The place of 0: 4,096 in steps of 1/1,024.
pub const ORIGIN: u32 = 4_194_304;

// What stands for a coordinate that is off the grid: no place of it.
pub const NOWHERE: u32 = 4_294_967_295;

// An f64's bits are its sign, the field of its exponent, which has eleven digits, and the 52 digits
// below its leading one. This is the weight of the sign.
const SIGN: u64 = 0x8000_0000_0000_0000;

// The weight of the field, and of the leading one.
const LEADING: u64 = 0x10_0000_0000_0000;

// The field of one step, 2^-10.
const ONE_STEP: u64 = 1013;

// The field of the largest coordinate, 2^12.
const LARGEST: u64 = 1035;

// The field at which all 52 digits below the leading one count whole steps.
const ALL_WHOLE: u64 = 1065;

// Check 7, for every pattern: the place, so many grid steps from -4,096, or none. Below the field of one step nothing but 0 is a whole
// number of steps, and 0 is at the origin, whatever its sign. Above that of the largest coordinate all
// is too large. In between, the digits with the leading one are shifted down to whole steps, and what
// is shifted out must be 0. A zero is not asked for first of all, since most coordinates are not 0.
pub fn read_place(bits: u64) -> Option<u32>
    ensures { result ≡ read_place bits }
{
    let field = bits / LEADING % 2048;
    if field < ONE_STEP {
        if bits % SIGN == 0 {
            return Some(ORIGIN);
        }
        return None;
    }
    if field > LARGEST {
        return None;
    }
    let digits = LEADING + bits % LEADING;
    let below = ALL_WHOLE - field;
    let steps = digits >> below;
    if steps << below != digits {
        return None;
    }
    if steps > ORIGIN as u64 {
        return None;
    }
    let count = steps as u32;
    let positive = bits < SIGN;
    if positive {
        Some(ORIGIN + count)
    } else {
        Some(ORIGIN - count)
    }
}

// Check 7 alone.
pub fn on_grid(bits: u64) -> bool
    ensures { result ≡ on_grid (read_place bits) }
{
    read_place(bits).is_some()
}

// A place as one number.
pub fn place_number(place: Option<u32>) -> u32
    ensures { result ≡ place_at place }
{
    place.unwrap_or(NOWHERE)
}

// A pattern with plain zero for minus zero, which is how a coordinate is saved.
pub fn clean(bits: u64) -> u64
    ensures { result ≡ clean bits }
{
    let minus_zero = bits == SIGN;
    if minus_zero { 0 } else { bits }
}

// The coordinate at a place. Every u32 is far below 2^53, so nothing is rounded.
pub fn coordinate(place: u32) -> f64
    ensures { result ≡ coordinate place }
{
    let left = place < ORIGIN;
    if left {
        (ORIGIN - place) as f64 / -1024.0
    } else {
        (place - ORIGIN) as f64 / 1024.0
    }
}

// The bits of the coordinate at a place.
pub fn write_place(place: u32) -> u64
    ensures { result ≡ write_place place }
{
    f64::to_bits(coordinate(place))
}
