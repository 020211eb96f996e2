// The work tables that a caller lends: cleared once, at the end of the whole call.
#![tactic(auto)]

ghost use Rattle.std.specs.Prelude.{◌≡◌, length, replicate};
ghost use Rattle.repair_spec.specs.Distance.{zero_length};

// Every entry is 0.0, whatever was there.
pub fn clear_floats(table: &mut [f64])
    ensures { table.new ≡ replicate (length table.old) zero_length }
{
    table.fill(0.0);
}

// Every byte is 0, whatever was there.
pub fn clear_bytes(table: &mut [u8])
    ensures { table.new ≡ replicate (length table.old) 0 }
{
    table.fill(0);
}
