ghost use Rattle.std.specs.Prelude.{◌≡◌, ◌≤◌, ◌+◌, ◌||◌, false, nat_lt};

/// Whether a write of `more` bytes fails, after `held` bytes: its number is listed to fail, or it
/// passes the capacity.
pub fn is_append_refused(listed: bool, capacity: usize, held: usize, more: usize) -> bool
    requires { held ≤ capacity }
    ensures refused { result ≡ (listed || nat_lt capacity (held + more)) }
    ensures fits { result ≡ false → held + more ≤ capacity }
{
    listed || capacity - held < more
}
