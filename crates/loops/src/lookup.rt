// Entries of tables by statement, of the statements before one.
ghost use Rattle.std.specs.Prelude.{◌≡◌, ◌<◌, slice_get, take};

// What a table has for i, if i is below s. The bound is a clause: s is a place in the section, which no table holds.
pub fn earlier<T: Copy>(table: &[T; 64], s: usize, i: usize) -> Option<T>
    requires { s < 64 }
    ensures { result ≡ slice_get (take s table.now) i }
{
    table[..s].get(i).copied()
}
