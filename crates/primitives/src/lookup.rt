// Entries of tables, for every number.
ghost use Rattle.std.specs.Prelude.{◌≡◌, get_or};

// What a table has for i; another value past its end.
pub fn entry_or<T: Copy>(table: &[T], i: usize, otherwise: T) -> T
    ensures { result ≡ get_or table.now i otherwise }
{
    table.get(i).copied().unwrap_or(otherwise)
}
