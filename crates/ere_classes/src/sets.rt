// Sets of places, three words each.
ghost use Rattle.std.specs.Prelude.{◌≡◌, ℕ, ◌+◌, ◌*◌, ◌≤◌, length};
ghost use Rattle.ere_table.specs.Table.{row};

// Returns set i of a slice of sets.
pub fn set_at(sets: &[u64], i: usize) -> [u64; 3]
    requires { 3 * i + 3 ≤ length sets.now }
    ensures { result ≡ row sets.now i }
{
    [sets[3 * i], sets[3 * i + 1], sets[3 * i + 2]]
}
