// The lines made stand in the first places of the caller's table.
ghost use Rattle.std.specs.Prelude.{◌≡◌, ◌≤◌, min, length};

use pairing::line::Line;

// How many places of the table have lines that were made. A table other than the one that the last call left may be
// shorter; then all of it counts. Callers cut the slice themselves: a method that lends it would be two, one for `&mut`,
// which has to say what is written back, and one for `&`.
pub fn made(count: usize, lines: &[Line]) -> usize
    ensures lines_made { result ≡ min count (length lines.now) }
    ensures within_the_table { result ≤ length lines.now }
{
    count.min(lines.len())
}
