// Cutting a file into its lines.
ghost use Rattle.std.specs.Prelude.{◌≡◌, length};
ghost use Rattle.std.specs.Iterator.{at_most};
ghost use Rattle.book.specs.Lines.{line_steps};

use crate::lines::{Line, Lines};
use text::cut::step;

impl<'a> Lines<'a> {
    // The lines of a whole file.
    pub fn of(file: &'a [u8]) -> Lines<'a>
        ensures whole { result.rest.now ≡ file.now }
        ensures from_1 { result.number ≡ 1 }
    {
        Lines {
            rest: file,
            number: 1,
        }
    }
}

impl<'a> Iterator for Lines<'a> {
    type Item = Line<'a>;

    ghost next_gives = { line_steps };

    ghost remaining = { λ s. at_most (length s.rest.now) };

    fn next(&mut self) -> Option<Line<'a>> {
        if self.rest.is_empty() {
            return None;
        }
        let (bytes, more) = step(self.rest, b'\n');
        let line = Line {
            bytes,
            number: self.number,
            ended: !more.is_empty(),
        };
        // past the line end, if there is one: one line, no plainer as a function
        self.rest = more.get(1..).unwrap_or(more);
        self.number += 1;
        Some(line)
    }
}
