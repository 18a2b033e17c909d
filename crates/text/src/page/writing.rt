// Writing a page, and copying a text into a buffer.
ghost use Rattle.std.specs.Prelude.{◌≡◌, [], ◌++◌, length, take};
ghost use Rattle.std.specs.Fmt.{signed_decimal};
ghost use Rattle.text.specs.Pages.{most_bytes, written, fitted, placed};
ghost use Rattle.text.specs.Rows.{line as line_text};

use crate::page::{Page, TooSmall};
use arrayvec::ArrayVec;

impl Page {
    pub fn new() -> Page
        ensures empty { written result ≡ [] }
    {
        Page {
            bytes: ArrayVec::new(),
        }
    }

    // These bytes; what passes the end is left out.
    fn push_all(&mut self, bytes: &[u8])
        ensures appended { written self.new ≡ take most_bytes (written self.old ++ bytes.now) }
    {
        let room = self.bytes.remaining_capacity();
        let fitting = &bytes[..room.min(bytes.len())];
        // As many bytes as there is room for are never refused.
        let _fits = self.bytes.try_extend_from_slice(fitting);
    }

    // A number with its sign, if it is below 0.
    fn push_number(&mut self, n: i64)
        ensures appended { written self.new ≡ take most_bytes (written self.old ++ signed_decimal n) }
    {
        self.push_all(itoa::Buffer::new().format(n).as_bytes());
    }

    // A line of this kind and these numbers.
    fn push_line(&mut self, kind: &[u8], values: &[i64])
        ensures line_is_appended { written self.new ≡ take most_bytes (written self.old ++ line_text kind.now values.now) }
    {
        self.push_all(kind);
        for v in values {
            self.push_all(b",");
            self.push_number(*v);
        }
        self.push_all(b"\n");
    }

    // Adds a line of this kind and these numbers; what passes the end of the page is left out.
    // A thin call, so that a wrong one is refused here, by this contract.
    pub fn push_row(&mut self, kind: &[u8], values: &[i64])
        ensures line_is_appended { written self.new ≡ take most_bytes (written self.old ++ line_text kind.now values.now) }
    {
        self.push_line(kind, values);
    }

    // What is written so far.
    pub fn text(&self) -> &[u8]
        ensures value { result.now ≡ written self.now }
    {
        self.bytes.as_slice()
    }
}

// Copies `text` to the start of `out`, and answers its length. Later bytes stay, and where `out` is too small all do.
pub fn put(text: &[u8], out: &mut [u8]) -> Result<usize, TooSmall>
    ensures length_or_too_small { result ≡ fitted (length text.now) (length out.old) }
    ensures later_bytes_stay { out.new ≡ placed text.now out.old }
{
    let n = text.len();
    if out.len() < n {
        return Err(TooSmall);
    }
    out[..n].copy_from_slice(text);
    Ok(n)
}
