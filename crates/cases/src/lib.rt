// For the programs that play tables of cases: reading the table, and bytes that are written in a line of text.
// Only safety is proved here; a wrong decoding would show as a wrong answer to a case.
#![tactic(auto)]

ghost use Rattle.std.specs.Prelude.{◌≡◌, ◌-◌, ◌<◌, ◌≤◌, length, IfOk, IfSome};

use std::alloc::{AllocError, Global};
use std::io::Read;
use text::cut::step;
use text::number::number;

// All of standard input.
pub fn read_table(rt: &HostRuntime) -> anyhow::Result<Vec<u8>> {
    let mut bytes = Vec::new(rt.alloc());
    rt.stdin().read_to_end(&mut bytes)?;
    Ok(bytes)
}

// What stands after the separator with which `rest` begins. `book` and `pairing_cases` have one call of the library's for
// it, which promises no length: shared, it would be no plainer there.
fn after(rest: &[u8]) -> &[u8]
    ensures one_fewer { length result.now ≡ length rest.now - 1 }
{
    match rest {
        [_, more @ ..] => more,
        [] => rest,
    }
}

// The first line of a table, without its line end, and the lines after it.
pub fn next_line(table: &[u8]) -> (&[u8], &[u8])
    ensures fewer_bytes_left { 0 < length table.now → length result.1.now < length table.now }
{
    let (line, more) = step(table, b'\n');
    (line, after(more))
}

// The value of a hexadecimal digit; 0 for any other byte.
// By hand, since the library's `to_digit` takes upper-case letters too, which are no digits of a table.
// No Option: a wrong digit shows as a wrong answer to a case.
fn digit(c: u8) -> u8
    ensures below_sixteen { result ≤ 15 }
{
    match c {
        b'0'..=b'9' => c - b'0',
        b'a'..=b'f' => c - b'a' + 10,
        _ => 0,
    }
}

// The byte that is written at the start of `s`, and what stands after it.
fn first_byte(s: &[u8]) -> Option<(u8, &[u8])>
    ensures fewer_bytes_left { IfSome result (λ r. length r.1.now < length s.now) }
{
    match s {
        [] => None,
        [b'\\', b'n', more @ ..] => Some((b'\n', more)),
        [b'\\', b'x', high, low, more @ ..] => Some((digit(*high) * 16 + digit(*low), more)),
        [b'\\', c, more @ ..] | [c, more @ ..] => Some((*c, more)),
    }
}

// Adds the bytes that are written in `s`, without repeats.
fn push_plain(out: &mut Vec<u8>, s: &[u8]) -> Result<(), AllocError> {
    let mut rest = s;
    while let Some((b, more)) = first_byte(rest) {
        out.push(b)?;
        rest = more;
    }
    Ok(())
}

// Adds the bytes of a repeat, `N;TEXT;`, and gives what stands after it.
fn push_repeat<'a>(out: &mut Vec<u8>, s: &'a [u8]) -> Result<&'a [u8], AllocError>
    ensures no_longer { IfOk result (λ t. length t.now ≤ length s.now) }
{
    let (count, more) = step(s, b';');
    let (text, tail) = step(after(more), b';');
    for _ in 0..number(count).unwrap_or(0) {
        push_plain(out, text)?;
    }
    Ok(after(tail))
}

// The bytes that are written in a line: `\n`, `\\`, `\xhh`, and `\rN;TEXT;` for TEXT N times; any other byte is itself.
pub fn unescape(heap: Global, line: &[u8]) -> Result<Vec<u8>, AllocError> {
    let mut out = Vec::new(heap);
    let mut rest = line;
    while let Some((b, more)) = first_byte(rest) {
        if let [b'\\', b'r', repeat @ ..] = rest {
            rest = push_repeat(&mut out, repeat)?;
        } else {
            out.push(b)?;
            rest = more;
        }
    }
    Ok(out)
}
