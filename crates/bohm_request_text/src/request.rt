//! Where requests begin and end.

ghost use Rattle.std.specs.Prelude.{◌≡◌, ◌<◌, ◌∷◌, ◌++◌, [], length, IfSome, MatchOption};
ghost use Rattle.bohm_text.specs.Cut.{split, whole_lines};
ghost use Rattle.bohm_entries.specs.Batches.{leads};
ghost use Rattle.bohm_request_text.specs.Requests.{begins_lines, goes_on, requests_of};

use bohm_text::{Words, split_line};

/// Whether a request of several lines begins with this one: a definition or a transaction.
fn begins_lines(line: &[u8]) -> bool
    ensures { result ≡ begins_lines line.now }
{
    match Words::of(line).next() {
        Some(first) => first == b"define".as_slice() || first == b"txn".as_slice(),
        None => false,
    }
}

/// Whether a request goes on behind a line. `is_open` says whether it began before the line.
fn goes_on(is_open: bool, line: &[u8]) -> bool
    ensures { result ≡ goes_on is_open line.now }
{
    if is_open {
        line != b"end".as_slice()
    } else {
        begins_lines(line)
    }
}

/// The first request, up to the newline of its last line, and the text behind it. `None` where more
/// text has to come. The time grows with the length of the request.
pub fn split_request(text: &[u8]) -> Option<(&[u8], &[u8])>
    ensures requests { MatchOption result (requests_of text.now ≡ [])
        (λ cut. requests_of text.now ≡ whole_lines cut.0.now ∷ requests_of cut.1.now) }
    ensures bytes { IfSome result (λ cut. text.now ≡ cut.0.now ++ cut.1.now) }
    ensures some { IfSome result (λ cut. 0 < length cut.0.now) }
{
    let mut rest = text;
    let mut is_open = false;
    'lines: while let Some((line, others)) = split_line(rest) {
        if !goes_on(is_open, line) {
            let end = text.len() - others.len();
            return Some((&text[..end], others));
        }
        is_open = true;
        rest = others;
    }
    None
}
