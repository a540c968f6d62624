//! Reading a document from its text.

ghost use Rattle.std.specs.Prelude.{◌≡◌, ℕ, IfOk, Err, IfSome, IfNone, []};
ghost use Rattle.std.specs.Prelude.{◌∷◌, ◌++◌};
ghost use Rattle.bohm_types.specs.Sound.{IsDocument};
ghost use Rattle.bohm_text.specs.Cut.{whole_lines};
ghost use Rattle.bohm_text.specs.Parse.{ReadsText, ReadsBehind};
ghost use Rattle.bohm_text.specs.Print.{print_doc};
ghost use Rattle.bohm_text.specs.Faults.{IsFirstBadLine, IsShort};

use crate::fault::{ReadFault, TextFault, WindowFault};
use crate::reader::{Place, Reader, read_head};
use crate::separators::newline_at;
use bohm_log::{Doc, DrawnSeed, FixedSeed, HashSeed, Log};
use bohm_types::Edition;
use std::alloc::Global;

/// The first whole line, and the rest of the text after its newline.
#[inline(always)]
pub fn split_line(text: &[u8]) -> Option<(&[u8], &[u8])>
    ensures none { IfNone result (whole_lines text.now ≡ []) }
    ensures lines { IfSome result
        (λ cut. whole_lines text.now ≡ cut.0.now ∷ whole_lines cut.1.now) }
    ensures bytes { IfSome result (λ cut. text.now ≡ cut.0.now ++ 10 ∷ cut.1.now) }
{
    match newline_at(text) {
        None => None,
        Some(at) => Some((&text[..at], &text[at + 1..])),
    }
}

/// Reads lines that follow an edition's head line into an empty log, and counts them.
#[tactic(auto, using(crate::proofs::WholeTxns::piece_short))]
pub(crate) fn read_lines(
    alloc: Global,
    seed: HashSeed,
    edition: Edition,
    log: Log<HashSeed>,
    text: &[u8],
) -> Result<(Reader, u64), WindowFault>
    requires { log ≡ [] }
    ensures { ReadsBehind edition text.now result }
{
    let mut reader = Reader::new(alloc, seed, edition, log);
    let mut rest = text;
    let mut count: u64 = 0;
    'lines: while let Some((line, others)) = split_line(rest) {
        match reader.read_piece(rest, line, others) {
            Ok((behind, lines)) => {
                count += lines;
                rest = behind;
            }
            Err(ReadFault::Bad) => return Err(WindowFault::Line(count + 1)),
            Err(ReadFault::NoMemory) => return Err(WindowFault::NoMemory),
        }
    }
    match reader.place {
        Place::Between if rest.is_empty() => Ok((reader, count)),
        _ => Err(WindowFault::Open(count)),
    }
}

/// Reads a document's text, and counts its lines.
pub(crate) fn read_text(
    alloc: Global,
    seed: HashSeed,
    text: &[u8],
) -> Result<(Reader, u64), WindowFault>
    ensures { ReadsText text.now result }
{
    let Some((head, others)) = split_line(text) else {
        return Err(WindowFault::Open(0));
    };
    let Some(edition) = read_head(head) else {
        return Err(WindowFault::Line(1));
    };
    let log = Log::with_room(alloc, seed, others.len());
    match read_lines(alloc, seed, edition, log, others) {
        Ok((reader, lines)) => Ok((reader, lines + 1)),
        Err(WindowFault::Line(n)) => Err(WindowFault::Line(n + 1)),
        Err(WindowFault::Open(n)) => Err(WindowFault::Open(n + 1)),
        Err(WindowFault::NoMemory) => Err(WindowFault::NoMemory),
    }
}

fn read_doc(alloc: Global, seed: HashSeed, text: &[u8]) -> Result<Doc, TextFault>
    ensures found { IfOk result (λ doc. print_doc doc ≡ text.now) }
    ensures sound { IfOk result IsDocument }
    ensures line { (n : ℕ) → result ≡ Err (TextFault.Line n)
        → IsFirstBadLine (whole_lines text.now) n }
    ensures short { result ≡ Err TextFault.Short → IsShort text.now }
{
    let (reader, _) = read_text(alloc, seed, text)?;
    let Reader {
        edition,
        mut store,
        log,
        ..
    } = reader;
    store.shrink_to_fit();
    match Doc::new(edition, store.into_vec(), log) {
        Some(doc) => Ok(doc),
        None => unreachable!(),
    }
}

/// Reads the document whose printed text this is. Its time and memory grow with the length of the
/// text, and a refused line takes memory at most proportional to its length. Names are hashed with
/// the fixed seed: if untrusted parties choose the names, use `parse_with_seed`.
///
/// # Errors
///
/// `Line` and `Short` report where the text stops being a prefix of a document's text. `NoMemory`
/// reports that an allocation failed or, for a text of more than 4 GiB, that a column has run out
/// of 32-bit indices.
pub fn parse(alloc: Global, text: &[u8]) -> Result<Doc, TextFault>
    ensures found { IfOk result (λ doc. print_doc doc ≡ text.now) }
    ensures sound { IfOk result IsDocument }
    ensures line { (n : ℕ) → result ≡ Err (TextFault.Line n)
        → IsFirstBadLine (whole_lines text.now) n }
    ensures short { result ≡ Err TextFault.Short → IsShort text.now }
{
    read_doc(alloc, HashSeed::from(FixedSeed), text)
}

/// Reads a document like `parse`, with names hashed with a drawn seed.
pub fn parse_with_seed(alloc: Global, seed: DrawnSeed, text: &[u8]) -> Result<Doc, TextFault>
    ensures found { IfOk result (λ doc. print_doc doc ≡ text.now) }
    ensures sound { IfOk result IsDocument }
    ensures line { (n : ℕ) → result ≡ Err (TextFault.Line n)
        → IsFirstBadLine (whole_lines text.now) n }
    ensures short { result ≡ Err TextFault.Short → IsShort text.now }
{
    read_doc(alloc, HashSeed::from(seed), text)
}
