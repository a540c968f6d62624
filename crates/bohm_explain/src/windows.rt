//! The windows in which a run reads a log.

use bohm_log::{DrawnSeed, HashSeed, Log};
use bohm_reading::{ReadingFault, next_window, read_first};
use bohm_text::{WindowFault, parse_window};
use bohm_types::{MOST_TXNS, NoMemory};
use std::alloc::Global;

/// The numbers of transactions of the windows in which a run reads a log's text, if each read
/// returns as many bytes as it asks for; `size` is the minimum number of bytes of a window, as in
/// `bohm_run::window_size`. It reads and parses them as a run does. The time grows with the length
/// of the text.
pub fn window_counts(
    alloc: Global,
    seed: DrawnSeed,
    text: &[u8],
    size: usize,
) -> Result<Vec<u32>, NoMemory> {
    let mut counts = Vec::new(alloc);
    let mut unread = text;
    let (first, mut source) = match read_first(alloc, seed, &mut unread, size) {
        Ok(read) => read,
        Err(ReadingFault::NoMemory) => return Err(NoMemory),
        // Only a text that isn't a log's has another fault.
        Err(_) => return Ok(counts),
    };
    counts.push(first.chunk.log.len().min(MOST_TXNS) as u32)?;
    let mut log = Log::new(alloc, HashSeed::from(seed));
    'windows: for _ in 0..text.len() {
        if source.ended {
            break;
        }
        let window = match next_window(alloc, &mut unread, &mut source, size) {
            Ok(window) => window,
            Err(ReadingFault::NoMemory) => return Err(NoMemory),
            Err(_) => break,
        };
        let chunk = match parse_window(alloc, seed, first.edition, log, window.text.as_slice()) {
            Ok(chunk) => chunk,
            Err(WindowFault::NoMemory) => return Err(NoMemory),
            Err(_) => return Ok(counts),
        };
        counts.push(chunk.log.len().min(MOST_TXNS) as u32)?;
        log = chunk.log;
    }
    Ok(counts)
}
