ghost use Rattle.std.specs.Prelude.{◌≡◌, ◌+◌, ◌*◌, ◌≤◌, ◌++◌, length, drop};
ghost use Rattle.std.specs.Str.{bytes_eq};
ghost use Rattle.sheet.specs.Layout.{encoded};

use crate::layout::{ENTRY, Entry, HEADER};

// Writes the entries from the start of `tail` on; the rest of it stays.
pub fn write_entries<T: Entry>(tail: &mut [u8], entries: &[T])
    requires { 8 * length entries.now ≤ length tail.old }
    ensures { tail.new ≡ encoded T.Entry.encoding entries.now ++ drop (8 * length entries.now) tail.old }
{
    // By place: over `as_chunks_mut`, and over a rest cut by `split_first_chunk_mut`, the proof didn't close, since nothing is known of
    // the whole once the parts are given back.
    for (i, entry) in entries.iter().enumerate() {
        let bytes = entry.to_bytes();
        tail[ENTRY * i..ENTRY * i + ENTRY].copy_from_slice(&bytes);
    }
}

// Writes the header over the first bytes; the rest stays.
pub fn write_header(memory: &mut [u8], bytes: &[u8; 16])
    requires { 16 ≤ length memory.old }
    ensures { memory.new ≡ bytes.now ++ drop 16 memory.old }
{
    memory[..HEADER].copy_from_slice(bytes);
}

// Whether these bytes are those of the entries, and no more.
pub fn entries_match<T: Entry>(part: &[u8], entries: &[T]) -> bool
    ensures { result ≡ bytes_eq part.now (encoded T.Entry.encoding entries.now) }
{
    let (chunks, rest) = part.as_chunks::<ENTRY>();
    if !rest.is_empty() || chunks.len() != entries.len() {
        return false;
    }
    chunks
        .iter()
        .zip(entries)
        .all(|(bytes, entry)| *bytes == entry.to_bytes())
}
