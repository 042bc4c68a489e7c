//! Binary searches among chunks in order.
ghost use Rattle.std.specs.Prelude.{◌≡◌, ◌≤◌, nat_le, nat_lt, length};
ghost use Rattle.std.specs.List.{prefix_len};
ghost use Rattle.split_merge.specs.Finding.{first_from, last_before};
ghost use Rattle.plain_space.specs.Internal.Chunks.{areas_in_chunks, chunk_low, chunk_high, AreChunksInOrder, AscendApart};

use crate::chunk::Chunk;
use mm_types::Record;

/// How many chunks begin below the page.
pub(crate) fn beginning_below(chunks: &[Chunk], page: u64) -> usize
    requires { AreChunksInOrder chunks.now }
    ensures value { result ≡ prefix_len (λ chunk. nat_lt (chunk_low chunk) page) chunks.now }
    ensures within { result ≤ length chunks.now }
{
    chunks.partition_point(|chunk| chunk.low() < page)
}

/// How many chunks begin at or below the page.
pub(crate) fn beginning_by(chunks: &[Chunk], page: u64) -> usize
    requires { AreChunksInOrder chunks.now }
    ensures value { result ≡ prefix_len (λ chunk. nat_le (chunk_low chunk) page) chunks.now }
    ensures within { result ≤ length chunks.now }
{
    chunks.partition_point(|chunk| chunk.low() <= page)
}

/// How many chunks end at or below the page.
pub(crate) fn ending_by(chunks: &[Chunk], page: u64) -> usize
    requires { AscendApart chunks.now }
    ensures value { result ≡ prefix_len (λ chunk. nat_le (chunk_high chunk) page) chunks.now }
    ensures within { result ≤ length chunks.now }
{
    chunks.partition_point(|chunk| chunk.high() <= page)
}

/// The first area that ends above the page: it is in the first chunk that does.
pub(crate) fn first_from(chunks: &[Chunk], page: u64) -> Option<Record>
    requires { AscendApart chunks.now }
    ensures { result ≡ first_from (areas_in_chunks chunks.now) page }
{
    let place = ending_by(chunks, page);
    if place < chunks.len() {
        chunks[place].from(page)
    } else {
        None
    }
}

/// The last area that begins below the page: it is in the last chunk that does.
pub(crate) fn last_before(chunks: &[Chunk], page: u64) -> Option<Record>
    requires { AscendApart chunks.now }
    ensures { result ≡ last_before (areas_in_chunks chunks.now) page }
{
    let count = beginning_below(chunks, page);
    if count > 0 {
        chunks[count - 1].before(page)
    } else {
        None
    }
}
