// A lone SDES chunk, written (sdes.rs, `SdesChunkBuilder`).
#![tactic(auto, using(crate::proofs::Laying::lone))]

ghost use Rattle.std.specs.Prelude.{◌≡◌, length};
ghost use Rattle.rfc3550.specs.Bytes.{store};
ghost use Rattle.rfc3550.specs.Write.{chunk_size};
ghost use Rattle.chunk_write.specs.Lists.{laid_chunk, ChunkFits};

use crate::chunks;
use crate::chunks::ItemLists;
use crate::lone_writer::LoneWriter;
use utils::error::RtcpWriteError;
use utils::writer::MAX_PACKET_LEN;

// What a packet of the greatest length has behind its header.
const MAX_CHUNK_LEN: usize = MAX_PACKET_LEN - 4;

// What a chunk is written of: its SSRC and the lists of its items.
#[derive(Clone, Copy)]
pub struct SdesChunkBuilder<'a> {
    pub ssrc: u32,
    pub items: ItemLists<'a>,
}

impl<'a> LoneWriter for SdesChunkBuilder<'a> {
    ghost size = { λ c. chunk_size c.ssrc c.items.types.now c.items.prefixes.now c.items.values.now c.items.bytes.now };

    ghost bytes = { λ c. laid_chunk c.ssrc c.items.types.now c.items.prefixes.now c.items.values.now c.items.bytes.now };

    #[inline(always)]
    fn size_of(self) -> Option<usize> {
        if self.items.types.len() != self.items.prefixes.len() {
            return None;
        }
        if self.items.types.len() != self.items.values.len() {
            return None;
        }
        let counts = [self.items.types.len() as u64];
        chunks::chunks_end_of_lengths_unchecked(
            0,
            MAX_CHUNK_LEN,
            &counts,
            self.items,
            self.items.bytes.len(),
        )
    }

    #[inline(always)]
    fn why_size_unchecked(self) -> RtcpWriteError {
        if !chunks::items_agree(self.items) {
            return RtcpWriteError::ListsDisagree;
        }
        chunks::why_items_unchecked(self.items)
    }

    #[inline(always)]
    fn write_into_unchecked(self, buf: &mut [u8])
        requires { ChunkFits self.items.types.now self.items.prefixes.now self.items.values.now self.items.bytes.now (length buf.old) }
        ensures { buf.new ≡ store 0 (laid_chunk self.entry.ssrc self.entry.items.types.now self.entry.items.prefixes.now self.entry.items.values.now self.entry.items.bytes.now) buf.old }
    {
        let ssrcs = [self.ssrc];
        let counts = [self.items.types.len() as u64];
        chunks::write_chunks_unchecked(buf, 0, &ssrcs, &counts, self.items);
    }
}
