// SDES packets, written (sdes.rs, `SdesBuilder`).
#![tactic(auto, using(crate::proofs::Packets::sdess))]

pub mod cname;

ghost use Rattle.std.specs.Prelude.{◌≡◌, ◌-◌, length};
ghost use Rattle.rfc3550.specs.Bytes.{store};
ghost use Rattle.rfc3550.specs.Packet.{layout};
ghost use Rattle.rfc3550.specs.Write.{lists_agree, packet_given, padding_bytes, calculate_size};
ghost use Rattle.utils.specs.Error.{value_in};
ghost use Rattle.utils.specs.Writer.{header};
ghost use Rattle.sdes_write.specs.Packets.{lists_in, sdes_given, with_padding, EndsFit, SdesFits};

use chunk_write::chunks;
use chunk_write::chunks::ItemLists;
use sdes::sdes::Sdes;
use utils::error::RtcpWriteError;
use utils::packet_writer::RtcpPacketWriter;
use utils::writer;

// What an SDES is written of: one SSRC and one item count for each chunk, and the lists of all items.
#[derive(Clone, Copy)]
pub struct SdesBuilder<'a> {
    pub ssrcs: &'a [u32],
    pub counts: &'a [u64],
    pub items: ItemLists<'a>,
    pub padding: u64,
}

// Lays the header of a packet of so many chunks and bytes, and its padding, around chunks that are laid.
fn write_ends_unchecked(buf: &mut [u8], count: usize, padding: u64, size: usize)
    requires { EndsFit count padding size (length buf.old) }
    ensures { buf.new ≡ store (size - padding) (padding_bytes padding) (store 0 (header padding count 202 size) buf.old) }
{
    writer::write_header_unchecked(buf, padding, count as u8, Sdes::PACKET_TYPE, size);
    writer::write_padding_unchecked(buf, size - padding as usize, padding);
}

impl<'a> SdesBuilder<'a> {
    // The lists of a packet agree.
    #[inline(always)]
    fn lists_agree(self) -> bool
        ensures { result ≡ lists_agree (lists_in self.entry) }
    {
        if self.ssrcs.len() != self.counts.len() {
            return false;
        }
        if !chunks::sum_is(self.counts, self.items.types.len() as u64) {
            return false;
        }
        chunks::items_agree(self.items)
    }

    // The index after the chunks of an SDES, its header before them; None where it is refused.
    #[inline(always)]
    fn end_of(self) -> Option<usize>
        ensures { with_padding self.entry.padding result ≡ value_in (calculate_size (sdes_given self.entry)) }
    {
        if self.items.types.len() != self.items.prefixes.len() {
            return None;
        }
        if self.items.types.len() != self.items.values.len() {
            return None;
        }
        if self.ssrcs.len() != self.counts.len() {
            return None;
        }
        if writer::MAX_COUNT < self.ssrcs.len() {
            return None;
        }
        if !writer::check_padding(self.padding) {
            return None;
        }
        chunks::chunks_end_of_lengths_unchecked(
            Sdes::MIN_PACKET_LEN,
            writer::MAX_PACKET_LEN - self.padding as usize,
            self.counts,
            self.items,
            self.items.bytes.len(),
        )
    }
}

impl<'a> RtcpPacketWriter for SdesBuilder<'a> {
    ghost given = { sdes_given };

    fn packet_type(self) -> u8 {
        Sdes::PACKET_TYPE
    }

    fn padding(self) -> u64 {
        self.padding
    }

    fn has_cname(self) -> bool {
        cname::has_cname_unchecked(self.items.types, self.items.values)
    }

    #[inline(always)]
    fn size_of(self) -> Option<usize> {
        let end = self.end_of()?;
        Some(end + self.padding as usize)
    }

    #[inline(always)]
    fn why_size_unchecked(self) -> RtcpWriteError {
        if !self.lists_agree() {
            return RtcpWriteError::ListsDisagree;
        }
        let count = self.ssrcs.len();
        if writer::MAX_COUNT < count {
            return RtcpWriteError::TooManySdesChunks {
                count,
                max: writer::MAX_COUNT as u8,
            };
        }
        if !writer::check_padding(self.padding) {
            return RtcpWriteError::InvalidPadding {
                padding: self.padding,
            };
        }
        chunks::why_items_unchecked(self.items)
    }

    #[inline(always)]
    fn write_into_unchecked(self, buf: &mut [u8], size: usize)
        requires { SdesFits self.ssrcs.now self.counts.now self.items.types.now self.items.prefixes.now self.items.values.now self.items.bytes.now self.padding size (length buf.old) }
        ensures { buf.new ≡ store 0 (layout (packet_given (sdes_given self.entry))) buf.old }
    {
        let start = Sdes::MIN_PACKET_LEN;
        chunks::write_chunks_unchecked(buf, start, self.ssrcs, self.counts, self.items);
        write_ends_unchecked(buf, self.ssrcs.len(), self.padding, size);
    }
}
