// SDES items, chunks and packets, written.
ghost use Rattle.std.specs.Prelude.{◌≡◌, ℕ};
ghost use Rattle.rfc3550.specs.Write.{give_sdes, calculate_size, write, chunk_size, write_chunk, item_size, write_item};
ghost use Rattle.chunk_write.specs.Sizes.{lent};
ghost use Rattle.sdes_write.specs.Packets.{lists};
ghost use Rattle.rtcp.specs.WriteResult.{written_result, written_with_buffer};

use super::write_result::RtcpWritten;
use chunk_write::chunk::SdesChunkBuilder;
use chunk_write::chunks::ItemLists;
use chunk_write::item::SdesItemBuilder;
use chunk_write::lone_writer::LoneWriter;
use sdes_write::SdesBuilder;
use utils::packet_writer::RtcpPacketWriter;

// A lone item.
#[tactic(auto, unfolding(rfc3550::specs::Write::write_item))]
pub fn rtcp_item_write(buf: &mut [u8], type_: u8, prefix: &[u8], value: &[u8]) -> RtcpWritten
    ensures { (result, buf.new) ≡ written_with_buffer (write_item (lent type_ prefix.now value.now) buf.old) }
{
    let item = SdesItemBuilder {
        type_,
        prefix,
        value,
    };
    RtcpWritten::from(item.write_into(buf))
}

pub fn rtcp_item_size(type_: u8, prefix: &[u8], value: &[u8]) -> RtcpWritten
    ensures { result ≡ written_result (item_size (lent type_ prefix.now value.now)) }
{
    let item = SdesItemBuilder {
        type_,
        prefix,
        value,
    };
    RtcpWritten::from(item.calculate_size())
}

// A lone chunk.
#[tactic(auto, unfolding(rfc3550::specs::Write::write_chunk))]
pub fn rtcp_chunk_write(
    buf: &mut [u8],
    ssrc: u32,
    types: &[u8],
    prefixes: &[u64],
    values: &[u64],
    bytes: &[u8],
) -> RtcpWritten
    ensures { (result, buf.new) ≡ written_with_buffer (write_chunk ssrc types.now prefixes.now values.now bytes.now buf.old) }
{
    let items = ItemLists {
        types,
        prefixes,
        values,
        bytes,
    };
    let chunk = SdesChunkBuilder { ssrc, items };
    RtcpWritten::from(chunk.write_into(buf))
}

// The size is the same for every SSRC.
#[tactic(auto, using(crate::proofs::WriteResults::sizes))]
pub fn rtcp_chunk_size(types: &[u8], prefixes: &[u64], values: &[u64], bytes: &[u8]) -> RtcpWritten
    ensures { (ssrc : ℕ) → result ≡ written_result (chunk_size ssrc types.now prefixes.now values.now bytes.now) }
{
    let items = ItemLists {
        types,
        prefixes,
        values,
        bytes,
    };
    let chunk = SdesChunkBuilder { ssrc: 0, items };
    RtcpWritten::from(chunk.calculate_size())
}

pub fn rtcp_sdes_write(
    buf: &mut [u8],
    ssrcs: &[u32],
    counts: &[u64],
    types: &[u8],
    prefixes: &[u64],
    values: &[u64],
    bytes: &[u8],
    padding: u64,
) -> RtcpWritten
    ensures { (result, buf.new) ≡ written_with_buffer (write (give_sdes (lists ssrcs.now counts.now types.now prefixes.now values.now bytes.now) padding) buf.old) }
{
    let items = ItemLists {
        types,
        prefixes,
        values,
        bytes,
    };
    let sdes = SdesBuilder {
        ssrcs,
        counts,
        items,
        padding,
    };
    RtcpWritten::from(sdes.write_into(buf))
}

pub fn rtcp_sdes_size(
    ssrcs: &[u32],
    counts: &[u64],
    types: &[u8],
    prefixes: &[u64],
    values: &[u64],
    bytes: &[u8],
    padding: u64,
) -> RtcpWritten
    ensures { result ≡ written_result (calculate_size (give_sdes (lists ssrcs.now counts.now types.now prefixes.now values.now bytes.now) padding)) }
{
    let items = ItemLists {
        types,
        prefixes,
        values,
        bytes,
    };
    let sdes = SdesBuilder {
        ssrcs,
        counts,
        items,
        padding,
    };
    RtcpWritten::from(sdes.calculate_size())
}
