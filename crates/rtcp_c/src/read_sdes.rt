// SDES packets, chunks and items, and the walks over chunks and items.
ghost use Rattle.std.specs.Prelude.{◌≡◌, length};
ghost use Rattle.rfc3550.specs.Answer.{map_ok};
ghost use Rattle.rfc3550.specs.Read.{SDES, read_as, read_item, read_prefix, read_chunk};
ghost use Rattle.rfc3550.specs.Walk.{open_sdes, sdes_step, open_items, item_step};
ghost use Rattle.sdes_chunk.specs.Item.{item_first};
ghost use Rattle.sdes_chunk.specs.Chunk.{chunk_first};
ghost use Rattle.sdes_chunk.specs.Walk.{item_walk, item_stepped};
ghost use Rattle.sdes.specs.Sdes.{sdes_view};
ghost use Rattle.sdes.specs.Walk.{chunk_walk, chunk_stepped};
ghost use Rattle.rtcp.specs.Sdes.{sdes_result, item_result, prefix_result, chunk_result, chunk_walk_result, chunk_step_result, item_walk_result, item_step_result};

use rtcp::read_sdes;
use rtcp::read_sdes::{
    RtcpChunk, RtcpChunkStep, RtcpChunkWalk, RtcpItem, RtcpItemStep, RtcpItemWalk, RtcpPart,
    RtcpSdes,
};

#[unsafe(no_mangle)]
pub extern "C" fn rtcp_sdes_parse(s: &[u8]) -> RtcpSdes
    ensures { result ≡ sdes_result (map_ok sdes_view (read_as SDES s.now)) }
{
    read_sdes::rtcp_sdes_parse(s)
}

// A lone item.
#[unsafe(no_mangle)]
pub extern "C" fn rtcp_item_parse(s: &[u8]) -> RtcpItem
    ensures { result ≡ item_result (map_ok item_first (read_item s.now)) }
{
    read_sdes::rtcp_item_parse(s)
}

// The prefix of a lone item.
#[unsafe(no_mangle)]
pub extern "C" fn rtcp_item_priv_prefix(s: &[u8]) -> RtcpPart
    ensures { result ≡ prefix_result (map_ok length (read_prefix s.now)) }
{
    read_sdes::rtcp_item_priv_prefix(s)
}

// The chunk at the start of the bytes.
#[unsafe(no_mangle)]
pub extern "C" fn rtcp_chunk_parse(s: &[u8]) -> RtcpChunk
    ensures { result ≡ chunk_result (map_ok chunk_first (read_chunk s.now)) }
{
    read_sdes::rtcp_chunk_parse(s)
}

#[unsafe(no_mangle)]
pub extern "C" fn rtcp_chunk_walk_open(s: &[u8]) -> RtcpChunkWalk
    ensures { result ≡ chunk_walk_result (map_ok chunk_walk (open_sdes s.now)) }
{
    read_sdes::rtcp_chunk_walk_open(s)
}

#[unsafe(no_mangle)]
pub extern "C" fn rtcp_chunk_walk_step(s: &[u8], at: u64, end: u64) -> RtcpChunkStep
    ensures { result ≡ chunk_step_result at end (map_ok chunk_stepped (sdes_step s.now (record { at = at; end = end }))) }
{
    read_sdes::rtcp_chunk_walk_step(s, at, end)
}

#[unsafe(no_mangle)]
pub extern "C" fn rtcp_item_walk_open(s: &[u8]) -> RtcpItemWalk
    ensures { result ≡ item_walk_result (map_ok item_walk (open_items s.now)) }
{
    read_sdes::rtcp_item_walk_open(s)
}

// Offsets are counted from the chunk's start, as the walk's place is.
#[unsafe(no_mangle)]
pub extern "C" fn rtcp_item_walk_step(s: &[u8], at: u64) -> RtcpItemStep
    ensures { result ≡ item_step_result at (map_ok item_stepped (item_step s.now at)) }
{
    read_sdes::rtcp_item_walk_step(s, at)
}
