// SDES packets, chunks and items, and the walks over chunks and items.
ghost use Rattle.std.specs.Prelude.{◌≡◌, ◌+◌, ◌^◌, ◌<◌, ◌≤◌, length};
ghost use Rattle.rfc3550.specs.Answer.{map_ok};
ghost use Rattle.rfc3550.specs.Read.{SDES, read_as, read_item, read_prefix, read_chunk};
ghost use Rattle.rfc3550.specs.Walk.{open_sdes, sdes_step, open_items, item_step};
ghost use Rattle.utils.specs.Error.{parsed_of};
ghost use Rattle.sdes_chunk.specs.Item.{item_first};
ghost use Rattle.sdes_chunk.specs.Chunk.{chunk_first};
ghost use Rattle.sdes_chunk.specs.Walk.{item_walk, item_stepped};
ghost use Rattle.sdes.specs.Sdes.{sdes_view};
ghost use Rattle.sdes.specs.Walk.{chunk_walk, chunk_stepped};
ghost use Rattle.rtcp.specs.Sdes.{sdes_result, prefix_start, item_parts, item_result, prefix_result, chunk_result, chunk_walk_result, chunk_step_result, item_walk_result, item_step_result};

use super::refusal::refused;
use sdes::sdes::{ChunkWalk, Sdes};
use sdes_chunk::chunk::{ItemWalk, SdesChunk};
use sdes_chunk::item::SdesItem;
use utils::error::RtcpParseError;
use utils::packet_parser::RtcpPacketParser;

#[repr(C)]
#[derive(Clone, Copy, Default)]
pub struct RtcpSdes {
    pub number: u64,
    pub first: u64,
    pub second: u64,
    pub n_chunks: u64,
    pub has_cname: u64,
    pub body: u64,
    pub padding_len: u64,
}

#[repr(C)]
#[derive(Clone, Copy, Default)]
pub struct RtcpItem {
    pub number: u64,
    pub first: u64,
    pub second: u64,
    pub type_: u64,
    pub length: u64,
    pub prefix: u64,
    pub prefix_len: u64,
    pub value: u64,
    pub value_len: u64,
}

#[repr(C)]
#[derive(Clone, Copy, Default)]
pub struct RtcpPart {
    pub number: u64,
    pub first: u64,
    pub second: u64,
    pub offset: u64,
    pub len: u64,
}

#[repr(C)]
#[derive(Clone, Copy, Default)]
pub struct RtcpChunk {
    pub number: u64,
    pub first: u64,
    pub second: u64,
    pub ssrc: u64,
    pub length: u64,
    pub cname: u64,
}

#[repr(C)]
#[derive(Clone, Copy, Default)]
pub struct RtcpChunkWalk {
    pub number: u64,
    pub first: u64,
    pub second: u64,
    pub at: u64,
    pub end: u64,
}

#[repr(C)]
#[derive(Clone, Copy, Default)]
pub struct RtcpChunkStep {
    pub number: u64,
    pub first: u64,
    pub second: u64,
    pub ssrc: u64,
    pub length: u64,
    pub cname: u64,
    pub at: u64,
    pub end: u64,
}

#[repr(C)]
#[derive(Clone, Copy, Default)]
pub struct RtcpItemWalk {
    pub number: u64,
    pub first: u64,
    pub second: u64,
    pub at: u64,
}

#[repr(C)]
#[derive(Clone, Copy, Default)]
pub struct RtcpItemStep {
    pub number: u64,
    pub first: u64,
    pub second: u64,
    pub type_: u64,
    pub length: u64,
    pub prefix: u64,
    pub prefix_len: u64,
    pub value: u64,
    pub value_len: u64,
    pub at: u64,
}

// Where an item's prefix starts, counted from the item's start: in PRIV its length stands before it.
fn prefix_start(item: SdesItem) -> usize
    ensures { result ≡ prefix_start item }
{
    let type_ = item.type_;
    if type_ == SdesItem::PRIV { 3 } else { 2 }
}

// The parts of an item that stands at a place: the value follows the prefix and ends with the item.
#[derive(Clone, Copy)]
struct ItemParts {
    prefix: u64,
    value: u64,
    value_len: u64,
}

impl ItemParts {
    fn of(item: SdesItem, at: usize) -> ItemParts
        requires { (prefix_start item + item.prefix_len ≤ 2 + item.length) × (at + (2 + item.length) < 2 ^ 64) }
        ensures { result ≡ item_parts at item }
    {
        let start = prefix_start(item);
        let value = start + item.prefix_len;
        ItemParts {
            prefix: (at + start) as u64,
            value: (at + value) as u64,
            value_len: (2 + item.length - value) as u64,
        }
    }
}

impl From<Result<Sdes, RtcpParseError>> for RtcpSdes {
    ghost from_gives = { λ a r. r ≡ sdes_result (parsed_of a) };

    fn from(answer: Result<Sdes, RtcpParseError>) -> RtcpSdes {
        match answer {
            Ok(sdes) => RtcpSdes {
                n_chunks: sdes.n_chunks as u64,
                has_cname: u64::from(sdes.has_cname),
                body: sdes.body as u64,
                padding_len: sdes.padding_len as u64,
                ..RtcpSdes::default()
            },
            Err(e) => refused!(RtcpSdes, e),
        }
    }
}

impl From<Result<SdesChunk, RtcpParseError>> for RtcpChunk {
    ghost from_gives = { λ a r. r ≡ chunk_result (parsed_of a) };

    fn from(answer: Result<SdesChunk, RtcpParseError>) -> RtcpChunk {
        match answer {
            Ok(chunk) => RtcpChunk {
                ssrc: chunk.ssrc as u64,
                length: chunk.length as u64,
                cname: chunk.cname as u64,
                ..RtcpChunk::default()
            },
            Err(e) => refused!(RtcpChunk, e),
        }
    }
}

impl From<Result<ChunkWalk, RtcpParseError>> for RtcpChunkWalk {
    ghost from_gives = { λ a r. r ≡ chunk_walk_result (parsed_of a) };

    fn from(answer: Result<ChunkWalk, RtcpParseError>) -> RtcpChunkWalk {
        match answer {
            Ok(chunks) => RtcpChunkWalk {
                at: chunks.at as u64,
                end: chunks.end as u64,
                ..RtcpChunkWalk::default()
            },
            Err(e) => refused!(RtcpChunkWalk, e),
        }
    }
}

impl From<Result<ItemWalk, RtcpParseError>> for RtcpItemWalk {
    ghost from_gives = { λ a r. r ≡ item_walk_result (parsed_of a) };

    fn from(answer: Result<ItemWalk, RtcpParseError>) -> RtcpItemWalk {
        match answer {
            Ok(items) => RtcpItemWalk {
                at: items.at as u64,
                ..RtcpItemWalk::default()
            },
            Err(e) => refused!(RtcpItemWalk, e),
        }
    }
}

pub fn rtcp_sdes_parse(s: &[u8]) -> RtcpSdes
    ensures { result ≡ sdes_result (map_ok sdes_view (read_as SDES s.now)) }
{
    RtcpSdes::from(Sdes::parse(s))
}

// A lone item. No From, which can require nothing: the parts need an accepted item.
#[tactic(auto, using(crate::proofs::Descriptions::descriptions))]
pub fn rtcp_item_parse(s: &[u8]) -> RtcpItem
    ensures { result ≡ item_result (map_ok item_first (read_item s.now)) }
{
    match SdesItem::parse(s) {
        Ok(item) => {
            let parts = ItemParts::of(item, 0);
            RtcpItem {
                type_: item.type_ as u64,
                length: item.length as u64,
                prefix: parts.prefix,
                prefix_len: item.prefix_len as u64,
                value: parts.value,
                value_len: parts.value_len,
                ..RtcpItem::default()
            }
        }
        Err(e) => refused!(RtcpItem, e),
    }
}

// The prefix of a lone item. No From, since another part need not stand behind three bytes.
#[tactic(auto, unfolding(rfc3550::specs::Answer::map_ok))]
pub fn rtcp_item_priv_prefix(s: &[u8]) -> RtcpPart
    ensures { result ≡ prefix_result (map_ok length (read_prefix s.now)) }
{
    match SdesItem::priv_prefix(s) {
        Ok(prefix) => RtcpPart {
            offset: 3,
            len: prefix.len() as u64,
            ..RtcpPart::default()
        },
        Err(e) => refused!(RtcpPart, e),
    }
}

// The chunk at the start of the bytes.
pub fn rtcp_chunk_parse(s: &[u8]) -> RtcpChunk
    ensures { result ≡ chunk_result (map_ok chunk_first (read_chunk s.now)) }
{
    RtcpChunk::from(SdesChunk::parse(s))
}

pub fn rtcp_chunk_walk_open(s: &[u8]) -> RtcpChunkWalk
    ensures { result ≡ chunk_walk_result (map_ok chunk_walk (open_sdes s.now)) }
{
    RtcpChunkWalk::from(ChunkWalk::open(s))
}

// No From: on a refusal the walk that went in is handed on, so it takes three values.
pub fn rtcp_chunk_walk_step(s: &[u8], at: u64, end: u64) -> RtcpChunkStep
    ensures { result ≡ chunk_step_result at end (map_ok chunk_stepped (sdes_step s.now (record { at = at; end = end }))) }
{
    let walk = ChunkWalk {
        at: at as usize,
        end: end as usize,
    };
    match walk.step(s) {
        Ok((chunk, next)) => RtcpChunkStep {
            ssrc: chunk.ssrc as u64,
            length: chunk.length as u64,
            cname: chunk.cname as u64,
            at: next.at as u64,
            end: next.end as u64,
            ..RtcpChunkStep::default()
        },
        Err(e) => RtcpChunkStep {
            at,
            end,
            ..refused!(RtcpChunkStep, e)
        },
    }
}

pub fn rtcp_item_walk_open(s: &[u8]) -> RtcpItemWalk
    ensures { result ≡ item_walk_result (map_ok item_walk (open_items s.now)) }
{
    RtcpItemWalk::from(ItemWalk::open(s))
}

// Offsets are counted from the chunk's start, as the walk's place is. No From, which can require nothing: the parts need an accepted item.
pub fn rtcp_item_walk_step(s: &[u8], at: u64) -> RtcpItemStep
    ensures { result ≡ item_step_result at (map_ok item_stepped (item_step s.now at)) }
{
    let walk = ItemWalk { at: at as usize };
    match walk.step(s) {
        Ok((item, next)) => {
            let parts = ItemParts::of(item, at as usize);
            RtcpItemStep {
                type_: item.type_ as u64,
                length: item.length as u64,
                prefix: parts.prefix,
                prefix_len: item.prefix_len as u64,
                value: parts.value,
                value_len: parts.value_len,
                at: next.at as u64,
                ..RtcpItemStep::default()
            }
        }
        Err(e) => RtcpItemStep {
            at,
            ..refused!(RtcpItemStep, e)
        },
    }
}
