// An SDES chunk.
#![tactic(auto, using(crate::proofs::Chunks::chunks))]

ghost use Rattle.std.specs.Prelude.{◌≡◌, None, ◌+◌, ◌^◌, ◌<◌, ◌≤◌, length, get_or};
ghost use Rattle.rfc3550.specs.Answer.{refused, map_ok};
ghost use Rattle.rfc3550.specs.Packet.{fill};
ghost use Rattle.rfc3550.specs.Read.{read_chunk};
ghost use Rattle.rfc3550.specs.Walk.{open_items, item_step};
ghost use Rattle.utils.specs.Error.{parse_refusal, value_in, parsed_of};
ghost use Rattle.sdes_chunk.specs.Chunk.{chunk_first, chunk_end, chunks_from, zero_at, first_cname, filled_at, ItemsEnd, ZerosEnd};
ghost use Rattle.sdes_chunk.specs.Walk.{item_walk, item_stepped};

use super::item::SdesItem;
use utils::error::RtcpParseError;
use utils::parser;

// The SSRC, the number of bytes that the chunk takes, and the place of its first CNAME, counted from its start: 0 where there is none, and no Option,
// since C is given this number and has to lose nothing by it.
#[derive(Clone, Copy)]
pub struct SdesChunk {
    pub ssrc: u32,
    pub length: usize,
    pub cname: usize,
}

// The next word boundary above a place.
pub fn word_boundary_unchecked(at: usize) -> usize
    requires { at + fill at < 2 ^ 64 }
    ensures { result ≡ at + fill at }
{
    at / 4 * 4 + 4
}

// The place of the first CNAME: the one that is known, or that of the item here where it is one.
fn first_cname(known: Option<usize>, at: usize, type_: u8, length: usize) -> Option<usize>
    ensures { result ≡ first_cname known at type_ length }
{
    if !super::item::is_cname(type_, length) {
        return known;
    }
    known.or(Some(at))
}

// The place where no further item follows, that of the first CNAME, and whether a zero stands there: if not, it is the end of the bytes, or an item
// that is refused. A flag, and no Option: the place says something in both cases.
#[derive(Clone, Copy)]
struct Items {
    at: usize,
    cname: Option<usize>,
    closed: bool,
}

fn zero_at(chunk: &[u8], at: usize) -> bool
    ensures { result ≡ zero_at chunk.now at }
{
    if chunk.len() <= at {
        return false;
    }
    chunk[at] == 0
}

// The items of the chunk at the start of the bytes, where the place of a CNAME before it may be known.
fn items_end(chunk: &[u8], known: Option<usize>) -> Items
    requires { 4 ≤ length chunk.now }
    ensures { ItemsEnd chunk.now known result.at result.cname result.closed }
{
    let mut at = SdesChunk::MIN_LEN;
    let mut cname = known;
    // A while: an item says where the next one starts, and this place is what it finds out.
    while at <= chunk.len() - 2 {
        let Some(end) = super::item::item_end(chunk, at) else {
            let closed = chunk[at] == 0;
            return Items { at, cname, closed };
        };
        cname = first_cname(cname, at, chunk[at], end - at - 2);
        at = end;
    }
    let closed = zero_at(chunk, at);
    Items { at, cname, closed }
}

// The place of the first byte behind a zero that is none, or the boundary above it, or the end of the bytes.
fn zeros_end(chunk: &[u8], from: usize, end: usize) -> usize
    requires { (from < length chunk.now) × (get_or chunk.now from 0 ≡ 0) × (end ≡ from + fill from) }
    ensures { ZerosEnd chunk.now from end result }
{
    for at in from + 1..end {
        if chunk.len() <= at {
            return at;
        }
        if chunk[at] != 0 {
            return at;
        }
    }
    end
}

// Whether zeros stand up to the boundary. By hand, since there are four at most: as `all` over them it takes up to 14 instructions more a chunk, and
// so the lookup of 31 chunks misses its bar.
fn filled(chunk: &[u8], at: usize, end: usize) -> bool
    requires { (get_or chunk.now at 0 ≡ 0) × (end ≡ at + fill at) × (end ≤ length chunk.now) }
    ensures { result ≡ filled_at chunk.now at }
{
    let second = at + 1;
    if second == end {
        return true;
    }
    if chunk[second] != 0 {
        return false;
    }
    let third = second + 1;
    if third == end {
        return true;
    }
    if chunk[third] != 0 {
        return false;
    }
    let fourth = third + 1;
    if fourth == end {
        return true;
    }
    chunk[fourth] == 0
}

// How many bytes a chunk takes, and the place of the first CNAME up to its end, counted from the start of the chunk that has it.
#[derive(Clone, Copy)]
struct ChunkEnd {
    length: usize,
    cname: Option<usize>,
}

// None where the chunk is refused.
#[tactic(auto, using(crate::proofs::Chunks::ends_of_chunks))]
fn chunk_end(chunk: &[u8], known: Option<usize>) -> Option<ChunkEnd>
    ensures { result ≡ value_in (map_ok (chunk_end known) (read_chunk chunk.now)) }
{
    if chunk.len() < SdesChunk::LEAST {
        return None;
    }
    let items = items_end(chunk, known);
    let at = items.at;
    if !items.closed {
        return None;
    }
    let length = word_boundary_unchecked(at);
    if chunk.len() < length {
        return None;
    }
    if !filled(chunk, at, length) {
        return None;
    }
    Some(ChunkEnd {
        length,
        cname: items.cname,
    })
}

// The place up to which chunks were read, how many are left, and the place of the first CNAME, counted from the start of its chunk.
#[derive(Clone, Copy)]
pub struct Chunks {
    pub at: usize,
    pub left: usize,
    pub cname: Option<usize>,
}

// At most n chunks, up to one that is refused.
#[inline(always)]
pub fn chunks_end(rest: &[u8], n: usize) -> Chunks
    ensures { result ≡ chunks_from n 0 None rest.now }
{
    let mut at = 0;
    let mut cname = None;
    for after in (0..n).rev() {
        let Some(chunk) = chunk_end(&rest[at..], cname) else {
            return Chunks {
                at,
                left: after + 1,
                cname,
            };
        };
        cname = chunk.cname;
        at += chunk.length;
    }
    Chunks { at, left: 0, cname }
}

impl SdesChunk {
    pub const MIN_LEN: usize = 4;

    // An SSRC, and a word of zeros.
    const LEAST: usize = 8;

    // None where the chunk at the start of the rest of a body is refused.
    #[inline(always)]
    pub fn read(rest: &[u8]) -> Option<SdesChunk>
        ensures { result ≡ value_in (map_ok chunk_first (read_chunk rest.now)) }
    {
        let chunks = chunks_end(rest, 1);
        if 0 < chunks.left {
            return None;
        }
        let ssrc = parser::u32_from_be_bytes(rest, 0);
        Some(SdesChunk {
            ssrc,
            length: chunks.at,
            cname: chunks.cname.unwrap_or(0),
        })
    }

    // Why a chunk that is refused is.
    #[cold]
    #[tactic(auto, using(crate::proofs::Chunks::whys))]
    pub fn why_unchecked(rest: &[u8]) -> RtcpParseError
        requires { value_in (read_chunk rest.now) ≡ None }
        ensures { refused (parse_refusal result) ≡ read_chunk rest.now }
    {
        if rest.len() < SdesChunk::MIN_LEN {
            return RtcpParseError::Truncated {
                expected: SdesChunk::MIN_LEN,
                actual: rest.len(),
            };
        }
        let items = items_end(rest, None);
        let at = items.at;
        let end = word_boundary_unchecked(at);
        if items.closed {
            return RtcpParseError::Truncated {
                expected: end,
                actual: zeros_end(rest, at, end),
            };
        }
        if at == rest.len() {
            return RtcpParseError::Truncated {
                expected: end,
                actual: at,
            };
        }
        super::item::why_item_unchecked(&rest[at..])
    }

    // The chunk at the start of the rest of a body.
    #[tactic(auto, using(utils::proofs::Values::values))]
    #[inline(always)]
    pub fn parse(rest: &[u8]) -> Result<SdesChunk, RtcpParseError>
        ensures { parsed_of result ≡ map_ok chunk_first (read_chunk rest.now) }
    {
        match SdesChunk::read(rest) {
            Some(chunk) => Ok(chunk),
            None => Err(SdesChunk::why_unchecked(rest)),
        }
    }
}

// A walk over the items of a chunk: the place of the next one, counted from the chunk's start.
#[derive(Clone, Copy)]
pub struct ItemWalk {
    pub at: usize,
}

impl ItemWalk {
    // Opens only on an accepted chunk.
    #[tactic(auto, using(crate::proofs::Walks::walks))]
    pub fn open(s: &[u8]) -> Result<ItemWalk, RtcpParseError>
        ensures { parsed_of result ≡ map_ok item_walk (open_items s.now) }
    {
        let _ = SdesChunk::parse(s)?;
        Ok(ItemWalk {
            at: SdesChunk::MIN_LEN,
        })
    }

    // The item at the walk's place, and the walk after it.
    #[tactic(auto, using(crate::proofs::Walks::walks))]
    pub fn step(self, s: &[u8]) -> Result<(SdesItem, ItemWalk), RtcpParseError>
        ensures { parsed_of result ≡ map_ok item_stepped (item_step s.now self.at) }
    {
        let at = self.at;
        let Some(end) = super::item::item_end(s, at) else {
            return Err(super::item::why_end_unchecked(s, at));
        };
        let item = super::item::item_of_unchecked(&s[at..]);
        Ok((item, ItemWalk { at: end }))
    }
}
