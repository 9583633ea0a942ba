// A source description packet.
#![tactic(auto, using(crate::proofs::Packets::packets))]

ghost use Rattle.std.specs.Prelude.{◌≡◌, take, drop};
ghost use Rattle.rfc3550.specs.Answer.{map_ok};
ghost use Rattle.rfc3550.specs.Read.{SDES};
ghost use Rattle.rfc3550.specs.Walk.{open_sdes, sdes_step};
ghost use Rattle.utils.specs.Error.{parsed_of};
ghost use Rattle.sdes.specs.Sdes.{sdes_view};
ghost use Rattle.sdes.specs.Walk.{chunk_walk, sdes_walk, chunk_stepped};

use sdes_chunk::chunk;
use sdes_chunk::chunk::SdesChunk;
use utils::error::RtcpParseError;
use utils::packet_parser::RtcpPacketParser;
use utils::parser;
use utils::writer::MAX_PACKET_LEN;

// The number of chunks, whether one has a CNAME, the end of the body, where the padding starts, and the length of the padding.
#[derive(Clone, Copy)]
pub struct Sdes {
    pub n_chunks: usize,
    pub has_cname: bool,
    pub body: usize,
    pub padding_len: usize,
}

impl Sdes {
    pub const MIN_PACKET_LEN: usize = 4;

    pub const PACKET_TYPE: u8 = 202;

    // The padding, of the bytes that were parsed. By hand, as `App::padding_bytes`.
    pub fn padding_bytes(self, s: &[u8]) -> &[u8]
        ensures { result.now ≡ take self.padding_len (drop self.body s.now) }
    {
        parser::part(s, self.body, self.padding_len)
    }
}

impl RtcpPacketParser for Sdes {
    ghost kind = { SDES };

    ghost view = { sdes_view };

    #[inline(always)]
    fn read(s: &[u8]) -> Option<Sdes> {
        let body = parser::body_of(s, Sdes::MIN_PACKET_LEN, Sdes::PACKET_TYPE)?;
        let n_chunks = parser::parse_count(s) as usize;
        let chunks = chunk::chunks_end(&s[Sdes::MIN_PACKET_LEN..body], n_chunks);
        if 0 < chunks.left {
            return None;
        }
        if chunks.at < body - Sdes::MIN_PACKET_LEN {
            return None;
        }
        let padding_len = s.len() - body;
        Some(Sdes {
            n_chunks,
            has_cname: chunks.cname.is_some(),
            body,
            padding_len,
        })
    }

    #[cold]
    fn why_unchecked(s: &[u8]) -> RtcpParseError {
        let Some(body) = parser::body_of(s, Sdes::MIN_PACKET_LEN, Sdes::PACKET_TYPE) else {
            return parser::why_header_unchecked(s, Sdes::MIN_PACKET_LEN, Sdes::PACKET_TYPE);
        };
        let n_chunks = parser::parse_count(s) as usize;
        let rest = &s[Sdes::MIN_PACKET_LEN..body];
        let chunks = chunk::chunks_end(rest, n_chunks);
        let at = chunks.at;
        if 0 < chunks.left {
            return SdesChunk::why_unchecked(&rest[at..]);
        }
        RtcpParseError::TooLarge {
            expected: Sdes::MIN_PACKET_LEN + at,
            actual: body,
        }
    }
}

// A walk over the chunks of a packet: the place of the next one, and the end of the body that it opened on.
#[derive(Clone, Copy)]
pub struct ChunkWalk {
    pub at: usize,
    pub end: usize,
}

impl ChunkWalk {
    // Opens only on an accepted packet.
    #[tactic(auto, using(crate::proofs::Walks::walks))]
    pub fn open(s: &[u8]) -> Result<ChunkWalk, RtcpParseError>
        ensures { parsed_of result ≡ map_ok chunk_walk (open_sdes s.now) }
    {
        let sdes = Sdes::parse(s)?;
        Ok(ChunkWalk {
            at: Sdes::MIN_PACKET_LEN,
            end: sdes.body,
        })
    }

    // The chunk at the walk's place, and the walk after it.
    #[tactic(auto, using(crate::proofs::Walks::walks))]
    pub fn step(self, s: &[u8]) -> Result<(SdesChunk, ChunkWalk), RtcpParseError>
        ensures { parsed_of result ≡ map_ok chunk_stepped (sdes_step s.now (sdes_walk self)) }
    {
        let at = self.at;
        let end = self.end;
        let limit = s.len().min(MAX_PACKET_LEN);
        if limit <= at {
            return Err(RtcpParseError::NothingLeft);
        }
        if end <= at {
            return Err(RtcpParseError::NothingLeft);
        }
        let rest = &s[at..limit];
        let Some(chunk) = SdesChunk::read(rest) else {
            return Err(SdesChunk::why_unchecked(rest));
        };
        let next = at + chunk.length;
        Ok((chunk, ChunkWalk { at: next, end }))
    }
}
