// A walk over the chunks of a source description that holds the packet's bytes: thin functions over the walk of crate sdes, which decides everything.
#![tactic(auto)]

ghost use Rattle.std.specs.Prelude.{◌≡◌};
ghost use Rattle.rfc3550.specs.Answer.{map_ok};
ghost use Rattle.rfc3550.specs.Walk.{open_sdes, walk_after};
ghost use Rattle.utils.specs.Error.{parsed_of};
ghost use Rattle.sdes_walk.specs.Walk.{walk_on, ended_on, step_at, moved_on};

use sdes::sdes::ChunkWalk;
use sdes_chunk::chunk::SdesChunk;
use utils::error::RtcpParseError;

#[derive(Clone, Copy)]
pub struct SdesWalk<'a> {
    pub data: &'a [u8],
    pub position: ChunkWalk,
}

// The answer to a step, and the walk after it. No Result of both: a refusal hands the walk back too, as it was.
#[derive(Clone, Copy)]
pub struct SteppedWalk<'a> {
    pub answer: Result<(SdesChunk, ChunkWalk), RtcpParseError>,
    pub walk: SdesWalk<'a>,
}

fn after(answer: Result<(SdesChunk, ChunkWalk), RtcpParseError>, position: ChunkWalk) -> ChunkWalk
    ensures { result ≡ walk_after position (parsed_of answer) }
{
    match answer {
        Ok((_, next)) => next,
        Err(_) => position,
    }
}

impl<'a> SdesWalk<'a> {
    // Opens only on an accepted packet.
    #[tactic(auto, using(crate::proofs::Walks::held))]
    pub fn open(data: &'a [u8]) -> Result<SdesWalk<'a>, RtcpParseError>
        ensures { parsed_of result ≡ map_ok (walk_on «data».entry) (open_sdes «data».now) }
    {
        let position = ChunkWalk::open(data)?;
        Ok(SdesWalk { data, position })
    }

    // The walk of a packet that is refused: each of its steps gives 25.
    pub fn ended(data: &'a [u8]) -> SdesWalk<'a>
        ensures { result ≡ ended_on «data».entry }
    {
        SdesWalk {
            data,
            position: ChunkWalk { at: 0, end: 0 },
        }
    }

    // The chunk at the walk's place, and the walk after it.
    pub fn step(self) -> SteppedWalk<'a>
        ensures { (parsed_of result.answer ≡ step_at self.entry.«data».now self.entry.position) × (result.walk ≡ moved_on self.entry) }
    {
        let data = self.data;
        let from = self.position;
        let answer = from.step(data);
        let position = after(answer, from);
        SteppedWalk {
            answer,
            walk: SdesWalk { data, position },
        }
    }
}
