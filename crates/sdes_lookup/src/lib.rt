// Which chunks of a source description name the SSRCs of a list (document 02, order 2).
#![tactic(auto)]

ghost use Rattle.std.specs.Prelude.{◌≡◌, List, ℕ, ◌<◌, ◌≤◌, ltb, length, drop};
ghost use Rattle.rfc3550.specs.Answer.{ok, pick};
ghost use Rattle.rfc3550.specs.Packet.{Chunk};
ghost use Rattle.rfc3550.specs.Read.{read_chunks};
ghost use Rattle.rfc3550.specs.Lookup.{Visited, lookup_with};
ghost use Rattle.utils.specs.Error.{parsed_of};
ghost use Rattle.sdes_lookup.specs.Lookup.{marked, unanswered_in, Answered};

use sdes::sdes::Sdes;
use sdes_chunk::chunk::SdesChunk;
use utils::error::RtcpParseError;
use utils::packet_parser::RtcpPacketParser;

// The answer for an SSRC that no chunk names.
pub const NO_CHUNK: u8 = 255;

// That there is an answer for each SSRC stands at each function, since C lends the two lists side by side.
// Chunk k, with this SSRC and a CNAME, is the answer where there is none yet. Says how many have none after it.
#[tactic(auto, using(crate::proofs::Marks::marks))]
#[inline(never)]
fn mark(answers: &mut [u8], ssrcs: &[u32], ssrc: u32, k: u8, unanswered: usize) -> usize
    requires { (length ssrcs.now ≤ length answers.old) × (k < 255) × (unanswered ≡ unanswered_in (length ssrcs.now) answers.old) }
    ensures { (answers.new ≡ marked k ssrc ssrcs.now answers.old) × (result ≡ unanswered_in (length ssrcs.now) answers.new) }
{
    let mut left = unanswered;
    for (i, named) in ssrcs.iter().enumerate() {
        if *named == ssrc && answers[i] == NO_CHUNK {
            answers[i] = k;
            left -= 1;
        }
    }
    left
}

// Visits chunk k. Says how many have no answer after it.
#[tactic(auto, using(crate::proofs::Marks::marks))]
fn visit(answers: &mut [u8], ssrcs: &[u32], chunk: SdesChunk, k: u8, unanswered: usize) -> usize
    requires { (length ssrcs.now ≤ length answers.old) × (k < 255) × (unanswered ≡ unanswered_in (length ssrcs.now) answers.old) }
    ensures { (answers.new ≡ pick (ltb 0 chunk.cname) (marked k chunk.ssrc ssrcs.now answers.old) answers.old) × (result ≡ unanswered_in (length ssrcs.now) answers.new) }
{
    if chunk.cname == 0 {
        return unanswered;
    }
    mark(answers, ssrcs, chunk.ssrc, k, unanswered)
}

// One pass over the chunks of an accepted body, up to the one by which every SSRC is answered.
#[tactic(auto, using(crate::proofs::Passes::passes))]
fn answer_all(body: &[u8], n_chunks: usize, ssrcs: &[u32], answers: &mut [u8]) -> usize
    requires { (n_chunks < 32) × (length ssrcs.now ≤ length answers.old) × (4 ≤ length body.now) × ((cs : List Chunk) × (read_chunks n_chunks (length body.now) (drop 4 body.now) ≡ ok cs)) }
    ensures { Answered n_chunks body.now ssrcs.now answers.old result answers.new }
{
    answers[..ssrcs.len()].fill(NO_CHUNK);
    let mut unanswered = ssrcs.len();
    let mut rest = &body[Sdes::MIN_PACKET_LEN..];
    for k in 0..n_chunks {
        if unanswered == 0 {
            return k;
        }
        let chunk = SdesChunk::read(rest).unwrap();
        unanswered = visit(answers, ssrcs, chunk, k as u8, unanswered);
        rest = &rest[chunk.length..];
    }
    n_chunks
}

// For each SSRC of the list the index of the first chunk with that SSRC and a CNAME in it, or NO_CHUNK. A refusal writes no answer, and so the packet
// is accepted first. Of the number of visits no more is promised than that it is at most the number of chunks.
pub fn lookup(s: &[u8], ssrcs: &[u32], answers: &mut [u8]) -> Result<usize, RtcpParseError>
    ensures { (visits : ℕ) × Visited s.now ssrcs.now visits × ((parsed_of result, answers.new) ≡ lookup_with visits s.now ssrcs.now answers.old) }
{
    if answers.len() < ssrcs.len() {
        return Err(RtcpParseError::AnswersTooShort);
    }
    let sdes = Sdes::parse(s)?;
    Ok(answer_all(&s[..sdes.body], sdes.n_chunks, ssrcs, answers))
}
