// Rows of reports whose blocks are lent as records, and of the walk over chunks that holds its bytes.
use super::answer::Answer;
use super::operation::{Walking, Way};
use super::print::numbers;
use super::row::Row;
use super::write::{Blocks, Request};
use compound_write::writer::Call;
use records::{Records, RecordsBuilder};
use report::report_block::ReportBlock;
use report_write::reporter::Reporter;
use rtcp::write_compound::writer_in;
use rtcp::write_result::RtcpWritten;
use sdes::sdes::ChunkWalk;
use sdes_chunk::chunk::SdesChunk;
use sdes_walk::SdesWalk;
use std::alloc::{AllocError, Global};
use std::io;
use utils::error::{Code, RtcpParseError};
use utils::packet_writer::RtcpPacketWriter;

// So many blocks are lent at most.
const MOST: usize = 33;

// A block, its loss and its five words; what a list leaves out is 0.
fn record(blocks: &Blocks, i: usize, fraction_lost: u8) -> ReportBlock {
    let words = blocks.words.chunks(5).nth(i).unwrap_or_default();
    let word = |place: usize| words.get(place).copied().unwrap_or(0);
    ReportBlock {
        ssrc: word(0),
        fraction_lost,
        cumulative_lost: blocks.losses.get(i).copied().unwrap_or(0),
        extended_sequence_number: word(1),
        interarrival_jitter: word(2),
        last_sender_report_timestamp: word(3),
        delay_since_last_sender_report_timestamp: word(4),
    }
}

fn records(blocks: &Blocks) -> Result<Vec<ReportBlock>, AllocError> {
    blocks
        .fractions
        .iter()
        .take(MOST)
        .enumerate()
        .map(|(i, fraction)| record(blocks, i, *fraction))
        .collect(*blocks.words.allocator())
}

fn called(to: &mut Vec<u8>, r: Call) -> io::Result<()> {
    let answer = r.answer;
    match answer {
        Ok(()) => numbers(to, &[0u64, 0, 0])?,
        Err(e) => {
            let code = Code::from(e);
            numbers(to, &[code.number, code.first, code.second])?;
        }
    }
    let w = r.writer;
    numbers(to, &[w.len])?;
    numbers(
        to,
        &[u64::from(w.padded), u64::from(w.cname), u64::from(w.closed)],
    )
}

fn alone(to: &mut Vec<u8>, buf: &mut [u8], report: impl RtcpPacketWriter) -> io::Result<()> {
    RtcpWritten::from(report.calculate_size()).print(to)?;
    RtcpWritten::from(report.write_into(buf)).print(to)
}

// As the C functions that write and add a report; the writer stays as it is.
pub fn report(
    request: &mut Request,
    way: Way,
    reporter: impl Reporter,
    blocks: &Blocks,
) -> io::Result<()> {
    let padding = blocks.padding;
    let records = records(blocks)?;
    let report = RecordsBuilder {
        reporter,
        blocks: Records { blocks: &records },
        padding,
    };
    match way {
        Way::Alone => alone(request.to, request.buf, report),
        Way::Added => {
            let writer = writer_in(request.writer);
            called(request.to, writer.add(request.buf, report))
        }
    }
}

fn opened(to: &mut Vec<u8>, answer: Result<SdesWalk, RtcpParseError>) -> io::Result<()> {
    match answer {
        Ok(walk) => {
            numbers(to, &[0u64, 0, 0])?;
            let position = walk.position;
            numbers(to, &[position.at, position.end])
        }
        Err(e) => {
            let code = Code::from(e);
            numbers(to, &[code.number, code.first, code.second, 0, 0])
        }
    }
}

// On a refusal the walk is as it was.
fn stepped(
    to: &mut Vec<u8>,
    answer: Result<(SdesChunk, ChunkWalk), RtcpParseError>,
    at: u64,
    end: u64,
) -> io::Result<()> {
    match answer {
        Ok((chunk, next)) => {
            numbers(to, &[0, 0, 0, chunk.ssrc])?;
            numbers(to, &[chunk.length, chunk.cname, next.at, next.end])
        }
        Err(e) => {
            let code = Code::from(e);
            numbers(to, &[code.number, code.first, code.second, 0])?;
            numbers(to, &[0, 0, at, end])
        }
    }
}

// The answer to step n, counted from 0, of a walk that is opened on the bytes; after so many steps as there are bytes it has come to its end.
fn chunk(s: &[u8], n: u64) -> Result<(SdesChunk, ChunkWalk), RtcpParseError> {
    let mut walk = SdesWalk::open(s)?;
    for _ in 0..s.len().min(n as usize) {
        walk = walk.step().walk;
    }
    walk.step().answer
}

// Open; a step `AT END`; chunk `I 0`, whose walk on a refusal is I and 0.
pub fn walk(to: &mut Vec<u8>, walking: Walking, row: &Row) -> io::Result<()> {
    let s = row.bytes();
    let at: u64 = row.number(0);
    let end: u64 = row.number(1);
    match walking {
        Walking::Open => opened(to, SdesWalk::open(s)),
        Walking::Step => {
            let position = ChunkWalk {
                at: at as usize,
                end: end as usize,
            };
            let walk = SdesWalk { data: s, position };
            stepped(to, walk.step().answer, at, end)
        }
        Walking::Chunk => stepped(to, chunk(s, at), at, end),
    }
}
