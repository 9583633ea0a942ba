// Report blocks.
#![tactic(auto, using(crate::proofs::Blocks::blocks))]

ghost use Rattle.std.specs.Prelude.{◌≡◌, ◌+◌, ◌*◌, ◌≤◌, ◌<◌, length, drop};
ghost use Rattle.rfc3550.specs.Answer.{ok, map_ok};
ghost use Rattle.rfc3550.specs.Bytes.{get};
ghost use Rattle.rfc3550.specs.Packet.{block_widths};
ghost use Rattle.rfc3550.specs.Read.{block_from, read_block, read_blocks};
ghost use Rattle.utils.specs.Error.{parsed_of};
ghost use Rattle.utils.specs.List.{listed_of};
ghost use Rattle.report.specs.Block.{block_view, lay_blocks, BlockListed, BlocksListed};
ghost use Rattle.report.specs.Lists.{SameLists};

use super::loss::loss_of;
use utils::error::RtcpParseError;
use utils::list::ListError;
use utils::parser::u32_from_be_bytes;

#[derive(Clone, Copy)]
pub struct ReportBlock {
    pub ssrc: u32,
    pub fraction_lost: u8,
    pub cumulative_lost: i32,
    pub extended_sequence_number: u32,
    pub interarrival_jitter: u32,
    pub last_sender_report_timestamp: u32,
    pub delay_since_last_sender_report_timestamp: u32,
}

impl ReportBlock {
    pub const EXPECTED_SIZE: usize = 24;

    // How many words of a lent list one block takes: those that are neither its fraction nor its loss.
    pub const WORDS: usize = 5;

    // A block by itself.
    pub fn parse(s: &[u8]) -> Result<ReportBlock, RtcpParseError>
        ensures { parsed_of result ≡ map_ok block_view (read_block s.now) }
    {
        if s.len() < ReportBlock::EXPECTED_SIZE {
            return Err(RtcpParseError::Truncated {
                expected: ReportBlock::EXPECTED_SIZE,
                actual: s.len(),
            });
        }
        if ReportBlock::EXPECTED_SIZE < s.len() {
            return Err(RtcpParseError::TooLarge {
                expected: ReportBlock::EXPECTED_SIZE,
                actual: s.len(),
            });
        }
        Ok(parse_block_unchecked(s, 0))
    }
}

// The block at a place, which the caller has checked.
pub fn parse_block_unchecked(s: &[u8], at: usize) -> ReportBlock
    requires { at + 24 ≤ length s.now }
    ensures { result ≡ block_view (block_from (get block_widths (drop at s.now))) }
{
    let lost = u32_from_be_bytes(s, at + 4);
    ReportBlock {
        ssrc: u32_from_be_bytes(s, at),
        fraction_lost: (lost / 16777216) as u8,
        cumulative_lost: loss_of(lost),
        extended_sequence_number: u32_from_be_bytes(s, at + 8),
        interarrival_jitter: u32_from_be_bytes(s, at + 12),
        last_sender_report_timestamp: u32_from_be_bytes(s, at + 16),
        delay_since_last_sender_report_timestamp: u32_from_be_bytes(s, at + 20),
    }
}

// Three lists, lent by C to be filled: a fraction and a loss for each block, and the five words that follow.
#[derive(Drop)]
pub struct LentLists<'a> {
    pub fractions: &'a mut [u8],
    pub losses: &'a mut [i32],
    pub words: &'a mut [u32],
}

impl<'a> LentLists<'a> {
    // The numbers of the block at a place: its fraction and its loss at an index of their lists, and its words from index to on.
    fn list_block_unchecked(&mut self, s: &[u8], at: usize, i: usize, to: usize)
        requires { (at + 24 ≤ length s.now) × (i < length self.old.fractions.now) × (i < length self.old.losses.now) × (to + 5 ≤ length self.old.words.now) }
        ensures same_lists { SameLists self.old self.new }
        ensures listed { BlockListed (block_from (get block_widths (drop at s.now))) i to self.old.fractions.now self.old.losses.now self.old.words.now self.new.fractions.now self.new.losses.now self.new.words.now }
    {
        let b = parse_block_unchecked(s, at);
        self.fractions[i] = b.fraction_lost;
        let loss = b.cumulative_lost;
        self.losses[i] = loss;
        self.words[to] = b.ssrc;
        self.words[to + 1] = b.extended_sequence_number;
        self.words[to + 2] = b.interarrival_jitter;
        self.words[to + 3] = b.last_sender_report_timestamp;
        self.words[to + 4] = b.delay_since_last_sender_report_timestamp;
    }

    // The blocks that lie end to end from a place on, into lists that are long enough, from their starts.
    fn list_all_unchecked(&mut self, s: &[u8], at: usize, n: usize)
        requires { (at + n * 24 ≤ length s.now) × (n ≤ length self.old.fractions.now) × (n ≤ length self.old.losses.now) × (n * 5 ≤ length self.old.words.now) }
        ensures same_lists { SameLists self.old self.new }
        ensures listed { BlocksListed (read_blocks n (drop at s.now)) self.old.fractions.now self.old.losses.now self.old.words.now self.new.fractions.now self.new.losses.now self.new.words.now }
    {
        for i in 0..n {
            self.list_block_unchecked(
                s,
                at + i * ReportBlock::EXPECTED_SIZE,
                i,
                i * ReportBlock::WORDS,
            );
        }
    }

    // The same, where each list is long enough.
    pub fn list_blocks_unchecked(
        &mut self,
        s: &[u8],
        at: usize,
        n: usize,
    ) -> Result<usize, ListError>
        requires { at + n * 24 ≤ length s.now }
        ensures same_lists { SameLists self.old self.new }
        ensures laid { (listed_of result, self.new.fractions.now, self.new.losses.now, self.new.words.now) ≡ lay_blocks (ok (read_blocks n (drop at s.now))) self.old.fractions.now self.old.losses.now self.old.words.now }
    {
        if self.fractions.len() < n {
            return Err(ListError::TooShort(n));
        }
        if self.losses.len() < n {
            return Err(ListError::TooShort(n));
        }
        if self.words.len() < n * ReportBlock::WORDS {
            return Err(ListError::TooShort(n));
        }
        self.list_all_unchecked(s, at, n);
        Ok(n)
    }
}
