// Report blocks, written (report_block.rs, `ReportBlockBuilder`).
ghost use Rattle.std.specs.Prelude.{◌≡◌, true, None, ◌+◌, ◌*◌, ◌≤◌, length};
ghost use Rattle.rfc3550.specs.Answer.{refused};
ghost use Rattle.rfc3550.specs.Bytes.{put, store};
ghost use Rattle.rfc3550.specs.Loss.{no_loss, loss_in};
ghost use Rattle.rfc3550.specs.Packet.{block_widths, block_fields, blocks_bytes};
ghost use Rattle.rfc3550.specs.Write as rfc;
ghost use Rattle.utils.specs.Error.{value_in, write_refusal};
ghost use Rattle.utils.specs.Writer.{written_of};
ghost use Rattle.report_write.specs.Report.{lists_in, block_of, later_loss, tested_loss, counted_size, lists_size};

use report::loss;
use report::report_block::ReportBlock;
use utils::error::RtcpWriteError;
use utils::writer;

// A report's blocks as C lends them, side by side, since there is no heap: a fraction lost and a cumulative lost for each, and five words.
#[derive(Clone, Copy)]
pub struct BlockLists<'a> {
    pub fractions: &'a [u8],
    pub losses: &'a [i32],
    pub words: &'a [u32],
}

// Of a loss and the next one, the first if it does not fit.
#[tactic(auto, using(crate::proofs::Blocks::blocks))]
pub fn later_loss(loss: i32, next: i32) -> i32
    ensures { result ≡ later_loss loss next }
{
    if loss::check_loss(loss) {
        return next;
    }
    loss
}

// The first loss that does not fit, or else the last one.
fn tested_loss(losses: &[i32]) -> i32
    ensures { result ≡ tested_loss no_loss losses.now }
{
    losses.iter().fold(0, |loss, next| later_loss(loss, *next))
}

// The bits of the magnitudes of all losses: it fits exactly if all of them do, and is found without a branch for each.
#[tactic(auto, using(crate::proofs::Blocks::blocks))]
fn merged_losses(losses: &[i32]) -> i32
    ensures { loss_in result ≡ loss_in (tested_loss no_loss losses.now) }
{
    let mut bits: u32 = 0;
    for loss in losses {
        bits |= loss::loss_magnitude(*loss);
    }
    bits as i32
}

// The size of a report of so many blocks with so many bytes before them; None where it is refused. One loss decides for all.
#[tactic(auto, using(crate::proofs::Reports::counts))]
pub fn size_of_count(count: usize, loss: i32, padding: u64, least: u8) -> Option<usize>
    ensures { result ≡ value_in (counted_size least count loss padding) }
{
    if writer::MAX_COUNT < count {
        return None;
    }
    if !writer::check_padding(padding) {
        return None;
    }
    if !loss::check_loss(loss) {
        return None;
    }
    Some(least as usize + count * ReportBlock::EXPECTED_SIZE + padding as usize)
}

// Why such a report is refused, however many bytes stand before its blocks.
#[cold]
#[tactic(auto, using(crate::proofs::Reports::whys))]
pub fn why_count_unchecked(count: usize, loss: i32, padding: u64) -> RtcpWriteError
    requires { value_in (counted_size 0 count loss padding) ≡ None }
    ensures { refused (write_refusal result) ≡ counted_size 0 count loss padding }
{
    if writer::MAX_COUNT < count {
        return RtcpWriteError::TooManyReportBlocks {
            count,
            max: writer::MAX_COUNT as u8,
        };
    }
    if !writer::check_padding(padding) {
        return RtcpWriteError::InvalidPadding { padding };
    }
    RtcpWriteError::CumulativeLostTooLarge {
        value: loss::loss_shown(loss),
        max: loss::MAX_LOSS,
    }
}

// The size of such a report, or why it is refused.
#[tactic(auto, using(crate::proofs::Reports::checks))]
pub fn check_count(
    count: usize,
    loss: i32,
    padding: u64,
    least: u8,
) -> Result<usize, RtcpWriteError>
    ensures { written_of result ≡ counted_size least count loss padding }
{
    match size_of_count(count, loss, padding, least) {
        Some(size) => Ok(size),
        None => Err(why_count_unchecked(count, loss, padding)),
    }
}

// Lays a block at index at: fraction lost and the 24 bits of cumulative lost are one word.
#[tactic(auto, using(crate::proofs::Blocks::blocks))]
pub fn write_block_unchecked(buf: &mut [u8], at: usize, block: ReportBlock)
    requires { at + 24 ≤ length buf.old }
    ensures { buf.new ≡ store at (put block_widths (block_fields (block_of block))) buf.old }
{
    let loss = block.fraction_lost as u32 * 16777216 + loss::loss_bits(block.cumulative_lost);
    writer::write_u32_unchecked(buf, at, block.ssrc);
    writer::write_u32_unchecked(buf, at + 4, loss);
    writer::write_u32_unchecked(buf, at + 8, block.extended_sequence_number);
    writer::write_u32_unchecked(buf, at + 12, block.interarrival_jitter);
    writer::write_u32_unchecked(buf, at + 16, block.last_sender_report_timestamp);
    writer::write_u32_unchecked(buf, at + 20, block.delay_since_last_sender_report_timestamp);
}

// The blocks of a report, however they are lent.
pub trait ReportBlocks: Copy {
    // The lists that hold the same blocks.
    ghost lists: { Self → rfc.BlockLists };

    // How many they are.
    fn count(self) -> usize
        ensures { result ≡ length (lists self).fractions };

    // The size of a report of them with so many bytes before them; None where it is refused.
    fn size_of(self, padding: u64, least: u8) -> Option<usize>
        ensures { result ≡ value_in (lists_size least (lists self) padding) };

    // Why such a report is refused, however many bytes stand before them.
    fn why_size_unchecked(self, padding: u64) -> RtcpWriteError
        requires { value_in (lists_size 0 (lists self) padding) ≡ None }
        ensures { refused (write_refusal result) ≡ lists_size 0 (lists self) padding };

    // Lays them from index at on, where they agree.
    fn write_blocks_unchecked(self, buf: &mut [u8], at: usize)
        requires { (rfc.blocks_agree (lists self) ≡ true) × (at + length (lists self).fractions * 24 ≤ length buf.old) }
        ensures { buf.new ≡ store at (blocks_bytes (rfc.blocks_lent (lists self))) buf.old };
}

impl BlockLists<'_> {
    // There are one loss and five words for each fraction.
    #[tactic(auto, using(crate::proofs::Blocks::blocks))]
    fn agree(self) -> bool
        ensures { result ≡ rfc.blocks_agree (lists_in self.entry) }
    {
        let n = self.fractions.len();
        if self.losses.len() != n {
            return false;
        }
        if self.words.len() % ReportBlock::WORDS != 0 {
            return false;
        }
        self.words.len() / ReportBlock::WORDS == n
    }
}

impl ReportBlocks for BlockLists<'_> {
    ghost lists = { lists_in };

    fn count(self) -> usize {
        self.fractions.len()
    }

    #[tactic(auto, using(crate::proofs::Reports::reports))]
    fn size_of(self, padding: u64, least: u8) -> Option<usize> {
        // Once the number is tested, the words are compared with a product: `agree` divides, since a product may be past 64 bits.
        let n = self.fractions.len();
        if writer::MAX_COUNT < n {
            return None;
        }
        if self.losses.len() != n {
            return None;
        }
        if self.words.len() != n * ReportBlock::WORDS {
            return None;
        }
        size_of_count(n, merged_losses(self.losses), padding, least)
    }

    #[cold]
    #[tactic(auto, using(crate::proofs::Reports::reports))]
    fn why_size_unchecked(self, padding: u64) -> RtcpWriteError {
        if !self.agree() {
            return RtcpWriteError::ListsDisagree;
        }
        why_count_unchecked(self.fractions.len(), tested_loss(self.losses), padding)
    }

    #[tactic(auto, using(crate::proofs::Blocks::blocks))]
    fn write_blocks_unchecked(self, buf: &mut [u8], at: usize) {
        for (i, fraction) in self.fractions.iter().enumerate() {
            let k = i * ReportBlock::WORDS;
            let block = ReportBlock {
                ssrc: self.words[k],
                fraction_lost: *fraction,
                cumulative_lost: self.losses[i],
                extended_sequence_number: self.words[k + 1],
                interarrival_jitter: self.words[k + 2],
                last_sender_report_timestamp: self.words[k + 3],
                delay_since_last_sender_report_timestamp: self.words[k + 4],
            };
            write_block_unchecked(buf, at + i * ReportBlock::EXPECTED_SIZE, block);
        }
    }
}
