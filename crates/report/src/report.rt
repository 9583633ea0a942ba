// What sender and receiver reports have in common: the blocks after the fields, the extension after the blocks, the padding.
ghost use Rattle.std.specs.Prelude.{◌≡◌, None, ℕ, ◌-◌, take, drop};
ghost use Rattle.rfc3550.specs.Answer.{ok, refused, map_ok};
ghost use Rattle.rfc3550.specs.Packet.{Packet, is_report};
ghost use Rattle.rfc3550.specs.Read.{Kind, read_as, read_block_at};
ghost use Rattle.utils.specs.Error.{parse_refusal, value_in, parsed_of};
ghost use Rattle.utils.specs.List.{listed_of};
ghost use Rattle.report.specs.Block.{block_view, lay_blocks};
ghost use Rattle.report.specs.Lists.{SameLists};
ghost use Rattle.report.specs.Report.{report_body, report_blocks};
ghost use Rattle.report.specs.Reporter.{places_of, ReportLaws};
ghost use Rattle.report.specs.declared.report.Places.{Places};

use super::receiver::ReceiverReport;
use super::report_block::{LentLists, ReportBlock, parse_block_unchecked};
use super::sender::SenderReport;
use utils::error::RtcpParseError;
use utils::list::ListError;

// The packet type is a report's.
pub fn is_report(packet_type: u8) -> bool
    ensures { result ≡ is_report packet_type }
{
    packet_type == SenderReport::PACKET_TYPE || packet_type == ReceiverReport::PACKET_TYPE
}

// How many blocks a report has, and where its parts lie: the extension between the places extension and body, where the padding starts.
#[derive(Clone, Copy)]
pub struct Places {
    pub n_reports: usize,
    pub extension: usize,
    pub body: usize,
}

pub trait Report: Copy {
    const MIN_PACKET_LEN: usize;

    const PACKET_TYPE: u8;

    ghost MIN_PACKET_LEN: { ℕ };

    ghost PACKET_TYPE: { ℕ };

    // The kind that is read, and what a report tells of its packet.
    ghost kind: { Kind };

    ghost view: { Packet → Self };

    ghost places: { Self → Places };

    ghost padding_len: { Self → ℕ };

    // The report of a packet whose places are these, which the caller has checked.
    fn read_unchecked(s: &[u8], at: Places) -> Self
        requires { map_ok places_of (read_as kind s.now) ≡ ok at }
        ensures { ok result ≡ map_ok view (read_as kind s.now) };

    fn places(self) -> Places
        ensures { result ≡ places self };

    fn padding_len(self) -> usize
        ensures { result ≡ padding_len self };

    ghost laws: { ReportLaws kind MIN_PACKET_LEN PACKET_TYPE view places };

    // The length of the body; None where the packet is refused.
    final fn body_of(s: &[u8]) -> Option<usize>
        ensures { result ≡ value_in (map_ok report_body (read_as kind s.now)) }
    {
        let body = utils::parser::body_of(s, Self::MIN_PACKET_LEN, Self::PACKET_TYPE)?;
        let n_reports = utils::parser::parse_count(s) as usize;
        if body < Self::MIN_PACKET_LEN + ReportBlock::EXPECTED_SIZE * n_reports {
            return None;
        }
        Some(body)
    }

    // Why a packet that is refused is.
    #[cold]
    final fn why_unchecked(s: &[u8]) -> RtcpParseError
        requires { value_in (read_as kind s.now) ≡ None }
        ensures { refused (parse_refusal result) ≡ read_as kind s.now }
    {
        let Some(actual) = utils::parser::body_of(s, Self::MIN_PACKET_LEN, Self::PACKET_TYPE) else {
            return utils::parser::why_header_unchecked(s, Self::MIN_PACKET_LEN, Self::PACKET_TYPE);
        };
        let n_reports = utils::parser::parse_count(s) as usize;
        let expected = Self::MIN_PACKET_LEN + ReportBlock::EXPECTED_SIZE * n_reports;
        RtcpParseError::Truncated { expected, actual }
    }

    // None where the packet is refused.
    #[tactic(auto, using(crate::proofs::Reports::reports))]
    final fn read(s: &[u8]) -> Option<Self>
        ensures { result ≡ value_in (map_ok view (read_as kind s.now)) }
    {
        let body = Self::body_of(s)?;
        let n_reports = utils::parser::parse_count(s) as usize;
        let extension = Self::MIN_PACKET_LEN + ReportBlock::EXPECTED_SIZE * n_reports;
        let places = Places {
            n_reports,
            extension,
            body,
        };
        Some(Self::read_unchecked(s, places))
    }

    // As RtcpPacketParser::parse, which it cannot be: a trait of another crate is implemented for one type at a time, and not for every Report.
    #[tactic(auto, using(crate::proofs::Reports::reports))]
    final fn parse(s: &[u8]) -> Result<Self, RtcpParseError>
        ensures { parsed_of result ≡ map_ok view (read_as kind s.now) }
    {
        match Self::read(s) {
            Some(report) => Ok(report),
            None => Err(Self::why_unchecked(s)),
        }
    }

    // The block with an index, from 0.
    #[tactic(auto, using(crate::proofs::Reports::reports))]
    final fn report_block(s: &[u8], i: usize) -> Result<ReportBlock, RtcpParseError>
        ensures { parsed_of result ≡ map_ok block_view (read_block_at kind s.now i) }
    {
        let Some(_body) = Self::body_of(s) else {
            return Err(Self::why_unchecked(s));
        };
        let n_reports = utils::parser::parse_count(s) as usize;
        if n_reports <= i {
            return Err(RtcpParseError::NothingLeft);
        }
        let at = Self::MIN_PACKET_LEN + ReportBlock::EXPECTED_SIZE * i;
        Ok(parse_block_unchecked(s, at))
    }

    // All blocks, into the lent lists.
    #[tactic(auto, using(crate::proofs::Reports::reports))]
    final fn report_blocks(s: &[u8], lists: &mut LentLists) -> Result<usize, ListError>
        ensures same_lists { SameLists lists.old lists.new }
        ensures laid { (listed_of result, lists.new.fractions.now, lists.new.losses.now, lists.new.words.now) ≡ lay_blocks (map_ok report_blocks (read_as kind s.now)) lists.old.fractions.now lists.old.losses.now lists.old.words.now }
    {
        let report = Self::parse(s)?;
        let n = report.places().n_reports;
        lists.list_blocks_unchecked(s, Self::MIN_PACKET_LEN, n)
    }

    // The bytes after the blocks, of the packet that was parsed.
    final fn extension(self, s: &[u8]) -> &[u8]
        ensures { result.now ≡ take ((places self).body - (places self).extension) (drop (places self).extension s.now) }
    {
        let places = self.places();
        utils::parser::between(s, places.extension, places.body)
    }

    final fn padding_bytes(self, s: &[u8]) -> &[u8]
        ensures { result.now ≡ take (padding_len self) (drop (places self).body s.now) }
    {
        utils::parser::part(s, self.places().body, self.padding_len())
    }
}
