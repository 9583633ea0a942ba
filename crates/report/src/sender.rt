// Sender reports.
ghost use Rattle.rfc3550.specs.Read.{SR};
ghost use Rattle.report.specs.Report.{sender_view};
ghost use Rattle.report.specs.Reporter.{sender_places, sender_laws};

use super::report::{Places, Report};

// The extension lies between the places extension and body, where the padding starts.
#[derive(Clone, Copy)]
pub struct SenderReport {
    pub ssrc: u32,
    pub ntp_timestamp: u64,
    pub rtp_timestamp: u32,
    pub packet_count: u32,
    pub octet_count: u32,
    pub n_reports: usize,
    pub extension: usize,
    pub body: usize,
    pub padding_len: usize,
}

impl Report for SenderReport {
    const MIN_PACKET_LEN: usize = 28;

    const PACKET_TYPE: u8 = 200;

    ghost MIN_PACKET_LEN = { 28 };

    ghost PACKET_TYPE = { 200 };

    ghost kind = { SR };

    ghost view = { sender_view };

    ghost places = { sender_places };

    ghost padding_len = { λ it. it.padding_len };

    ghost laws = { sender_laws };

    #[tactic(auto, using(crate::proofs::Reports::fields))]
    #[inline(always)]
    fn read_unchecked(s: &[u8], at: Places) -> SenderReport {
        SenderReport {
            ssrc: utils::parser::parse_ssrc(s),
            ntp_timestamp: utils::parser::u64_from_be_bytes(s, 8),
            rtp_timestamp: utils::parser::u32_from_be_bytes(s, 16),
            packet_count: utils::parser::u32_from_be_bytes(s, 20),
            octet_count: utils::parser::u32_from_be_bytes(s, 24),
            n_reports: at.n_reports,
            extension: at.extension,
            body: at.body,
            padding_len: s.len() - at.body,
        }
    }

    #[inline(always)]
    fn places(self) -> Places {
        Places {
            n_reports: self.n_reports,
            extension: self.extension,
            body: self.body,
        }
    }

    #[inline(always)]
    fn padding_len(self) -> usize {
        self.padding_len
    }
}
