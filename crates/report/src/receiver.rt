// Receiver reports.
ghost use Rattle.rfc3550.specs.Read.{RR};
ghost use Rattle.report.specs.Report.{receiver_view};
ghost use Rattle.report.specs.Reporter.{receiver_places, receiver_laws};

use super::report::{Places, Report};

// The extension lies between the places extension and body, where the padding starts.
#[derive(Clone, Copy)]
pub struct ReceiverReport {
    pub ssrc: u32,
    pub n_reports: usize,
    pub extension: usize,
    pub body: usize,
    pub padding_len: usize,
}

impl Report for ReceiverReport {
    const MIN_PACKET_LEN: usize = 8;

    const PACKET_TYPE: u8 = 201;

    ghost MIN_PACKET_LEN = { 8 };

    ghost PACKET_TYPE = { 201 };

    ghost kind = { RR };

    ghost view = { receiver_view };

    ghost places = { receiver_places };

    ghost padding_len = { λ it. it.padding_len };

    ghost laws = { receiver_laws };

    #[tactic(auto, using(crate::proofs::Reports::fields))]
    #[inline(always)]
    fn read_unchecked(s: &[u8], at: Places) -> ReceiverReport {
        ReceiverReport {
            ssrc: utils::parser::parse_ssrc(s),
            n_reports: at.n_reports,
            extension: at.extension,
            body: at.body,
            padding_len: s.len() - at.body,
        }
    }

    #[inline(always)]
    fn places(self) -> Places {
        Places {
            n_reports: self.n_reports,
            extension: self.extension,
            body: self.body,
        }
    }

    #[inline(always)]
    fn padding_len(self) -> usize {
        self.padding_len
    }
}
