// The answers of the C functions, each with its fields in their order.
use super::print::numbers;
use rtcp::read_app::RtcpApp;
use rtcp::read_bye::{RtcpBye, RtcpSource};
use rtcp::read_compound::{RtcpCompound, RtcpStep, RtcpWalk};
use rtcp::read_report::{RtcpBlock, RtcpRr, RtcpSr};
use rtcp::read_sdes::{
    RtcpChunk, RtcpChunkStep, RtcpChunkWalk, RtcpItem, RtcpItemStep, RtcpItemWalk, RtcpPart,
    RtcpSdes,
};
use rtcp::receive::{RtcpReception, RtcpReceptionBlock, RtcpReceptionUpdate};
use rtcp::write_compound::RtcpCall;
use rtcp::write_result::RtcpWritten;
use std::io;

// What an operation answers, as numbers in their order.
pub trait Answer {
    fn print(&self, to: &mut Vec<u8>) -> io::Result<()>;
}

impl Answer for RtcpRr {
    fn print(&self, to: &mut Vec<u8>) -> io::Result<()> {
        numbers(to, &[self.number, self.first, self.second])?;
        numbers(
            to,
            &[
                self.ssrc,
                self.n_reports,
                self.extension,
                self.extension_len,
            ],
        )?;
        numbers(to, &[self.body, self.padding_len])
    }
}

impl Answer for RtcpSr {
    fn print(&self, to: &mut Vec<u8>) -> io::Result<()> {
        numbers(to, &[self.number, self.first, self.second])?;
        numbers(to, &[self.ssrc, self.ntp_timestamp, self.rtp_timestamp])?;
        numbers(to, &[self.packet_count, self.octet_count, self.n_reports])?;
        numbers(
            to,
            &[
                self.extension,
                self.extension_len,
                self.body,
                self.padding_len,
            ],
        )
    }
}

impl Answer for RtcpApp {
    fn print(&self, to: &mut Vec<u8>) -> io::Result<()> {
        numbers(to, &[self.number, self.first, self.second])?;
        numbers(to, &[self.subtype, self.ssrc, self.name, self.name_len])?;
        numbers(to, &[self.data, self.data_len, self.body, self.padding_len])
    }
}

impl Answer for RtcpBye {
    fn print(&self, to: &mut Vec<u8>) -> io::Result<()> {
        numbers(to, &[self.number, self.first, self.second])?;
        numbers(
            to,
            &[
                self.n_sources,
                self.has_reason,
                self.reason,
                self.reason_len,
            ],
        )?;
        numbers(to, &[self.tail, self.tail_len, self.body, self.padding_len])
    }
}

impl Answer for RtcpSource {
    fn print(&self, to: &mut Vec<u8>) -> io::Result<()> {
        numbers(to, &[self.number, self.first, self.second, self.ssrc])
    }
}

impl Answer for RtcpSdes {
    fn print(&self, to: &mut Vec<u8>) -> io::Result<()> {
        numbers(to, &[self.number, self.first, self.second, self.n_chunks])?;
        numbers(to, &[self.has_cname, self.body, self.padding_len])
    }
}

impl Answer for RtcpItem {
    fn print(&self, to: &mut Vec<u8>) -> io::Result<()> {
        numbers(to, &[self.number, self.first, self.second])?;
        numbers(to, &[self.type_, self.length, self.prefix, self.prefix_len])?;
        numbers(to, &[self.value, self.value_len])
    }
}

impl Answer for RtcpPart {
    fn print(&self, to: &mut Vec<u8>) -> io::Result<()> {
        numbers(to, &[self.number, self.first, self.second])?;
        numbers(to, &[self.offset, self.len])
    }
}

impl Answer for RtcpChunk {
    fn print(&self, to: &mut Vec<u8>) -> io::Result<()> {
        numbers(to, &[self.number, self.first, self.second])?;
        numbers(to, &[self.ssrc, self.length, self.cname])
    }
}

impl Answer for RtcpChunkWalk {
    fn print(&self, to: &mut Vec<u8>) -> io::Result<()> {
        numbers(to, &[self.number, self.first, self.second])?;
        numbers(to, &[self.at, self.end])
    }
}

impl Answer for RtcpChunkStep {
    fn print(&self, to: &mut Vec<u8>) -> io::Result<()> {
        numbers(to, &[self.number, self.first, self.second, self.ssrc])?;
        numbers(to, &[self.length, self.cname, self.at, self.end])
    }
}

impl Answer for RtcpItemWalk {
    fn print(&self, to: &mut Vec<u8>) -> io::Result<()> {
        numbers(to, &[self.number, self.first, self.second, self.at])
    }
}

impl Answer for RtcpItemStep {
    fn print(&self, to: &mut Vec<u8>) -> io::Result<()> {
        numbers(to, &[self.number, self.first, self.second])?;
        numbers(to, &[self.type_, self.length, self.prefix, self.prefix_len])?;
        numbers(to, &[self.value, self.value_len, self.at])
    }
}

impl Answer for RtcpCompound {
    fn print(&self, to: &mut Vec<u8>) -> io::Result<()> {
        numbers(to, &[self.number, self.first, self.second, self.n_packets])
    }
}

impl Answer for RtcpWalk {
    fn print(&self, to: &mut Vec<u8>) -> io::Result<()> {
        numbers(to, &[self.number, self.first, self.second, self.at])
    }
}

impl Answer for RtcpStep {
    fn print(&self, to: &mut Vec<u8>) -> io::Result<()> {
        numbers(to, &[self.number, self.first, self.second])?;
        numbers(to, &[self.kind, self.packet_type, self.count, self.offset])?;
        numbers(to, &[self.len, self.body, self.padding_len, self.ssrc])?;
        numbers(to, &[self.ntp_timestamp, self.rtp_timestamp])?;
        numbers(to, &[self.packet_count, self.octet_count])?;
        numbers(to, &[self.extension, self.has_cname, self.has_reason])?;
        numbers(to, &[self.reason, self.reason_len, self.at])
    }
}

impl Answer for RtcpWritten {
    fn print(&self, to: &mut Vec<u8>) -> io::Result<()> {
        numbers(to, &[self.number, self.first, self.second, self.size])
    }
}

impl Answer for RtcpCall {
    fn print(&self, to: &mut Vec<u8>) -> io::Result<()> {
        numbers(to, &[self.number, self.first, self.second])
    }
}

impl Answer for RtcpBlock {
    fn print(&self, to: &mut Vec<u8>) -> io::Result<()> {
        numbers(to, &[self.number, self.first, self.second])?;
        print_figures(to, self)
    }
}

pub fn print_figures(to: &mut Vec<u8>, block: &RtcpBlock) -> io::Result<()> {
    numbers(to, &[block.ssrc, block.fraction_lost])?;
    numbers(to, &[block.cumulative_lost])?;
    numbers(
        to,
        &[block.extended_sequence_number, block.interarrival_jitter],
    )?;
    numbers(to, &[block.last_sender_report_timestamp])?;
    numbers(to, &[block.delay_since_last_sender_report_timestamp])
}

impl Answer for RtcpReception {
    fn print(&self, to: &mut Vec<u8>) -> io::Result<()> {
        numbers(to, &[self.max_seq])?;
        numbers(
            to,
            &[self.cycles, self.base_seq, self.bad_seq, self.probation],
        )?;
        numbers(
            to,
            &[self.received, self.expected_prior, self.received_prior],
        )?;
        numbers(to, &[self.transit, self.jitter])
    }
}

impl Answer for RtcpReceptionUpdate {
    fn print(&self, to: &mut Vec<u8>) -> io::Result<()> {
        self.reception.print(to)?;
        numbers(to, &[self.accepted])
    }
}

impl Answer for RtcpReceptionBlock {
    fn print(&self, to: &mut Vec<u8>) -> io::Result<()> {
        self.reception.print(to)?;
        numbers(to, &[self.in_probation])?;
        self.block.print(to)
    }
}
