// Reception figures of one source: the state goes in and comes back by value.
ghost use Rattle.std.specs.Prelude.{◌≡◌};
ghost use Rattle.rfc3550.specs.Reception.{new_reception, update, report_block};
ghost use Rattle.reception.specs.Reception.{reception_of, report_of};
ghost use Rattle.rtcp.specs.Receive.{reception_in, reception_result, update_result, report_result};

use super::read_report::RtcpBlock;
use reception::reception::Reception;
use report::report_block::ReportBlock;

#[repr(C)]
#[derive(Clone, Copy)]
pub struct RtcpReception {
    pub max_seq: u16,
    pub cycles: u32,
    pub base_seq: u32,
    pub bad_seq: u32,
    pub probation: u32,
    pub received: u32,
    pub expected_prior: u32,
    pub received_prior: u32,
    pub transit: u32,
    pub jitter: u32,
}

#[repr(C)]
#[derive(Clone, Copy)]
pub struct RtcpReceptionUpdate {
    pub reception: RtcpReception,
    pub accepted: u64,
}

#[repr(C)]
#[derive(Clone, Copy)]
pub struct RtcpReceptionBlock {
    pub reception: RtcpReception,
    pub in_probation: u64,
    pub block: RtcpBlock,
}

impl From<Reception> for RtcpReception {
    ghost from_gives = { λ s r. r ≡ reception_result (reception_of s) };

    fn from(s: Reception) -> RtcpReception {
        RtcpReception {
            max_seq: s.max_seq,
            cycles: s.cycles,
            base_seq: s.base_seq,
            bad_seq: s.bad_seq,
            probation: s.probation,
            received: s.received,
            expected_prior: s.expected_prior,
            received_prior: s.received_prior,
            transit: s.transit,
            jitter: s.jitter,
        }
    }
}

impl From<RtcpReception> for Reception {
    ghost from_gives = { λ s r. reception_of r ≡ reception_in s };

    fn from(state: RtcpReception) -> Reception {
        Reception {
            max_seq: state.max_seq,
            cycles: state.cycles,
            base_seq: state.base_seq,
            bad_seq: state.bad_seq,
            probation: state.probation,
            received: state.received,
            expected_prior: state.expected_prior,
            received_prior: state.received_prior,
            transit: state.transit,
            jitter: state.jitter,
        }
    }
}

impl RtcpReceptionBlock {
    // No From, since it takes two values.
    fn from_reported(
        before: RtcpReception,
        reported: Option<(ReportBlock, Reception)>,
    ) -> RtcpReceptionBlock
        ensures { result ≡ report_result (report_of (reception_in before) reported) }
    {
        match reported {
            Some((block, after)) => RtcpReceptionBlock {
                reception: RtcpReception::from(after),
                in_probation: 0,
                block: RtcpBlock::from(Ok(block)),
            },
            None => RtcpReceptionBlock {
                reception: before,
                in_probation: 1,
                block: RtcpBlock::default(),
            },
        }
    }
}

// The state of a source that is heard for the first time, from its first packet's sequence number; rtcp_reception_update then takes that packet too.
pub fn rtcp_reception_new(seq: u16) -> RtcpReception
    ensures { result ≡ reception_result (new_reception seq) }
{
    RtcpReception::from(Reception::new(seq))
}

// The state after a packet, and whether A.1 accepts it.
pub fn rtcp_reception_update(
    reception: RtcpReception,
    seq: u16,
    timestamp: u32,
    arrival: u32,
) -> RtcpReceptionUpdate
    ensures { result ≡ update_result (update (reception_in reception) seq timestamp arrival) }
{
    let after = Reception::from(reception).update(seq, timestamp, arrival);
    RtcpReceptionUpdate {
        reception: RtcpReception::from(after.reception),
        accepted: u64::from(after.accepted),
    }
}

// The block and the state after it, or that the source is in probation.
pub fn rtcp_reception_report_block(
    reception: RtcpReception,
    ssrc: u32,
    last_sender_report_timestamp: u32,
    delay_since_last_sender_report_timestamp: u32,
) -> RtcpReceptionBlock
    ensures { result ≡ report_result (report_block (reception_in reception) ssrc last_sender_report_timestamp delay_since_last_sender_report_timestamp) }
{
    let reported = Reception::from(reception).report_block(
        ssrc,
        last_sender_report_timestamp,
        delay_since_last_sender_report_timestamp,
    );
    RtcpReceptionBlock::from_reported(reception, reported)
}
