// What is kept of one source (RFC 3550 A.1: `source`), by its names.
#![tactic(auto, unfolding(rfc3550::specs::Reception::new_reception, rfc3550::specs::Reception::verdict, rfc3550::specs::Reception::update_seq, rfc3550::specs::Reception::update, rfc3550::specs::Reception::block_of, rfc3550::specs::Reception::report_block))]

ghost use Rattle.std.specs.Prelude.{◌≡◌};
ghost use Rattle.rfc3550.specs.Reception.{new_reception, waits, starts, ahead, jumps, behind, verdict, timed, update, extended, expected, block_of, reported, report_block};
ghost use Rattle.reception.specs.Reception.{reception_of, update_of, after_verdict, block_is, report_of};

use super::figure::{clamped, cycles_after, fraction_lost, jitter_after};
use report::report_block::ReportBlock;

#[derive(Clone, Copy)]
pub struct Reception {
    pub max_seq: u16,
    pub cycles: u32,
    pub base_seq: u32,
    pub bad_seq: u32,
    pub probation: u32,
    pub received: u32,
    pub expected_prior: u32,
    pub received_prior: u32,
    pub transit: u32,
    pub jitter: u32,
}

// The state after a packet, and whether A.1 accepts the packet: no Option, since a packet that is not accepted changes the state too.
#[derive(Clone, Copy)]
pub struct Update {
    pub reception: Reception,
    pub accepted: bool,
}

impl Reception {
    // Packets in sequence until a source is valid.
    pub const MIN_SEQUENTIAL: u32 = 2;

    // A difference of sequence numbers from this on is no permissible gap.
    pub const MAX_DROPOUT: u16 = 3000;

    // A packet that is fewer than so many behind came late.
    pub const MAX_MISORDER: u16 = 100;

    // The greatest difference that is a jump: 65,536 less MAX_MISORDER.
    const MAX_JUMP: u16 = 65535 - Reception::MAX_MISORDER + 1;

    // bad_seq where no packet was bad: no sequence number is this.
    const NO_SEQ: u32 = 65537;

    // A source that is heard for the first time, with its first packet's number; update then takes that packet too.
    pub fn new(seq: u16) -> Reception
        ensures { reception_of result ≡ new_reception seq }
    {
        Reception {
            max_seq: seq.wrapping_sub(1),
            cycles: 0,
            base_seq: seq as u32,
            bad_seq: Reception::NO_SEQ,
            probation: Reception::MIN_SEQUENTIAL,
            received: 0,
            expected_prior: 0,
            received_prior: 0,
            transit: 0,
            jitter: 0,
        }
    }

    fn waits(mut self, probation: u32, seq: u16) -> Update
        ensures { update_of result ≡ after_verdict (waits probation) (reception_of self) seq }
    {
        self.max_seq = seq;
        self.probation = probation;
        Update {
            reception: self,
            accepted: false,
        }
    }

    fn starts(self, seq: u16) -> Update
        ensures { update_of result ≡ after_verdict starts (reception_of self) seq }
    {
        let reception = Reception {
            max_seq: seq,
            cycles: 0,
            base_seq: seq as u32,
            bad_seq: Reception::NO_SEQ,
            probation: 0,
            received: 1,
            expected_prior: 0,
            received_prior: 0,
            transit: self.transit,
            jitter: self.jitter,
        };
        Update {
            reception,
            accepted: true,
        }
    }

    // One more is received: all that a late packet changes, whatever its number.
    fn behind(mut self) -> Update
        ensures { update_of result ≡ after_verdict behind (reception_of self) 0 }
    {
        self.received = self.received.wrapping_add(1);
        Update {
            reception: self,
            accepted: true,
        }
    }

    // By how much does not bear on the state.
    fn ahead(mut self, seq: u16) -> Update
        ensures { update_of result ≡ after_verdict (ahead 0) (reception_of self) seq }
    {
        self.cycles = cycles_after(self.cycles, self.max_seq, seq);
        self.max_seq = seq;
        self.behind()
    }

    fn jumps(mut self, seq: u16) -> Update
        ensures { update_of result ≡ after_verdict jumps (reception_of self) seq }
    {
        self.bad_seq = seq.wrapping_add(1) as u32;
        Update {
            reception: self,
            accepted: false,
        }
    }

    // A.1, but for transit and jitter.
    pub fn update_seq(self, seq: u16) -> Update
        ensures { update_of result ≡ after_verdict (verdict (reception_of self) seq) (reception_of self) seq }
    {
        let udelta = seq.wrapping_sub(self.max_seq);
        let probation = self.probation;
        if 0 < probation {
            if udelta != 1 {
                return self.waits(1, seq);
            }
            if probation != 1 {
                return self.waits(probation - 1, seq);
            }
            return self.starts(seq);
        }
        if udelta < Reception::MAX_DROPOUT {
            return self.ahead(seq);
        }
        if Reception::MAX_JUMP < udelta {
            return self.behind();
        }
        if seq as u32 == self.bad_seq {
            return self.starts(seq);
        }
        self.jumps(seq)
    }

    // A.8.
    fn timed(mut self, first: bool, transit: u32) -> Reception
        ensures { reception_of result ≡ timed first transit (reception_of self) }
    {
        self.jitter = jitter_after(first, self.jitter, self.transit, transit);
        self.transit = transit;
        self
    }

    // A packet with its timestamp and its arrival in the same units.
    pub fn update(self, seq: u16, timestamp: u32, arrival: u32) -> Update
        ensures { update_of result ≡ update (reception_of self) seq timestamp arrival }
    {
        let first = 0 < self.probation;
        let after = self.update_seq(seq);
        if !after.accepted {
            return after;
        }
        let reception = after.reception;
        Update {
            reception: reception.timed(first, arrival.wrapping_sub(timestamp)),
            accepted: true,
        }
    }

    // The extended highest sequence number.
    pub fn extended(self) -> u32
        ensures { result ≡ extended (reception_of self) }
    {
        self.cycles.wrapping_add(self.max_seq as u32)
    }

    // The packets expected since the start.
    pub fn expected(self) -> u32
        ensures { result ≡ expected (reception_of self) }
    {
        self.extended().wrapping_sub(self.base_seq).wrapping_add(1)
    }

    fn reported(mut self) -> Reception
        ensures { reception_of result ≡ reported (reception_of self) }
    {
        let expected = self.expected();
        let received = self.received;
        self.expected_prior = expected;
        self.received_prior = received;
        self
    }

    fn block(self, ssrc: u32, lsr: u32, dlsr: u32) -> ReportBlock
        ensures { block_is result ≡ block_of (reception_of self) ssrc lsr dlsr }
    {
        let expected = self.expected();
        let expected_interval = expected.wrapping_sub(self.expected_prior);
        let received_interval = self.received.wrapping_sub(self.received_prior);
        ReportBlock {
            ssrc,
            fraction_lost: fraction_lost(
                expected_interval.wrapping_sub(received_interval),
                expected_interval,
            ),
            cumulative_lost: clamped(expected.wrapping_sub(self.received)),
            extended_sequence_number: self.extended(),
            interarrival_jitter: self.jitter / 16,
            last_sender_report_timestamp: lsr,
            delay_since_last_sender_report_timestamp: dlsr,
        }
    }

    // A.3: the block, with the last SR and the delay since it from the caller.
    pub fn report_block(self, ssrc: u32, lsr: u32, dlsr: u32) -> Option<(ReportBlock, Reception)>
        ensures { report_of (reception_of self) result ≡ report_block (reception_of self) ssrc lsr dlsr }
    {
        if 0 < self.probation {
            return None;
        }
        Some((self.block(ssrc, lsr, dlsr), self.reported()))
    }
}
