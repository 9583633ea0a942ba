// Reception figures of one source: the state goes in and comes back by value.
ghost use Rattle.std.specs.Prelude.{◌≡◌};
ghost use Rattle.rfc3550.specs.Reception.{new_reception, update, report_block};
ghost use Rattle.rtcp.specs.Receive.{reception_in, reception_result, update_result, report_result};

use rtcp::receive;
use rtcp::receive::{RtcpReception, RtcpReceptionBlock, RtcpReceptionUpdate};

// The state of a source that is heard for the first time, from its first packet's sequence number; rtcp_reception_update then takes that packet too.
#[unsafe(no_mangle)]
pub extern "C" fn rtcp_reception_new(seq: u16) -> RtcpReception
    ensures { result ≡ reception_result (new_reception seq) }
{
    receive::rtcp_reception_new(seq)
}

// The state after a packet, and whether A.1 accepts it.
#[unsafe(no_mangle)]
pub extern "C" fn rtcp_reception_update(
    reception: RtcpReception,
    seq: u16,
    timestamp: u32,
    arrival: u32,
) -> RtcpReceptionUpdate
    ensures { result ≡ update_result (update (reception_in reception) seq timestamp arrival) }
{
    receive::rtcp_reception_update(reception, seq, timestamp, arrival)
}

// The block and the state after it, or that the source is in probation.
#[unsafe(no_mangle)]
pub extern "C" fn rtcp_reception_report_block(
    reception: RtcpReception,
    ssrc: u32,
    last_sender_report_timestamp: u32,
    delay_since_last_sender_report_timestamp: u32,
) -> RtcpReceptionBlock
    ensures { result ≡ report_result (report_block (reception_in reception) ssrc last_sender_report_timestamp delay_since_last_sender_report_timestamp) }
{
    receive::rtcp_reception_report_block(
        reception,
        ssrc,
        last_sender_report_timestamp,
        delay_since_last_sender_report_timestamp,
    )
}
