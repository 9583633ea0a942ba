// Datagrams, and the walk over their packets.
ghost use Rattle.std.specs.Prelude.{◌≡◌};
ghost use Rattle.rfc3550.specs.Answer.{map_ok};
ghost use Rattle.rfc3550.specs.Compound.{read_compound};
ghost use Rattle.rfc3550.specs.Walk.{open_walk, step};
ghost use Rattle.utils.specs.List.{lay_list};
ghost use Rattle.compound.specs.Compound.{compound_view, packet_rows, walk_at, step_view};
ghost use Rattle.rtcp.specs.Compound.{compound_result, walk_result, step_result};
ghost use Rattle.rtcp.specs.WriteResult.{written_with_buffer};

use rtcp::read_compound;
use rtcp::read_compound::{RtcpCompound, RtcpStep, RtcpWalk};
use rtcp::write_result::RtcpWritten;

#[unsafe(no_mangle)]
pub extern "C" fn rtcp_compound_parse(s: &[u8]) -> RtcpCompound
    ensures { result ≡ compound_result (map_ok compound_view (read_compound s.now)) }
{
    read_compound::rtcp_compound_parse(s)
}

// Three numbers for each packet, in order, into a lent list: its type, its offset in the datagram and its length.
#[unsafe(no_mangle)]
pub extern "C" fn rtcp_compound_packets(s: &[u8], packets: &mut [u64]) -> RtcpWritten
    ensures { (result, packets.new) ≡ written_with_buffer (lay_list (map_ok packet_rows (read_compound s.now)) packets.old) }
{
    read_compound::rtcp_compound_packets(s, packets)
}

#[unsafe(no_mangle)]
pub extern "C" fn rtcp_walk_open(s: &[u8]) -> RtcpWalk
    ensures { result ≡ walk_result (map_ok walk_at (open_walk s.now)) }
{
    read_compound::rtcp_walk_open(s)
}

#[unsafe(no_mangle)]
pub extern "C" fn rtcp_walk_step(s: &[u8], at: u64) -> RtcpStep
    ensures { result ≡ step_result at (map_ok step_view (step s.now at)) }
{
    read_compound::rtcp_walk_step(s, at)
}
