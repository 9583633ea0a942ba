// Rows of reception figures: a state is ten numbers, in the order of its fields.
ghost use Rattle.std.specs.Prelude.{◌≡◌, ◌%◌, ◌^◌, ◌<◌};

use super::answer::{Answer, print_figures};
use super::operation::Receiving;
use super::print::numbers;
use super::row::{NUMBERS, Row};
use rtcp::receive;
use rtcp::receive::RtcpReception;
use std::io;

fn low16(a: u32) -> u16
    ensures { result ≡ a % 2 ^ 16 }
{
    (a % 65536) as u16
}

fn given(row: &Row) -> RtcpReception {
    RtcpReception {
        max_seq: low16(row.number(0)),
        cycles: row.number(1),
        base_seq: row.number(2),
        bad_seq: row.number(3),
        probation: row.number(4),
        received: row.number(5),
        expected_prior: row.number(6),
        received_prior: row.number(7),
        transit: row.number(8),
        jitter: row.number(9),
    }
}

// `0 SEQ TIMESTAMP ARRIVAL`, a packet, or `1 SSRC LSR DLSR`, a block, from a place on; the state after it.
fn event(to: &mut Vec<u8>, s: RtcpReception, row: &Row, at: usize) -> io::Result<RtcpReception>
    requires { at < NUMBERS }
{
    let first: u32 = row.number(at + 1);
    let second: u32 = row.number(at + 2);
    let third: u32 = row.number(at + 3);
    if row.number::<u32>(at) == 0 {
        let r = receive::rtcp_reception_update(s, low16(first), second, third);
        numbers(to, &[r.accepted])?;
        return Ok(r.reception);
    }
    let r = receive::rtcp_reception_report_block(s, first, second, third);
    numbers(to, &[r.in_probation])?;
    print_figures(to, &r.block)?;
    Ok(r.reception)
}

// `END FIRST`, then events up to place END.
fn history(to: &mut Vec<u8>, row: &Row) -> io::Result<()> {
    let end = (row.number::<u32>(0) as usize).min(NUMBERS);
    let mut s = receive::rtcp_reception_new(low16(row.number(1)));
    for at in (2..end).step_by(4) {
        s = event(to, s, row, at)?;
    }
    s.print(to)
}

fn update(to: &mut Vec<u8>, row: &Row) -> io::Result<()> {
    let seq = low16(row.number(10));
    let r = receive::rtcp_reception_update(given(row), seq, row.number(11), row.number(12));
    r.print(to)
}

fn report_block(to: &mut Vec<u8>, row: &Row) -> io::Result<()> {
    let ssrc: u32 = row.number(10);
    let r = receive::rtcp_reception_report_block(given(row), ssrc, row.number(11), row.number(12));
    r.print(to)
}

pub fn row(to: &mut Vec<u8>, receiving: Receiving, row: &Row) -> io::Result<()> {
    match receiving {
        Receiving::New => receive::rtcp_reception_new(low16(row.number(0))).print(to),
        Receiving::Update => update(to, row),
        Receiving::ReportBlock => report_block(to, row),
        Receiving::History => history(to, row),
    }
}
