// Numbers, zeros, runs of bytes, headers and padding laid into a buffer (utils.rs, `writer`). Those named `.._unchecked` are
// called where the bytes are known to fit.
#![tactic(auto, using(crate::proofs::WriterCases::writer))]

ghost use Rattle.std.specs.Prelude.{◌≡◌, ◌+◌, ◌%◌, ◌≤◌, ◌<◌, length, take, drop, replicate};
ghost use Rattle.rfc3550.specs.Bytes.{be, store};
ghost use Rattle.rfc3550.specs.Packet.{fill};
ghost use Rattle.rfc3550.specs.Write.{padding_ok, padding_bytes};
ghost use Rattle.utils.specs.Writer.{first_byte, header};

use crate::error::RtcpWriteError;
use crate::parser;

// What the 5 low bits of a header hold: the most blocks, chunks or sources, and the greatest subtype.
pub const MAX_COUNT: usize = 31;

// The bytes of the greatest length that a header states.
pub const MAX_PACKET_LEN: usize = 262144;

// Bytes laid into a buffer from an index on, as many as the array has.
fn write_array<const N: usize>(buf: &mut [u8], at: usize, bytes: [u8; N])
    requires { at + N ≤ length buf.old }
    ensures { buf.new ≡ store at bytes.entry buf.old }
{
    buf[at..at + N].copy_from_slice(&bytes);
}

pub fn write_u16_unchecked(buf: &mut [u8], at: usize, v: u16)
    requires { at + 2 ≤ length buf.old }
    ensures { buf.new ≡ store at (be 2 v) buf.old }
{
    write_array::<2>(buf, at, v.to_be_bytes());
}

pub fn write_u32_unchecked(buf: &mut [u8], at: usize, v: u32)
    requires { at + 4 ≤ length buf.old }
    ensures { buf.new ≡ store at (be 4 v) buf.old }
{
    write_array::<4>(buf, at, v.to_be_bytes());
}

pub fn write_u64_unchecked(buf: &mut [u8], at: usize, v: u64)
    requires { at + 8 ≤ length buf.old }
    ensures { buf.new ≡ store at (be 8 v) buf.old }
{
    write_array::<8>(buf, at, v.to_be_bytes());
}

pub fn write_zeros_unchecked(buf: &mut [u8], at: usize, n: usize)
    requires { at + n ≤ length buf.old }
    ensures { buf.new ≡ store at (replicate n 0) buf.old }
{
    buf[at..at + n].fill(0);
}

// The zeros from an index up to the word boundary after it, one to four. Without a loop: a loop over so few is compiled to a call.
#[tactic(auto, using(crate::proofs::WriterCases::fills))]
pub fn write_fill_unchecked(buf: &mut [u8], at: usize)
    requires { at + fill at ≤ length buf.old }
    ensures { buf.new ≡ store at (replicate (fill at) 0) buf.old }
{
    match at % 4 {
        0 => write_u32_unchecked(buf, at, 0),
        1 => {
            buf[at] = 0;
            write_u16_unchecked(buf, at + 1, 0);
        }
        2 => write_u16_unchecked(buf, at, 0),
        _ => buf[at] = 0,
    }
}

// N bytes of src from index k on, each laid as far behind index at as it stands in src. That there is room for src stands at each function down from
// write_bytes_unchecked, and in no struct, which would hold the buffer, the index and the bytes only to be taken apart here.
fn copy<const N: usize>(buf: &mut [u8], at: usize, src: &[u8], k: usize)
    requires { (k + N ≤ length src.now) × (at + length src.now ≤ length buf.old) }
    ensures { buf.new ≡ store (at + k) (take N (drop k src.now)) buf.old }
{
    write_array(buf, at + k, parser::bytes_at::<N>(src, k));
}

// The first N bytes and the last N, which may share some.
fn copy_ends<const N: usize>(buf: &mut [u8], at: usize, src: &[u8])
    requires { (N ≤ length src.now) × (length src.now ≤ N + N) × (at + length src.now ≤ length buf.old) }
    ensures { buf.new ≡ store at src.now buf.old }
{
    copy::<N>(buf, at, src, 0);
    copy::<N>(buf, at, src, src.len() - N);
}

// Sixteen of them as two eights, and thirty-two as four: as one array they are copied through wider registers, and the compiler unrolls the loop over
// them, which takes 27 instructions more for an RR and an SDES and misses the bar.
fn copy_sixteen(buf: &mut [u8], at: usize, src: &[u8], k: usize)
    requires { (k + 16 ≤ length src.now) × (at + length src.now ≤ length buf.old) }
    ensures { buf.new ≡ store (at + k) (take 16 (drop k src.now)) buf.old }
{
    copy::<8>(buf, at, src, k);
    copy::<8>(buf, at, src, k + 8);
}

fn copy_thirty_two(buf: &mut [u8], at: usize, src: &[u8], k: usize)
    requires { (k + 32 ≤ length src.now) × (at + length src.now ≤ length buf.old) }
    ensures { buf.new ≡ store (at + k) (take 32 (drop k src.now)) buf.old }
{
    copy_sixteen(buf, at, src, k);
    copy_sixteen(buf, at, src, k + 16);
}

// Less than eight bytes.
fn write_few(buf: &mut [u8], at: usize, src: &[u8])
    requires { (length src.now < 8) × (at + length src.now ≤ length buf.old) }
    ensures { buf.new ≡ store at src.now buf.old }
{
    let n = src.len();
    if 4 <= n {
        copy_ends::<4>(buf, at, src);
        return;
    }
    if 2 <= n {
        copy_ends::<2>(buf, at, src);
        return;
    }
    if 0 < n {
        buf[at] = src[0];
    }
}

// More than 32 bytes, and the last 32, which may share some with those before.
fn write_many(buf: &mut [u8], at: usize, src: &[u8])
    requires { (32 ≤ length src.now) × (at + length src.now ≤ length buf.old) }
    ensures { buf.new ≡ store at src.now buf.old }
{
    let last = src.len() - 32;
    for k in (0..last).step_by(32) {
        copy_thirty_two(buf, at, src, k);
    }
    copy_thirty_two(buf, at, src, last);
}

// Up to 32 bytes without a loop: most texts are short.
pub fn write_bytes_unchecked(buf: &mut [u8], at: usize, src: &[u8])
    requires { at + length src.now ≤ length buf.old }
    ensures { buf.new ≡ store at src.now buf.old }
{
    let n = src.len();
    if n < 8 {
        write_few(buf, at, src);
        return;
    }
    if n <= 16 {
        copy_ends::<8>(buf, at, src);
        return;
    }
    if n <= 32 {
        copy_sixteen(buf, at, src, 0);
        copy_sixteen(buf, at, src, n - 16);
        return;
    }
    write_many(buf, at, src);
}

// Version 2, P and the low 5 bits.
fn first_byte(padding: u64, count: u8) -> u8
    requires { count < 32 }
    ensures { result ≡ first_byte padding count }
{
    if padding == 0 {
        return 128 + count;
    }
    160 + count
}

// The header of a packet of so many bytes, at the start of buf. Four numbers, and no struct of them: each caller would make it only to be taken apart here.
pub fn write_header_unchecked(buf: &mut [u8], padding: u64, count: u8, packet_type: u8, size: usize)
    requires { (count < 32) × (4 ≤ size) × (size ≤ 262144) × (4 ≤ length buf.old) }
    ensures { buf.new ≡ store 0 (header padding count packet_type size) buf.old }
{
    let words = size / 4 - 1;
    buf[0] = first_byte(padding, count);
    buf[1] = packet_type;
    write_u16_unchecked(buf, 2, words as u16);
}

// Zeros, and the count last.
pub fn write_padding_unchecked(buf: &mut [u8], at: usize, padding: u64)
    requires { (padding ≤ 252) × (at + padding ≤ length buf.old) }
    ensures { buf.new ≡ store at (padding_bytes padding) buf.old }
{
    if padding == 0 {
        return;
    }
    let n = padding as usize - 1;
    write_zeros_unchecked(buf, at, n);
    buf[at + n] = padding as u8;
}

// Padding is 0 or a multiple of 4 up to 252.
pub fn check_padding(padding: u64) -> bool
    ensures { result ≡ padding_ok padding }
{
    if padding % 4 != 0 {
        return false;
    }
    padding < 256
}
