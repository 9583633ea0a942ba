// The figures of A.1, A.8 and A.3, from numbers.
ghost use Rattle.std.specs.Prelude.{◌≡◌, nat_lt};
ghost use Rattle.rfc3550.specs.Answer.{pick};
ghost use Rattle.rfc3550.specs.Reception.{plus32, signed32, jitter_after, clamped, fraction_lost};

use report::loss::MAX_LOSS;

// The limits of a loss, whose 24 bits are a signed number.
const MOST_LOSS: i32 = MAX_LOSS as i32;

const LEAST_LOSS: i32 = -1 - MOST_LOSS;

// 65,536 more where the sequence numbers wrapped.
pub fn cycles_after(cycles: u32, max_seq: u16, seq: u16) -> u32
    ensures { result ≡ pick (nat_lt seq max_seq) (plus32 cycles 65536) cycles }
{
    if seq < max_seq {
        return cycles.wrapping_add(65536);
    }
    cycles
}

// The jitter, scaled by 16, after a packet with that transit; the first packet leaves it.
pub fn jitter_after(first: bool, jitter: u32, old: u32, transit: u32) -> u32
    ensures { result ≡ jitter_after first jitter old transit }
{
    if first {
        return jitter;
    }
    let d = transit.wrapping_sub(old).cast_signed().unsigned_abs();
    jitter
        .wrapping_add(d)
        .wrapping_sub(jitter.wrapping_add(8) / 16)
}

// A loss modulo 2^32, read as signed and clamped to 24 bits.
pub fn clamped(lost: u32) -> i32
    ensures { result ≡ clamped (signed32 lost) }
{
    lost.cast_signed().clamp(LEAST_LOSS, MOST_LOSS)
}

// The part of the packets expected that is lost, in 256ths and at most 255.
pub fn fraction_lost(lost: u32, expected: u32) -> u8
    ensures { result ≡ fraction_lost (signed32 lost) expected }
{
    if lost.cast_signed() < 0 || expected == 0 {
        return 0;
    }
    (lost as u64 * 256 / expected as u64).min(255) as u8
}
