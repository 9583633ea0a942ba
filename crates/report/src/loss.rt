// Cumulative lost: its limits, its 24 bits, and the number that they are read as.
#![tactic(auto, using(crate::proofs::Losses::losses))]

ghost use Rattle.std.specs.Prelude.{◌≡◌, ◌%◌, ◌<◌};
ghost use Rattle.std.specs.Int.Signed.{mag};
ghost use Rattle.rfc3550.specs.Loss.{loss_bits, loss_of, loss_in, loss_shown};

// The greatest loss; the least is one further from 0.
pub const MAX_LOSS: u32 = 8388607;

// How far a loss is from 0 or, where it is below 0, from -1.
pub fn loss_magnitude(loss: i32) -> u32
    ensures { (result ≡ mag loss) × (result < 2147483648) }
{
    if loss < 0 {
        return (-1 - loss) as u32;
    }
    loss as u32
}

// A loss fits its 24 bits.
pub fn check_loss(loss: i32) -> bool
    ensures { result ≡ loss_in loss }
{
    loss_magnitude(loss) <= MAX_LOSS
}

// The 24 bits of a loss.
pub fn loss_bits(loss: i32) -> u32
    ensures { (result ≡ loss_bits loss) × (result < 16777216) }
{
    (loss & 16777215) as u32
}

// The loss that the low 24 bits of a word are read as, without a branch.
pub fn loss_of(word: u32) -> i32
    ensures { result ≡ loss_of (word % 16777216) }
{
    ((word % 16777216 + 8388608) % 16777216) as i32 - 8388608
}

// The low 32 bits of a loss, which refusal 17 shows.
pub fn loss_shown(loss: i32) -> u32
    ensures { result ≡ loss_shown loss }
{
    loss.cast_unsigned()
}
