ghost use Rattle.std.specs.Prelude.{◌≡◌, ◌+◌, ◌-◌, ◌*◌, ◌^◌, ◌<◌, ◌≤◌};
ghost use Rattle.field.specs.Modulus.{bit_length, half_of};

use crate::Field;

/// How many bits the modulus has in binary.
pub fn bits<F: Field>() -> u32
    ensures is { result ≡ bit_length F.modulus }
    ensures low { 2 ^ (result - 1) ≤ F.modulus }
    ensures high { F.modulus < 2 ^ result }
{
    u32::BITS - F::characteristic().leading_zeros()
}

/// Half of the way to the modulus, rounded down: the numbers up to it double without passing the modulus.
pub fn half<F: Field>() -> u32
    ensures is { result ≡ half_of F.modulus }
    ensures twice { 2 * result + 1 ≡ F.modulus }
{
    F::characteristic() / 2
}
