//! A consumer's source of random words.
ghost use Rattle.std.specs.Prelude.{◌≡◌};
ghost use Rattle.mb_program.specs.Source.{source_from};

use rand_chacha::ChaCha8Rng;
use rand_core::SeedableRng;

/// The source of this consumer. It is the generator of the seed's eight bytes, the lowest first, and 24 zeros. Its
/// stream has the consumer's number.
pub fn source_of(seed: u64, consumer: u32) -> ChaCha8Rng
    ensures { result ≡ source_from seed consumer }
{
    let mut bytes = [0u8; 32];
    bytes[..8].copy_from_slice(&seed.to_le_bytes());
    let mut rng = ChaCha8Rng::from_seed(bytes);
    rng.set_stream(u64::from(consumer));
    rng
}
