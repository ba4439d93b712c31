//! The sources of random words of a run.

use rand_chacha::ChaCha8Rng;
use rand_core::SeedableRng;

/// The generator for this seed and this run, at this stream.
pub fn chacha(seed: u64, number: u64, stream: u64) -> ChaCha8Rng {
    let mut bytes = [0u8; 32];
    bytes[..8].copy_from_slice(&seed.to_le_bytes());
    bytes[8..16].copy_from_slice(&number.to_le_bytes());
    let mut rng = ChaCha8Rng::from_seed(bytes);
    rng.set_stream(stream);
    rng
}
