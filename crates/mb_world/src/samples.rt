//! Samples of the definitions: what they admit, and what only looks right. The functions compute nothing: their
//! contracts are the samples. A proof that the prover does not find alone has a folder in `proofs/samples/`.
pub mod paths;
pub mod reports;
pub mod worlds;
