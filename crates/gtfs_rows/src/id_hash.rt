//! The hash by which ids are looked up.

use std::hash::{BuildHasher, DefaultHasher, Hasher, RandomState};
use std::random::RandomSource;

/// The hash by which ids are looked up: SipHash-1-3 with a key. A stranger who doesn't know the key can't make
/// ids that collide, so the time to look up many ids is proportional to their number, not to its square. What
/// is read never depends on the key.
#[derive(Clone, Copy)]
pub struct IdHash {
    // the state in which each hash begins
    initial: DefaultHasher,
}

impl IdHash {
    /// Returns the hash with a random key, for ids that a stranger may have made. If the system gives no random
    /// bytes, the key is 0.
    pub fn random(source: &impl RandomSource) -> IdHash {
        match RandomState::new(source) {
            Ok(keys) => IdHash {
                initial: keys.build_hasher(),
            },
            Err(_) => IdHash::of_key(0),
        }
    }

    /// Returns the hash with a given key, which others may know, for ids that weren't made to collide.
    pub fn of_key(key: u64) -> IdHash {
        let mut initial = DefaultHasher::new();
        initial.write_u64(key);
        IdHash { initial }
    }
}

impl BuildHasher for IdHash {
    type Hasher = DefaultHasher;

    ghost build_hasher = { λ hash. hash.initial };

    fn build_hasher(&self) -> DefaultHasher {
        self.initial
    }
}
