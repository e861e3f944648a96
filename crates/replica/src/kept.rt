//! Digests that are kept, to be compared with those of others.
ghost use Rattle.std.specs.{Prelude.{◌≡◌, ◌==◌, OnOk, OnErr, IfOk, [], nat_eq}, List.{starts_with}, Map.{lookup}};
ghost use Rattle.{
  hex.specs.Hex.{encode_lower},
  lru.specs.LruCache.{last_entry},
  replica.specs.Replicas.{is_before, judged, used},
};

use crate::outcome::ReplicaFault;
use hex::encode_to_slice;
use lru::LruCache;
use std::alloc::{AllocError, Global};
use std::marker::Model;
use std::num::NonZeroUsize;

/// So many digests are kept at most.
const MOST_KEPT: usize = 4096;

/// The digests behind the last entries, by their positions. Each method takes a time that does not depend on how many
/// there are.
#[derive(Drop)]
pub(crate) struct Kept {
    digests: LruCache<u64, [u8; 32]>,
}

impl Model for Kept {
    ghost use Rattle.std.specs.Prelude.{List, ℕ, ◌≡◌};

    ghost Value = { List (ℕ × List ℕ) };

    ghost view = { λ k. k.digests.entries };

    ghost invariant = { λ k. k.digests.cap ≡ 4096 };
}

/// Whether the digest begins with these hexadecimal digits.
fn begins_with(digest: [u8; 32], digits: &[u8]) -> bool
    ensures { result ≡ starts_with nat_eq (encode_lower digest) digits.now }
{
    let mut text = [0_u8; 64];
    if encode_to_slice(digest.as_slice(), &mut text).is_err() {
        unreachable!()
    }
    text.starts_with(digits)
}

/// Compares digits of another one's digest with the one that is kept. Where none is, they may be those of an entry
/// before all that are kept.
pub(crate) fn judge(
    digest: Option<[u8; 32]>,
    before: bool,
    digits: &[u8],
) -> Result<(), ReplicaFault>
    ensures { result ≡ judged digest before digits.now }
{
    match digest {
        Some(digest) => {
            if begins_with(digest, digits) {
                Ok(())
            } else {
                Err(ReplicaFault::Diverged)
            }
        }
        None => {
            if before {
                Ok(())
            } else {
                Err(ReplicaFault::Missing)
            }
        }
    }
}

impl Kept {
    /// None is kept. The error is want of memory.
    pub(crate) fn new(alloc: Global) -> Result<Kept, AllocError>
        ensures { IfOk result (λ k. k ≡ []) }
    {
        let Some(most) = NonZeroUsize::new(MOST_KEPT) else {
            unreachable!()
        };
        Ok(Kept {
            digests: LruCache::sparse(alloc, most)?,
        })
    }

    /// The digest behind the entry at the position, if it is kept.
    pub(crate) fn find(&self, position: u64) -> Option<[u8; 32]>
        ensures { result ≡ lookup (λ p. position == p) self.now }
    {
        self.digests.peek(&position).copied()
    }

    /// Whether the position is before all that are kept.
    pub(crate) fn is_before(&self, position: u64) -> bool
        ensures { result ≡ is_before position (last_entry self.now) }
    {
        match self.digests.peek_lru() {
            Some((oldest, _)) => position < *oldest,
            None => true,
        }
    }

    /// Keeps the digest behind the entry at the position. The error is want of memory; nothing has changed then.
    pub(crate) fn put(&mut self, position: u64, digest: [u8; 32]) -> Result<(), AllocError>
        ensures ok { OnOk result (self.new ≡ used position digest self.old) }
        ensures err { OnErr result (self.new ≡ self.old) }
    {
        let _count = self.digests.len();
        self.digests.put(position, digest)?;
        Ok(())
    }
}
