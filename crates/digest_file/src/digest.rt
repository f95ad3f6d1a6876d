// The digest of bytes, written after them and looked for there.
ghost use Rattle.std.specs.Prelude.{◌≡◌, ◌<◌, ◌≤◌, ◌++◌, MatchOption, MatchResult, OnErr, OnOk, drop, length, take};
ghost use Rattle.sha2.specs.Sha256.{sha256};
ghost use Rattle.mt_values.specs.Manifests.{IsMarkOf, with_digest};
ghost use Rattle.digest_file.specs.Frames.{MissesDigest, PartAt};

use byte_numbers::FormatFault;
use mt_base::NoMemory;
use mt_values::{Bytes, FileMark};
use sha2::{Digest, Sha256};

/// The size and the SHA-256 of bytes. Takes no memory.
pub fn mark_of(bytes: &[u8]) -> FileMark
    ensures { IsMarkOf sha256 result bytes.now }
{
    FileMark {
        size: bytes.len() as u64,
        digest: digest_of(bytes),
    }
}

/// The SHA-256 of bytes. Takes no memory.
fn digest_of(bytes: &[u8]) -> [u8; 32]
    ensures { result ≡ sha256 bytes.now }
{
    let mut hasher = Sha256::new();
    hasher.update(bytes);
    hasher.finalize()
}

/// Adds the digest of the bytes after them.
///
/// `NoMemory` where the allocation failed; the bytes stay as they were.
pub fn push_digest(bytes: &mut Bytes) -> Result<(), NoMemory>
    ensures ok { OnOk result (bytes.new ≡ with_digest sha256 bytes.old) }
    ensures err { OnErr result (bytes.new ≡ bytes.old) }
{
    let digest = digest_of(bytes.as_slice());
    bytes.extend(&digest)
}

/// Nothing, where the bytes from a place on are the digest of those before it.
///
/// `Malformed` at the first byte that is not the digest's, where bytes are missing at their end, and at the first after the digest.
pub fn check_digest(bytes: &[u8], end: usize) -> Result<(), FormatFault>
    requires { end ≤ length bytes.now }
    ensures { MatchResult result (λ _. bytes.now ≡ with_digest sha256 (take end bytes.now))
        (MissesDigest bytes.now end) }
{
    let digest = digest_of(&bytes[..end]);
    let behind = &bytes[end..];
    if let Some(place) = difference(behind, &digest) {
        return Err(FormatFault::Malformed {
            place: (end + place) as u64,
        });
    }
    if behind.len() > digest.len() {
        return Err(FormatFault::Malformed {
            place: (end + digest.len()) as u64,
        });
    }
    Ok(())
}

/// The first place at which the bytes end or do not go on as the others do; none where they begin with all of these.
pub fn difference(bytes: &[u8], wanted: &[u8]) -> Option<usize>
    ensures { MatchOption result (bytes.now ≡ wanted.now ++ drop (length wanted.now) bytes.now)
        (λ place. (place < length wanted.now) × PartAt bytes.now wanted.now place) }
{
    for (place, byte) in wanted.iter().enumerate() {
        if place >= bytes.len() || bytes[place] != *byte {
            return Some(place);
        }
    }
    None
}
