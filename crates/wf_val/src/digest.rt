//! The digest of a definition.

/// A SHA-256 digest (FIPS 180-4), its first byte first. Two definitions are taken for one where their digests agree.
#[derive(Clone, Copy, PartialEq, Eq, Debug)]
pub struct Digest {
    pub bytes: [u8; 32],
}
