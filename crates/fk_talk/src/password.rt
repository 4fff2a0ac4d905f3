// The hash of a password.
ghost use Rattle.std.specs.Prelude.{◌≡◌, ◌≤◌, ◌++◌, ◌↔◌, bytes_eq, length};
ghost use Rattle.sha2.specs.Sha256.{sha256};
ghost use Rattle.hex.specs.Hex.{encode_lower};
ghost use Rattle.fk_model.specs.Handshake as spec;

use sha2::{Digest, Sha256};

/// The hash that a client tells of a password: SHA-256 of the password with the salt behind it, then
/// of what came, and so on, in hexadecimal digits. It takes no memory.
#[tactic(auto, using(crate::proofs::Rounds::one_round, crate::proofs::Rounds::no_round))]
pub fn pass_hash(password: &[u8], salt: &[u8], rounds: u32) -> [u8; 64]
    requires { 1 ≤ rounds }
    ensures { result ≡ spec.pass_hash password.now salt.now rounds }
{
    let mut hash = first_hash(password, salt);
    'rounds: for _round in 1..rounds {
        hash = hash_of(&hash);
    }
    digits_of(&hash)
}

/// The hash of a password with the salt behind it.
fn first_hash(password: &[u8], salt: &[u8]) -> [u8; 32]
    ensures { result ≡ sha256 (password.now ++ salt.now) }
{
    let mut hasher = Sha256::new();
    hasher.update(password);
    hasher.update(salt);
    hasher.finalize()
}

fn hash_of(bytes: &[u8]) -> [u8; 32]
    ensures { result ≡ sha256 bytes.now }
{
    let mut hasher = Sha256::new();
    hasher.update(bytes);
    hasher.finalize()
}

fn digits_of(hash: &[u8; 32]) -> [u8; 64]
    ensures { result ≡ encode_lower hash.now }
{
    let mut digits = [0; 64];
    hex::encode_to_slice(hash.as_slice(), &mut digits).unwrap();
    digits
}

/// The salt's text: the word in hexadecimal digits.
pub(crate) fn salt_text(word: u64) -> [u8; 16]
    ensures { result ≡ spec.salt_text word }
{
    let mut digits = [0; 16];
    hex::encode_to_slice(word.to_be_bytes().as_slice(), &mut digits).unwrap();
    digits
}

/// Whether two texts are the same. Those of one length are compared to their end, wherever they differ
/// first.
pub(crate) fn is_same(one: &[u8], other: &[u8]) -> bool
    ensures { result ≡ bytes_eq one.now other.now }
{
    one.len() == other.len() && differences(one, other) == 0
}

/// The bits in which two texts of one length differ, of all their bytes.
fn differences(one: &[u8], other: &[u8]) -> u8
    requires { length one.now ≡ length other.now }
    ensures { (result ≡ 0) ↔ (one.now ≡ other.now) }
{
    let mut differs = 0;
    'bytes: for at in 0..one.len() {
        differs |= one[at] ^ other[at];
    }
    differs
}
