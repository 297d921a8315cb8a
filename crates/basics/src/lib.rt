// Numbers of two and of four bytes, big-endian, read from a slice and written to one. Every place is taken: a byte past the end
// reads as 0, and is not written. Which refusals there are is in `refusal`, whether settings fit in `settings`, whether a
// capture's size does in `capture`.
#![tactic(auto)]

pub mod capture;
pub mod refusal;
pub mod settings;

ghost use Rattle.std.specs.Prelude.{◌≡◌};
ghost use Rattle.std.proofs.lemmas.List.Edits.{sets};
ghost use Rattle.basics.specs.Bytes.{two_at, four_at, two_bytes, four_bytes, bytes_at};

use std::cmp::min;

// As many bytes from a place on.
fn bytes_at<const SIZE: usize>(s: &[u8], at: usize) -> [u8; SIZE]
    ensures { result ≡ bytes_at SIZE s.now at }
{
    let mut bytes = [0; SIZE];
    if at < s.len() {
        let size = min(SIZE, s.len() - at);
        bytes[..size].copy_from_slice(&s[at..at + size]);
    }
    bytes
}

#[tactic(auto, unfolding(crate::specs::Bytes::two_at))]
pub fn two_at(s: &[u8], at: usize) -> u16
    ensures { result ≡ two_at s.now at }
{
    u16::from_be_bytes(bytes_at(s, at))
}

#[tactic(auto, unfolding(crate::specs::Bytes::two_at, crate::specs::Bytes::four_at))]
pub fn four_at(s: &[u8], at: usize) -> u32
    ensures { result ≡ four_at s.now at }
{
    u32::from_be_bytes(bytes_at(s, at))
}

fn put_bytes(s: &mut [u8], at: usize, bytes: &[u8])
    ensures { s.new ≡ sets s.old at bytes.now }
{
    if at < s.len() {
        let size = min(bytes.len(), s.len() - at);
        s[at..at + size].copy_from_slice(&bytes[..size]);
    }
}

pub fn put_two(s: &mut [u8], at: usize, v: u16)
    ensures { s.new ≡ sets s.old at (two_bytes v) }
{
    put_bytes(s, at, &u16::to_be_bytes(v));
}

pub fn put_four(s: &mut [u8], at: usize, v: u32)
    ensures { s.new ≡ sets s.old at (four_bytes v) }
{
    put_bytes(s, at, &u32::to_be_bytes(v));
}
