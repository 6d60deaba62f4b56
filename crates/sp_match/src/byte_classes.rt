// Bytes that no spot tells apart, as one class.
ghost use Rattle.std.specs.Prelude.{◌≡◌, ℕ, ◌+◌, ◌<◌, length, true, false, Option, Some, None, IfOk, OnOk};
ghost use Rattle.std.proofs.Common.{get_or};
ghost use Rattle.sp_match.specs.Tables.{reads_byte as byte_is_read, Alike, AreClasses};

use crate::classes::contains;
use crate::spot::Spot;
use sp_base::NoMemory;
use std::alloc::Global;

/// Whether a spot reads a byte.
pub fn reads_byte(spot: &Spot, byte: u8) -> bool
    ensures { result ≡ byte_is_read spot.now byte }
{
    match spot {
        Spot::Byte { bytes, .. } => contains(bytes, byte),
        _ => false,
    }
}

/// Whether each spot reads both bytes or neither.
fn are_alike(net: &[Spot], byte: u8, other: u8) -> bool
    ensures { result ≡ true → Alike net.now byte other }
{
    for i in 0..net.len() {
        if reads_byte(&net[i], byte) != reads_byte(&net[i], other) {
            return false;
        }
    }
    true
}

/// The class that a byte is like.
fn class_like(net: &[Spot], firsts: &[u8], byte: u8) -> Option<u8>
    ensures within { (class : ℕ) → result ≡ Some class → class < length firsts.now }
    ensures like { (class : ℕ) → result ≡ Some class
        → Alike net.now (get_or firsts.now class 0) byte }
{
    for i in 0..firsts.len() {
        if i < 256 && are_alike(net, firsts[i], byte) {
            return Some(i as u8);
        }
    }
    None
}

/// Puts a byte behind those that have their classes.
fn add_byte(net: &[Spot], of: &mut Vec<u8>, firsts: &mut Vec<u8>, byte: u8) -> Result<(), NoMemory>
    requires few { length firsts.old.items < 256 }
    ensures classes { AreClasses net.now of.old.items firsts.old.items byte
        → OnOk result (AreClasses net.now of.new.items firsts.new.items (byte + 1)) }
    ensures few { OnOk result (length firsts.new.items < length firsts.old.items + 2) }
{
    match class_like(net, firsts, byte) {
        Some(class) => of.push(class)?,
        None => {
            let class = firsts.len() as u8;
            firsts.push(byte)?;
            of.push(class)?;
        }
    }
    Ok(())
}

/// The class of each byte, and the first byte of each class.
#[derive(Drop)]
pub struct ByteClasses {
    pub(crate) of: Vec<u8>,
    pub(crate) firsts: Vec<u8>,
}

/// The classes of all bytes.
pub fn byte_classes(alloc: Global, net: &[Spot]) -> Result<ByteClasses, NoMemory>
    ensures { IfOk result (λ classes.
        AreClasses net.now classes.of.items classes.firsts.items 256) }
{
    let mut of = Vec::new(alloc);
    let mut firsts = Vec::new(alloc);
    for byte in 0..256usize {
        add_byte(net, &mut of, &mut firsts, byte as u8)?;
    }
    Ok(ByteClasses { of, firsts })
}
