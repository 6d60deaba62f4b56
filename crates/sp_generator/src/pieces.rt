// Pieces of the made input, each from its own place.
ghost use Rattle.std.specs.Prelude.{◌≡◌, ◌≤◌, ◌<◌, ◌^◌, [], ◌∷◌, take, drop, IfOk, MatchOption};
ghost use Rattle.sp_generator.specs.Input.{size_of, records, input};
ghost use Rattle.sp_generator.specs.inside.Ahead.{bytes_of, IsSmall};

use sp_base::{ByteList, NoMemory};
use std::alloc::Global;

/// How many records make a block, after which the lengths begin anew.
const RECORDS: u64 = 64;

/// How many bytes a block has.
const BYTES: u64 = 2080;

/// What is ahead at a place of the input: the bytes that are left of a record, and the records behind it.
#[derive(Clone, Copy)]
struct Ahead {
    /// The number from which the next byte of the record is made.
    value: u64,
    /// How many bytes of the record are left.
    left: u64,
    /// The number of the next record.
    next: u64,
    /// How many records the input has.
    end: u64,
}

/// How many bytes follow the first one of a record.
fn size_of(number: u64) -> u64
    requires { number < 2 ^ 33 }
    ensures value { result ≡ size_of number }
    ensures small { result < 64 }
{
    (7 * number + 3) % 64
}

impl Ahead {
    /// What is ahead of a place, which is found from its block's first record on.
    fn at(count: u64, place: u64) -> Ahead
        requires { count ≤ 2 ^ 32 }
        ensures small { IsSmall result }
        ensures value { bytes_of result ≡ drop place (records 0 count) }
    {
        let mut next = place / BYTES * RECORDS;
        let mut skipped = place % BYTES;
        'skipping: while next < count && size_of(next) < skipped {
            skipped -= size_of(next) + 1;
            next += 1;
        }
        if next < count && 0 < skipped {
            Ahead {
                value: next + skipped - 1,
                left: size_of(next) + 1 - skipped,
                next: next + 1,
                end: count,
            }
        } else {
            Ahead {
                value: 0,
                left: 0,
                next,
                end: count,
            }
        }
    }

    /// Takes the next byte.
    fn next(&mut self) -> Option<u8>
        requires { IsSmall self.old }
        ensures small { IsSmall self.new }
        ensures value { MatchOption result
            ((bytes_of self.old ≡ []) × (bytes_of self.new ≡ []))
            (λ byte. bytes_of self.old ≡ byte ∷ bytes_of self.new) }
    {
        if 0 < self.left {
            let byte = (self.value % 256) as u8;
            self.value += 1;
            self.left -= 1;
            Some(byte)
        } else if self.next < self.end {
            let size = size_of(self.next);
            self.value = self.next;
            self.left = size;
            self.next += 1;
            Some(size as u8)
        } else {
            None
        }
    }
}

/// The bytes of the input of `n` records from place `from` on, at most `most` of them, and none at or past its end. The time depends
/// on how many these are, and not on `n` or `from`.
pub fn gen_piece(alloc: Global, n: u64, from: u64, most: u64) -> Result<ByteList, NoMemory>
    requires { n ≤ 2 ^ 32 }
    ensures { IfOk result (λ piece. piece ≡ take most (drop from (input n))) }
{
    let mut piece = ByteList::new(alloc);
    let mut ahead = Ahead::at(n, from);
    'bytes: while (piece.len() as u64) < most {
        match ahead.next() {
            Some(byte) => piece.push(byte)?,
            None => break,
        }
    }
    Ok(piece)
}
