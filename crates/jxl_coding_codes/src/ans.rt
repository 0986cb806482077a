//! Slots of a distribution: what each of the 4096 numbers stands for.

ghost use Rattle.std.specs.Prelude.{◌≡◌, ◌<◌, ◌≤◌, ◌+◌, ◌*◌, ◌/◌, ◌%◌, ◌^◌};
ghost use Rattle.jxlm_bits.specs.Bits.{bytes_of, position_of};
ghost use Rattle.jxl_coding_codes.specs.Ans.{slot_of as the_slot, bucket_of as the_bucket, refilled_at, after_slot};
ghost use Rattle.jxl_coding_codes.specs.Ans.{RefillGives, slot_seen};

use crate::fields::{number, power};
use jxlm_bits::bits::Bitstream;
use jxlm_bits::decoder::DecoderError;

/// As many slots as there are for each bucket: the first of them are the bucket's own symbol's, the others belong to
/// another symbol.
#[derive(Clone, Copy)]
pub struct Bucket {
    /// How many slots are the bucket's own symbol's.
    pub cutoff: u32,
    /// The symbol of the others.
    pub alias_symbol: u32,
    /// The number of the first of them among the slots of that symbol.
    pub alias_offset: u32,
    /// How often the bucket's own symbol comes.
    pub count: u16,
    /// How often the other comes.
    pub alias_count: u16,
}

/// The symbol of a slot, the slot's number among those of the symbol, and how many these are.
#[derive(Clone, Copy)]
pub struct Slot {
    pub symbol: u32,
    pub number: u32,
    pub count: u32,
}

impl Slot {
    /// The state after this slot's symbol, before it is refilled.
    #[inline(always)]
    pub fn next(&self, state: u32) -> u32
        ensures { result ≡ after_slot (slot_seen self.now) state }
    {
        self.count
            .wrapping_mul(state / 4096)
            .wrapping_add(self.number)
    }
}

/// The bucket at a place.
#[inline(always)]
fn bucket_of(buckets: &[Bucket], place: u32) -> Bucket
    ensures { result ≡ the_bucket buckets.now place }
{
    match buckets.get(place as usize) {
        Some(bucket) => *bucket,
        None => Bucket {
            cutoff: 0,
            alias_symbol: 0,
            alias_offset: 0,
            count: 0,
            alias_count: 1,
        },
    }
}

/// What a slot stands for, by the buckets from `start` on, each of 2 to the `shift` slots.
#[inline(always)]
pub fn slot_of(buckets: &[Bucket], start: u32, shift: u32, slot: u32) -> Slot
    requires { shift ≤ 12 }
    ensures { slot_seen result ≡ the_slot buckets.now start (2 ^ shift) slot }
{
    let i = slot / power(shift);
    let place = slot % power(shift);
    let bucket = bucket_of(buckets, start.wrapping_add(i));
    if place < bucket.cutoff {
        Slot {
            symbol: i,
            number: place,
            count: u32::from(bucket.count),
        }
    } else {
        Slot {
            symbol: bucket.alias_symbol,
            number: bucket.alias_offset.wrapping_add(place - bucket.cutoff),
            count: u32::from(bucket.alias_count),
        }
    }
}

/// The state, refilled by 16 bits where it is below 2 to the 16. An error leaves the reader.
#[inline(always)]
pub fn refilled(bits: &mut Bitstream<'_>, state: u32) -> Result<u32, DecoderError>
    ensures gives { (symbol : _) → RefillGives result symbol (position_of bits.new)
        (refilled_at symbol state (bytes_of bits.old) (position_of bits.old)) }
    ensures bytes { bytes_of bits.new ≡ bytes_of bits.old }
{
    if state < 1 << 16 {
        let more = number(bits, 16)?;
        Ok(state * 65536 + more)
    } else {
        Ok(state)
    }
}
