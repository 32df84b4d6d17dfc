// Step records as bytes (document 02, A.8).
#![tactic(auto)]

ghost use Rattle.std.specs.Prelude.{◌≡◌, [], ◌∷◌, ◌≤◌, length};
ghost use Rattle.buffers.specs.Positions.{at};
ghost use Rattle.records.specs.Records.{step, value_bytes, per_share, FitsIn, RecordedBy};

use residue::Word;
use text::Writer;

// What the value of a record is.
#[derive(Clone, Copy, PartialEq, Eq)]
pub enum Kind {
    // The next share of the bit, b(j).
    Share = 0,
    // B.
    Extended = 1,
    // B times b(j).
    Product = 2,
    // C, with b(j) in its first.
    Converted = 3,
    // A share after a pair's word.
    Pair = 4,
    // A running output share.
    Total = 5,
}

// The bytes of a record.
pub const RECORD_BYTES: usize = 8;

// The value of a record: two bytes, low first.
fn value_bytes(value: Word) -> [u8; 2]
    ensures { result ≡ value_bytes value }
{
    let number = residue::to_usize(value);
    [(number & 255) as u8, (number >> 8) as u8]
}

// A record: its mark, and its fields.
#[tactic(auto, unfolding(crate::specs::Records::bytes))]
pub fn write_record(out: &mut Writer<'_>, bit: u8, round: u8, share: u8, kind: u8, value: Word)
    requires { FitsIn out.old (step bit round share kind value ∷ []) }
    ensures { RecordedBy out.old (step bit round share kind value ∷ []) out.new }
{
    let [low, high] = value_bytes(value);
    let record = [b'S', b'T', bit, round, share, kind, low, high];
    // Eight bytes, so that the copy is one store: `out.bytes` is a call.
    let p = out.end;
    out.text[p..p + RECORD_BYTES].copy_from_slice(&record);
    out.end = p + RECORD_BYTES;
}

// A record for each of the first n values, which are those of the shares from 1 on.
pub fn write_group(out: &mut Writer<'_>, bit: u8, round: u8, kind: u8, n: usize, values: &[Word])
    requires { (n ≤ 8) × (n ≤ length values.now) × FitsIn out.old (per_share n bit round kind (at values.now)) }
    ensures { RecordedBy out.old (per_share n bit round kind (at values.now)) out.new }
{
    for (i, value) in values[..n].iter().enumerate() {
        write_record(out, bit, round, (i + 1) as u8, kind, *value);
    }
}
