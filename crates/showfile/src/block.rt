ghost use Rattle.std.specs.Int.{from_be_bytes, to_be_bytes, w16, w32};
ghost use Rattle.std.specs.Prelude.{◌≡◌, ◌≤◌, ◌/◌, ◌∷◌, ◌++◌, drop, length, take};
ghost use Rattle.std.specs.Simd.{first_chunks};
ghost use Rattle.showfile.specs.Blocks.{block as spelled, padded, sum_from};
ghost use Rattle.showfile.specs.Tests.{has_sum};
ghost use Rattle.showfile.specs.Told.{blocks as read_blocks, byte_at, number_at};

// A block of a show file.
pub(crate) type Block = [u8; 512];

// The whole blocks of a file.
pub(crate) fn blocks(file: &[u8]) -> &[Block]
    ensures { result.now ≡ read_blocks file.now }
{
    file.as_chunks::<512>().0
}

// A block taken apart: its first bytes, and the rest as its body.
#[derive(Clone, Copy)]
pub(crate) struct Parts<'b> {
    pub(crate) kind: u8,
    pub(crate) unused: u8,
    pub(crate) number: u16,
    pub(crate) body: &'b [u8],
}

impl<'b> Parts<'b> {
    // The parts of a block.
    pub(crate) fn of(block: &'b Block) -> Parts<'b>
        ensures kind { result.kind ≡ byte_at 0 block.now }
        ensures unused { result.unused ≡ byte_at 1 block.now }
        ensures number { result.number ≡ number_at 2 block.now }
        ensures body { result.body.now ≡ drop 4 block.now }
    {
        let [kind, unused, high, low, body @ ..] = block.as_slice() else {
            unreachable!()
        };
        Parts {
            kind: *kind,
            unused: *unused,
            number: u16::from_be_bytes([*high, *low]),
            body,
        }
    }
}

// The sum of bytes, each times its place; the first has place 1.
pub(crate) fn sum_of(bytes: &[u8]) -> u32
    requires { length bytes.now ≤ 508 }
    ensures { result ≡ sum_from 1 bytes.now }
{
    let mut sum = 0;
    for (k, byte) in bytes.iter().enumerate() {
        sum += u32::from(*byte) * (k as u32 + 1);
    }
    sum
}

// Whether the last four bytes of a block tell the sum of those before them.
pub(crate) fn has_sum(block: &Block) -> bool
    ensures { result ≡ has_sum block.now }
{
    let (bytes, told) = block.split_at(508);
    u32::from_be_bytes([told[0], told[1], told[2], told[3]]) == sum_of(bytes)
}

// Writes a block: its kind, its number and its body, with zeros up to byte 508, and the sum.
pub(crate) fn write_block(block: &mut [u8], kind: u8, number: u16, body: &[u8])
    requires whole { length block.old ≡ 512 }
    requires fits { length body.now ≤ 504 }
    ensures { block.new ≡ spelled kind number body.now }
{
    let (bytes, sum) = block.split_at_mut(508);
    write_parts(bytes, kind, number, body);
    sum.copy_from_slice(&sum_of(bytes).to_be_bytes());
}

// Writes the kind, the number and the body of a block, with zeros behind them.
fn write_parts(bytes: &mut [u8], kind: u8, number: u16, body: &[u8])
    requires whole { length bytes.old ≡ 508 }
    requires fits { length body.now ≤ 504 }
    ensures { bytes.new ≡ padded 508 (kind ∷ 0 ∷ to_be_bytes w16 number ++ body.now) }
{
    bytes.fill(0);
    bytes[0] = kind;
    bytes[2..4].copy_from_slice(&number.to_be_bytes());
    bytes[4..4 + body.len()].copy_from_slice(body);
}
