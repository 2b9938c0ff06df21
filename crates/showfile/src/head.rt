ghost use Rattle.std.specs.Prelude.{◌≡◌, ◌≤◌, ◌+◌, map, IfOk};
ghost use Rattle.readings.specs.Lists.{rows_of};
ghost use Rattle.readings.specs.Proposals.{kept, list_refusal};
ghost use Rattle.readings.specs.Refusals.{refusal_of};
ghost use Rattle.showfile.specs.Tests.{numbers_fit};
ghost use Rattle.showfile.specs.Told.{number_at, row_read, rows_read};

use crate::block::Block;
use readings::{Proposal, Readings, Refusal};

// What the first block of a show file tells.
#[derive(Clone, Copy)]
pub(crate) struct Head {
    pub(crate) list: Readings,
    // how many slots
    pub(crate) slots: usize,
    // the first slot of the loop
    pub(crate) first: usize,
    // the last slot of the loop
    pub(crate) last: usize,
}

impl Head {
    ghost use Rattle.showfile.specs.Heads.{IsTold};

    // What a first block tells. Refused as its list is (1 to 4).
    pub(crate) fn read(block: &Block) -> Result<Head, Refusal>
        ensures refused { refusal_of result ≡ list_refusal (rows_read block.now) }
        ensures told { IfOk result (λ h. IsTold h block.now) }
    {
        let list = list_of(block)?;
        Ok(Head {
            list,
            slots: number_at(block, 85).into(),
            first: number_at(block, 87).into(),
            last: number_at(block, 89).into(),
        })
    }

    // Whether the numbers are those of a strip that has room.
    pub(crate) fn fits(&self, room: usize) -> bool
        ensures { result ≡ numbers_fit self.now.slots self.now.first self.now.last room }
    {
        (1..=32_767).contains(&self.slots)
            && self.slots <= room
            && 1 <= self.first
            && self.first <= self.last
            && self.last < self.slots
    }
}

// The list of a first block, or its refusal.
fn list_of(block: &Block) -> Result<Readings, Refusal>
    ensures refused { refusal_of result ≡ list_refusal (rows_read block.now) }
    ensures list { IfOk result (λ l. rows_of l ≡ map kept (rows_read block.now)) }
{
    let count = usize::from(block[4]);
    if count > 16 {
        return Err(Refusal::Count);
    }
    let (rows, _) = block[5..].as_chunks::<5>();
    let mut given = [Proposal::default(); 16];
    for (k, row) in rows[..count].iter().enumerate() {
        given[k] = row_read(row);
    }
    Readings::new(&given[..count])
}

// The numbers of a row.
fn row_read(row: &[u8; 5]) -> Proposal
    ensures { result ≡ row_read row.now }
{
    let [id_high, id_low, work, validity_high, validity_low] = *row;
    let id = u16::from_be_bytes([id_high, id_low]);
    let validity = u16::from_be_bytes([validity_high, validity_low]);
    Proposal::new(id.into(), work.into(), validity.into())
}

// The number of the two bytes of a block from a place on.
fn number_at(block: &Block, place: usize) -> u16
    requires { place + 2 ≤ 512 }
    ensures { result ≡ number_at place block.now }
{
    u16::from_be_bytes([block[place], block[place + 1]])
}
