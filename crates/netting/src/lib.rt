// Netting of movements: a firm's balance of pallets at a chosen block (document 02, #101).
#![tactic(auto)]

ghost use Rattle.protocol.specs.declared.Refusal.TheVariants.{WrongMovement};
ghost use Rattle.std.specs.Prelude.{is_ok, IfErr, ◌≡◌, cond, ◌<◌, length, get_or, set, pos, ◌+ℤ◌};
ghost use Rattle.protocol.specs.Memory.{memory};
ghost use Rattle.netting.specs.Netting.{balance_told, netting_outcome, netting};
ghost use Rattle.netting.specs.inner.Tallies.{
  marked,
  Movable,
  Talliable,
  Tallied,
  Nettable,
  balance_answer,
};

use blocks::MAX_BLOCKS;
use checks::need;
use movements::{MOVEMENT_WORDS, Movement};
use protocol::Refusal;
use table::{BLOCK_COUNT_AT, FAULT_BOUND_AT, MAX_REPLICAS};

// The pallets of a movement, or none where its block is not marked.
fn counted_pallets(marks: &[bool], x: Movement) -> u32
    requires { x.block < length marks.now }
    ensures { result ≡ cond (marked marks.now x) x.pallets 0 }
{
    let block = x.block as usize;
    (marks[block] as u32) * x.pallets
}

// Adds pallets to a firm's balance: below 0 where it gives them.
fn add(balances: &mut [i32], firm: u32, pallets: i32)
    requires { Movable balances.old firm pallets }
    ensures { balances.new
        ≡ set balances.old firm (get_or balances.old firm (pos 0) +ℤ pallets) }
{
    balances[firm as usize] += pallets;
}

// The balances of all firms, where every movement keeps the rules, or else the refusal. One pass, up to the first movement that breaks
// them; those count whose block is marked.
fn tally(
    movements: &[u32],
    marks: &[bool],
    replicas: u32,
    added: u32,
    balances: &mut [i32],
) -> Result<(), Refusal>
    requires { Talliable movements.now marks.now replicas added balances.old }
    ensures tallied { Tallied movements.now marks.now replicas added (is_ok result) balances.new }
    ensures refusal { IfErr result (λ r. r ≡ WrongMovement) }
{
    for place in 0..movements.len() / MOVEMENT_WORDS {
        let x = movements::movement_in(movements, place);
        need(
            movements::is_allowed(x, replicas, added),
            Refusal::WrongMovement,
        )?;
        let pallets = counted_pallets(marks, x) as i32;
        add(balances, x.giver, -pallets);
        add(balances, x.taker, pallets);
    }
    Ok(())
}

// The balance of a replica's firm at a block, or the refusal of a movement that breaks the rules.
fn balance_at(
    blocks: &[u32],
    movements: &[u32],
    block: u32,
    replica: u32,
    replicas: u32,
    added: u32,
) -> Result<i32, Refusal>
    requires { Nettable blocks.now movements.now block replica replicas added }
    ensures { balance_told result ≡ balance_answer blocks.now movements.now block replica replicas added }
{
    let mut marks = [false; MAX_BLOCKS as usize];
    ancestry::mark_ancestors(blocks, block, &mut marks);
    let mut balances = [0i32; MAX_REPLICAS];
    tally(movements, &marks, replicas, added, &mut balances)?;
    Ok(balances[replica as usize])
}

// The balance of a replica's firm at a chosen block. The slices are lent without leave to change them: every word is as it was.
pub fn net(
    table: &[u32],
    log: &[u32],
    blocks: &[u32],
    movements: &[u32],
    block: u32,
    replica: u32,
) -> Result<i32, Refusal>
    ensures { netting_outcome result table.now log.now blocks.now movements.now
        ≡ netting (memory table.now log.now blocks.now) movements.now block replica }
{
    need(movements::is_movement_list(movements), Refusal::WrongForm)?;
    checks::find_replica(table, log, blocks, replica)?;
    let added = table[BLOCK_COUNT_AT];
    need(block < added, Refusal::UnknownNumber)?;
    let replicas = table::replica_count(table[FAULT_BOUND_AT]);
    balance_at(blocks, movements, block, replica, replicas, added)
}
