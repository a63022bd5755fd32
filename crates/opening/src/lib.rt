// The two calls that no replica makes: opening a ledger, and adding a block.
#![tactic(auto)]

ghost use Rattle.std.specs.Prelude.{◌≡◌, List, ℕ, ◌+◌, ◌≤◌, ◌<◌, length};
ghost use Rattle.protocol.specs.Memory.{memory, row_start, row_at, replica_words, block_at as block_at_rule, assign};
ghost use Rattle.protocol.specs.Outcome.{outcome, outcome_by};
ghost use Rattle.protocol.specs.Calls.{fresh_replica, fresh_header as fresh_header_rule, opening as opening_rule, block as block_rule};
ghost use Rattle.opening.specs.inner.Fresh.{fresh_rows as fresh_rows_rule};

use blocks::ROOT;
use checks::{accepted, need};
use protocol::{Answer, Refusal};
use table::{
    BLOCK_COUNT_AT, BOOT_AT, CERTIFICATE_COUNT_AT, DECIDED_BLOCK_AT, DECIDED_VIEW_AT,
    FAULT_BOUND_AT, FLAG_AT, Flag, MIN_VIEW_AT, STATUS_AT, STORED_BLOCK_AT, STORED_VIEW_AT, Status,
    VIEW_LIMIT_AT,
};

// A replica as opening leaves it.
fn fresh_row(table: &mut [u32], replica: u32, limit: u32)
    requires { row_at replica + replica_words ≤ length table.old }
    ensures { table.new ≡ assign table.old (row_at replica) (fresh_replica limit) }
{
    let words = [
        (STATUS_AT, Status::Live.word()),
        (BOOT_AT, 0),
        (MIN_VIEW_AT, 1),
        (VIEW_LIMIT_AT, limit),
        (FLAG_AT, Flag::Lowered.word()),
        (STORED_VIEW_AT, 0),
        (STORED_BLOCK_AT, 0),
        (DECIDED_VIEW_AT, 0),
        (DECIDED_BLOCK_AT, 0),
    ];
    records::set_words(table, replica, &words);
}

// All replicas below a count.
fn fresh_rows(table: &mut [u32], replicas: u32, limit: u32)
    requires { row_at replicas ≤ length table.old }
    ensures { table.new ≡ fresh_rows_rule table.old limit replicas }
{
    for replica in 0..replicas {
        fresh_row(table, replica, limit);
    }
}

// f, no certificates, and block 0.
fn fresh_header(table: &mut [u32], blocks: &mut [u32], f: u32)
    requires { (row_start ≤ length table.old) × (block_at_rule 1 ≤ length blocks.old) }
    ensures { (l : List ℕ) → memory table.new l blocks.new
        ≡ fresh_header_rule (memory table.old l blocks.old) f }
{
    table[FAULT_BOUND_AT] = f;
    table[CERTIFICATE_COUNT_AT] = 0;
    table[BLOCK_COUNT_AT] = 1;
    blocks::set_block(blocks, ROOT, ROOT, 0);
}

// A ledger for f, with the steps of the list or document 01's, whatever the memory held.
pub fn open_ledger(
    table: &mut [u32],
    log: &mut [u32],
    blocks: &mut [u32],
    f: u32,
    list: &[u32],
) -> Answer
    ensures { outcome result table.new log.new blocks.new
        ≡ outcome_by (λ m. opening_rule m f list.now) table.old log.old blocks.old }
{
    need(form::is_fault_bound(f), Refusal::OutOfRange)?;
    need(counter::steps_allowed(list), Refusal::WrongSteps)?;
    need(form::lengths_fit(table, log, blocks, f), Refusal::WrongForm)?;
    fresh_header(table, blocks, f);
    let limit = counter::open_steps(table, list);
    let replicas = table::replica_count(f);
    fresh_rows(table, replicas, limit);
    accepted(replicas, 0)
}

// A block on an added one.
pub fn block(table: &mut [u32], log: &mut [u32], blocks: &mut [u32], parent: u32) -> Answer
    ensures { outcome result table.new log.new blocks.new
        ≡ outcome_by (λ m. block_rule m parent) table.old log.old blocks.old }
{
    need(form::is_well_formed(table, log, blocks), Refusal::WrongForm)?;
    let count = table[BLOCK_COUNT_AT];
    need(parent < count, Refusal::UnknownNumber)?;
    need(blocks::block_at(count) < blocks.len(), Refusal::NoRoom)?;
    let height = blocks::height(blocks, parent) + 1;
    table[BLOCK_COUNT_AT] = count + 1;
    blocks::set_block(blocks, count, parent, height);
    accepted(count, 0)
}
