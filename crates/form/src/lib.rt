// The form that every call but opening tests (document 01, "Memory", the paragraph "Form"). In a full memory it is most of a call's time.
#![tactic(auto)]

ghost use Rattle.std.specs.Prelude.{◌≡◌, ◌+◌, ◌≤◌, length};
ghost use Rattle.protocol.specs.Memory.{
  memory,
  max_fault_bound,
  row_start,
  replica_words,
  row_at as row_at_rule,
};
ghost use Rattle.protocol.specs.Form.{all_below, is_fault_bound as is_fault_bound_rule, lengths_fit as lengths_fit_rule, counts_fit as counts_fit_rule, well_formed};
ghost use Rattle.protocol.proofs.memory.Formed.{Sizes};
ghost use Rattle.form.specs.inner.Parts.{replica_ok, words_ok};

use blocks::{BLOCK_WORDS, MAX_BLOCKS};
use certificate_log::{CERTIFICATE_WORDS, MAX_CERTIFICATES};
use table::{
    BLOCK_COUNT_AT, BOOT_AT, CEILING, CERTIFICATE_COUNT_AT, DECIDED_BLOCK_AT, DECIDED_VIEW_AT,
    FAULT_BOUND_AT, FLAG_AT, Flag, MAX_FAULT_BOUND, MIN_VIEW_AT, ROW_START, STATUS_AT, STEPS_AT,
    STORED_BLOCK_AT, STORED_VIEW_AT, Status, VIEW_LIMIT_AT,
};

// The three slices are three parameters here too: callers hold them as `&mut`, and would make a struct of `&` for each question.

// f is 1 to 30.
pub fn is_fault_bound(f: u32) -> bool
    ensures { result ≡ is_fault_bound_rule f }
{
    (1..=MAX_FAULT_BOUND).contains(&f)
}

// The three lengths are those of a ledger for f.
pub fn lengths_fit(table: &[u32], log: &[u32], blocks: &[u32], f: u32) -> bool
    requires { f ≤ max_fault_bound }
    ensures { result ≡ lengths_fit_rule (memory table.now log.now blocks.now) f }
{
    (table.len() == table::row_at(table::replica_count(f)))
        & (log.len() % CERTIFICATE_WORDS == 0)
        & (log.len() <= certificate_log::certificate_at(MAX_CERTIFICATES))
        & (blocks.len() % BLOCK_WORDS == 0)
        & (blocks::block_at(1) <= blocks.len())
        & (blocks.len() <= blocks::block_at(MAX_BLOCKS))
}

// The counts are within the slots, and there is a block.
fn counts_fit(table: &[u32], log: &[u32], blocks: &[u32]) -> bool
    requires { row_start ≤ length table.now }
    ensures { result ≡ counts_fit_rule (memory table.now log.now blocks.now) }
{
    (certificate_log::certificate_at(table[CERTIFICATE_COUNT_AT]) <= log.len())
        & (blocks::block_at(table[BLOCK_COUNT_AT]) <= blocks.len())
        & (1 <= table[BLOCK_COUNT_AT])
}

// The tests of a replica's row, in the order of its words.
fn replica_formed(table: &[u32], replica: u32, added: u32) -> bool
    requires { row_at_rule replica + replica_words ≤ length table.now }
    ensures { result ≡ replica_ok table.now added replica }
{
    let row = table::row_at(replica);
    let min_view = table[row + MIN_VIEW_AT];
    let view_limit = table[row + VIEW_LIMIT_AT];
    (table[row + STATUS_AT] <= Status::Retired.word())
        & (table[row + BOOT_AT] <= CEILING)
        & (1 <= min_view)
        & (min_view <= view_limit)
        & (view_limit <= CEILING)
        & (table[row + FLAG_AT] <= Flag::Raised.word())
        & (table[row + STORED_VIEW_AT] < min_view)
        & (table[row + STORED_BLOCK_AT] < added)
        & (table[row + DECIDED_VIEW_AT] <= CEILING)
        & (table[row + DECIDED_BLOCK_AT] < added)
}

// Every replica's row.
fn replicas_formed(table: &[u32], replicas: u32, added: u32) -> bool
    requires { row_at_rule replicas ≤ length table.now }
    ensures { result ≡ all_below replicas (replica_ok table.now added) }
{
    (0..replicas).all(|replica| replica_formed(table, replica, added))
}

// The words, where f, lengths and counts are right.
fn words_formed(table: &[u32], log: &[u32], blocks: &[u32]) -> bool
    requires { Sizes (memory table.now log.now blocks.now) }
    ensures { result ≡ words_ok (memory table.now log.now blocks.now) }
{
    let replicas = table::replica_count(table[FAULT_BOUND_AT]);
    let added = table[BLOCK_COUNT_AT];
    counter::steps_formed(table, STEPS_AT)
        & blocks::blocks_formed(blocks, added)
        & replicas_formed(table, replicas, added)
        & certificate_log::certificates_formed(log, table[CERTIFICATE_COUNT_AT], replicas, added)
}

// The form, whole.
pub fn is_well_formed(table: &[u32], log: &[u32], blocks: &[u32]) -> bool
    ensures { result ≡ well_formed (memory table.now log.now blocks.now) }
{
    if table.len() < ROW_START {
        return false;
    }
    let f = table[FAULT_BOUND_AT];
    if !is_fault_bound(f) {
        return false;
    }
    (lengths_fit(table, log, blocks, f) & counts_fit(table, log, blocks))
        && words_formed(table, log, blocks)
}
