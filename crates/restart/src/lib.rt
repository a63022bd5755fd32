// The two calls that move a replica's counter on (document 01, "Calls"): reboot and reserve.
#![tactic(auto)]

ghost use Rattle.std.specs.Prelude.{◌≡◌};
ghost use Rattle.protocol.specs.Outcome.{number_in, first_refusal, outcome, outcome_by};
ghost use Rattle.protocol.specs.Calls.{
  reserve_needs,
  retires as retires_rule,
  reserve as reserve_rule,
  reboot as reboot_rule,
};
ghost use Rattle.records.specs.inner.Replicas.{replica_of};

use checks::{accepted, need};
use protocol::{Answer, Refusal};
use records::Replica;
use table::{
    BOOT_AT, CEILING, FLAG_AT, Flag, MIN_VIEW_AT, STATUS_AT, STORED_BLOCK_AT, STORED_VIEW_AT,
    Status, VIEW_LIMIT_AT, set_replica_word,
};

// Whether a reboot, to this boot and view limit, retires the replica.
fn retires(r: Replica, boot: u32, limit: u32) -> bool
    ensures { result ≡ retires_rule (replica_of r) boot limit }
{
    r.is(Status::Retired) || CEILING < boot || CEILING < limit
}

// A power cut: the replica starts again above every view in which it can have proposed, stored or entered, or is retired.
pub fn reboot(table: &mut [u32], log: &mut [u32], blocks: &mut [u32], replica: u32) -> Answer
    ensures { outcome result table.new log.new blocks.new
        ≡ outcome_by (λ m. reboot_rule m replica) table.old log.old blocks.old }
{
    let r = checks::find_replica(table, log, blocks, replica)?;
    let boot = r.boot + 1;
    let limit = r.view_limit + counter::counter_step(table, boot);
    if retires(r, boot, limit) {
        set_replica_word(table, replica, STATUS_AT, Status::Retired.word());
        return accepted(r.boot, r.min_view);
    }
    let words = [
        (STATUS_AT, Status::Recovering.word()),
        (BOOT_AT, boot),
        (MIN_VIEW_AT, r.view_limit),
        (VIEW_LIMIT_AT, limit),
        (FLAG_AT, Flag::Lowered.word()),
        (STORED_VIEW_AT, 0),
        (STORED_BLOCK_AT, 0),
    ];
    records::set_words(table, replica, &words);
    accepted(boot, r.view_limit)
}

// The needs of reserve that are its own.
#[tactic(auto, unfolding(protocol::specs::Outcome::first_refusal))]
fn test_reserve(r: Replica, limit: u32) -> Result<(), Refusal>
    ensures { number_in result ≡ first_refusal (reserve_needs (replica_of r) limit) }
{
    need(!r.is(Status::Retired), Refusal::WrongStatus)?;
    need(limit <= CEILING, Refusal::CounterLimit)
}

// The counter moves, and with it the view limit.
pub fn reserve(table: &mut [u32], log: &mut [u32], blocks: &mut [u32], replica: u32) -> Answer
    ensures { outcome result table.new log.new blocks.new
        ≡ outcome_by (λ m. reserve_rule m replica) table.old log.old blocks.old }
{
    let r = checks::find_replica(table, log, blocks, replica)?;
    let limit = r.view_limit + counter::counter_step(table, r.boot);
    test_reserve(r, limit)?;
    set_replica_word(table, replica, VIEW_LIMIT_AT, limit);
    accepted(limit, 0)
}
