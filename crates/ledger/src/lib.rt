// Any call of a ledger. Its three slices are three parameters here and in every call: a struct of `&mut` slices would have to keep the
// name of each in every contract, and C lends them so.
#![tactic(auto)]

ghost use Rattle.std.specs.Prelude.{◌≡◌};
ghost use Rattle.protocol.specs.Memory.{memory};
ghost use Rattle.protocol.specs.Outcome.{outcome};
ghost use Rattle.protocol.specs.Runs.{step};
ghost use Rattle.ledger.specs.Called.{called};

use protocol::{Answer, Call};

// One of the twelve calls, with the list beside it.
pub fn invoke(
    table: &mut [u32],
    log: &mut [u32],
    blocks: &mut [u32],
    call: Call,
    list: &[u32],
) -> Answer
    ensures { outcome result table.new log.new blocks.new
        ≡ step (memory table.old log.old blocks.old) call list.now }
{
    // A call is an enum: document 01 names the form.
    match call {
        Call::Open(f) => opening::open_ledger(table, log, blocks, f, list),
        Call::Block(parent) => opening::block(table, log, blocks, parent),
        Call::Prepare(replica, block, justification) => checker::prepare(
            table,
            log,
            blocks,
            replica,
            block,
            justification,
            list,
        ),
        Call::Store(replica, number) => checker::store(table, log, blocks, replica, number),
        Call::View(replica, view) => checker::view(table, log, blocks, replica, view),
        Call::Accumulate(replica) => accumulator::accumulate(table, log, blocks, replica, list),
        Call::Decide(replica) => accumulator::decide(table, log, blocks, replica, list),
        Call::Reboot(replica) => restart::reboot(table, log, blocks, replica),
        Call::Reserve(replica) => restart::reserve(table, log, blocks, replica),
        Call::Request(replica) => recovery::request(table, log, blocks, replica),
        Call::Reply(replica, number) => recovery::reply(table, log, blocks, replica, number),
        Call::Recover(replica) => recovery::recover(table, log, blocks, replica, list),
    }
}

// A call by its code.
pub fn call_by_code(
    table: &mut [u32],
    log: &mut [u32],
    blocks: &mut [u32],
    code: u32,
    replica: u32,
    number: u32,
    list: &[u32],
) -> Answer
    ensures { outcome result table.new log.new blocks.new
        ≡ called (memory table.old log.old blocks.old) code replica number list.now }
{
    let call = codes::coded_call(table, log, code, replica, number, list)?;
    invoke(table, log, blocks, call, list)
}
