// The C interface: include/yard.h.
#![tactic(auto)]

ghost use Rattle.std.specs.Prelude.{◌≡◌};
ghost use Rattle.protocol.specs.Memory.{memory};
ghost use Rattle.protocol.specs.Outcome.{left};
ghost use Rattle.ledger.specs.Called.{called};
ghost use Rattle.panel.specs.Panel.{panel_answer};
ghost use Rattle.netting.specs.Netting.{netting_left, netting};
ghost use Rattle.entries.specs.Waiting.{
  lent,
  Open,
  Enter,
  Withdraw,
  Ask,
  waiting_step,
  waiting_left,
  matching,
};
ghost use Rattle.field.specs.Field.{read_field, written, write_field};
ghost use Rattle.firmware.specs.Version.{version};

use entries::Entry;
use field::Unwritable;
use protocol::{ACCEPTED, number_in, values_in};

const VERSION: u32 = 2;

// What a read of a field gives in C for bytes that are none, and a write where nothing is written: document 01 and the header have them.
const NO_NUMBER: u32 = 4_294_967_295;

const UNWRITABLE: u32 = 10;

// The number of this interface, for a caller to hold against its header's.
#[unsafe(no_mangle)]
pub extern "C" fn yard_version() -> u32
    ensures { result ≡ version }
{
    VERSION
}

// A call by its code; both values are always written.
#[unsafe(no_mangle)]
pub extern "C" fn yard_call(
    code: u32,
    replica: u32,
    number: u32,
    list: &[u32],
    table: &mut [u32],
    log: &mut [u32],
    blocks: &mut [u32],
    first: &mut u32,
    second: &mut u32,
) -> u32
    ensures { left (record { number = result; first = first.new; second = second.new }) table.new
        log.new blocks.new
        ≡ called (memory table.old log.old blocks.old) code replica number list.now }
{
    let answer = ledger::call_by_code(table, log, blocks, code, replica, number, list);
    let values = values_in(answer);
    *first = values.first;
    *second = values.second;
    number_in(answer)
}

// The height of a replica's decided block.
#[unsafe(no_mangle)]
pub extern "C" fn yard_panel(
    table: &[u32],
    log: &[u32],
    blocks: &[u32],
    replica: u32,
    height: &mut u32,
) -> u32
    ensures { record { number = result; first = height.new; second = 0 }
        ≡ panel_answer (memory table.now log.now blocks.now) replica }
{
    let answer = panel::panel(table, log, blocks, replica);
    *height = values_in(answer).first;
    number_in(answer)
}

// The balance of a replica's firm at a block, over the movements lent; always written.
#[unsafe(no_mangle)]
pub extern "C" fn yard_balance(
    table: &[u32],
    log: &[u32],
    blocks: &[u32],
    movements: &[u32],
    block: u32,
    replica: u32,
    balance: &mut i32,
) -> u32
    ensures { netting_left (record { number = result; first = balance.new; second = 0 }) table.now
        log.now blocks.now movements.now
        ≡ netting (memory table.now log.now blocks.now) movements.now block replica }
{
    let net = netting::net(table, log, blocks, movements, block, replica);
    *balance = net.unwrap_or(0);
    number_in(net)
}

// A ledger with nothing waiting; the number of replicas is always written.
#[unsafe(no_mangle)]
pub extern "C" fn yard_open_waiting(
    f: u32,
    steps: &[u32],
    table: &mut [u32],
    log: &mut [u32],
    blocks: &mut [u32],
    waiting: &mut [u32],
    replicas: &mut u32,
) -> u32
    ensures { waiting_left (record { number = result; first = replicas.new; second = 0 }) table.new log.new
        blocks.new waiting.new
        ≡ waiting_step (lent (memory table.old log.old blocks.old) waiting.old)
        (Open f steps.now) }
{
    let answer = waiting::open_waiting(table, log, blocks, waiting, f, steps);
    *replicas = values_in(answer).first;
    number_in(answer)
}

// A movement that no block has yet begins to wait.
#[unsafe(no_mangle)]
pub extern "C" fn yard_enter(
    table: &[u32],
    log: &[u32],
    blocks: &[u32],
    waiting: &mut [u32],
    identity: u32,
    giver: u32,
    taker: u32,
    pallets: u32,
) -> u32
    ensures { waiting_left (record { number = result; first = 0; second = 0 }) table.now log.now
        blocks.now waiting.new
        ≡ waiting_step (lent (memory table.now log.now blocks.now) waiting.old)
        (Enter (record { identity = identity; giver = giver; taker = taker; pallets = pallets })) }
{
    let entry = Entry {
        identity,
        giver,
        taker,
        pallets,
    };
    number_in(waiting::enter(table, log, blocks, waiting, entry))
}

// The entry of an identity is struck out.
#[unsafe(no_mangle)]
pub extern "C" fn yard_withdraw(
    table: &[u32],
    log: &[u32],
    blocks: &[u32],
    waiting: &mut [u32],
    identity: u32,
) -> u32
    ensures { waiting_left (record { number = result; first = 0; second = 0 }) table.now log.now
        blocks.now waiting.new
        ≡ waiting_step (lent (memory table.now log.now blocks.now) waiting.old)
        (Withdraw identity) }
{
    number_in(waiting::withdraw(table, log, blocks, waiting, identity))
}

// The entry of an identity leaves for the movement at a place.
#[unsafe(no_mangle)]
pub extern "C" fn yard_match(
    table: &[u32],
    log: &[u32],
    blocks: &[u32],
    waiting: &mut [u32],
    movements: &[u32],
    replica: u32,
    identity: u32,
    place: u32,
) -> u32
    ensures { record {
      outcome = waiting_left (record { number = result; first = 0; second = 0 }) table.now log.now
          blocks.now waiting.new;
      movements = movements.now;
    }
        ≡ matching (lent (memory table.now log.now blocks.now) waiting.old)
        movements.now replica identity place }
{
    number_in(waiting::match_entry(
        table, log, blocks, waiting, movements, replica, identity, place,
    ))
}

// The pallets waiting for a taker, and the identity of the earliest arrival; both are always written.
#[unsafe(no_mangle)]
pub extern "C" fn yard_ask(
    table: &[u32],
    log: &[u32],
    blocks: &[u32],
    waiting: &[u32],
    taker: u32,
    pallets: &mut u32,
    earliest: &mut u32,
) -> u32
    ensures { waiting_left (record { number = result; first = pallets.new; second = earliest.new })
        table.now log.now blocks.now waiting.now
        ≡ waiting_step (lent (memory table.now log.now blocks.now) waiting.now) (Ask taker) }
{
    let answer = waiting::ask(table, log, blocks, waiting, taker);
    let values = values_in(answer);
    *pallets = values.first;
    *earliest = values.second;
    number_in(answer)
}

// The number of eight columns, or 4,294,967,295 for bytes that are no such field.
#[unsafe(no_mangle)]
pub extern "C" fn yard_read_number(bytes: &[u8]) -> u32
    ensures { result ≡ read_field bytes.now }
{
    field::read_number(bytes).unwrap_or(NO_NUMBER)
}

// 0, or 10 with the bytes untouched where there are not eight or the number has more digits.
#[unsafe(no_mangle)]
pub extern "C" fn yard_write_number(number: u32, bytes: &mut [u8]) -> u32
    ensures { written result bytes.new ≡ write_field number bytes.old }
{
    match field::write_number(number, bytes) {
        Ok(()) => ACCEPTED,
        Err(Unwritable) => UNWRITABLE,
    }
}
