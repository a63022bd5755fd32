// What the calls share: the answer of an accepted one, one need, and the tests that most of them begin with.
#![tactic(auto)]

ghost use Rattle.std.specs.Prelude.{◌≡◌, cond, List, [], ℕ, ◌<◌, length, Ok, Err, IfOk};
ghost use Rattle.protocol.specs.Memory.{memory, certificate_count_at, replica as replica_at, certificate};
ghost use Rattle.protocol.specs.Outcome.{number_in, first_refusal};
ghost use Rattle.protocol.specs.FirstNeeds.{replica_needs, number_needs, list_needs};
ghost use Rattle.certificate_log.specs.inner.Certificates.{certificate_from};
ghost use Rattle.certificate_log.specs.inner.LogFits.{LogFits};
ghost use Rattle.records.specs.inner.Replicas.{replica_from};

use certificate_log::Certificate;
use protocol::{Answer, Refusal, Values};
use records::Replica;
use table::{CERTIFICATE_COUNT_AT, FAULT_BOUND_AT};

// The answer of a call that is accepted, with its two values.
pub fn accepted(first: u32, second: u32) -> Answer
    ensures { result ≡ Ok (record { first = first; second = second }) }
{
    Ok(Values { first, second })
}

// One need: where its test fails, its refusal, in any type. A refusal before it was handed up by `?`.
pub fn need<E: Copy>(test: bool, refusal: E) -> Result<(), E>
    ensures { result ≡ cond test (Ok tt) (Err refusal) }
{
    if test { Ok(()) } else { Err(refusal) }
}

// The form (1), then the replica (2).
#[tactic(auto, unfolding(protocol::specs::Outcome::first_refusal))]
pub fn find_replica(
    table: &[u32],
    log: &[u32],
    blocks: &[u32],
    replica: u32,
) -> Result<Replica, Refusal>
    ensures refusal { number_in result
        ≡ first_refusal (replica_needs (memory table.now log.now blocks.now) replica) }
    ensures found { IfOk result (λ r. r ≡ replica_from (replica_at (memory table.now log.now blocks.now) replica)) }
{
    need(form::is_well_formed(table, log, blocks), Refusal::WrongForm)?;
    need(
        replica < table::replica_count(table[FAULT_BOUND_AT]),
        Refusal::OutOfRange,
    )?;
    Ok(records::replica_in(table, replica))
}

// A certificate, by its number (3).
#[tactic(auto, unfolding(protocol::specs::Outcome::first_refusal))]
pub fn find_certificate(table: &[u32], log: &[u32], number: u32) -> Result<Certificate, Refusal>
    requires { LogFits table.now log.now }
    ensures refusal { number_in result ≡ first_refusal (number_needs (memory table.now log.now []) number) }
    ensures found { IfOk result (λ c. c ≡ certificate_from (certificate (memory table.now log.now []) number)) }
{
    need(number < table[CERTIFICATE_COUNT_AT], Refusal::UnknownNumber)?;
    Ok(certificate_log::certificate_in(log, number))
}

// The length of a list (2), then its numbers (3).
#[tactic(auto, unfolding(protocol::specs::Outcome::first_refusal))]
pub fn test_list(table: &[u32], list: &[u32]) -> Result<(), Refusal>
    requires { certificate_count_at < length table.now }
    ensures { number_in result ≡ first_refusal (list_needs (memory table.now [] []) list.now) }
{
    let size = (table[FAULT_BOUND_AT] as usize) + 1;
    let sized = list.len() == size;
    need(sized, Refusal::OutOfRange)?;
    let issued = quorum::all_issued(list, table[CERTIFICATE_COUNT_AT]);
    need(issued, Refusal::UnknownNumber)
}
