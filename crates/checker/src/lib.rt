// The checker of a replica: what it signs, and the words that it keeps so as never to sign against itself.
#![tactic(auto)]

ghost use Rattle.std.specs.Prelude.{◌≡◌, cond, ◌≤◌};
ghost use Rattle.protocol.specs.Memory.{max_fault_bound, lowered};
ghost use Rattle.protocol.specs.Outcome.{number_in, first_refusal, outcome, outcome_by};
ghost use Rattle.protocol.specs.Calls.{
  is_ahead,
  proposal_needs,
  store_needs,
  view_needs,
  prepare as prepare_rule,
  store as store_rule,
  view as view_rule,
};
ghost use Rattle.certificate_log.specs.inner.Certificates.{certificate_of};
ghost use Rattle.records.specs.inner.Replicas.{replica_of};

use self::justification::Justified;
use blocks::ROOT;
use certificate_log::{Certificate, Kind};
use checks::need;
use issuing::issue;
use leader::FIRST_VIEW;
use protocol::{Answer, Justification, Refusal};
use records::Replica;
use table::{
    BLOCK_COUNT_AT, CEILING, FAULT_BOUND_AT, FLAG_AT, Flag, MIN_VIEW_AT, STORED_BLOCK_AT,
    STORED_VIEW_AT, Status,
};

mod justification;

// ---- prepare

// The needs of prepare that rest on what the justification gives. A replica's number is no word of its record, as the rules have them.
#[tactic(auto, unfolding(protocol::specs::Outcome::first_refusal))]
fn test_proposal(
    f: u32,
    replica: u32,
    r: Replica,
    block: u32,
    parent: u32,
    justified: Justified,
) -> Result<(), Refusal>
    requires { f ≤ max_fault_bound }
    ensures { number_in result ≡ first_refusal (proposal_needs f replica (replica_of r) block parent justified.view justified.block) }
{
    let leads = leader::leads(f, justified.view, replica);
    need(leads, Refusal::WrongCertificate)?;
    need(block != ROOT, Refusal::WrongBlock)?;
    need(parent == justified.block, Refusal::WrongBlock)?;
    need(r.min_view == justified.view, Refusal::WrongView)?;
    need(r.has(Flag::Lowered), Refusal::WrongView)?;
    need(justified.view < r.view_limit, Refusal::CounterLimit)
}

// A leader proposes a block, once in a view.
pub fn prepare(
    table: &mut [u32],
    log: &mut [u32],
    blocks: &mut [u32],
    replica: u32,
    block: u32,
    justification: Justification,
    list: &[u32],
) -> Answer
    ensures { outcome result table.new log.new blocks.new
        ≡ outcome_by (λ m. prepare_rule m replica block justification list.now)
        table.old log.old blocks.old }
{
    let r = checks::find_replica(table, log, blocks, replica)?;
    justification::test_justification(table, justification, list)?;
    need(block < table[BLOCK_COUNT_AT], Refusal::UnknownNumber)?;
    need(r.is(Status::Live), Refusal::WrongStatus)?;
    let justified = justification::judge(log, replica, justification, list)?;
    let parent = blocks::parent(blocks, block);
    test_proposal(table[FAULT_BOUND_AT], replica, r, block, parent, justified)?;
    let words = [(FLAG_AT, Flag::Raised.word())];
    let c = Certificate {
        view: justified.view,
        block,
        ..Certificate::signed(Kind::Prop, replica, r.boot)
    };
    issue(table, log, replica, &words, c)
}

// ---- store

// The needs of store that are its own.
#[tactic(auto, unfolding(protocol::specs::Outcome::first_refusal))]
fn test_store(f: u32, r: Replica, p: Certificate) -> Result<(), Refusal>
    requires { f ≤ max_fault_bound }
    ensures { number_in result ≡ first_refusal (store_needs f (replica_of r) (certificate_of p)) }
{
    need(r.is(Status::Live), Refusal::WrongStatus)?;
    need(p.is(Kind::Prop), Refusal::WrongCertificate)?;
    let leads = leader::leads(f, p.view, p.signer);
    need(leads, Refusal::WrongCertificate)?;
    need(r.min_view <= p.view, Refusal::WrongView)?;
    need(p.view < r.view_limit, Refusal::CounterLimit)
}

// A replica stores a proposed block, and commits to it; it proposes, stores and enters in no view up to this one again.
pub fn store(
    table: &mut [u32],
    log: &mut [u32],
    blocks: &mut [u32],
    replica: u32,
    number: u32,
) -> Answer
    ensures { outcome result table.new log.new blocks.new
        ≡ outcome_by (λ m. store_rule m replica number) table.old log.old blocks.old }
{
    let r = checks::find_replica(table, log, blocks, replica)?;
    // Document 01 names this form for a certificate that is looked for.
    let found = checks::find_certificate(table, log, number);
    let Ok(p) = found else {
        return Err(found.unwrap_err());
    };
    test_store(table[FAULT_BOUND_AT], r, p)?;
    let words = [
        (STORED_VIEW_AT, p.view),
        (STORED_BLOCK_AT, p.block),
        (MIN_VIEW_AT, p.view + 1),
        (FLAG_AT, Flag::Lowered.word()),
    ];
    let c = Certificate {
        view: p.view,
        block: p.block,
        ..Certificate::signed(Kind::Commit, replica, r.boot)
    };
    issue(table, log, replica, &words, c)
}

// ---- view

// The needs of view that are its own.
#[tactic(auto, unfolding(protocol::specs::Outcome::first_refusal))]
fn test_view(r: Replica, view: u32) -> Result<(), Refusal>
    ensures { number_in result ≡ first_refusal (view_needs (replica_of r) view) }
{
    need(FIRST_VIEW <= view, Refusal::OutOfRange)?;
    need(view <= CEILING, Refusal::OutOfRange)?;
    need(r.is(Status::Live), Refusal::WrongStatus)?;
    need(r.min_view <= view, Refusal::WrongView)?;
    need(view < r.view_limit, Refusal::CounterLimit)
}

// The flag in a view that a replica enters: lowered where the view is ahead of it.
fn flag_in(r: Replica, view: u32) -> u32
    ensures { result ≡ cond (is_ahead (replica_of r) view) lowered r.flag }
{
    if r.min_view < view {
        Flag::Lowered.word()
    } else {
        r.flag
    }
}

// A replica enters a view, and tells what it has stored; it proposes, stores and enters in no earlier view again.
pub fn view(
    table: &mut [u32],
    log: &mut [u32],
    blocks: &mut [u32],
    replica: u32,
    view: u32,
) -> Answer
    ensures { outcome result table.new log.new blocks.new
        ≡ outcome_by (λ m. view_rule m replica view) table.old log.old blocks.old }
{
    let r = checks::find_replica(table, log, blocks, replica)?;
    test_view(r, view)?;
    let words = [(FLAG_AT, flag_in(r, view)), (MIN_VIEW_AT, view)];
    let c = Certificate {
        view,
        block: r.stored_block,
        of_view: r.stored_view,
        ..Certificate::signed(Kind::NewView, replica, r.boot)
    };
    issue(table, log, replica, &words, c)
}
