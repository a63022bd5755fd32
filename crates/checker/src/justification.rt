// What lets a leader propose (document 01: the ground of a proposal).
ghost use Rattle.std.specs.Prelude.{◌≡◌, [], ◌<◌, length, IfOk};
ghost use Rattle.protocol.specs.Memory.{memory, certificate_count_at};
ghost use Rattle.protocol.specs.Outcome.{number_in, first_refusal};
ghost use Rattle.protocol.specs.Calls.{numbers_of, justification_needs};
ghost use Rattle.quorum.specs.inner.Lists.{certificates_in};
ghost use Rattle.checker.specs.inner.Justifications.{Justifying, judgement_needs, justified_by};

use certificate_log::Kind;
use checks::need;
use protocol::{Justification, Refusal};
use table::CERTIFICATE_COUNT_AT;

// What a justification that holds gives: the view to propose in, and the block to build on.
#[derive(Clone, Copy)]
pub struct Justified {
    pub view: u32,
    pub block: u32,
}

// The certificate numbers of a justification: an ACC's (3), or a list's length (2) and its numbers (3).
#[tactic(auto, unfolding(protocol::specs::Outcome::first_refusal, protocol::specs::Quorum::every))]
pub fn test_justification(
    table: &[u32],
    justification: Justification,
    list: &[u32],
) -> Result<(), Refusal>
    requires { certificate_count_at < length table.now }
    ensures { number_in result
        ≡ first_refusal (justification_needs (memory table.now [] []) justification list.now) }
{
    // What lets a leader propose is an enum here and below: document 01 names the form.
    match justification {
        Justification::Acc(number) => need(
            number < table[CERTIFICATE_COUNT_AT],
            Refusal::UnknownNumber,
        ),
        Justification::Commits(_, _) => checks::test_list(table, list),
    }
}

// An ACC that the replica has signed, or a commit quorum of the view and the block that the caller names: only then is that view
// one of the log, which has a next one.
#[tactic(auto, unfolding(protocol::specs::Outcome::first_refusal, protocol::specs::Form::all_hold))]
pub fn judge(
    log: &[u32],
    replica: u32,
    justification: Justification,
    list: &[u32],
) -> Result<Justified, Refusal>
    requires { Justifying log.now (numbers_of justification list.now) }
    ensures refusal { number_in result
        ≡ first_refusal (judgement_needs replica justification (certificates_in log.now (numbers_of justification list.now))) }
    ensures given { IfOk result (λ j. j ≡ justified_by justification (certificates_in log.now (numbers_of justification list.now))) }
{
    match justification {
        Justification::Acc(number) => {
            let acc = certificate_log::certificate_in(log, number);
            let signed = acc.is(Kind::Acc) & (acc.signer == replica);
            need(signed, Refusal::WrongCertificate)?;
            Ok(Justified {
                view: acc.view,
                block: acc.block,
            })
        }
        Justification::Commits(view, block) => {
            let matching = quorum::is_commit_quorum(log, list, view, block);
            need(matching, Refusal::WrongCertificate)?;
            Ok(Justified {
                view: view + 1,
                block,
            })
        }
    }
}
