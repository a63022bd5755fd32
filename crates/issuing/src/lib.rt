// Issuing a certificate: it is filed in the log, and words of its signer are set.
#![tactic(auto)]

ghost use Rattle.std.specs.Prelude.{◌≡◌, List, [], ℕ};
ghost use Rattle.protocol.specs.Outcome.{outcome, outcome_by};
ghost use Rattle.protocol.specs.Calls.{issuing};
ghost use Rattle.certificate_log.specs.inner.Certificates.{certificate_of};
ghost use Rattle.records.specs.inner.Replicas.{assignments, Settable};
ghost use Rattle.issuing.specs.inner.Issuable.{Issuable};

use certificate_log::Certificate;
use protocol::Answer;

// The answer of a call that issues, once its other needs hold: what filing gives, and the words of the replica are set; or the refusal, and
// nothing is changed.
pub fn issue(
    table: &mut [u32],
    log: &mut [u32],
    replica: u32,
    words: &[(usize, u32)],
    c: Certificate,
) -> Answer
    requires issuable { Issuable table.old log.old replica }
    requires settable { Settable words.now }
    ensures { (b : List ℕ) → outcome result table.new log.new b
        ≡ outcome_by (λ m. issuing m [] replica (assignments words.now) (certificate_of c))
        table.old log.old b }
{
    let values = certificates::file(table, log, c)?;
    records::set_words(table, replica, words);
    Ok(values)
}
