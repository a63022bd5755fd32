// Filing a certificate in the log: an equal one is found, or a new one appended, or there is no room for it.
#![tactic(auto)]

ghost use Rattle.std.specs.Prelude.{◌≡◌, List, [], ◌∷◌, ℕ, ◌+◌, ◌≤◌, length};
ghost use Rattle.protocol.specs.Memory.{memory, certificate_at, certificate_words, words, append_certificate};
ghost use Rattle.protocol.specs.Certificates.{first_below, found, appended};
ghost use Rattle.protocol.specs.Outcome.{outcome, outcome_by};
ghost use Rattle.protocol.specs.inner.Groups.{four_ok};
ghost use Rattle.certificate_log.specs.inner.Certificates.{certificate_of};
ghost use Rattle.certificate_log.specs.inner.LogFits.{LogFits};
ghost use Rattle.certificates.specs.inner.Filing.{
  LogHasRoom,
  equal_from,
  is_equal as is_equal_rule,
  is_of_other_view as is_of_other_view_rule,
  filing,
};

use certificate_log::{CERTIFICATE_WORDS, Certificate, VIEW_AT};
use protocol::{Answer, Refusal, Values};
use table::CERTIFICATE_COUNT_AT;

// What filing tells of a certificate: the second value of the call that issues it, so a number, as the C interface has it.
pub const FOUND: u32 = 1;

pub const APPENDED: u32 = 0;

// They are the definitions': nothing calls this.
pub fn filings() -> [u32; 2]
    ensures { result ≡ found ∷ appended ∷ [] }
{
    [FOUND, APPENDED]
}

// Whether the certificate whose words start at an index has these words. All are compared and joined by `&`: a comparison of slices
// leaves at the first that differs, and is slower where many have the same first words.
fn is_equal(log: &[u32], start: usize, words: &[u32; CERTIFICATE_WORDS]) -> bool
    requires { start + certificate_words ≤ length log.now }
    ensures { result ≡ equal_from log.now start words.now }
{
    let mut equal = true;
    for (i, word) in words.iter().enumerate() {
        equal &= log[start + i] == *word;
    }
    equal
}

// Whether a certificate of the log is of another view.
fn is_of_other_view(log: &[u32], number: usize, view: u32) -> bool
    requires { certificate_at number + certificate_words ≤ length log.now }
    ensures { result ≡ is_of_other_view_rule log.now view number }
{
    log[CERTIFICATE_WORDS * number + VIEW_AT] != view
}

// Whether four certificates, one after the other, are all of other views. It has one caller, so the compiler inlines it. A loop over four
// would be longer.
fn four_of_other_views(log: &[u32], number: usize, view: u32) -> bool
    requires { certificate_at (number + 4) ≤ length log.now }
    ensures { result ≡ four_ok (is_of_other_view_rule log.now view) number }
{
    is_of_other_view(log, number, view)
        & is_of_other_view(log, number + 1, view)
        & is_of_other_view(log, number + 2, view)
        & is_of_other_view(log, number + 3, view)
}

// The first of so many certificates that has these words, or their count, which is then the next one's number. Four of other views are
// passed at a time, up to the first four with one of its view: one at a time, by their views, takes a third longer.
fn find(log: &[u32], count: u32, words: &[u32; CERTIFICATE_WORDS]) -> u32
    requires { certificate_at count ≤ length log.now }
    ensures { result ≡ first_below count (is_equal_rule log.now words.now) }
{
    let end = count as usize;
    let view = words[VIEW_AT];
    let mut first: usize = 0;
    while first + 4 <= end && four_of_other_views(log, first, view) {
        first += 4;
    }
    for number in first..end {
        if is_equal(log, CERTIFICATE_WORDS * number, words) {
            return number as u32;
        }
    }
    count
}

// Writes a certificate of these words at the log's next slot, and counts it.
fn append(table: &mut [u32], log: &mut [u32], words: &[u32; CERTIFICATE_WORDS])
    requires { LogHasRoom table.old log.old }
    ensures { (b : List ℕ) → memory table.new log.new b
        ≡ append_certificate (memory table.old log.old b) words.now }
{
    let count = table[CERTIFICATE_COUNT_AT];
    let start = CERTIFICATE_WORDS * (count as usize);
    log[start..start + CERTIFICATE_WORDS].copy_from_slice(words);
    table[CERTIFICATE_COUNT_AT] = count + 1;
}

// Files a certificate. Gives the values of the call that issues it: the number of the first equal one, and FOUND, or of a new one, and
// APPENDED; where there is no room, the refusal and no change.
pub fn file(table: &mut [u32], log: &mut [u32], c: Certificate) -> Answer
    requires { LogFits table.old log.old }
    ensures { (b : List ℕ) → outcome result table.new log.new b
        ≡ outcome_by (λ m. filing m (words (certificate_of c))) table.old log.old b }
{
    let words = c.words();
    let count = table[CERTIFICATE_COUNT_AT];
    let number = find(log, count, &words);
    if number < count {
        return Ok(Values {
            first: number,
            second: FOUND,
        });
    }
    if CERTIFICATE_WORDS * (count as usize) < log.len() {
        append(table, log, &words);
        return Ok(Values {
            first: number,
            second: APPENDED,
        });
    }
    Err(Refusal::NoRoom)
}
