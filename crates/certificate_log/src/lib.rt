// The certificate log: its numbers and kinds, where a certificate stands, how it is read, and the form of all that are issued. In a full
// memory that is the longest part of the form test.
#![tactic(auto)]

ghost use Rattle.std.specs.Prelude.{◌≡◌, [], ◌∷◌, ◌+◌, ◌≤◌, ◌<◌, length, get_or, eqb};
ghost use Rattle.protocol.specs.Memory.{
  memory,
  certificate_words,
  certificate_at as certificate_at_rule,
  certificate,
  kind_at,
  signer_at,
  view_at,
  proposed_block_at,
  of_view_at,
  subject_at,
  subject_boot_at,
  signer_boot_at,
  max_certificates,
  words,
};
ghost use Rattle.protocol.specs.Form.{all_below, last_kind};
ghost use Rattle.certificate_log.specs.inner.Certificates.{certificate_of, certificate_from};
ghost use Rattle.certificate_log.specs.inner.Kinds.{kind_word};
ghost use Rattle.certificate_log.specs.inner.Records.{certificate_ok, has_kind as has_kind_rule, exceeds, group_size, group_has_kinds as group_has_kinds_rule, group_exceeds as group_exceeds_rule};

use table::CEILING;

pub const CERTIFICATE_WORDS: usize = 8;

pub const KIND_AT: usize = 0;

pub const SIGNER_AT: usize = 1;

pub const VIEW_AT: usize = 2;

pub const PROPOSED_BLOCK_AT: usize = 3;

pub const OF_VIEW_AT: usize = 4;

pub const SUBJECT_AT: usize = 5;

pub const SUBJECT_BOOT_AT: usize = 6;

pub const SIGNER_BOOT_AT: usize = 7;

pub const MAX_CERTIFICATES: u32 = 4096;

// The numbers are those of the definitions: nothing calls these three.
pub fn width_and_offsets() -> [usize; 9]
    ensures { result
        ≡ certificate_words ∷ kind_at ∷ signer_at ∷ view_at ∷ proposed_block_at ∷ of_view_at ∷ subject_at ∷ subject_boot_at ∷ signer_boot_at ∷ [] }
{
    [
        CERTIFICATE_WORDS,
        KIND_AT,
        SIGNER_AT,
        VIEW_AT,
        PROPOSED_BLOCK_AT,
        OF_VIEW_AT,
        SUBJECT_AT,
        SUBJECT_BOOT_AT,
        SIGNER_BOOT_AT,
    ]
}

pub fn most_certificates() -> u32
    ensures { result ≡ max_certificates }
{
    MAX_CERTIFICATES
}

// A certificate's kind, with the number that stands for it in the log.
#[derive(Clone, Copy, PartialEq, Eq)]
pub enum Kind {
    Prop = 1,
    Commit = 2,
    NewView = 3,
    Acc = 4,
    Req = 5,
    Reply = 6,
}

pub const LAST_KIND: u32 = Kind::Reply as u32;

// It is the definition's: nothing calls this.
pub fn greatest_kind() -> u32
    ensures { result ≡ last_kind }
{
    LAST_KIND
}

impl Kind {
    // The number of the definitions.
    pub fn word(self) -> u32
        ensures { result ≡ kind_word self }
    {
        self as u32
    }
}

// The words of a certificate as they stand in the log: which of them are a kind, the form says.
#[derive(Clone, Copy)]
pub struct Certificate {
    pub kind: u32,
    pub signer: u32,
    pub view: u32,
    pub block: u32,
    pub of_view: u32,
    pub subject: u32,
    pub subject_boot: u32,
    pub signer_boot: u32,
}

impl Certificate {
    // One of a kind, that its signer signs at a boot: its other words are 0.
    pub fn signed(kind: Kind, signer: u32, boot: u32) -> Certificate
        ensures { result ≡ record {
          kind = kind_word kind;
          signer = signer;
          view = 0;
          block = 0;
          of_view = 0;
          subject = 0;
          subject_boot = 0;
          signer_boot = boot;
        } }
    {
        Certificate {
            kind: kind.word(),
            signer,
            view: 0,
            block: 0,
            of_view: 0,
            subject: 0,
            subject_boot: 0,
            signer_boot: boot,
        }
    }

    pub fn is(self, kind: Kind) -> bool
        ensures { result ≡ eqb self.kind (kind_word kind) }
    {
        self.kind == kind.word()
    }

    // Its words, in the order in which they stand in the log.
    pub fn words(self) -> [u32; CERTIFICATE_WORDS]
        ensures { result ≡ words (certificate_of self) }
    {
        [
            self.kind,
            self.signer,
            self.view,
            self.block,
            self.of_view,
            self.subject,
            self.subject_boot,
            self.signer_boot,
        ]
    }
}

// Where a certificate starts. The log stays a plain slice here and below: the calls that read it write to it next, and a view of it would
// have the same bound in each contract.
pub fn certificate_at(number: u32) -> usize
    ensures { result ≡ certificate_at_rule number }
{
    CERTIFICATE_WORDS * (number as usize)
}

// A word of a certificate, by its index in it.
pub fn certificate_word(log: &[u32], number: u32, at: usize) -> u32
    requires { certificate_at_rule number + at < length log.now }
    ensures { result ≡ get_or log.now (certificate_at_rule number + at) 0 }
{
    log[certificate_at(number) + at]
}

// A certificate read whole, so that each word is read once.
pub fn certificate_in(log: &[u32], number: u32) -> Certificate
    requires { certificate_at_rule number + certificate_words ≤ length log.now }
    ensures { result ≡ certificate_from (certificate (memory [] log.now []) number) }
{
    Certificate {
        kind: certificate_word(log, number, KIND_AT),
        signer: certificate_word(log, number, SIGNER_AT),
        view: certificate_word(log, number, VIEW_AT),
        block: certificate_word(log, number, PROPOSED_BLOCK_AT),
        of_view: certificate_word(log, number, OF_VIEW_AT),
        subject: certificate_word(log, number, SUBJECT_AT),
        subject_boot: certificate_word(log, number, SUBJECT_BOOT_AT),
        signer_boot: certificate_word(log, number, SIGNER_BOOT_AT),
    }
}

// How many certificates a turn of the loop tests.
const GROUP: usize = 8;

// Whether the certificate whose words start at an index is of some kind: the one lower bound of its form.
fn has_kind(log: &[u32], at: usize) -> bool
    requires { at + certificate_words ≤ length log.now }
    ensures { result ≡ has_kind_rule log.now at }
{
    log[at + KIND_AT] != 0
}

// Whether one of its words is above the greatest that it may be, in the order of the words.
fn exceeds(log: &[u32], at: usize, last_replica: u32, last_block: u32) -> bool
    requires { at + certificate_words ≤ length log.now }
    ensures { result ≡ exceeds log.now last_replica last_block at }
{
    (LAST_KIND < log[at + KIND_AT])
        | (last_replica < log[at + SIGNER_AT])
        | (CEILING < log[at + VIEW_AT])
        | (last_block < log[at + PROPOSED_BLOCK_AT])
        | (CEILING < log[at + OF_VIEW_AT])
        | (last_replica < log[at + SUBJECT_AT])
        | (CEILING < log[at + SUBJECT_BOOT_AT])
        | (CEILING < log[at + SIGNER_BOOT_AT])
}

// Whether all certificates of a group, whose words start at an index, are of some kind.
fn group_has_kinds(log: &[u32], at: usize) -> bool
    requires { at + certificate_at_rule group_size ≤ length log.now }
    ensures { result ≡ group_has_kinds_rule log.now at }
{
    let mut all = true;
    for i in 0..GROUP {
        all &= has_kind(log, at + CERTIFICATE_WORDS * i);
    }
    all
}

// Whether a word of a group is above the greatest that it may be. Each word is compared once, its greatest on the left, and all are joined by
// `|` alone: so the compiler compares four words at a time and need not copy what it compares them with.
fn group_exceeds(log: &[u32], at: usize, last_replica: u32, last_block: u32) -> bool
    requires { at + certificate_at_rule group_size ≤ length log.now }
    ensures { result ≡ group_exceeds_rule log.now last_replica last_block at }
{
    let mut any = false;
    for i in 0..GROUP {
        any |= exceeds(log, at + CERTIFICATE_WORDS * i, last_replica, last_block);
    }
    any
}

// Every issued certificate, up to the first group with one that fails. The words of a group start at `start`, a variable of its own: from
// one index for kinds and limits the compiler makes one test of both, without vectors. A `for` over the groups takes a sixth longer, and
// chunks of the log with a `fold` near three times as long.
pub fn certificates_formed(log: &[u32], count: u32, replicas: u32, added: u32) -> bool
    requires { (certificate_at_rule count ≤ length log.now) × (1 ≤ replicas) × (1 ≤ added) }
    ensures { result ≡ all_below count (certificate_ok log.now replicas added) }
{
    let end = count as usize;
    let last_replica = replicas - 1;
    let last_block = added - 1;
    let mut number: usize = 0;
    let mut start: usize = 0;
    while number + GROUP <= end {
        if !group_has_kinds(log, CERTIFICATE_WORDS * number) {
            return false;
        }
        if group_exceeds(log, start, last_replica, last_block) {
            return false;
        }
        number += GROUP;
        start += GROUP * CERTIFICATE_WORDS;
    }
    for last in number..end {
        let at = CERTIFICATE_WORDS * last;
        if !has_kind(log, at) || exceeds(log, at, last_replica, last_block) {
            return false;
        }
    }
    true
}
