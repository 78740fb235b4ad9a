// Records: a body length, a kind and a body; and the sign-off that ends every file.
ghost use Rattle.std.specs.Prelude.{◌≡◌, ◌++◌, ◌+◌, ◌*◌, ◌^◌, ◌<◌, ◌≤◌, length};
ghost use Rattle.files.specs.Bytes.{u16_bytes, u32_bytes, placed};
ghost use Rattle.files.specs.Clauses.{IsBelow, IsRule};
ghost use Rattle.files.specs.Outcome.{outcome_of};
ghost use Rattle.files.specs.Records.{offset_limit, body_length, kind_at, record_end, body_fits, head_at, numbers_at, sign_off_at, signer_of, record_bytes};

use crate::bytes;
use crate::refusals::{Reason, Refusal};

// The kinds of records.
// Kept: numbers, since one `match` over a kind's number, with a range for the unknown kinds, is a rule of
// the project, and its arms name constants; an enum beside them would name each kind twice.
pub(crate) const HEADER: usize = 1;

pub(crate) const VARIABLE: usize = 2;

pub(crate) const GOAL: usize = 3;

pub(crate) const ACTION: usize = 4;

pub(crate) const SIGN_OFF: usize = 5;

pub(crate) const VARIABLE_ORIGIN: usize = 6;

pub(crate) const ACTION_ORIGIN: usize = 7;

pub(crate) const PLAN: usize = 8;

// The body length rule of a kind: at least `least`, in steps of `step`, at most `limit`.
#[derive(Clone, Copy)]
struct Rule {
    least: usize,
    step: usize,
    limit: usize,
}

const HEADER_BODY: Rule = Rule {
    least: 4,
    step: 65536,
    limit: 4,
};

const VARIABLE_BODY: Rule = Rule {
    least: 4,
    step: 65536,
    limit: 4,
};

const GOAL_BODY: Rule = Rule {
    least: 0,
    step: 4,
    limit: 256,
};

const ACTION_BODY: Rule = Rule {
    least: 8,
    step: 1,
    limit: 65535,
};

const SIGN_OFF_BODY: Rule = Rule {
    least: 8,
    step: 65536,
    limit: 8,
};

const VARIABLE_ORIGIN_BODY: Rule = Rule {
    least: 4,
    step: 2,
    limit: 66,
};

const ACTION_ORIGIN_BODY: Rule = Rule {
    least: 0,
    step: 2,
    limit: 1024,
};

const PLAN_BODY: Rule = Rule {
    least: 0,
    step: 2,
    limit: 8192,
};

// No body fits.
const UNKNOWN_BODY: Rule = Rule {
    least: 65536,
    step: 1,
    limit: 0,
};

// The body length rule of each kind, and of those that are unknown.
#[tactic(auto, unfolding(crate::specs::Records::body_rule))]
fn body_rule(kind: usize) -> Rule
    ensures { IsRule result kind }
{
    match kind {
        HEADER => HEADER_BODY,
        VARIABLE => VARIABLE_BODY,
        GOAL => GOAL_BODY,
        ACTION => ACTION_BODY,
        SIGN_OFF => SIGN_OFF_BODY,
        VARIABLE_ORIGIN => VARIABLE_ORIGIN_BODY,
        ACTION_ORIGIN => ACTION_ORIGIN_BODY,
        PLAN => PLAN_BODY,
        0 | 9.. => UNKNOWN_BODY,
    }
}

#[tactic(auto, unfolding(crate::specs::Records::body_length))]
pub(crate) fn body_length(s: &[u8], at: usize) -> usize
    ensures { IsBelow result (body_length s.now at) 65536 }
{
    bytes::u16_at(s, at)
}

#[tactic(auto, unfolding(crate::specs::Records::kind_at))]
pub(crate) fn kind_at(s: &[u8], at: usize) -> usize
    requires { at < offset_limit }
    ensures { result ≡ kind_at s.now at }
{
    bytes::u16_at(s, at + 2)
}

// Where the record at `at` ends.
#[tactic(auto, unfolding(crate::specs::Records::record_end))]
pub(crate) fn record_end(s: &[u8], at: usize) -> usize
    requires { at < offset_limit }
    ensures { IsBelow result (record_end s.now at) (at + 65540) }
{
    at + 4 + body_length(s, at)
}

// Whether a body of `body` bytes fits the rule of its kind.
#[tactic(auto, using(crate::proofs::Guards::forms), unfolding(crate::specs::Records::body_fits))]
fn check_body(allowed: Rule, body: usize, at: usize) -> Result<(), Refusal>
    requires { 0 < allowed.step }
    ensures { outcome_of result ≡ body_fits allowed body at }
{
    if body < allowed.least {
        return Err(Refusal::at(Reason::WrongLength, at));
    }
    let broken = (body - allowed.least) % allowed.step;
    if broken != 0 {
        return Err(Refusal::at(Reason::WrongLength, at));
    }
    if allowed.limit < body {
        return Err(Refusal::at(Reason::OutsideLimits, at));
    }
    Ok(())
}

// The head of the record at `at`, where `kind` is due.
#[tactic(auto, using(crate::proofs::Guards::forms), unfolding(crate::specs::Records::head_at))]
pub(crate) fn check_head(s: &[u8], at: usize, kind: usize) -> Result<(), Refusal>
    requires { at < offset_limit }
    ensures { outcome_of result ≡ head_at s.now at kind }
{
    if s.len() < at + 4 {
        return Err(Refusal::at(Reason::CutShort, at));
    }
    let end = record_end(s, at);
    if s.len() < end {
        return Err(Refusal::at(Reason::CutShort, at));
    }
    let found = kind_at(s, at);
    if found != kind {
        return Err(Refusal::at(Reason::NotDue, at));
    }
    check_body(body_rule(found), body_length(s, at), at)
}

// `count` numbers of 2 bytes, each below the limit.
pub(crate) fn check_numbers(limit: usize, s: &[u8], at: usize, count: usize) -> Result<(), Refusal>
    requires { at + 2 * count < 2 ^ 64 }
    ensures { outcome_of result ≡ numbers_at limit s.now at count }
{
    for i in 0..count {
        let place = at + 2 * i;
        if limit <= bytes::u16_at(s, place) {
            return Err(Refusal::at(Reason::OutOfRange, place));
        }
    }
    Ok(())
}

// The sign-off at `at`, behind which nothing stands.
#[tactic(auto, using(crate::proofs::Guards::forms), unfolding(crate::specs::Records::sign_off_at))]
pub(crate) fn check_sign_off(s: &[u8], at: usize) -> Result<(), Refusal>
    requires { at < offset_limit }
    ensures { outcome_of result ≡ sign_off_at s.now at }
{
    check_head(s, at, SIGN_OFF)?;
    let signer = bytes::u32_at(s, at + 4);
    if signer < 1 {
        return Err(Refusal::at(Reason::WrongSignOff, at + 4));
    }
    let before = bytes::u32_at(s, at + 8);
    if before != at {
        return Err(Refusal::at(Reason::WrongSignOff, at + 8));
    }
    if s.len() != at + 12 {
        return Err(Refusal::at(Reason::NotDue, at + 12));
    }
    Ok(())
}

// The signer of an accepted file.
#[tactic(auto, unfolding(crate::specs::Records::signer_of))]
pub fn signer(s: &[u8]) -> usize
    ensures { IsBelow result (signer_of s.now) 4294967296 }
{
    if s.len() < 8 {
        return bytes::u32_at(s, 0);
    }
    bytes::u32_at(s, s.len() - 8)
}

// Writes the head of a record with a body of `body` bytes.
pub(crate) fn put_head(buffer: &mut [u8], at: usize, kind: usize, body: usize)
    requires { at + 4 ≤ length buffer.old }
    ensures { buffer.new ≡ placed buffer.old at (u16_bytes body ++ u16_bytes kind) }
{
    bytes::put_u16(buffer, at, body);
    bytes::put_u16(buffer, at + 2, kind);
}

// Writes the sign-off behind `at` bytes of records.
pub fn put_sign_off(buffer: &mut [u8], at: usize, signer: usize)
    requires { at + 12 ≤ length buffer.old }
    ensures { buffer.new ≡ placed buffer.old at (record_bytes 5 (u32_bytes signer ++ u32_bytes at)) }
{
    put_head(buffer, at, SIGN_OFF, 8);
    bytes::put_u32(buffer, at + 4, signer);
    bytes::put_u32(buffer, at + 8, at);
}
