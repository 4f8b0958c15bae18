// An answer's number, and its values in a reply of 48 bytes.
#![tactic(auto)]

mod fields;
mod told;

ghost use Rattle.std.specs.Prelude.{◌≡◌, length};
ghost use Rattle.call_types.specs.Numbers.{number_of};
ghost use Rattle.call_contract.specs.Answers.{done_reply};
ghost use Rattle.c_reply.specs.Reply.{reply_over, reply_after};
ghost use Rattle.c_reply.specs.Fields.{told_reply};

use call_types::Refusal;
pub use fields::Fields;
pub use told::Told;

// The number of a refusal, as C gets it.
fn number(refusal: Refusal) -> u32
    ensures { result ≡ number_of refusal }
{
    u32::from(u8::from(refusal))
}

// PUT, DELETE, COPY, COMMIT, ABORT and DELETE_OBJECTS: the number alone.
pub fn done(a: Result<(), Refusal>) -> u32
    ensures { result ≡ (done_reply a).result }
{
    match a {
        Ok(()) => 0,
        Err(refusal) => number(refusal),
    }
}

// The same where a reply is lent: all of it 0 once the call is done.
pub fn done_alone(a: Result<(), Refusal>, reply: &mut [u8]) -> u32
    requires { length reply.old ≡ 48 }
    ensures { (result ≡ (done_reply a).result) × (reply.new ≡ reply_after (done_reply a) reply.old) }
{
    match a {
        Ok(()) => {
            fields::write(reply, Fields::NONE);
            0
        }
        Err(refusal) => number(refusal),
    }
}

// The same of an answer that tells more: what it tells, in the reply.
pub fn tell<T: Told>(a: Result<T, Refusal>, reply: &mut [u8]) -> u32
    requires { length reply.old ≡ 48 }
    ensures number { result ≡ (told_reply T.told a).result }
    ensures bytes { reply.new ≡ reply_over (told_reply T.told a).answer reply.old }
{
    match a {
        Ok(x) => {
            fields::write(reply, x.fields());
            0
        }
        Err(refusal) => number(refusal),
    }
}
