//! The further policies of a run, which its script may hand in.

ghost use Rattle.std.specs.Prelude.{◌≡◌, ◌∷◌, [], ◌++◌, IfErr, IfOk, OnOk};
ghost use Rattle.policy.specs.Format.{Declares, IsRefused};
ghost use Rattle.policy.specs.Policy.{Declared};
ghost use Rattle.commands.specs.Further.{AreUnread, DeclareEach};

use policy::{Policy, ReadPolicyError, read_policy};
use std::alloc::{AllocError, Global};
use std::marker::Model;

/// The text of a further policy, as it stands in its file.
#[derive(Drop)]
pub struct PolicyText {
    bytes: Vec<u8>,
}

impl Model for PolicyText {
    ghost use Rattle.std.specs.Prelude.{List, ℕ};

    ghost Value = { List ℕ };

    ghost view = { λ text. text.bytes.items };
}

impl PolicyText {
    /// The text with these bytes. It takes no memory.
    pub fn new(bytes: Vec<u8>) -> PolicyText
        ensures { result ≡ bytes.items }
    {
        PolicyText { bytes }
    }

    /// Its bytes.
    pub fn bytes(&self) -> &[u8]
        ensures { result.now ≡ self.now }
    {
        self.bytes.as_slice()
    }
}

/// The further policies of a run, in their order.
pub struct Further {
    policies: Vec<Policy>,
}

/// Why further policies can't be read: the fault of the first that has one, and its place among them, from 0.
#[derive(Clone, Copy)]
pub struct FurtherFault {
    pub place: usize,
    pub why: ReadPolicyError,
}

// Written out, so that where the policies end stands one call, and not what ends each part of each of them.
impl Drop for Further {
    fn drop(self) {
        let Further { policies: _ } = self;
    }
}

impl Model for Further {
    ghost use Rattle.std.specs.Prelude.{List};
    ghost use Rattle.policy.specs.Policy.{Declared};

    ghost Value = { List Declared };

    ghost view = { λ further. further.policies.items };
}

impl Further {
    /// The policies, for a run, or for a journal.
    pub fn into_policies(self) -> Vec<Policy> {
        let Further { policies } = self;
        policies
    }

    /// The policies, for a run.
    pub fn policies(&self) -> &[Policy]
        ensures { result.now ≡ self.now }
    {
        self.policies.as_slice()
    }
}

// Puts a policy after the others.
fn put_policy(policies: &mut Vec<Policy>, policy: Policy) -> Result<(), AllocError>
    ensures { OnOk result (policies.new.items ≡ policies.old.items ++ policy ∷ []) }
{
    Ok(policies.push(policy)?)
}

// Reads a text, and puts what it declares after the others.
fn read_one(
    alloc: Global,
    text: &PolicyText,
    policies: &mut Vec<Policy>,
) -> Result<(), ReadPolicyError>
    ensures read { OnOk result ((policy : Declared) × Declares text.now policy × (policies.new.items ≡ policies.old.items ++ policy ∷ [])) }
    ensures refused { IfErr result (IsRefused text.now) }
{
    match read_policy(alloc, text.bytes()) {
        Ok(policy) => match put_policy(policies, policy) {
            Ok(()) => Ok(()),
            Err(_) => Err(ReadPolicyError::OutOfMemory),
        },
        Err(why) => Err(why),
    }
}

/// Reads texts in their order: what each declares, or the fault of the first that has one. Their kernels' texts
/// aren't read.
pub fn read_further(alloc: Global, texts: &[PolicyText]) -> Result<Further, FurtherFault>
    ensures passed { IfOk result (DeclareEach texts.now) }
    ensures refused { IfErr result (λ fault. AreUnread texts.now fault.why) }
{
    let mut policies = Vec::new(alloc);
    for text in texts {
        if let Err(why) = read_one(alloc, text, &mut policies) {
            return Err(FurtherFault {
                place: policies.len(),
                why,
            });
        }
    }
    Ok(Further { policies })
}
