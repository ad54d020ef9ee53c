// The type rules, code 7: judging an expression gives its type record, or the record of the first judgement that fails.
#![tactic(auto)]

ghost use Rattle.std.specs.Prelude.{◌≡◌, ◌<◌};
ghost use Rattle.answers.specs.declared.Fault.TheVariants.{IllTyped};
ghost use Rattle.records.specs.Limits.{word_bound};

use answers::Fault;

mod closing;
mod expressions;
mod leaves;
mod patterns;
mod scopes;
mod simple;

pub use expressions::judge_root;
pub use leaves::bound_at;
pub use scopes::Scope;

// The record at which a type rule is broken.
#[derive(Clone, Copy, Debug, PartialEq, Eq)]
pub struct BrokenRule {
    pub record: u32,
}

impl BrokenRule {
    fn at(rec: usize) -> BrokenRule
        requires { rec < word_bound }
        ensures { result.record ≡ rec }
    {
        BrokenRule { record: rec as u32 }
    }
}

impl From<BrokenRule> for Fault {
    ghost from_gives = { λ rule fault. fault ≡ IllTyped rule.record };

    fn from(rule: BrokenRule) -> Fault {
        Fault::IllTyped(rule.record)
    }
}
