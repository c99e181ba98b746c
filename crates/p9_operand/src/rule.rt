// The rules that a file may break behind its grammar, and which of several is told.
ghost use Rattle.std.specs.Prelude.{◌≡◌};
ghost use Rattle.p9_lang.specs.Rules.{rule_number, breaks_if};
ghost use Rattle.p9_operand.specs.Least.{least, least_of_both};
ghost use Rattle.p9_operand.specs.Told.{told_rule, told_least};

use p9_base::NoMemory;
use p9_lang::Ident;
use std::alloc::AllocError;
use thiserror::Error;

/// A rule that a node breaks, with the name that it tells of.
#[derive(Debug, Drop)]
pub enum Rule {
    /// The tree isn't one of the grammar.
    Malformed,
    Incomplete,
    Ambiguous(Ident),
    Undeclared(Ident),
    Redeclared(Ident),
    NotLvalue,
    BadOperands,
    BadAssign,
    NotFunction,
    ArgCount,
    NoMember(Ident),
    NotScalar,
    BadConstant,
    BadReturn,
    Misplaced,
    TooManyItems,
}

/// Why there is no answer.
#[derive(Debug, Drop, Error)]
pub enum RuleFault {
    #[error("a rule is broken")]
    Rule(Rule),
    #[error("out of memory")]
    Memory,
}

impl From<NoMemory> for RuleFault {
    ghost use Rattle.std.specs.Prelude.{◌≡◌};
    ghost use Rattle.p9_operand.specs.declared.rule.RuleFault.TheVariants.{Memory};

    ghost from_gives = { λ _ fault. fault ≡ Memory };

    fn from(_: NoMemory) -> RuleFault {
        RuleFault::Memory
    }
}

impl From<AllocError> for RuleFault {
    ghost use Rattle.std.specs.Prelude.{◌≡◌};
    ghost use Rattle.p9_operand.specs.declared.rule.RuleFault.TheVariants.{Memory};

    ghost from_gives = { λ _ fault. fault ≡ Memory };

    fn from(_: AllocError) -> RuleFault {
        RuleFault::Memory
    }
}

impl Rule {
    /// The rule's number, by which the least of several is told.
    pub fn number(&self) -> u32
        ensures { result ≡ rule_number (told_rule self.now) }
    {
        match self {
            Rule::Malformed => 10,
            Rule::Incomplete => 13,
            Rule::Ambiguous(_) => 14,
            Rule::Undeclared(_) => 15,
            Rule::Redeclared(_) => 16,
            Rule::NotLvalue => 17,
            Rule::BadOperands => 18,
            Rule::BadAssign => 19,
            Rule::NotFunction => 20,
            Rule::ArgCount => 21,
            Rule::NoMember(_) => 22,
            Rule::NotScalar => 23,
            Rule::BadConstant => 24,
            Rule::BadReturn => 25,
            Rule::Misplaced => 26,
            Rule::TooManyItems => 28,
        }
    }
}

/// The rule, where it is broken.
pub fn breaks_if(holds: bool, rule: Rule) -> Option<Rule>
    ensures { told_least result ≡ least (breaks_if holds (told_rule rule)) }
{
    if holds { Some(rule) } else { None }
}

/// Of what is told of some rules and of others behind them, what is told of all.
pub fn least_of_both(first: Option<Rule>, second: Option<Rule>) -> Option<Rule>
    ensures { told_least result ≡ least_of_both (told_least first) (told_least second) }
{
    match first {
        None => second,
        Some(rule) => match second {
            None => Some(rule),
            Some(other) => {
                if other.number() < rule.number() {
                    Some(other)
                } else {
                    Some(rule)
                }
            }
        },
    }
}
