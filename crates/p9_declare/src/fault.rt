// The rule that a file breaks first, and want of memory.
ghost use Rattle.std.specs.Prelude.{◌≡◌};
ghost use Rattle.std.specs.Option.{option_map};
ghost use Rattle.p9_lang.specs.Rules as rules;
ghost use Rattle.p9_operand.specs.Least.{earlier_of};
ghost use Rattle.p9_operand.specs.Told.{told_rule, told_least};
ghost use Rattle.p9_declare.specs.Told.{told_fault};
ghost use Rattle.p9_declare.specs.Judging.{TellsAt};

use p9_base::NoMemory;
use p9_operand::Rule;
use std::alloc::AllocError;
use thiserror::Error;

/// Why a file has no types.
#[derive(Debug, Drop, Error)]
pub enum TypingFault {
    /// A node, by its number, breaks a rule.
    #[error("a rule is broken")]
    Broken { node: usize, rule: Rule },
    #[error("out of memory")]
    Memory,
}

impl From<NoMemory> for TypingFault {
    ghost use Rattle.std.specs.Prelude.{◌≡◌};
    ghost use Rattle.p9_declare.specs.declared.fault.TypingFault.TheVariants.{Memory};

    ghost from_gives = { λ _ fault. fault ≡ Memory };

    fn from(_: NoMemory) -> TypingFault {
        TypingFault::Memory
    }
}

impl From<AllocError> for TypingFault {
    ghost use Rattle.std.specs.Prelude.{◌≡◌};
    ghost use Rattle.p9_declare.specs.declared.fault.TypingFault.TheVariants.{Memory};

    ghost from_gives = { λ _ fault. fault ≡ Memory };

    fn from(_: AllocError) -> TypingFault {
        TypingFault::Memory
    }
}

/// Unless a node breaks this rule.
pub fn unless_broken(node: usize, rule: Option<Rule>) -> Result<(), TypingFault>
    ensures { TellsAt result node (told_least rule) }
{
    match rule {
        Some(rule) => Err(TypingFault::Broken { node, rule }),
        None => Ok(()),
    }
}

// Whether a rule that a node breaks is told before another.
fn is_before(node: usize, rule: &Rule, other_node: usize, other: &Rule) -> bool
    ensures { result ≡ rules.is_before (rules.at_node node (told_rule rule.now)) (rules.at_node other_node (told_rule other.now)) }
{
    if node < other_node {
        return true;
    }
    if other_node < node {
        return false;
    }
    rule.number() < other.number()
}

/// The first rule that is broken, where a node breaks this one too.
pub fn also_broken(fault: TypingFault, node: usize, rule: Option<Rule>) -> TypingFault
    ensures { told_fault result ≡ option_map (λ broken. earlier_of broken node (told_least rule)) (told_fault fault) }
{
    match fault {
        TypingFault::Memory => TypingFault::Memory,
        TypingFault::Broken {
            node: first,
            rule: broken,
        } => match rule {
            None => TypingFault::Broken {
                node: first,
                rule: broken,
            },
            Some(other) => {
                if is_before(node, &other, first, &broken) {
                    TypingFault::Broken { node, rule: other }
                } else {
                    TypingFault::Broken {
                        node: first,
                        rule: broken,
                    }
                }
            }
        },
    }
}
