//! Who may update which records of a zone, by rules: the plain cases of BIND's `update-policy`.
#![tactic(auto)]

mod policy;
mod rule_text;

pub use policy::{Policy, Rule, Scope};
pub use rule_text::{RuleTextError, read_rule};
