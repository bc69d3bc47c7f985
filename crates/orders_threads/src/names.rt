//! The names of rules.

ghost use Rattle.std.specs.Prelude.{◌≡◌};
ghost use Rattle.orders_threads.specs.Names.{rule_name, rule_of};

use orders_rules::Rule;

/// The name of a rule.
pub fn rule_name(rule: Rule) -> &'static [u8]
    ensures { result.now ≡ rule_name rule }
{
    match rule {
        Rule::Tmig => b"tmig",
        Rule::Linux => b"linux",
        Rule::LinuxMended => b"linux-mended",
        Rule::GoesOn => b"goes-on",
        Rule::NoSequence => b"no-sequence",
        Rule::NoSecondRead => b"no-second-read",
        Rule::EarlyRead => b"early-read",
        Rule::ChildFirst => b"child-first",
    }
}

/// The rule of a name.
pub fn rule_of(name: &[u8]) -> Option<Rule>
    ensures { result ≡ rule_of name.now }
{
    if name == rule_name(Rule::Tmig) {
        return Some(Rule::Tmig);
    }
    if name == rule_name(Rule::Linux) {
        return Some(Rule::Linux);
    }
    if name == rule_name(Rule::LinuxMended) {
        return Some(Rule::LinuxMended);
    }
    if name == rule_name(Rule::GoesOn) {
        return Some(Rule::GoesOn);
    }
    if name == rule_name(Rule::NoSequence) {
        return Some(Rule::NoSequence);
    }
    if name == rule_name(Rule::NoSecondRead) {
        return Some(Rule::NoSecondRead);
    }
    if name == rule_name(Rule::EarlyRead) {
        return Some(Rule::EarlyRead);
    }
    if name == rule_name(Rule::ChildFirst) {
        return Some(Rule::ChildFirst);
    }
    None
}
