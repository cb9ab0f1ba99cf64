//! Which rules decide a write's copies, for all destinations at once.

ghost use Rattle.std.specs.Prelude.{◌≡◌, ◌<◌, ◌≤◌, ◌∷◌, ◌++◌, [], true, IfOk, OnOk, length, map};
ghost use Rattle.s3r_rules.specs.Choice.{fits};
ghost use Rattle.s3r_rules.specs.Writes.{seen};
ghost use Rattle.s3r_rules.specs.Destinations.{place_of, is_first, rise, destinations};
ghost use Rattle.s3r_rules.specs.Choices.{choice_to, choices_of, name_of, keeps, chosen_with};

use crate::choice::{Write, fits};
use crate::config::Config;
use crate::rule::Rule;
use s3r_names::{BucketName, is_key_below};
use std::alloc::{AllocError, Global};

/// A destination of a configuration: the place of its first rule, and of the rule that decides, where one does.
#[derive(Clone, Copy, Debug)]
pub struct Choice {
    pub first: usize,
    pub chosen: Option<usize>,
}

/// The name of a choice's destination.
fn name_of<'a>(rules: &'a [Rule], choice: &Choice) -> &'a [u8]
    ensures { result.now ≡ name_of rules.now choice.now }
{
    match rules.get(choice.first) {
        Some(rule) => rule.bucket.as_bytes(),
        None => &[],
    }
}

/// How many of the choices, which rise by their names, are for a name below this one.
fn place_of(choices: &[Choice], rules: &[Rule], name: &BucketName) -> usize
    requires { rise (map (name_of rules.now) choices.now) ≡ true }
    ensures at { result ≡ place_of name.now (map (name_of rules.now) choices.now) }
    ensures within { result ≤ length choices.now }
{
    choices.partition_point(|choice| is_key_below(name_of(rules, choice), name.as_bytes()))
}

/// Whether the first of these choices is for this name.
fn is_first(name: &BucketName, choices: &[Choice], rules: &[Rule]) -> bool
    ensures { result ≡ is_first name.now (map (name_of rules.now) choices.now) }
{
    match choices {
        [] => false,
        [choice, ..] => name_of(rules, choice) == name.as_bytes(),
    }
}

/// Whether a rule is chosen that has at least this priority.
fn keeps(rules: &[Rule], chosen: Option<usize>, priority: u32) -> bool
    ensures { result ≡ keeps rules.now chosen priority }
{
    match chosen {
        Some(place) => match rules.get(place) {
            Some(rule) => priority <= rule.priority,
            None => false,
        },
        None => false,
    }
}

/// The place of the rule that decides, where one rule more stands behind some of which one was chosen. The first of the
/// greatest priority decides, so it has to be exceeded.
fn chosen_with(rules: &[Rule], chosen: Option<usize>, rule: &Rule, fit: bool) -> Option<usize>
    ensures { result ≡ chosen_with rules.now chosen rule.now fit }
{
    if !fit || keeps(rules, chosen, rule.priority) {
        chosen
    } else {
        Some(rules.len())
    }
}

/// Makes the choices of some rules those with one rule more. Where the rule's bucket is known its choice may change, and else
/// it gets one in its place, so that the names rise still and each later rule finds its bucket by halving.
fn add_rule(
    choices: &mut Vec<Choice>,
    rules: &[Rule],
    rule: &Rule,
    write: &Write<'_>,
) -> Result<(), AllocError>
    requires so_far { choices.old.items ≡ choices_of (seen write.now) rules.now }
    ensures { OnOk result (choices.new.items ≡ choices_of (seen write.now) (rules.now ++ rule.now ∷ [])) }
{
    let fit = fits(rule, write, &rule.bucket);
    let place = place_of(choices.as_slice(), rules, &rule.bucket);
    if is_first(&rule.bucket, &choices.as_slice()[place..], rules) {
        let choice = &mut choices[place];
        choice.chosen = chosen_with(rules, choice.chosen, rule, fit);
        return Ok(());
    }
    let chosen = chosen_with(rules, None, rule, fit);
    let first = rules.len();
    choices.insert(place, Choice { first, chosen })?;
    Ok(())
}

/// The destinations of a configuration in rising order of their names, each with the rule by which the write is copied
/// there. Each rule is tested once, however many destinations there are.
pub fn choices(alloc: Global, config: &Config, write: &Write<'_>) -> Result<Vec<Choice>, AllocError>
    ensures { IfOk result (λ choices. choices.items ≡ map (choice_to (seen write.now) config.now) (destinations config.now)) }
{
    let rules = config.as_slice();
    let mut choices = Vec::new(alloc);
    for place in 0..rules.len() {
        add_rule(&mut choices, &rules[..place], &rules[place], write)?;
    }
    Ok(choices)
}
