//! The words of commands.
ghost use Rattle.std.specs.Prelude.{◌≡◌};
ghost use Rattle.floyd_script_trees.specs.Words as specs;

use floyd_text::Rule;

/// The command that has the word.
#[tactic(auto, unfolding(crate::specs::Words::rule_of))]
pub fn rule_of(text: &[u8]) -> Option<Rule>
    ensures { result ≡ specs.rule_of text.now }
{
    if let Some(rule) = statement_rule(text) {
        return Some(rule);
    }
    if let Some(rule) = thread_rule(text) {
        return Some(rule);
    }
    if let Some(rule) = part_rule(text) {
        return Some(rule);
    }
    if let Some(rule) = memory_rule(text) {
        return Some(rule);
    }
    if let Some(rule) = hypothesis_rule(text) {
        return Some(rule);
    }
    pure_rule(text)
}

fn statement_rule(text: &[u8]) -> Option<Rule>
    ensures { result ≡ specs.rule_in specs.statement_rules text.now }
{
    match text {
        b"forward" => Some(Rule::Forward),
        b"forward_if" => Some(Rule::ForwardIf),
        b"forward_while" => Some(Rule::ForwardWhile),
        b"forward_loop" => Some(Rule::ForwardLoop),
        b"forward_switch" => Some(Rule::ForwardSwitch),
        b"forward_call" => Some(Rule::ForwardCall),
        b"forward_call_ptr" => Some(Rule::ForwardCallPtr),
        b"use_spec" => Some(Rule::UseSpec),
        _ => None,
    }
}

fn thread_rule(text: &[u8]) -> Option<Rule>
    ensures { result ≡ specs.rule_in specs.thread_rules text.now }
{
    if text == b"forward_acquire".as_slice() {
        Some(Rule::ForwardAcquire)
    } else if text == b"forward_release".as_slice() {
        Some(Rule::ForwardRelease)
    } else if text == b"forward_spawn".as_slice() {
        Some(Rule::ForwardSpawn)
    } else {
        None
    }
}

fn part_rule(text: &[u8]) -> Option<Rule>
    ensures { result ≡ specs.rule_in specs.part_rules text.now }
{
    match text {
        b"Intros" => Some(Rule::Intros),
        b"Exists" => Some(Rule::Exists),
        b"cancel" => Some(Rule::Cancel),
        b"weaken" => Some(Rule::Weaken),
        b"unfold" => Some(Rule::Unfold),
        b"fold" => Some(Rule::Fold),
        b"facts" => Some(Rule::Facts),
        b"valid" => Some(Rule::Valid),
        b"apply" => Some(Rule::Apply),
        b"induction" => Some(Rule::Induction),
        b"apply_ih" => Some(Rule::ApplyIh),
        _ => None,
    }
}

fn memory_rule(text: &[u8]) -> Option<Rule>
    ensures { result ≡ specs.rule_in specs.memory_rules text.now }
{
    if text == b"split_array".as_slice() {
        Some(Rule::SplitArray)
    } else if text == b"join_array".as_slice() {
        Some(Rule::JoinArray)
    } else if text == b"split_struct".as_slice() {
        Some(Rule::SplitStruct)
    } else if text == b"join_struct".as_slice() {
        Some(Rule::JoinStruct)
    } else if text == b"split_share".as_slice() {
        Some(Rule::SplitShare)
    } else if text == b"join_share".as_slice() {
        Some(Rule::JoinShare)
    } else if text == b"reroot".as_slice() {
        Some(Rule::Reroot)
    } else {
        None
    }
}

fn hypothesis_rule(text: &[u8]) -> Option<Rule>
    ensures { result ≡ specs.rule_in specs.hypothesis_rules text.now }
{
    match text {
        b"law" => Some(Rule::Law),
        b"rewrite" => Some(Rule::Rewrite),
        b"cut" => Some(Rule::Cut),
        b"destruct" => Some(Rule::Destruct),
        b"specialize" => Some(Rule::Specialize),
        b"mp" => Some(Rule::Mp),
        b"unfold_fun" => Some(Rule::UnfoldFun),
        b"discriminate" => Some(Rule::Discriminate),
        b"inject" => Some(Rule::Inject),
        _ => None,
    }
}

fn pure_rule(text: &[u8]) -> Option<Rule>
    ensures { result ≡ specs.rule_in specs.pure_rules text.now }
{
    match text {
        b"refl" => Some(Rule::Refl),
        b"trivial" => Some(Rule::Trivial),
        b"intro" => Some(Rule::Intro),
        b"left" => Some(Rule::Left),
        b"right" => Some(Rule::Right),
        b"split" => Some(Rule::Split),
        b"simpl" => Some(Rule::Simpl),
        b"lia" => Some(Rule::Lia),
        _ => None,
    }
}
