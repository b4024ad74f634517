// The rules that a row of the filled table reduces by, and the lowest of them that fails.
ghost use Rattle.std.specs.Prelude.{◌≡◌, ◌<◌, not, IfSome};
ghost use Rattle.soundness.specs.Laws.Judged.{kept_at, MarksRules, fault_at};
ghost use Rattle.soundness.specs.Laws.Rules.{rule_number, marked_by};
ghost use Rattle.soundness.specs.Laws.Faults.{Sides};

use crate::paths::Row;
use crate::rule::Rule;
use tables::Action;

// The rule that an entry reduces by; accept is rule 1.
fn rule_of(a: Action) -> Option<u32>
    ensures { result ≡ rule_number a }
{
    match a {
        Action::Blank | Action::Shift(_) => None,
        Action::Reduce(r) => Some(r),
        Action::Accept => Some(1),
    }
}

// Marks the rule.
fn mark(rules: &mut [bool], rule: Option<u32>)
    ensures { rules.new ≡ marked_by rules.old rule }
{
    if let Some(r) = rule {
        number::put(rules, r as usize, true);
    }
}

impl<'a> Row<'a> {
    // The rules that the row reduces by.
    fn rules(self) -> [bool; 1025]
        ensures { MarksRules self.entry.paths.judged self.entry.state result }
    {
        let judged = self.paths.judged;
        let z = judged.grammar.sizes;
        // No heap: a set of rules is flags in the frame.
        let mut rules = [false; 1025];
        for a in 0..z.terminals {
            let entry = entries::filled_action_at(
                z,
                judged.table.entries,
                judged.signing.rules,
                self.state,
                a,
            );
            mark(&mut rules, rule_of(entry));
        }
        rules
    }

    // The rule is one of those that the row reduces by, and some path into the state breaks a condition for it.
    fn breaks(self, rules: &[bool], rule: Rule) -> bool
        requires sides { Sides self.paths.judged rule }
        requires marked { MarksRules self.paths.judged self.state rules.now }
        ensures { result ≡ not (kept_at self.entry.paths.judged self.entry.state rule.entry.number) }
    {
        number::at(rules, rule.number as usize, false) && self.fails(rule)
    }

    // The lowest rule, counted from 0, that the row reduces by and that fails on some path.
    pub(crate) fn lowest_failing(self) -> Option<usize>
        ensures lowest { result ≡ fault_at self.entry.paths.judged self.entry.state }
        ensures below { IfSome result (λ i. i < 1024) }
    {
        let grammar = self.paths.judged.grammar;
        let rules = self.rules();
        // The right sides stand one after the other, so where the next one begins goes along.
        let mut from = 0;
        for (i, n) in grammar.lens.iter().enumerate() {
            let to = from + *n as usize;
            let rule = Rule {
                number: i as u32 + 1,
                left: grammar.left[i],
                right: &grammar.rights[from..to],
            };
            if self.breaks(&rules, rule) {
                return Some(i);
            }
            from = to;
        }
        None
    }
}
