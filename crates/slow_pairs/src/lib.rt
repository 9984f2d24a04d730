// A gate that has a rule, by the slow engine: judged once, then every index of the outputs.
#![tactic(auto)]

ghost use Rattle.book.specs.Answers.{outcome_of, Does};
ghost use Rattle.book.specs.Lent.{before, after, shown};
ghost use Rattle.into.specs.Into.{into_tests};
ghost use Rattle.slow_pairs.specs.Rows.{rule_call};

use book::{Answer, Controls};
use judging::{seat, size};
use slow::fill_pairs;
use slow_rules::Rule;

// A gate that has a rule: judged, and then every index of the outputs.
pub fn on_pairs(
    sr: &[f64],
    si: &[f64],
    reals: &mut [f64],
    imags: &mut [f64],
    n: u32,
    target: u32,
    controls: Controls,
    rule: Rule,
) -> Answer
    ensures { Does (outcome_of (into_tests n (shown sr si) (before reals imags)) (before reals imags)
        (rule_call rule n target controls (shown sr si))) result (after reals imags) }
{
    size(reals, imags, n)?;
    seat(sr, si, n, target, controls, rule.most())?;
    rule.judge()?;
    fill_pairs(rule, n, target, controls, sr, si, reals, imags);
    Ok(None)
}
