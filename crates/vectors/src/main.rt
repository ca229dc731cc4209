// Runs the cases of the data files, which tests/vectors.py makes, through the proved crates, and writes a line for each
// group: how many of how many passed. Of the cases of a file `wrong_..`, whose expectations are wrong, none may pass.
//
// A group is a module of a crate `vectors_..`, whose function `passes` judges one case; its variant and its arm in
// groups.rt; its line of `main`; and a function of tests/vectors.py or tests/program_cases.py, which makes the group's
// file. The judges are in crates of their own, so that no check takes long.
#![tactic(auto)]

mod groups;
mod walk;

use groups::Group;
use std::io::Result;
use walk::run;

// Runs every group: its cases, and those whose expectations are wrong.
fn main(rt: HostRuntime) -> Result<()> {
    run(&rt, Group::Limits, b"limits")?;
    run(&rt, Group::Limits, b"wrong_limits")?;
    run(&rt, Group::Arithmetic, b"arithmetic")?;
    run(&rt, Group::Arithmetic, b"wrong_arithmetic")?;
    run(&rt, Group::Reading, b"reading")?;
    run(&rt, Group::Reading, b"wrong_reading")?;
    run(&rt, Group::Decimal, b"decimal")?;
    run(&rt, Group::Decimal, b"wrong_decimal")?;
    run(&rt, Group::Compare, b"compare")?;
    run(&rt, Group::Compare, b"wrong_compare")?;
    run(&rt, Group::Search, b"search")?;
    run(&rt, Group::Search, b"wrong_search")?;
    run(&rt, Group::Copies, b"copies")?;
    run(&rt, Group::Copies, b"wrong_copies")?;
    run(&rt, Group::Words, b"words")?;
    run(&rt, Group::Words, b"wrong_words")?;
    run(&rt, Group::Match, b"match")?;
    run(&rt, Group::Match, b"wrong_match")?;
    run(&rt, Group::Split, b"split")?;
    run(&rt, Group::Split, b"wrong_split")?;
    run(&rt, Group::Field, b"field")?;
    run(&rt, Group::Field, b"wrong_field")?;
    run(&rt, Group::Read, b"read")?;
    run(&rt, Group::Read, b"wrong_read")?;
    run(&rt, Group::Write, b"write")?;
    run(&rt, Group::Write, b"wrong_write")?;
    run(&rt, Group::Check, b"check")?;
    run(&rt, Group::Check, b"wrong_check")?;
    run(&rt, Group::Operations, b"operations")?;
    run(&rt, Group::Operations, b"wrong_operations")?;
    run(&rt, Group::Records, b"records")?;
    run(&rt, Group::Records, b"wrong_records")?;
    run(&rt, Group::Runs, b"runs")?;
    run(&rt, Group::Runs, b"wrong_runs")?;
    run(&rt, Group::Translate, b"translate")?;
    run(&rt, Group::Translate, b"wrong_translate")?;
    run(&rt, Group::Ways, b"ways")?;
    run(&rt, Group::Ways, b"wrong_ways")?;
    run(&rt, Group::Refusals, b"refusals")?;
    run(&rt, Group::Refusals, b"wrong_refusals")?;
    run(&rt, Group::Summaries, b"summaries")?;
    run(&rt, Group::Summaries, b"wrong_summaries")?;
    run(&rt, Group::Options, b"options")?;
    run(&rt, Group::Options, b"wrong_options")?;
    run(&rt, Group::Budgets, b"budgets")?;
    run(&rt, Group::Budgets, b"wrong_budgets")?;
    Ok(())
}
