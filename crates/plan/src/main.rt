// Checks the plan texts whose files are named, and prints the rows of each: `plan plans/origin-double.plan`.
#![tactic(auto)]

use anyhow::bail;
use inspection::class::PerClass;
use plan_texts::reading::{PlanError, read_plan};
use plans::plan_book::PlanBook;
use plans::rows::{LimitRow, LotRow};
use std::{env, fs};

fn print_lot_row(rt: &HostRuntime, row: &LotRow) -> anyhow::Result<()> {
    println!(rt;
        "  {}, lots from {}: first sample {}, both {}",
        row.status, row.lowest_size, row.first_sample, row.total_sample,
    )?;
    let PerClass {
        critical,
        major,
        total,
    } = row.numbers;
    for (name, numbers) in [("critical", critical), ("major", major), ("total", total)] {
        println!(rt;
            "    {name}: first sample accepted to {}, rejected from {}, both accepted to {}",
            numbers.accept_first, numbers.reject_first, numbers.accept_both,
        )?;
    }
    Ok(())
}

fn print_limit_row(rt: &HostRuntime, row: &LimitRow) -> anyhow::Result<()> {
    let PerClass {
        critical,
        major,
        total,
    } = row.limits;
    println!(rt;
        "  relief, from {} units: critical {critical}, major {major}, total {total}",
        row.lowest_units,
    )?;
    Ok(())
}

fn print_plan(rt: &HostRuntime, plan: &PlanBook) -> anyhow::Result<()> {
    for row in plan.lots() {
        print_lot_row(rt, row)?;
    }
    for row in plan.limits() {
        print_limit_row(rt, row)?;
    }
    Ok(())
}

fn show(rt: &HostRuntime, path: &str) -> anyhow::Result<()> {
    let text = fs::read(rt, path)?;
    println!(rt; "{path}")?;
    let plan = read_plan(&text, rt.alloc());
    if let Err(PlanError::Refused(refusal)) = &plan {
        println!(rt; "  {refusal}")?;
        bail!("a plan is refused");
    }
    print_plan(rt, &plan?)
}

fn main(rt: HostRuntime) -> anyhow::Result<()> {
    for path in env::args(&rt)?.skip(1) {
        show(&rt, path.as_str())?;
    }
    Ok(())
}
