// Worked cases: the ones that are proved of the definitions, and examples that are run.
#![tactic(auto)]

ghost use Rattle.cases.specs.Bench.{BenchCases};

// The worked cases hold of the definitions that the contracts cite.
pub fn bench_cases_hold()
    ensures { BenchCases }
{}

#[cfg(test)]
mod meters;
