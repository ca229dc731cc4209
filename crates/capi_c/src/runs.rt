// Runs, for C.
ghost use Rattle.std.specs.Prelude.{length};
ghost use Rattle.semantics.specs.Feed.{one_feed};
ghost use Rattle.runner.specs.Report.{Ran, run_of};

// Runs an image over lines, with an output room, a working room and a budget.
#[unsafe(no_mangle)]
pub extern "C" fn flowawk_run(
    image: &[u8],
    lines: &[u8],
    output: &mut [u8],
    work: &mut [u8],
    budget: u64,
    steps: &mut u64,
    records: &mut u64,
    bytes: &mut u64,
) -> u64
    ensures { Ran
        (run_of image.now (one_feed lines.now) output.old (length work.old)
        budget)
        (record { outcome = result; steps = steps.new; records = records.new; bytes = bytes.new })
        output.new work.old work.new }
{
    capi::flowawk_run(image, lines, output, work, budget, steps, records, bytes)
}
