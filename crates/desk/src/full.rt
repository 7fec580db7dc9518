// The full report: a row for each class that holds a free region, and for the sixteen classes from 240 on, which none enters and whose values only 64
// bits hold.
use answers::FullAnswer;

fn print_rows(rt: &impl Print, sizes: &[u64; 256], counts: &[u32; 256]) {
    let _ = println!(rt; "     class        value  free regions");
    for (class, (value, count)) in sizes.iter().zip(counts.iter()).enumerate() {
        if 240 <= class || *count != 0 {
            let _ = println!(rt; "{class:>10}{value:>13}{count:>14}");
        }
    }
}

pub fn print_report(rt: &impl Print, full: FullAnswer) {
    let outcome = full.outcome;
    let sizes = full.sizes;
    let counts = full.counts;
    match outcome {
        Ok(()) => print_rows(rt, &sizes, &counts),
        Err(why) => {
            let _ = println!(rt; "refusal {}", why.number());
        }
    }
}
