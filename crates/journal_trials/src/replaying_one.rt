// One journal, replayed on tables for 1,024 records: what comes of it is counted and summed up, and its lines are printed if they are to be shown.
use crate::counts::Counts;
use journal_lines::Lines;
use records::totals::Totals;
use replaying::Made;

// No journal here has as many records as that.
pub fn replay(
    shown: bool,
    journal: &[u8],
    counts: &mut Counts,
    out: &mut Lines,
    nodes: &mut [u32; 8192],
    free_nodes: &mut [u32; 1024],
) {
    let mut bin_indices = [0u32; 256];
    let mut used_bins = [0u8; 32];
    let mut totals = Totals::zeros();
    let mut at = 0;
    for _ in 0..65536 {
        let stepped = replaying::step(
            journal,
            at,
            totals,
            &mut bin_indices,
            &mut used_bins,
            nodes,
            free_nodes,
        );
        totals = stepped.totals;
        match stepped.outcome {
            Ok(Some(Made { answer, next })) => {
                counts.of_answer(answer);
                if shown {
                    out.answer_line(answer);
                }
                at = next;
            }
            Ok(None) => {
                counts.of_end();
                break;
            }
            Err(why) => {
                counts.of_broken(why);
                if shown {
                    out.last_line(why);
                }
                break;
            }
        }
    }
    out.flush();
}

// Its lines printed, and what is counted of it thrown away.
pub fn show(journal: &[u8], out: &mut Lines) {
    let mut counts = Counts::new();
    let mut nodes = [0u32; 8192];
    let mut free_nodes = [0u32; 1024];
    replay(true, journal, &mut counts, out, &mut nodes, &mut free_nodes);
}
