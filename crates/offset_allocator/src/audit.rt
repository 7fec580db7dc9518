// The audit, with the head by value. It changes nothing but the scratch, so the head does not come back.
ghost use Rattle.tables.specs.Calls.{edition32};
ghost use Rattle.audit_words.specs.Promise.{AuditPromise};
ghost use Rattle.answers.specs.Answers.{audit_says};
ghost use Rattle.offset_allocator.specs.HeadWords.{head_words};

use crate::head::Head;
use answers::Refusal;

impl Head {
    // Sound, or why not.
    pub fn audit(
        self,
        nodes: &[u32],
        free_nodes: &[u32],
        scratch: &mut [u32],
    ) -> Result<(), Refusal>
        ensures { AuditPromise edition32 (head_words self nodes.now free_nodes.now)
            scratch.old scratch.new (audit_says result) }
    {
        auditing::audit(
            self.totals,
            &self.bin_indices,
            &self.used_bins,
            nodes,
            free_nodes,
            scratch,
        )
    }
}
