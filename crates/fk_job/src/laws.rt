//! Laws over the definitions of jobs and their texts. Each is the contract of a function that does nothing.

ghost use Rattle.std.specs.Prelude.{List, length, ℕ};
ghost use Rattle.fk_job.specs.Again.{HasCount, HasUtf8Texts, IsSameJob};
ghost use Rattle.fk_job.specs.JobText.{IsJobOf, IsWithin};
ghost use Rattle.fk_job.specs.RowText.{row_text};
ghost use Rattle.fk_job.specs.Spellings.{HasJobSpelling, IsText};
ghost use Rattle.fk_job.specs.declared.job.Job.{Job as AJob};
ghost use Rattle.fk_job.specs.declared.stamp.Stamp.{Stamp as AStamp};

/// Where a text gave a job and its failure's texts are UTF-8, the text that is written for it is
/// read as a job with the same jid, jobtype, queue, retry, reserve_for and at. The failure's count
/// is one of 64 bits, as its type has it.
pub fn a_written_job_is_read_again()
    ensures { (text : List ℕ) (job : AJob) (stamp : AStamp)
        → IsJobOf text job → HasCount stamp → HasUtf8Texts stamp
        → (again : AJob) × IsJobOf (row_text job stamp) again × IsSameJob job again }
{}

/// The texts of a job are no longer than the text that it is the job of, and a file can hold it where
/// that has fewer than 2^32 bytes.
pub fn the_job_of_a_text_has_a_spelling()
    ensures within { (text : List ℕ) (job : AJob)
        → IsJobOf text job → IsWithin (length text) job }
    ensures spelled { (text : List ℕ) (job : AJob)
        → IsText text → IsJobOf text job → HasJobSpelling job }
{}
